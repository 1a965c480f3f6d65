//! Laws of an engine's calls: each contract is one, and no body does anything.
ghost use Rattle.rv_engine.specs.EngineRuns.{AccountsAreKept, EnginesAreRuns, HandsOnNext, LeftIsStored};
ghost use Rattle.rv_engine.specs.EngineRuns.{ToldIsStored, WrittenAreCounted};

/// After an engine's calls its hub is that of the events that were handed on, in order. The lines of all
/// entries that these made are written or gathered, in order, except for the entries that are left.
pub fn engines_are_runs()
    ensures { EnginesAreRuns }
{}

/// The lines that are written and gathered are those of as many entries as the hub is told.
pub fn written_are_counted()
    ensures { WrittenAreCounted }
{}

/// After the lines of a legal account, the written lines and those still unwritten are those of a legal
/// account.
pub fn accounts_are_kept()
    ensures { AccountsAreKept }
{}

/// Over every run of an engine that keeps an account, the device took the lines of the first entries, in
/// order, and the hub was told of no more than these.
pub fn told_is_stored()
    ensures { ToldIsStored }
{}

/// So each byte that left a connection belongs to an answer that rests only on entries whose lines the device
/// took, and that is public in their account.
pub fn left_is_stored()
    ensures { LeftIsStored }
{}

/// While no entry is left, the next event is handed on.
pub fn hands_on_next()
    ensures { HandsOnNext }
{}
