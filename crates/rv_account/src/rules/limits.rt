//! The limits under which a step is made.
ghost use Rattle.std.specs.Prelude.{◌≡◌, ◌↔◌, ◌≤◌, IfSome, IsSome};
ghost use Rattle.rv_account.specs.rules.StepLimits.{AreStepLimits, book_limits};
ghost use Rattle.rv_account.specs.rules.Reach.{most_counted, most_known, widest};

use std::marker::Model;

// The most entries of a step's limits, 2^53 - 1.
const MOST_ENTRIES: usize = 9_007_199_254_740_991;

// How far a machine counts entries, 2^54.
const MOST_COUNTED: usize = 18_014_398_509_481_984;

/// The most clients that a machine knows, whatever the limits of its steps.
pub const MOST_KNOWN: usize = 100_000;

// The most clients of a step's limits.
const MOST_CLIENTS: usize = 65_536;

// The most open places of a step's limits.
const MOST_OPEN_PLACES: usize = 100_000;

/// The limits under which a step is made: how many entries there may be, how many clients, and how many
/// places may stand open, if that is bounded. Contracts see them as those of the step's definition.
#[derive(Drop)]
pub struct Limits {
    entries: usize,
    clients: usize,
    open_places: Option<usize>,
}

impl Model for Limits {
    ghost use Rattle.rv_account.specs.rules.StepLimits.{StepLimits};
    ghost use Rattle.rv_account.specs.rules.Reach.{AreWithin};

    ghost Value = { StepLimits };

    ghost view = { λ l. record { entries = l.entries; clients = l.clients; open_places = l.open_places } };

    ghost invariant = { λ l. AreWithin (record {
      entries = l.entries;
      clients = l.clients;
      open_places = l.open_places;
    }) };
}

impl Limits {
    ghost use Rattle.rv_account.specs.rules.Reach.{step_limits};

    /// Those of a book: 100,000 entries, 1,024 clients, and no bound on what is open.
    pub fn book() -> Limits
        ensures { result ≡ book_limits }
    {
        Limits {
            entries: 100_000,
            clients: 1_024,
            open_places: None,
        }
    }

    /// These limits, if a step may have them: at most 2^53 - 1 entries, 65,536 clients and 100,000 open
    /// places; these are unbounded only where entries are at most 100,000.
    pub fn new(entries: usize, clients: usize, open_places: Option<usize>) -> Option<Limits>
        ensures some { IfSome result (λ limits. limits ≡ step_limits entries clients open_places) }
        ensures exact { IsSome result ↔ AreStepLimits (step_limits entries clients open_places) }
    {
        let most = open_places.unwrap_or(entries);
        if entries > MOST_ENTRIES || clients > MOST_CLIENTS || most > MOST_OPEN_PLACES {
            return None;
        }
        Some(Limits {
            entries,
            clients,
            open_places,
        })
    }

    /// Beyond all that a state to resume from has: under these no entry that was written before is refused.
    pub fn widest() -> Limits
        ensures { result ≡ widest }
    {
        Limits {
            entries: MOST_COUNTED,
            clients: MOST_KNOWN,
            open_places: None,
        }
    }

    /// How many entries there may be, including those that end what waits.
    pub fn entries(&self) -> usize
        ensures exact { result ≡ self.now.entries }
        ensures bounded { result ≤ most_counted }
    {
        self.entries
    }

    /// How many clients there may be.
    pub fn clients(&self) -> usize
        ensures exact { result ≡ self.now.clients }
        ensures bounded { result ≤ most_known }
    {
        self.clients
    }

    /// How many places may stand open, if that is bounded.
    pub fn open_places(&self) -> Option<usize>
        ensures { result ≡ self.now.open_places }
    {
        self.open_places
    }
}
