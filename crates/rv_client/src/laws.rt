//! Laws of the client's process: each function is its contract, and its body is empty.
ghost use Rattle.rv_client.specs.Laws.{FirstKeyFits, NextKeyFits, OneOutcome};

/// An answer has at most one outcome for a process.
pub fn one_outcome()
    ensures { OneOutcome }
{}

/// The keys of a client's requests keep their limits, from the first number to the greatest.
pub fn keys_fit()
    ensures first { FirstKeyFits }
    ensures next { NextKeyFits }
{}
