//! Laws of a dispatcher's effects: each contract is one, and no body does anything.
ghost use Rattle.rv_hub.specs.dispatcher.Runs.{EffectsAreListed, EffectsAreOneRun, OthersStay, OthersWaited};

/// To its book, a dispatcher's effects are one run of messages and of time alone, and they make its entries
/// in order.
pub fn effects_are_one_run()
    ensures { EffectsAreOneRun }
{}

/// Through another's turn each connection stays as it is, or is told, or is closed.
pub fn others_stay()
    ensures { OthersStay }
{}

/// A connection that is closed through another's turn was waiting before.
pub fn others_waited()
    ensures { OthersWaited }
{}

/// Each connection that isn't listed as changed has the bytes that it had when the list was begun.
pub fn effects_are_listed()
    ensures { EffectsAreListed }
{}
