//! Laws of events, of lists of events and of whatever happens: each function is its contract, over the
//! definitions alone.
ghost use Rattle.rv_account.specs.rules.StepLimits.{StepLimits};
ghost use Rattle.rv_world.specs.parts.Laws.{EventsHappen, HeadlineHolds, HeadlineHoldsAnyhow, OneRun};
ghost use Rattle.rv_world.specs.parts.Laws.{OneRunAnyhow, OneStep, OneStepUnder, RunsOnlyGrow};
ghost use Rattle.rv_world.specs.parts.Laws.{RunsOnlyGrowAnyhow, StepsExist, StepsExistUnder, TimeCanPass};

/// An event has one outcome, want of memory aside: it makes one world, with one thing seen, or it is refused
/// for one reason. Two worlds are the same if all that they hold is the same, and each client has the same
/// process in both.
pub fn one_step()
    ensures { OneStep }
{}

/// An event for which no refusal is due leads to a world, with no want of memory, if the present account is
/// legal, as it is after every list of events.
pub fn steps_exist()
    ensures { StepsExist }
{}

/// A list of events has one outcome too: from one world it leads to at most one in which no answer is the
/// refusal for want of memory.
pub fn one_run()
    ensures { OneRun }
{}

/// The headline holds after every list of events, from a first world of any epoch. No request has two
/// replies, and each account is legal. An item that is answered *received* was assigned to one taker, and
/// each item that is answered, alone or in a drain's list, has one giver. An item whose giver is answered a
/// no is never handed over, then or later. Items leave in their order of arrival, and exchange partners get
/// each other's items. Further events only add.
pub fn headline_holds()
    ensures { HeadlineHolds }
{}

/// Further events only add: to what was asked and held, to the answers, and to each account.
pub fn runs_only_grow()
    ensures { RunsOnlyGrow }
{}

/// Under any limits of the server's step, an event has one outcome, want of memory aside.
pub fn one_step_under()
    ensures { (limits : StepLimits) → OneStepUnder limits }
{}

/// Under any limits, an event for which no refusal is due leads to a world, with no want of memory, if the
/// present account is legal.
pub fn steps_exist_under()
    ensures { (limits : StepLimits) → StepsExistUnder limits }
{}

/// Time can pass up to each moment that is not before the present account's own, if that is legal.
pub fn time_can_pass()
    ensures { TimeCanPass }
{}

/// Whatever happens has one outcome: from one world it leads to at most one in which no answer is the refusal
/// for want of memory.
pub fn one_run_anyhow()
    ensures { OneRunAnyhow }
{}

/// The headline holds after whatever happens, from a first world of any epoch: each step of the server may be
/// made under its own limits, and time may pass in between with no message.
pub fn headline_holds_anyhow()
    ensures { HeadlineHoldsAnyhow }
{}

/// Whatever happens further only adds: to what was asked and held, to the answers, and to each account.
pub fn runs_only_grow_anyhow()
    ensures { RunsOnlyGrowAnyhow }
{}

/// A list of events leads to the world to which the same events lead as what happens under a book's limits.
pub fn events_happen()
    ensures { EventsHappen }
{}
