//! Laws of accounts, replies and steps: each function is its contract, over the definitions alone.
ghost use Rattle.rv_book.specs.Laws.{CancelsCanEnter, HellosCanEnter, OneNext, RepliesStay, RequestsCanEnter};
ghost use Rattle.rv_book.specs.Laws.{ItemsLeaveInOrder, StepsExtend, TicksCanEnter, VerdictsStay};
ghost use Rattle.rv_book.specs.Verdicts.{IsOfStep};

use crate::verdict::Verdict;

/// A reply in a legal account stands in every legal account that extends it, and is the only one there.
pub fn replies_stay()
    ensures { RepliesStay }
{}

/// In each legal account the time-outs of a step, if any are due, can be recorded.
pub fn ticks_can_enter()
    ensures { TicksCanEnter }
{}

/// After a step's time-outs a request for which no refusal is due has its answer here or in a next account.
pub fn requests_can_enter()
    ensures { RequestsCanEnter }
{}

/// After a step's time-outs a cancel for which no refusal is due has its reply here or in a next account.
pub fn cancels_can_enter()
    ensures { CancelsCanEnter }
{}

/// After a step's time-outs a hello that is no repeat can enter, if no refusal of it is due.
pub fn hellos_can_enter()
    ensures { HellosCanEnter }
{}

/// In a legal account the items of each queue leave in their order of arrival, and none is passed over.
pub fn items_leave_in_order()
    ensures { ItemsLeaveInOrder }
{}

/// A step only adds to the account.
pub fn steps_extend()
    ensures { StepsExtend }
{}

/// A verdict that was given in an account was given in every account that extends it.
pub fn verdicts_stay()
    ensures { VerdictsStay }
{}

/// A step of a moment and message leads to one account and one answer, want of memory aside.
pub fn one_next()
    ensures { OneNext }
{}

/// Each verdict is that of a step from some legal account of its length before, with its answer and length.
pub fn verdict_is_of_a_step(verdict: &Verdict)
    ensures { IsOfStep verdict.now }
{
    let _ = &verdict.said;
}
