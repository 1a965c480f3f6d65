//! A machine follows an entry that was written before, or says why it doesn't.
ghost use Rattle.rv_account.specs.Limits.{FitsEntry};
ghost use Rattle.rv_machine.specs.Machines.{state_in};
ghost use Rattle.rv_account.specs.state.resume.Resuming.{CanResume};
ghost use Rattle.rv_account.specs.state.Follows.{FollowsState};
ghost use Rattle.rv_verify.specs.follow.Outcomes.{IsFollowed};

use crate::follow::room::has_room;
use crate::follow::ruling::{Ruling, rule_on};
use rv_account::Entry;
use rv_audit::Rule;
use rv_machine::Machine;

/// The outcome for an entry that was written before.
#[derive(Clone, Copy)]
pub enum Followed {
    /// It follows, and the machine holds the state after it.
    Done,
    /// It breaks this rule first, in the order of an audit.
    Breaks(Rule),
    /// It names a place where nothing is open, and breaks no rule before P1: it breaks P1, P2 or S1.
    NotOpen,
    /// It follows, but the state after it would have no room.
    BeyondLimits,
    /// It follows, but memory was refused.
    NoMemory,
}

/// Follows an entry that was written before, whatever limits its step had, and lists the requests that it
/// settles. Unless the result is `Done`, the state stays as it was. If memory was refused, the list is empty;
/// after any other failure nothing at all has changed. A tick, and a cancel of a request that waits, take no
/// memory. [`Entry::fits`] says whether the entry is within its limits.
pub fn follow(machine: &mut Machine, entry: Entry) -> Followed
    requires resumes { CanResume (state_in machine.old) }
    requires fits { FitsEntry entry }
    ensures resumes { CanResume (state_in machine.new) }
    ensures became { IsFollowed machine.old machine.new entry result }
{
    match rule_on(machine, &entry) {
        Ruling::Follows => follow_on(machine, entry),
        Ruling::Breaks(rule) => Followed::Breaks(rule),
        Ruling::NotOpen => Followed::NotOpen,
    }
}

// The same of one that follows.
fn follow_on(machine: &mut Machine, entry: Entry) -> Followed
    requires resumes { CanResume (state_in machine.old) }
    requires fits { FitsEntry entry }
    requires follows { FollowsState (state_in machine.old) entry }
    ensures resumes { CanResume (state_in machine.new) }
    ensures became { IsFollowed machine.old machine.new entry result }
{
    if !has_room(machine, &entry) {
        return Followed::BeyondLimits;
    }
    if machine.redo(entry.moment, entry.act) {
        Followed::Done
    } else {
        Followed::NoMemory
    }
}
