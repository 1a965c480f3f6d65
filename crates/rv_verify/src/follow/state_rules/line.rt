//! The line of those that an arrival might meet, compared with the partners that its entry names.
ghost use Rattle.std.specs.Prelude.{◌≡◌, ◌↔◌, ◌<◌, ◌≤◌, ℕ, suc, IsTrue, None, length, slice_get};
ghost use Rattle.rv_text.specs.Limits.{FitsCall};
ghost use Rattle.rv_account.specs.Calls.{may_name};
ghost use Rattle.rv_machine.specs.Machines.{state_in};
ghost use Rattle.rv_account.specs.state.resume.Resuming.{CanResume};
ghost use Rattle.rv_verify.specs.follow.state_rules.Walking.{AgreeBefore, LeadsLine, NamesEachFacing};
ghost use Rattle.rv_verify.specs.follow.state_rules.Walking.{facing_places};
ghost use Rattle.rv_dual.specs.Above.{first_above};

use crate::follow::state_rules::partners::opposite;
use rv_account::{Place, may_name};
use rv_machine::Machine;
use rv_text::Call;

// The place of the first that the call might meet, after the given place if there is one.
fn next_facing(machine: &Machine, call: &Call, after: Option<Place>) -> Option<Place>
    requires resumes { CanResume (state_in machine.now) }
    requires fits { FitsCall call.now }
    ensures { result ≡ first_above after (facing_places (state_in machine.now) call.now) }
{
    let side = opposite(call.side())?;
    Some(machine.behind(side, after)?.place)
}

// The last of so many of the partners.
fn last_of(partners: &[Place], index: usize) -> Option<Place>
    requires { index ≤ length partners.now }
    ensures first { index ≡ 0 → result ≡ None }
    ensures later { (k : ℕ) → index ≡ suc k → result ≡ slice_get partners.now k }
{
    if index == 0 {
        None
    } else {
        Some(partners[index - 1])
    }
}

// Whether the partner at an index is the next of the line, whose first those before it are.
fn stands_next(machine: &Machine, call: &Call, partners: &[Place], index: usize) -> bool
    requires resumes { CanResume (state_in machine.now) }
    requires fits { FitsCall call.now }
    requires inside { index < length partners.now }
    requires front { AgreeBefore partners.now (facing_places (state_in machine.now) call.now) index }
    ensures { IsTrue result
        ↔ slice_get (facing_places (state_in machine.now) call.now) index ≡ slice_get partners.now index }
{
    match next_facing(machine, call, last_of(partners, index)) {
        Some(next) => next == partners[index],
        None => false,
    }
}

/// Whether the partners are the first of those that the call might meet.
pub(crate) fn are_oldest(machine: &Machine, call: &Call, partners: &[Place]) -> bool
    requires resumes { CanResume (state_in machine.now) }
    requires fits { FitsCall call.now }
    ensures { IsTrue result ↔ LeadsLine partners.now (facing_places (state_in machine.now) call.now) }
{
    for index in 0..partners.len() {
        if !stands_next(machine, call, partners, index) {
            return false;
        }
    }
    true
}

/// Whether the partners are as many as the call may name, or all that it might meet.
pub(crate) fn takes_all(machine: &Machine, call: &Call, partners: &[Place]) -> bool
    requires resumes { CanResume (state_in machine.now) }
    requires fits { FitsCall call.now }
    requires front { length partners.now < may_name call.now
        → LeadsLine partners.now (facing_places (state_in machine.now) call.now) }
    ensures { IsTrue result ↔ NamesEachFacing (state_in machine.now) call.now partners.now }
{
    if may_name(call) <= partners.len() {
        return true;
    }
    match next_facing(machine, call, last_of(partners, partners.len())) {
        Some(_) => false,
        None => true,
    }
}
