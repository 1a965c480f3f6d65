//! Whether an entry keeps the rules on partners.
ghost use Rattle.std.specs.Prelude.{◌≡◌, ◌≢◌, ◌↔◌, ◌<◌, ◌≤◌, ℕ, IfNone, IfSome, IsTrue, Some, length};
ghost use Rattle.std.specs.Prelude.{option_map};
ghost use Rattle.std.specs.List.Sorted.{IsStrictlyIncreasing};
ghost use Rattle.rv_text.specs.declared.call.Call.{Call};
ghost use Rattle.rv_text.specs.declared.call.Side.{Side};
ghost use Rattle.rv_text.specs.Calls.{side_of};
ghost use Rattle.rv_account.specs.Account.{Among, Names, call_in};
ghost use Rattle.rv_account.specs.Calls.{may_name, opposite};
ghost use Rattle.rv_account.specs.Limits.{FitsEntry};
ghost use Rattle.rv_audit.specs.AccountRules.{ArrivesAs, ArrivesToMeet, IsPaired, IsSwapped, NamesTooMany};
ghost use Rattle.rv_audit.specs.declared.rule.Rule.TheVariants.{P1, P2, P3, P4, S1, S2};
ghost use Rattle.rv_machine.specs.Machines.{state_in};
ghost use Rattle.rv_account.specs.state.resume.Resuming.{CanResume};
ghost use Rattle.rv_account.specs.state.Kept.{IsOpposite, NamesOpen, NamesWell};
ghost use Rattle.rv_account.specs.state.State.{place_list};
ghost use Rattle.rv_verify.specs.follow.state_rules.Ruling.{KeepsRule};
ghost use Rattle.rv_verify.specs.follow.state_rules.Walking.{HoldsOfAll};

use crate::follow::state_rules::line::{are_oldest, takes_all};
use rv_account::{Act, Entry, Place, may_name};
use rv_machine::Machine;
use rv_text::{Call, Side};

// ---- the call

// The call of an entry that arrives.
fn call_of(entry: &Entry) -> Option<&Call>
    ensures { option_map (λ c. c.now) result ≡ call_in entry.now.act }
{
    match &entry.act {
        Act::Arrive { call, .. } => Some(call),
        Act::Hello { .. } => None,
        Act::Cancel { .. } => None,
        Act::Tick => None,
    }
}

/// The side that an arrival of this side meets.
pub fn opposite(side: Side) -> Option<Side>
    ensures { result ≡ opposite side }
{
    match side {
        Side::Gives(queue) => Some(Side::Takes(queue)),
        Side::Takes(queue) => Some(Side::Gives(queue)),
        Side::Exchanges(exchanger) => Some(Side::Exchanges(exchanger)),
        Side::Looks(_) => None,
    }
}

// Whether an arrival of the first side meets those of the other.
fn faces(side: Side, other: Side) -> bool
    ensures { IsTrue result ↔ opposite side ≡ Some other }
{
    match opposite(side) {
        Some(facing) => facing == other,
        None => false,
    }
}

fn is_paired(side: Side) -> bool
    ensures { IsTrue result ↔ IsPaired side }
{
    match side {
        Side::Gives(_) => true,
        Side::Takes(_) => true,
        Side::Looks(_) => false,
        Side::Exchanges(_) => false,
    }
}

fn is_swapped(side: Side) -> bool
    ensures { IsTrue result ↔ IsSwapped side }
{
    match side {
        Side::Gives(_) => false,
        Side::Takes(_) => false,
        Side::Looks(_) => false,
        Side::Exchanges(_) => true,
    }
}

// The call of an entry that gives or takes.
fn pairing(entry: &Entry) -> Option<&Call>
    ensures some { IfSome result (λ call. ArrivesAs IsPaired entry.now call.now) }
    ensures none { IfNone result ((call : Call) → ¬ ArrivesAs IsPaired entry.now call) }
{
    match call_of(entry) {
        Some(call) if is_paired(call.side()) => Some(call),
        _ => None,
    }
}

// The call of an entry that exchanges.
fn swapping(entry: &Entry) -> Option<&Call>
    ensures some { IfSome result (λ call. ArrivesAs IsSwapped entry.now call.now) }
    ensures none { IfNone result ((call : Call) → ¬ ArrivesAs IsSwapped entry.now call) }
{
    match call_of(entry) {
        Some(call) if is_swapped(call.side()) => Some(call),
        _ => None,
    }
}

// ---- whether it names well

// Whether each of these places is below the next.
fn rise(places: &[Place]) -> bool
    ensures { IsTrue result ↔ IsStrictlyIncreasing places.now }
{
    for next in 1..places.len() {
        if places[next] <= places[next - 1] {
            return false;
        }
    }
    true
}

// Whether the entry gives, takes or exchanges.
fn meets(entry: &Entry) -> bool
    ensures { IsTrue result ↔ ArrivesToMeet entry.now }
{
    match call_of(entry) {
        Some(call) => opposite(call.side()).is_some(),
        None => false,
    }
}

// Whether the entry names more partners than its call may.
fn names_too_many(entry: &Entry) -> bool
    ensures { IsTrue result ↔ NamesTooMany entry.now }
{
    match call_of(entry) {
        Some(call) => may_name(call) < entry.partners.as_slice().len(),
        None => false,
    }
}

// Whether each of these places is below a number.
fn stand_below(places: &[Place], length: usize) -> bool
    ensures { IsTrue result ↔ HoldsOfAll (λ p. p < length) places.now }
{
    for place in places {
        if *place >= length {
            return false;
        }
    }
    true
}

/// Whether the places that the entry names rise, are no more than its call may name, and come before it, and
/// whether it is an arrival that may meet if it names any.
pub(crate) fn names_well(machine: &Machine, entry: &Entry) -> bool
    ensures { IsTrue result ↔ NamesWell (state_in machine.now) entry.now }
{
    let partners = entry.partners.as_slice();
    if names_too_many(entry) || !rise(partners) || !stand_below(partners, machine.length()) {
        return false;
    }
    partners.is_empty() || meets(entry)
}

// ---- which places it names

// Whether something is open at a place.
fn is_open(machine: &Machine, place: Place) -> bool
    ensures { IsTrue result ↔ Among (place_list (state_in machine.now).open_places) place }
{
    machine.open_at(place).is_some()
}

/// Whether each place that the entry names is open.
pub fn names_open(machine: &Machine, partners: &[Place]) -> bool
    ensures { IsTrue result
        ↔ HoldsOfAll (Among (place_list (state_in machine.now).open_places)) partners.now }
{
    for place in partners {
        if !is_open(machine, *place) {
            return false;
        }
    }
    true
}

// Whether what is open at a place is what the call might meet.
fn may_meet(machine: &Machine, call: &Call, place: Place) -> bool
    requires { CanResume (state_in machine.now) }
    ensures { IsTrue result ↔ IsOpposite (state_in machine.now) call.now place }
{
    match machine.open_at(place) {
        Some(there) => faces(call.side(), there.side),
        None => false,
    }
}

// Whether each of these places is one that the call might meet.
fn all_opposite(machine: &Machine, call: &Call, partners: &[Place]) -> bool
    requires { CanResume (state_in machine.now) }
    ensures { IsTrue result ↔ HoldsOfAll (IsOpposite (state_in machine.now) call.now) partners.now }
{
    for place in partners {
        if !may_meet(machine, call, *place) {
            return false;
        }
    }
    true
}

/// Whether an arrival that gives or takes names only those that it might meet.
pub(crate) fn pairs_opposites(machine: &Machine, entry: &Entry) -> bool
    requires { CanResume (state_in machine.now) }
    ensures { IsTrue result ↔ KeepsRule P2 (state_in machine.now) entry.now }
{
    match pairing(entry) {
        Some(call) => all_opposite(machine, call, entry.partners.as_slice()),
        None => true,
    }
}

/// Whether an arrival that exchanges names only those that it might meet.
pub(crate) fn swaps_opposites(machine: &Machine, entry: &Entry) -> bool
    requires { CanResume (state_in machine.now) }
    ensures { IsTrue result ↔ KeepsRule S1 (state_in machine.now) entry.now }
{
    match swapping(entry) {
        Some(call) => all_opposite(machine, call, entry.partners.as_slice()),
        None => true,
    }
}

/// Whether an arrival that gives or takes names the oldest that it might meet.
pub(crate) fn pairs_oldest(machine: &Machine, entry: &Entry) -> bool
    requires resumes { CanResume (state_in machine.now) }
    requires fits { FitsEntry entry.now }
    requires well { KeepsRule P1 (state_in machine.now) entry.now }
    requires named { KeepsRule P2 (state_in machine.now) entry.now }
    ensures { IsTrue result ↔ KeepsRule P3 (state_in machine.now) entry.now }
{
    match pairing(entry) {
        Some(call) => are_oldest(machine, call, entry.partners.as_slice()),
        None => true,
    }
}

/// Whether an arrival that gives or takes names as many as it may, or all that it might meet.
pub(crate) fn pairs_all(machine: &Machine, entry: &Entry) -> bool
    requires resumes { CanResume (state_in machine.now) }
    requires fits { FitsEntry entry.now }
    requires well { KeepsRule P1 (state_in machine.now) entry.now }
    requires named { KeepsRule P2 (state_in machine.now) entry.now }
    requires oldest { KeepsRule P3 (state_in machine.now) entry.now }
    ensures { IsTrue result ↔ KeepsRule P4 (state_in machine.now) entry.now }
{
    match pairing(entry) {
        Some(call) => takes_all(machine, call, entry.partners.as_slice()),
        None => true,
    }
}

/// Whether an arrival that exchanges names a partner, or there is none that it might meet.
pub(crate) fn swaps_all(machine: &Machine, entry: &Entry) -> bool
    requires resumes { CanResume (state_in machine.now) }
    requires fits { FitsEntry entry.now }
    ensures { IsTrue result ↔ KeepsRule S2 (state_in machine.now) entry.now }
{
    match swapping(entry) {
        Some(call) => takes_all(machine, call, entry.partners.as_slice()),
        None => true,
    }
}
