//! Whether an entry breaks a rule, after the entries that an audit has read so far.
ghost use Rattle.std.specs.Prelude.{◌≡◌, ◌↔◌, IfNone, IfSome, IsTrue, option_map};
ghost use Rattle.std.specs.List.Sorted.{IsStrictlyIncreasing};
ghost use Rattle.rv_audit.specs.Words.{ArrivesAs, ArrivesToMeet, BreaksBehind, BreaksCount, Call};
ghost use Rattle.rv_audit.specs.Words.{FallsBack, HasAmong, IsFront, IsNoFreePlace, IsOf, IsOfNoSession};
ghost use Rattle.rv_audit.specs.Words.{IsOfSession, IsOpenOpposite, IsPaired, IsSwapped, KeepsBefore};
ghost use Rattle.rv_audit.specs.Words.{LeavesOlder, LeavesPartner, MeetsWrongly, Misses, MissesPartner};
ghost use Rattle.rv_audit.specs.Words.{NamesFreePartners, NamesTaken, NamesTooMany, NamesWrongly};
ghost use Rattle.rv_audit.specs.Words.{PassesLimit, PassesOver, StartsNoNewer, TicksForNothing, call_in};
ghost use Rattle.rv_audit.specs.Words.{may_name, passed_account, BreaksFirst, BreaksNone, rank_of};

use crate::brings::opposite;
use crate::front::Front;
use crate::rule::Rule;
use rv_account::{Act, Entry, Place, may_name};
use rv_text::{Call, Side};

// ---- moments

fn falls_back(front: &Front<'_>, entry: &Entry) -> bool
    requires { IsFront front.now }
    ensures { IsTrue result ↔ FallsBack (passed_account front.now) entry.now }
{
    entry.moment < front.moment()
}

fn passes_limit(front: &Front<'_>, entry: &Entry) -> bool
    requires { IsFront front.now }
    ensures { IsTrue result ↔ PassesLimit (passed_account front.now).entries entry.now }
{
    match &entry.act {
        Act::Tick => false,
        Act::Hello { .. } | Act::Arrive { .. } | Act::Cancel { .. } => front.has_due(entry.moment),
    }
}

fn ticks_for_nothing(front: &Front<'_>, entry: &Entry) -> bool
    requires { IsFront front.now }
    ensures { IsTrue result ↔ TicksForNothing (passed_account front.now).entries entry.now }
{
    match &entry.act {
        Act::Tick => !front.has_due(entry.moment),
        Act::Hello { .. } | Act::Arrive { .. } | Act::Cancel { .. } => false,
    }
}

// ---- numbers

fn starts_no_newer(front: &Front<'_>, act: &Act) -> bool
    requires { IsFront front.now }
    ensures { IsTrue result ↔ StartsNoNewer (passed_account front.now).entries act.now }
{
    match act {
        Act::Hello {
            client,
            incarnation,
            ..
        } => front.reaches(*client, *incarnation),
        Act::Arrive { .. } | Act::Cancel { .. } | Act::Tick => false,
    }
}

fn is_of_no_session(front: &Front<'_>, act: &Act) -> bool
    requires { IsFront front.now }
    ensures { IsTrue result ↔ IsOfNoSession (passed_account front.now) act.now }
{
    match act {
        Act::Arrive { key, .. } => !front.has_session(key),
        Act::Cancel { key } => !front.has_session(key),
        Act::Hello { .. } | Act::Tick => false,
    }
}

fn breaks_count(front: &Front<'_>, act: &Act) -> bool
    requires front { IsFront front.now }
    requires session { IsOfSession (passed_account front.now) act.now }
    ensures { IsTrue result ↔ BreaksCount (passed_account front.now).entries act.now }
{
    match act {
        Act::Arrive { key, .. } => match front.waiting(key.client) {
            Some(_) => true,
            None => front.is_not_next(key),
        },
        Act::Cancel { key } => match front.waiting(key.client) {
            Some(_) => front.waits_otherwise(key),
            None => front.is_not_next(key),
        },
        Act::Hello { .. } | Act::Tick => false,
    }
}

// ---- partners

// How arrivals meet.
#[derive(Clone, Copy)]
enum MeetingKind {
    // One that gives and one that takes are a pair.
    Pair,
    // Two that exchange are a swap.
    Swap,
}

// The call of an entry that arrives.
fn call_of(entry: &Entry) -> Option<&Call>
    ensures { option_map (λ c. c.now) result ≡ call_in entry.now.act }
{
    match &entry.act {
        Act::Arrive { call, .. } => Some(call),
        Act::Hello { .. } | Act::Cancel { .. } | Act::Tick => None,
    }
}

fn is_paired(side: Side) -> bool
    ensures { IsTrue result ↔ IsPaired side }
{
    match side {
        Side::Gives(_) | Side::Takes(_) => true,
        Side::Looks(_) | Side::Exchanges(_) => false,
    }
}

fn is_swapped(side: Side) -> bool
    ensures { IsTrue result ↔ IsSwapped side }
{
    match side {
        Side::Gives(_) | Side::Takes(_) | Side::Looks(_) => false,
        Side::Exchanges(_) => true,
    }
}

// Whether the entry gives, takes or exchanges.
fn meets(entry: &Entry) -> bool
    ensures { IsTrue result ↔ ArrivesToMeet entry.now }
{
    match call_of(entry) {
        Some(call) => opposite(call.side()).is_some(),
        None => false,
    }
}

// Whether one of these places is taken.
fn any_taken(front: &Front<'_>, places: &[Place]) -> bool
    requires { IsFront front.now }
    ensures { IsTrue result ↔ HasAmong (IsNoFreePlace (passed_account front.now).entries) places.now }
{
    for place in places {
        if front.is_taken(*place) {
            return true;
        }
    }
    false
}

// Whether the entry names a partner that it may not name.
fn names_taken(front: &Front<'_>, entry: &Entry) -> bool
    requires { IsFront front.now }
    ensures { IsTrue result ↔ NamesTaken (passed_account front.now).entries entry.now }
{
    let partners = entry.partners.as_slice();
    if meets(entry) {
        any_taken(front, partners)
    } else {
        !partners.is_empty()
    }
}

// Whether the entry names more partners than its call may.
fn names_too_many(entry: &Entry) -> bool
    ensures { IsTrue result ↔ NamesTooMany entry.now }
{
    match call_of(entry) {
        Some(call) => may_name(call) < entry.partners.as_slice().len(),
        None => false,
    }
}

// Whether each of these places is below the next.
fn rise(places: &[Place]) -> bool
    ensures { IsTrue result ↔ IsStrictlyIncreasing places.now }
{
    for next in 1..places.len() {
        if places[next] <= places[next - 1] {
            return false;
        }
    }
    true
}

fn names_wrongly(front: &Front<'_>, entry: &Entry) -> bool
    requires { IsFront front.now }
    ensures { IsTrue result ↔ NamesWrongly (passed_account front.now).entries entry.now }
{
    names_taken(front, entry) || names_too_many(entry) || !rise(entry.partners.as_slice())
}

// Whether arrivals of the side meet in this way.
fn is_of(kind: MeetingKind, side: Side) -> bool
    ensures { IsTrue result ↔ IsOf kind side }
{
    match kind {
        MeetingKind::Pair => is_paired(side),
        MeetingKind::Swap => is_swapped(side),
    }
}

// The call of an entry whose arrival meets in this way.
fn arrival(kind: MeetingKind, entry: &Entry) -> Option<&Call>
    ensures some { IfSome result (λ call. ArrivesAs (IsOf kind) entry.now call.now) }
    ensures none { IfNone result ((call : Call) → ¬ ArrivesAs (IsOf kind) entry.now call) }
{
    match call_of(entry) {
        Some(call) if is_of(kind, call.side()) => Some(call),
        _ => None,
    }
}

// Whether one that the call may meet is open at the place.
fn may_meet(front: &Front<'_>, call: &Call, place: Place) -> bool
    requires { IsFront front.now }
    ensures { IsTrue result ↔ IsOpenOpposite (passed_account front.now).entries call.now place }
{
    match opposite(call.side()) {
        Some(side) => front.is_open(side, place),
        None => false,
    }
}

// Whether the call names a partner that it may not meet there.
fn misses(front: &Front<'_>, call: &Call, partners: &[Place]) -> bool
    requires { IsFront front.now }
    ensures { IsTrue result ↔ Misses (passed_account front.now).entries call.now partners.now }
{
    for place in partners {
        if !may_meet(front, call, *place) {
            return true;
        }
    }
    false
}

// Whether the call names fewer partners than it may, where one more is there.
fn leaves(front: &Front<'_>, call: &Call, partners: &[Place]) -> bool
    requires { IsFront front.now }
    ensures { IsTrue result ↔ LeavesPartner (passed_account front.now).entries call.now partners.now }
{
    partners.len() < may_name(call) && front.oldest_opposite(call, partners).is_some()
}

// Whether one that the call might meet, and that is none of these partners, stands before one of them. They
// rise, so it is the last that counts.
fn leaves_older(front: &Front<'_>, call: &Call, partners: &[Place]) -> bool
    requires front { IsFront front.now }
    requires rise { IsStrictlyIncreasing partners.now }
    ensures { IsTrue result ↔ LeavesOlder (passed_account front.now).entries call.now partners.now }
{
    match front.oldest_opposite(call, partners) {
        Some(first) => match partners.last() {
            Some(last) => first < *last,
            None => false,
        },
        None => false,
    }
}

fn meets_wrongly(front: &Front<'_>, kind: MeetingKind, entry: &Entry) -> bool
    requires { IsFront front.now }
    ensures { IsTrue result ↔ MeetsWrongly (IsOf kind) (passed_account front.now).entries entry.now }
{
    match arrival(kind, entry) {
        Some(call) => misses(front, call, entry.partners.as_slice()),
        None => false,
    }
}

fn passes_over(front: &Front<'_>, entry: &Entry) -> bool
    requires front { IsFront front.now }
    requires names { NamesFreePartners (passed_account front.now).entries entry.now }
    requires meets { ¬ MeetsWrongly IsPaired (passed_account front.now).entries entry.now }
    ensures { IsTrue result ↔ PassesOver (passed_account front.now).entries entry.now }
{
    match arrival(MeetingKind::Pair, entry) {
        Some(call) => leaves_older(front, call, entry.partners.as_slice()),
        None => false,
    }
}

fn misses_partner(front: &Front<'_>, kind: MeetingKind, entry: &Entry) -> bool
    requires { IsFront front.now }
    ensures { IsTrue result ↔ MissesPartner (IsOf kind) (passed_account front.now).entries entry.now }
{
    match arrival(kind, entry) {
        Some(call) => leaves(front, call, entry.partners.as_slice()),
        None => false,
    }
}

// ---- all rules

// Whether the entry breaks the rule, if it breaks none before it.
fn breaks(front: &Front<'_>, rule: Rule, entry: &Entry) -> bool
    requires front { IsFront front.now }
    requires before { KeepsBefore (rank_of rule) (passed_account front.now) entry.now }
    ensures { IsTrue result ↔ BreaksBehind rule (passed_account front.now) entry.now }
{
    match rule {
        Rule::M1 => falls_back(front, entry),
        Rule::M2 => passes_limit(front, entry),
        Rule::M3 => ticks_for_nothing(front, entry),
        Rule::N1 => starts_no_newer(front, &entry.act),
        Rule::N2 => is_of_no_session(front, &entry.act),
        Rule::N3 => breaks_count(front, &entry.act),
        Rule::P1 => names_wrongly(front, entry),
        Rule::P2 => meets_wrongly(front, MeetingKind::Pair, entry),
        Rule::P3 => passes_over(front, entry),
        Rule::P4 => misses_partner(front, MeetingKind::Pair, entry),
        Rule::S1 => meets_wrongly(front, MeetingKind::Swap, entry),
        Rule::S2 => misses_partner(front, MeetingKind::Swap, entry),
    }
}

/// The first rule that the next entry breaks, in the order of the rules.
pub fn first_broken(front: &Front<'_>, entry: &Entry) -> Option<Rule>
    requires { IsFront front.now }
    ensures some { IfSome result (BreaksFirst (passed_account front.now) entry.now) }
    ensures none { IfNone result (BreaksNone (passed_account front.now) entry.now) }
{
    let rules = [
        Rule::M1,
        Rule::M2,
        Rule::M3,
        Rule::N1,
        Rule::N2,
        Rule::N3,
        Rule::P1,
        Rule::P2,
        Rule::P3,
        Rule::P4,
        Rule::S1,
        Rule::S2,
    ];
    for rule in &rules {
        if breaks(front, *rule, entry) {
            return Some(*rule);
        }
    }
    None
}
