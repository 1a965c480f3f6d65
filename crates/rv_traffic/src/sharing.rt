//! Offers a share of what is pending to each of some that wait.
ghost use Rattle.std.specs.Prelude.{◌≡◌, ◌≤◌, ◌<◌, [], drop, length, take, IsSome};
ghost use Rattle.rv_hub.specs.Hubs.{hub_terms};
ghost use Rattle.rv_engine.specs.Engines.{engine_state};
ghost use Rattle.rv_traffic.specs.links.Table.{link_at, pending_of};
ghost use Rattle.rv_traffic.specs.Calls.{MayBeOffered, OffersOne, OffersShare};
ghost use Rattle.rv_traffic.specs.Rounds.{DoesIfReady, SharesNext, SharesNone, SharesOut, SharesTurn};
ghost use Rattle.std.specs.Bool.{OnFalse, OnTrue};
ghost use Rattle.rv_traffic.specs.Views.{SameTerms, traffic_state};

use crate::asking::{is_none_pending, is_over, may_offer};
use crate::reading::at_most;
use crate::rounds::settle;
use crate::traffic::{SHARE, SHARES, Switchboard};
use rv_engine::LinkEvent;
use rv_server_connections::subscribers::ConnectionNumber;

// The first of these bytes, at most a share.
fn share_of(bytes: &[u8]) -> &[u8]
    ensures { result.now ≡ take SHARE bytes.now }
{
    &bytes[..at_most(SHARE, bytes)]
}

// Offers a share of what is pending of a connection.
fn offer_share<S: Drop>(traffic: &mut Switchboard<S>, now: u64, number: ConnectionNumber)
    requires none_left { (engine_state traffic.old.engine).left ≡ [] }
    requires may { MayBeOffered (engine_state traffic.old.engine).hub number }
    requires some { 0 < length (pending_of (link_at traffic.old.links.table.items number)) }
    ensures offers { OffersShare traffic.old.engine.hub.has_journal (hub_terms traffic.old.engine.hub) now
        number (traffic_state traffic.old) (traffic_state traffic.new) }
    ensures terms { SameTerms traffic.old traffic.new }
    ensures waits { traffic.new.waits ≡ traffic.old.waits }
{
    let share = share_of(traffic.links.pending(number));
    let taken = traffic.engine.hand(now, LinkEvent::Came(number, share));
    let count = at_most(taken, share);
    traffic.links.advance(number, count);
}

// The same of one that may be offered more and of which something is pending, and gives whether it is so.
fn offer_one<S: Drop>(traffic: &mut Switchboard<S>, now: u64, number: ConnectionNumber) -> bool
    requires none_left { (engine_state traffic.old.engine).left ≡ [] }
    ensures offers { OffersOne traffic.old.engine.hub.has_journal (hub_terms traffic.old.engine.hub) now
        number (traffic_state traffic.old) result (traffic_state traffic.new) }
    ensures terms { SameTerms traffic.old traffic.new }
    ensures waits { traffic.new.waits ≡ traffic.old.waits }
{
    if !may_offer(&traffic.engine, number) {
        return false;
    }
    if is_none_pending(&traffic.links, number) {
        return false;
    }
    offer_share(traffic, now, number);
    true
}

// The same, unless lines of the account find no memory.
fn offer_if_ready<S: Drop>(
    traffic: &mut Switchboard<S>,
    now: u64,
    number: ConnectionNumber,
) -> Option<bool>
    ensures offers { DoesIfReady (OffersOne traffic.old.engine.hub.has_journal
        (hub_terms traffic.old.engine.hub) now number) (traffic_state traffic.old) result
        (traffic_state traffic.new) }
    ensures terms { SameTerms traffic.old traffic.new }
{
    if !traffic.engine.catch_up() {
        return None;
    }
    Some(offer_one(traffic, now, number))
}

// The same, and then it waits if more is pending, and is to be written to.
fn share_turn<S: Drop>(
    traffic: &mut Switchboard<S>,
    now: u64,
    number: ConnectionNumber,
) -> Option<bool>
    ensures shares { SharesTurn traffic.old.engine.hub.has_journal (hub_terms traffic.old.engine.hub) now
        (traffic_state traffic.old) (record { number = number; came = result })
        (traffic_state traffic.new) }
    ensures terms { SameTerms traffic.old traffic.new }
{
    let came = offer_if_ready(traffic, now, number);
    settle(traffic, number);
    came
}

// The next of those whose share is due has it, if there is one and no more is held of all than there is room
// for. It gives whether it had.
fn share_next<S: Drop>(traffic: &mut Switchboard<S>, room: u128, now: u64) -> bool
    ensures shared { OnTrue result (SharesNext traffic.old.engine.hub.has_journal
        (hub_terms traffic.old.engine.hub) now (traffic_state traffic.old) (traffic_state traffic.new)) }
    ensures none { OnFalse result (SharesNone room (traffic_state traffic.old) (traffic_state traffic.new)) }
    ensures terms { SameTerms traffic.old traffic.new }
{
    if is_over(traffic, room) {
        return false;
    }
    match traffic.waits.pop() {
        Some(number) => {
            share_turn(traffic, now, number);
            true
        }
        None => false,
    }
}

// So many of those that wait have a share, as long as no more is held of all than there is room for.
pub(crate) fn share_out<S: Drop>(traffic: &mut Switchboard<S>, room: u128, now: u64)
    ensures shares { SharesOut room traffic.old.engine.hub.has_journal (hub_terms traffic.old.engine.hub) now
        (traffic_state traffic.old) (traffic_state traffic.new) }
    ensures terms { SameTerms traffic.old traffic.new }
{
    traffic.waits.begin();
    for _share in 0..SHARES {
        if !share_next(traffic, room, now) {
            break;
        }
    }
}
