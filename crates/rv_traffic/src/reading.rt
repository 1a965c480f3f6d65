//! Reads once from a connection, and hands on what came.
ghost use Rattle.std.specs.Prelude.{◌≡◌, ◌≤◌, ◌<◌, [], drop, length, take, IsSome};
ghost use Rattle.rv_hub.specs.Hubs.{hub_terms};
ghost use Rattle.rv_engine.specs.Engines.{engine_state};
ghost use Rattle.rv_traffic.specs.links.Table.{link_at, pending_of};
ghost use Rattle.rv_traffic.specs.Calls.{MayBeOffered, OffersPiece, ReadsNew, ReadsOne};
ghost use Rattle.rv_traffic.specs.Views.{SameTerms, traffic_state};

use crate::asking::{is_none_pending, is_over, may_offer};
use crate::giving_up::give_up;
use crate::links::ReadOutcome;
use crate::outcomes::Reading;
use crate::traffic::{SMALL, Switchboard};
use rv_engine::LinkEvent;
use rv_server_connections::subscribers::ConnectionNumber;
use std::io::Read;

// So many bytes of a piece, or all.
pub(crate) fn at_most(count: usize, piece: &[u8]) -> usize
    ensures within { result ≤ length piece.now }
    ensures front { take result piece.now ≡ take count piece.now }
    ensures same { drop result piece.now ≡ drop count piece.now }
{
    if count < piece.len() {
        return count;
    }
    piece.len()
}

// Offers the small piece that was read of a connection of which nothing was pending. What isn't taken is
// pending.
fn offer_piece<S: Read + Drop>(
    traffic: &mut Switchboard<S>,
    now: u64,
    number: ConnectionNumber,
) -> Reading
    requires none_left { (engine_state traffic.old.engine).left ≡ [] }
    requires may { MayBeOffered (engine_state traffic.old.engine).hub number }
    requires none_pending { pending_of (link_at traffic.old.links.table.items number) ≡ [] }
    requires there { IsSome (link_at traffic.old.links.table.items number) }
    requires small { length traffic.old.links.buffer.items ≤ SMALL }
    ensures offers { OffersPiece traffic.old.engine.hub.has_journal (hub_terms traffic.old.engine.hub) now
        number traffic.old.links.buffer.items (traffic_state traffic.old) result (traffic_state traffic.new) }
    ensures terms { SameTerms traffic.old traffic.new }
    ensures waits { traffic.new.waits ≡ traffic.old.waits }
{
    let piece = traffic.links.piece();
    let taken = traffic.engine.hand(now, LinkEvent::Came(number, piece));
    let count = at_most(taken, piece);
    if count == piece.len() {
        return Reading::Offered;
    }
    match traffic.links.keep(number, count) {
        Ok(()) => Reading::Offered,
        Err(_) => {
            give_up(traffic, now, number);
            Reading::NoMemory
        }
    }
}

// All of the piece that was read is pending of a connection of which nothing was.
fn keep_piece<S: Read + Drop>(
    traffic: &mut Switchboard<S>,
    now: u64,
    number: ConnectionNumber,
) -> Reading
    requires none_pending { pending_of (link_at traffic.old.links.table.items number) ≡ [] }
    requires there { IsSome (link_at traffic.old.links.table.items number) }
    requires many { SMALL < length traffic.old.links.buffer.items }
    ensures keeps { OffersPiece traffic.old.engine.hub.has_journal (hub_terms traffic.old.engine.hub) now
        number traffic.old.links.buffer.items (traffic_state traffic.old) result (traffic_state traffic.new) }
    ensures terms { SameTerms traffic.old traffic.new }
    ensures waits { traffic.new.waits ≡ traffic.old.waits }
{
    match traffic.links.keep(number, 0) {
        Ok(()) => Reading::Kept,
        Err(_) => {
            give_up(traffic, now, number);
            Reading::NoMemory
        }
    }
}

// Offers the piece that was read of a connection of which nothing was pending, if it is small; else it is
// pending.
fn take_piece<S: Read + Drop>(
    traffic: &mut Switchboard<S>,
    now: u64,
    number: ConnectionNumber,
) -> Reading
    requires none_left { (engine_state traffic.old.engine).left ≡ [] }
    requires may { MayBeOffered (engine_state traffic.old.engine).hub number }
    requires none_pending { pending_of (link_at traffic.old.links.table.items number) ≡ [] }
    requires there { IsSome (link_at traffic.old.links.table.items number) }
    ensures takes { OffersPiece traffic.old.engine.hub.has_journal (hub_terms traffic.old.engine.hub) now
        number traffic.old.links.buffer.items (traffic_state traffic.old) result (traffic_state traffic.new) }
    ensures terms { SameTerms traffic.old traffic.new }
    ensures waits { traffic.new.waits ≡ traffic.old.waits }
{
    if traffic.links.piece().len() > SMALL {
        return keep_piece(traffic, now, number);
    }
    offer_piece(traffic, now, number)
}

// Reads once from a connection of which nothing is pending, and offers what came.
fn read_new<S: Read + Drop>(
    traffic: &mut Switchboard<S>,
    now: u64,
    number: ConnectionNumber,
) -> Reading
    requires none_left { (engine_state traffic.old.engine).left ≡ [] }
    requires may { MayBeOffered (engine_state traffic.old.engine).hub number }
    requires none_pending { pending_of (link_at traffic.old.links.table.items number) ≡ [] }
    ensures reads { ReadsNew S.remaining traffic.old.engine.hub.has_journal (hub_terms traffic.old.engine.hub)
        now number (traffic_state traffic.old) result (traffic_state traffic.new) }
    ensures terms { SameTerms traffic.old traffic.new }
    ensures waits { traffic.new.waits ≡ traffic.old.waits }
{
    match traffic.links.read(number, now) {
        ReadOutcome::Piece => take_piece(traffic, now, number),
        ReadOutcome::End => {
            traffic.engine.hand(now, LinkEvent::Ended(number));
            Reading::Ended
        }
        ReadOutcome::Nothing => Reading::Nothing,
        ReadOutcome::Broken => {
            give_up(traffic, now, number);
            Reading::Broken
        }
    }
}

// Reads once from a connection that may be offered more and of which nothing is pending, where there is room
// for so many bytes in all.
pub(crate) fn read_one<S: Read + Drop>(
    traffic: &mut Switchboard<S>,
    room: u128,
    now: u64,
    number: ConnectionNumber,
) -> Reading
    requires none_left { (engine_state traffic.old.engine).left ≡ [] }
    ensures reads { ReadsOne S.remaining room traffic.old.engine.hub.has_journal
        (hub_terms traffic.old.engine.hub)
        now number (traffic_state traffic.old) result (traffic_state traffic.new) }
    ensures terms { SameTerms traffic.old traffic.new }
    ensures waits { traffic.new.waits ≡ traffic.old.waits }
{
    if is_over(traffic, room) {
        return Reading::Nothing;
    }
    if !may_offer(&traffic.engine, number) {
        return Reading::Nothing;
    }
    if !is_none_pending(&traffic.links, number) {
        return Reading::Nothing;
    }
    read_new(traffic, now, number)
}
