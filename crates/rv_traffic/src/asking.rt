//! What is checked of a connection before its turn.
ghost use Rattle.std.specs.Prelude.{◌≡◌, ◌<◌, ◌≤◌, ◌+◌, ◌⊎◌, [], length, IsTrue, None};
ghost use Rattle.std.specs.Bool.{OnFalse, OnTrue};
ghost use Rattle.rv_server_connections.specs.connection.Traffic.{MayOffer};
ghost use Rattle.rv_server_connections.specs.Connections.{HasWire};
ghost use Rattle.rv_traffic.specs.links.Table.{HasInput, link_at, pending_of};
ghost use Rattle.rv_engine.specs.Engines.{engine_state};
ghost use Rattle.rv_traffic.specs.Calls.{IsOverfull, HasRoomLeft, MayBeOffered};
ghost use Rattle.rv_traffic.specs.Views.{traffic_state};

use crate::links::Links;
use crate::traffic::Switchboard;
use rv_engine::Engine;
use rv_server_connections::connection::Wire;
use rv_server_connections::subscribers::ConnectionNumber;

// Whether more of a connection's input may be offered.
pub(crate) fn may_offer(engine: &Engine, number: ConnectionNumber) -> bool
    ensures yes { OnTrue result (MayBeOffered (engine_state engine.now).hub number) }
    ensures no { OnFalse result (¬ MayBeOffered (engine_state engine.now).hub number) }
{
    match engine.hub().wire(number) {
        Some(wire) => wire.may_offer(),
        None => false,
    }
}

// Whether a connection is open.
pub(crate) fn is_open(engine: &Engine, number: ConnectionNumber) -> bool
    ensures yes { OnTrue result (HasWire (engine_state engine.now).hub.open_wires number (λ wire. Unit {0})) }
    ensures no { OnFalse result ((engine_state engine.now).hub.open_wires.wires number ≡ None) }
{
    match engine.hub().wire(number) {
        Some(_) => true,
        None => false,
    }
}

// Whether nothing is pending of a connection.
pub(crate) fn is_none_pending<S: Drop>(links: &Links<S>, number: ConnectionNumber) -> bool
    ensures yes { OnTrue result (pending_of (link_at links.now.table.items number) ≡ []) }
    ensures no { OnFalse result (0 < length (pending_of (link_at links.now.table.items number))) }
{
    links.pending(number).is_empty()
}

// Whether there may be more of a connection's input, of which nothing is pending.
pub(crate) fn may_have_more<S: Drop>(links: &Links<S>, number: ConnectionNumber) -> bool
    ensures yes { OnTrue result (HasInput (link_at links.now.table.items number)
        × (pending_of (link_at links.now.table.items number) ≡ [])) }
    ensures no { OnFalse result (¬ (HasInput (link_at links.now.table.items number)
        × (pending_of (link_at links.now.table.items number) ≡ []))) }
{
    links.has_input(number) && is_none_pending(links, number)
}

// Whether more of an open connection's input may be offered where there may be some, or bytes may leave where
// its socket may take some.
pub(crate) fn goes_on(wire: &Wire, has_more: bool, is_writable: bool) -> bool
    ensures yes { OnTrue result ((IsTrue has_more × MayOffer wire.now)
        ⊎ (IsTrue is_writable × (0 < length wire.now.ready))) }
    ensures no { OnFalse result (¬ ((IsTrue has_more × MayOffer wire.now)
        ⊎ (IsTrue is_writable × (0 < length wire.now.ready)))) }
{
    if has_more && wire.may_offer() {
        return true;
    }
    is_writable && !wire.ready().is_empty()
}

// Whether bytes of a connection are pending, and may be offered.
pub(crate) fn has_to_wait<S: Drop>(
    engine: &Engine,
    links: &Links<S>,
    number: ConnectionNumber,
) -> bool
    ensures yes { OnTrue result (MayBeOffered (engine_state engine.now).hub number
        × (0 < length (pending_of (link_at links.now.table.items number)))) }
    ensures no { OnFalse result (¬ (MayBeOffered (engine_state engine.now).hub number
        × (0 < length (pending_of (link_at links.now.table.items number))))) }
{
    !is_none_pending(links, number) && may_offer(engine, number)
}

// Whether three counts are more in all than there is room for.
fn exceed(answers: u128, unread: u128, pending: u128, room: u128) -> bool
    ensures yes { OnTrue result (room < answers + unread + pending) }
    ensures no { OnFalse result (answers + unread + pending ≤ room) }
{
    if answers > room {
        return true;
    }
    let rest = room - answers;
    if unread > rest {
        return true;
    }
    pending > rest - unread
}

// Whether more is held of all connections than there is room for.
pub(crate) fn is_over<S: Drop>(traffic: &Switchboard<S>, room: u128) -> bool
    ensures yes { OnTrue result (IsOverfull (traffic_state traffic.now) room) }
    ensures no { OnFalse result (HasRoomLeft (traffic_state traffic.now) room) }
{
    let hub = traffic.engine.hub();
    let answers = hub.held();
    let unread = hub.unread_count();
    let pending = traffic.links.pending_count();
    exceed(answers, unread, pending, room)
}
