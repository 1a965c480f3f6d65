//! Writes once to a connection what may leave.
ghost use Rattle.std.specs.Prelude.{◌≡◌, [], None, IsSome};
ghost use Rattle.rv_hub.specs.Hubs.{hub_terms};
ghost use Rattle.rv_engine.specs.Engines.{engine_state};
ghost use Rattle.rv_traffic.specs.links.Table.{link_at};
ghost use Rattle.rv_traffic.specs.Calls.{WritesOne};
ghost use Rattle.rv_traffic.specs.Views.{SameTerms, traffic_state};

use crate::asking::is_open;
use crate::giving_up::give_up;
use crate::links::WriteOutcome;
use crate::outcomes::Writing;
use crate::traffic::Switchboard;
use rv_engine::LinkEvent;
use rv_server_connections::subscribers::ConnectionNumber;
use std::io::Write;

// Writes once to a connection's socket, and tells the hub how many bytes that took. One that the hub closed
// loses its socket.
fn send<S: Write + Drop>(
    traffic: &mut Switchboard<S>,
    now: u64,
    number: ConnectionNumber,
) -> Writing
    requires none_left { (engine_state traffic.old.engine).left ≡ [] }
    requires there { IsSome (link_at traffic.old.links.table.items number) }
    ensures writes { WritesOne S.contents traffic.old.engine.hub.has_journal
        (hub_terms traffic.old.engine.hub) now number (traffic_state traffic.old) result
        (traffic_state traffic.new) }
    ensures terms { SameTerms traffic.old traffic.new }
    ensures waits { traffic.new.waits ≡ traffic.old.waits }
{
    let Some(wire) = traffic.engine.hub().wire(number) else {
        traffic.links.remove(number);
        return Writing::Closed;
    };
    let ready = wire.ready();
    if ready.is_empty() {
        traffic.links.rest(number, now);
        return Writing::Nothing;
    }
    match traffic.links.write(number, now, ready) {
        WriteOutcome::Took(count) => {
            traffic.engine.hand(now, LinkEvent::Took(number, count));
            Writing::Sent
        }
        WriteOutcome::Nothing => Writing::Nothing,
        WriteOutcome::Broken => {
            give_up(traffic, now, number);
            Writing::Broken
        }
    }
}

// Tells the hub that a connection without a socket is gone, if it is open.
fn tell_lost<S: Write + Drop>(
    traffic: &mut Switchboard<S>,
    now: u64,
    number: ConnectionNumber,
) -> Writing
    requires none_left { (engine_state traffic.old.engine).left ≡ [] }
    requires none { link_at traffic.old.links.table.items number ≡ None }
    ensures writes { WritesOne S.contents traffic.old.engine.hub.has_journal
        (hub_terms traffic.old.engine.hub) now number (traffic_state traffic.old) result
        (traffic_state traffic.new) }
    ensures terms { SameTerms traffic.old traffic.new }
    ensures waits { traffic.new.waits ≡ traffic.old.waits }
{
    if !is_open(&traffic.engine, number) {
        return Writing::Nothing;
    }
    traffic.engine.hand(now, LinkEvent::Gone(number));
    Writing::Gone
}

// Writes once to a connection that has a socket; the hub is told of one that has none.
pub(crate) fn write_one<S: Write + Drop>(
    traffic: &mut Switchboard<S>,
    now: u64,
    number: ConnectionNumber,
) -> Writing
    requires none_left { (engine_state traffic.old.engine).left ≡ [] }
    ensures writes { WritesOne S.contents traffic.old.engine.hub.has_journal
        (hub_terms traffic.old.engine.hub) now number (traffic_state traffic.old) result
        (traffic_state traffic.new) }
    ensures terms { SameTerms traffic.old traffic.new }
    ensures waits { traffic.new.waits ≡ traffic.old.waits }
{
    if !traffic.links.is_there(number) {
        return tell_lost(traffic, now, number);
    }
    send(traffic, now, number)
}
