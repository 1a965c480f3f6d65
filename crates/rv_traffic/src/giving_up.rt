//! Gives a connection up.
ghost use Rattle.std.specs.Prelude.{◌≡◌};
ghost use Rattle.rv_hub.specs.Hubs.{hub_terms};
ghost use Rattle.rv_engine.specs.Engines.{engine_state};
ghost use Rattle.rv_traffic.specs.Calls.{GivesUp, TellsGone};
ghost use Rattle.rv_traffic.specs.Views.{SameTerms, traffic_state};

use crate::asking::is_open;
use crate::traffic::Switchboard;
use rv_engine::{Engine, LinkEvent};
use rv_server_connections::subscribers::ConnectionNumber;

// Tells the hub that a connection is gone, if it is open and no entry is left; else it is to be looked at.
fn tell_gone(engine: &mut Engine, now: u64, number: ConnectionNumber)
    ensures told { TellsGone engine.old.hub.has_journal (hub_terms engine.old.hub) (engine_state engine.old)
        now number
        (engine_state engine.new) }
    ensures terms { hub_terms engine.new.hub ≡ hub_terms engine.old.hub }
    ensures journal { engine.new.hub.has_journal ≡ engine.old.hub.has_journal }
{
    if !engine.catch_up() {
        engine.look_at(number);
        return;
    }
    if !is_open(engine, number) {
        engine.look_at(number);
        return;
    }
    engine.hand(now, LinkEvent::Gone(number));
}

// Lets go of a connection's socket, and tells the hub that its peer is gone.
pub(crate) fn give_up<S: Drop>(traffic: &mut Switchboard<S>, now: u64, number: ConnectionNumber)
    ensures gives_up { GivesUp traffic.old.engine.hub.has_journal (hub_terms traffic.old.engine.hub) now
        number
        (traffic_state traffic.old) (traffic_state traffic.new) }
    ensures terms { SameTerms traffic.old traffic.new }
    ensures waits { traffic.new.waits ≡ traffic.old.waits }
{
    traffic.links.remove(number);
    tell_gone(&mut traffic.engine, now, number);
}
