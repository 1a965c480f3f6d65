//! Takes in connections that were accepted.
ghost use Rattle.std.specs.Prelude.{◌≡◌};
ghost use Rattle.rv_hub.specs.Hubs.{hub_terms};
ghost use Rattle.rv_traffic.specs.Calls.{Attaches};
ghost use Rattle.rv_traffic.specs.Views.{SameTerms, traffic_state};

use crate::giving_up::give_up;
use crate::traffic::Switchboard;
use rv_server_connections::subscribers::ConnectionNumber;

/// A connection that was opened, and has no socket yet. Only `Switchboard::open` makes one, with the number
/// that the hub gave.
#[derive(Drop)]
pub struct Opened {
    pub(crate) number: ConnectionNumber,
}

impl Opened {
    /// The number that the hub gave it.
    pub fn number(&self) -> ConnectionNumber
        ensures { result ≡ self.now.number }
    {
        let Opened { number } = self;
        *number
    }
}

// Puts a socket under the number of its connection, or gives the connection up where that has no room.
pub(crate) fn attach<S: Drop>(
    traffic: &mut Switchboard<S>,
    now: u64,
    number: ConnectionNumber,
    stream: S,
) -> bool
    ensures attaches { Attaches traffic.old.engine.hub.has_journal (hub_terms traffic.old.engine.hub) now
        number stream (traffic_state traffic.old) result (traffic_state traffic.new) }
    ensures terms { SameTerms traffic.old traffic.new }
    ensures waits { traffic.new.waits ≡ traffic.old.waits }
{
    if number >= traffic.links.room() {
        give_up(traffic, now, number);
        return false;
    }
    traffic.links.insert(number, stream, now);
    true
}
