//! Connections go on until none is left to go on.
ghost use Rattle.std.specs.Prelude.{◌<◌, length, [], option_to_list, ◌++◌};
ghost use Rattle.rv_hub.specs.dispatcher.Fields.{IsSteady, dispatcher_state};
ghost use Rattle.rv_hub.specs.dispatcher.Rest.{HasComeToStop, TakesNoMore};
ghost use Rattle.rv_hub.specs.dispatcher.Going.{TakesItsTurn};
ghost use Rattle.rv_hub.specs.Turns.{offered_to};
ghost use Rattle.rv_hub.specs.Steps.{IsGoing, IsOffering, TurnsOn, offer_from};

use crate::dispatcher::Dispatcher;
use rv_server_connections::subscribers::ConnectionNumber;

// A connection goes on until it stops. Bytes of a piece are taken of the connection alone of which it came.
fn turn(
    dispatcher: &mut Dispatcher,
    connection: ConnectionNumber,
    source: ConnectionNumber,
    piece: &[u8],
) -> usize
    requires { IsSteady dispatcher.old }
    ensures steady { IsSteady dispatcher.new }
    ensures turn { TakesItsTurn dispatcher.old connection (offered_to (offer_from source piece.now)
        connection)
        result dispatcher.new }
    ensures stopped { HasComeToStop (dispatcher_state dispatcher.new) connection }
    ensures stops { result < length (offered_to (offer_from source piece.now) connection)
        → TakesNoMore (dispatcher_state dispatcher.new) connection }
{
    if source == connection {
        dispatcher.turn(connection, piece)
    } else {
        dispatcher.turn(connection, &[])
    }
}

// Those that were freed go on, in the order in which they were told. It gives how many bytes of the piece
// were taken.
fn turn_freed(dispatcher: &mut Dispatcher, source: ConnectionNumber, piece: &[u8]) -> usize
    requires steady { IsSteady dispatcher.old }
    requires going { IsGoing (dispatcher_state dispatcher.old) dispatcher.old.freed.items }
    requires offering { IsOffering (dispatcher_state dispatcher.old) dispatcher.old.freed.items
        (offer_from source piece.now) }
    ensures steady { IsSteady dispatcher.new }
    ensures turns { TurnsOn dispatcher.old [] (offer_from source piece.now) result dispatcher.new }
{
    let mut taken = 0;
    while let Some(connection) = dispatcher.next_freed() {
        taken += turn(dispatcher, connection, source, &piece[taken..]);
    }
    taken
}

// A connection goes on, if there is one, and then those that were freed.
pub(crate) fn turn_all(
    dispatcher: &mut Dispatcher,
    first: Option<ConnectionNumber>,
    source: ConnectionNumber,
    piece: &[u8],
) -> usize
    requires steady { IsSteady dispatcher.old }
    requires going { IsGoing (dispatcher_state dispatcher.old) (option_to_list first ++
        dispatcher.old.freed.items) }
    requires offering { IsOffering (dispatcher_state dispatcher.old) (option_to_list first ++
        dispatcher.old.freed.items)
        (offer_from source piece.now) }
    ensures steady { IsSteady dispatcher.new }
    ensures turns { TurnsOn dispatcher.old (option_to_list first) (offer_from source piece.now) result
        dispatcher.new }
{
    match first {
        None => turn_freed(dispatcher, source, piece),
        Some(connection) => {
            let taken = turn(dispatcher, connection, source, piece);
            taken + turn_freed(dispatcher, source, &piece[taken..])
        }
    }
}
