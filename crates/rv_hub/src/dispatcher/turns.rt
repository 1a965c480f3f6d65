//! A connection's turn: it goes on until it stops.
ghost use Rattle.std.specs.Prelude.{◌≡◌, ◌<◌, ◌++◌, [], IfNone, length, option_to_list};
ghost use Rattle.rv_hub.specs.dispatcher.Fields.{IsSteady, dispatcher_state};
ghost use Rattle.rv_hub.specs.dispatcher.Rest.{HasComeToStop, TakesNoMore};
ghost use Rattle.rv_hub.specs.dispatcher.Going.{FeedsPiece, TakesItsTurn};

use crate::dispatcher::Dispatcher;
use rv_server_connections::subscribers::ConnectionNumber;

impl Dispatcher {
    // Takes bytes of a piece, as far as an open connection takes them. If memory is refused it is closed.
    fn feed(&mut self, connection: ConnectionNumber, piece: &[u8]) -> usize
        requires { IsSteady self.old }
        ensures steady { IsSteady self.new }
        ensures feeds { FeedsPiece self.old connection piece.now result self.new }
        ensures stops { result < length piece.now → TakesNoMore (dispatcher_state self.new) connection }
    {
        if piece.is_empty() {
            return 0;
        }
        match self.wires.take_in(connection, piece) {
            Ok(taken) => taken.unwrap_or(0),
            Err(_) => {
                self.shut(connection);
                0
            }
        }
    }

    /// A connection goes on until it stops: its frames are answered one by one, and bytes of a piece are
    /// taken in after them. It gives how many bytes were taken.
    pub fn turn(&mut self, connection: ConnectionNumber, piece: &[u8]) -> usize
        requires { IsSteady self.old }
        ensures steady { IsSteady self.new }
        ensures turn { TakesItsTurn self.old connection piece.now result self.new }
        ensures stopped { HasComeToStop (dispatcher_state self.new) connection }
        ensures stops { result < length piece.now → TakesNoMore (dispatcher_state self.new) connection }
    {
        let mut taken = self.feed(connection, piece);
        while self.go_on(connection) {
            taken += self.feed(connection, &piece[taken..]);
        }
        taken
    }

    /// The first of those that were told and haven't gone on yet.
    pub fn next_freed(&mut self) -> Option<ConnectionNumber>
        ensures first { self.old.freed.items ≡ option_to_list result ++ self.new.freed.items }
        ensures none { IfNone result (self.new.freed.items ≡ []) }
        ensures rest { self.new ≡ record self.old { freed = self.new.freed } }
    {
        self.freed.pop_front()
    }
}
