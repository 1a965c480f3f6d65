//! Laws of a connection's history: each contract is one, and no body does anything.
ghost use Rattle.rv_server_connections.specs.connection.History.{CutsBad, CutsOpen, CutsWhole, KeepsAnswer};
ghost use Rattle.rv_server_connections.specs.connection.History.{KeepsEnd, KeepsFrame, KeepsLeaving};
ghost use Rattle.rv_server_connections.specs.connection.History.{KeepsPiece, KeepsRelease, OpensHistory};

/// A new connection has an empty history, and each call keeps it up: the answers are those to the frames of
/// its input, one each, in order. What left, and then what may leave, are exactly the frames of the answers
/// before the first that rests on more entries than are written.
pub fn history_is_kept()
    ensures opens { OpensHistory }
    ensures piece { KeepsPiece }
    ensures frame { KeepsFrame }
    ensures answer { KeepsAnswer }
    ensures release { KeepsRelease }
    ensures leaving { KeepsLeaving }
    ensures end { KeepsEnd }
{}

/// The frames that were taken are those into which all that came is cut, except for a whole frame that is
/// unread.
pub fn history_is_cut()
    ensures unfinished { CutsOpen }
    ensures whole { CutsWhole }
    ensures bad { CutsBad }
{}
