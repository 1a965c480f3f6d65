//! Laws of frames in bytes: each contract is a law, and the bodies do nothing.
ghost use Rattle.rv_frame.specs.Laws.{FedIsCut, OneCut, PiecesJoin, TakenIsCut};

/// Bytes have at most one cut into whole frames and an end after them.
pub fn one_cut()
    ensures { OneCut }
{}

/// Pieces that are fed one after the other do what all of them do, fed as one.
pub fn pieces_join()
    ensures { PiecesJoin }
{}

/// The frames that were taken and those that can still be taken are those of the cut of all bytes that were
/// fed: that stays so when a further piece is fed.
pub fn fed_is_cut()
    ensures { FedIsCut }
{}

/// It also stays so when the oldest frame is taken.
pub fn taken_is_cut()
    ensures { TakenIsCut }
{}
