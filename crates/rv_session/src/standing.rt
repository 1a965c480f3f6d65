//! What a hello and a key mean to a table of sessions.
use crate::kept::{Kept, Place};
use rv_text::{Call, Refusal, Reply, Version};

/// What a hello with an incarnation and a version means to the table.
#[derive(Clone, Copy)]
pub enum Greeting {
    /// The client's session has this incarnation and this version already.
    Again,
    /// The client has no session, and there is room for one.
    Unknown,
    /// The client has no session, and there are as many sessions as an epoch can have.
    Full,
    /// The client's session has a lower incarnation; and the place of its last request, if that still waits.
    Newer { waiting: Option<Place> },
    /// The client's session has a greater incarnation, which is given.
    Older(u64),
    /// The client's session has this incarnation, and another version, which is given.
    OtherVersion(Version),
}

/// What a key means to a table of sessions.
#[derive(Clone, Copy)]
pub enum Standing {
    /// The key is refused: for another epoch, no session, an old incarnation, an old number, a request
    /// that still waits, or a gap.
    Refused(Refusal),
    /// The key has its session's last number, whose request waits at this place.
    Waits(Place),
    /// The key has its session's last number, which was settled: the place where its request arrived, if
    /// it did, and the reply that is kept.
    Settled { place: Option<Place>, kept: Kept },
    /// The key has its session's next number, and nothing waits there.
    Next,
}

/// What a key means to a table of [`Clients`](crate::Clients). Calls and replies are lent by the table.
#[derive(Clone, Copy)]
pub enum KeyStanding<'a> {
    /// The key is refused: for another epoch, no session, an old incarnation, an old number, a request
    /// that still waits, or a gap.
    Refused(Refusal),
    /// The key has its session's last number, whose request waits at this place with this call.
    Waits(Place, &'a Call),
    /// The key has its session's last number, whose request came with this call and has this reply.
    Replied(&'a Call, &'a Reply),
    /// The key has its session's last number, which was cancelled before a request came with it.
    CancelledUnseen,
    /// The key has its session's next number, and nothing waits there.
    Next,
}
