//! The visible results of events, and their refusals.
use rv_text::{Key, NoMemory, Refusal};
use thiserror::Error;

/// The visible result of an event.
#[derive(Clone, Copy)]
pub enum Seen {
    /// A client sent a message: the packet of this number.
    Sent(usize),
    /// The server sent an answer: the packet of this number.
    Answered(usize),
    /// A new client is welcome, and idle.
    Welcomed,
    /// A new client was refused, for this reason.
    TurnedAway(Refusal),
    /// The request of this key has its reply.
    Settled(Key),
    /// The answer says nothing to its client, or no process of the client runs.
    Ignored,
    /// A client's request ended, since the server has this later epoch.
    Ended(u64),
    /// A client's request ended, since the client has this later incarnation.
    Replaced(u64),
    /// A client's process ended.
    Crashed,
    /// A server started in this epoch.
    Opened(u64),
}

/// Why an event was refused. A refused event changed nothing.
#[derive(Clone, Copy, Debug, PartialEq, Eq, Error)]
pub enum WorldRefusal {
    /// 1: no packet of this number was ever sent.
    #[error("there is no such packet")]
    NoSuchPacket,
    /// 2: the client's process is not idle, or it has used the greatest number up.
    #[error("the client is not idle")]
    NotIdle,
    /// 3: the client's process has no request.
    #[error("the client has no request")]
    NotOutstanding,
    /// 4: the client was started in this incarnation or in a greater one.
    #[error("the incarnation is not greater")]
    IncarnationNotGreater,
    /// 5: the present epoch is this one or a greater one.
    #[error("the epoch is not greater")]
    EpochNotGreater,
    /// 6: no process of the client runs.
    #[error("there is no such client")]
    NoSuchClient,
    /// 7: memory was refused.
    #[error("out of memory")]
    NoMemory,
}

impl From<NoMemory> for WorldRefusal {
    ghost use Rattle.std.specs.Prelude.{◌≡◌};
    ghost use Rattle.rv_world.specs.declared.parts.seen.WorldRefusal.TheVariants as refusals;

    ghost from_gives = { λ _ refusal. refusal ≡ refusals.NoMemory };

    fn from(_refused: NoMemory) -> WorldRefusal {
        WorldRefusal::NoMemory
    }
}
