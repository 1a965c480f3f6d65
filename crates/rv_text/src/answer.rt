//! What the server answers: welcomes, replies and refusals.
ghost use Rattle.std.specs.Prelude.{◌≡◌, ◌↔◌, IfOk, IsTrue, length};

use crate::message::{Key, MAX_IDENTIFIER, fits_identifier};
use crate::version::Version;
use rv_json::{Item, Items, NoMemory};
use std::alloc::Global;
use thiserror::Error;

/// The greatest number that a count reports: as many items or consumers as an epoch can have.
pub const MAX_COUNTED: u64 = 100_000;

/// The outcome of a request. Once given, it stays the request's reply.
#[derive(PartialEq, Eq, Drop)]
pub enum Reply {
    /// A put was accepted.
    Done,
    /// A transfer's item was given to a consumer.
    Received,
    /// The same in a session of version 2: the item was given to the request of this key. In an answer that
    /// is within its limits both keys have one epoch.
    ReceivedBy(Key),
    /// A transfer that does not wait found no consumer.
    Nobody,
    /// A take got this item.
    Item(Item),
    /// A take that does not wait, or a peek, found no item.
    Empty,
    /// A swap got this item in exchange for its own.
    Swapped(Item),
    /// The request's wait ended, and it had met nobody.
    TimedOut,
    /// The request was ended by a cancel, while it waited or before it came, or by its client's hello with a
    /// greater incarnation, while it waited.
    Cancelled,
    /// How many items wait in the queue, those of puts and of transfers, and how many consumers: within the
    /// limits 0 to 100,000 each.
    Counted { items: u64, consumers: u64 },
    /// A peek saw this item, the queue's oldest.
    Peeked(Item),
    /// A drain got these items, the queue's oldest in their order; it may be none.
    Drained(Items),
}

/// Why a message was refused. Its number is [`Refusal::code`]. The book says when each comes; none of it is
/// promised here.
#[derive(Clone, Copy, Debug, PartialEq, Eq, Error)]
pub enum Refusal {
    /// 1: the body is not a message.
    #[error("the body is not a message")]
    BadText,
    /// 2: the key's epoch is not the server's, which is given.
    #[error("the server's epoch is {0}")]
    OtherEpoch(u64),
    /// 3: in this epoch the client has no session, or one of a lower incarnation.
    #[error("the client has no session")]
    NoSession,
    /// 4: the session has a greater incarnation, which is given.
    #[error("the session's incarnation is {0}")]
    OldIncarnation(u64),
    /// 5: the message's number is below the session's last, which is given.
    #[error("the session's last number is {0}")]
    OldNumber(u64),
    /// 6: the last number has a request with another call.
    #[error("the number has another call")]
    OtherCall,
    /// 7: the session's last request, whose number is given, still waits.
    #[error("request {0} still waits")]
    Busy(u64),
    /// 8: the number is not the next one after the last, which is given.
    #[error("the session's last number is {0}, and this is not the next")]
    Gap(u64),
    /// 9: there are as many clients as an epoch can have.
    #[error("the epoch has as many clients as it can")]
    ClientsFull,
    /// 10: the epoch has room for no further entry of this kind.
    #[error("the epoch is full")]
    EpochFull,
    /// 11: a growth of memory was refused.
    #[error("out of memory")]
    NoMemory,
    /// 12: a hello of the session's incarnation asks for another version than the session's, which is given.
    #[error("the session's version is {}", .0.number())]
    OtherVersion(Version),
}

impl Reply {
    ghost use Rattle.rv_text.specs.Rows.{reply_row};
    ghost use Rattle.rv_text.specs.Limits.{FitsReply, IsOfEpoch};

    // How many members the reply has in a body: its word, and its item, its items, its numbers or those of a
    // consumer's key.
    pub(crate) fn member_count(&self) -> usize
        ensures { result ≡ length (reply_row self.now) }
    {
        match self {
            Reply::Counted { .. } => 3,
            Reply::ReceivedBy(_) => 4,
            Reply::Item(_) | Reply::Swapped(_) | Reply::Peeked(_) | Reply::Drained(_) => 2,
            _ => 1,
        }
    }

    /// Whether its items are at most 16 of at most 512 bytes, its counts at most 100,000, and a consumer's
    /// numbers 1 to 2^53 - 1. The consumer's epoch may be any here; the answer checks that it is its own.
    pub fn fits(&self) -> bool
        ensures { IsTrue result ↔ FitsReply self.now }
    {
        match self {
            Reply::Item(item) | Reply::Swapped(item) | Reply::Peeked(item) => item.fits(),
            Reply::Drained(items) => items.fits(),
            Reply::ReceivedBy(taker) => {
                fits_identifier(taker.client)
                    && fits_identifier(taker.incarnation)
                    && fits_identifier(taker.number)
            }
            Reply::Counted { items, consumers } => {
                *items <= MAX_COUNTED && *consumers <= MAX_COUNTED
            }
            _ => true,
        }
    }

    /// A copy of the reply. Fails only if memory for its items was refused.
    pub fn copy(&self, alloc: Global) -> Result<Reply, NoMemory>
        ensures same { IfOk result (λ reply. reply ≡ self.now) }
    {
        match self {
            Reply::Done => Ok(Reply::Done),
            Reply::Received => Ok(Reply::Received),
            Reply::ReceivedBy(taker) => Ok(Reply::ReceivedBy(*taker)),
            Reply::Nobody => Ok(Reply::Nobody),
            Reply::Item(item) => Ok(Reply::Item(item.copy(alloc)?)),
            Reply::Empty => Ok(Reply::Empty),
            Reply::Swapped(item) => Ok(Reply::Swapped(item.copy(alloc)?)),
            Reply::TimedOut => Ok(Reply::TimedOut),
            Reply::Cancelled => Ok(Reply::Cancelled),
            Reply::Counted { items, consumers } => Ok(Reply::Counted {
                items: *items,
                consumers: *consumers,
            }),
            Reply::Peeked(item) => Ok(Reply::Peeked(item.copy(alloc)?)),
            Reply::Drained(items) => Ok(Reply::Drained(items.copy(alloc)?)),
        }
    }

    // Whether the consumer that it names, if it names one, is of this epoch.
    fn is_of_epoch(&self, epoch: u64) -> bool
        ensures { IsTrue result ↔ IsOfEpoch epoch self.now }
    {
        match self {
            Reply::ReceivedBy(taker) => taker.epoch == epoch,
            _ => true,
        }
    }
}

impl Refusal {
    ghost use Rattle.rv_text.specs.Rows.{code_of, detail_row};
    ghost use Rattle.rv_text.specs.Limits.{FitsRefusal};

    // How many members the refusal has in a body beside its code.
    pub(crate) fn detail_count(&self) -> usize
        ensures { result ≡ length (detail_row self.now) }
    {
        match self {
            Refusal::OtherEpoch(_) | Refusal::OldIncarnation(_) | Refusal::OtherVersion(_) => 1,
            Refusal::OldNumber(_) | Refusal::Busy(_) | Refusal::Gap(_) => 1,
            _ => 0,
        }
    }

    /// Whether the number that it carries is within its limits: 1 to 2^53 - 1, and 0 too for a session's last
    /// number.
    pub fn fits(&self) -> bool
        ensures { IsTrue result ↔ FitsRefusal self.now }
    {
        match self {
            Refusal::OtherEpoch(current) => fits_identifier(*current),
            Refusal::OldIncarnation(current) => fits_identifier(*current),
            Refusal::Busy(number) => fits_identifier(*number),
            Refusal::OldNumber(last) | Refusal::Gap(last) => *last <= MAX_IDENTIFIER,
            _ => true,
        }
    }

    /// The refusal's number, 1 to 12.
    pub fn code(&self) -> u64
        ensures { result ≡ code_of self.now }
    {
        match self {
            Refusal::BadText => 1,
            Refusal::OtherEpoch(_) => 2,
            Refusal::NoSession => 3,
            Refusal::OldIncarnation(_) => 4,
            Refusal::OldNumber(_) => 5,
            Refusal::OtherCall => 6,
            Refusal::Busy(_) => 7,
            Refusal::Gap(_) => 8,
            Refusal::ClientsFull => 9,
            Refusal::EpochFull => 10,
            Refusal::NoMemory => 11,
            Refusal::OtherVersion(_) => 12,
        }
    }
}

/// What the server sends back for a message.
#[derive(PartialEq, Eq, Drop)]
pub enum Answer {
    /// A hello was accepted: the client's session has this incarnation and this version in this epoch.
    Welcome {
        /// The server's epoch.
        epoch: u64,
        /// The session's client.
        client: u64,
        /// The session's incarnation.
        incarnation: u64,
        /// The session's version.
        version: Version,
    },
    /// The request of this key has this reply.
    Replied {
        /// The request that has the reply.
        key: Key,
        /// Its outcome.
        reply: Reply,
    },
    /// The request of this key waits. Its outcome is the answer when the message is sent again.
    Waiting {
        /// The request that waits.
        key: Key,
    },
    /// The message was refused.
    Refused(Refusal),
}

impl Answer {
    ghost use Rattle.rv_text.specs.Limits.{FitsAnswer};

    /// Whether every number and item, and how many items a drain took, are within their limits, and a
    /// consumer that is named has the answer's epoch.
    pub fn fits(&self) -> bool
        ensures { IsTrue result ↔ FitsAnswer self.now }
    {
        match self {
            Answer::Welcome {
                epoch,
                client,
                incarnation,
                ..
            } => {
                fits_identifier(*epoch) && fits_identifier(*client) && fits_identifier(*incarnation)
            }
            Answer::Replied { key, reply } => {
                key.fits() && reply.fits() && reply.is_of_epoch(key.epoch)
            }
            Answer::Waiting { key } => key.fits(),
            Answer::Refused(refusal) => refusal.fits(),
        }
    }
}

impl From<NoMemory> for Refusal {
    ghost use Rattle.rv_text.specs.declared.answer.Refusal.TheVariants as refusals;

    ghost from_gives = { λ _ refusal. refusal ≡ refusals.NoMemory };

    fn from(_refused: NoMemory) -> Refusal {
        Refusal::NoMemory
    }
}
