//! Why a command of a shell has no reply, and the status that tells it.
use crate::run::leased::ClientRange;
use rv_frame::WriteFault;
use rv_text::{Key, Refusal, Version};
use std::alloc::AllocError;
use std::{fmt, io};

/// Why a command has no reply. Its `Display` is the line on standard error.
#[derive(Drop)]
pub(crate) enum ShellEnd {
    /// No server listens at the address.
    NoServer,
    /// The address, or a word of the environment, isn't one that a command takes, which this line tells.
    Words(String),
    /// The line of this number is no item, and it and those after it weren't put.
    NoItem(u64),
    /// Standard input can't be read.
    Unread,
    /// The server refused the call, and did nothing.
    Refused(Refusal),
    /// What came of the request of this key, in messages of this version, isn't known.
    NotKnown(Key, Version),
    /// Each of these client numbers is leased.
    Leased(ClientRange),
    /// The clock gives no incarnation.
    Clock,
    /// Standard output didn't take the reply.
    Unprinted,
    /// The record of this path can't be opened.
    Unopened(String, io::Error),
    /// The record of this path lacks the line of a reply.
    Unrecorded(String, WriteFault),
    /// Items or consumers wait at the queue of this number.
    Busy(u64),
    /// A take of the bench in this queue got this item, which was somebody else's.
    NotOwn(u64, String),
    /// A call of the bench came to nothing, in this queue.
    Broken(u64),
    /// Memory was refused.
    NoMemory,
}

impl ShellEnd {
    /// The exit status.
    pub(crate) fn status(&self) -> u8 {
        match self {
            ShellEnd::Words(_) | ShellEnd::NoItem(_) | ShellEnd::Busy(_) => 2,
            ShellEnd::NotKnown(_, _) => 6,
            ShellEnd::Refused(_) => 7,
            _ => 1,
        }
    }
}

impl From<AllocError> for ShellEnd {
    fn from(_error: AllocError) -> ShellEnd {
        ShellEnd::NoMemory
    }
}

impl fmt::Display for ShellEnd {
    fn fmt<W: fmt::Write>(&self, f: &mut fmt::Formatter<W>) -> fmt::Result {
        match self {
            ShellEnd::NoServer => f.write_str("no server: none listens at the address"),
            ShellEnd::Words(text) => f.write_str(text),
            ShellEnd::Unopened(path, error) => write!(f, "record {path}: {error}"),
            ShellEnd::Unrecorded(path, fault) => write!(f, "record {path}: {fault}"),
            ShellEnd::NoItem(line) => {
                write!(
                    f,
                    "line {line}: no item, which is at most 512 bytes of UTF-8"
                )
            }
            ShellEnd::Unread => f.write_str("standard input can't be read"),
            ShellEnd::Refused(refusal) => write!(f, "refused {}: {refusal}", refusal.code()),
            ShellEnd::NotKnown(key, version) => write_unknown(f, key, *version),
            ShellEnd::Leased(range) => write!(
                f,
                "each client number from {} to {} is leased on this host",
                range.first, range.last
            ),
            ShellEnd::Clock => f.write_str("the clock gives no incarnation"),
            ShellEnd::Unprinted => f.write_str("standard output didn't take the reply"),
            ShellEnd::Busy(queue) => write!(f, "QUEUE {queue}: items or consumers wait there"),
            ShellEnd::NotOwn(queue, item) => {
                write!(
                    f,
                    "one item `rv bench` may be left in queue {queue}, where "
                )?;
                write!(
                    f,
                    "a take got an item that somebody else put meanwhile: {item}"
                )
            }
            ShellEnd::Broken(queue) => {
                write!(f, "the server was lost, or didn't do as it was asked; ")?;
                write!(f, "items `rv bench` may be left in queue {queue}")
            }
            ShellEnd::NoMemory => f.write_str("no memory"),
        }
    }
}

// Writes the key of a request whose outcome isn't known, and how it is asked again.
fn write_unknown<W: fmt::Write>(
    f: &mut fmt::Formatter<W>,
    key: &Key,
    version: Version,
) -> fmt::Result {
    let speak = match version {
        Version::One => 1,
        Version::Two => 2,
    };
    let (client, incarnation, epoch) = (key.client, key.incarnation, key.epoch);
    write!(
        f,
        "not known: the request of client {client}, incarnation {incarnation}"
    )?;
    write!(f, ", in epoch {epoch}; while the server is in that epoch, ")?;
    f.write_str("the same call asks again by rv call --connect ADDR")?;
    write!(f, " --client {client} --incarnation {incarnation}")?;
    write!(f, " --tries 6 --speak {speak}")
}
