//! The events that a shell hands to an engine, and why one isn't taken.
ghost use Rattle.std.specs.Prelude.{◌≡◌, ℕ};
ghost use Rattle.rv_engine.specs.Handing.{TellsStored, told_hub};

use rv_frame::WriteFault;
use rv_hub::{EventRefusal, HubEvent};
use rv_server_connections::subscribers::ConnectionNumber;
use thiserror::Error;

/// What happened to a connection, or that time went on. That entries are written isn't among these events:
/// the engine itself tells the hub so.
#[derive(Clone, Copy)]
pub enum LinkEvent<'a> {
    /// A connection was opened.
    Opened,
    /// A piece of a connection's input came.
    Came(ConnectionNumber, &'a [u8]),
    /// A connection's input ended.
    Ended(ConnectionNumber),
    /// A connection's peer is gone.
    Gone(ConnectionNumber),
    /// A connection's peer took so many of the bytes that it was offered.
    Took(ConnectionNumber, usize),
    /// Time went on.
    Passed,
}

/// Why an event isn't taken, or lines aren't written.
#[derive(Clone, Copy, Debug, Error)]
pub enum EngineFault {
    /// The hub refused the event.
    #[error("the hub refused an event: {0}")]
    Refused(EventRefusal),
    /// Memory was refused for the lines of entries that were made before: no event was handed on.
    #[error("out of memory")]
    NoMemory,
    /// The account's device didn't take all lines: no event was handed on.
    #[error("the account isn't written: {0}")]
    NotWritten(WriteFault),
}

// The same event, as it is handed to the hub. None says that entries are written.
pub(crate) fn hub_event<'a>(event: LinkEvent<'a>) -> HubEvent<'a>
    ensures same { result ≡ told_hub event.entry }
    ensures tells { (stored : ℕ) → TellsStored result stored }
{
    match event {
        LinkEvent::Opened => HubEvent::Opened,
        LinkEvent::Came(connection, piece) => HubEvent::Came(connection, piece),
        LinkEvent::Ended(connection) => HubEvent::Ended(connection),
        LinkEvent::Gone(connection) => HubEvent::Gone(connection),
        LinkEvent::Took(connection, count) => HubEvent::Took(connection, count),
        LinkEvent::Passed => HubEvent::Passed,
    }
}
