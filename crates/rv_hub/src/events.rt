//! What happens to a hub.
use rv_server_connections::subscribers::ConnectionNumber;
use thiserror::Error;

/// An event of a hub. Each is handed in with its moment.
#[derive(Clone, Copy)]
pub enum HubEvent<'a> {
    /// A connection was opened.
    Opened,
    /// A piece of a connection's input came.
    Came(ConnectionNumber, &'a [u8]),
    /// A connection's input ended, after its last byte: none is taken from then on.
    Ended(ConnectionNumber),
    /// A connection's peer is gone.
    Gone(ConnectionNumber),
    /// A connection's peer took so many of the bytes that it was offered.
    Took(ConnectionNumber, usize),
    /// So many entries are written.
    Written(usize),
    /// Time went on.
    Passed,
}

/// Why an event isn't taken: it can't be, or memory was refused.
#[derive(Clone, Copy, Debug, Error)]
pub enum EventRefusal {
    /// The connection isn't open.
    #[error("the connection isn't open")]
    NotOpen,
    /// The connection's input has ended.
    #[error("the connection's input has ended")]
    HasEnded,
    /// More bytes were taken than were offered.
    #[error("more bytes were taken than were offered")]
    NotOffered,
    /// Fewer entries are written than were before.
    #[error("fewer entries are written than were before")]
    WrittenFalls,
    /// More entries are written than there are.
    #[error("more entries are written than there are")]
    NotMade,
    /// Memory for a connection was refused.
    #[error("out of memory")]
    NoMemory,
}
