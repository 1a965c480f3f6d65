//! The listener, and when to ask it for connections.
use mio::net::{TcpListener, TcpStream};
use mio::{Interest, Poll, Token};
use rv_traffic::number_of;
use std::io;
use std::io::ErrorKind;

// The milliseconds until accepting is tried again, if the system lacked what that takes.
const ACCEPT_AGAIN: u64 = 100;

// No descriptor was left to the process, or to the system.
const EMFILE: i32 = 24;

const ENFILE: i32 = 23;

// When the listener may be asked.
#[derive(Clone, Copy)]
enum DoorState {
    // The poll reported that someone waits.
    Now,
    // Nobody waits.
    WhenTold,
    // There was no descriptor: it may be asked again at this moment.
    At(u64),
}

/// What came of asking the listener.
#[derive(Drop)]
pub(crate) enum Accepted {
    /// A connection, and the number of its address.
    Stream(TcpStream, u128),
    /// Nobody waits.
    Nobody,
    /// No descriptor was left.
    NoDescriptor,
    /// Whoever waited is gone, or the system failed in another way.
    Failed,
}

/// A listener that is asked until it says that nobody waits.
#[derive(Drop)]
pub(crate) struct Door {
    listener: TcpListener,
    state: DoorState,
}

// Whether no descriptor was left.
fn lacks_descriptor(error: &io::Error) -> bool {
    match error.raw_os_error() {
        Some(code) => code == EMFILE || code == ENFILE,
        None => false,
    }
}

impl Door {
    pub(crate) fn new(listener: TcpListener) -> Door {
        Door {
            listener,
            state: DoorState::Now,
        }
    }

    /// The poll reports it from now on, under this token.
    pub(crate) fn register(&mut self, poll: &Poll, token: Token) -> io::Result<()> {
        poll.registry()
            .register(&mut self.listener, token, Interest::READABLE)
    }

    /// The poll reported that someone waits.
    pub(crate) fn knock(&mut self) {
        self.state = DoorState::Now;
    }

    /// Whether it is to be asked at a moment.
    pub(crate) fn is_asked(&self, now: u64) -> bool {
        match self.state {
            DoorState::Now => true,
            DoorState::WhenTold => false,
            DoorState::At(moment) => moment <= now,
        }
    }

    /// The moment at which it is to be asked again without a report from the poll, if there is one.
    pub(crate) fn again(&self) -> Option<u64> {
        match self.state {
            DoorState::At(moment) => Some(moment),
            _ => None,
        }
    }

    /// Asks for one connection.
    pub(crate) fn accept(&mut self, now: u64) -> Accepted {
        let error = match self.listener.accept() {
            Ok((stream, address)) => return Accepted::Stream(stream, number_of(&address)),
            Err(error) => error,
        };
        match error.kind() {
            ErrorKind::WouldBlock => {
                self.state = DoorState::WhenTold;
                Accepted::Nobody
            }
            // Whoever waited is gone: the next is asked for.
            ErrorKind::ConnectionAborted | ErrorKind::Interrupted => Accepted::Failed,
            _ => {
                self.state = DoorState::At(now.saturating_add(ACCEPT_AGAIN));
                if lacks_descriptor(&error) {
                    Accepted::NoDescriptor
                } else {
                    Accepted::Failed
                }
            }
        }
    }
}
