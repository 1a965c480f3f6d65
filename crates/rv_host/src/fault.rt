//! Why a server ends.
use rv_frame::WriteFault;
use rv_store::keeping::KeepFault;
use std::alloc::{AllocError, AllocFailed};
use std::io::ErrorKind;
use std::{fmt, io};

/// Why a server ended, or didn't start.
#[derive(Drop)]
pub(crate) enum HostEnd {
    /// The system refused what it was asked for, which this word names.
    System(&'static str, io::Error),
    /// The system refused what the words name: an address or a file.
    Named(String, io::Error),
    /// The account's file didn't take all lines.
    Account(WriteFault),
    /// The store of this name, or its file, isn't one to go on from, for this reason.
    Store(String, String),
    /// The account's file may not grow as long as that.
    TooLong,
    /// The book doesn't take these limits.
    Limits,
    /// Memory was refused.
    NoMemory,
}

// The kind of an error of the system's, if it has a text of its own.
fn own_kind(error: &io::Error) -> Option<ErrorKind> {
    match error.kind() {
        ErrorKind::Uncategorized | ErrorKind::Other => None,
        kind => error.raw_os_error().map(|_| kind),
    }
}

impl fmt::Display for HostEnd {
    fn fmt<W: fmt::Write>(&self, f: &mut fmt::Formatter<W>) -> fmt::Result {
        match self {
            HostEnd::System(what, error) => write!(f, "{what}: {error}"),
            HostEnd::Named(name, error) => match own_kind(error) {
                Some(kind) => write!(f, "{name}: {kind}"),
                None => write!(f, "{name}: {error}"),
            },
            HostEnd::Account(fault) => write!(f, "the account: {fault}"),
            HostEnd::Store(name, why) => write!(f, "{name}: {why}"),
            HostEnd::TooLong => f.write_str("no longer file is allowed (ulimit -f)"),
            HostEnd::Limits => f.write_str("no such limits"),
            HostEnd::NoMemory => f.write_str("no memory"),
        }
    }
}

impl From<AllocError> for HostEnd {
    fn from(_error: AllocError) -> HostEnd {
        HostEnd::NoMemory
    }
}

impl<T: Drop> From<AllocFailed<T>> for HostEnd {
    fn from(_error: AllocFailed<T>) -> HostEnd {
        HostEnd::NoMemory
    }
}

impl From<KeepFault> for HostEnd {
    fn from(fault: KeepFault) -> HostEnd {
        match fault {
            KeepFault::Named(name, error) => HostEnd::Named(name, error),
            KeepFault::Unusable(name, why) => HostEnd::Store(name, why),
            KeepFault::NoMemory => HostEnd::NoMemory,
        }
    }
}

impl From<io::Error> for HostEnd {
    fn from(error: io::Error) -> HostEnd {
        HostEnd::System("system", error)
    }
}
