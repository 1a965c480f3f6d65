//! Why an account isn't read to its end.
use rv_book::lines::LineFault;
use rv_replies::OutOfMemory;
use rv_text::NoMemory;
use std::io;
use std::io::ErrorKind;

/// Why an account isn't read to its end.
#[derive(Clone, Copy)]
pub enum VerifyFault {
    /// A read failed.
    ReadFault,
    /// Memory was refused.
    NoMemory,
}

impl From<io::Error> for VerifyFault {
    fn from(error: io::Error) -> VerifyFault {
        match error.kind() {
            ErrorKind::OutOfMemory => VerifyFault::NoMemory,
            _ => VerifyFault::ReadFault,
        }
    }
}

impl From<NoMemory> for VerifyFault {
    fn from(_fault: NoMemory) -> VerifyFault {
        VerifyFault::NoMemory
    }
}

impl From<OutOfMemory> for VerifyFault {
    fn from(_fault: OutOfMemory) -> VerifyFault {
        VerifyFault::NoMemory
    }
}
