//! Why a server finds no place for its account.
ghost use Rattle.std.specs.Prelude.{◌≡◌};
ghost use Rattle.rv_store.specs.declared.keeping.fault.KeepFault.TheVariants.{NoMemory};

use std::alloc::{AllocError, Global};
use std::io;
use std::io::ErrorKind;

/// Why an account isn't kept, or not gone on with.
#[derive(Drop)]
pub enum KeepFault {
    /// The system refused the file or folder of this name.
    Named(String, io::Error),
    /// The file or folder of this name isn't one to go on from, for this reason. Nothing in it changed.
    Unusable(String, String),
    /// Memory was refused.
    NoMemory,
}

impl From<AllocError> for KeepFault {
    ghost from_gives = { λ _ told. told ≡ NoMemory };

    fn from(_error: AllocError) -> KeepFault {
        KeepFault::NoMemory
    }
}

// What the system refused.
pub(crate) fn named(alloc: Global, name: &str, error: io::Error) -> KeepFault {
    match String::from_str(alloc, name) {
        Ok(name) => KeepFault::Named(name, error),
        Err(_) => KeepFault::NoMemory,
    }
}

// The same, or that memory was refused.
pub(crate) fn refused(alloc: Global, name: &str, why: io::Error) -> KeepFault {
    match why.kind() {
        ErrorKind::OutOfMemory => KeepFault::NoMemory,
        _ => named(alloc, name, why),
    }
}

// What isn't one to go on from, for this reason, if there was memory to write it.
pub(crate) fn unusable(alloc: Global, name: &str, why: Result<String, AllocError>) -> KeepFault {
    match (String::from_str(alloc, name), why) {
        (Ok(name), Ok(why)) => KeepFault::Unusable(name, why),
        _ => KeepFault::NoMemory,
    }
}
