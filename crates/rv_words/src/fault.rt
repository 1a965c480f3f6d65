//! Why a command line is refused.
ghost use Rattle.std.specs.Prelude.{◌≡◌};
ghost use Rattle.clap.specs.Words.{kind_of};
ghost use Rattle.rv_words.specs.declared.fault.CommandFault.TheVariants.{Bad, NoMemory};
ghost use Rattle.clap.specs.declared.error.ErrorKind.TheVariants.{OutOfMemory};

use clap::error::ErrorKind;
use std::alloc::AllocError;
use thiserror::Error;

/// The reason why the words of a command line give no command.
#[derive(Clone, Copy, Debug, Error)]
pub enum CommandFault {
    /// The words name no command, and neither do those that ask for help: `clap` refuses them, or a
    /// number is written in another way or lies outside its limits.
    #[error("command fault 1")]
    Bad,
    /// Memory was refused.
    #[error("command fault 2")]
    NoMemory,
}

impl From<AllocError> for CommandFault {
    ghost from_gives = { λ _ fault. fault ≡ NoMemory };

    fn from(_error: AllocError) -> CommandFault {
        CommandFault::NoMemory
    }
}

impl From<clap::Error> for CommandFault {
    ghost from_gives = { λ error fault. (kind_of error ≡ OutOfMemory → fault ≡ NoMemory)
        × (¬ (kind_of error ≡ OutOfMemory) → fault ≡ Bad) };

    fn from(error: clap::Error) -> CommandFault {
        match error.kind() {
            ErrorKind::OutOfMemory => CommandFault::NoMemory,
            _ => CommandFault::Bad,
        }
    }
}
