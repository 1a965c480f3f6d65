//! The faults that end the program with a line on standard error.
use rv_end::StatusFault;
use rv_run::RunFault;
use rv_server::ServeFault;
use rv_store::VERSION;
use rv_words::command::CommandFault;
use thiserror::Error;

/// Why no account is verified, where a file or a folder is there.
#[derive(Clone, Copy, Debug, Error)]
pub(crate) enum NoAccount {
    /// The folder has no file of an epoch's account.
    #[error("no epoch has an account")]
    NoEpoch,
    /// The file is a journal in this version of the format, which isn't the one that is read.
    #[error("journal version {0}; version {VERSION} is read")]
    OtherVersion(u64),
    /// The file is a journal whose first line has no end.
    #[error("the journal has no whole line")]
    NoLine,
}

/// The reason why the program ends before its command is done.
#[derive(Clone, Copy, Debug, Error)]
pub(crate) enum ProgramFault {
    /// The words name no command, or found no memory.
    #[error("{0}")]
    Command(CommandFault),
    /// A run over the lines of an input ended early, or the writing of a served book's account did.
    #[error("{0}")]
    Run(RunFault),
    /// The server ended early.
    #[error("{0}")]
    Serve(ServeFault),
    /// The status of a server couldn't be read.
    #[error("{0}")]
    Status(StatusFault),
    /// More requests may be left to end.
    #[error("more are left")]
    MoreLeft,
    /// No socket listens at the address, or none connects to it.
    #[error("address fault")]
    Address,
}

impl ProgramFault {
    /// The exit status for it.
    pub(crate) fn status(&self) -> u8 {
        match self {
            ProgramFault::Command(_) => 2,
            ProgramFault::Run(_) | ProgramFault::Serve(_) | ProgramFault::Address => 1,
            ProgramFault::Status(_) | ProgramFault::MoreLeft => 1,
        }
    }
}

impl From<CommandFault> for ProgramFault {
    fn from(fault: CommandFault) -> ProgramFault {
        ProgramFault::Command(fault)
    }
}

impl From<RunFault> for ProgramFault {
    fn from(fault: RunFault) -> ProgramFault {
        ProgramFault::Run(fault)
    }
}

impl From<StatusFault> for ProgramFault {
    fn from(fault: StatusFault) -> ProgramFault {
        ProgramFault::Status(fault)
    }
}
