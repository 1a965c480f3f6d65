//! The faults that end a run over the lines of an input.
ghost use Rattle.std.specs.Prelude.{◌≡◌};
ghost use Rattle.rv_run.specs.Faults.{fault_number};
ghost use Rattle.rv_run.specs.declared.fault.RunFault.TheVariants.{NoMemory, ReadFault, WriteFault};

use crate::output::OutputFault;
use rv_frame::ReadFault;
use std::alloc::AllocError;
use thiserror::Error;

/// The reason why a run ended before its output was whole.
#[derive(Clone, Copy, Debug, Error)]
#[error("run fault {}", self.number())]
pub enum RunFault {
    /// 1: a read of the input failed. Nothing was printed.
    ReadFault,
    /// 2: a write of the output failed, after the bytes that the fault counts.
    WriteFault(OutputFault),
    /// 3: memory was refused. By then nothing was printed, or some whole lines, as each run says.
    NoMemory,
    /// 4: the input has more than 536,870,912 bytes. Nothing was printed.
    TooLong,
}

impl RunFault {
    /// The fault's number, as the program prints it.
    pub fn number(&self) -> u8
        ensures { result ≡ fault_number self.now }
    {
        match self {
            RunFault::ReadFault => 1,
            RunFault::WriteFault(_) => 2,
            RunFault::NoMemory => 3,
            RunFault::TooLong => 4,
        }
    }
}

impl From<ReadFault> for RunFault {
    ghost from_gives = { λ _ fault. fault ≡ ReadFault };

    fn from(_fault: ReadFault) -> RunFault {
        RunFault::ReadFault
    }
}

impl From<OutputFault> for RunFault {
    ghost from_gives = { λ cause fault. fault ≡ WriteFault cause };

    fn from(fault: OutputFault) -> RunFault {
        RunFault::WriteFault(fault)
    }
}

impl From<AllocError> for RunFault {
    ghost from_gives = { λ _ fault. fault ≡ NoMemory };

    fn from(_error: AllocError) -> RunFault {
        RunFault::NoMemory
    }
}
