//! Why a server's status couldn't be read.
ghost use Rattle.std.specs.Prelude.{◌≡◌};
ghost use Rattle.rv_end.specs.Faults.{status_fault_number};
ghost use Rattle.rv_end.specs.declared.fault.StatusFault.TheVariants as faults;

use rv_frame::{ReadFault, WriteFault};
use std::alloc::AllocError;
use thiserror::Error;

/// The reason why a server's status wasn't read.
#[derive(Clone, Copy, Debug, PartialEq, Eq, Error)]
#[error("status fault {}", self.number())]
pub enum StatusFault {
    /// 1: a read of the answer failed.
    ReadFault,
    /// 2: a write of the request failed.
    WriteFault,
    /// 3: memory was refused.
    NoMemory,
    /// 4: the answer has more than 4,194,304 bytes.
    TooLong,
    /// 5: the answer isn't a 200 with a status.
    NotUnderstood,
}

impl StatusFault {
    /// The fault's number, as the program prints it.
    pub fn number(&self) -> u8
        ensures { result ≡ status_fault_number self.now }
    {
        match self {
            StatusFault::ReadFault => 1,
            StatusFault::WriteFault => 2,
            StatusFault::NoMemory => 3,
            StatusFault::TooLong => 4,
            StatusFault::NotUnderstood => 5,
        }
    }
}

impl From<ReadFault> for StatusFault {
    ghost from_gives = { λ _ fault. fault ≡ faults.ReadFault };

    fn from(_fault: ReadFault) -> StatusFault {
        StatusFault::ReadFault
    }
}

impl From<WriteFault> for StatusFault {
    ghost from_gives = { λ _ fault. fault ≡ faults.WriteFault };

    fn from(_fault: WriteFault) -> StatusFault {
        StatusFault::WriteFault
    }
}

impl From<AllocError> for StatusFault {
    ghost from_gives = { λ _ fault. fault ≡ faults.NoMemory };

    fn from(_refused: AllocError) -> StatusFault {
        StatusFault::NoMemory
    }
}
