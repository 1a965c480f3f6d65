//! The faults that stop a worker before its input ends.
ghost use Rattle.std.specs.Prelude.{◌≡◌};

use rv_frame::{ReadFault, WriteFault};
use std::alloc::AllocError;
use thiserror::Error;

/// Why [`work`](crate::work) stopped. All frames before the fault were answered, except that, if memory was
/// refused, some that were read may not have been. More may have been read after the frame of a write fault,
/// and after one frame too many.
#[derive(Clone, Copy, Debug, PartialEq, Eq, Error)]
pub enum WorkFault {
    /// 1: a read failed, at this call or at an earlier one. The source has failed.
    #[error("a read of the connection failed")]
    ReadFault,
    /// 2: sending failed, at this call or at an earlier one: a write, after this many bytes of an answer's
    /// frame, or a flush, which counts as 0. The sink has failed.
    #[error("a write to the connection failed after {0} bytes of a frame")]
    WriteFault(usize),
    /// 3: the input ended in the middle of a frame.
    #[error("the connection ended in the middle of a frame")]
    CutFrame,
    /// 4: the two bytes of a length say 0.
    #[error("a frame has the bad length {0}")]
    BadLength(u16),
    /// 5: a growth of memory was refused.
    #[error("out of memory")]
    NoMemory,
    /// 6: a frame came after 65,536 whole ones.
    #[error("a connection has more than 65,536 frames")]
    TooLong,
}

impl From<ReadFault> for WorkFault {
    ghost use Rattle.std.specs.Prelude.{◌≡◌};
    ghost use Rattle.rv_server.specs.declared.fault.WorkFault.TheVariants.{ReadFault};

    ghost from_gives = { λ _ fault. fault ≡ ReadFault };

    fn from(_fault: ReadFault) -> WorkFault {
        WorkFault::ReadFault
    }
}

impl From<WriteFault> for WorkFault {
    ghost use Rattle.std.specs.Prelude.{◌≡◌};
    ghost use Rattle.rv_server.specs.declared.fault.WorkFault.TheVariants.{WriteFault};

    ghost from_gives = { λ cause fault. fault ≡ WriteFault cause.sent };

    fn from(fault: WriteFault) -> WorkFault {
        WorkFault::WriteFault(fault.sent)
    }
}

impl From<AllocError> for WorkFault {
    ghost use Rattle.std.specs.Prelude.{◌≡◌};
    ghost use Rattle.rv_server.specs.declared.fault.WorkFault.TheVariants.{NoMemory};

    ghost from_gives = { λ _ fault. fault ≡ NoMemory };

    fn from(_refused: AllocError) -> WorkFault {
        WorkFault::NoMemory
    }
}
