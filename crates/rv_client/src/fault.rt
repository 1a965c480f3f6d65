//! The faults of a link: why a request got no answer.
ghost use Rattle.std.specs.Prelude.{◌≡◌};
ghost use Rattle.rv_client.specs.Faults.{text_fault};
ghost use Rattle.rv_client.specs.declared.fault.LinkFault.TheVariants.{NoMemory, ReadFault, WriteFault};

use rv_text::TextFault;
use std::alloc::AllocError;
use thiserror::Error;

/// Why a request got no answer over its link. [`ask`](crate::ask) says how the link is left.
#[derive(Clone, Copy, Debug, PartialEq, Eq, Error)]
pub enum LinkFault {
    /// 1: a read of the source failed before the answer's frame was whole. The whole request went out.
    #[error("a read of the link failed")]
    ReadFault,
    /// 2: a write to the sink failed, after this many bytes of the request's frame. Nothing was read.
    #[error("a write to the link failed after {0} bytes")]
    WriteFault(usize),
    /// 3: the source ended before the answer's frame was whole. The whole request went out.
    #[error("the link ended before the answer was whole")]
    Closed,
    /// 4: the two bytes that were read are not the length of a frame. The whole request went out.
    #[error("the answer has a bad length")]
    BadFrame,
    /// 5: one whole frame came, and its body is not an answer. The whole request went out.
    #[error("the body is not an answer")]
    BadBody,
    /// 6: memory was refused, before a byte went out or after the whole answer was read.
    #[error("out of memory")]
    NoMemory,
}

impl From<rv_frame::ReadFault> for LinkFault {
    ghost from_gives = { λ _ fault. fault ≡ ReadFault };

    fn from(_fault: rv_frame::ReadFault) -> LinkFault {
        LinkFault::ReadFault
    }
}

impl From<rv_frame::WriteFault> for LinkFault {
    ghost from_gives = { λ cause fault. fault ≡ WriteFault cause.sent };

    fn from(fault: rv_frame::WriteFault) -> LinkFault {
        LinkFault::WriteFault(fault.sent)
    }
}

impl From<TextFault> for LinkFault {
    ghost from_gives = { λ cause fault. fault ≡ text_fault cause };

    fn from(fault: TextFault) -> LinkFault {
        match fault {
            TextFault::NotJson | TextFault::NotMessage => LinkFault::BadBody,
            TextFault::NoMemory => LinkFault::NoMemory,
        }
    }
}

impl From<AllocError> for LinkFault {
    ghost from_gives = { λ _ fault. fault ≡ NoMemory };

    fn from(_refused: AllocError) -> LinkFault {
        LinkFault::NoMemory
    }
}
