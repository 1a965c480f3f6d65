//! Why a body could not be read.
use std::alloc::AllocError;
use thiserror::Error;

/// A growth of memory was refused.
pub type NoMemory = AllocError;

/// Why bytes are not read as a message (or as an answer, or a call, if that is wanted).
#[derive(Clone, Copy, Debug, Error)]
pub enum TextFault {
    /// Fault 1: the bytes have the length of a body, and `serde_json` cannot read them. They are not a JSON
    /// text (RFC 8259), or one that it does not take, such as one nested over 127 deep.
    #[error("the body is not JSON")]
    NotJson,
    /// Fault 2: the length is outside 1 to 65,535 bytes, or the JSON has other members, kinds or values
    /// than a message has (or an answer, or a call, if that is wanted).
    #[error("the body is not a message")]
    NotMessage,
    /// Fault 3: a growth of memory was refused.
    #[error("out of memory")]
    NoMemory,
}

impl From<AllocError> for TextFault {
    ghost use Rattle.std.specs.Prelude.{◌≡◌};
    ghost use Rattle.rv_json.specs.declared.fault.TextFault.TheVariants.{NoMemory};

    ghost from_gives = { λ _ fault. fault ≡ NoMemory };

    fn from(_refused: AllocError) -> TextFault {
        TextFault::NoMemory
    }
}
