//! Why a journal refuses a piece, or a file.
ghost use Rattle.std.specs.Prelude.{◌≡◌};
ghost use Rattle.rv_journal.specs.declared.device.DeviceFault.TheVariants.{NoMemory};
ghost use Rattle.rv_journal.specs.declared.fault.OpenFault.TheVariants as OfOpen;

use crate::device::DeviceFault;
use std::alloc::AllocError;
use thiserror::Error;

/// Why a journal did not take a piece.
#[derive(Clone, Copy, Debug, PartialEq, Eq, Error)]
pub enum JournalFault {
    /// The piece has a zero byte, which no text has. Nothing changed.
    #[error("a piece with a zero byte is no text")]
    NotText,
    /// The file would have more than 2^50 bytes. The text is as it was, and shorter pieces may still be
    /// added.
    #[error("the journal has no room for the piece")]
    Full,
    /// The device failed, or was refused memory. The journal takes nothing more.
    #[error("the journal's device failed")]
    Device(DeviceFault),
    /// An earlier call found that the device had failed. Nothing was done.
    #[error("the journal's device failed before")]
    Failed,
}

/// Why a file was not opened as a journal.
#[derive(Clone, Copy, Debug, PartialEq, Eq, Error)]
pub enum OpenFault<F> {
    /// No zero stands in the file: it is empty, or no journal. Nothing changed.
    #[error("no zero stands in the file: it is no journal")]
    NotFilled,
    /// The device failed, or memory was refused. The file has the lines that it had.
    #[error("the journal's device failed")]
    Device(DeviceFault),
    /// Its lines were refused, for this reason. Nothing changed.
    #[error("the journal's lines were refused")]
    Refused(F),
}

impl<F> From<DeviceFault> for OpenFault<F> {
    ghost from_gives = { λ fault told. told ≡ OfOpen.Device fault };

    fn from(fault: DeviceFault) -> OpenFault<F> {
        OpenFault::Device(fault)
    }
}

impl<F> From<AllocError> for OpenFault<F> {
    ghost from_gives = { λ _ told. told ≡ OfOpen.Device NoMemory };

    fn from(refused: AllocError) -> OpenFault<F> {
        OpenFault::from(DeviceFault::from(refused))
    }
}

/// Why a device was not made a journal.
#[derive(Clone, Copy, Debug, PartialEq, Eq, Error)]
pub enum CreateFault {
    /// The first piece has a zero byte, which no text has. Nothing changed.
    #[error("a piece with a zero byte is no text")]
    NotText,
    /// The file has more than 1 MiB, so it is no leftover. Nothing changed.
    #[error("the file is too long to be made a journal")]
    TooLong,
    /// The file would have more than 2^50 bytes. It stands for a front of the first piece.
    #[error("the journal has no room for the piece")]
    Full,
    /// The device failed, or memory was refused. What the file had may be lost.
    #[error("the journal's device failed")]
    Device(DeviceFault),
}
