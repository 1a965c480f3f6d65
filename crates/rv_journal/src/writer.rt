//! A journal as a writer: each write adds one piece, and returns once it is stored.
ghost use Rattle.std.specs.Io.{WritesAtMost};
ghost use Rattle.std.specs.Io.KnownBytes.{WriteAppends};
ghost use Rattle.std.specs.IoError.{error_kind};
ghost use Rattle.std.specs.Prelude.{◌≡◌, false, length, IfErr, IfOk, OnOk};
ghost use Rattle.rv_journal.specs.Device.{LeavesOnly, WhereTold};
ghost use Rattle.rv_journal.specs.Faults.{HasKindOfFault, fault_kind};
ghost use Rattle.rv_journal.specs.Journal.{Stores, journal_contents, journal_text};
ghost use Rattle.rv_journal.specs.Text.{HasFront};

use crate::device::{Device, DeviceFault};
use crate::fault::JournalFault;
use crate::journal::DiskJournal;
use std::io;
use std::io::{ErrorKind, Write};

impl From<JournalFault> for io::Error {
    ghost from_gives = { λ fault error. error_kind error ≡ fault_kind fault };

    fn from(fault: JournalFault) -> io::Error {
        let kind = match fault {
            JournalFault::NotText => ErrorKind::InvalidInput,
            JournalFault::Full => ErrorKind::FileTooLarge,
            JournalFault::Device(DeviceFault::NoMemory) => ErrorKind::OutOfMemory,
            JournalFault::Device(DeviceFault::Failed) => ErrorKind::Other,
            JournalFault::Failed => ErrorKind::Other,
        };
        io::Error::from(kind)
    }
}

/// A write takes all of its bytes, or none and fails as [`DiskJournal::append`] does.
impl<D: Device> Write for DiskJournal<D> {
    ghost contents = { λ journal. journal_contents D.disk journal };

    fn write(&mut self, bytes: &[u8]) -> io::Result<usize>
        ensures bound { WritesAtMost result bytes.now }
        ensures bytes { WriteAppends (journal_contents D.disk self.old) (journal_contents D.disk self.new)
            result bytes.now }
        ensures whole { IfOk result (λ count. count ≡ length bytes.now) }
        ensures stored { OnOk result (Stores D.disk bytes.now self.old self.new) }
        ensures kind { IfErr result (λ error. HasKindOfFault (error_kind error) self.new.failed) }
        ensures any_moment { self.old.failed ≡ false → WhereTold D.disk self.old.device
            (LeavesOnly D.disk self.old.device self.new.device
            (HasFront (journal_text D.disk self.old) bytes.now)) }
    {
        self.append(bytes)?;
        Ok(bytes.len())
    }

    fn flush(&mut self) -> io::Result<()> {
        Ok(())
    }
}
