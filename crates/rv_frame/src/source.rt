//! A reader that remembers that a read failed.
ghost use Rattle.std.specs.Prelude.{◌≡◌, ◌<◌, true, false, length, IsErr, IfOk, OnOk, OnErr};
ghost use Rattle.std.specs.Io.{ReadsAtMost};
ghost use Rattle.std.specs.Io.KnownBytes.{ReadConsumes, IsAtEnd};
ghost use Rattle.rv_frame.specs.Source.{source_device, source_failed, source_remaining};

use std::io::Read;
use thiserror::Error;

/// A read of the device failed, at this call or at an earlier one: `Source::failed` is true from
/// then on. The call took nothing from the device.
#[derive(Clone, Copy, Debug, Error)]
#[error("a read of the device failed")]
pub struct ReadFault;

/// A reader over a device. Once a read failed it stays failed, and asks the device for nothing
/// more.
#[derive(Drop)]
pub struct Source<R> {
    device: R,
    failed: bool,
}

impl<R> Source<R> {
    /// A source over this reader, its device, with no failed read yet.
    pub fn new(reader: R) -> Source<R>
        ensures device { source_device result ≡ reader }
        ensures failed { source_failed result ≡ false }
    {
        Source {
            device: reader,
            failed: false,
        }
    }

    /// Whether a read failed.
    pub fn failed(&self) -> bool
        ensures { result ≡ source_failed self.now }
    {
        self.failed
    }
}

impl<R: Read> Source<R> {
    /// Reads the device's next bytes to the front of the buffer, and answers how many came: at
    /// least one, and 0 only at the end of the device, which is no fault.
    ///
    /// It makes exactly one read of the device, and none if the source has failed. An error of
    /// any kind is a fault, `Interrupted` too, and is not tried again.
    ///
    /// `ReadFault` says that this read failed or an earlier one did. The source has then failed,
    /// and every later call is a fault. After a failed read the buffer's content means nothing. A call
    /// on a source that had failed before leaves the buffer as it is.
    pub fn read(&mut self, buffer: &mut [u8]) -> Result<usize, ReadFault>
        requires room { 0 < length buffer.old }
        ensures count { ReadsAtMost result buffer.new }
        ensures bytes { ReadConsumes (source_remaining R.remaining self.old)
            (source_remaining R.remaining self.new) result buffer.new }
        ensures end { IfOk result (λ n. n ≡ 0 → IsAtEnd (source_remaining R.remaining self.old)) }

        // Bytes come only from a source that has not failed, and a fault only with a failure.
        ensures ok { OnOk result ((source_failed self.old ≡ false) × (source_failed self.new ≡ false)) }
        ensures fault { OnErr result (source_failed self.new ≡ true) }

        // A source that has failed takes nothing from its device.
        ensures refused { source_failed self.old ≡ true → IsErr result }
        ensures kept { source_failed self.old ≡ true → self.new ≡ self.old }
        ensures buffer_kept { source_failed self.old ≡ true → buffer.new ≡ buffer.old }
    {
        if self.failed {
            return Err(ReadFault);
        }
        match self.device.read(buffer) {
            Ok(count) => Ok(count),
            Err(_) => {
                self.failed = true;
                Err(ReadFault)
            }
        }
    }
}
