//! A writer that remembers that a write failed, and counts the bytes that went out.
ghost use Rattle.std.specs.Prelude.{◌≡◌, ◌<◌, ◌≤◌, true, false, take, length, IfErr, OnOk, OnErr, IsErrOf};
ghost use Rattle.std.specs.Prelude.{[]};
ghost use Rattle.rv_frame.specs.Sink.{SinkTakes, sink_device, sink_failed};

use std::io::Write;
use thiserror::Error;

/// A write or a flush of the device failed, at this call or at an earlier one: `Sink::failed` is true from
/// then on. Exactly the first `sent` bytes of the call went out; none at a flush.
#[derive(Clone, Copy, Debug, PartialEq, Eq, Error)]
#[error("a write to the device failed after {sent} bytes")]
pub struct WriteFault {
    /// How many bytes of the call went out: its first ones.
    pub sent: usize,
}

// The fault of a flush.
const NONE_SENT: WriteFault = WriteFault { sent: 0 };

/// A writer over a device. Once a write or a flush failed it stays failed, and gives the device nothing more.
#[derive(Drop)]
pub struct Sink<W> {
    device: W,
    failed: bool,
}

impl<W> Sink<W> {
    /// A sink over this writer, its device, with no failure yet.
    pub fn new(writer: W) -> Sink<W>
        ensures device { sink_device result ≡ writer }
        ensures failed { sink_failed result ≡ false }
    {
        Sink {
            device: writer,
            failed: false,
        }
    }

    /// Whether a write or a flush failed.
    pub fn failed(&self) -> bool
        ensures { result ≡ sink_failed self.now }
    {
        self.failed
    }
}

impl<W: Write> Sink<W> {
    /// Writes all the bytes, in as many writes as the device needs.
    ///
    /// A write error of any kind is a fault, `Interrupted` too, and so is a write that takes 0
    /// bytes. None is tried again. With no bytes to write the device is not asked.
    ///
    /// The device is not flushed. Standard output and sockets hold nothing back. Bytes that a device
    /// holds back, as a `BufWriter` does, count as taken, and go on by [`Sink::flush`].
    ///
    /// `WriteFault` says that a write of this call failed, after the device took exactly `sent`
    /// of the bytes and not all of them, or that the sink had failed before, and then `sent` is
    /// 0. The sink has then failed, and every later call is a fault that gives the device
    /// nothing.
    pub fn write_all(&mut self, bytes: &[u8]) -> Result<(), WriteFault>
        ensures bytes { OnOk result (SinkTakes W.contents self.old self.new bytes.now) }
        ensures sent { IfErr result (λ fault.
            SinkTakes W.contents self.old self.new (take fault.sent bytes.now)) }
        ensures short { sink_failed self.old ≡ false →
            IfErr result (λ fault. fault.sent < length bytes.now) }
        ensures within { IfErr result (λ fault. fault.sent ≤ length bytes.now) }

        // All goes out only of a sink that has not failed, and a fault comes only with a failure.
        ensures ok { OnOk result ((sink_failed self.old ≡ false) × (sink_failed self.new ≡ false)) }
        ensures fault { OnErr result (sink_failed self.new ≡ true) }

        // A sink that has failed gives its device nothing.
        ensures refused { sink_failed self.old ≡ true → IsErrOf result (record { sent = 0 }) }
        ensures kept { sink_failed self.old ≡ true → self.new ≡ self.old }
    {
        if self.failed {
            return Err(WriteFault { sent: 0 });
        }
        let mut sent = 0;
        while sent < bytes.len() {
            match self.device.write(&bytes[sent..]) {
                Ok(0) | Err(_) => {
                    self.failed = true;
                    return Err(WriteFault { sent });
                }
                Ok(count) => sent += count,
            }
        }
        Ok(())
    }

    /// Flushes the device, once, so that the bytes that it holds back go on. No byte that it took is lost,
    /// and none is added.
    ///
    /// `WriteFault` says that this flush failed, for an error of any kind, or that the sink had failed
    /// before; `sent` is 0. The sink has then failed.
    pub fn flush(&mut self) -> Result<(), WriteFault>
        ensures bytes { SinkTakes W.contents self.old self.new [] }
        ensures none { IfErr result (λ fault. fault.sent ≡ 0) }
        ensures ok { OnOk result ((sink_failed self.old ≡ false) × (sink_failed self.new ≡ false)) }
        ensures fault { OnErr result (sink_failed self.new ≡ true) }
        ensures refused { sink_failed self.old ≡ true → IsErrOf result (record { sent = 0 }) }
        ensures kept { sink_failed self.old ≡ true → self.new ≡ self.old }
    {
        let Sink { device, failed } = self;
        if *failed {
            return Err(NONE_SENT);
        }
        match device.flush() {
            Ok(()) => Ok(()),
            Err(_) => {
                *failed = true;
                Err(NONE_SENT)
            }
        }
    }

    /// The device, as the last call left it.
    pub fn into_inner(self) -> W
        ensures { result ≡ sink_device self }
    {
        let Sink { device, failed: _ } = self;
        device
    }
}
