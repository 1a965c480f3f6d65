//! Devices whose bytes last: once they took bytes, a crash leaves them.
ghost use Rattle.std.specs.Prelude.{◌≡◌, ◌≤◌, false, length, take, true, IfErr, IsErrOf, OnErr, OnOk};
ghost use Rattle.rv_frame.specs.Lasting.{LeavesHeld, LastingDevice, LeavesFront, TakesBytes};

use crate::sink::{Sink, WriteFault};
use std::io::Write;

/// A device whose bytes last. Once it failed it takes nothing more.
pub trait Lasting {
    /// What contracts see of it.
    ghost lasts: { LastingDevice Self };

    /// Takes all of these bytes, after those that it holds. Once it has returned, a crash leaves them; while
    /// it runs, what it held, and a front of them.
    ///
    /// `WriteFault` says how many of them it took, not all, or that it had failed before. It has then failed.
    fn store(&mut self, bytes: &[u8]) -> Result<(), WriteFault>
        ensures bytes { OnOk result (TakesBytes lasts self.old self.new bytes.now) }
        ensures sent { IfErr result (λ fault.
            TakesBytes lasts self.old self.new (take fault.sent bytes.now)) }
        ensures within { IfErr result (λ fault. fault.sent ≤ length bytes.now) }
        ensures ok { OnOk result ((lasts.failed self.old ≡ false) × (lasts.failed self.new ≡ false)) }
        ensures fault { OnErr result (lasts.failed self.new ≡ true) }
        ensures refused { lasts.failed self.old ≡ true → IsErrOf result (record { sent = 0 }) }
        ensures any_moment { LeavesFront lasts self.old bytes.now self.new }
        ensures durable { OnOk result (LeavesHeld lasts self.new) };
}

/// A sink over any writer. Of a crash it tells nothing: what its writer took lasts as long as that keeps it.
impl<W: Write> Lasting for Sink<W> {
    ghost use Rattle.rv_frame.specs.Lasting.{sink_lasts};

    ghost lasts = { sink_lasts W.contents };

    fn store(&mut self, bytes: &[u8]) -> Result<(), WriteFault> {
        self.write_all(bytes)
    }
}
