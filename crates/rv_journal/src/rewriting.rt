//! Writes bytes to a device and stores them.
ghost use Rattle.std.specs.Prelude.{◌≤◌, length, OnOk};
ghost use Rattle.rv_journal.specs.Device.{HasCause, IsRewritten, Rewrites, WhereTold};

use crate::device::{Device, DeviceFault};

// Writes these bytes from this offset on, and syncs.
pub(crate) fn rewrite<D: Device>(device: &mut D, at: usize, bytes: &[u8]) -> Result<(), DeviceFault>
    requires within { WhereTold D.disk device.old (at ≤ length (D.disk.seen device.old)) }
    ensures stored { OnOk result (WhereTold D.disk device.old
        (IsRewritten D.disk at bytes.now device.old device.new)) }
    ensures rewrites { Rewrites D.disk at bytes.now device.old device.new }
    ensures cause { HasCause D.disk device.old device.new result }
{
    device.write_at(at, bytes)?;
    device.sync()
}
