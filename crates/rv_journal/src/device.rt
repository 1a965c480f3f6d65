//! A file as the journal sees it: what a read returns, and what a crash may leave.
ghost use Rattle.std.specs.Prelude.{◌≡◌, ◌+◌, ◌<◌, ◌≤◌, ◌^◌, length, IfOk, OnOk};
ghost use Rattle.rv_journal.specs.declared.device.DeviceFault.TheVariants.{NoMemory};
ghost use Rattle.rv_journal.specs.Device.{Disk, HasCause, Holds, KeepsFile, Only, ReadsAt, WhereTold};
ghost use Rattle.rv_journal.specs.Device.{WritesFile};

use std::alloc::AllocError;

/// Why a call of a device failed.
#[derive(Clone, Copy, Debug, PartialEq, Eq)]
pub enum DeviceFault {
    /// Memory was refused.
    NoMemory,
    /// The device failed.
    Failed,
}

impl From<AllocError> for DeviceFault {
    ghost from_gives = { λ _ fault. fault ≡ NoMemory };

    fn from(_refused: AllocError) -> DeviceFault {
        DeviceFault::NoMemory
    }
}

/// A file on a disk.
pub trait Device {
    /// What contracts see of it.
    ghost disk: { Disk Self };

    /// Its bytes from this offset on, in the front of the room, as many as it says. It says 0 at the file's
    /// end, and where there is no room. What stands in the room after them is left open.
    fn read_at(&mut self, at: usize, room: &mut [u8]) -> Result<usize, DeviceFault>
        ensures bytes { IfOk result (λ count. WhereTold disk self.old
            (ReadsAt (disk.seen self.old) at count room.new)) }
        ensures within { IfOk result (λ count. count ≤ length room.new) }

        // A file ends below 2^63.
        ensures below { IfOk result (λ count. 0 < count → at + count < 2 ^ 63) }
        ensures kept { KeepsFile disk self.old self.new }
        ensures cause { HasCause disk self.old self.new result };

    /// Writes these bytes over what is there, and past the end. Until a sync, a crash may leave each byte old
    /// or new.
    fn write_at(&mut self, at: usize, bytes: &[u8]) -> Result<(), DeviceFault>
        requires within { WhereTold disk self.old (at ≤ length (disk.seen self.old)) }
        ensures written { OnOk result (WhereTold disk self.old
            (Holds (disk.seen self.old) at bytes.now (disk.seen self.new))) }
        ensures writes { WritesFile disk at bytes.now self.old self.new }
        ensures cause { HasCause disk self.old self.new result };

    /// Stores what was written: from then on a crash leaves what a read returns.
    fn sync(&mut self) -> Result<(), DeviceFault>
        ensures durable { OnOk result (WhereTold disk self.old
            (Only (disk.seen self.old) (disk.may_leave self.new))) }
        ensures kept { KeepsFile disk self.old self.new }
        ensures cause { HasCause disk self.old self.new result };
}
