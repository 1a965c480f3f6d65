//! A device that fails for good after some calls, as one does that is frozen.
ghost use Rattle.std.specs.Prelude.{◌≡◌, ◌-◌, ◌<◌, ◌↔◌, IsTrue, true, false};
ghost use Rattle.rv_journal.specs.Failing.{calls_left, device_beneath, failing_disk, is_frozen};

use crate::device::{Device, DeviceFault};

/// A device over another, for tests: after so many calls each call fails, and does nothing.
#[derive(Drop)]
pub struct FailingDevice<D> {
    device: D,
    fuse: Fuse,
}

// How many calls are still made, and whether none is any more.
#[derive(Drop)]
struct Fuse {
    calls: usize,
    frozen: bool,
}

impl<D> FailingDevice<D> {
    /// A device that works for so many calls.
    pub fn new(device: D, calls: usize) -> FailingDevice<D>
        ensures device { device_beneath result ≡ device }
        ensures calls { calls_left result ≡ calls }
        ensures works { is_frozen result ≡ false }
    {
        let fuse = Fuse {
            calls,
            frozen: false,
        };
        FailingDevice { device, fuse }
    }

    /// The device beneath, as the last call left it, and how many calls were not made yet.
    pub fn into_inner(self) -> (D, usize)
        ensures device { result.0 ≡ device_beneath self }
        ensures calls { result.1 ≡ calls_left self }
    {
        let FailingDevice { device, fuse } = self;
        (device, fuse.calls)
    }
}

impl Fuse {
    // Counts a call, and says whether it is made.
    fn is_made(&mut self) -> bool
        ensures made { IsTrue result ↔ ((self.old.frozen ≡ false) × (0 < self.old.calls)) }
        ensures calls { self.new.calls ≡ self.old.calls - 1 }
        ensures frozen { result ≡ false → self.new.frozen ≡ true }
        ensures lasts { self.old.frozen ≡ true → self.new.frozen ≡ true }
    {
        if self.calls == 0 {
            self.frozen = true;
        } else {
            self.calls -= 1;
        }
        !self.frozen
    }
}

impl<D: Device> Device for FailingDevice<D> {
    ghost disk = { failing_disk D.disk };

    fn read_at(&mut self, at: usize, room: &mut [u8]) -> Result<usize, DeviceFault> {
        if !self.fuse.is_made() {
            return Err(DeviceFault::Failed);
        }
        self.device.read_at(at, room)
    }

    fn write_at(&mut self, at: usize, bytes: &[u8]) -> Result<(), DeviceFault> {
        if !self.fuse.is_made() {
            return Err(DeviceFault::Failed);
        }
        self.device.write_at(at, bytes)
    }

    fn sync(&mut self) -> Result<(), DeviceFault> {
        if !self.fuse.is_made() {
            return Err(DeviceFault::Failed);
        }
        self.device.sync()
    }
}
