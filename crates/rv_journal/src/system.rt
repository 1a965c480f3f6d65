//! A file of the system as a device, which tells nothing of what it holds.
ghost use Rattle.std.specs.Prelude.{◌≡◌, ◌↔◌, ◌+◌, ◌<◌, ◌≤◌, Err, IsTrue, Ok, OnOk, false, length, true};
ghost use Rattle.std.specs.Prelude.{option_map};
ghost use Rattle.rv_journal.specs.Device.{HasCause, Holds, KeepsFile, Only, WhereTold, WritesFile};
ghost use Rattle.rv_journal.specs.System.{does_sync, has_fault, most_bytes, system_disk};
ghost use Rattle.rv_journal.specs.declared.device.DeviceFault.TheVariants.{Failed};

use crate::device::{Device, DeviceFault};
use std::fs::File;
use std::io;
use std::io::ErrorKind;
use std::os::unix::fs::FileExt;

// A file ends below this offset.
const MOST: usize = 1 << 63;

// The system's number for a file that would be too long, EFBIG.
const TOO_LONG: i32 = 27;

/// A file of the system, opened to be read and written, and not to be appended to: there each write would go
/// to its end. No write makes it longer than so many bytes: where the process has a limit of its files'
/// length, the system ends it at a write past that.
///
/// Contracts see whether it failed, and nothing of its bytes: that the system does as [`Device`] says is
/// taken on trust, as of a socket.
#[derive(Drop)]
pub struct SystemFile {
    file: File,
    most: u64,
    syncs: bool,
    fault: Option<io::Error>,
}

impl SystemFile {
    /// A device over this file, which may become `most` bytes long.
    pub fn new(file: File, most: u64) -> SystemFile
        ensures works { has_fault result ≡ false }
        ensures most { most_bytes result ≡ most }
        ensures syncs { does_sync result ≡ true }
    {
        SystemFile {
            file,
            most,
            syncs: true,
            fault: None,
        }
    }

    /// From now on a sync asks nothing of the system: what was written outlives the process, and a machine
    /// that dies may lose it.
    pub fn stop_syncing(&mut self)
        ensures stopped { does_sync self.new ≡ false }
        ensures fault { self.new.fault ≡ self.old.fault }
        ensures most { most_bytes self.new ≡ most_bytes self.old }
    {
        self.syncs = false;
    }

    /// Why its first call failed that did.
    pub fn fault(&self) -> Option<&io::Error>
        ensures { option_map (λ why. why.now) result ≡ self.now.fault }
    {
        self.fault.as_ref()
    }

    // Keeps why a call failed, if none did before.
    fn fail(&mut self, why: io::Error) -> DeviceFault
        ensures result { result ≡ Failed }
        ensures failed { has_fault self.new ≡ true }
    {
        if self.fault.is_none() {
            self.fault = Some(why);
        }
        DeviceFault::Failed
    }
}

// Whether so many bytes from this offset on end within a file of this length.
fn is_within(at: usize, count: usize, most: u64) -> bool
    ensures { IsTrue result ↔ (at + count ≤ most) }
{
    at as u64 <= most && count as u64 <= most - at as u64
}

impl Device for SystemFile {
    ghost disk = { system_disk };

    fn read_at(&mut self, at: usize, room: &mut [u8]) -> Result<usize, DeviceFault> {
        match self.file.read_at(room, at as u64) {
            Ok(count) if at < MOST && count < MOST - at => Ok(count),
            Ok(_) => Err(self.fail(io::Error::from(ErrorKind::FileTooLarge))),
            Err(why) => Err(self.fail(why)),
        }
    }

    /// Fails as the system does, by "file too large", where the file would be longer than it may.
    fn write_at(&mut self, at: usize, bytes: &[u8]) -> Result<(), DeviceFault>
        requires within { WhereTold system_disk self.old (at ≤ length (system_disk.seen self.old)) }
        ensures written { OnOk result (WhereTold system_disk self.old
            (Holds (system_disk.seen self.old) at bytes.now (system_disk.seen self.new))) }
        ensures writes { WritesFile system_disk at bytes.now self.old self.new }
        ensures cause { HasCause system_disk self.old self.new result }
        ensures bound { most_bytes self.old < at + length bytes.now → result ≡ Err Failed }
    {
        if !is_within(at, bytes.len(), self.most) {
            return Err(self.fail(io::Error::from_raw_os_error(TOO_LONG)));
        }
        match self.file.write_all_at(bytes, at as u64) {
            Ok(()) => Ok(()),
            Err(why) => Err(self.fail(why)),
        }
    }

    fn sync(&mut self) -> Result<(), DeviceFault>
        ensures durable { OnOk result (WhereTold system_disk self.old
            (Only (system_disk.seen self.old) (system_disk.may_leave self.new))) }
        ensures kept { KeepsFile system_disk self.old self.new }
        ensures cause { HasCause system_disk self.old self.new result }
        ensures stopped { does_sync self.old ≡ false → (result ≡ Ok tt) × (self.new ≡ self.old) }
    {
        if !self.syncs {
            return Ok(());
        }
        match self.file.sync_all() {
            Ok(()) => Ok(()),
            Err(why) => Err(self.fail(why)),
        }
    }
}
