//! The account of a server in a file of its own.
ghost use Rattle.std.specs.Prelude.{◌≡◌, ◌-◌, ◌≤◌, ◌↔◌, IsTrue};
ghost use Rattle.rv_store.specs.keeping.Kept.{file_of};

use crate::keeping::keeper::Keeper;
use crate::keeping::place::AccountPlace;
use os::errno;
use rv_frame::{Lasting, Sink, WriteFault};
use std::io;
use std::io::Write;

/// The account's file, which is locked as long as this lives. What it took is with the system, and not yet
/// stored: a machine that dies may lose it.
pub struct AccountFile<W> {
    file: Sink<W>,
    // How many bytes were written to it, and how many it may have.
    bytes: u64,
    most: u64,
    place: AccountPlace,
}

// Whoever owns one drops it in one step.
impl<W: Drop> Drop for AccountFile<W> {
    fn drop(self) {
        let AccountFile {
            file: _,
            bytes: _,
            most: _,
            place: _,
        } = self;
    }
}

impl<W> AccountFile<W> {
    // One to which so many bytes were written, of so many that it may have.
    pub(crate) fn new(file: Sink<W>, bytes: u64, most: u64, place: AccountPlace) -> AccountFile<W>
        ensures { file_of result ≡ file }
    {
        AccountFile {
            file,
            bytes,
            most,
            place,
        }
    }
}

// Whether this many more bytes may be written to a file that has some, and may have so many.
fn has_room(bytes: u64, most: u64, count: u64) -> bool
    ensures { IsTrue result ↔ (count ≤ most - bytes) }
{
    count <= most.saturating_sub(bytes)
}

/// What it took is in the file's writer.
impl<W: Write> Lasting for AccountFile<W> {
    ghost use Rattle.rv_store.specs.keeping.Kept.{file_lasts};

    ghost lasts = { file_lasts W.contents };

    fn store(&mut self, bytes: &[u8]) -> Result<(), WriteFault> {
        match self.file.store(bytes) {
            Ok(()) => {
                self.bytes = self.bytes.saturating_add(bytes.len() as u64);
                Ok(())
            }
            Err(why) => Err(why),
        }
    }
}

impl<W: Write> Keeper for AccountFile<W> {
    fn takes(&self, count: u64) -> bool {
        has_room(self.bytes, self.most, count)
    }

    fn bytes(&self) -> u64 {
        self.bytes
    }

    fn is_kept(&self, rt: &HostRuntime) -> bool {
        self.place.is_kept(rt, self.bytes)
    }

    fn name(&self) -> &str {
        self.place.name()
    }

    fn leave(&self, rt: &HostRuntime) {
        self.place.leave(rt);
    }

    // The system's error number still says why a write failed.
    fn cause(&self) -> io::Error {
        io::Error::from_raw_os_error(errno())
    }
}
