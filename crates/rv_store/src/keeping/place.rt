//! The account's file under its name: how it is opened, checked, and left if a start fails.
ghost use Rattle.std.specs.Prelude.{◌↔◌, IsTrue};
ghost use Rattle.rv_store.specs.keeping.Files.{IsInPlace, IsUnderName};

use os::{RangeLock, errno, try_lock_range};
use std::fs::{File, Metadata, OpenOptions};
use std::os::fd::AsRawFd;
use std::os::unix::fs::MetadataExt;
use std::{fs, io};

// The system's numbers of errors: a lock is held, and a file is there already.
const EAGAIN: i32 = 11;

const EEXIST: i32 = 17;

/// What a look at a file shows: its device, its number there, and its length.
#[derive(Clone, Copy)]
pub(crate) struct FileSeen {
    device: u64,
    inode: u64,
    length: u64,
}

/// An account's file, open, under its name.
#[derive(Drop)]
pub(crate) struct AccountPlace {
    name: String,
    file: File,
    // Whether an empty file was there.
    was_there: bool,
}

/// An account's file to write to, and its place.
#[derive(Drop)]
pub(crate) struct OpenAccount {
    pub(crate) file: File,
    pub(crate) place: AccountPlace,
}

// What a look at a file shows, by what the system reports.
fn seen_of(told: &Metadata) -> FileSeen {
    FileSeen {
        device: told.dev(),
        inode: told.ino(),
        length: told.len(),
    }
}

// Whether a file is the one under its name, and as long as what was written to it.
fn is_in_place(own: FileSeen, named: Option<FileSeen>, written: u64) -> bool
    ensures { IsTrue result ↔ IsInPlace own named written }
{
    match named {
        Some(seen) => {
            seen.device == own.device
                && seen.inode == own.inode
                && seen.length == own.length
                && own.length == written
        }
        None => false,
    }
}

// Whether a file is the one under its name.
fn is_under_name(own: FileSeen, named: Option<FileSeen>) -> bool
    ensures { IsTrue result ↔ IsUnderName own named }
{
    match named {
        Some(seen) => seen.device == own.device && seen.inode == own.inode,
        None => false,
    }
}

// What a look at a file and at its name shows, if the file can be looked at.
fn look(rt: &HostRuntime, file: &File, name: &str) -> Option<(FileSeen, Option<FileSeen>)> {
    let own = file.metadata().ok()?;
    let named = match fs::metadata(rt, name) {
        Ok(told) => Some(seen_of(&told)),
        Err(_) => None,
    };
    Some((seen_of(&own), named))
}

/// Whether a file is the one under its name.
pub(crate) fn is_there(rt: &HostRuntime, file: &File, name: &str) -> bool {
    match look(rt, file, name) {
        Some((own, named)) => is_under_name(own, named),
        None => false,
    }
}

// Whether an empty file is there.
fn is_empty_file(rt: &HostRuntime, name: &str) -> bool {
    match fs::metadata(rt, name) {
        Ok(told) => told.is_file() && told.len() == 0,
        Err(_) => false,
    }
}

impl AccountPlace {
    /// Opens a new file, or an empty one that is there. No other server may take it then. What is written
    /// goes to its end.
    pub(crate) fn open(rt: &HostRuntime, name: String) -> io::Result<OpenAccount> {
        let was_there = is_empty_file(rt, name.as_str());
        let file = OpenOptions::new()
            .append(true)
            .create_new(!was_there)
            .open(rt, name.as_str())?;
        let place = AccountPlace {
            name,
            file,
            was_there,
        };
        place.claim()?;
        match place.file.try_clone() {
            Ok(file) => Ok(OpenAccount { file, place }),
            Err(error) => {
                place.leave(rt);
                Err(error)
            }
        }
    }

    // No other server has taken it, nor can it from now on. If the system has no locks, it goes on without.
    fn claim(&self) -> io::Result<()> {
        let locked = try_lock_range(self.file.as_raw_fd(), RangeLock::Exclusive, 0, 1);
        if (locked != 0 && errno() == EAGAIN) || self.file.metadata()?.len() > 0 {
            return Err(io::Error::from_raw_os_error(EEXIST));
        }
        Ok(())
    }

    /// Its name.
    pub(crate) fn name(&self) -> &str {
        &self.name
    }

    /// A start failed: puts the file back as it was before.
    pub(crate) fn leave(&self, rt: &HostRuntime) {
        let _ = if self.was_there {
            self.file.set_len(0)
        } else {
            fs::remove_file(rt, self.name.as_str())
        };
    }

    /// Whether the file is the one under its name, and as long as what was written to it.
    pub(crate) fn is_kept(&self, rt: &HostRuntime, written: u64) -> bool {
        match look(rt, &self.file, self.name.as_str()) {
            Some((own, named)) => is_in_place(own, named, written),
            None => false,
        }
    }
}
