//! The account of a server in a store.
ghost use Rattle.std.specs.Prelude.{◌≡◌};
ghost use Rattle.rv_store.specs.keeping.Kept.{journal_in, store_lasts};

use crate::AccountJournal;
use crate::keeping::keeper::Keeper;
use crate::keeping::place::is_there;
use rv_frame::{Lasting, WriteFault};
use rv_journal::SystemFile;
use rv_journal::folders::SystemFolder;
use std::fs::File;
use std::io;
use std::io::ErrorKind;

/// The journal of a store, as a server keeps it, and its folder, which is locked as long as this lives.
#[derive(Drop)]
pub struct StoreAccount<'a> {
    journal: AccountJournal<SystemFile>,
    folder: SystemFolder<'a>,
    // The journal's file by its name, to be looked at.
    name: String,
    file: File,
    // How many bytes of text it has.
    bytes: u64,
}

impl<'a> StoreAccount<'a> {
    // One over this journal.
    pub(crate) fn new(
        journal: AccountJournal<SystemFile>,
        folder: SystemFolder<'a>,
        name: String,
        file: File,
    ) -> StoreAccount<'a>
        ensures { journal_in result ≡ journal }
    {
        let bytes = journal.length() as u64;
        StoreAccount {
            journal,
            folder,
            name,
            file,
            bytes,
        }
    }
}

// The same error again.
pub(crate) fn again(error: &io::Error) -> io::Error {
    match error.raw_os_error() {
        Some(code) => io::Error::from_raw_os_error(code),
        None => io::Error::from(error.kind()),
    }
}

/// What it took is stored, where the store syncs.
impl Lasting for StoreAccount<'_> {
    ghost lasts = { store_lasts };

    fn store(&mut self, bytes: &[u8]) -> Result<(), WriteFault> {
        match self.journal.store(bytes) {
            Ok(()) => {
                self.bytes = self.bytes.saturating_add(bytes.len() as u64);
                Ok(())
            }
            Err(why) => Err(why),
        }
    }
}

impl Keeper for StoreAccount<'_> {
    // Its file has a bound of its own.
    fn takes(&self, _count: u64) -> bool {
        true
    }

    fn bytes(&self) -> u64 {
        self.bytes
    }

    fn is_kept(&self, rt: &HostRuntime) -> bool {
        is_there(rt, &self.file, &self.name)
    }

    fn name(&self) -> &str {
        &self.name
    }

    fn leave(&self, _rt: &HostRuntime) {}

    fn cause(&self) -> io::Error {
        match self.journal.device().fault() {
            Some(error) => again(error),
            None => io::Error::from(ErrorKind::OutOfMemory),
        }
    }
}
