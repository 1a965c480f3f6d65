//! The machine's boots: whether a store that was written without syncs has all that was written.
ghost use Rattle.std.specs.Prelude.{◌≡◌, ◌↔◌, IfOk, IfSome, IsTrue, Some, option_map, string_bytes};
ghost use Rattle.rv_store.specs.keeping.Boots.{MayGoOnIn, boot_line, known_boots};

use crate::keeping::fault::{KeepFault, refused};
use std::alloc::{AllocError, Global};
use std::fs::{self, File};
use std::io;
use std::io::{ErrorKind, Read, Write};

// Where the system tells in which boot the machine is.
const CURRENT: &str = "/proc/sys/kernel/random/boot_id";

// So many bytes of a note are read.
const LONGEST: u64 = 4_096;

/// The boot in which the present account of a store was written without syncs, if it was, as a file of the
/// store notes it, and the one in which the machine is, if that is known: a line each. A note of an unknown
/// boot is an empty text.
#[derive(Drop)]
pub(crate) struct Boots {
    noted: Option<String>,
    current: Option<String>,
}

impl Boots {
    /// Those of the store in this folder. The machine's boot is the one that is named, or what the system
    /// tells.
    pub(crate) fn read(
        rt: &HostRuntime,
        folder: &str,
        boot: Option<&str>,
    ) -> Result<Boots, KeepFault>
        ensures named { IfOk result (λ boots. IfSome boot.entry (λ text.
            (known_boots boots).current ≡ Some (boot_line text.now))) }
    {
        Ok(Boots {
            noted: noted(rt, folder)?,
            current: current(rt, boot)?,
        })
    }

    /// Whether the present account has all that was written, and a later start can tell the same of what is
    /// written now.
    pub(crate) fn lets_go_on(&self, syncs: bool) -> bool
        ensures { IsTrue result ↔ MayGoOnIn syncs (known_boots self.now) }
    {
        match (&self.noted, &self.current) {
            (None, None) => syncs,
            (None, Some(_)) => true,
            (Some(noted), Some(current)) => noted.as_str() == current.as_str(),
            (Some(_), None) => false,
        }
    }

    /// Why it doesn't, if so.
    pub(crate) fn why_new(&self, lets_go_on: bool) -> Option<&'static str> {
        match self.current {
            _ if lets_go_on => None,
            Some(_) => Some("the one before was not synced, and the machine was booted since"),
            None => Some("the machine's boot isn't known, and what was not synced may be lost"),
        }
    }

    /// Notes in this folder, for a later start, that the present account isn't synced in this boot, or that
    /// all of it is. The folder was synced since the boots were read.
    pub(crate) fn note(
        &self,
        rt: &HostRuntime,
        folder: &str,
        syncs: bool,
    ) -> Result<(), KeepFault> {
        if syncs && self.noted.is_none() {
            return Ok(());
        }
        let name = note_path(rt.alloc(), folder)?;
        let changed = if syncs {
            fs::remove_file(rt, name.as_str())
        } else {
            self.write(rt, folder, &name)
        };
        match changed.and_then(|()| File::open(rt, folder)?.sync_all()) {
            Ok(()) => Ok(()),
            Err(why) => Err(refused(rt.alloc(), &name, why)),
        }
    }

    // Writes the note under another name, and gives it its own once all of it is stored.
    fn write(&self, rt: &HostRuntime, folder: &str, name: &str) -> io::Result<()> {
        let unready = format!(in rt.alloc(); "{folder}/boot.unready")?;
        let mut file = File::create(rt, unready.as_str())?;
        if let Some(current) = &self.current {
            file.write_all(current.as_bytes())?;
        }
        file.sync_all()?;
        fs::rename(rt, unready.as_str(), name)
    }
}

// Where a store's note of a boot lies.
fn note_path(alloc: Global, folder: &str) -> Result<String, AllocError> {
    format!(in alloc; "{folder}/boot")
}

// The front of a text file.
fn front_of(rt: &HostRuntime, name: &str) -> io::Result<String> {
    io::read_to_string(rt.alloc(), File::open(rt, name)?.take(LONGEST))
}

// What the note of a store says, if there is one.
fn noted(rt: &HostRuntime, folder: &str) -> Result<Option<String>, KeepFault> {
    let name = note_path(rt.alloc(), folder)?;
    match front_of(rt, &name) {
        Ok(text) => Ok(Some(text)),
        Err(why) if why.kind() == ErrorKind::NotFound => Ok(None),
        Err(why) => Err(refused(rt.alloc(), &name, why)),
    }
}

// The machine's boot, as it is named, or as the system tells it.
fn current(rt: &HostRuntime, boot: Option<&str>) -> Result<Option<String>, AllocError>
    ensures { IfOk result (λ current. IfSome boot.entry (λ text.
        option_map string_bytes current ≡ Some (boot_line text.now))) }
{
    match boot {
        Some(boot) => {
            let line = format!(in rt.alloc(); "{boot}\n")?;
            Ok(Some(line))
        }
        None => Ok(front_of(rt, CURRENT).ok().filter(|text| !text.is_empty())),
    }
}
