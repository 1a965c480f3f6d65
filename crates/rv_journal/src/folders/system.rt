//! A folder of the system, which one server at a time has.
ghost use Rattle.std.specs.Prelude.{◌≡◌, IfOk, IfSome, IsErrOf, false, option_map, string_bytes, true};
ghost use Rattle.rv_journal.specs.folders.System.{IsAccountPath, IsGreatestOf, IsGreatestPath, name_text};
ghost use Rattle.rv_journal.specs.folders.System.{folder_path, has_folder_fault, most_in, path_in};
ghost use Rattle.rv_journal.specs.folders.System.{system_directory};
ghost use Rattle.rv_journal.specs.declared.folders.folder.FileName.TheVariants.{Account};
ghost use Rattle.rv_journal.specs.declared.device.DeviceFault.TheVariants.{Failed};

use crate::folders::folder::{FileName, Folder};
use crate::{DeviceFault, SystemFile};
use std::alloc::{AllocError, Global};
use std::fs::{self, DirBuilder, File, OpenOptions, TryLockError};
use std::io;
use std::io::ErrorKind;
use std::os::unix::fs::DirBuilderExt;

// Who may use a folder that is made: its owner alone.
const FOLDER_MODE: u32 = 0o700;

/// Why a folder of the system wasn't opened. Nothing in it changed, but that its lock's file was made.
#[derive(Drop)]
pub enum SystemFolderFault {
    /// Another server has it.
    Locked,
    /// The system refused, or memory was refused.
    Io(io::Error),
}

impl From<io::Error> for SystemFolderFault {
    fn from(why: io::Error) -> SystemFolderFault {
        SystemFolderFault::Io(why)
    }
}

impl From<AllocError> for SystemFolderFault {
    fn from(refused: AllocError) -> SystemFolderFault {
        SystemFolderFault::Io(io::Error::from(refused))
    }
}

/// A folder of the system. As long as it lives no other one is opened of the same folder, on this machine: a
/// file of it is locked. Other names than a store's are passed over.
///
/// Contracts see whether it failed, and nothing of its names: that the system does as [`Folder`] says is
/// taken on trust, as of a file.
#[derive(Drop)]
pub struct SystemFolder<'a> {
    rt: &'a HostRuntime,
    path: String,
    most: u64,
    lock: File,
    fault: Option<io::Error>,
}

impl<'a> SystemFolder<'a> {
    /// Opens a folder, and locks it. Where its parent is there and it isn't, it is made, for the owner of the
    /// process alone. No file of it becomes longer than `most` bytes.
    pub fn open(
        rt: &'a HostRuntime,
        path: &str,
        most: u64,
    ) -> Result<SystemFolder<'a>, SystemFolderFault>
        ensures works { IfOk result (λ folder. has_folder_fault folder ≡ false) }
        ensures path { IfOk result (λ folder. folder_path folder ≡ path.now) }
        ensures most { IfOk result (λ folder. most_in folder ≡ most) }
    {
        make_folder(rt, path)?;
        let lock = locked(rt, path)?;
        Ok(SystemFolder {
            rt,
            path: String::from_str(rt.alloc(), path)?,
            most,
            lock,
            fault: None,
        })
    }

    /// The path of the file that holds the account of an epoch, if it is there. Fails only if memory was
    /// refused.
    pub fn account_path(&self, alloc: Global, epoch: u64) -> Result<String, AllocError>
        ensures { IfOk result (λ path. string_bytes path ≡ path_in (folder_path self.now) (Account epoch)) }
    {
        path_of(alloc, &self.path, FileName::Account(epoch))
    }

    /// Why its first call failed that did.
    pub fn fault(&self) -> Option<&io::Error>
        ensures { option_map (λ why. why.now) result ≡ self.now.fault }
    {
        self.fault.as_ref()
    }

    // What a call gave, or why it failed, which is kept if none failed before.
    fn kept<T: Drop>(&mut self, given: io::Result<T>) -> Result<T, DeviceFault>
        ensures failed { IsErrOf result Failed → has_folder_fault self.new ≡ true }
        ensures lasts { has_folder_fault self.old ≡ true → has_folder_fault self.new ≡ true }
    {
        match given {
            Ok(value) => Ok(value),
            Err(why) => {
                if self.fault.is_none() {
                    self.fault = Some(why);
                }
                Err(DeviceFault::Failed)
            }
        }
    }
}

/// The path of the present account's file in a folder: that of the greatest epoch whose account has one, if
/// there is one. The folder is listed, and nothing more: no lock is taken, so a server may have it, and
/// nothing is made. Fails if the system refuses to list it, or memory was refused.
pub fn present_account(rt: &HostRuntime, path: &str) -> io::Result<Option<String>>
    ensures { IfOk result (λ found. IfSome found (λ text. IsAccountPath path.now (string_bytes text))) }
{
    let epochs = listed(rt, rt.alloc(), path)?;
    Ok(greatest_path(rt.alloc(), path, &epochs)?)
}

// Makes a folder, if it isn't there, and stores its name in its parent: also where it is there, since a start
// that made it may have been killed before that. A parent that can't be opened is no fault then.
fn make_folder(rt: &HostRuntime, path: &str) -> io::Result<()> {
    let made = DirBuilder::new().mode(FOLDER_MODE).create(rt, path);
    let stored = store_name(rt, path);
    match made {
        Err(why) if why.kind() == ErrorKind::AlreadyExists => Ok(()),
        Err(why) => Err(why),
        Ok(()) => stored,
    }
}

// Stores the name of a folder in its parent.
fn store_name(rt: &HostRuntime, path: &str) -> io::Result<()> {
    let parent = format!(in rt.alloc(); "{path}/..")?;
    File::open(rt, parent.as_str()).and_then(|folder| folder.sync_all())
}

// The lock of a folder: whoever holds it has the folder.
fn locked(rt: &HostRuntime, folder: &str) -> Result<File, SystemFolderFault> {
    let path = format!(in rt.alloc(); "{folder}/lock")?;
    let file = OpenOptions::new()
        .write(true)
        .create(true)
        .open(rt, path.as_str())?;
    match file.try_lock() {
        Ok(()) => Ok(file),
        Err(TryLockError::WouldBlock) => Err(SystemFolderFault::Locked),
        Err(TryLockError::Error(why)) => Err(SystemFolderFault::Io(why)),
    }
}

// Where a file of a folder lies.
fn path_of(alloc: Global, folder: &str, name: FileName) -> Result<String, AllocError>
    ensures { IfOk result (λ path. string_bytes path ≡ path_in folder.now name) }
{
    match name {
        FileName::Account(epoch) => format!(in alloc; "{folder}/epoch-{epoch}.account"),
        FileName::Unready => format!(in alloc; "{folder}/unready.account"),
    }
}

// The epoch whose account a file of this name holds, if its name is one that a store gives.
fn epoch_of(alloc: Global, name: &str) -> Result<Option<u64>, AllocError>
    ensures { IfOk result (λ found. IfSome found (λ epoch. name_text (Account epoch) ≡ name.now)) }
{
    let digits = name
        .strip_prefix("epoch-")
        .and_then(|rest| rest.strip_suffix(".account"));
    let Some(Ok(epoch)) = digits.map(|digits| digits.parse::<u64>()) else {
        return Ok(None);
    };
    let given = format!(in alloc; "epoch-{epoch}.account")?;
    if given.as_str() == name {
        Ok(Some(epoch))
    } else {
        Ok(None)
    }
}

// The epochs whose accounts have a file.
fn listed(rt: &HostRuntime, alloc: Global, path: &str) -> io::Result<Vec<u64>> {
    let mut epochs = Vec::new(alloc);
    for entry in fs::read_dir(rt, path)? {
        if let Some(epoch) = epoch_of(alloc, entry?.file_name())? {
            epochs.push(epoch)?;
        }
    }
    Ok(epochs)
}

// The greatest of these epochs.
fn greatest(epochs: &[u64]) -> Option<u64>
    ensures { IsGreatestOf epochs.now result }
{
    epochs.iter().copied().max()
}

// Where the account of the greatest of these epochs lies.
fn greatest_path(alloc: Global, folder: &str, epochs: &[u64]) -> Result<Option<String>, AllocError>
    ensures { IfOk result (λ found. IsGreatestPath folder.now epochs.now (option_map string_bytes found)) }
{
    match greatest(epochs) {
        None => Ok(None),
        Some(epoch) => {
            let path = path_of(alloc, folder, FileName::Account(epoch))?;
            Ok(Some(path))
        }
    }
}

// The file of this path, which is made where there is none, and may become `most` bytes long.
fn opened(rt: &HostRuntime, path: &str, most: u64) -> io::Result<SystemFile> {
    let file = OpenOptions::new()
        .read(true)
        .write(true)
        .create(true)
        .open(rt, path)?;
    Ok(SystemFile::new(file, most))
}

impl<'a> Folder for SystemFolder<'a> {
    type File = SystemFile;

    ghost directory = { system_directory };

    fn epochs(&mut self, alloc: Global) -> Result<Vec<u64>, DeviceFault> {
        let epochs = listed(self.rt, alloc, &self.path);
        self.kept(epochs)
    }

    fn open_file(&mut self, name: FileName) -> Result<SystemFile, DeviceFault> {
        let path = path_of(self.rt.alloc(), &self.path, name)?;
        let file = opened(self.rt, &path, self.most);
        self.kept(file)
    }

    fn rename(
        &mut self,
        _file: &SystemFile,
        from: FileName,
        to: FileName,
    ) -> Result<(), DeviceFault> {
        let old = path_of(self.rt.alloc(), &self.path, from)?;
        let new = path_of(self.rt.alloc(), &self.path, to)?;
        let done = fs::rename(self.rt, old.as_str(), new.as_str());
        self.kept(done)
    }

    fn sync(&mut self) -> Result<(), DeviceFault> {
        let done = File::open(self.rt, self.path.as_str()).and_then(|folder| folder.sync_all());
        self.kept(done)
    }
}
