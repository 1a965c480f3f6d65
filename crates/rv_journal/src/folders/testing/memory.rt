//! A folder in memory that keeps its changes: a crash leaves its names as they stood after one of them.
ghost use Rattle.std.specs.Prelude.{◌≡◌, ◌++◌, ◌∷◌, ◌↔◌, [], ℕ, IfOk, OnErr, OnOk, Some, false};
ghost use Rattle.std.specs.Prelude.{option_map};
ghost use Rattle.std.specs.List.{Contains};
ghost use Rattle.rv_journal.specs.folders.Folder.{FileNames, SameNames, given_now, is_same_name};
ghost use Rattle.rv_journal.specs.folders.Memory.{IsMadeAs, MayMake, after_change, given_file};
ghost use Rattle.rv_journal.specs.folders.Memory.{memory_directory};
ghost use Rattle.rv_journal.specs.folders.Memory.{memory_names, name_given, names_after};
ghost use Rattle.rv_journal.specs.folders.Present.{HasAccount};
ghost use Rattle.rv_journal.specs.declared.folders.folder.FileName.{FileName};
ghost use Rattle.rv_journal.specs.declared.folders.folder.FileName.TheVariants.{Account};
ghost use Rattle.rv_journal.specs.Memory.{memory_disk};

use crate::DeviceFault;
use crate::folders::folder::{FileName, Folder};
use crate::testing::Memory;
use std::alloc::{AllocError, Global};
use std::marker::Model;

// A file by its number, and its moment when it was given a name.
#[derive(Clone, Copy, Drop)]
struct FileNumber {
    number: u64,
    since: usize,
}

#[derive(Clone, Copy, Drop)]
enum NameChange {
    Made(FileName, FileNumber),
    // from the first name to the second
    Renamed(FileName, FileName, FileNumber),
}

/// A folder in memory, for tests. It never fails but for want of memory.
///
/// It keeps each change of its names, so that contracts can say what a crash at any of its moments might have
/// left. A file that is opened again has what it had at first.
#[derive(Drop)]
pub struct MemoryFolder {
    kept: KeptNames,
}

// What its files had at first by their numbers, the changes of its names, and how many of these are stored.
#[derive(Drop)]
struct KeptNames {
    alloc: Global,
    contents: Vec<Vec<u8>>,
    changes: Vec<NameChange>,
    stored: usize,
}

impl Model for MemoryFolder {
    ghost use Rattle.rv_journal.specs.folders.Memory.{MemoryNames, memory_names};
    ghost use Rattle.std.specs.Prelude.{◌≤◌, length};

    ghost Value = { MemoryNames };

    ghost view = { λ f. memory_names f.kept };

    ghost invariant = { λ f. f.kept.stored ≤ length f.kept.changes.items };
}

impl MemoryFolder {
    /// A folder without a file.
    pub fn new(alloc: Global) -> MemoryFolder
        ensures none { memory_directory.seen result ≡ names_after [] }
        ensures stored { (names : FileNames) → memory_directory.may_leave result names
            → SameNames names (names_after []) }
    {
        MemoryFolder {
            kept: KeptNames {
                alloc,
                contents: Vec::new(alloc),
                changes: Vec::new(alloc),
                stored: 0,
            },
        }
    }

    /// Adds the file of an epoch's account, with these bytes. If it has one, that one stays.
    pub fn add_account(&mut self, epoch: u64, bytes: Vec<u8>) -> Result<(), AllocError>
        ensures added { OnOk result (HasAccount (memory_directory.seen self.new) epoch) }
        ensures others { (name : FileName) → is_same_name name (Account epoch) ≡ false
            → memory_directory.seen self.new name ≡ memory_directory.seen self.old name }
    {
        self.kept.make(FileName::Account(epoch), bytes)?;
        Ok(())
    }
}

impl NameChange {
    // The name that it gives.
    fn name(&self) -> FileName
        ensures { result ≡ name_given self.now }
    {
        match *self {
            NameChange::Made(name, _) => name,
            NameChange::Renamed(_, to, _) => to,
        }
    }

    // What a name stands for after it.
    fn after(&self, name: FileName, was: Option<FileNumber>) -> Option<FileNumber>
        ensures { option_map given_file result ≡ after_change self.now name (option_map given_file was) }
    {
        match *self {
            NameChange::Made(made, file) if name == made => was.or(Some(file)),
            NameChange::Made(_, _) => was,
            NameChange::Renamed(_, to, file) if name == to => Some(file),
            NameChange::Renamed(from, _, _) if name == from => None,
            NameChange::Renamed(_, _, _) => was,
        }
    }
}

// What a name stands for after these changes.
fn file_of(changes: &[NameChange], name: FileName) -> Option<FileNumber>
    ensures { option_map given_file result ≡ names_after changes.now name }
{
    let mut file = None;
    for change in changes {
        file = change.after(name, file);
    }
    file
}

// The epoch whose account a change gave a file, if it has one after all of these changes.
fn epoch_of(changes: &[NameChange], change: &NameChange) -> Option<u64>
    ensures some { (epoch : ℕ) → result ≡ Some epoch → HasAccount (names_after changes.now) epoch }
    ensures given { (epoch : ℕ) → name_given change.now ≡ Account epoch
        → HasAccount (names_after changes.now) epoch → result ≡ Some epoch }
{
    let name = change.name();
    match name {
        FileName::Account(epoch) if file_of(changes, name).is_some() => Some(epoch),
        _ => None,
    }
}

// The epochs whose accounts have a file after these changes.
fn epochs_in(alloc: Global, changes: &[NameChange]) -> Result<Vec<u64>, AllocError>
    ensures { IfOk result (λ epochs. (epoch : ℕ)
        → Contains epochs.items epoch ↔ HasAccount (names_after changes.now) epoch) }
{
    let mut epochs = Vec::new(alloc);
    for change in changes {
        if let Some(epoch) = epoch_of(changes, change) {
            epochs.push(epoch)?;
        }
    }
    Ok(epochs)
}

impl KeptNames {
    // Keeps a change. If memory is refused nothing changes.
    fn change(&mut self, change: NameChange) -> Result<(), AllocError>
        ensures kept { OnOk result (self.new.changes.items ≡ self.old.changes.items ++ change ∷ []) }
        ensures refused { OnErr result (self.new.changes.items ≡ self.old.changes.items) }
        ensures stored { self.new.stored ≡ self.old.stored }
    {
        self.changes.push(change)?;
        Ok(())
    }

    // What a file had at first.
    fn contents_of(&self, number: u64) -> Result<Vec<u8>, AllocError> {
        match self.contents.get(number as usize) {
            Some(bytes) => bytes.to_vec(self.alloc),
            None => Ok(Vec::new(self.alloc)),
        }
    }

    // The file of this name, or a new one with these bytes.
    fn make(&mut self, name: FileName, bytes: Vec<u8>) -> Result<Memory, AllocError>
        ensures named { IfOk result (λ file. IsMadeAs name (given_now memory_disk file)
            (memory_names self.old) (memory_names self.new)) }
        ensures changed { MayMake name (memory_names self.old) (memory_names self.new) }
    {
        if let Some(file) = file_of(&self.changes, name) {
            return Memory::new(self.alloc, file.number, self.contents_of(file.number)?);
        }
        let number = self.contents.len() as u64;
        let file = Memory::new(self.alloc, number, bytes.to_vec(self.alloc)?)?;
        self.contents.push(bytes)?;
        self.change(NameChange::Made(name, FileNumber { number, since: 0 }))?;
        Ok(file)
    }
}

impl Folder for MemoryFolder {
    type File = Memory;

    ghost directory = { memory_directory };

    fn epochs(&mut self, alloc: Global) -> Result<Vec<u64>, DeviceFault> {
        Ok(epochs_in(alloc, &self.kept.changes)?)
    }

    fn open_file(&mut self, name: FileName) -> Result<Memory, DeviceFault> {
        let none = Vec::new(self.kept.alloc);
        Ok(self.kept.make(name, none)?)
    }

    fn rename(&mut self, file: &Memory, from: FileName, to: FileName) -> Result<(), DeviceFault> {
        let file = FileNumber {
            number: file.number(),
            since: file.moment(),
        };
        Ok(self.kept.change(NameChange::Renamed(from, to, file))?)
    }

    fn sync(&mut self) -> Result<(), DeviceFault> {
        self.kept.stored = self.kept.changes.len();
        Ok(())
    }
}
