//! A folder as a store sees it: names, and the file that each of them stands for.
ghost use Rattle.std.specs.Prelude.{◌≡◌, ◌↔◌, ℕ, IfOk, IsTrue, OnOk, Some, is_some};
ghost use Rattle.std.specs.List.{Contains};
ghost use Rattle.rv_journal.specs.folders.Folder.{ChangesNames, Directory, GivenFile, HasCauseIn, KeepsNames};
ghost use Rattle.rv_journal.specs.folders.Folder.{FileNames};
ghost use Rattle.rv_journal.specs.folders.Folder.{SameNames, WhereNamed, given_now, name_made, renamed};
ghost use Rattle.rv_journal.specs.declared.folders.folder.FileName.TheVariants.{Account};

use crate::{Device, DeviceFault};
use std::alloc::Global;

/// The name of a file.
#[derive(Clone, Copy, Debug, PartialEq, Eq)]
pub enum FileName {
    /// That of the account of this epoch.
    Account(u64),
    /// That of a file which is being made. No one looks into it.
    Unready,
}

/// A folder of files. After a crash each name stands for what it did before or after a call, until a sync.
pub trait Folder {
    /// A file of it.
    type File: Device + Drop;

    /// What contracts see of it.
    ghost directory: { Directory Self };

    /// The epochs whose accounts have a file, in any order.
    fn epochs(&mut self, alloc: Global) -> Result<Vec<u64>, DeviceFault>
        ensures epochs { IfOk result (λ epochs. WhereNamed directory self.old ((epoch : ℕ) →
            Contains epochs.items epoch ↔ IsTrue (is_some (directory.seen self.old (Account epoch))))) }
        ensures kept { KeepsNames directory self.old self.new }
        ensures cause { HasCauseIn directory self.old self.new result };

    /// The file of this name. Where there was none it is made, and is empty.
    fn open_file(&mut self, name: FileName) -> Result<Self::File, DeviceFault>
        ensures tells { IfOk result (λ file. Self.File.disk.tells file ≡ directory.tells self.old) }
        ensures named { IfOk result (λ file. WhereNamed directory self.old
            (SameNames (directory.seen self.new) (name_made name (given_now Self.File.disk file)
            (directory.seen self.old)))) }
        ensures number { IfOk result (λ file. WhereNamed directory self.old ((given : GivenFile)
            → directory.seen self.old name ≡ Some given → given.number ≡ Self.File.disk.number file)) }
        ensures changes { (file : GivenFile) ×
            ChangesNames directory (name_made name file) self.old self.new }
        ensures cause { HasCauseIn directory self.old self.new result };

    /// Gives a file its second name in place of the first one. A file that had that name before is lost.
    fn rename(&mut self, file: &Self::File, from: FileName, to: FileName) -> Result<(), DeviceFault>
        requires named { WhereNamed directory self.old ((given : GivenFile)
            → directory.seen self.old from ≡ Some given → given.number ≡ Self.File.disk.number file.now) }
        ensures renamed { OnOk result (WhereNamed directory self.old (SameNames (directory.seen self.new)
            (renamed from to (given_now Self.File.disk file.now) (directory.seen self.old)))) }
        ensures changes { ChangesNames directory (renamed from to (given_now Self.File.disk file.now))
            self.old self.new }
        ensures cause { HasCauseIn directory self.old self.new result };

    /// Stores which file each name stands for.
    fn sync(&mut self) -> Result<(), DeviceFault>
        ensures stored { OnOk result (WhereNamed directory self.old ((names : FileNames)
            → directory.may_leave self.new names → SameNames names (directory.seen self.old))) }
        ensures kept { KeepsNames directory self.old self.new }
        ensures cause { HasCauseIn directory self.old self.new result };
}
