//! Begins the journal of an epoch.
ghost use Rattle.std.specs.Prelude.{◌≡◌, ◌<◌, ◌≤◌, ◌^◌, ℕ, Err, IfOk, OnOk, length, true};
ghost use Rattle.std.specs.List.{All};
ghost use Rattle.rv_journal.specs.Journal.{IsDurable, journal_text};
ghost use Rattle.rv_journal.specs.folders.Begun.{IsAccountIn, KeepsOthers, LeavesBegun};
ghost use Rattle.rv_journal.specs.folders.Folder.{KeepsNames, FileNames, WhereNamed};
ghost use Rattle.rv_journal.specs.folders.Present.{HasAccount};
ghost use Rattle.rv_journal.specs.declared.device.DeviceFault.TheVariants.{Failed};
ghost use Rattle.rv_journal.specs.declared.fault.CreateFault.TheVariants.{Full, NotText};
ghost use Rattle.rv_journal.specs.declared.folders.beginning.BeginFault.TheVariants as OfBegin;

use crate::folders::folder::{FileName, Folder};
use crate::folders::present::present_epoch;
use crate::{CreateFault, DeviceFault, DiskJournal};
use std::alloc::Global;
use thiserror::Error;

/// Why the journal of an epoch was not begun.
#[derive(Clone, Copy, Debug, PartialEq, Eq, Error)]
pub enum BeginFault {
    /// The account of this epoch, which isn't smaller, has a file. Nothing changed.
    #[error("the store has epoch {0}")]
    NotGreater(u64),
    /// The folder failed, or was refused memory.
    #[error("the store's folder failed")]
    Folder(DeviceFault),
    /// The file that is being made was not made a journal.
    #[error("{0}")]
    Journal(CreateFault),
}

impl From<DeviceFault> for BeginFault {
    ghost from_gives = { λ fault told. told ≡ OfBegin.Folder fault };

    fn from(fault: DeviceFault) -> BeginFault {
        BeginFault::Folder(fault)
    }
}

/// A new journal for the account of an epoch that is greater than all others, whose text is this piece: bytes
/// without zero. It is made under another name, stored, renamed, and the name is stored.
///
/// Whenever a crash comes, the account of that epoch has no file, or one of the whole piece, and those of all
/// others have theirs; at `Err` too. [`BeginFault`] says what failed. A file that a crash left under the
/// other name is overwritten.
pub fn begin_journal<F: Folder>(
    alloc: Global,
    folder: &mut F,
    epoch: u64,
    first: &[u8],
) -> Result<DiskJournal<F::File>, BeginFault>
    ensures text { IfOk result (λ journal. WhereNamed F.directory folder.old
        (journal_text F.File.disk journal ≡ first.now)) }
    ensures durable { IfOk result (λ journal. WhereNamed F.directory folder.old
        (IsDurable F.File.disk journal)) }
    ensures tells { IfOk result (λ journal.
        F.File.disk.tells journal.device ≡ F.directory.tells folder.old) }
    ensures greater { OnOk result (WhereNamed F.directory folder.old ((other : ℕ)
        → HasAccount (F.directory.seen folder.old) other → other < epoch)) }
    ensures account { IfOk result (λ journal. WhereNamed F.directory folder.old ((names : FileNames)
        → F.directory.may_leave folder.new names
        → IsAccountIn F.File.disk first.now epoch journal.device names)) }
    ensures others { OnOk result (WhereNamed F.directory folder.old ((names : FileNames)
        → F.directory.may_leave folder.new names
        → KeepsOthers epoch (F.directory.seen folder.old) names)) }
    ensures any_moment { WhereNamed F.directory folder.old
        (LeavesBegun F.directory F.File.disk first.now epoch folder.old folder.new) }
    ensures not_greater { (other : ℕ) → result ≡ Err (OfBegin.NotGreater other)
        → WhereNamed F.directory folder.old
        (HasAccount (F.directory.seen folder.old) other × (epoch ≤ other)) }
    ensures same { (other : ℕ) → result ≡ Err (OfBegin.NotGreater other)
        → KeepsNames F.directory folder.old folder.new }
    ensures not_text { result ≡ Err (OfBegin.Journal NotText) → All (λ byte. 0 < byte) first.now → ⊥ }
    ensures full { result ≡ Err (OfBegin.Journal Full) → 2 ^ 50 ≤ length first.now }
    ensures cause { result ≡ Err (OfBegin.Folder Failed) → F.directory.failed folder.new ≡ true }
{
    if let Some(present) = present_epoch(alloc, folder)? {
        if present >= epoch {
            return Err(BeginFault::NotGreater(present));
        }
    }
    let file = folder.open_file(FileName::Unready)?;
    let journal = match DiskJournal::create(alloc, file, first) {
        Ok(journal) => journal,
        Err((fault, _)) => return Err(BeginFault::Journal(fault)),
    };
    folder.rename(
        journal.device(),
        FileName::Unready,
        FileName::Account(epoch),
    )?;
    folder.sync()?;
    Ok(journal)
}
