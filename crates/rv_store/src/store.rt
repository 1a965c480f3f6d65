//! A store: a folder with a journal for each epoch's account, of which the greatest epoch is the present one.
ghost use Rattle.std.specs.Prelude.{◌≡◌, ◌<◌, ◌≤◌, ℕ, Err, IfOk, IfSome, None, Ok, OnOk, true};
ghost use Rattle.rv_journal.specs.folders.Begun.{IsAccountIn, KeepsOthers, LeavesBegun};
ghost use Rattle.rv_journal.specs.folders.Folder.{KeepsNames, FileNames, SameNames, WhereNamed};
ghost use Rattle.rv_journal.specs.folders.Present.{HasAccount, IsPresent};
ghost use Rattle.rv_journal.specs.declared.folders.beginning.BeginFault.TheVariants as OfBegin;
ghost use Rattle.rv_journal.specs.Journal.{IsDurable, journal_text};
ghost use Rattle.rv_journal.specs.declared.device.DeviceFault.TheVariants.{Failed};
ghost use Rattle.rv_journal.specs.declared.fault.OpenFault.{OpenFault};
ghost use Rattle.rv_machine.specs.Machines.{state_in};
ghost use Rattle.rv_account.specs.state.resume.Resuming.{CanResume};
ghost use Rattle.rv_store.specs.Entered.{IsStored};
ghost use Rattle.rv_store.specs.Format.{first_text};
ghost use Rattle.rv_store.specs.Lasting.{fault_of, journal_of};
ghost use Rattle.rv_store.specs.Store.{FailsPresent, OpensPresent};
ghost use Rattle.rv_store.specs.declared.reader.RecoveryFault.{RecoveryFault};
ghost use Rattle.rv_store.specs.declared.store.PresentFault.TheVariants as OfStore;

use crate::account_journal::AccountJournal;
use crate::format::first_line_of;
use crate::opening::{StoredAccount, open_account};
use crate::reader::RecoveryFault;
use rv_journal::folders::{BeginFault, FileName, Folder, begin_journal, present_epoch};
use rv_journal::{DeviceFault, OpenFault};
use rv_machine::Machine;
use std::alloc::Global;

/// Why the present account of a store wasn't opened.
#[derive(Drop)]
pub enum PresentFault {
    /// The folder failed, or was refused memory. No file was opened.
    Folder(DeviceFault),
    /// The file of this epoch's account isn't its journal, or its device failed.
    Account(u64, OpenFault<RecoveryFault>),
}

impl From<DeviceFault> for PresentFault {
    ghost from_gives = { λ fault told. told ≡ OfStore.Folder fault };

    fn from(fault: DeviceFault) -> PresentFault {
        PresentFault::Folder(fault)
    }
}

/// Begins the account of an epoch that is greater than all others of the store, at this moment. Nothing may
/// be said in it before that.
///
/// Whenever a crash comes, the account has no file, or one of its whole first line, and those of all others
/// have theirs; at `Err` too. [`BeginFault`] says what failed.
pub fn begin_account<F: Folder>(
    alloc: Global,
    folder: &mut F,
    epoch: u64,
    opened: u64,
) -> Result<AccountJournal<F::File>, BeginFault>
    ensures text { IfOk result (λ journal. WhereNamed F.directory folder.old
        (journal_text F.File.disk (journal_of journal) ≡ first_text epoch opened)) }
    ensures durable { IfOk result (λ journal. WhereNamed F.directory folder.old
        (IsDurable F.File.disk (journal_of journal))) }
    ensures works { IfOk result (λ journal. fault_of journal ≡ None) }
    ensures tells { IfOk result (λ journal.
        F.File.disk.tells (journal_of journal).device ≡ F.directory.tells folder.old) }
    ensures greater { OnOk result (WhereNamed F.directory folder.old ((other : ℕ)
        → HasAccount (F.directory.seen folder.old) other → other < epoch)) }
    ensures account { IfOk result (λ journal. WhereNamed F.directory folder.old ((names : FileNames)
        → F.directory.may_leave folder.new names
        → IsAccountIn F.File.disk (first_text epoch opened) epoch (journal_of journal).device names)) }
    ensures others { OnOk result (WhereNamed F.directory folder.old ((names : FileNames)
        → F.directory.may_leave folder.new names
        → KeepsOthers epoch (F.directory.seen folder.old) names)) }
    ensures any_moment { WhereNamed F.directory folder.old
        (LeavesBegun F.directory F.File.disk (first_text epoch opened) epoch folder.old folder.new) }
    ensures not_greater { (other : ℕ) → result ≡ Err (OfBegin.NotGreater other)
        → WhereNamed F.directory folder.old
        (HasAccount (F.directory.seen folder.old) other × (epoch ≤ other)) }
    ensures same { (other : ℕ) → result ≡ Err (OfBegin.NotGreater other)
        → KeepsNames F.directory folder.old folder.new }
    ensures cause { result ≡ Err (OfBegin.Folder Failed) → F.directory.failed folder.new ≡ true }
{
    let Ok(first) = first_line_of(alloc, epoch, opened) else {
        return Err(BeginFault::Folder(DeviceFault::NoMemory));
    };
    let journal = begin_journal(alloc, folder, epoch, &first)?;
    Ok(AccountJournal::new(journal))
}

// Opens the account of the present epoch, from a machine on if one of this epoch is given. The folder is
// synced first.
pub(crate) fn open_epoch<F: Folder>(
    alloc: Global,
    folder: &mut F,
    epoch: u64,
    from: Option<Machine>,
) -> Result<StoredAccount<F::File>, PresentFault>
    requires resumes { IfSome from (λ machine. CanResume (state_in machine)) }
    requires present { WhereNamed F.directory folder.old
        (IsPresent (F.directory.seen folder.old) (Some epoch)) }
    ensures opened { IfOk result (λ stored. WhereNamed F.directory folder.old
        (OpensPresent F.directory F.File.disk folder.old from stored)) }
    ensures epoch { IfOk result (λ stored. WhereNamed F.directory folder.old
        ((state_in stored.machine).epoch ≡ epoch)) }
    ensures stored { IfOk result (λ stored. WhereNamed F.directory folder.old
        (IsStored F.File.disk from stored)) }
    ensures resumes { IfOk result (λ stored. CanResume (state_in stored.machine)) }
    ensures works { IfOk result (λ stored. fault_of stored.journal ≡ None) }
    ensures tells { IfOk result (λ stored.
        F.File.disk.tells (journal_of stored.journal).device ≡ F.directory.tells folder.old) }
    ensures names { OnOk result (WhereNamed F.directory folder.old ((names : FileNames)
        → F.directory.may_leave folder.new names → SameNames names (F.directory.seen folder.old))) }
    ensures failed { (other : ℕ) (fault : OpenFault RecoveryFault)
        → result ≡ Err (OfStore.Account other fault) → WhereNamed F.directory folder.old
        (FailsPresent F.directory F.File.disk folder.old other from fault) }
    ensures cause { result ≡ Err (OfStore.Folder Failed) → F.directory.failed folder.new ≡ true }
{
    folder.sync()?;
    let file = folder.open_file(FileName::Account(epoch))?;
    match open_account(alloc, file, epoch, from) {
        Ok(stored) => Ok(stored),
        Err((fault, _)) => Err(PresentFault::Account(epoch, fault)),
    }
}

/// Opens the present account of a store, if it has one. Its folder is synced first.
///
/// At `Err` no file has other lines than before; [`PresentFault`] says what failed.
pub fn open_present<F: Folder>(
    alloc: Global,
    folder: &mut F,
) -> Result<Option<StoredAccount<F::File>>, PresentFault>
    ensures none { result ≡ Ok None
        → WhereNamed F.directory folder.old (IsPresent (F.directory.seen folder.old) None) }
    ensures opened { IfOk result (λ found. IfSome found (λ stored. WhereNamed F.directory folder.old
        (OpensPresent F.directory F.File.disk folder.old None stored))) }
    ensures resumes { IfOk result (λ found. IfSome found (λ stored. CanResume (state_in stored.machine))) }
    ensures works { IfOk result (λ found. IfSome found (λ stored. fault_of stored.journal ≡ None)) }
    ensures tells { IfOk result (λ found. IfSome found (λ stored.
        F.File.disk.tells (journal_of stored.journal).device ≡ F.directory.tells folder.old)) }
    ensures names { OnOk result (WhereNamed F.directory folder.old ((names : FileNames)
        → F.directory.may_leave folder.new names → SameNames names (F.directory.seen folder.old))) }
    ensures failed { (epoch : ℕ) (fault : OpenFault RecoveryFault)
        → result ≡ Err (OfStore.Account epoch fault) → WhereNamed F.directory folder.old
        (FailsPresent F.directory F.File.disk folder.old epoch None fault) }
    ensures cause { result ≡ Err (OfStore.Folder Failed) → F.directory.failed folder.new ≡ true }
{
    folder.sync()?;
    let Some(epoch) = present_epoch(alloc, folder)? else {
        return Ok(None);
    };
    match open_epoch(alloc, folder, epoch, None) {
        Ok(stored) => Ok(Some(stored)),
        Err(why) => Err(why),
    }
}
