//! Enters the store of a folder: the account with which a server starts.
ghost use Rattle.std.specs.Prelude.{◌≡◌, ℕ, IfOk, IfSome, None, Option, false, if◌then◌else◌, true};
ghost use Rattle.rv_machine.specs.Machines.{state_in};
ghost use Rattle.rv_store.specs.keeping.Kept.{journal_in};
ghost use Rattle.rv_account.specs.state.resume.Resuming.{CanResume};
ghost use Rattle.rv_store.specs.Entered.{AreEpochs};
ghost use Rattle.rv_store.specs.Epochs.{IsChoice};
ghost use Rattle.rv_store.specs.Lasting.{fault_of, journal_of};
ghost use Rattle.rv_journal.specs.System.{does_sync};
ghost use Rattle.rv_store.specs.keeping.Boots.{IsChosenIn};

use crate::keeping::boot::Boots;
use crate::keeping::checkpoint::{forget, last_checkpoint};
use crate::keeping::fault::{KeepFault, named, unusable};
use crate::keeping::rules::StoreRules;
use crate::keeping::store_account::{StoreAccount, again};
use crate::{
    AccountJournal, EnterFault, EnteredStore, EpochChoice, EpochWish, PresentFault, RecoveryFault,
    StoredAccount, VERSION, enter_store,
};
use os::errno;
use rv_journal::folders::{BeginFault, SystemFolder, SystemFolderFault, present_epoch};
use rv_journal::{CreateFault, DeviceFault, OpenFault, SystemFile};
use rv_machine::Machine;
use std::fs::File;
use std::io;

/// What a server that keeps a store starts with.
#[derive(Drop)]
pub struct StoreStart<'a> {
    /// What keeps its account.
    pub account: StoreAccount<'a>,
    /// The machine that goes on from it.
    pub machine: Machine,
    /// Whether that was the present account, or was begun.
    pub choice: EpochChoice,
    /// Why the present account might not go on, if that is so: what was written of it may be lost.
    pub why_new: Option<&'static str>,
}

// The folder of a store, locked.
fn folder_of<'a>(
    rt: &'a HostRuntime,
    path: &str,
    most: u64,
) -> Result<SystemFolder<'a>, KeepFault> {
    match SystemFolder::open(rt, path, most) {
        Ok(folder) => Ok(folder),
        Err(SystemFolderFault::Locked) => Err(unusable_as(
            rt,
            path,
            "another server has this store",
        )),
        Err(SystemFolderFault::Io(why)) => Err(named(rt.alloc(), path, why)),
    }
}

// The same, for a reason that is written here.
fn unusable_as(rt: &HostRuntime, name: &str, why: &str) -> KeepFault {
    unusable(rt.alloc(), name, String::from_str(rt.alloc(), why))
}

// What keeps the account that was entered: its journal, in this folder, with its file under its name.
fn kept<'a>(
    rt: &'a HostRuntime,
    journal: AccountJournal<SystemFile>,
    folder: SystemFolder<'a>,
    epoch: u64,
) -> Result<StoreAccount<'a>, KeepFault>
    ensures { IfOk result (λ account. journal_in account ≡ journal) }
{
    let name = folder.account_path(rt.alloc(), epoch)?;
    match File::open(rt, name.as_str()) {
        Ok(file) => Ok(StoreAccount::new(journal, folder, name, file)),
        Err(why) => Err(KeepFault::Named(name, why)),
    }
}

// The epochs that a start allows, where the present account lets its own go on or not.
fn wish_where(epochs: EpochWish, lets_go_on: bool) -> EpochWish
    ensures least { result.least ≡ epochs.least }
    ensures most { result.most ≡ epochs.most }
    ensures new { result.is_new ≡ (if lets_go_on then epochs.is_new else true) }
{
    EpochWish {
        least: epochs.least,
        most: epochs.most,
        is_new: epochs.is_new || !lets_go_on,
    }
}

// The journal, which is synced where the rules say so.
fn kept_so(journal: AccountJournal<SystemFile>, syncs: bool) -> AccountJournal<SystemFile>
    ensures fault { fault_of result ≡ fault_of journal }
    ensures stopped { syncs ≡ false → does_sync (journal_of result).device ≡ false }
{
    let mut journal = journal;
    if !syncs {
        journal.stop_syncing();
    }
    journal
}

// The machine of the last checkpoint of the present account, if that may go on and has one.
fn checkpointed(
    rt: &HostRuntime,
    folder: &mut SystemFolder<'_>,
    path: &str,
    wish: EpochWish,
) -> Result<Option<Machine>, KeepFault>
    ensures { IfOk result (λ found. IfSome found (λ machine. CanResume (state_in machine))) }
{
    match present_epoch(rt.alloc(), folder) {
        Ok(Some(epoch)) if wish.lets_go_on(epoch) => last_checkpoint(rt, path, epoch),
        Ok(_) => Ok(None),
        Err(why) => Err(told(rt, folder, path, EnterFault::from(why))),
    }
}

// Removes what was a checkpoint of an epoch that begins.
fn forget_before(rt: &HostRuntime, path: &str, choice: EpochChoice) -> Result<(), KeepFault> {
    match choice {
        EpochChoice::Begins(epoch) => forget(rt, path, epoch),
        EpochChoice::GoesOn(_) => Ok(()),
    }
}

// The account of a start in this folder.
fn entered(
    rt: &HostRuntime,
    folder: &mut SystemFolder<'_>,
    path: &str,
    wish: EpochWish,
    wall: u64,
    from: Option<Machine>,
) -> Result<EnteredStore<SystemFile>, KeepFault>
    requires epochs { AreEpochs wish }
    requires resumes { IfSome from (λ machine. CanResume (state_in machine)) }
    ensures resumes { IfOk result (λ entered. CanResume (state_in entered.account.machine)) }
    ensures chosen { IfOk result (λ entered.
        (present : Option ℕ) × IsChoice wish present wall entered.choice) }
    ensures works { IfOk result (λ entered. fault_of entered.account.journal ≡ None) }
{
    match enter_store(rt.alloc(), folder, wish, wall, from) {
        Ok(entered) => Ok(entered),
        Err(why) => Err(told(rt, folder, path, why)),
    }
}

/// Enters the store of a folder, which is made if its parent is there, and locks it. By the wall clock's
/// milliseconds it goes on with the present account, if the rules allow that and all that was written of it
/// is there, or begins a new one. If the store has a checkpoint of the present account, its entries up to
/// there are passed over. A store that isn't synced has a note of the machine's boot, and its account goes on
/// in no other one.
///
/// At `Err` no file of an account has other lines than before.
pub fn enter<'a>(
    rt: &'a HostRuntime,
    path: &str,
    rules: StoreRules<'_>,
    wall: u64,
) -> Result<StoreStart<'a>, KeepFault>
    requires { AreEpochs rules.epochs }
    ensures resumes { IfOk result (λ start. CanResume (state_in start.machine)) }
    ensures chosen { IfOk result (λ start. IsChosenIn rules.entry wall start.choice) }
    ensures works { IfOk result (λ start. fault_of (journal_in start.account) ≡ None) }
    ensures syncs { IfOk result (λ start. rules.entry.syncs ≡ false
        → does_sync (journal_of (journal_in start.account)).device ≡ false) }
{
    let mut folder = folder_of(rt, path, rules.most)?;
    let boots = Boots::read(rt, path, rules.boot)?;
    let lets_go_on = boots.lets_go_on(rules.syncs);
    let wish = wish_where(rules.epochs, lets_go_on);
    let from = checkpointed(rt, &mut folder, path, wish)?;
    let EnteredStore { account, choice } = entered(rt, &mut folder, path, wish, wall, from)?;
    boots.note(rt, path, rules.syncs)?;
    forget_before(rt, path, choice)?;
    let StoredAccount { journal, machine } = account;
    let journal = kept_so(journal, rules.syncs);
    let account = kept(rt, journal, folder, machine.epoch())?;
    Ok(StoreStart {
        account,
        machine,
        choice,
        why_new: boots.why_new(lets_go_on),
    })
}

// Why a store wasn't entered. The system's error number still says why a file failed.
fn told(rt: &HostRuntime, folder: &SystemFolder<'_>, path: &str, why: EnterFault) -> KeepFault {
    let last = io::Error::from_raw_os_error(errno());
    match why {
        EnterFault::Present(PresentFault::Folder(DeviceFault::NoMemory))
        | EnterFault::Begin(BeginFault::Folder(DeviceFault::NoMemory))
        | EnterFault::Begin(BeginFault::Journal(CreateFault::Device(DeviceFault::NoMemory))) => {
            KeepFault::NoMemory
        }
        EnterFault::NoEpoch(present) => {
            let epoch = present.unwrap_or(0);
            let why = format!(in rt.alloc();
                "it has epoch {epoch}, and the options allow no greater one"
            );
            unusable(rt.alloc(), path, why)
        }
        EnterFault::Present(PresentFault::Account(epoch, fault)) => {
            match folder.account_path(rt.alloc(), epoch) {
                Ok(name) => account_told(rt, &name, &fault, last),
                Err(_) => KeepFault::NoMemory,
            }
        }
        EnterFault::Begin(BeginFault::Journal(CreateFault::TooLong)) => {
            unusable_as(
                rt,
                path,
                "unready.account is too long to be a start's leftover",
            )
        }
        EnterFault::Present(PresentFault::Folder(_)) | EnterFault::Begin(_) => {
            named(rt.alloc(), path, folder.fault().map_or(last, again))
        }
    }
}

// Why the file of the present account was not opened.
fn account_told(
    rt: &HostRuntime,
    name: &str,
    fault: &OpenFault<RecoveryFault>,
    last: io::Error,
) -> KeepFault {
    match fault {
        OpenFault::Device(DeviceFault::NoMemory) | OpenFault::Refused(RecoveryFault::NoMemory) => {
            KeepFault::NoMemory
        }
        OpenFault::Device(DeviceFault::Failed) => named(rt.alloc(), name, last),
        OpenFault::NotFilled => {
            unusable_as(rt, name, "no zero byte stands in it, so it is no journal")
        }
        OpenFault::Refused(RecoveryFault::OtherVersion(version)) => {
            let why = format!(in rt.alloc();
                "a journal of version {version}; version {VERSION} is read"
            );
            unusable(rt.alloc(), name, why)
        }
        OpenFault::Refused(RecoveryFault::NoJournal) => unusable_as(rt, name, "no journal"),
        OpenFault::Refused(RecoveryFault::NoLines) => unusable_as(rt, name, "no whole line"),
        OpenFault::Refused(RecoveryFault::OtherEpoch(epoch)) => {
            let why = format!(in rt.alloc(); "the account of epoch {epoch}");
            unusable(rt.alloc(), name, why)
        }
        OpenFault::Refused(RecoveryFault::TooFew) => {
            unusable_as(
                rt,
                name,
                "fewer entries than a .state file of it, which is no checkpoint of it",
            )
        }
        OpenFault::Refused(RecoveryFault::NoAccount(_)) => {
            unusable_as(rt, name, "no legal account: rv verify tells where")
        }
    }
}
