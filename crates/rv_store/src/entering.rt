//! Enters a store: goes on with its present account, or begins one of a new epoch.
ghost use Rattle.std.specs.Prelude.{◌≡◌, ◌≤◌, ℕ, Err, IfOk, IfSome, None, Option, min, true};
ghost use Rattle.rv_account.specs.Limits.{max_moment};
ghost use Rattle.rv_journal.specs.folders.Begun.{LeavesBegun};
ghost use Rattle.rv_journal.specs.folders.Folder.{KeepsNames, WhereNamed};
ghost use Rattle.rv_journal.specs.folders.Present.{IsPresent};
ghost use Rattle.rv_journal.specs.declared.device.DeviceFault.TheVariants.{Failed};
ghost use Rattle.rv_machine.specs.Machines.{state_in};
ghost use Rattle.rv_account.specs.rules.Steps.{capped_moment};
ghost use Rattle.rv_account.specs.state.State.{opening};
ghost use Rattle.rv_account.specs.state.resume.Resuming.{CanResume};
ghost use Rattle.rv_store.specs.Entered.{AreEpochs, BeginsIn, EntersBy, IsChosen, IsStored, given_where};
ghost use Rattle.rv_store.specs.Epochs.{HasNoChoice};
ghost use Rattle.rv_store.specs.Lasting.{fault_of, journal_of};
ghost use Rattle.rv_store.specs.declared.entering.EnterFault.TheVariants as OfEntry;
ghost use Rattle.rv_store.specs.declared.store.PresentFault.TheVariants as OfStore;
ghost use Rattle.rv_text.specs.Limits.{FitsIdentifier};

use crate::opening::StoredAccount;
use crate::store::{PresentFault, begin_account, open_epoch};
use crate::wish::{EpochChoice, EpochWish};
use rv_journal::folders::{BeginFault, Folder, present_epoch};
use rv_journal::{Device, DeviceFault};
use rv_machine::Machine;
use std::alloc::Global;

// The greatest moment of an account.
const MOST_MOMENT: u64 = 1 << 62;

/// The account with which a server starts.
#[derive(Drop)]
pub struct EnteredStore<D: Device> {
    /// Its journal, and the machine that goes on from it.
    pub account: StoredAccount<D>,
    /// Whether it is the present one of the store, or was begun.
    pub choice: EpochChoice,
}

/// Why a start found no account in a store.
#[derive(Drop)]
pub enum EnterFault {
    /// The folder failed, or its present account was not opened. No file has other lines than before.
    Present(PresentFault),
    /// The store has this epoch, if it has one, and none that is greater is allowed. Nothing changed.
    NoEpoch(Option<u64>),
    /// A new account was not begun: all others are as they were.
    Begin(BeginFault),
}

impl From<DeviceFault> for EnterFault {
    ghost from_gives = { λ fault told. told ≡ OfEntry.Present (OfStore.Folder fault) };

    fn from(fault: DeviceFault) -> EnterFault {
        EnterFault::Present(PresentFault::Folder(fault))
    }
}

// The machine of a new epoch's account.
fn open_machine(alloc: Global, epoch: u64, opened: u64) -> Result<Machine, BeginFault>
    ensures { IfOk result (λ machine. state_in machine ≡ opening epoch (capped_moment opened)) }
{
    match Machine::open(alloc, epoch, opened) {
        Ok(machine) => Ok(machine),
        Err(_) => Err(BeginFault::Folder(DeviceFault::NoMemory)),
    }
}

// The account of a new epoch, begun at this moment.
fn begin<F: Folder>(
    alloc: Global,
    folder: &mut F,
    epoch: u64,
    opened: u64,
) -> Result<StoredAccount<F::File>, BeginFault>
    requires epoch { FitsIdentifier epoch }
    requires moment { opened ≤ max_moment }
    ensures begins { IfOk result (λ stored. WhereNamed F.directory folder.old
        (BeginsIn F.directory F.File.disk folder.old folder.new epoch opened stored)) }
    ensures stored { IfOk result (λ stored. WhereNamed F.directory folder.old
        (IsStored F.File.disk None stored)) }
    ensures resumes { IfOk result (λ stored. CanResume (state_in stored.machine)) }
    ensures works { IfOk result (λ stored. fault_of stored.journal ≡ None) }
    ensures tells { IfOk result (λ stored.
        F.File.disk.tells (journal_of stored.journal).device ≡ F.directory.tells folder.old) }
{
    let machine = open_machine(alloc, epoch, opened)?;
    let journal = begin_account(alloc, folder, epoch, opened)?;
    Ok(StoredAccount { journal, machine })
}

/// Goes on with the present account of a store, if its epoch is allowed and no new one is asked for, and else
/// begins one at this moment, in milliseconds of the wall clock: at most 2^62.
///
/// If a machine of the present epoch is given, the lines of the account whose state it holds are passed over.
///
/// Its epoch is as [`EpochWish::choose`] says. Nothing may be said in a new epoch before that. Whenever a
/// crash comes, all accounts that there were are found. At `Err` they are too; [`EnterFault`] says what
/// failed.
pub fn enter_store<F: Folder>(
    alloc: Global,
    folder: &mut F,
    wish: EpochWish,
    now: u64,
    from: Option<Machine>,
) -> Result<EnteredStore<F::File>, EnterFault>
    requires epochs { AreEpochs wish }
    requires resumes { IfSome from (λ machine. CanResume (state_in machine)) }
    ensures chosen { IfOk result (λ entered.
        IsChosen F.directory folder.old wish now entered.choice) }
    ensures enters { IfOk result (λ entered. WhereNamed F.directory folder.old (EntersBy F.directory
        F.File.disk folder.old folder.new (capped_moment now) from entered.choice entered.account)) }
    ensures stored { IfOk result (λ entered. WhereNamed F.directory folder.old
        (IsStored F.File.disk (given_where entered.choice from) entered.account)) }
    ensures resumes { IfOk result (λ entered. CanResume (state_in entered.account.machine)) }
    ensures works { IfOk result (λ entered. fault_of entered.account.journal ≡ None) }
    ensures tells { IfOk result (λ entered.
        F.File.disk.tells (journal_of entered.account.journal).device ≡ F.directory.tells folder.old) }
    ensures no_epoch { (present : Option ℕ) → result ≡ Err (OfEntry.NoEpoch present)
        → HasNoChoice wish present
        × WhereNamed F.directory folder.old (IsPresent (F.directory.seen folder.old) present) }
    ensures same { (present : Option ℕ) → result ≡ Err (OfEntry.NoEpoch present)
        → KeepsNames F.directory folder.old folder.new }
{
    let present = present_epoch(alloc, folder)?;
    let Some(choice) = wish.choose(present, now) else {
        return Err(EnterFault::NoEpoch(present));
    };
    match choice {
        EpochChoice::GoesOn(epoch) => match open_epoch(alloc, folder, epoch, from) {
            Ok(account) => Ok(EnteredStore { account, choice }),
            Err(why) => Err(EnterFault::Present(why)),
        },
        EpochChoice::Begins(epoch) => {
            match begin(alloc, folder, epoch, now.min(MOST_MOMENT)) {
                Ok(account) => Ok(EnteredStore { account, choice }),
                Err(why) => Err(EnterFault::Begin(why)),
            }
        }
    }
}
