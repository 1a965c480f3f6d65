//! Opens the journal of an account, and gives the machine that goes on from it.
ghost use Rattle.std.specs.Prelude.{◌≡◌, ◌⊎◌, None, Option, Some, true, IfErr, IfOk, IfSome};
ghost use Rattle.rv_journal.specs.Cutter.{RefusesFront};
ghost use Rattle.rv_journal.specs.Device.{LeavesOnly, WhereTold};
ghost use Rattle.rv_journal.specs.Faults.{IfRefused, open_failed};
ghost use Rattle.rv_journal.specs.Journal.{IsDurable, journal_text};
ghost use Rattle.rv_journal.specs.Opened.{HasLines, HasLinesOf, IsLeftRefused, IsLeftUnfilled, MakesOf};
ghost use Rattle.rv_journal.specs.Opened.{file_lines};
ghost use Rattle.rv_journal.specs.declared.fault.OpenFault.TheVariants.{NotFilled};
ghost use Rattle.rv_machine.specs.Machines.{state_in};
ghost use Rattle.rv_machine.specs.declared.machine.Machine as machines;
ghost use Rattle.rv_account.specs.state.resume.Resuming.{CanResume};
ghost use Rattle.rv_store.specs.Lasting.{fault_of, journal_of};
ghost use Rattle.rv_store.specs.Reading.{HoldsJournal, IsLeftAsRefused};
ghost use Rattle.rv_store.specs.Resumed.{StandsFrom};

use crate::account_journal::AccountJournal;
use crate::reader::{AccountReader, RecoveryFault};
use crate::resuming::ResumingReader;
use rv_journal::{Device, DiskJournal, JournalReader, OpenFault};
use rv_machine::Machine;
use std::alloc::Global;

/// The journal of an account, and the machine that goes on from it.
#[derive(Drop)]
pub struct StoredAccount<D: Device> {
    /// Its text is the account's lines, all of them stored.
    pub journal: AccountJournal<D>,
    /// It holds the account's state. No step of it may be at a moment before its own.
    pub machine: Machine,
}

// Opens a file that a crash may have left as the journal of what a reader reads.
fn open_by<D: Device, R: JournalReader<Fault = RecoveryFault, Made = Machine>>(
    alloc: Global,
    device: D,
    reader: R,
) -> Result<StoredAccount<D>, (OpenFault<RecoveryFault>, D)>
    ensures made { IfOk result (λ stored. WhereTold D.disk device
        (MakesOf R.takes R.makes reader (file_lines D.disk device) stored.machine)) }
    ensures maker { IfOk result (λ stored. (last : R) × R.makes last stored.machine) }
    ensures text { IfOk result (λ stored. WhereTold D.disk device
        (journal_text D.disk (journal_of stored.journal) ≡ file_lines D.disk device)) }
    ensures tells { IfOk result (λ stored.
        D.disk.tells (journal_of stored.journal).device ≡ D.disk.tells device) }
    ensures works { IfOk result (λ stored. fault_of stored.journal ≡ None) }
    ensures durable { IfOk result (λ stored. WhereTold D.disk device
        (IsDurable D.disk (journal_of stored.journal))) }
    ensures any_moment { IfOk result (λ stored. WhereTold D.disk device
        (LeavesOnly D.disk device (journal_of stored.journal).device (HasLinesOf D.disk device))) }
    ensures lines_err { IfErr result (λ failed. WhereTold D.disk device
        (HasLines (file_lines D.disk device) (D.disk.seen failed.1))) }
    ensures tells_err { IfErr result (λ failed. D.disk.tells failed.1 ≡ D.disk.tells device) }
    ensures any_moment_err { IfErr result (λ failed. WhereTold D.disk device
        (LeavesOnly D.disk device failed.1 (HasLinesOf D.disk device))) }
    ensures not_filled { IfErr result (λ failed. failed.0 ≡ NotFilled →
        IsLeftUnfilled D.disk device failed.1) }
    ensures refused { IfErr result (λ failed. IfRefused failed.0 (λ why.
        IsLeftRefused D.disk R.takes R.refuses R.lacks device failed.1 reader why)) }
    ensures cause { IfErr result (λ failed. failed.0 ≡ open_failed → D.disk.failed failed.1 ≡ true) }
{
    let (journal, machine) = DiskJournal::open(alloc, device, reader)?;
    Ok(StoredAccount {
        journal: AccountJournal::new(journal),
        machine,
    })
}

// A machine, if it is of this epoch.
fn of_epoch(machine: Option<Machine>, epoch: u64) -> Option<Machine>
    ensures some { IfSome result (λ found. (machine ≡ Some found) × ((state_in found).epoch ≡ epoch)) }
    ensures none { result ≡ None → (other : machines.Machine) → machine ≡ Some other
        → ¬ ((state_in other).epoch ≡ epoch) }
{
    let machine = machine?;
    if machine.epoch() == epoch {
        Some(machine)
    } else {
        None
    }
}

/// Opens a file that a crash may have left as the journal of this epoch's account: its whole lines before its
/// first zero. What stands after them is cleared once they were read as a legal account. It may crash too,
/// and leaves the same lines.
///
/// If a machine of this epoch is given, as [`read_checkpoint`](rv_verify::read_checkpoint) and
/// [`Machine::resume`] make one, the lines of its account are passed over, and it goes on from there: what is
/// opened is then the journal that begins with the account whose state that machine holds, if it does.
///
/// The file is read once, in memory of what is open, of the clients, and of about 1 MiB and the longest
/// line. At `Err` the device is handed back with the same lines.
pub fn open_account<D: Device>(
    alloc: Global,
    device: D,
    epoch: u64,
    from: Option<Machine>,
) -> Result<StoredAccount<D>, (OpenFault<RecoveryFault>, D)>
    requires resumes { IfSome from (λ machine. CanResume (state_in machine)) }
    ensures holds { IfOk result (λ stored. WhereTold D.disk device (StandsFrom from epoch
        (file_lines D.disk device) → HoldsJournal epoch (file_lines D.disk device) stored.machine)) }
    ensures epoch { IfOk result (λ stored. WhereTold D.disk device
        ((state_in stored.machine).epoch ≡ epoch)) }
    ensures resumes { IfOk result (λ stored. CanResume (state_in stored.machine)) }
    ensures text { IfOk result (λ stored. WhereTold D.disk device
        (journal_text D.disk (journal_of stored.journal) ≡ file_lines D.disk device)) }
    ensures tells { IfOk result (λ stored.
        D.disk.tells (journal_of stored.journal).device ≡ D.disk.tells device) }
    ensures works { IfOk result (λ stored. fault_of stored.journal ≡ None) }
    ensures durable { IfOk result (λ stored. WhereTold D.disk device
        (IsDurable D.disk (journal_of stored.journal))) }
    ensures any_moment { IfOk result (λ stored. WhereTold D.disk device
        (LeavesOnly D.disk device (journal_of stored.journal).device (HasLinesOf D.disk device))) }
    ensures lines_err { IfErr result (λ failed. WhereTold D.disk device
        (HasLines (file_lines D.disk device) (D.disk.seen failed.1))) }
    ensures tells_err { IfErr result (λ failed. D.disk.tells failed.1 ≡ D.disk.tells device) }
    ensures any_moment_err { IfErr result (λ failed. WhereTold D.disk device
        (LeavesOnly D.disk device failed.1 (HasLinesOf D.disk device))) }
    ensures not_filled { IfErr result (λ failed. failed.0 ≡ NotFilled →
        IsLeftUnfilled D.disk device failed.1) }
    ensures refused { IfErr result (λ failed. IfRefused failed.0
        (IsLeftAsRefused D.disk epoch from device failed.1)) }
    ensures cause { IfErr result (λ failed. failed.0 ≡ open_failed → D.disk.failed failed.1 ≡ true) }
{
    match of_epoch(from, epoch) {
        Some(machine) => open_by(alloc, device, ResumingReader::new(alloc, epoch, machine)),
        None => open_by(alloc, device, AccountReader::new(alloc, epoch)),
    }
}
