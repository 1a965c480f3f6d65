//! Makes a checkpoint of a store's account. Of the account, only what is open and the clients are in memory.
ghost use Rattle.std.specs.Prelude.{◌≡◌, IfOk, IfSome};
ghost use Rattle.rv_account.specs.state.resume.Resuming.{CanResume};
ghost use Rattle.rv_app.specs.Compacting.{IsMachineOf};
ghost use Rattle.rv_machine.specs.Machines.{state_in};

use crate::fault::NoAccount;
use crate::journal::{FileKind, JournalLines, kind_of};
use crate::verify::{buffered, run_fault, unread};
use crate::watch::{Watch, Watched};
use rv_journal::folders::present_account;
use rv_machine::Machine;
use rv_replies::Records;
use rv_run::RunFault;
use rv_store::keeping::{KeepFault, make_checkpoint};
use rv_verify::{OngoingAudit, Pause};
use std::fs::File;
use std::io::Read;
use std::process::ExitCode;

// The status if no checkpoint is made.
const NONE_MADE: u8 = 1;

/// `rv compact`: makes a checkpoint of the present account of a store, whose folder a server may have, and
/// prints after how many entries.
pub(crate) fn run_compact(rt: &HostRuntime, folder: &str) -> Result<ExitCode, RunFault> {
    let path = match present_account(rt, folder) {
        Ok(Some(path)) => path,
        Ok(None) => return Ok(not_made(rt, folder, &NoAccount::NoEpoch)),
        Err(error) => return Ok(not_made(rt, folder, &error)),
    };
    let file = match File::open(rt, path.as_str()) {
        Ok(file) => file,
        Err(error) => return Ok(not_made(rt, &path, &error)),
    };
    match kind_of(&file) {
        FileKind::Journal => compact_journal(rt, folder, &path, file),
        FileKind::OtherVersion(version) => {
            Ok(not_made(rt, &path, &NoAccount::OtherVersion(version)))
        }
        FileKind::NoLine => Ok(not_made(rt, &path, &NoAccount::NoLine)),
        FileKind::Other => Ok(not_made(rt, &path, &"no journal")),
    }
}

// The same of the journal at this path.
fn compact_journal(
    rt: &HostRuntime,
    folder: &str,
    path: &str,
    file: File,
) -> Result<ExitCode, RunFault> {
    // opened before the reading: a sync tells it of all faults since then
    let same = match File::open(rt, path) {
        Ok(same) => same,
        Err(error) => return Ok(not_made(rt, path, &error)),
    };
    let text = JournalLines::new(rt.alloc(), file);
    let size = text.size();
    let Some(machine) = machine_in(rt, size, text)? else {
        return Ok(not_made(rt, path, &"no legal account: rv verify tells where"));
    };
    // what was read is stored before the state that it gives
    if let Err(error) = same.sync_all() {
        return Ok(not_made(rt, path, &error));
    }
    checkpoint(rt, folder, &machine)
}

// Makes a checkpoint of a machine, and prints after how many entries.
fn checkpoint(rt: &HostRuntime, folder: &str, machine: &Machine) -> Result<ExitCode, RunFault>
    requires { CanResume (state_in machine.now) }
{
    match make_checkpoint(rt, folder, machine) {
        Ok(()) => {
            let _ = println!(rt; "checkpoint after {} entries", machine.length());
            Ok(ExitCode::SUCCESS)
        }
        Err(KeepFault::Named(name, error)) => Ok(not_made(rt, &name, &error)),
        Err(KeepFault::Unusable(name, why)) => Ok(not_made(rt, &name, &why)),
        Err(KeepFault::NoMemory) => Err(RunFault::NoMemory),
    }
}

/// The machine that goes on from the whole lines of an account, if they are legal. They are of `size` bytes,
/// or of 0 if their number isn't known.
pub(crate) fn machine_in<F: Read + Drop>(
    rt: &HostRuntime,
    size: u64,
    input: F,
) -> Result<Option<Machine>, RunFault>
    ensures resumes { IfOk result (λ found. IfSome found (λ machine. CanResume (state_in machine))) }
    ensures machine { IfSome (F.remaining input) (λ bytes. IfOk result (λ found.
        IfSome found (IsMachineOf bytes))) }
{
    let mut watch = Watch::new(rt, size);
    let found = machine_watched(rt, &mut watch, input);
    watch.erase();
    found
}

// The same, watched.
fn machine_watched<F: Read + Drop>(
    rt: &HostRuntime,
    watch: &mut Watch<'_>,
    input: F,
) -> Result<Option<Machine>, RunFault>
    ensures resumes { IfOk result (λ found. IfSome found (λ machine. CanResume (state_in machine))) }
    ensures machine { IfSome (F.remaining input) (λ bytes. IfOk result (λ found.
        IfSome found (IsMachineOf bytes))) }
{
    let alloc = rt.alloc();
    let mut reader = buffered(alloc, Watched::new(watch, input))?;
    let mut audit = OngoingAudit::new(alloc);
    let mut records = Records::new(alloc);
    match audit.read_on(alloc, &mut reader, &mut records) {
        Ok(Pause::End) => match audit.into_machine() {
            Ok(machine) => Ok(Some(machine)),
            Err(_) => Ok(None),
        },
        Ok(Pause::Fault) => Ok(None),
        Err(fault) => Err(run_fault(fault)),
    }
}

// Says why no checkpoint was made, and of what, and returns the status.
fn not_made<E: std::fmt::Display>(rt: &HostRuntime, path: &str, why: &E) -> ExitCode {
    unread(rt, "store", path, why);
    ExitCode::from(NONE_MADE)
}
