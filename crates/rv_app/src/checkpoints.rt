//! Compares the checkpoints of a store with what the entries of its present account give.
ghost use Rattle.std.specs.Prelude.{◌≡◌, Ok, true, IfOk, IfSome};
ghost use Rattle.rv_account.specs.state.resume.Resuming.{CanResume};
ghost use Rattle.rv_app.specs.Compacting.{IsCheckpointAt};
ghost use Rattle.rv_machine.specs.Machines.{state_in};

use crate::compact::machine_in;
use crate::journal::{FileKind, JournalLines, kind_of};
use crate::verify::unread;
use rv_machine::Machine;
use rv_run::RunFault;
use rv_store::keeping::{CheckpointName, checkpoints_in, is_checkpoint_of};
use std::fs::{self, File};
use std::io::{self, ErrorKind};

/// Prints of each checkpoint of a store's present account, which lies at a path in its folder, whether it is
/// what the entries before it give. Says whether all are. The account is read once for each.
pub(crate) fn checkpoints_hold(
    rt: &HostRuntime,
    folder: &str,
    account: &str,
) -> Result<bool, RunFault> {
    let Some(epoch) = epoch_of(rt, account)? else {
        return Ok(true);
    };
    let counts = match counts_of(rt, folder, epoch) {
        Ok(counts) => counts,
        Err(error) => {
            unread(rt, "account", folder, &error);
            return Ok(false);
        }
    };
    let mut hold = true;
    for entries in counts.iter() {
        let name = CheckpointName {
            epoch,
            entries: *entries,
        };
        hold = holds(rt, folder, account, name)? && hold;
    }
    Ok(hold)
}

// The epoch of the account at this path. None if no legal first line of one is read, as was told before.
fn epoch_of(rt: &HostRuntime, account: &str) -> Result<Option<u64>, RunFault> {
    let Ok(file) = File::open(rt, account) else {
        return Ok(None);
    };
    match kind_of(&file) {
        FileKind::Journal => {
            let begun = machine_in(rt, 0, JournalLines::first(rt.alloc(), file, 1))?;
            Ok(begun.map(|machine| machine.epoch()))
        }
        _ => Ok(None),
    }
}

// After how many entries the checkpoints of an epoch's account are, rising.
fn counts_of(rt: &HostRuntime, folder: &str, epoch: u64) -> io::Result<Vec<u64>> {
    let mut counts = Vec::new(rt.alloc());
    for name in checkpoints_in(rt, folder)?.iter() {
        if name.epoch == epoch {
            counts.push(name.entries)?;
        }
    }
    counts.sort_unstable();
    Ok(counts)
}

// Prints whether the checkpoint of this name is what the entries before it give, and says so. One that is
// gone has made way for a later one.
fn holds(
    rt: &HostRuntime,
    folder: &str,
    account: &str,
    name: CheckpointName,
) -> Result<bool, RunFault> {
    let path = name.path(rt.alloc(), folder)?;
    let text = match fs::read(rt, path.as_str()) {
        Ok(text) => text,
        Err(error) if error.kind() == ErrorKind::NotFound => return Ok(true),
        Err(error) if error.kind() == ErrorKind::OutOfMemory => return Err(RunFault::NoMemory),
        Err(error) => {
            unread(rt, "account", &path, &error);
            return Ok(false);
        }
    };
    let right = match machine_after(rt, account, name.entries)? {
        Some(machine) => is_right(rt, &machine, name, &text)?,
        None => false,
    };
    let word = if right { "holds" } else { "differs" };
    let _ = println!(rt; "checkpoint {} {word}", name.entries);
    Ok(right)
}

// Whether a text is the checkpoint of this name, by a machine that holds the state of the entries before it.
fn is_right(
    rt: &HostRuntime,
    machine: &Machine,
    name: CheckpointName,
    text: &[u8],
) -> Result<bool, RunFault>
    requires { CanResume (state_in machine.now) }
    ensures { result ≡ Ok true → IsCheckpointAt name text.now (state_in machine.now) }
{
    if machine.epoch() != name.epoch || machine.length() as u64 != name.entries {
        return Ok(false);
    }
    Ok(is_checkpoint_of(rt.alloc(), machine.state()?, text)?)
}

// The machine of an account's first entries, so many or all if they are fewer, if they are legal.
fn machine_after(rt: &HostRuntime, account: &str, entries: u64) -> Result<Option<Machine>, RunFault>
    ensures { IfOk result (λ found. IfSome found (λ machine. CanResume (state_in machine))) }
{
    let Ok(file) = File::open(rt, account) else {
        return Err(RunFault::ReadFault);
    };
    let lines = JournalLines::first(rt.alloc(), file, entries.saturating_add(1));
    machine_in(rt, 0, lines)
}
