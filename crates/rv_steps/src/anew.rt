//! Machines made anew after a line: of the state before it, and by following the entries that it made.
ghost use Rattle.rv_steps.specs.Ready.{CanFollow};

use crate::steps::{Made, answer_line};
use rv_account::Entry;
use rv_account::rules::Limits;
use rv_account::state::resume::Snapshot;
use rv_machine::Machine;
use rv_text::{Key, NoMemory};
use rv_verify::follow::{Followed, follow};
use std::alloc::Global;

/// Answers a line, and puts a machine made anew in the place of the one that heard it, if that is wanted.
/// `None` if no such machine can be made, or if it settles other requests.
pub(crate) fn answer_by(
    alloc: Global,
    limits: &Limits,
    anew: bool,
    machine: &mut Machine,
    line: &[u8],
) -> Result<Option<String>, NoMemory> {
    if anew {
        return answer_anew(alloc, limits, machine, line);
    }
    Ok(Some(answer_line(alloc, limits, machine, line)?.0))
}

// The same where it is wanted.
fn answer_anew(
    alloc: Global,
    limits: &Limits,
    machine: &mut Machine,
    line: &[u8],
) -> Result<Option<String>, NoMemory> {
    let before = machine.state()?;
    let (body, made) = answer_line(alloc, limits, machine, line)?;
    match made {
        Some(made) => Ok(is_made_anew(alloc, machine, before, made).then_some(body)),
        None => Ok(Some(body)),
    }
}

// Makes a machine anew from the state before a line, lets it follow the entries that the line made, and puts
// it in the place of the one that heard the line. Tells whether it can be made, and settles just the same.
fn is_made_anew(alloc: Global, machine: &mut Machine, before: Snapshot, made: Made) -> bool {
    let Ok(mut again) = Machine::resume(alloc, before) else {
        return false;
    };
    let same = are_followed(&mut again, made, machine.settled());
    *machine = again;
    same
}

// Whether the entries that a line made are followed, and settle whom it settled: its tick those that are
// listed with it, and the entry of its message these.
fn are_followed(machine: &mut Machine, made: Made, settled: &[Key]) -> bool
    requires { CanFollow machine.old }
    ensures { CanFollow machine.new }
{
    let Made { tick, ended, entry } = made;
    let ticked = is_followed(machine, tick, &ended);
    let heard = is_followed(machine, entry, settled);
    ticked && heard
}

// Whether the entry, if there is one, is followed, and settles these; whom none settles, if there is none.
fn is_followed(machine: &mut Machine, entry: Option<Entry>, settled: &[Key]) -> bool
    requires { CanFollow machine.old }
    ensures { CanFollow machine.new }
{
    match entry {
        Some(entry) => is_done(machine, entry) && machine.settled() == settled,
        None => settled.is_empty(),
    }
}

// Whether an entry is within its limits, and followed.
fn is_done(machine: &mut Machine, entry: Entry) -> bool
    requires { CanFollow machine.old }
    ensures { CanFollow machine.new }
{
    if !entry.fits() {
        return false;
    }
    matches!(follow(machine, entry), Followed::Done)
}
