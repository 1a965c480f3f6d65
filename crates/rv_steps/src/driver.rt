//! What lines are handed to, a machine or a hub, and what is printed for each line.
ghost use Rattle.rv_account.specs.rules.StepLimits.{AreStepLimits};

use crate::EPOCH;
use crate::anew::answer_by;
use crate::events::{LineWords, read_event, read_piece, read_show, words_of};
use crate::telling::{show, tell};
use crate::words::Beginning;
use rv_account::rules::Limits;
use rv_hub::Hub;
use rv_machine::Machine;
use rv_text::NoMemory;
use std::alloc::Global;

/// What hears lines.
pub(crate) enum Driver {
    /// A machine.
    Machine {
        /// As it stands before the next line.
        machine: Machine,
        /// The limits of its steps.
        limits: Limits,
        /// Whether it is made anew after each line.
        anew: bool,
    },
    /// A hub.
    Hub(Hub),
}

// Whoever owns one drops it in one step.
impl Drop for Driver {
    fn drop(self) {
        match self {
            Driver::Machine {
                machine: _,
                limits: _,
                anew: _,
            } => {}
            Driver::Hub(_) => {}
        }
    }
}

impl Driver {
    /// Why a line ended the run, and the status of that.
    pub(crate) fn ended(&self) -> (&'static str, u8) {
        match self {
            Driver::Machine { .. } => ("a machine made anew differs", 1),
            Driver::Hub(_) => ("a line says nothing", 2),
        }
    }
}

/// Begins as the words ask, with a machine that has no entries.
#[tactic(auto, using(crate::proofs::Opened::opened_resumes))]
pub(crate) fn begin(alloc: Global, limits: Limits, beginning: Beginning) -> Result<Driver, NoMemory>
    requires { AreStepLimits limits }
{
    let machine = Machine::open(alloc, EPOCH, 0)?;
    match beginning {
        Beginning::Machine { anew } => Ok(Driver::Machine {
            machine,
            limits,
            anew,
        }),
        Beginning::Hub {
            patience,
            has_journal,
        } => Ok(Driver::Hub(Hub::new(alloc, machine, limits, patience, has_journal)?)),
    }
}

/// Does what a line says, and writes what came of that, in whole lines. False if the line ends the run: it
/// says no event, or a machine made anew after it differs.
pub(crate) fn answer(
    alloc: Global,
    driver: &mut Driver,
    text: &mut Vec<u8>,
    line: &[u8],
) -> Result<bool, NoMemory> {
    match driver {
        Driver::Machine {
            machine,
            limits,
            anew,
        } => { answer_step(alloc, limits, *anew, machine, text, line) }
        Driver::Hub(hub) => answer_event(alloc, text, hub, words_of(line)),
    }
}

// The step of a line.
fn answer_step(
    alloc: Global,
    limits: &Limits,
    anew: bool,
    machine: &mut Machine,
    text: &mut Vec<u8>,
    line: &[u8],
) -> Result<bool, NoMemory> {
    match answer_by(alloc, limits, anew, machine, line)? {
        Some(body) => add_line(text, &body),
        None => Ok(false),
    }
}

// Adds a line.
fn add_line(text: &mut Vec<u8>, line: &str) -> Result<bool, NoMemory> {
    text.extend_from_slice(line.as_bytes())?;
    text.push(b'\n')?;
    Ok(true)
}

// The event of a line, or that the open connections are to be shown.
fn answer_event(
    alloc: Global,
    text: &mut Vec<u8>,
    hub: &mut Hub,
    words: LineWords<'_>,
) -> Result<bool, NoMemory> {
    if let Some(count) = read_show(words) {
        show(alloc, text, hub, count)?;
        return Ok(true);
    }
    match read_piece(alloc, words)? {
        Some(piece) => handle(alloc, text, hub, words, &piece),
        None => Ok(false),
    }
}

// Hands the hub the event of a line, with its piece. Returns whether the line says one.
fn handle(
    alloc: Global,
    text: &mut Vec<u8>,
    hub: &mut Hub,
    words: LineWords<'_>,
    piece: &[u8],
) -> Result<bool, NoMemory> {
    let Some((moment, event)) = read_event(words, piece) else {
        return Ok(false);
    };
    let came = hub.handle(moment, event);
    tell(alloc, text, hub, came)?;
    Ok(true)
}
