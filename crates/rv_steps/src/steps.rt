//! The step of a line: its message is heard at its moment under limits, and its answer is written.
ghost use Rattle.std.specs.Prelude.{◌≡◌, IfOk};
ghost use Rattle.rv_text.specs.Limits.{FitsMessage};
ghost use Rattle.rv_account.specs.state.Moves.{Move, StateNextUnder};
ghost use Rattle.rv_machine.specs.Machines.{state_in};

use crate::answers::answer_of;
use rv_account::Entry;
use rv_account::rules::Limits;
use rv_book::lines::{LineFault, cut_at};
use rv_machine::Machine;
use rv_text::{
    Answer, BAD_TEXT_BODY, Key, Message, NO_MEMORY_BODY, NoMemory, decode_message, encode_answer,
    read_number,
};
use std::alloc::Global;

/// What a line made, except the requests that its message settled, which the machine has.
#[derive(Drop)]
pub(crate) struct Made {
    /// The entry of its tick.
    pub(crate) tick: Option<Entry>,
    /// Whom that settled.
    pub(crate) ended: Vec<Key>,
    /// The entry of its message.
    pub(crate) entry: Option<Entry>,
}

/// Makes the step of a line, and returns the body that answers it and what it made. A line of another form
/// than a moment of 1 to 19 digits, one space and a message's body makes nothing, and neither does one for
/// which memory was refused when it was read. The body says so for both.
pub(crate) fn answer_line(
    alloc: Global,
    limits: &Limits,
    machine: &mut Machine,
    line: &[u8],
) -> Result<(String, Option<Made>), NoMemory> {
    match read_line(alloc, line) {
        Ok((moment, message)) => {
            let (answer, made) = step(alloc, limits, machine, moment, message)?;
            Ok((encode_answer(alloc, &answer)?, Some(made)))
        }
        Err(LineFault::Bad) => Ok((String::from_str(alloc, BAD_TEXT_BODY)?, None)),
        Err(LineFault::NoMemory) => Ok((String::from_str(alloc, NO_MEMORY_BODY)?, None)),
    }
}

// The moment and the message that a line says.
fn read_line(alloc: Global, line: &[u8]) -> Result<(u64, Message), LineFault>
    ensures { IfOk result (λ said. FitsMessage said.1) }
{
    let (digits, body) = cut_at(b' ', line).ok_or(LineFault::Bad)?;
    let moment = read_number(digits).ok_or(LineFault::Bad)?;
    Ok((moment, decode_message(alloc, body)?))
}

// One step of the machine under limits, its answer, and what it made. If memory for these was refused, the
// step may have been made.
fn step(
    alloc: Global,
    limits: &Limits,
    machine: &mut Machine,
    now: u64,
    message: Message,
) -> Result<(Answer, Made), NoMemory>
    requires { FitsMessage message }
    ensures { IfOk result (λ out. (move : Move)
        × StateNextUnder limits.now (state_in machine.old) now message move
        × (out.0 ≡ move.answer) × (state_in machine.new ≡ move.after)) }
{
    let ticked = machine.elapse(now);
    let ended = machine.settled().to_vec(alloc)?;
    let heard = machine.hear(limits, ticked.moment, message);
    let answer = answer_of(alloc, machine, heard.said)?;
    let made = Made {
        tick: ticked.entry,
        ended,
        entry: heard.entry,
    };
    Ok((answer, made))
}
