//! Makes the calls of a whole input, and keeps a record of the replies: an entry for each settled call.
ghost use Rattle.std.specs.Prelude.{◌≡◌, ◌≤◌, ◌<◌, ◌+◌, ◌++◌, ◌∷◌, ◌^◌, ℕ, [], IfErr, IfOk, List, OnOk, Some};
ghost use Rattle.std.specs.Prelude.{length, string_bytes};
ghost use Rattle.rv_text.specs.Bodies.{HasBodyLength};
ghost use Rattle.rv_text.specs.Limits.{FitsIdentifier};
ghost use Rattle.rv_client.specs.Link.{Link, link};
ghost use Rattle.rv_client.specs.Process.{Starting, first_key};
ghost use Rattle.rv_book.specs.lines.Lines.{lines};
ghost use Rattle.rv_run.specs.Input.{max_input};
ghost use Rattle.rv_run.specs.Output.{IsShortText};
ghost use Rattle.rv_run.specs.calls.Calling.{HasNumbers, IsWelcomed};
ghost use Rattle.rv_run.specs.calls.CallRuns.{TakesText};
ghost use Rattle.rv_run.specs.calls.EndWord.{word_text};
ghost use Rattle.rv_run.specs.calls.Records.{RecordsCalls, RecordsRun, SaysWord, StopsEntry, TellsCall};
ghost use Rattle.rv_run.specs.calls.Records.{outlets, record_text};

use crate::calls::client::{Caller, Halt};
use crate::calls::end_word::EndWord;
use crate::calls::{CallSaid, print_word, with_lf, write_line};
use crate::fault::RunFault;
use crate::input::read_input;
use rv_book::lines::first_line;
use rv_client::{Idle, New};
use rv_frame::{Sink, Source, WriteFault};
use rv_text::{NoMemory, Version};
use std::alloc::{AllocError, Global};
use std::io::{Read, Write};
use thiserror::Error;

/// The reason why the record lacks the entry of a settled call.
#[derive(Clone, Copy, Debug, Error)]
pub enum RecordFault {
    /// A write of the entry failed, after so many of its bytes.
    #[error("a write failed after {0} bytes of a line")]
    WriteFault(usize),
    /// Memory for the entry was refused.
    #[error("no memory for a line")]
    NoMemory,
}

impl From<WriteFault> for RecordFault {
    ghost use Rattle.rv_run.specs.declared.calls.recording.RecordFault.TheVariants as fails;

    ghost from_gives = { λ cause fault. fault ≡ fails.WriteFault cause.sent };

    fn from(fault: WriteFault) -> RecordFault {
        RecordFault::WriteFault(fault.sent)
    }
}

impl From<AllocError> for RecordFault {
    ghost use Rattle.rv_run.specs.declared.calls.recording.RecordFault.TheVariants as fails;

    ghost from_gives = { λ _ fault. fault ≡ fails.NoMemory };

    fn from(_error: AllocError) -> RecordFault {
        RecordFault::NoMemory
    }
}

/// The reason why a run of calls that keeps a record ended early.
#[derive(Clone, Copy, Debug, Error)]
pub enum RecordingFault {
    /// That of a run without a record.
    #[error("{0}")]
    Run(RunFault),
    /// The record lacks the entry of the last settled call.
    #[error("{0}")]
    Record(RecordFault),
}

impl From<RunFault> for RecordingFault {
    ghost use Rattle.rv_run.specs.declared.calls.recording.RecordingFault.TheVariants.{Run};

    ghost from_gives = { λ cause fault. fault ≡ Run cause };

    fn from(fault: RunFault) -> RecordingFault {
        RecordingFault::Run(fault)
    }
}

/// Says hello and makes the calls that the lines say, as [`call_run`](crate::calls::call_run) does. For each
/// call that is settled it writes an entry to the record, in one piece: `{"asked":B,"told":B}` and LF, with
/// the bodies of the request and of the reply's answer. The entry goes out before the answer's body is
/// printed.
///
/// However the run ends, the record has the entries of all printed replies, and of one more if that one's
/// printing failed. A [`RecordingFault::Record`] ends the run at a reply without its entry, a part of which
/// may have gone out. That reply is printed, if the output doesn't fail too. A word has no entry.
pub fn record_run<L: Read, O: Write, R: Read, W: Write, F: Write>(
    alloc: Global,
    lines: &mut Source<L>,
    out: &mut Sink<O>,
    from: &mut Source<R>,
    to: &mut Sink<W>,
    file: &mut Sink<F>,
    client: u64,
    incarnation: u64,
    version: Version,
    tries: u32,
) -> Result<CallSaid, RecordingFault>
    requires client { FitsIdentifier client }
    requires incarnation { FitsIdentifier incarnation }
    ensures { RecordsRun L.remaining O.contents R.remaining W.contents F.contents
        (record { client = client; incarnation = incarnation; version = version }) tries lines.old lines.new
        (link from.old to.old) (link from.new to.new) (outlets out.old file.old) (outlets out.new file.new)
        result }
{
    let input = read_input(alloc, lines)?;
    let caller = Caller { alloc, tries };
    match caller.say_hello(New::start(client, incarnation, version), from, to) {
        Ok(idle) => record_lines(caller, idle, &input, out, from, to, file),
        Err(word) => say_word(alloc, word, out, 0),
    }
}

// Makes the call of each line, writes its entry, and prints its text.
fn record_lines<O: Write, R: Read, W: Write, F: Write>(
    caller: Caller,
    idle: Idle,
    input: &[u8],
    out: &mut Sink<O>,
    from: &mut Source<R>,
    to: &mut Sink<W>,
    file: &mut Sink<F>,
) -> Result<CallSaid, RecordingFault>
    requires within { length input.now ≤ max_input }
    requires numbers { HasNumbers idle (length input.now) }
    ensures { (starting : Starting) (epoch : ℕ) (before : Link R W)
        → IsWelcomed R.remaining W.contents starting caller.tries epoch before (link from.old to.old)
        → idle ≡ Some (first_key starting epoch)
        → RecordsCalls O.contents R.remaining W.contents F.contents starting caller.tries (lines input.now)
        before (link from.new to.new) (outlets out.old file.old) (outlets out.new file.new) result }
{
    let mut idle = idle;
    let mut printed = 0;
    let mut rest = input;
    while let Some((line, after)) = first_line(rest) {
        match caller.ask_line(idle, line, from, to) {
            Ok((next, asked, told)) => {
                printed = tell_call(caller.alloc, &asked, told, printed, out, file)?;
                idle = next;
                rest = after;
            }
            Err(Halt::Word(word)) => return say_word(caller.alloc, word, out, printed),
            Err(Halt::NoMemory) => return Err(RecordingFault::Run(RunFault::NoMemory)),
        }
    }
    Ok(CallSaid::Whole)
}

// Writes the entry of a settled call, then prints its text after so many bytes, and returns how many there
// are then. If memory is refused for the text, that is before the entry goes out.
fn tell_call<O: Write, F: Write>(
    alloc: Global,
    asked: &str,
    told: String,
    printed: u64,
    out: &mut Sink<O>,
    file: &mut Sink<F>,
) -> Result<u64, RecordingFault>
    requires short { IsShortText told }
    requires countable { printed < 2 ^ 63 }
    ensures { TellsCall O.contents F.contents (record_text asked.now (string_bytes told)) (string_bytes told)
        printed (outlets out.old file.old) (outlets out.new file.new) result }
{
    let entry = entry_text(alloc, asked, told.as_str());
    match with_lf(told) {
        Ok(line) => write_call(entry, line.as_str(), printed, out, file),
        Err(_) => Err(RecordingFault::Run(RunFault::NoMemory)),
    }
}

// Writes the entry of a settled call, if there was memory for it, and then the line of its text, whatever
// came of the entry.
fn write_call<O: Write, F: Write>(
    entry: Result<String, NoMemory>,
    line: &str,
    printed: u64,
    out: &mut Sink<O>,
    file: &mut Sink<F>,
) -> Result<u64, RecordingFault>
    requires short { length line.now ≤ 65727 }
    requires countable { printed < 2 ^ 63 }
    ensures { (recorded text : List ℕ) → IfOk entry (λ e. string_bytes e ≡ recorded ++ 10 ∷ [])
        → line.now ≡ text ++ 10 ∷ [] → TellsCall O.contents F.contents recorded text printed
        (outlets out.old file.old) (outlets out.new file.new) result }
{
    match write_entry(file, entry) {
        Ok(()) => match write_line(out, line, printed) {
            Ok(count) => Ok(count),
            Err(fault) => Err(RecordingFault::Run(RunFault::WriteFault(fault))),
        },
        Err(fault) => {
            let _ = write_line(out, line, printed);
            Err(RecordingFault::Record(fault))
        }
    }
}

// The entry of a call, with LF.
fn entry_text(alloc: Global, asked: &str, told: &str) -> Result<String, NoMemory>
    ensures { IfOk result (λ text. string_bytes text ≡ record_text asked.now told.now ++ 10 ∷ []) }
{
    format!(in alloc; "{{\"asked\":{asked},\"told\":{told}}}\n")
}

// Writes an entry in one piece, if there was memory for it.
fn write_entry<F: Write>(
    file: &mut Sink<F>,
    entry: Result<String, NoMemory>,
) -> Result<(), RecordFault>
    ensures took { (text : List ℕ) → IfOk entry (λ e. string_bytes e ≡ text ++ 10 ∷ [])
        → OnOk result (TakesText F.contents text file.old file.new) }
    ensures stops { (text : List ℕ) → IfOk entry (λ e. string_bytes e ≡ text ++ 10 ∷ [])
        → IfErr result (λ fault. StopsEntry F.contents text fault file.old file.new) }
{
    file.write_all(entry?.as_bytes())?;
    Ok(())
}

// Prints the word that ends the run, after so many bytes.
fn say_word<O: Write>(
    alloc: Global,
    word: EndWord,
    out: &mut Sink<O>,
    printed: u64,
) -> Result<CallSaid, RecordingFault>
    requires { printed < 2 ^ 63 }
    ensures { SaysWord O.contents (word_text word) printed out.old out.new result }
{
    match print_word(alloc, word, out, printed) {
        Ok(said) => Ok(said),
        Err(fault) => Err(RecordingFault::Run(fault)),
    }
}
