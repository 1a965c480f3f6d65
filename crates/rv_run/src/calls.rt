//! The calls of a whole input over a link: a client that says hello, makes the call of each line, and may
//! keep a record of the replies.
ghost use Rattle.std.specs.Prelude.{◌≡◌, ◌≤◌, ◌<◌, ◌+◌, ◌++◌, ◌∷◌, ◌^◌, ◌⊎◌, ℕ, List, [], length, false};
ghost use Rattle.std.specs.Prelude.{Err, IfErr, IfOk, Ok, OnOk, Some, string_bytes, true};
ghost use Rattle.rv_text.specs.Limits.{FitsIdentifier};
ghost use Rattle.rv_frame.specs.Source.{source_failed};
ghost use Rattle.rv_client.specs.Link.{Link, link};
ghost use Rattle.rv_client.specs.Process.{Starting, first_key};
ghost use Rattle.rv_run.specs.calls.Calling.{HasNumbers, IsWelcomed};
ghost use Rattle.rv_run.specs.calls.CallRuns.{CutsText, DidNothing, RanCalls, RunsCalls, StopsText};
ghost use Rattle.rv_run.specs.calls.CallRuns.{TakesText};
ghost use Rattle.rv_book.specs.lines.Lines.{lines};
ghost use Rattle.rv_run.specs.Input.{FoundTooLong, max_input};
ghost use Rattle.rv_run.specs.Output.{IsShortText};
ghost use Rattle.rv_run.specs.calls.EndWord.{word_text};

mod client;
mod end_word;
mod recording;

use crate::calls::client::{Caller, Halt};
use crate::calls::end_word::EndWord;
use crate::fault::RunFault;
use crate::input::read_input;
use crate::output::OutputFault;
pub use recording::{RecordFault, RecordingFault, record_run};
use rv_book::lines::first_line;
use rv_client::{Idle, New};
use rv_frame::{Sink, Source};
use rv_text::{NoMemory, Version};
use std::alloc::Global;
use std::io::{Read, Write};

/// The end of a run of calls.
#[derive(Clone, Copy)]
pub enum CallSaid {
    /// The call of each line was settled.
    Whole,
    /// The last line that was printed is a word, and no call was made after it.
    Stopped,
}

/// Says hello over a link, makes the calls that the lines say, one after the other, and writes the body of
/// the reply's answer and LF to `out` for each as soon as it is settled. The client and its incarnation keep
/// their limits, and the hello asks for the version. Hello is said, and each request asked, at most `tries`
/// times.
///
/// All lines are read before hello is said. A read fault, an input that is too long, or a refusal of memory
/// up to there comes before anything is asked or written. A line that cannot be settled ends the run, with
/// one word after the lines that were: `refused N` and `not welcome` at the hello; `unsettled NUMBER` if
/// nothing final was heard, and the request is given up; `epoch ended CURRENT`; `replaced CURRENT`; and `bad
/// line` if the line says no call. Lines end with LF, which the last one may lack.
///
/// [`RunFault::WriteFault`] is a fault of `out` alone; a fault of the link is reported by the word. If memory
/// is refused for reading a line, for its text or for a word, the run ends after whole lines, each that of a
/// settled call. A line that was not read was not asked for; one whose text found no memory was settled.
pub fn call_run<L: Read, O: Write, R: Read, W: Write>(
    alloc: Global,
    lines: &mut Source<L>,
    out: &mut Sink<O>,
    from: &mut Source<R>,
    to: &mut Sink<W>,
    client: u64,
    incarnation: u64,
    version: Version,
    tries: u32,
) -> Result<CallSaid, RunFault>
    requires client { FitsIdentifier client }
    requires incarnation { FitsIdentifier incarnation }

    // Each line of an input that keeps the limit is settled and has its text, or a word ends the run.
    ensures ran { IfOk result (λ said. RanCalls L.remaining O.contents R.remaining W.contents
        (record { client = client; incarnation = incarnation; version = version }) tries lines.old lines.new
        (link from.old to.old) (link from.new to.new) out.old out.new (Ok said)) }

    // Exactly the first `sent` bytes of such lines went out, and not the whole of the last.
    ensures stopped_writing { (fault : _) → result ≡ Err (RunFault.WriteFault fault) →
        RanCalls L.remaining O.contents R.remaining W.contents
        (record { client = client; incarnation = incarnation; version = version }) tries lines.old lines.new
        (link from.old to.old) (link from.new to.new) out.old out.new (Err (RunFault.WriteFault fault)) }

    // After lines that were settled and have their texts, a line was not read, or the next text not made; or
    // nothing was done.
    ensures lacked_memory { result ≡ Err RunFault.NoMemory →
        ((source_failed lines.new ≡ false)
        × DidNothing (link from.old to.old) (link from.new to.new) out.old out.new)
        ⊎ RanCalls L.remaining O.contents R.remaining W.contents
        (record { client = client; incarnation = incarnation; version = version }) tries lines.old lines.new
        (link from.old to.old) (link from.new to.new) out.old out.new (Err RunFault.NoMemory) }

    // The other faults write nothing and ask nothing.
    ensures failed_reading { result ≡ Err RunFault.ReadFault → (source_failed lines.new ≡ true)
        × DidNothing (link from.old to.old) (link from.new to.new) out.old out.new }
    ensures found_too_long { result ≡ Err RunFault.TooLong →
        FoundTooLong L.remaining lines.old lines.new out.old out.new
        × DidNothing (link from.old to.old) (link from.new to.new) out.old out.new }
{
    let input = read_input(alloc, lines)?;
    let caller = Caller { alloc, tries };
    match caller.say_hello(New::start(client, incarnation, version), from, to) {
        Ok(idle) => call_lines(caller, idle, &input, out, from, to),
        Err(word) => print_word(alloc, word, out, 0),
    }
}

// Makes the call of each line, and prints its text.
fn call_lines<O: Write, R: Read, W: Write>(
    caller: Caller,
    idle: Idle,
    input: &[u8],
    out: &mut Sink<O>,
    from: &mut Source<R>,
    to: &mut Sink<W>,
) -> Result<CallSaid, RunFault>
    requires within { length input.now ≤ max_input }
    requires numbers { HasNumbers idle (length input.now) }
    ensures { (starting : Starting) (epoch : ℕ) (before : Link R W)
        → IsWelcomed R.remaining W.contents starting caller.tries epoch before (link from.old to.old)
        → idle ≡ Some (first_key starting epoch)
        → RunsCalls O.contents R.remaining W.contents starting caller.tries (lines input.now)
        before (link from.new to.new) out.old out.new result }
{
    let mut idle = idle;
    let mut printed = 0;
    let mut rest = input;
    while let Some((line, after)) = first_line(rest) {
        match caller.call_line(idle, line, from, to) {
            Ok((next, text)) => {
                printed = print_line(out, text, printed)?;
                idle = next;
                rest = after;
            }
            Err(Halt::Word(word)) => return print_word(caller.alloc, word, out, printed),
            Err(Halt::NoMemory) => return Err(RunFault::NoMemory),
        }
    }
    Ok(CallSaid::Whole)
}

// Prints the word that ends the run, after so many bytes.
pub(crate) fn print_word<O: Write>(
    alloc: Global,
    word: EndWord,
    out: &mut Sink<O>,
    printed: u64,
) -> Result<CallSaid, RunFault>
    requires { printed < 2 ^ 63 }
    ensures said { IfOk result (λ said. said ≡ CallSaid.Stopped) }
    ensures took { OnOk result (TakesText O.contents (word_text word) out.old out.new) }
    ensures cut { IfErr result (StopsText O.contents (word_text word) printed out.old out.new) }
{
    let text = word.text(alloc)?;
    print_line(out, text, printed)?;
    Ok(CallSaid::Stopped)
}

// Prints a text and LF after so many bytes, in one write, and returns how many there are then.
fn print_line<O: Write>(out: &mut Sink<O>, text: String, printed: u64) -> Result<u64, RunFault>
    requires short { IsShortText text }
    requires countable { printed < 2 ^ 63 }
    ensures count { IfOk result (λ count. count ≡ printed + length (string_bytes text) + 1) }
    ensures took { OnOk result (TakesText O.contents (string_bytes text) out.old out.new) }
    ensures cut { IfErr result (StopsText O.contents (string_bytes text) printed out.old out.new) }
{
    let line = with_lf(text)?;
    match write_line(out, line.as_str(), printed) {
        Ok(count) => Ok(count),
        Err(fault) => Err(RunFault::WriteFault(fault)),
    }
}

// A text with LF.
pub(crate) fn with_lf(text: String) -> Result<String, NoMemory>
    ensures { IfOk result (λ line. string_bytes line ≡ string_bytes text ++ 10 ∷ []) }
{
    let mut line = text;
    line.push('\n')?;
    Ok(line)
}

// Writes a line with its LF after so many bytes, in one piece, and returns how many there are then.
pub(crate) fn write_line<O: Write>(
    out: &mut Sink<O>,
    line: &str,
    printed: u64,
) -> Result<u64, OutputFault>
    requires short { length line.now ≤ 65727 }
    requires countable { printed < 2 ^ 63 }
    ensures count { IfOk result (λ count. count ≡ printed + length line.now) }
    ensures took { (text : List ℕ) → line.now ≡ text ++ 10 ∷ []
        → OnOk result (TakesText O.contents text out.old out.new) }
    ensures cut { (text : List ℕ) → line.now ≡ text ++ 10 ∷ []
        → IfErr result (λ fault. CutsText O.contents text printed fault.sent out.old out.new) }
{
    match out.write_all(line.as_bytes()) {
        Ok(()) => Ok(printed + line.len() as u64),
        Err(fault) => Err(OutputFault {
            sent: printed as u128 + fault.sent as u128,
        }),
    }
}
