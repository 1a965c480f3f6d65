//! Runs the book over a whole input, and prints one body for each line.
ghost use Rattle.std.specs.Prelude.{◌≡◌, ◌≤◌, [], length, Err, IfErr, OnOk};
ghost use Rattle.rv_text.specs.Limits.{FitsIdentifier};
ghost use Rattle.rv_frame.specs.Sink.{FailsWithSink};
ghost use Rattle.rv_run.specs.Output.{gathered_bytes, taken_in};
ghost use Rattle.rv_run.specs.turns.Outcomes.{FailedReading, FoundTooLong, LackedMemory, Ran};
ghost use Rattle.rv_run.specs.turns.Outcomes.{SendsAll, SendsFront, StoppedWriting, max_input};
ghost use Rattle.rv_run.specs.turns.Unanswered.{unanswered};

use crate::fault::RunFault;
use crate::input::read_input;
use crate::output::{Output, OutputFault};
use crate::turns::turn::answer_line;
use crate::turns::unanswered::Unanswered;
use rv_book::Book;
use rv_book::lines::first_line;
use rv_frame::{Sink, Source};
use std::alloc::Global;
use std::io::{Read, Write};

/// Opens the book of this epoch at moment 0, hands it the source's lines, and writes one body and LF to the
/// sink for each.
///
/// A line is a moment of 1 to 19 digits, one space and a message's body. It is answered with the body of the
/// book's answer, a line of another form with that of refusal 1, and a line for which memory was refused with
/// that of refusal 11; and the run goes on. Lines end with LF, which the last one may lack.
///
/// The whole input is read before the first line is looked at, and is freed as its lines are answered. A read
/// fault, an input that is too long, and a refusal of memory that ends the run come before anything is
/// written. Write faults may come at any line.
pub fn book_run<R: Read, W: Write>(
    alloc: Global,
    source: &mut Source<R>,
    sink: &mut Sink<W>,
    epoch: u64,
) -> Result<(), RunFault>
    requires { FitsIdentifier epoch }

    // All lines of an input that keeps the limit are answered, by one run of the book.
    ensures ran { OnOk result
        (Ran R.remaining W.contents epoch source.old source.new sink.old sink.new) }

    // Exactly the first `sent` bytes of such an output went out, and not all.
    ensures stopped_writing { (fault : _) → result ≡ Err (RunFault.WriteFault fault) →
        StoppedWriting R.remaining W.contents epoch source.old source.new sink.old sink.new fault.sent }

    // The other faults write nothing.
    ensures failed_reading { result ≡ Err RunFault.ReadFault →
        FailedReading source.new sink.old sink.new }
    ensures found_too_long { result ≡ Err RunFault.TooLong →
        FoundTooLong R.remaining source.old source.new sink.old sink.new }
    ensures lacked_memory { result ≡ Err RunFault.NoMemory →
        LackedMemory source.new sink.old sink.new }
{
    let bytes = read_input(alloc, source)?;
    let mut input = Unanswered::new(bytes);
    let mut output = Output::new(alloc)?;
    let mut book = Book::open(alloc, epoch, 0)?;
    Ok(answer_lines(alloc, &mut book, &mut input, &mut output, sink)?)
}

// Answers each line of the input, and sends all that was gathered. What was answered is freed.
fn answer_lines<W: Write>(
    alloc: Global,
    book: &mut Book,
    input: &mut Unanswered,
    output: &mut Output,
    sink: &mut Sink<W>,
) -> Result<(), OutputFault>
    requires within { length (unanswered input.old) ≤ max_input }
    requires nothing_gathered { gathered_bytes output.old ≡ [] }
    requires nothing_sent { taken_in output.old ≡ 0 }
    ensures all { OnOk result (SendsAll W.contents book.old (unanswered input.old) sink.old sink.new) }
    ensures part { IfErr result (λ fault.
        SendsFront W.contents book.old (unanswered input.old) sink.old sink.new fault.sent) }
    ensures told { FailsWithSink result sink.old sink.new }
{
    while let Some((line, after)) = first_line(input.rest()) {
        let left = after.len();
        let body = answer_line(alloc, book, line);
        output.line(sink, body.as_bytes())?;
        input.keep_last(left);
    }
    output.flush(sink)
}
