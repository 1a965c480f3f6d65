//! The player: it acts out the events of an input in a network world, and prints one result for each line.
ghost use Rattle.std.specs.Prelude.{◌≡◌, ◌≤◌, [], length, Err, IfErr, OnOk};
ghost use Rattle.rv_run.specs.Input.{FailedReading, FoundTooLong, max_input};
ghost use Rattle.rv_run.specs.Output.{gathered_bytes, taken_in};
ghost use Rattle.rv_world.specs.parts.World.{first_world};
ghost use Rattle.rv_run.specs.play.Plays.{Played, PrintsAll, StoppedForMemory, StoppedPrinting, StopsPlaying};

mod event;
pub mod laws;
mod told;

use crate::fault::RunFault;
use crate::input::read_input;
use crate::output::Output;
use crate::play::told::play_line;
use rv_book::lines::first_line;
use rv_frame::{Sink, Source};
use rv_world::World;
use std::alloc::Global;
use std::io::{Read, Write};

/// Opens a world in epoch 1, gives it the events that the source's lines say, and writes one result and LF to
/// the sink for each line. The result of a line that says no event is *bad line*, that of a refused event the
/// refusal's number, and the run goes on. Lines end with LF, which the last one may lack.
///
/// The whole input is read before the first line is taken. So a read fault, an input that is too long, or a
/// refusal of memory up to there comes before anything is written. If memory for reading a line or for the
/// text of a result is refused, the run ends after the results of the lines before it. A write fault may come
/// at any line.
pub fn play_run<R: Read, W: Write>(
    alloc: Global,
    source: &mut Source<R>,
    sink: &mut Sink<W>,
) -> Result<(), RunFault>
    // Each line of an input that keeps the limit took its turn, and its text was printed.
    ensures played { OnOk result
        (Played R.remaining W.contents source.old source.new sink.old sink.new) }

    // Exactly the first `sent` bytes of the texts of some first turns went out, and not all.
    ensures stopped_writing { (fault : _) → result ≡ Err (RunFault.WriteFault fault) →
        StoppedPrinting R.remaining W.contents source.old source.new sink.old sink.new fault.sent }

    // The texts of some first turns went out, whole, or nothing.
    ensures lacked_memory { result ≡ Err RunFault.NoMemory →
        StoppedForMemory R.remaining W.contents source.old source.new sink.old sink.new }

    // The other faults write nothing.
    ensures failed_reading { result ≡ Err RunFault.ReadFault →
        FailedReading source.new sink.old sink.new }
    ensures found_too_long { result ≡ Err RunFault.TooLong →
        FoundTooLong R.remaining source.old source.new sink.old sink.new }
{
    let input = read_input(alloc, source)?;
    let mut world = World::open(alloc, 1)?;
    let mut output = Output::new(alloc)?;
    play_lines(alloc, &mut world, &input, &mut output, sink)
}

// Plays each line of the input, and sends all that was gathered.
fn play_lines<W: Write>(
    alloc: Global,
    world: &mut World,
    input: &[u8],
    output: &mut Output,
    sink: &mut Sink<W>,
) -> Result<(), RunFault>
    requires begins { world.old ≡ first_world 1 }
    requires within { length input.now ≤ max_input }
    requires nothing_gathered { gathered_bytes output.old ≡ [] }
    requires nothing_sent { taken_in output.old ≡ 0 }
    ensures all { OnOk result (PrintsAll W.contents input.now sink.old sink.new) }
    ensures part { IfErr result (StopsPlaying W.contents input.now sink.old sink.new) }
{
    let mut rest = input;
    while let Some((line, after)) = first_line(rest) {
        let Ok(text) = play_line(alloc, world, line) else {
            output.flush(sink)?;
            return Err(RunFault::NoMemory);
        };
        output.line(sink, text.as_bytes())?;
        rest = after;
    }
    Ok(output.flush(sink)?)
}
