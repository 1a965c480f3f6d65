//! Reads a checkpoint.
ghost use Rattle.std.specs.Prelude.{◌≡◌, [], ℕ, List, None, Ok, Some, IfOk, IfSome, false, true};
ghost use Rattle.rv_account.specs.state.State as states;
ghost use Rattle.rv_book.specs.lines.Lines.{lines};
ghost use Rattle.rv_checkpoint.specs.Reading.{GoesOnBy, HasBeenTold, SaysState, StopsAtNext};

use crate::fault::VerifyFault;
use crate::parts::{NextPart, next_line};
use rv_account::state::resume::Snapshot;
use rv_book::lines::LineFault;
use rv_checkpoint::CheckpointReader;
use std::alloc::Global;
use std::io::BufRead;

/// Reads a checkpoint from the lines of a reader, to its end: the state that they say, or `None` exactly if
/// they say none. The last line may lack its LF. It keeps the state, and one line at a time.
pub fn read_checkpoint<B: BufRead>(
    alloc: Global,
    reader: &mut B,
) -> Result<Option<Snapshot>, VerifyFault>
    ensures some { IfSome (B.remaining reader.old) (λ bytes. IfOk result (λ found.
        IfSome found (SaysState (lines bytes)))) }
    ensures none { (bytes : List ℕ) (s : states.State) → B.remaining reader.old ≡ Some bytes
        → result ≡ Ok None → ¬ SaysState (lines bytes) s }
{
    let mut said = CheckpointReader::new(alloc);
    let mut line = Vec::new(alloc);
    if take_lines(reader, &mut line, &mut said)? {
        Ok(said.finish())
    } else {
        Ok(None)
    }
}

// Takes each line of a reader, with room for one, and says whether a state's lines go on so.
fn take_lines<B: BufRead>(
    reader: &mut B,
    line: &mut Vec<u8>,
    said: &mut CheckpointReader,
) -> Result<bool, VerifyFault>
    requires { HasBeenTold [] said.old }
    ensures yes { (bytes : List ℕ) → B.remaining reader.old ≡ Some bytes → result ≡ Ok true
        → HasBeenTold (lines bytes) said.new }
    ensures no { (bytes : List ℕ) (s : states.State) → B.remaining reader.old ≡ Some bytes
        → result ≡ Ok false → ¬ SaysState (lines bytes) s }
{
    for _turn in 0..u64::MAX {
        match next_line(reader, line)? {
            NextPart::Line => {
                if !goes_on(said, line)? {
                    return Ok(false);
                }
            }
            NextPart::Piece => return goes_on(said, line),
            NextPart::End => return Ok(true),
        }
    }
    Err(VerifyFault::ReadFault)
}

// Takes a line, and says whether a state's lines go on so.
fn goes_on(said: &mut CheckpointReader, line: &[u8]) -> Result<bool, VerifyFault>
    ensures yes { result ≡ Ok true → GoesOnBy said.old line.now said.new }
    ensures no { result ≡ Ok false → StopsAtNext said.old line.now }
{
    match said.take(line) {
        Ok(()) => Ok(true),
        Err(LineFault::Bad) => Ok(false),
        Err(LineFault::NoMemory) => Err(VerifyFault::NoMemory),
    }
}
