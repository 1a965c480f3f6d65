//! Reads the whole input of a run.
ghost use Rattle.std.specs.Prelude.{◌≡◌, ◌≤◌, vec_len, IfErr, IfOk, IfSome, OnOk};
ghost use Rattle.rv_frame.specs.Source.{source_remaining};
ghost use Rattle.rv_run.specs.Input.{GaveBefore, ReadsAll, StopsReading, max_input};

use crate::fault::RunFault;
use rv_frame::Source;
use std::alloc::Global;
use std::io::Read;

// The most bytes of an input: 512 MiB.
const MAX_INPUT_BYTES: usize = 536_870_912;

// How many bytes are asked for at a time.
const PIECE_BYTES: usize = 65_536;

/// Reads all the bytes that the source has left. It is a fault if they are more than 536,870,912, if memory
/// was refused, and if a read failed. It asks for 65,536 at a time, and for none after the piece that passes
/// the limit.
pub fn read_input<R: Read>(alloc: Global, source: &mut Source<R>) -> Result<Vec<u8>, RunFault>
    ensures bytes { IfOk result (λ input.
        IfSome (source_remaining R.remaining source.old) (λ bytes. input.items ≡ bytes)) }
    ensures within { IfOk result (λ input. vec_len input ≤ max_input) }
    ensures all { OnOk result (ReadsAll R.remaining source.old source.new) }
    ensures fault { IfErr result (StopsReading R.remaining source.old source.new) }
    ensures gave { IfErr result (GaveBefore R.remaining source.old source.new) }
{
    let mut input = Vec::new(alloc);
    let mut piece = [0u8; PIECE_BYTES];
    loop {
        let count = source.read(&mut piece)?;
        if count == 0 {
            return Ok(input);
        }
        if count > MAX_INPUT_BYTES - input.len() {
            return Err(RunFault::TooLong);
        }
        input.extend_from_slice(&piece[..count])?;
    }
}
