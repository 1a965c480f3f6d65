//! Cuts the bytes of a file into lines, up to its first zero, and hands the lines on.
ghost use Rattle.std.specs.Prelude.{◌≡◌, ◌+◌, ◌<◌, ◌≤◌, ◌^◌, [], false, length, take, vec_len, IfErr};
ghost use Rattle.std.specs.Prelude.{OnOk};
ghost use Rattle.std.specs.List.{All};
ghost use Rattle.rv_journal.specs.Text.{before_zero, stored_lines, IsLines};
ghost use Rattle.rv_journal.specs.Cutter.{CutsOn, FailsWithoutDevice, RefusesOn, TakesOn};
ghost use Rattle.rv_journal.specs.Faults.{IfRefused};

use crate::fault::OpenFault;
use crate::reader::JournalReader;
use std::alloc::Global;

const LINE_FEED: u8 = 10;

// Where the last line ends of those before the first zero, and where that zero stands.
#[derive(Clone, Copy)]
struct TextEnds {
    lines: usize,
    text: usize,
}

fn ends_of(bytes: &[u8]) -> TextEnds
    ensures within { result.lines ≤ result.text }
    ensures inside { result.text ≤ length bytes.now }
    ensures lines { take result.lines bytes.now ≡ stored_lines bytes.now }
    ensures text { take result.text bytes.now ≡ before_zero bytes.now }
{
    let mut lines = 0;
    for (i, byte) in bytes.iter().enumerate() {
        if *byte == 0 {
            return TextEnds { lines, text: i };
        }
        if *byte == LINE_FEED {
            lines = i + 1;
        }
    }
    TextEnds {
        lines,
        text: bytes.len(),
    }
}

// The bytes of a file that are cut into lines.
#[derive(Drop)]
pub(crate) struct LineCutter {
    // how many bytes were handed on
    pub(crate) end: usize,
    // what stands after them
    rest: Vec<u8>,
    // whether a zero was found
    pub(crate) ended: bool,
}

impl LineCutter {
    // Before the first byte.
    pub(crate) fn new(alloc: Global) -> LineCutter
        ensures end { result.end ≡ 0 }
        ensures rest { result.rest.items ≡ [] }
        ensures ended { result.ended ≡ false }
    {
        LineCutter {
            end: 0,
            rest: Vec::new(alloc),
            ended: false,
        }
    }

    // Hands on the rest and these lines after it; without lines, nothing.
    fn take_lines<R: JournalReader>(
        &mut self,
        lines: &[u8],
        reader: &mut R,
    ) -> Result<(), OpenFault<R::Fault>>
        requires lines { IsLines lines.now }
        requires text { All (λ byte. 0 < byte) lines.now }
        requires going { self.old.ended ≡ false }
        requires fits { self.old.end + vec_len self.old.rest + length lines.now < 2 ^ 63 }
        ensures going { self.new.ended ≡ false }
        ensures cut { OnOk result (CutsOn (length lines.now) self.old self.new) }
        ensures taken { OnOk result (TakesOn R.takes lines.now self.old reader.old self.new reader.new) }
        ensures refused { IfErr result (λ fault.
            IfRefused fault (RefusesOn R.takes R.refuses lines.now self.old reader.old)) }
        ensures fault { FailsWithoutDevice result }
    {
        if lines.is_empty() {
            return Ok(());
        }
        self.rest.extend_from_slice(lines)?;
        if let Err(why) = reader.take(&self.rest) {
            return Err(OpenFault::Refused(why));
        }
        self.end += self.rest.len();
        self.rest.clear();
        Ok(())
    }

    // Cuts the next bytes of the file.
    pub(crate) fn take_piece<R: JournalReader>(
        &mut self,
        piece: &[u8],
        reader: &mut R,
    ) -> Result<(), OpenFault<R::Fault>>
        requires fits { self.old.end + vec_len self.old.rest + length piece.now < 2 ^ 63 }
        ensures cut { OnOk result (CutsOn (length piece.now) self.old self.new) }
        ensures taken { OnOk result (TakesOn R.takes piece.now self.old reader.old self.new reader.new) }
        ensures refused { IfErr result (λ fault.
            IfRefused fault (RefusesOn R.takes R.refuses piece.now self.old reader.old)) }
        ensures fault { FailsWithoutDevice result }
    {
        if self.ended {
            return Ok(());
        }
        let ends = ends_of(piece);
        self.take_lines(&piece[..ends.lines], reader)?;
        self.rest.extend_from_slice(&piece[ends.lines..ends.text])?;
        self.ended = ends.text < piece.len();
        Ok(())
    }
}
