//! The lines of an input, and how many of them were read.
ghost use Rattle.std.specs.Prelude.{◌≡◌, ◌+◌, IfSome, OnOk};
ghost use Rattle.std.specs.Io.BufRead.{first_piece};
ghost use Rattle.std.specs.Io.Iter.{YieldsKnownPiece, split_byte, split_known_bytes, u64_saturate};
ghost use Rattle.std.specs.Vec.{vec_items};

use std::alloc::Global;
use std::io::{self, BufRead, Split};

/// The lines that an input has left. A line ends before an LF, which is dropped, or with the input.
#[derive(Drop)]
pub(crate) struct LineInput<B> {
    pieces: Split<B>,
    read: u64,
    ghost at_lf: { split_byte pieces ≡ 10 },
}

impl<B: BufRead> LineInput<B>
where
    B: Drop,
{
    /// All lines of this input. None is read yet.
    pub(crate) fn new(alloc: Global, input: B) -> LineInput<B>
        ensures whole { split_known_bytes B.remaining result.pieces ≡ B.remaining input }
        ensures none_read { result.read ≡ 0 }
    {
        LineInput {
            pieces: input.split(alloc, b'\n'),
            read: 0,
        }
    }

    /// The next line, if there is one.
    pub(crate) fn next(&mut self) -> Option<io::Result<Vec<u8>>>
        ensures line { YieldsKnownPiece vec_items (first_piece 10) 10
            (split_known_bytes B.remaining self.old.pieces) result
            (split_known_bytes B.remaining self.new.pieces) }
        ensures count { IfSome result (λ line. OnOk line (self.new.read ≡ u64_saturate (self.old.read + 1))) }
    {
        let line = self.pieces.next();
        self.read = self.read.saturating_add(1);
        line
    }

    /// How many lines were read.
    pub(crate) fn count(&self) -> u64
        ensures { result ≡ self.now.read }
    {
        self.read
    }
}
