//! Cuts bytes that come in pieces into frames.
ghost use Rattle.std.specs.Prelude.{◌≡◌, ◌∷◌, [], Err, None, Ok};
ghost use Rattle.std.specs.Prelude.{IfOk, IfSome, IsErrOf, MatchOption, OnErr, OnOk};
ghost use Rattle.rv_frame.specs.Cut.{Bad, IsFrameBody, Open};
ghost use Rattle.rv_frame.specs.Stream.{Feeds, HasFed, IsOpen, rest_length};

use crate::held::Held;
use std::alloc::{AllocError, Global};
use std::marker::Model;
use thiserror::Error;

/// A growth of memory was refused.
pub type NoMemory = AllocError;

/// The reason why a piece is not taken.
#[derive(Clone, Copy, Debug, PartialEq, Eq, Error)]
pub enum FrameFault {
    /// Fault 1: two length bytes say 0. All other lengths are good.
    #[error("a frame has the bad length {0}")]
    BadLength(u16),
    /// Fault 2: a growth of memory was refused.
    #[error("out of memory")]
    NoMemory,
}

impl From<AllocError> for FrameFault {
    ghost use Rattle.std.specs.Prelude.{◌≡◌};
    ghost use Rattle.rv_frame.specs.declared.frames.FrameFault.TheVariants.{NoMemory};

    ghost from_gives = { λ _ fault. fault ≡ NoMemory };

    fn from(_refused: AllocError) -> FrameFault {
        FrameFault::NoMemory
    }
}

/// Frames out of bytes that are fed in pieces. A frame is a length, in two bytes with the greater part first,
/// and so many bytes of body: 1 to 65,535.
///
/// Contracts see the bodies of the whole frames that can still be taken, oldest first, and what follows
/// them: the bytes of a frame that is not whole, or the bad length that was met. The frames that were
/// taken and those that can still be are those of the cut of all bytes that were fed, whatever the pieces
/// (`laws::fed_is_cut`, `laws::taken_is_cut`).
///
/// The bytes that were not taken lie in one buffer, which grows at its end and is consumed from its front.
/// `feed` copies the piece and looks at the new frames alone; `next` copies the body, and moves nothing.
#[derive(Drop)]
pub struct Frames {
    held: Held,
}

impl Model for Frames {
    ghost use Rattle.rv_frame.specs.Stream.{Stream};

    ghost Value = { Stream };

    ghost use Rattle.rv_frame.specs.Held.{IsSoundHeld, stream_of};

    ghost view = { λ f. stream_of f.held };

    ghost invariant = { λ f. IsSoundHeld f.held };
}

impl Frames {
    /// Frames to which nothing was fed.
    pub fn new(alloc: Global) -> Frames
        ensures frames { result.frames ≡ [] }
        ensures end { result.end ≡ Open [] }
        ensures fed { HasFed [] [] result }
    {
        Frames {
            held: Held::new(alloc),
        }
    }

    /// Takes in a piece of the bytes, of any length.
    ///
    /// `BadLength(n)` comes exactly if the cut meets the length n. The frames before it stay and can be
    /// taken, the rest is dropped; all further pieces get this answer, and leave everything as it is. After
    /// `NoMemory` nothing has changed, and it never comes once a bad length was met.
    pub fn feed(&mut self, piece: &[u8]) -> Result<(), FrameFault>
        ensures fed { OnOk result (Feeds self.old piece.now self.new) }
        ensures open_end { OnOk result (IsOpen self.new.end) }

        // The frames before the bad length are fed too.
        ensures fed_before { (n : _) → result ≡ Err (FrameFault.BadLength n)
            → Feeds self.old piece.now self.new }
        ensures bad_length { (n : _) → result ≡ Err (FrameFault.BadLength n) → self.new.end ≡ Bad n }
        ensures told_again { (n : _) → self.old.end ≡ Bad n → IsErrOf result (FrameFault.BadLength n) }
        ensures no_memory { result ≡ Err FrameFault.NoMemory → self.new ≡ self.old }
    {
        self.held.feed(piece)
    }

    /// Takes the oldest whole frame, and gives its body; `None` if no whole frame is left. If memory for
    /// the body is refused, nothing changes.
    pub fn next(&mut self) -> Result<Option<Vec<u8>>, NoMemory>
        ensures oldest { IfOk result (λ taken. MatchOption taken (self.old.frames ≡ [])
            (λ body. self.old.frames ≡ body.items ∷ self.new.frames)) }
        ensures fits { IfOk result (λ taken. IfSome taken (λ body. IsFrameBody body.items)) }
        ensures end { self.new.end ≡ self.old.end }
        ensures none { result ≡ Ok None → self.new ≡ self.old }
        ensures refused { OnErr result (self.new ≡ self.old) }
    {
        self.held.next()
    }

    /// How many bytes were fed after the last whole frame; 0 once a bad length was met.
    pub fn rest(&self) -> usize
        ensures { result ≡ rest_length self.now.end }
    {
        self.held.rest()
    }
}
