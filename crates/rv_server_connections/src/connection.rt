//! One connection: the bytes of its input that weren't taken as a frame yet, and those of its answers that
//! its peer hasn't taken.
ghost use Rattle.std.specs.Prelude.{◌≡◌};

mod answers;
mod buffers;
pub mod laws;
mod unread;

use crate::connection::buffers::Buffers;
use std::alloc::Global;
use std::marker::Model;
pub use unread::Coming;

/// A growth of memory was refused.
pub type NoMemory = rv_frame::NoMemory;

/// The frame that an answer is given to.
#[derive(Clone, Copy)]
pub enum AnswerTo {
    /// The unread one, which is due: it is taken.
    Unread,
    /// The one that was taken before, whose answer is owed.
    Taken,
}

/// One connection: the bytes of its input that weren't taken as a frame yet, one frame at most, and the bytes
/// of answers that its peer hasn't taken. The answers before the first that rests on an unwritten entry may
/// leave.
///
/// A frame is taken only while no earlier answer is owed and at most 65,534 bytes of answers are held, so no
/// more than 131,071 are ever held. Contracts see a connection as its `Traffic`. What came, was answered and
/// left since it was opened is a `History`, which each call keeps (`laws`).
#[derive(Drop)]
pub struct Wire {
    buffers: Buffers,
}

impl Model for Wire {
    ghost use Rattle.rv_server_connections.specs.connection.Traffic.{Traffic};

    ghost Value = { Traffic };

    ghost use Rattle.rv_server_connections.specs.connection.Fields.{IsSoundWire, traffic_of};

    ghost view = { λ c. traffic_of c.buffers };

    ghost invariant = { λ c. IsSoundWire c.buffers };
}

impl Wire {
    ghost use Rattle.std.specs.Prelude.{◌≤◌, ◌↔◌, ◌⊎◌, length, IfNone, IfOk, IfSome, IsTrue, OnErr, OnOk};
    ghost use Rattle.std.specs.Bool.{OnFalse, OnTrue};
    ghost use Rattle.rv_frame.specs.Cut.{IsFrameBody, IsUnfinished, frame_bytes};
    ghost use Rattle.rv_server_connections.specs.connection.Traffic.{IsBad, IsDue, IsFinished, IsComing};
    ghost use Rattle.rv_server_connections.specs.connection.Traffic.{IsWholeFrame, MayOffer};
    ghost use Rattle.rv_server_connections.specs.connection.Traffic.{first_rests_on, held_count};
    ghost use Rattle.rv_server_connections.specs.connection.Steps.{AnswersBy, CanAnswer, HoldsBack, Releases};
    ghost use Rattle.rv_server_connections.specs.connection.Steps.{TakesIn, fresh_traffic, input_ended};
    ghost use Rattle.rv_server_connections.specs.connection.Steps.{left_by, owing, taken};

    /// A connection with no input yet. It takes no memory yet.
    pub fn new(alloc: Global) -> Wire
        ensures { result ≡ fresh_traffic }
    {
        Wire {
            buffers: Buffers::new(alloc),
        }
    }

    /// Takes bytes of a piece of its input, and gives how many: all, or as many as end the unread frame or
    /// show that its length is bad. If memory for them is refused, nothing changes.
    pub fn take_in(&mut self, piece: &[u8]) -> Result<usize, NoMemory>
        ensures takes { IfOk result (λ count. TakesIn self.old piece.now count self.new) }
        ensures refused { OnErr result (self.new ≡ self.old) }
    {
        self.buffers.take_in(piece)
    }

    /// What the unread bytes are.
    pub fn unread(&self) -> Coming<'_>
        ensures { IsComing self.now.unread result }
    {
        self.buffers.unread()
    }

    /// Whether it takes more bytes of its input: neither a whole frame is unread nor a bad length.
    pub fn takes_more(&self) -> bool
        ensures more { OnTrue result (IsUnfinished self.now.unread) }
        ensures no_more { OnFalse result (IsWholeFrame self.now.unread ⊎ IsBad self.now.unread) }
    {
        match self.buffers.unread() {
            Coming::Part => true,
            Coming::Frame(_) => false,
            Coming::BadLength => false,
        }
    }

    /// The body of the unread frame, if it is to be answered now.
    pub fn next(&self) -> Option<&[u8]>
        ensures due { IfSome result (λ body. IsDue self.now) }
        ensures body { IfSome result (λ body. IsFrameBody body.now
            × (self.now.unread ≡ frame_bytes body.now)) }
        ensures none { IfNone result (¬ IsDue self.now) }
    {
        self.buffers.next()
    }

    /// Takes the unread frame, whose answer is then owed.
    pub fn take_frame(&mut self)
        requires { IsDue self.old }
        ensures { self.new ≡ taken self.old }
    {
        self.buffers.take_frame()
    }

    /// Gives an answer, by its body, after all that is held. It rests on so many entries, and so many are
    /// written. If memory for it is refused nothing changes.
    pub fn answer(
        &mut self,
        to: AnswerTo,
        written: u64,
        entries: u64,
        body: &[u8],
    ) -> Result<(), NoMemory>
        requires can { CanAnswer to self.old }
        requires held_back { HoldsBack written self.old.behind }
        requires fits { IsFrameBody body.now }
        ensures answers { OnOk result (AnswersBy written (owing to self.old) entries body.now self.new) }
        ensures refused { OnErr result (self.new ≡ self.old) }
    {
        self.buffers.answer(to, written, entries, body)
    }

    /// Releases the answers that rest on no more entries than are written.
    pub fn release(&mut self, written: u64)
        ensures { Releases written self.old self.new }
    {
        self.buffers.release(written)
    }

    /// How many entries must be written before any of the bytes that may not leave yet may do so, if there
    /// are such bytes.
    pub fn waits_for(&self) -> Option<u64>
        ensures { result ≡ first_rests_on self.now.behind }
    {
        self.buffers.answers.waits_for()
    }

    /// The bytes that may leave.
    pub fn ready(&self) -> &[u8]
        ensures { result.now ≡ self.now.ready }
    {
        self.buffers.answers.ready()
    }

    /// So many of the bytes that may leave have left.
    pub fn took(&mut self, count: usize)
        requires { count ≤ length self.old.ready }
        ensures { self.new ≡ left_by self.old count }
    {
        self.buffers.took(count)
    }

    /// Its input has ended.
    pub fn end_input(&mut self)
        ensures { self.new ≡ input_ended self.old }
    {
        self.buffers.end_input()
    }

    /// Whether an answer is owed.
    pub fn owes(&self) -> bool
        ensures { result ≡ self.now.owes }
    {
        self.buffers.owes
    }

    /// Whether its input has ended.
    pub fn has_ended(&self) -> bool
        ensures { result ≡ self.now.ended }
    {
        self.buffers.ended
    }

    /// How many bytes are unread.
    pub fn unread_count(&self) -> usize
        ensures { result ≡ length self.now.unread }
    {
        self.buffers.unread.len()
    }

    /// How many bytes of answers are held.
    pub fn held(&self) -> usize
        ensures count { result ≡ held_count self.now }
        ensures within { result ≤ 131071 }
    {
        self.buffers.held()
    }

    /// Whether more of its input may be offered.
    pub fn may_offer(&self) -> bool
        ensures { IsTrue result ↔ MayOffer self.now }
    {
        self.buffers.may_offer()
    }

    /// Whether it is to be closed.
    pub fn is_finished(&self) -> bool
        ensures { IsTrue result ↔ IsFinished self.now }
    {
        self.buffers.is_finished()
    }
}
