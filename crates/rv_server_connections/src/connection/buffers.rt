//! The fields of a connection, and what changes them together.
ghost use Rattle.std.specs.Prelude.{◌≡◌, ◌≤◌, ◌↔◌, false, length, IfNone, IfOk, IfSome, IsTrue};
ghost use Rattle.std.specs.Prelude.{OnErr, OnOk};
ghost use Rattle.rv_frame.specs.Cut.{IsFrameBody, frame_bytes};
ghost use Rattle.rv_server_connections.specs.connection.Traffic.{IsDue, IsFinished, IsComing, MayOffer};
ghost use Rattle.rv_server_connections.specs.connection.Traffic.{held_count, most_held};
ghost use Rattle.rv_server_connections.specs.connection.Steps.{AnswersBy, CanAnswer, HoldsBack, Releases};
ghost use Rattle.rv_server_connections.specs.connection.Steps.{TakesIn, fresh_traffic, input_ended, left_by};
ghost use Rattle.rv_server_connections.specs.connection.Steps.{owing, taken};
ghost use Rattle.rv_server_connections.specs.connection.Fields.{IsSoundWire, behind_in, ready_in, traffic_of};

use crate::connection::AnswerTo;
use crate::connection::answers::Outgoing;
use crate::connection::unread::{Coming, clear, told, wanted};
use rv_frame::NoMemory;
use std::alloc::Global;

// The most bytes of answers that may be held when a frame is taken.
const MOST_HELD: usize = 65_534;

// The fields of a connection.
#[derive(Drop)]
pub(crate) struct Buffers {
    pub(crate) unread: Vec<u8>,
    pub(crate) answers: Outgoing,
    pub(crate) owes: bool,
    pub(crate) ended: bool,
}

impl Buffers {
    pub(crate) fn new(alloc: Global) -> Buffers
        ensures sound { IsSoundWire result }
        ensures fresh { traffic_of result ≡ fresh_traffic }
    {
        Buffers {
            unread: Vec::new(alloc),
            answers: Outgoing::new(alloc),
            owes: false,
            ended: false,
        }
    }

    pub(crate) fn take_in(&mut self, piece: &[u8]) -> Result<usize, NoMemory>
        requires { IsSoundWire self.old }
        ensures sound { IsSoundWire self.new }
        ensures takes { IfOk result (λ count.
            TakesIn (traffic_of self.old) piece.now count (traffic_of self.new)) }
        ensures refused { OnErr result (traffic_of self.new ≡ traffic_of self.old) }
    {
        let count = wanted(&self.unread, piece);
        self.unread.extend_from_slice(&piece[..count])?;
        Ok(count)
    }

    pub(crate) fn unread(&self) -> Coming<'_>
        requires { IsSoundWire self.now }
        ensures { IsComing self.now.unread.items result }
    {
        told(&self.unread)
    }

    pub(crate) fn held(&self) -> usize
        requires { IsSoundWire self.now }
        ensures count { result ≡ held_count (traffic_of self.now) }
        ensures within { result ≤ 131071 }
    {
        self.answers.bytes.len()
    }

    // Whether no answer is owed, and few enough bytes are held to take a frame.
    fn may_take(&self) -> bool
        requires { IsSoundWire self.now }
        ensures { IsTrue result ↔ ((self.now.owes ≡ false) × (held_count (traffic_of self.now) ≤ most_held)) }
    {
        !self.owes && self.held() <= MOST_HELD
    }

    pub(crate) fn next(&self) -> Option<&[u8]>
        requires { IsSoundWire self.now }
        ensures due { IfSome result (λ body. IsDue (traffic_of self.now)) }
        ensures body { IfSome result (λ body. IsFrameBody body.now
            × (self.now.unread.items ≡ frame_bytes body.now)) }
        ensures none { IfNone result (¬ IsDue (traffic_of self.now)) }
    {
        if !self.may_take() {
            return None;
        }
        match self.unread() {
            Coming::Frame(body) => Some(body),
            Coming::Part => None,
            Coming::BadLength => None,
        }
    }

    pub(crate) fn take_frame(&mut self)
        requires sound { IsSoundWire self.old }
        requires due { IsDue (traffic_of self.old) }
        ensures sound { IsSoundWire self.new }
        ensures taken { traffic_of self.new ≡ taken (traffic_of self.old) }
    {
        clear(&mut self.unread);
        self.owes = true;
    }

    pub(crate) fn answer(
        &mut self,
        to: AnswerTo,
        written: u64,
        entries: u64,
        body: &[u8],
    ) -> Result<(), NoMemory>
        requires sound { IsSoundWire self.old }
        requires can { CanAnswer to (traffic_of self.old) }
        requires held_back { HoldsBack written (behind_in self.old.answers) }
        requires fits { IsFrameBody body.now }
        ensures sound { IsSoundWire self.new }
        ensures answers { OnOk result
            (AnswersBy written (owing to (traffic_of self.old)) entries body.now (traffic_of self.new)) }
        ensures refused { OnErr result (traffic_of self.new ≡ traffic_of self.old) }
    {
        self.answers.push(written, entries, body)?;
        match to {
            AnswerTo::Unread => clear(&mut self.unread),
            AnswerTo::Taken => self.owes = false,
        }
        Ok(())
    }

    pub(crate) fn release(&mut self, written: u64)
        requires { IsSoundWire self.old }
        ensures sound { IsSoundWire self.new }
        ensures releases { Releases written (traffic_of self.old) (traffic_of self.new) }
    {
        self.answers.release(written);
    }

    pub(crate) fn took(&mut self, count: usize)
        requires sound { IsSoundWire self.old }
        requires ready { count ≤ length (ready_in self.old.answers) }
        ensures sound { IsSoundWire self.new }
        ensures left { traffic_of self.new ≡ left_by (traffic_of self.old) count }
    {
        self.answers.took(count);
    }

    pub(crate) fn end_input(&mut self)
        requires { IsSoundWire self.old }
        ensures sound { IsSoundWire self.new }
        ensures ended { traffic_of self.new ≡ input_ended (traffic_of self.old) }
    {
        self.ended = true;
    }

    pub(crate) fn may_offer(&self) -> bool
        requires { IsSoundWire self.now }
        ensures { IsTrue result ↔ MayOffer (traffic_of self.now) }
    {
        if self.ended || !self.may_take() {
            return false;
        }
        match self.unread() {
            Coming::BadLength => false,
            Coming::Frame(_) => true,
            Coming::Part => true,
        }
    }

    pub(crate) fn is_finished(&self) -> bool
        requires { IsSoundWire self.now }
        ensures { IsTrue result ↔ IsFinished (traffic_of self.now) }
    {
        if self.owes || self.held() > 0 {
            return false;
        }
        match self.unread() {
            Coming::BadLength => true,
            Coming::Frame(_) => false,
            Coming::Part => self.ended,
        }
    }
}
