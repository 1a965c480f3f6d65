//! The bytes of answers that the peer hasn't taken, and which of them may leave.
ghost use Rattle.std.specs.Prelude.{◌≡◌, ◌+◌, ◌<◌, ◌≤◌, ◌++◌, ◌⊎◌, [], true, length, drop};
ghost use Rattle.std.specs.VecDeque.{deque_capacity, deque_len};
ghost use Rattle.std.specs.Prelude.{OnErr, OnOk};
ghost use Rattle.std.specs.Bool.{OnFalse, OnTrue};
ghost use Rattle.rv_frame.specs.Cut.{IsFrameBody, frame_bytes};
ghost use Rattle.rv_server_connections.specs.connection.Traffic.{first_rests_on, most_held};
ghost use Rattle.rv_server_connections.specs.connection.Steps.{HoldsBack};
ghost use Rattle.rv_server_connections.specs.connection.Fields.{IsSoundOutgoing, behind_in, ready_in};
ghost use Rattle.rv_server_connections.specs.connection.Answering.{FreesFirst, Pushes, ReleasesIn};
ghost use Rattle.rv_server_connections.specs.connection.Answering.{SameOutgoing};

use crate::connection::unread::KEPT_BYTES;
use bytes::BytesMut;
use rv_frame::NoMemory;
use std::alloc::Global;
use std::collections::VecDeque;

// An answer that may not leave yet: how many entries it rests on, and how many bytes it has.
#[derive(Clone, Copy)]
pub(crate) struct Mark {
    pub(crate) entries: u64,
    pub(crate) bytes: usize,
}

// The bytes of answers, in order.
#[derive(Drop)]
pub(crate) struct Outgoing {
    pub(crate) bytes: BytesMut,
    // How many of them may leave.
    pub(crate) ready: usize,
    // The answers whose bytes come after these.
    pub(crate) marks: VecDeque<Mark>,
}

impl Outgoing {
    pub(crate) fn new(alloc: Global) -> Outgoing
        ensures bytes { result.bytes.items ≡ [] }
        ensures ready { result.ready ≡ 0 }
        ensures marks { result.marks.items ≡ [] }
    {
        Outgoing {
            bytes: BytesMut::new(alloc),
            ready: 0,
            marks: VecDeque::new(alloc),
        }
    }

    // Whether an answer that rests on so many entries, of which so many are written, has to wait after the
    // bytes that may leave.
    fn must_wait(&self, written: u64, entries: u64) -> bool
        ensures yes { OnTrue result ((written < entries) ⊎ (0 < length self.now.marks.items)) }
        ensures no { OnFalse result ((entries ≤ written) × (self.now.marks.items ≡ [])) }
    {
        written < entries || !self.marks.is_empty()
    }

    // Makes room for so many bytes of an answer, and where it may not leave at once, for its mark.
    fn make_room(&mut self, count: usize, waits: bool) -> Result<(), NoMemory>
        ensures same { SameOutgoing self.old self.new }
        ensures bytes { OnOk result (count ≤ self.new.bytes.spare) }
        ensures marks { OnOk result (waits ≡ true
            → deque_len self.new.marks < deque_capacity self.new.marks) }
    {
        if waits {
            self.marks.reserve(1)?;
        }
        self.bytes.reserve(count)
    }

    // Writes a body's frame after all bytes; there is room for it.
    fn write(&mut self, body: &[u8])
        requires fits { IsFrameBody body.now }
        requires room { length body.now + 2 ≤ self.old.bytes.spare }
        ensures bytes { self.new.bytes.items ≡ self.old.bytes.items ++ frame_bytes body.now }
        ensures ready { self.new.ready ≡ self.old.ready }
        ensures marks { self.new.marks ≡ self.old.marks }
    {
        let length = body.len();
        self.bytes
            .extend_reserved(&[(length / 256) as u8, (length % 256) as u8]);
        self.bytes.extend_reserved(body);
    }

    /// Appends a body's frame. It rests on `entries` entries, of which `written` are written.
    pub(crate) fn push(&mut self, written: u64, entries: u64, body: &[u8]) -> Result<(), NoMemory>
        requires sound { IsSoundOutgoing self.old }
        requires room { length self.old.bytes.items ≤ most_held }
        requires held_back { HoldsBack written (behind_in self.old) }
        requires fits { IsFrameBody body.now }
        ensures sound { IsSoundOutgoing self.new }
        ensures pushes { OnOk result (Pushes written self.old entries body.now self.new) }
        ensures refused { OnErr result (SameOutgoing self.old self.new) }
    {
        let count = body.len() + 2;
        let waits = self.must_wait(written, entries);
        self.make_room(count, waits)?;
        self.write(body);
        if waits {
            self.marks.push_back_reserved(Mark {
                entries,
                bytes: count,
            });
            return Ok(());
        }
        self.ready += count;
        Ok(())
    }

    // Lets the first answer that may not leave go, if it rests on no more entries than are written.
    fn release_first(&mut self, written: u64) -> bool
        requires { IsSoundOutgoing self.old }
        ensures sound { IsSoundOutgoing self.new }
        ensures first { OnTrue result (FreesFirst written self.old self.new) }
        ensures same { OnFalse result (self.new ≡ self.old) }
        ensures held_back { OnFalse result (HoldsBack written (behind_in self.new)) }
    {
        let Some(first) = self.marks.front() else {
            return false;
        };
        if written < first.entries {
            return false;
        }
        self.ready += first.bytes;
        self.marks.pop_front();
        true
    }

    /// Releases all answers that may leave once so many entries are written.
    pub(crate) fn release(&mut self, written: u64)
        requires { IsSoundOutgoing self.old }
        ensures sound { IsSoundOutgoing self.new }
        ensures releases { ReleasesIn written self.old self.new }
    {
        while self.release_first(written) {}
    }

    // Lets go of room that is more than few bytes have, where no byte is left.
    fn tidy(&mut self)
        requires { IsSoundOutgoing self.old }
        ensures { SameOutgoing self.old self.new }
    {
        if !self.bytes.is_empty() {
            return;
        }
        self.bytes.clear();
        if self.bytes.capacity() > KEPT_BYTES {
            *self = Outgoing::new(*self.bytes.allocator());
        }
    }

    /// So many of the bytes that may leave have left.
    pub(crate) fn took(&mut self, count: usize)
        requires sound { IsSoundOutgoing self.old }
        requires ready { count ≤ self.old.ready }
        ensures sound { IsSoundOutgoing self.new }
        ensures ready { ready_in self.new ≡ drop count (ready_in self.old) }
        ensures behind { behind_in self.new ≡ behind_in self.old }
        ensures bytes { self.new.bytes.items ≡ drop count self.old.bytes.items }
    {
        self.bytes.advance(count);
        self.ready -= count;
        self.tidy();
    }

    /// How many entries the first answer that may not leave rests on, if there is one.
    pub(crate) fn waits_for(&self) -> Option<u64>
        requires { IsSoundOutgoing self.now }
        ensures { result ≡ first_rests_on (behind_in self.now) }
    {
        match self.marks.front() {
            Some(first) => Some(first.entries),
            None => None,
        }
    }

    /// The bytes that may leave.
    pub(crate) fn ready(&self) -> &[u8]
        requires { IsSoundOutgoing self.now }
        ensures { result.now ≡ ready_in self.now }
    {
        &self.bytes.as_slice()[..self.ready]
    }
}
