//! The sockets of open connections, over any stream: each byte read from one, and each that it takes.
ghost use Rattle.std.specs.Prelude.{◌≡◌, ◌≤◌, ◌<◌, ◌+◌, ◌++◌, ◌↔◌, ℕ, [], drop, length, None, IfOk, IsSome};
ghost use Rattle.std.specs.Prelude.{IsTrue, OnErr, OnOk};
ghost use Rattle.std.specs.List.{sum_by};
ghost use Rattle.std.specs.Option.{option_map};
ghost use Rattle.rv_traffic.specs.links.Table.{HasInput, IsWritable};
ghost use Rattle.rv_traffic.specs.links.Table.{AreTallied, ChangesOne, IsFreshSlot, PendsSlot, ReadsSlot};
ghost use Rattle.rv_traffic.specs.links.Table.{WritesSlot, heeded, link_at, one_at, pending_at, pending_of};
ghost use Rattle.rv_traffic.specs.links.Table.{rested};

mod link;
mod slot;

use crate::links::slot::{
    advance_slot, heed_slot, keep_slot, pending_slot, read_slot, rest_slot, write_slot,
};
use bytes::BytesMut;
pub use link::{ReadOutcome, Socket, WriteOutcome};
use std::alloc::{AllocError, Global};
use std::io::{Read, Write};

// The most bytes of one read, at least.
const PIECE: usize = 4_096;

/// The sockets under their numbers, in room that was made before, and the bytes of the last read.
#[derive(Drop)]
pub struct Links<S> {
    alloc: Global,
    pub(crate) table: Vec<Option<Socket<S>>>,
    pub(crate) buffer: BytesMut,
    // How many sockets there are.
    pub(crate) count: usize,
    // How many bytes are pending of all.
    pub(crate) pending: u128,
    ghost counted: { AreTallied table.items count pending },
    ghost roomy: { 0 < length buffer.items + buffer.spare },
}

impl<S: Drop> Links<S> {
    /// No socket, and room for all numbers below this one.
    pub fn new(alloc: Global, most: usize) -> Result<Links<S>, AllocError>
        ensures none { IfOk result (λ links. (number : ℕ) → link_at links.table.items number ≡ None) }
        ensures room { IfOk result (λ links. length links.table.items ≡ most) }
    {
        let mut table = Vec::with_capacity(alloc, most)?;
        while table.len() < most {
            table.push_reserved(None);
        }
        Ok(Links {
            alloc,
            table,
            buffer: BytesMut::with_capacity(alloc, PIECE)?,
            count: 0,
            pending: 0,
        })
    }

    /// How many sockets there are.
    pub fn len(&self) -> usize
        ensures { result ≡ sum_by one_at self.now.table.items }
    {
        let Links { count, .. } = self;
        *count
    }

    /// How many bytes were read and not taken, of all connections.
    pub fn pending_count(&self) -> u128
        ensures { result ≡ sum_by pending_at self.now.table.items }
    {
        let Links { pending, .. } = self;
        *pending
    }

    /// The number below which all sockets' numbers are.
    pub fn room(&self) -> usize
        ensures { result ≡ length self.now.table.items }
    {
        let Links { table, .. } = self;
        table.len()
    }

    /// Whether there is a socket under a number.
    pub fn is_there(&self, number: usize) -> bool
        ensures { IsTrue result ↔ IsSome (link_at self.now.table.items number) }
    {
        match self.table.get(number) {
            Some(slot) => slot.is_some(),
            None => false,
        }
    }

    /// The bytes that were read from a connection and not taken.
    pub fn pending(&self, number: usize) -> &[u8]
        ensures { result.now ≡ pending_of (link_at self.now.table.items number) }
    {
        match self.table.get(number) {
            Some(slot) => pending_slot(slot),
            None => &[],
        }
    }

    /// Whether a connection has bytes to offer, or its socket may be read.
    pub fn has_input(&self, number: usize) -> bool
        ensures { IsTrue result ↔ HasInput (link_at self.now.table.items number) }
    {
        match self.table.get(number) {
            Some(Some(link)) => link.is_readable || !link.pending.is_empty(),
            _ => false,
        }
    }

    /// Whether a connection's socket may be written to.
    pub fn is_writable(&self, number: usize) -> bool
        ensures { IsTrue result ↔ IsWritable (link_at self.now.table.items number) }
    {
        match self.table.get(number) {
            Some(Some(link)) => link.is_writable,
            _ => false,
        }
    }

    /// The moment at which bytes of a connection last came, or its socket was taken in.
    pub fn heard(&self, number: usize) -> Option<u64>
        ensures { result ≡ option_map (λ link. link.heard) (link_at self.now.table.items number) }
    {
        match self.table.get(number) {
            Some(Some(link)) => Some(link.heard),
            _ => None,
        }
    }

    /// The moment at which bytes of a connection last left, or none were there to leave.
    pub fn moved(&self, number: usize) -> Option<u64>
        ensures { result ≡ option_map (λ link. link.moved) (link_at self.now.table.items number) }
    {
        match self.table.get(number) {
            Some(Some(link)) => Some(link.moved),
            _ => None,
        }
    }

    /// The moment at which bytes of a connection last left, or its socket was taken in.
    pub fn sent(&self, number: usize) -> Option<u64>
        ensures { result ≡ option_map (λ link. link.sent) (link_at self.now.table.items number) }
    {
        match self.table.get(number) {
            Some(Some(link)) => Some(link.sent),
            _ => None,
        }
    }

    /// The bytes of the last read.
    pub fn piece(&self) -> &[u8]
        ensures { result.now ≡ self.now.buffer.items }
    {
        let Links { buffer, .. } = self;
        buffer.as_slice()
    }

    /// So many of the bytes that were read from a connection and not taken are taken.
    pub fn advance(&mut self, number: usize, count: usize)
        requires { count ≤ length (pending_of (link_at self.old.table.items number)) }
        ensures pends { PendsSlot (link_at self.old.table.items number)
            (drop count (pending_of (link_at self.old.table.items number)))
            (link_at self.new.table.items number) }
        ensures others { ChangesOne self.old.table.items number self.new.table.items }
    {
        if number >= self.table.len() {
            return;
        }
        advance_slot(&mut self.table[number], self.alloc, count);
        self.pending -= count as u128;
    }

    /// A connection's socket may be read, or written, again, as a poll reported.
    pub fn heed(&mut self, number: usize, is_readable: bool, is_writable: bool)
        ensures heeds { link_at self.new.table.items number
            ≡ option_map (λ link. heeded link is_readable is_writable) (link_at self.old.table.items number) }
        ensures others { ChangesOne self.old.table.items number self.new.table.items }
    {
        if number < self.table.len() {
            heed_slot(&mut self.table[number], is_readable, is_writable);
        }
    }

    /// At this moment a connection had no bytes that might leave.
    pub fn rest(&mut self, number: usize, now: u64)
        ensures rests { link_at self.new.table.items number
            ≡ option_map (λ link. rested link now) (link_at self.old.table.items number) }
        ensures others { ChangesOne self.old.table.items number self.new.table.items }
    {
        if number < self.table.len() {
            rest_slot(&mut self.table[number], now);
        }
    }
}

impl<S: Read> Links<S> {
    /// Reads once from a connection's socket, at a moment in milliseconds: `piece` has the bytes that came.
    pub fn read(&mut self, number: usize, now: u64) -> ReadOutcome
        ensures reads { ReadsSlot S.remaining now (link_at self.old.table.items number) result
            self.new.buffer.items (link_at self.new.table.items number) }
        ensures others { ChangesOne self.old.table.items number self.new.table.items }
    {
        if number >= self.table.len() {
            self.buffer.clear();
            return ReadOutcome::Nothing;
        }
        read_slot(&mut self.table[number], now, &mut self.buffer)
    }
}

impl<S: Write> Links<S> {
    /// Writes bytes once to a connection's socket, at a moment in milliseconds.
    pub fn write(&mut self, number: usize, now: u64, ready: &[u8]) -> WriteOutcome
        ensures writes { WritesSlot S.contents now (link_at self.old.table.items number) ready.now result
            (link_at self.new.table.items number) }
        ensures others { ChangesOne self.old.table.items number self.new.table.items }
    {
        if number >= self.table.len() {
            return WriteOutcome::Nothing;
        }
        write_slot(&mut self.table[number], now, ready)
    }
}

impl<S: Drop> Links<S> {
    /// Once this many bytes of the last piece were taken, makes the rest pending for its connection, after
    /// what already is. If memory is refused, nothing changes.
    pub fn keep(&mut self, number: usize, taken: usize) -> Result<(), AllocError>
        requires { taken ≤ length self.old.buffer.items }
        ensures kept { OnOk result (PendsSlot (link_at self.old.table.items number)
            (pending_of (link_at self.old.table.items number) ++ drop taken self.old.buffer.items)
            (link_at self.new.table.items number)) }
        ensures refused { OnErr result (PendsSlot (link_at self.old.table.items number)
            (pending_of (link_at self.old.table.items number)) (link_at self.new.table.items number)) }
        ensures others { ChangesOne self.old.table.items number self.new.table.items }
    {
        if !self.is_there(number) {
            return Ok(());
        }
        let _ = self.buffer.len();
        let rest = &self.buffer.as_slice()[taken..];
        let count = rest.len() as u128;
        match keep_slot(&mut self.table[number], rest) {
            Ok(()) => {
                self.pending += count;
                Ok(())
            }
            Err(refused) => Err(refused),
        }
    }
}

impl<S: Drop> Links<S> {
    /// Takes in a socket at a moment, under a number that has room. Both its flags are set until a call
    /// blocks.
    pub fn insert(&mut self, number: usize, stream: S, now: u64)
        requires within { number < length self.old.table.items }
        ensures fresh { IsFreshSlot stream now (link_at self.new.table.items number) }
        ensures others { ChangesOne self.old.table.items number self.new.table.items }
    {
        self.remove(number);
        self.count += 1;
        self.table[number] = Some(Socket::new(self.alloc, stream, now));
    }

    /// Lets go of the socket under a number, with the bytes that were read from it and not taken.
    pub fn remove(&mut self, number: usize)
        ensures none { link_at self.new.table.items number ≡ None }
        ensures others { ChangesOne self.old.table.items number self.new.table.items }
        ensures room { length self.new.table.items ≡ length self.old.table.items }
    {
        if number >= self.table.len() {
            return;
        }
        if let Some(link) = self.table[number].take() {
            self.count -= 1;
            self.pending -= link.pending.len() as u128;
        }
    }
}
