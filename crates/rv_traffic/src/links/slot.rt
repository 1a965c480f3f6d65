//! What may be under a number: a socket, or none.
ghost use Rattle.std.specs.Prelude.{◌≡◌, ◌≤◌, ◌<◌, ◌^◌, ◌+◌, ◌++◌, drop, length, OnErr, OnOk};
ghost use Rattle.std.specs.Option.{option_map};
ghost use Rattle.rv_traffic.specs.links.Table.{PendsSlot, ReadsSlot, WritesSlot, heeded, pending_of, rested};

use crate::links::link::{ReadOutcome, Socket, WriteOutcome};
use bytes::BytesMut;
use std::alloc::{AllocError, Global};
use std::io::{Read, Write};

// Reads once from the socket, if there is one; else the buffer is empty.
pub(crate) fn read_slot<S: Read>(
    slot: &mut Option<Socket<S>>,
    now: u64,
    buffer: &mut BytesMut,
) -> ReadOutcome
    requires { 0 < length buffer.old.items + buffer.old.spare }
    ensures reads { ReadsSlot S.remaining now slot.old result buffer.new.items slot.new }
    ensures room { 0 < length buffer.new.items + buffer.new.spare }
{
    match slot {
        Some(link) => link.read(now, buffer),
        None => {
            buffer.clear();
            ReadOutcome::Nothing
        }
    }
}

// Writes once to the socket, if there is one.
pub(crate) fn write_slot<S: Write>(
    slot: &mut Option<Socket<S>>,
    now: u64,
    ready: &[u8],
) -> WriteOutcome
    ensures { WritesSlot S.contents now slot.old ready.now result slot.new }
{
    match slot {
        Some(link) => link.write(now, ready),
        None => WriteOutcome::Nothing,
    }
}

// Adds bytes after the pending ones. If memory is refused, nothing changes.
pub(crate) fn keep_slot<S>(slot: &mut Option<Socket<S>>, rest: &[u8]) -> Result<(), AllocError>
    ensures kept { OnOk result (PendsSlot slot.old (pending_of slot.old ++ rest.now) slot.new) }
    ensures refused { OnErr result (PendsSlot slot.old (pending_of slot.old) slot.new) }
    ensures short { length (pending_of slot.new) < 2 ^ 63 }
{
    match slot {
        Some(link) => {
            let kept = link.pending.extend_from_slice(rest);
            let _ = link.pending.len();
            kept
        }
        None => Ok(()),
    }
}

// So many of what is pending are taken. A buffer that is empty then is let go.
pub(crate) fn advance_slot<S>(slot: &mut Option<Socket<S>>, alloc: Global, count: usize)
    requires { count ≤ length (pending_of slot.old) }
    ensures { PendsSlot slot.old (drop count (pending_of slot.old)) slot.new }
{
    if let Some(link) = slot {
        link.pending.advance(count);
        if link.pending.is_empty() {
            link.pending = BytesMut::new(alloc);
        }
    }
}

// The socket may be read, or written, once more.
pub(crate) fn heed_slot<S>(slot: &mut Option<Socket<S>>, is_readable: bool, is_writable: bool)
    ensures { slot.new ≡ option_map (λ link. heeded link is_readable is_writable) slot.old }
{
    if let Some(link) = slot {
        link.is_readable |= is_readable;
        link.is_writable |= is_writable;
    }
}

// Nothing was there to leave at this moment.
pub(crate) fn rest_slot<S>(slot: &mut Option<Socket<S>>, now: u64)
    ensures { slot.new ≡ option_map (λ link. rested link now) slot.old }
{
    if let Some(link) = slot {
        link.moved = now;
    }
}

// What is pending of the socket.
pub(crate) fn pending_slot<S>(slot: &Option<Socket<S>>) -> &[u8]
    ensures { result.now ≡ pending_of slot.now }
{
    match slot {
        Some(link) => link.pending.as_slice(),
        None => &[],
    }
}
