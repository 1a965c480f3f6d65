//! One connection's socket, with the bytes that were read from it and not taken.
ghost use Rattle.std.specs.Prelude.{◌≡◌, ◌<◌, ◌+◌, length};
ghost use Rattle.rv_traffic.specs.links.Reading.{ReadsOnce, fresh_link};
ghost use Rattle.rv_traffic.specs.links.Writing.{WritesOnce};

use bytes::BytesMut;
use std::alloc::{AllocError, Global};
use std::io::{Error, ErrorKind, Read, Write};

/// What came of one read of a socket.
#[derive(Clone, Copy)]
pub enum ReadOutcome {
    /// At least one byte.
    Piece,
    /// The end of the input.
    End,
    /// Nothing yet.
    Nothing,
    /// The read failed.
    Broken,
}

/// What came of one write to a socket.
#[derive(Clone, Copy)]
pub enum WriteOutcome {
    /// It took so many bytes, at least one, from the first on.
    Took(usize),
    /// It takes none yet.
    Nothing,
    /// The write failed, or took no byte.
    Broken,
}

/// A socket, the bytes of its input that weren't taken, and what is known of its readiness. A flag is cleared
/// only when a call would have blocked, since a poll reports only changes.
#[derive(Drop)]
pub struct Socket<S> {
    pub(crate) stream: S,
    pub(crate) pending: BytesMut,
    pub(crate) is_readable: bool,
    pub(crate) is_writable: bool,
    // When bytes last came, when bytes last left or none were there to leave, and when bytes last left, in
    // milliseconds.
    pub(crate) heard: u64,
    pub(crate) moved: u64,
    pub(crate) sent: u64,
}

// Why a call on a socket gave nothing.
#[derive(Clone, Copy)]
pub(crate) enum Trouble {
    // It would have blocked.
    Blocks,
    // It is to be tried again.
    Again,
    // The socket is of no use any more.
    Breaks,
}

fn trouble_of(error: &Error) -> Trouble {
    match error.kind() {
        ErrorKind::WouldBlock => Trouble::Blocks,
        ErrorKind::Interrupted => Trouble::Again,
        _ => Trouble::Breaks,
    }
}

impl<S> Socket<S> {
    // A socket that was accepted at a moment. Both flags are set until a call blocks.
    pub(crate) fn new(alloc: Global, stream: S, now: u64) -> Socket<S>
        ensures { result ≡ fresh_link stream now result.pending.spare }
    {
        Socket {
            stream,
            pending: BytesMut::new(alloc),
            is_readable: true,
            is_writable: true,
            heard: now,
            moved: now,
            sent: now,
        }
    }
}

impl<S: Read> Socket<S> {
    // Reads once into the buffer, whose bytes are then those that came, if the socket may have some.
    pub(crate) fn read(&mut self, now: u64, buffer: &mut BytesMut) -> ReadOutcome
        requires { 0 < length buffer.old.items + buffer.old.spare }
        ensures reads { ReadsOnce S.remaining now self.old result buffer.new.items self.new }
        ensures room { 0 < length buffer.new.items + buffer.new.spare }
    {
        buffer.clear();
        if !self.is_readable {
            return ReadOutcome::Nothing;
        }
        let error = match buffer.read_from(&mut self.stream) {
            Ok(0) => return ReadOutcome::End,
            Ok(_) => {
                self.heard = now;
                return ReadOutcome::Piece;
            }
            Err(error) => error,
        };
        match trouble_of(&error) {
            Trouble::Blocks => {
                self.is_readable = false;
                ReadOutcome::Nothing
            }
            Trouble::Again => ReadOutcome::Nothing,
            Trouble::Breaks => ReadOutcome::Broken,
        }
    }
}

impl<S: Write> Socket<S> {
    // Writes bytes once, if the socket may take some.
    pub(crate) fn write(&mut self, now: u64, ready: &[u8]) -> WriteOutcome
        ensures { WritesOnce S.contents now self.old ready.now result self.new }
    {
        if !self.is_writable {
            return WriteOutcome::Nothing;
        }
        let error = match self.stream.write(ready) {
            Ok(0) => return WriteOutcome::Broken,
            Ok(count) => {
                self.moved = now;
                self.sent = now;
                return WriteOutcome::Took(count);
            }
            Err(error) => error,
        };
        match trouble_of(&error) {
            Trouble::Blocks => {
                self.is_writable = false;
                WriteOutcome::Nothing
            }
            Trouble::Again => WriteOutcome::Nothing,
            Trouble::Breaks => WriteOutcome::Broken,
        }
    }
}
