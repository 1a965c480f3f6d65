//! A reader and a writer for tests, which give and take a few bytes at a time and stop where the test says.
ghost use Rattle.std.specs.Prelude.{◌≡◌, ◌<◌, Some, None, [], length, min};
ghost use Rattle.std.specs.Prelude.{IfErr, IfOk, IsErr, IsOk, MatchResult};
ghost use Rattle.std.specs.Io.{ReadsAtMost, WritesAtMost};
ghost use Rattle.std.specs.Io.KnownBytes.{Keeps, ReadConsumes, WriteAppends};
ghost use Rattle.std.specs.IoError.{error_kind};
ghost use Rattle.std.specs.declared.io.ErrorKind.{ErrorKind};

use std::alloc::Global;
use std::io::{Error, ErrorKind, Read, Result, Write};

/// A reader over bytes in memory, which gives at most `most` bytes a read and may fail once.
#[derive(Drop)]
pub struct TestReader<'a> {
    rest: &'a [u8],
    most: usize,
    fault: Option<(u64, ErrorKind)>,
    reads: u64,
    ghost gives: { 0 < most },
}

impl<'a> TestReader<'a> {
    ghost use Rattle.rv_frame.specs.Testing.{reader_fault, reader_most, reader_reads, reader_rest};

    /// A reader of these bytes that never fails, and gives at most `most` bytes a read.
    pub fn new(bytes: &'a [u8], most: usize) -> TestReader<'a>
        requires { 0 < most }
        ensures rest { reader_rest result ≡ bytes.now }
        ensures most { reader_most result ≡ most }
        ensures fault { reader_fault result ≡ None }
        ensures reads { reader_reads result ≡ 0 }
    {
        TestReader {
            rest: bytes,
            most,
            fault: None,
            reads: 0,
        }
    }

    /// The same reader, which fails at this read, counted from 1, and at no other.
    pub fn failing_at(mut self, read: u64, kind: ErrorKind) -> TestReader<'a>
        ensures rest { reader_rest result ≡ reader_rest self.entry }
        ensures most { reader_most result ≡ reader_most self.entry }
        ensures fault { reader_fault result ≡ Some (read, kind) }
        ensures reads { reader_reads result ≡ reader_reads self.entry }
    {
        self.fault = Some((read, kind));
        self
    }

    /// How often it was read.
    pub fn reads(&self) -> u64
        ensures { result ≡ reader_reads self.now }
    {
        self.reads
    }

    // The kind of the error at the latest read, if that read is the one that fails.
    fn fails_now(&self) -> Option<ErrorKind>
        ensures named { (kind : ErrorKind) → result ≡ Some kind →
            reader_fault self.now ≡ Some (reader_reads self.now, kind) }
        ensures other { (kind : ErrorKind) → reader_fault self.now ≡ Some (reader_reads self.now, kind) →
            result ≡ Some kind }
    {
        match self.fault {
            Some((read, kind)) => if read == self.reads { Some(kind) } else { None },
            None => None,
        }
    }
}

impl Read for TestReader<'_> {
    ghost use Rattle.rv_frame.specs.Testing.{one_more, reader_fault, reader_most, reader_reads, reader_rest};

    ghost remaining = { λ reader. Some reader.rest.now };

    /// Gives as many bytes as are left, as the buffer has room for, and as one read gives at most. It fails
    /// at the read that was named, and at no other, and then gives none.
    fn read(&mut self, buffer: &mut [u8]) -> Result<usize>
        ensures bound { ReadsAtMost result buffer.new }
        ensures bytes { ReadConsumes (Some (reader_rest self.old)) (Some (reader_rest self.new))
            result buffer.new }
        ensures count { IfOk result (λ count.
            count ≡ min (min (length (reader_rest self.old)) (length buffer.old)) (reader_most self.old)) }
        ensures reads { reader_reads self.new ≡ one_more (reader_reads self.old) }

        // It fails where this read was named, and only there, with the error that was named.
        ensures fails { (kind : ErrorKind) → reader_fault self.old ≡ Some (reader_reads self.new, kind) →
            IsErr result }
        ensures only { IfErr result (λ error.
            reader_fault self.old ≡ Some (reader_reads self.new, error_kind error)) }

        // Its settings stay.
        ensures most { reader_most self.new ≡ reader_most self.old }
        ensures fault { reader_fault self.new ≡ reader_fault self.old }
    {
        self.reads = self.reads.saturating_add(1);
        if let Some(kind) = self.fails_now() {
            return Err(Error::from(kind));
        }
        let count = self.rest.len().min(buffer.len()).min(self.most);
        let (given, rest) = self.rest.split_at(count);
        buffer[..count].copy_from_slice(given);
        self.rest = rest;
        Ok(count)
    }
}

/// The answer of a `TestWriter` in place of one write.
#[derive(Clone, Copy)]
pub enum Stop {
    /// An error of this kind.
    Error(ErrorKind),
    /// No fault, but 0 bytes are taken.
    TakesNothing,
}

impl Stop {
    ghost use Rattle.rv_frame.specs.Testing.{AnswersStop};

    fn answer(self) -> Result<usize>
        ensures { AnswersStop self result }
    {
        match self {
            Stop::Error(kind) => Err(Error::from(kind)),
            Stop::TakesNothing => Ok(0),
        }
    }
}

/// A writer to memory, which takes at most `most` bytes a write and may stop once.
#[derive(Drop)]
pub struct TestWriter {
    taken: Vec<u8>,
    most: usize,
    stop: Option<(usize, Stop)>,
    writes: u64,
    flushes: u64,
}

impl TestWriter {
    ghost use Rattle.rv_frame.specs.Testing.{writer_flushes, writer_most, writer_stop};
    ghost use Rattle.rv_frame.specs.Testing.{writer_taken, writer_writes, IsNoMemory};

    /// A writer that has taken nothing, never stops, and takes at most `most` bytes a write.
    pub fn new(alloc: Global, most: usize) -> TestWriter
        ensures taken { writer_taken result ≡ [] }
        ensures most { writer_most result ≡ most }
        ensures stop { writer_stop result ≡ None }
        ensures writes { writer_writes result ≡ 0 }
        ensures flushes { writer_flushes result ≡ 0 }
    {
        TestWriter {
            taken: Vec::new(alloc),
            most,
            stop: None,
            writes: 0,
            flushes: 0,
        }
    }

    /// The same writer, which stops at the first write after `room` more bytes, and at no other.
    pub fn stopping_after(mut self, room: usize, stop: Stop) -> TestWriter
        ensures taken { writer_taken result ≡ writer_taken self }
        ensures most { writer_most result ≡ writer_most self }
        ensures stop { writer_stop result ≡ Some (room, stop) }
        ensures writes { writer_writes result ≡ writer_writes self }
        ensures flushes { writer_flushes result ≡ writer_flushes self }
    {
        self.stop = Some((room, stop));
        self
    }

    /// The bytes that it took.
    pub fn taken(&self) -> &[u8]
        ensures { result.now ≡ writer_taken self.now }
    {
        &self.taken
    }

    /// How many writes were made to it.
    pub fn writes(&self) -> u64
        ensures { result ≡ writer_writes self.now }
    {
        self.writes
    }

    /// How often it was flushed.
    pub fn flushes(&self) -> u64
        ensures { result ≡ writer_flushes self.now }
    {
        self.flushes
    }

    // Takes the first of these bytes, at most so many.
    fn take(&mut self, bytes: &[u8], most: usize) -> Result<usize>
        ensures bytes { WriteAppends (Some (writer_taken self.old)) (Some (writer_taken self.new))
            result bytes.now }
        ensures count { MatchResult result (λ count. count ≡ min (length bytes.now) most) IsNoMemory }
        ensures others { self.new ≡ record self.old { taken = self.new.taken } }
    {
        let count = bytes.len().min(most);
        self.taken.extend_from_slice(&bytes[..count])?;
        Ok(count)
    }
}

impl Write for TestWriter {
    ghost use Rattle.rv_frame.specs.Testing.{writer_flushes, writer_most, writer_stop, writer_taken};
    ghost use Rattle.rv_frame.specs.Testing.{writer_writes, one_more, flushed_again, WritesAsTold};

    ghost contents = { λ writer. Some writer.taken.items };

    /// Takes as many of the bytes as one write takes at most, and as there is room for before it stops. It
    /// stops, as the test says, at the first write with no room, and never again.
    fn write(&mut self, bytes: &[u8]) -> Result<usize>
        ensures bound { WritesAtMost result bytes.now }
        ensures bytes { WriteAppends (Some (writer_taken self.old)) (Some (writer_taken self.new))
            result bytes.now }
        ensures told { WritesAsTold (writer_stop self.old) (writer_stop self.new)
            (length bytes.now) (writer_most self.old) result }
        ensures writes { writer_writes self.new ≡ one_more (writer_writes self.old) }
        ensures most { writer_most self.new ≡ writer_most self.old }
        ensures flushes { writer_flushes self.new ≡ writer_flushes self.old }
    {
        self.writes = self.writes.saturating_add(1);
        match self.stop {
            None => self.take(bytes, self.most),
            Some((room, stop)) => if room == 0 {
                self.stop = None;
                stop.answer()
            } else {
                let count = self.take(bytes, self.most.min(room))?;
                self.stop = Some((room.saturating_sub(count), stop));
                Ok(count)
            },
        }
    }

    /// Counts the flush, and does nothing else.
    fn flush(&mut self) -> Result<()>
        ensures bytes { Keeps (Some (writer_taken self.old)) (Some (writer_taken self.new)) }
        ensures ok { IsOk result }
        ensures flushed { self.new ≡ flushed_again self.old }
    {
        self.flushes = self.flushes.saturating_add(1);
        Ok(())
    }
}
