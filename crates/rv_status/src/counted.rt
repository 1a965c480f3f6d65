//! A connection's socket, which counts what comes and leaves over it.
ghost use Rattle.std.specs.Prelude.{◌≡◌, [], IfOk, replicate};
ghost use Rattle.rv_status.specs.declared.frames.FrameMeter.TheVariants.{Between};
ghost use Rattle.rv_status.specs.Standing.{LineStands};

use crate::answers::{ANSWERS, AnswerCounts, AnswerMeter};
use crate::frames::FrameMeter;
use crate::histogram::Histogram;
use crate::standing::FrameLine;
use std::alloc::{AllocError, Global};
use std::cell::Cell;
use std::io;
use std::io::{Read, Write};
use std::rc::Rc;

// Microseconds in a millisecond.
const MILLI: u64 = 1_000;

// What is counted over all connections.
#[derive(Drop)]
struct AnswerCells {
    // The moment of the turn, in milliseconds.
    now: Cell<u64>,
    // How many answers of each kind have left, and how long their requests stood first.
    counts: Cell<AnswerCounts>,
    times: Cell<Histogram>,
}

/// How many answers of each kind have left over all connections, how many of them
/// [`fresh`](AnswerTally::fresh) has returned, and how long their requests stood first of their connection.
#[derive(Drop)]
pub struct AnswerTally {
    tally: Rc<AnswerCells>,
    seen: AnswerCounts,
}

impl AnswerTally {
    /// None has left. Fails only if memory was refused.
    pub fn new(alloc: Global) -> Result<AnswerTally, AllocError>
        ensures { IfOk result (λ t. t.seen ≡ replicate 24 0) }
    {
        let tally = AnswerCells {
            now: Cell::new(0),
            counts: Cell::new([0; ANSWERS]),
            times: Cell::new(Histogram::of_answers()),
        };
        Ok(AnswerTally {
            tally: Rc::new(alloc, tally)?,
            seen: [0; ANSWERS],
        })
    }

    /// A turn begins at this moment, in milliseconds. All that comes and leaves from now on counts as of it.
    pub fn begin_turn(&self, now: u64) {
        self.tally.now.set(now);
    }

    /// How many have left.
    pub fn counts(&self) -> AnswerCounts {
        self.tally.counts.get()
    }

    /// How long their requests stood first.
    pub fn times(&self) -> Histogram {
        self.tally.times.get()
    }

    /// A socket over which answers are counted. Nothing was read from it yet, and nothing has left.
    pub fn over<S>(&self, stream: S) -> CountedStream<S>
        ensures stream { result.stream ≡ stream }
        ensures frames { result.frames ≡ Between }
        ensures line { LineStands [] 0 result.line }
        ensures owed { result.answers.owed ≡ 0 }
    {
        CountedStream {
            stream,
            answers: AnswerMeter::new(),
            frames: FrameMeter::Between,
            line: FrameLine::new(),
            tally: self.tally.clone().ok(),
        }
    }

    /// How many of a kind have left since this was last asked.
    pub fn fresh(&mut self, place: usize) -> u64 {
        let counts = self.tally.counts.get();
        match (counts.get(place), self.seen.get_mut(place)) {
            (Some(count), Some(seen)) => {
                let fresh = count.saturating_sub(*seen);
                *seen = *count;
                fresh
            }
            _ => 0,
        }
    }
}

/// A socket that counts what passes over it. It reads and writes exactly what the socket does.
#[derive(Drop)]
pub struct CountedStream<S> {
    stream: S,
    answers: AnswerMeter,
    frames: FrameMeter,
    line: FrameLine,
    tally: Option<Rc<AnswerCells>>,
}

impl<S> CountedStream<S> {
    // These bytes were read.
    fn note_read(&mut self, piece: &[u8])
        ensures stream { self.new.stream ≡ self.old.stream }
    {
        let Some(tally) = &self.tally else {
            return;
        };
        let frames = self.frames.pass(piece);
        self.line.came(frames, tally.now.get());
    }

    // So many bytes of these have left.
    fn note_left(&mut self, ready: &[u8], count: usize)
        ensures stream { self.new.stream ≡ self.old.stream }
    {
        let Some(tally) = &self.tally else {
            return;
        };
        let mut counts = tally.counts.get();
        let begun = self.answers.pass(ready, count, &mut counts);
        if begun == 0 {
            return;
        }
        tally.counts.set(counts);
        let mut times = tally.times.get();
        note_times(&mut self.line, begun, tally.now.get(), &mut times);
        tally.times.set(times);
    }
}

// So many answers left at a moment.
fn note_times(line: &mut FrameLine, begun: usize, now: u64, times: &mut Histogram) {
    for _ in 0..begun {
        if let Some(stood) = line.left(now) {
            times.observe(stood.saturating_mul(MILLI));
        }
    }
}

impl<S: Read> Read for CountedStream<S> {
    ghost remaining = { λ counted. S.remaining counted.stream };

    fn read(&mut self, buf: &mut [u8]) -> io::Result<usize> {
        let count = self.stream.read(buf)?;
        self.note_read(&buf[..count]);
        Ok(count)
    }
}

impl<S: Write> Write for CountedStream<S> {
    ghost contents = { λ counted. S.contents counted.stream };

    fn write(&mut self, buf: &[u8]) -> io::Result<usize> {
        let taken = self.stream.write(buf)?;
        self.note_left(buf, taken);
        Ok(taken)
    }

    fn flush(&mut self) -> io::Result<()> {
        self.stream.flush()
    }
}
