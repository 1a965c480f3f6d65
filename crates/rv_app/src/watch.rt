//! Shows on a terminal how far a reading is.
ghost use Rattle.std.specs.Prelude.{◌≡◌};

use rv_run::inspect::progress_text;
use std::io;
use std::io::{IsTerminal, Read};
use std::time::Instant;

// How many seconds pass at least between two lines.
const PAUSE_SECONDS: u64 = 2;

// Erases a line of a terminal.
const ERASED: &str = "\r\x1b[K";

/// How far the reading of a file is, which is shown on standard error now and then, if that is a terminal.
#[derive(Drop)]
pub(crate) struct Watch<'a> {
    rt: &'a HostRuntime,
    // How many bytes there are, or 0 if that isn't known.
    size: u64,
    bytes: u64,
    lines: u64,
    // When the reading began, if it shows how far it is.
    start: Option<Instant>,
    // The second at which the next line is due.
    due: u64,
}

impl<'a> Watch<'a> {
    /// Nothing was read yet of this many bytes, or of 0 if their number isn't known.
    pub(crate) fn new(rt: &'a HostRuntime, size: u64) -> Watch<'a> {
        let start = if rt.stderr().is_terminal() {
            Instant::now(rt).ok()
        } else {
            None
        };
        Watch {
            rt,
            size,
            bytes: 0,
            lines: 0,
            start,
            due: PAUSE_SECONDS,
        }
    }

    // Counts what was read, and shows how far it is, if that is due.
    fn note(&mut self, piece: &[u8]) {
        let Some(start) = self.start else {
            return;
        };
        let ended = piece.iter().filter(|byte| **byte == b'\n').count();
        self.lines = self.lines.saturating_add(ended as u64);
        self.bytes = self.bytes.saturating_add(piece.len() as u64);
        let seconds = start.elapsed(self.rt).map_or(0, |since| since.as_secs());
        if seconds >= self.due {
            self.due = seconds.saturating_add(PAUSE_SECONDS);
            self.tell(seconds);
        }
    }

    // Shows how far it is after so many seconds.
    fn tell(&self, seconds: u64) {
        if let Ok(text) = progress_text(
            self.rt.alloc(),
            self.lines,
            self.bytes,
            self.size,
            seconds,
        ) {
            let _ = eprint!(self.rt; "{ERASED}{text}");
        }
    }

    /// Erases what was shown.
    pub(crate) fn erase(&self) {
        if self.due > PAUSE_SECONDS {
            let _ = eprint!(self.rt; "{ERASED}");
        }
    }
}

/// A reader that is watched: its bytes are those of the reader.
#[derive(Drop)]
pub(crate) struct Watched<'w, 'a, R> {
    watch: &'w mut Watch<'a>,
    inner: R,
}

impl<'w, 'a, R> Watched<'w, 'a, R> {
    pub(crate) fn new(watch: &'w mut Watch<'a>, inner: R) -> Watched<'w, 'a, R>
        ensures { result.inner ≡ inner }
    {
        Watched { watch, inner }
    }
}

impl<'w, 'a, R: Read> Read for Watched<'w, 'a, R> {
    ghost remaining = { λ watched. R.remaining watched.inner };

    fn read(&mut self, buffer: &mut [u8]) -> io::Result<usize> {
        let count = self.inner.read(buffer)?;
        self.watch.note(&buffer[..count]);
        Ok(count)
    }
}
