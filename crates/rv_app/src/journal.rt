//! The journal of an account, as a file to be verified.
ghost use Rattle.std.specs.Prelude.{◌≤◌, length, None};

use crate::again::{Again, size_of};
use rv_book::lines::cut_at;
use rv_store::{FORMAT, VERSION};
use rv_text::read_identifier;
use std::alloc::Global;
use std::fs::File;
use std::io;
use std::io::Read;
use std::os::unix::fs::FileExt;

/// What a file is, by what it begins with.
#[derive(Clone, Copy)]
pub(crate) enum FileKind {
    /// A journal, with a first line.
    Journal,
    /// A journal whose first line has no end yet.
    NoLine,
    /// A journal in another version of the format.
    OtherVersion(u64),
    /// No journal.
    Other,
}

// How many bytes name the format.
const FORMAT_BYTES: usize = 10;

// How many bytes tell what a file is: more than any first line of a journal has.
const FIRST_BYTES: usize = 128;

/// What this file is. One that can't be read at any place, as a pipe, is no journal.
pub(crate) fn kind_of(file: &File) -> FileKind {
    let mut first = [0u8; FIRST_BYTES];
    match file.read_at(&mut first, 0) {
        Ok(count) if count <= FIRST_BYTES => kind_by(&first[..count]),
        _ => FileKind::Other,
    }
}

// What a file is that begins with these bytes, if they are all or as many as tell it.
fn kind_by(first: &[u8]) -> FileKind {
    if !first.starts_with(FORMAT) {
        return other_version(first).map_or(FileKind::Other, FileKind::OtherVersion);
    }
    let text = &first[..before_zero(first)];
    if text.len() < FIRST_BYTES && !text.contains(&b'\n') {
        FileKind::NoLine
    } else {
        FileKind::Journal
    }
}

// The version of the format that these bytes name as a journal does, if it is another one.
fn other_version(first: &[u8]) -> Option<u64> {
    let (word, rest) = cut_at(b' ', first)?;
    if word != b"journal".as_slice() {
        return None;
    }
    let (digits, _) = cut_at(b' ', rest)?;
    read_identifier(digits).filter(|version| *version != VERSION)
}

/// The lines of a journal's account: what stands in its file between the name of the format and the first
/// zero byte. At that zero it ends for now: it goes on from there once something else is written over it.
#[derive(Drop)]
pub(crate) struct JournalText {
    file: File,
    at: u64,
}

impl JournalText {
    /// That of this file.
    pub(crate) fn new(file: File) -> JournalText {
        JournalText {
            file,
            at: FORMAT_BYTES as u64,
        }
    }
}

// How many bytes come before the first zero.
fn before_zero(bytes: &[u8]) -> usize
    ensures { result ≤ length bytes.now }
{
    bytes
        .iter()
        .position(|byte| *byte == 0)
        .unwrap_or(bytes.len())
}

impl Read for JournalText {
    ghost remaining = { λ _. None };

    fn read(&mut self, buffer: &mut [u8]) -> io::Result<usize> {
        let count = self.file.read_at(buffer, self.at)?;
        let count = before_zero(&buffer[..count]);
        self.at = self.at.saturating_add(count as u64);
        Ok(count)
    }
}

// How many bytes of a journal are read at once: more than its longest line has.
const READ_BYTES: usize = 65_536;

/// The whole lines of a journal's account, as it stands, or the first of them. Each comes from one reading of
/// the file: a server that starts meanwhile may clear the front of a line, and write another one there.
#[derive(Drop)]
pub(crate) struct JournalLines {
    file: File,
    at: u64,
    // How many lines are still to be read.
    left: u64,
    // What was read of whole lines, and how much of that was handed on.
    held: Vec<u8>,
    given: usize,
}

impl JournalLines {
    /// Those of this file.
    pub(crate) fn new(alloc: Global, file: File) -> JournalLines {
        JournalLines::first(alloc, file, u64::MAX)
    }

    /// The first ones of this file, at most so many.
    pub(crate) fn first(alloc: Global, file: File, count: u64) -> JournalLines {
        JournalLines {
            file,
            at: FORMAT_BYTES as u64,
            left: count,
            held: Vec::new(alloc),
            given: 0,
        }
    }

    /// How many bytes its file has.
    pub(crate) fn size(&self) -> u64 {
        size_of(&self.file)
    }

    // Reads whole lines on, or none where the journal ends.
    fn fill(&mut self) -> io::Result<()> {
        self.held.clear();
        self.given = 0;
        self.held.resize(READ_BYTES, 0)?;
        let count = self.file.read_at(&mut self.held, self.at)?;
        let whole = after_lines(&self.held[..count]);
        let front = front_of(self.left, &self.held[..whole]);
        self.left = self.left.saturating_sub(front.lines);
        self.held.truncate(front.bytes);
        self.at = self.at.saturating_add(front.bytes as u64);
        Ok(())
    }
}

// The first of whole lines.
#[derive(Clone, Copy)]
struct FirstLines {
    lines: u64,
    bytes: usize,
}

// The first of these whole lines, at most so many.
fn front_of(most: u64, text: &[u8]) -> FirstLines
    ensures { result.bytes ≤ length text.now }
{
    let mut front = FirstLines { lines: 0, bytes: 0 };
    for (i, byte) in text.iter().enumerate() {
        if front.lines == most {
            return front;
        }
        if *byte == b'\n' {
            front.lines = front.lines.saturating_add(1);
            front.bytes = i + 1;
        }
    }
    front
}

// How many bytes whole lines have that come before the first zero.
fn after_lines(bytes: &[u8]) -> usize
    ensures { result ≤ length bytes.now }
{
    let text = &bytes[..before_zero(bytes)];
    text.iter()
        .rposition(|byte| *byte == b'\n')
        .map_or(0, |last| last + 1)
}

impl Read for JournalLines {
    ghost remaining = { λ _. None };

    fn read(&mut self, buffer: &mut [u8]) -> io::Result<usize> {
        if self.given == self.held.len() {
            self.fill()?;
        }
        let left = self.held.get(self.given..).unwrap_or(&[]);
        let count = left.len().min(buffer.len());
        buffer[..count].copy_from_slice(&left[..count]);
        self.given = self.given.saturating_add(count);
        Ok(count)
    }
}

/// A regular file that is a journal.
#[derive(Clone, Copy, Drop)]
pub(crate) struct JournalFile<'a> {
    path: &'a str,
}

impl<'a> JournalFile<'a> {
    /// That of this path.
    pub(crate) fn at(path: &'a str) -> JournalFile<'a> {
        JournalFile { path }
    }
}

impl Again for JournalFile<'_> {
    type Input = JournalText;

    ghost bytes = { λ _. None };

    fn open(&self, rt: &HostRuntime) -> io::Result<JournalText> {
        let file = File::open(rt, self.path)?;
        Ok(JournalText::new(file))
    }

    fn size(&self, input: &JournalText) -> u64 {
        size_of(&input.file)
    }
}
