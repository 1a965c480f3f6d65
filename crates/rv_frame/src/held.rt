//! The bytes of a stream that were not taken yet, and the places of its frames in them.
ghost use Rattle.std.specs.Prelude.{◌≡◌, ◌∷◌, [], Err, None, Ok, drop, take};
ghost use Rattle.std.specs.Prelude.{IfOk, IfSome, IsErrOf, IsTrue, ◌↔◌, MatchOption, OnErr, OnOk};
ghost use Rattle.rv_frame.specs.Cut.{Bad, FitsLength, IsFrameBody, Open};
ghost use Rattle.rv_frame.specs.Held.{BeginsFrame, CutAt, FrontIsRow, HasHead, IsSoundHeld, stream_of};
ghost use Rattle.rv_frame.specs.Stream.{Feeds, Grows, IsOpen, rest_length};

use crate::frames::{FrameFault, NoMemory};
use bytes::BytesMut;
use std::alloc::Global;

// How bytes begin.
pub(crate) enum Head {
    // With a whole frame of so many bytes.
    Whole(usize),
    // With less than a frame.
    Open,
    // With a length that no frame has.
    Bad(u16),
}

// The bytes that were fed and not taken yet.
#[derive(Drop)]
pub(crate) struct Held {
    bytes: BytesMut,
    // How many of them are those of whole frames.
    whole: usize,
    // The bad length that follows these.
    bad: Option<u16>,
}

impl Held {
    pub(crate) fn new(alloc: Global) -> Held
        ensures sound { IsSoundHeld result }
        ensures frames { (stream_of result).frames ≡ [] }
        ensures end { (stream_of result).end ≡ Open [] }
    {
        Held {
            bytes: BytesMut::new(alloc),
            whole: 0,
            bad: None,
        }
    }

    pub(crate) fn feed(&mut self, piece: &[u8]) -> Result<(), FrameFault>
        requires { IsSoundHeld self.old }
        ensures sound { IsSoundHeld self.new }
        ensures fed { OnOk result (Feeds (stream_of self.old) piece.now (stream_of self.new)) }
        ensures open_end { OnOk result (IsOpen (stream_of self.new).end) }
        ensures fed_before { (n : _) → result ≡ Err (FrameFault.BadLength n)
            → Feeds (stream_of self.old) piece.now (stream_of self.new) }
        ensures bad_length { (n : _) → result ≡ Err (FrameFault.BadLength n)
            → (stream_of self.new).end ≡ Bad n }
        ensures told_again { (n : _) → (stream_of self.old).end ≡ Bad n
            → IsErrOf result (FrameFault.BadLength n) }
        ensures no_memory { result ≡ Err FrameFault.NoMemory → stream_of self.new ≡ stream_of self.old }
    {
        if let Some(n) = self.bad {
            return Err(FrameFault::BadLength(n));
        }
        self.bytes.extend_from_slice(piece)?;
        self.cut_on();
        match self.bad {
            None => Ok(()),
            Some(n) => Err(FrameFault::BadLength(n)),
        }
    }

    // Finds the frames that begin after the whole ones, up to an end or a bad length.
    fn cut_on(&mut self)
        requires front { FrontIsRow self.old.bytes.items self.old.whole }
        requires open { self.old.bad ≡ None }
        ensures sound { IsSoundHeld self.new }
        ensures cut { Grows (stream_of self.old) (drop self.old.whole self.old.bytes.items)
            (stream_of self.new) }
    {
        let (more, bad) = cut(&self.bytes.as_slice()[self.whole..]);
        self.whole += more;
        self.bad = bad;
        if bad.is_some() {
            self.bytes.truncate(self.whole);
        }
    }

    pub(crate) fn next(&mut self) -> Result<Option<Vec<u8>>, NoMemory>
        requires { IsSoundHeld self.old }
        ensures sound { IsSoundHeld self.new }
        ensures oldest { IfOk result (λ taken. MatchOption taken ((stream_of self.old).frames ≡ [])
            (λ body. (stream_of self.old).frames ≡ body.items ∷ (stream_of self.new).frames)) }
        ensures fits { IfOk result (λ taken. IfSome taken (λ body. IsFrameBody body.items)) }
        ensures end { (stream_of self.new).end ≡ (stream_of self.old).end }
        ensures none { result ≡ Ok None → self.new ≡ self.old }
        ensures refused { OnErr result (self.new ≡ self.old) }
    {
        match head_of(&self.bytes.as_slice()[..self.whole]) {
            Head::Open => Ok(None),
            Head::Bad(_) => Ok(None),
            Head::Whole(size) => Ok(Some(self.take(size)?)),
        }
    }

    // Takes the whole frame at the front, of so many bytes.
    fn take(&mut self, size: usize) -> Result<Vec<u8>, NoMemory>
        requires sound { IsSoundHeld self.old }
        requires frame { BeginsFrame (take self.old.whole self.old.bytes.items) size }
        ensures sound { IsSoundHeld self.new }
        ensures oldest { IfOk result (λ body.
            (stream_of self.old).frames ≡ body.items ∷ (stream_of self.new).frames) }
        ensures fits { IfOk result (λ body. IsFrameBody body.items) }
        ensures end { (stream_of self.new).end ≡ (stream_of self.old).end }
        ensures refused { OnErr result (self.new ≡ self.old) }
    {
        let body = self.bytes.as_slice()[2..size].to_vec(*self.bytes.allocator())?;
        self.bytes.advance(size);
        self.whole -= size;
        Ok(body)
    }

    pub(crate) fn rest(&self) -> usize
        requires { IsSoundHeld self.now }
        ensures { result ≡ rest_length (stream_of self.now).end }
    {
        self.bytes.len() - self.whole
    }
}

// How many bytes the whole frames at the front have, and the bad length after them, if there is one.
fn cut(bytes: &[u8]) -> (usize, Option<u16>)
    ensures { CutAt bytes.now result.0 result.1 }
{
    let mut whole = 0;
    loop {
        match head_of(&bytes[whole..]) {
            Head::Whole(size) => whole += size,
            Head::Open => return (whole, None),
            Head::Bad(n) => return (whole, Some(n)),
        }
    }
}

// Whether a frame's body has this length. Of those that two bytes can say it is each but 0.
fn fits_length(length: u16) -> bool
    ensures { IsTrue result ↔ FitsLength length }
{
    length > 0
}

// How the bytes begin.
fn head_of(bytes: &[u8]) -> Head
    ensures { HasHead bytes.now result }
{
    let [high, low, rest @ ..] = bytes else {
        return Head::Open;
    };
    let length = 256 * *high as u16 + *low as u16;
    if !fits_length(length) {
        Head::Bad(length)
    } else if rest.len() < length as usize {
        Head::Open
    } else {
        Head::Whole(length as usize + 2)
    }
}
