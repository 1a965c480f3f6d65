//! Tests of frames out of a piece that is longer than a frame, and out of pieces for which memory is refused;
//! and of how often a device is asked for a frame.
ghost use Rattle.rv_frame.specs.Cut.{IsFrameBody};

use crate::expect::{holds, same};
use rv_frame::testing::TestWriter;
use rv_frame::{FrameFault, Frames, NoMemory, Sink, write_frame};
use std::alloc::Global;
use std::process::Abort;

// The frames of `A` and `BC`, and a byte more.
const TWO_FRAMES: &[u8] = b"\x00\x01A\x00\x02BC\x00";

// The next frame has this body. If memory is refused, it is asked for once more.
fn gives(rt: &impl Abort, frames: &mut Frames, body: &[u8]) {
    match next_again(frames) {
        Ok(Some(taken)) => same(rt, taken.as_slice(), body),
        _ => holds(rt, false, "a frame"),
    }
}

fn next_again(frames: &mut Frames) -> Result<Option<Vec<u8>>, NoMemory> {
    match frames.next() {
        Err(_) => frames.next(),
        answer => answer,
    }
}

fn feed_again(frames: &mut Frames, piece: &[u8]) -> Result<(), FrameFault> {
    match frames.feed(piece) {
        Err(FrameFault::NoMemory) => frames.feed(piece),
        answer => answer,
    }
}

// The length bytes of the longest frame, and then in one piece its body, two frames, and a byte.
#[test]
fn a_piece_is_longer_than_a_frame(rt: HostRuntime) {
    let body = [b'x'; 65_535];
    let mut piece = body.to_vec(rt.alloc()).expect(&rt, "no memory");
    piece.extend_from_slice(TWO_FRAMES).expect(&rt, "no memory");
    let mut frames = Frames::new(rt.alloc());
    same(&rt, frames.feed(b"\xff\xff"), Ok(()));
    same(&rt, frames.feed(&piece), Ok(()));
    same(&rt, frames.rest(), 1);
    for body in [body.as_slice(), b"A", b"BC"] {
        gives(&rt, &mut frames, body);
    }
}

// Passes too if any one growth is refused.
#[test]
fn a_refused_growth_changes_nothing(rt: HostRuntime) {
    let mut frames = Frames::new(rt.alloc());
    for piece in [b"\x00\x01A\x00".as_slice(), b"\x02BC\x00\x03DEF\x00"] {
        same(&rt, feed_again(&mut frames, piece), Ok(()));
    }
    for body in [b"A".as_slice(), b"BC", b"DEF"] {
        gives(&rt, &mut frames, body);
    }
}

// A device that takes all that it is given is asked so many times for this frame, and never flushed.
fn leaves_in(rt: &impl Abort, alloc: Global, body: &[u8], writes: u64)
    requires { IsFrameBody body.now }
{
    let mut device = TestWriter::new(alloc, 100_000);
    let mut sink = Sink::new(&mut device);
    same(rt, write_frame(&mut sink, body), Ok(()));
    same(rt, (device.writes(), device.flushes()), (writes, 0));
    same(rt, device.taken().len(), body.len() + 2);
}

#[test]
fn a_frame_is_one_write(rt: HostRuntime) {
    leaves_in(&rt, rt.alloc(), &[b'x'; 4_096], 1);
    leaves_in(&rt, rt.alloc(), &[b'x'; 4_097], 2);
}
