//! Tests of the fault that a worker reports if a connection ends early, over devices in memory.
ghost use Rattle.std.specs.Prelude.{◌≡◌, ◌<◌};

use crate::expect::same;
use crate::still::{Closed, HELLO, Still};
use rv_book::Book;
use rv_frame::testing::{Stop, TestReader, TestWriter};
use rv_frame::{Sink, Source};
use rv_server::{Shared, WorkFault, work};
use std::alloc::AllocGlobal;
use std::io::ErrorKind;
use std::marker::Brand;
use std::process::Abort;
use std::sync::Wait;
use std::sync::ledger::{Blank, Ledger};

// A worker answers what the reader gives: the fault that it reports, if it reports one.
fn told<L: Ledger, R: Wait + Abort + AllocGlobal>(
    rt: &R,
    blank: Blank,
    reader: TestReader<'_>,
    writer: TestWriter,
) -> Option<WorkFault>
    requires name { blank.name ≡ L.name }
    requires parts { blank.parts ≡ L.parts }
    requires made { blank.parts ≡ 1 }
{
    let alloc = rt.alloc();
    let desk = Book::open(alloc, 1, 0).expect(rt, "no memory");
    let opened = Shared::<Book, L>::open(alloc, blank, desk, 1);
    let (shared, mut seats) = opened.expect(rt, "no memory");
    let mut seat = seats.pop().expect(rt, "no seat");
    let mut source = Source::new(reader);
    let mut sink = Sink::new(writer);
    match work(
        rt,
        alloc,
        &shared,
        &mut seat,
        &Still,
        &Closed,
        &mut source,
        &mut sink,
    ) {
        Ok(_) => None,
        Err((_, fault)) => Some(fault),
    }
}

// The fault of a server of one worker, whose devices fail if they are to.
fn told_over<R: Wait + Abort + AllocGlobal>(
    rt: &R,
    reader: TestReader<'_>,
    writer: TestWriter,
) -> Option<WorkFault> {
    told::<Brand, R>(rt, Blank::new(1), reader, writer)
}

// The same of what was sent in pieces of so many bytes, over a device that takes all.
fn told_of<R: Wait + Abort + AllocGlobal>(rt: &R, sent: &[u8], most: usize) -> Option<WorkFault>
    requires { 0 < most }
{
    let writer = TestWriter::new(rt.alloc(), 4_096);
    told_over(rt, TestReader::new(sent, most), writer)
}

// What comes after a hello, and the fault that it is.
const ENDS: [(&[u8], Option<WorkFault>); 4] = [
    (b"", None),
    (b"\x00\x2b{", Some(WorkFault::CutFrame)),
    (b"\x00", Some(WorkFault::CutFrame)),
    (b"\x00\x00\x01", Some(WorkFault::BadLength(0))),
];

#[test]
fn an_end_is_told(rt: HostRuntime) {
    for (end, want) in ENDS {
        let mut sent = HELLO.to_vec(rt.alloc()).expect(&rt, "no memory");
        sent.extend_from_slice(end).expect(&rt, "no memory");
        same(&rt, told_of(&rt, &sent, 7), want);
    }
}

#[test]
fn a_device_that_fails_is_told(rt: HostRuntime) {
    let reader = TestReader::new(HELLO, 7).failing_at(2, ErrorKind::ConnectionReset);
    let writer = TestWriter::new(rt.alloc(), 4_096);
    let found = told_over(&rt, reader, writer);
    same(&rt, found, Some(WorkFault::ReadFault));
    let stop = Stop::Error(ErrorKind::ConnectionReset);
    let writer = TestWriter::new(rt.alloc(), 7).stopping_after(3, stop);
    let reader = TestReader::new(HELLO, 7);
    let found = told_over(&rt, reader, writer);
    same(&rt, found, Some(WorkFault::WriteFault(3)));
}

// A frame whose body is no message.
const BRACE: &[u8] = b"\x00\x01{";

// 65,536 frames are answered, and one more isn't.
#[test]
fn a_frame_too_many_is_told(rt: HostRuntime) {
    for (frames, want) in [(65_536, None), (65_537, Some(WorkFault::TooLong))] {
        let sent = BRACE.repeat(rt.alloc(), frames).expect(&rt, "no memory");
        same(&rt, told_of(&rt, &sent, 4_096), want);
    }
}
