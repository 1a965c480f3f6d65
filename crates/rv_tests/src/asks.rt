//! Tests of the fault that a request meets at its link, and of how often its devices are asked.
use crate::expect::same;
use rv_client::{LinkFault, New, ask};
use rv_frame::testing::{Stop, TestReader, TestWriter};
use rv_frame::{Sink, Source};
use rv_text::Version;
use std::alloc::Global;
use std::io::ErrorKind;
use std::process::Abort;

// The bytes of the hello that is asked, after their length, and of its welcome.
const HELLO_BYTES: usize = 45;

const WELCOME: &[u8] = b"\x00\x37{\"client\":1,\"epoch\":1,\"incarnation\":1,\"kind\":\"welcome\"}";

// What came of a hello: its fault, if it met one, and how many reads, writes and bytes it took.
type Came = (Option<LinkFault>, u64, u64, usize);

// Asks by a hello over these devices.
fn asked(alloc: Global, mut reader: TestReader<'_>, mut device: TestWriter) -> Came {
    let hello = New::start(1, 1, Version::One).message();
    let mut source = Source::new(&mut reader);
    let mut sink = Sink::new(&mut device);
    let fault = ask(alloc, &mut source, &mut sink, &hello).err();
    (fault, reader.reads(), device.writes(), device.taken().len())
}

// What a server sends, of which a read gives a byte; the fault that it is, and how many reads that takes.
const ANSWERS: [(&[u8], Option<LinkFault>, u64); 10] = [
    (WELCOME, None, 57),
    (b"", Some(LinkFault::Closed), 1),
    (b"\x00", Some(LinkFault::Closed), 2),
    (b"\x00\x02", Some(LinkFault::Closed), 3),
    (b"\x00\x02{", Some(LinkFault::Closed), 4),
    (b"\x10\x01{}", Some(LinkFault::Closed), 5),
    (b"\xff\xff{}", Some(LinkFault::Closed), 5),
    (b"\x00\x00\x00\x02{}", Some(LinkFault::BadFrame), 2),
    (b"\x00\x02{}{", Some(LinkFault::BadBody), 4),
    (b"\x00\x01{}", Some(LinkFault::BadBody), 3),
];

#[test]
fn what_is_wrong_with_an_answer_is_told(rt: HostRuntime) {
    let alloc = rt.alloc();
    for (answer, fault, reads) in ANSWERS {
        let device = TestWriter::new(alloc, 4_096);
        let came = asked(alloc, TestReader::new(answer, 1), device);
        same(&rt, came, (fault, reads, 1, HELLO_BYTES));
    }
}

// Where a device stops, and what came of that.
fn stops(rt: &impl Abort, alloc: Global, stop: Stop) {
    let device = TestWriter::new(alloc, 7).stopping_after(7, stop);
    let came = asked(alloc, TestReader::new(WELCOME, 1), device);
    same(rt, came, (Some(LinkFault::WriteFault(7)), 0, 2, 7));
}

// Each device fails once alone, and takes or gives 7 bytes at most.
#[test]
fn a_device_that_fails_is_asked_no_more(rt: HostRuntime) {
    let alloc = rt.alloc();
    let reader = TestReader::new(WELCOME, 7).failing_at(3, ErrorKind::Interrupted);
    let came = asked(alloc, reader, TestWriter::new(alloc, 7));
    same(&rt, came, (Some(LinkFault::ReadFault), 3, 7, HELLO_BYTES));
    stops(&rt, alloc, Stop::TakesNothing);
    stops(&rt, alloc, Stop::Error(ErrorKind::Interrupted));
}
