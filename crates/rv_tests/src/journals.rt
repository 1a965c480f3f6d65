//! Tests of a journal over a file in memory that a crash left or that froze, and of what it refuses.
ghost use Rattle.std.specs.Prelude.{◌≡◌, [], ◌++◌, ⊤, List, ℕ};
ghost use Rattle.std.proofs.Common.{◌∙◌, ap, refl};

use crate::expect::{holds, same};
use rv_journal::testing::{FailingDevice, Memory};
use rv_journal::{
    CreateFault, Device, DeviceFault, DiskJournal, JournalFault, JournalReader, OpenFault,
};
use std::alloc::Global;
use std::process::Abort;

// Two lines; then the bytes of a piece that was lost, before and after the first zero.
const TORN: &[u8] = b"A\nB\nC\0D\n\0\0";

fn file(rt: &impl Abort, alloc: Global, bytes: &[u8]) -> Memory {
    let bytes = bytes.to_vec(alloc).expect(rt, "no memory");
    Memory::new(alloc, 7, bytes).expect(rt, "no memory")
}

#[test]
fn a_lost_piece_is_dropped_and_the_next_one_is_stored(rt: HostRuntime) {
    let torn = file(&rt, rt.alloc(), TORN);
    same(&rt, torn.bytes(), TORN);
    match DiskJournal::open(rt.alloc(), torn, Vec::new(rt.alloc())) {
        Ok((mut journal, lines)) => {
            same(&rt, lines.as_slice(), b"A\nB\n");
            same(&rt, journal.append(b"E\n"), Ok(()));
            same(&rt, journal.append(b"\0"), Err(JournalFault::NotText));
            same(&rt, journal.append(b"F\n"), Ok(()));
            same(&rt, journal.into_device().bytes(), b"A\nB\nE\nF\n\0\0");
        }
        Err((fault, _)) => holds(&rt, false, fault),
    }
}

// Tells that this file is no journal, and is left as it is.
fn is_no_journal(rt: &impl Abort, alloc: Global, bytes: &[u8]) {
    match DiskJournal::open(alloc, file(rt, alloc, bytes), Vec::new(alloc)) {
        Ok(_) => holds(rt, false, "no zero"),
        Err((fault, left)) => {
            same(rt, fault, OpenFault::NotFilled);
            same(rt, left.bytes(), bytes);
        }
    }
}

#[test]
fn a_file_without_a_zero_is_no_journal(rt: HostRuntime) {
    is_no_journal(&rt, rt.alloc(), b"");
    is_no_journal(&rt, rt.alloc(), b"A\n");
    is_no_journal(&rt, rt.alloc(), b"A\nB");
}

// A reader that refuses all lines.
#[derive(Drop)]
struct Nobody;

impl JournalReader for Nobody {
    type Fault = u8;

    type Made = ();

    ghost takes = { λ _ lines _. lines ≡ [] };

    ghost refuses = { λ _ _ _. ⊤ };

    ghost makes = { λ _ _. ⊤ };

    ghost lacks = { λ _ _. ⊤ };

    fn take(&mut self, _lines: &[u8]) -> Result<(), u8> {
        Err(7)
    }

    fn finish(self) -> Result<(), u8> {
        Err(8)
    }

    ghost none = { λ _. refl };

    ghost joined = { λ old mid new lines more _ first second. ap (λ (l : List ℕ). l ++ more) first ∙ second };

    ghost refused_on = { λ _ _ _ _ _ _ _ _. tt };
}

#[test]
fn a_file_whose_lines_are_refused_is_left(rt: HostRuntime) {
    match DiskJournal::open(rt.alloc(), file(&rt, rt.alloc(), TORN), Nobody) {
        Ok(_) => holds(&rt, false, "refused"),
        Err((fault, left)) => {
            same(&rt, fault, OpenFault::Refused(7));
            same(&rt, left.bytes(), TORN);
        }
    }
}

// A reader that makes nothing of any lines.
#[derive(Drop)]
struct Nothing;

impl JournalReader for Nothing {
    type Fault = u8;

    type Made = ();

    ghost takes = { λ _ _ _. ⊤ };

    ghost refuses = { λ _ _ _. ⊤ };

    ghost makes = { λ _ _. ⊤ };

    ghost lacks = { λ _ _. ⊤ };

    fn take(&mut self, _lines: &[u8]) -> Result<(), u8> {
        Ok(())
    }

    fn finish(self) -> Result<(), u8> {
        Err(8)
    }

    ghost none = { λ _. tt };

    ghost joined = { λ _ _ _ _ _ _ _ _. tt };

    ghost refused_on = { λ _ _ _ _ _ _ _ _. tt };
}

#[test]
fn a_file_of_whose_lines_nothing_is_made_is_left(rt: HostRuntime) {
    match DiskJournal::open(rt.alloc(), file(&rt, rt.alloc(), TORN), Nothing) {
        Ok(_) => holds(&rt, false, "nothing is made"),
        Err((fault, left)) => {
            same(&rt, fault, OpenFault::Refused(8));
            same(&rt, left.bytes(), TORN);
        }
    }
}

#[test]
fn a_new_journal_takes_a_second_piece(rt: HostRuntime) {
    let left = file(&rt, rt.alloc(), b"left");
    match DiskJournal::create(rt.alloc(), left, b"A\n") {
        Ok(mut journal) => {
            same(&rt, journal.append(b"B\n"), Ok(()));
            opens_with(&rt, rt.alloc(), journal.into_device(), b"A\nB\n");
        }
        Err((fault, _)) => holds(&rt, false, fault),
    }
}

// Tells that this file is not made a journal, and why not.
fn is_not_made(rt: &impl Abort, alloc: Global, bytes: &[u8], first: &[u8], why: CreateFault) {
    match DiskJournal::create(alloc, file(rt, alloc, bytes), first) {
        Ok(_) => holds(rt, false, why),
        Err((fault, left)) => {
            same(rt, fault, why);
            same(rt, left.bytes(), bytes);
        }
    }
}

fn ones(rt: &impl Abort, alloc: Global, count: usize) -> Vec<u8> {
    vec![in alloc; 1u8; count].expect(rt, "no memory")
}

#[test]
fn a_long_file_and_a_zero_byte_make_no_journal(rt: HostRuntime) {
    let long = ones(&rt, rt.alloc(), (1 << 20) + 1);
    is_not_made(&rt, rt.alloc(), &long, b"A\n", CreateFault::TooLong);
    is_not_made(&rt, rt.alloc(), b"left", b"A\0\n", CreateFault::NotText);
}

// Tells that this file is a journal of these lines.
fn opens_with(rt: &impl Abort, alloc: Global, left: Memory, want: &[u8]) {
    match DiskJournal::open(alloc, left, Vec::new(alloc)) {
        Ok((_, lines)) => same(rt, lines.as_slice(), want),
        Err((fault, _)) => holds(rt, false, fault),
    }
}

// Tells what a crash leaves of a file by this number.
fn leaves(rt: &impl Abort, alloc: Global, written: &Memory, number: u64, want: &[u8]) {
    let crashed = written.after_crash(alloc, number).expect(rt, "no memory");
    same(rt, crashed.bytes(), want);
}

#[test]
fn a_number_says_which_bytes_a_crash_stores(rt: HostRuntime) {
    let mut written = file(&rt, rt.alloc(), b"ab");
    same(&rt, written.write_at(0, b"XY"), Ok(()));
    leaves(&rt, rt.alloc(), &written, 0, b"ab");
    leaves(&rt, rt.alloc(), &written, 1, b"Xb");
    leaves(&rt, rt.alloc(), &written, 2, b"aY");
    leaves(&rt, rt.alloc(), &written, 3, b"XY");
    same(&rt, written.sync(), Ok(()));
    leaves(&rt, rt.alloc(), &written, 0, b"XY");
}

// Two lines and three bytes, and how many ways there are to store or lose each of these.
const SHORT: &[u8] = b"A\nB\nC\0D";

const WAYS: u64 = 8;

// Opens what a crash leaves of a file, in each way.
fn opens_after_crashes(rt: &impl Abort, alloc: Global, left: &Memory) {
    for number in 0..WAYS {
        let crashed = left.after_crash(alloc, number).expect(rt, "no memory");
        opens_with(rt, alloc, crashed, b"A\nB\n");
    }
}

// Opens a file that freezes at a call of that, and then what it left.
fn freezes(rt: &impl Abort, alloc: Global, calls: usize) {
    let torn = FailingDevice::new(file(rt, alloc, SHORT), calls);
    match DiskJournal::open(alloc, torn, Vec::new(alloc)) {
        Ok(_) => holds(rt, false, calls),
        Err((fault, left)) => {
            same(rt, fault, OpenFault::Device(DeviceFault::Failed));
            let (left, _) = left.into_inner();
            opens_after_crashes(rt, alloc, &left);
            opens_with(rt, alloc, left, b"A\nB\n");
        }
    }
}

// How many calls open that file.
const OPENING: usize = 5;

#[test]
fn a_file_that_froze_at_a_call_has_its_lines(rt: HostRuntime) {
    for calls in 0..OPENING {
        freezes(&rt, rt.alloc(), calls);
    }
}

// Tells that this file is a journal of the lines, or of the lines and the piece.
fn opens_with_or_without(rt: &impl Abort, alloc: Global, left: Memory) {
    match DiskJournal::open(alloc, left, Vec::new(alloc)) {
        Ok((_, lines)) => {
            let is_whole = lines.as_slice() == b"A\nB\nE\n".as_slice();
            holds(
                rt,
                is_whole || lines.as_slice() == b"A\nB\n".as_slice(),
                "a torn line",
            );
        }
        Err((fault, _)) => holds(rt, false, fault),
    }
}

// Adds a piece to a journal that freezes after so many calls, and opens what a crash leaves, in each way.
fn freezes_adding(rt: &impl Abort, alloc: Global, calls: usize) {
    let torn = FailingDevice::new(file(rt, alloc, SHORT), calls);
    match DiskJournal::open(alloc, torn, Vec::new(alloc)) {
        Ok((mut journal, _)) => {
            let failed = Err(JournalFault::Device(DeviceFault::Failed));
            same(rt, journal.append(b"E\n"), failed);
            let (left, _) = journal.into_device().into_inner();
            for number in 0..WAYS {
                let crashed = left.after_crash(alloc, number).expect(rt, "no memory");
                opens_with_or_without(rt, alloc, crashed);
            }
        }
        Err((fault, _)) => holds(rt, false, fault),
    }
}

#[test]
fn a_crash_while_a_piece_is_added_leaves_no_torn_line(rt: HostRuntime) {
    for calls in OPENING..OPENING + 2 {
        freezes_adding(&rt, rt.alloc(), calls);
    }
}

#[test]
fn a_crash_after_a_piece_leaves_it(rt: HostRuntime) {
    match DiskJournal::open(
        rt.alloc(),
        file(&rt, rt.alloc(), TORN),
        Vec::new(rt.alloc()),
    ) {
        Ok((mut journal, _)) => {
            same(&rt, journal.append(b"E\n"), Ok(()));
            let crashed = journal.into_device().after_crash(rt.alloc(), 0);
            opens_with(
                &rt,
                rt.alloc(),
                crashed.expect(&rt, "no memory"),
                b"A\nB\nE\n",
            );
        }
        Err((fault, _)) => holds(&rt, false, fault),
    }
}

// Makes a journal of a file that freezes at a call of that, and then of what it left.
fn freezes_new(rt: &impl Abort, alloc: Global, calls: usize) {
    let left = FailingDevice::new(file(rt, alloc, b"left"), calls);
    match DiskJournal::create(alloc, left, b"A\n") {
        Ok(_) => holds(rt, false, calls),
        Err((fault, left)) => {
            same(rt, fault, CreateFault::Device(DeviceFault::Failed));
            let (left, _) = left.into_inner();
            match DiskJournal::create(alloc, left, b"B\n") {
                Ok(journal) => opens_with(rt, alloc, journal.into_device(), b"B\n"),
                Err((fault, _)) => holds(rt, false, fault),
            }
        }
    }
}

#[test]
fn a_file_that_froze_while_it_was_made_is_made_again(rt: HostRuntime) {
    for calls in 0..5 {
        freezes_new(&rt, rt.alloc(), calls);
    }
}
