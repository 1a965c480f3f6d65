//! A test that a deadline that is already there is added again without memory.
use crate::expect::same;
use rv_due::Due;
use std::alloc::AllocGlobal;
use std::process::Abort;

// Forty deadlines are added, each so many times as soon as it is there.
fn add_forty(rt: &(impl Abort + AllocGlobal), times: u32) {
    let mut due = Due::new(rt.alloc());
    for place in 0..40 {
        for _ in 0..times {
            due.add(10, place).expect(rt, "no memory");
        }
    }
    same(rt, due.len(), 40);
}

// This and the next ask for as many growths (tests/faults/refusals.py): to add what is there takes no memory.
#[test]
fn forty_are_added(rt: HostRuntime) {
    add_forty(&rt, 1);
}

#[test]
fn forty_are_added_twice(rt: HostRuntime) {
    add_forty(&rt, 2);
}
