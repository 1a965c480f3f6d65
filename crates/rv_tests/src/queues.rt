//! A test of room in a queue for one more of either side, which the program makes for one side at a time.
use rv_dual::Dual;

#[test]
fn room_is_made_on_both_sides(rt: HostRuntime) {
    Dual::new(rt.alloc()).reserve().expect(&rt, "no memory");
}
