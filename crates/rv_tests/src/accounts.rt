//! Tests of the copy of an account, at sizes that little else tries: a drain of 16, and over 65,535 entries.
use crate::expect::{holds, same};
use rv_account::Account;
use rv_book::{Act, Entry, Partners};
use rv_text::{Call, Key};
use std::alloc::Global;
use std::process::Abort;

// A drain, which names the first 16 entries.
fn drain(rt: &impl Abort, alloc: Global) -> Entry {
    let mut places = Vec::new(alloc);
    for place in 0..16 {
        places.push(place).expect(rt, "no memory");
    }
    let key = Key {
        epoch: 7,
        client: 1,
        incarnation: 1,
        number: 1,
    };
    let call = Call::Drain { queue: 63, max: 16 };
    Entry {
        moment: 1,
        act: Act::Arrive { key, call },
        partners: Partners::from_vec(places),
    }
}

fn tick(alloc: Global, moment: u64) -> Entry {
    Entry {
        moment,
        act: Act::Tick,
        partners: Partners::none(alloc),
    }
}

// So many ticks, and the drain.
fn account(rt: &impl Abort, alloc: Global, ticks: u64) -> Account {
    let mut entries = Vec::new(alloc);
    for moment in 0..ticks {
        entries.push(tick(alloc, moment)).expect(rt, "no memory");
    }
    entries.push(drain(rt, alloc)).expect(rt, "no memory");
    Account::from_entries(7, 3, entries)
}

#[test]
fn a_long_account_is_copied(rt: HostRuntime) {
    let account = account(&rt, rt.alloc(), 65_536);
    let copy = account.clone_out().expect(&rt, "no memory");
    same(
        &rt,
        (copy.epoch(), copy.opened(), copy.len()),
        (7, 3, 65_537),
    );
    for place in 0..65_537 {
        holds(&rt, copy.entry(place) == account.entry(place), place);
    }
}
