//! A test of a list of events, which no program runs as a whole, and of the world that it leads to.
use crate::expect::{holds, same};
use rv_text::{Answer, Call, Item, Key, Reply, Version};
use rv_world::{Event, World, WorldRefusal, run};
use std::process::Abort;

// After a hello and a put of client 1 there is one reply, and two entries.
fn holds_a_put(rt: &impl Abort, world: &World) {
    same(rt, (world.held().len(), world.asked().len()), (1, 1));
    let entries = world.account(1).map(|account| account.len());
    same(rt, entries, Some(2));
    let key = Key {
        epoch: 1,
        client: 1,
        incarnation: 1,
        number: 1,
    };
    let reply = Reply::Done;
    let answer = Answer::Replied { key, reply };
    holds(rt, world.answer_packet(2) == Some(&answer), "the reply");
    same(rt, world.answer_packet(3).is_none(), true);
}

// A hello and a put of this item, each of which gets to the server and back. The put gets there twice, and
// the later of its replies comes first.
fn twice_put(item: Item) -> [Event; 8] {
    let put = Call::Put { queue: 3, item };
    [
        Event::Start(1, 1, Version::One),
        Event::ToServer(0, 0),
        Event::ToClient(0),
        Event::Begin(1, put),
        Event::ToServer(1, 0),
        Event::ToServer(1, 0),
        Event::ToClient(2),
        Event::ToClient(1),
    ]
}

#[test]
fn a_list_of_events(rt: HostRuntime) {
    let text = String::from_str(rt.alloc(), "a").expect(&rt, "no memory");
    let events = twice_put(Item::from_text(text));
    assert!(rt; events.iter().all(Event::fits));
    match run(rt.alloc(), &events) {
        Ok(world) => holds_a_put(&rt, &world),
        Err((at, _)) => holds(&rt, false, at),
    }
}

#[test]
fn a_list_with_an_event_that_is_refused(rt: HostRuntime) {
    let events = [Event::Start(1, 1, Version::One), Event::Crash(2)];
    let stop = run(rt.alloc(), &events).err();
    let is_told = stop == Some((1, WorldRefusal::NoSuchClient));
    holds(&rt, is_told, "where it stops");
}
