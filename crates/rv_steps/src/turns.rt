//! Items put and taken in turn by the program itself: what a machine takes as its entries grow.

use crate::EPOCH;
use rv_account::rules::Limits;
use rv_machine::{Machine, Said};
use rv_text::{Call, Item, Key, Message, NoMemory, Version, Wait};
use std::alloc::Global;

// How many clients take turns, numbered from 1.
const CLIENTS: u64 = 16;

// How many items stay open beside.
const OPEN: u64 = 1_000;

// The queue, and the text of each item.
const QUEUE: u64 = 3;

const TEXT: &str =
    "An item of one hundred bytes, as the measurements have it: it says nothing, and it says so at length";

// The client whose turn it is.
fn client_of(turn: u64) -> u64 {
    turn % CLIENTS + 1
}

// The next number of the client whose turn it is, where each turn has so many requests.
fn number_of(turn: u64, requests: u64) -> u64 {
    (turn / CLIENTS).saturating_mul(requests).saturating_add(1)
}

// Whether the machine heard a message, and didn't refuse it.
fn is_heard(limits: &Limits, machine: &mut Machine, message: Message) -> bool {
    if !message.fits() {
        return false;
    }
    let made = machine.elapse(0);
    !matches!(
        machine.hear(limits, made.moment, message).said,
        Said::Refused(_)
    )
}

// A client's request.
fn request(client: u64, number: u64, call: Call) -> Message {
    let key = Key {
        epoch: EPOCH,
        client,
        incarnation: 1,
        number,
    };
    Message::Request { key, call }
}

// A client's put of an item.
fn put(alloc: Global, client: u64, number: u64) -> Result<Message, NoMemory> {
    let item = Item::from_text(String::from_str(alloc, TEXT)?);
    Ok(request(client, number, Call::Put { queue: QUEUE, item }))
}

// A client's take of the oldest item.
fn take(client: u64, number: u64) -> Message {
    let take = Call::Take {
        queue: QUEUE,
        wait: Wait::Now,
    };
    request(client, number, take)
}

// Whether each client's hello was heard.
fn all_greet(limits: &Limits, machine: &mut Machine) -> bool {
    for client in 0..CLIENTS {
        let hello = Message::Hello {
            client: client_of(client),
            incarnation: 1,
            version: Version::One,
        };
        if !is_heard(limits, machine, hello) {
            return false;
        }
    }
    true
}

// Whether all items that stay open were put, each client's in turn.
fn all_put(alloc: Global, limits: &Limits, machine: &mut Machine) -> Result<bool, NoMemory> {
    for turn in 0..OPEN {
        let put = put(alloc, client_of(turn), number_of(turn, 1))?;
        if !is_heard(limits, machine, put) {
            return Ok(false);
        }
    }
    Ok(true)
}

// Whether in so many turns a client put an item and took the oldest.
fn all_turn(
    alloc: Global,
    limits: &Limits,
    machine: &mut Machine,
    turns: u64,
) -> Result<bool, NoMemory> {
    for turn in 0..turns {
        let client = client_of(turn);
        let before = number_of(OPEN.saturating_sub(client), 1);
        let number = number_of(turn, 2).saturating_add(before);
        let put = put(alloc, client, number)?;
        if !is_heard(limits, machine, put) {
            return Ok(false);
        }
        if !is_heard(limits, machine, take(client, number.saturating_add(1))) {
            return Ok(false);
        }
    }
    Ok(true)
}

/// Opens 16 sessions, puts 1,000 items of 100 bytes that stay open, and then so many times puts one and takes
/// the oldest. Tells whether nothing was refused.
pub(crate) fn take_turns(
    alloc: Global,
    limits: &Limits,
    machine: &mut Machine,
    turns: u64,
) -> Result<bool, NoMemory> {
    Ok(
        all_greet(limits, machine)
            && all_put(alloc, limits, machine)?
            && all_turn(alloc, limits, machine, turns)?,
    )
}
