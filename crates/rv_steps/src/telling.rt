//! Writes what a hub did, and what it is, into a text.
//!
//! Each event has its lines, `ok RESULT` or `refused WHY` first. Then come `+ ENTRY` for each entry, as
//! an account has it, and for each connection that changed `N closed` or `N open WAITS UNREAD HELD OFFERS
//! BYTES`: 0 or 1 for whether it waits and may offer, and the bytes to hand out, in digits, or where they
//! are over 2,000 as `COUNT:HIGH.LOW`, by the halves of their Adler-32 sum. The last is `= HELD MOMENT COUNT
//! KEYS`: the bytes held for all; the next moment, or `-`; how many requests wait for which no connection
//! does, and their keys by client, as `CLIENT.INCARNATION.NUMBER`. `show` has lines too: `shown`, the open
//! connections among so many numbers, and the last line.
use crate::hexes::{written_hex, written_sum};
use rv_account::Entry;
use rv_book::lines::entry_line;
use rv_hub::{EventRefusal, Hub};
use rv_server_connections::connection::Wire;
use rv_server_connections::subscribers::ConnectionNumber;
use rv_text::NoMemory;
use std::alloc::Global;

// More bytes to hand out are shown as their sum.
const MOST_SHOWN: usize = 2_000;

// The word of a refusal.
fn word_of(refusal: EventRefusal) -> &'static str {
    match refusal {
        EventRefusal::NotOpen => "not_open",
        EventRefusal::HasEnded => "has_ended",
        EventRefusal::NotOffered => "not_offered",
        EventRefusal::WrittenFalls => "written_falls",
        EventRefusal::NotMade => "not_made",
        EventRefusal::NoMemory => "no_memory",
    }
}

/// Writes what came of an event.
pub(crate) fn tell(
    alloc: Global,
    text: &mut Vec<u8>,
    hub: &Hub,
    came: Result<usize, EventRefusal>,
) -> Result<(), NoMemory> {
    match came {
        Ok(count) => tell_taken(alloc, text, hub, count)?,
        Err(refusal) => tell_refused(text, word_of(refusal))?,
    }
    tell_totals(alloc, text, hub)
}

// Writes why an event wasn't taken.
fn tell_refused(text: &mut Vec<u8>, word: &str) -> Result<(), NoMemory> {
    text.extend_from_slice(b"refused ")?;
    text.extend_from_slice(word.as_bytes())?;
    text.extend_from_slice(b"\n")
}

// Writes what came of an event that was taken.
fn tell_taken(alloc: Global, text: &mut Vec<u8>, hub: &Hub, count: usize) -> Result<(), NoMemory> {
    tell_count(alloc, text, count)?;
    for entry in hub.entries() {
        tell_entry(alloc, text, entry)?;
    }
    for connection in hub.changed() {
        tell_connection(alloc, text, *connection, hub.wire(*connection))?;
    }
    Ok(())
}

// Writes what an event gives.
fn tell_count(alloc: Global, text: &mut Vec<u8>, count: usize) -> Result<(), NoMemory> {
    let line = format!(in alloc; "ok {count}\n")?;
    text.extend_from_slice(line.as_bytes())
}

// Writes an entry.
fn tell_entry(alloc: Global, text: &mut Vec<u8>, entry: &Entry) -> Result<(), NoMemory> {
    let line = entry_line(alloc, entry)?;
    add_entry(text, line.as_bytes())
}

// Adds the line of an entry.
fn add_entry(text: &mut Vec<u8>, line: &[u8]) -> Result<(), NoMemory> {
    text.extend_from_slice(b"+ ")?;
    text.extend_from_slice(line)?;
    text.extend_from_slice(b"\n")
}

/// Writes the open connections among so many numbers, and what is asked of the whole hub.
pub(crate) fn show(
    alloc: Global,
    text: &mut Vec<u8>,
    hub: &Hub,
    count: usize,
) -> Result<(), NoMemory> {
    text.extend_from_slice(b"shown\n")?;
    for connection in 0..count {
        if let Some(wire) = hub.wire(connection) {
            tell_open(alloc, text, connection, wire)?;
        }
    }
    tell_totals(alloc, text, hub)
}

// Writes a connection.
fn tell_connection(
    alloc: Global,
    text: &mut Vec<u8>,
    connection: ConnectionNumber,
    wire: Option<&Wire>,
) -> Result<(), NoMemory> {
    match wire {
        Some(wire) => tell_open(alloc, text, connection, wire),
        None => tell_closed(alloc, text, connection),
    }
}

// Writes one that is closed.
fn tell_closed(
    alloc: Global,
    text: &mut Vec<u8>,
    connection: ConnectionNumber,
) -> Result<(), NoMemory> {
    let line = format!(in alloc; "{connection} closed\n")?;
    text.extend_from_slice(line.as_bytes())
}

// Writes one that is open.
fn tell_open(
    alloc: Global,
    text: &mut Vec<u8>,
    connection: ConnectionNumber,
    wire: &Wire,
) -> Result<(), NoMemory> {
    tell_state(alloc, text, connection, wire)?;
    tell_bytes(alloc, text, wire.ready())?;
    text.extend_from_slice(b"\n")
}

// Writes the state of an open connection.
fn tell_state(
    alloc: Global,
    text: &mut Vec<u8>,
    connection: ConnectionNumber,
    wire: &Wire,
) -> Result<(), NoMemory> {
    let (waits, offers) = (wire.owes() as u8, wire.may_offer() as u8);
    let (unread, held) = (wire.unread_count(), wire.held());
    let line = format!(in alloc; "{connection} open {waits} {unread} {held} {offers} ")?;
    text.extend_from_slice(line.as_bytes())
}

// Writes bytes to hand out; where they are many, how many and their sum.
fn tell_bytes(alloc: Global, text: &mut Vec<u8>, bytes: &[u8]) -> Result<(), NoMemory> {
    if bytes.len() > MOST_SHOWN {
        let sum = written_sum(alloc, bytes)?;
        return text.extend_from_slice(sum.as_bytes());
    }
    let digits = written_hex(alloc, bytes)?;
    text.extend_from_slice(&digits)
}

// Writes what is asked of the whole hub.
fn tell_totals(alloc: Global, text: &mut Vec<u8>, hub: &Hub) -> Result<(), NoMemory> {
    tell_counts(alloc, text, hub)?;
    tell_unheard(alloc, text, hub)?;
    text.extend_from_slice(b"\n")
}

// Writes the bytes that are held, the next moment and how many requests nobody waits for.
fn tell_counts(alloc: Global, text: &mut Vec<u8>, hub: &Hub) -> Result<(), NoMemory> {
    let (held, count) = (hub.held(), hub.unheard());
    let line = match hub.next_moment() {
        Some(moment) => format!(in alloc; "= {held} {moment} {count}")?,
        None => format!(in alloc; "= {held} - {count}")?,
    };
    text.extend_from_slice(line.as_bytes())
}

// Writes the keys of the requests that wait for which no connection does, by client.
fn tell_unheard(alloc: Global, text: &mut Vec<u8>, hub: &Hub) -> Result<(), NoMemory> {
    let mut after = None;
    for _ in 0..hub.machine().clients() {
        let Some((client, session)) = hub.machine().next_client(after) else {
            return Ok(());
        };
        if hub.is_unheard(client) {
            tell_key(alloc, text, client, session.incarnation, session.last)?;
        }
        after = Some(client);
    }
    Ok(())
}

// Writes the numbers of a key.
fn tell_key(
    alloc: Global,
    text: &mut Vec<u8>,
    client: u64,
    incarnation: u64,
    number: u64,
) -> Result<(), NoMemory> {
    let line = format!(in alloc; " {client}.{incarnation}.{number}")?;
    text.extend_from_slice(line.as_bytes())
}
