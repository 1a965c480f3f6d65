//! Reads the lines of a hub's events.
//!
//! A line is an event, its moment first: `AT opened`, `AT came N HEX` (`-` for no bytes), `AT ended N`, `AT
//! gone N`, `AT took N COUNT`, `AT written COUNT`, `AT passed`; or `show COUNT`, which is none. Another line
//! ends the run.
use crate::hexes::read_hex;
use crate::words::read_size;
use rv_book::lines::cut_at;
use rv_hub::HubEvent;
use rv_text::{NoMemory, read_number};
use std::alloc::Global;

/// The words of a line, empty where it has no more: the moment, what came, and what else is said of that.
#[derive(Clone, Copy)]
pub(crate) struct LineWords<'a> {
    moment: &'a [u8],
    kind: &'a [u8],
    first: &'a [u8],
    second: &'a [u8],
}

/// The words of a line.
pub(crate) fn words_of(line: &[u8]) -> LineWords<'_> {
    let (moment, rest) = first_word(line);
    let (kind, rest) = first_word(rest);
    let (first, second) = first_word(rest);
    LineWords {
        moment,
        kind,
        first,
        second,
    }
}

// The first word of a text, and those after it.
fn first_word(text: &[u8]) -> (&[u8], &[u8]) {
    match cut_at(b' ', text) {
        Some((word, rest)) => (word, rest),
        None => (text, &[]),
    }
}

/// Up to which number the open connections are to be shown, if a line asks for that.
pub(crate) fn read_show(words: LineWords<'_>) -> Option<usize> {
    if words.moment != b"show".as_slice() {
        return None;
    }
    read_size(words.kind)
}

/// The bytes of a line's piece; none if it is another event.
pub(crate) fn read_piece(alloc: Global, words: LineWords<'_>) -> Result<Option<Vec<u8>>, NoMemory> {
    if words.kind == b"came".as_slice() {
        return read_hex(alloc, words.second);
    }
    Ok(Some(Vec::new(alloc)))
}

/// The event that a line says, with its moment, if it says one. Its piece was read before.
pub(crate) fn read_event<'a>(words: LineWords<'_>, piece: &'a [u8]) -> Option<(u64, HubEvent<'a>)> {
    let moment = read_number(words.moment)?;
    if words.kind == b"opened".as_slice() {
        return Some((moment, HubEvent::Opened));
    }
    if words.kind == b"passed".as_slice() {
        return Some((moment, HubEvent::Passed));
    }
    let first = read_size(words.first)?;
    if words.kind == b"came".as_slice() {
        return Some((moment, HubEvent::Came(first, piece)));
    }
    if words.kind == b"took".as_slice() {
        return Some((moment, HubEvent::Took(first, read_size(words.second)?)));
    }
    Some((moment, read_counted(words.kind, first)?))
}

// An event that has one number.
fn read_counted<'a>(kind: &[u8], first: usize) -> Option<HubEvent<'a>> {
    if kind == b"ended".as_slice() {
        return Some(HubEvent::Ended(first));
    }
    if kind == b"gone".as_slice() {
        return Some(HubEvent::Gone(first));
    }
    (kind == b"written".as_slice()).then_some(HubEvent::Written(first))
}
