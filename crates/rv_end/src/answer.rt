//! One request for the status of a server, and its answer, over HTTP.
ghost use Rattle.std.specs.Prelude.{◌≡◌, ◌≤◌, IfOk, IsTrue, length, option_map, string_bytes};
ghost use Rattle.rv_end.specs.Asking.{AsksStatus, GathersAnswer, IsStatusAnswer, after_gap, begins_gap};
ghost use Rattle.rv_end.specs.Asking.{body_in, request_text};
ghost use Rattle.rv_end.specs.Told.{GivesStatus};

use crate::fault::StatusFault;
use crate::told::{StatusTold, read_told};
use rv_frame::{Sink, Source};
use std::alloc::{AllocError, Global};
use std::io::{Read, Write};

// The most bytes of an answer: 4 MiB. Those of a server are some 20,000.
const MAX_ANSWER_BYTES: usize = 4_194_304;

// How many bytes are asked for at a time.
const PIECE_BYTES: usize = 65_536;

/// Asks a server for its status, once, reads the answer to its end, and returns what the status says. The
/// host is the one in the server's address, as it was written.
///
/// An answer counts only if its first line says 200. One of more than 4,194,304 bytes isn't read to its end.
pub fn ask_status<R: Read, W: Write>(
    alloc: Global,
    host: &str,
    from: &mut Source<R>,
    to: &mut Sink<W>,
) -> Result<StatusTold, StatusFault>
    ensures { AsksStatus R.remaining W.contents host.now from.old from.new to.old to.new result }
{
    let request = request_text(alloc, host)?;
    to.write_all(request.as_bytes())?;
    let answer = gather(alloc, from)?;
    read_answer(alloc, answer.as_slice())
}

// The text of the request.
fn request_text(alloc: Global, host: &str) -> Result<String, AllocError>
    ensures { IfOk result (λ text. string_bytes text ≡ request_text host.now) }
{
    format!(in alloc; "GET /status.json HTTP/1.1\r\nHost: {host}\r\nConnection: close\r\n\r\n")
}

// All the bytes of an answer.
fn gather<R: Read>(alloc: Global, from: &mut Source<R>) -> Result<Vec<u8>, StatusFault>
    ensures { GathersAnswer R.remaining from.old from.new result }
{
    let mut answer = Vec::new(alloc);
    let mut piece = [0u8; PIECE_BYTES];
    loop {
        let count = from.read(&mut piece)?;
        if count == 0 {
            return Ok(answer);
        }
        if count > MAX_ANSWER_BYTES - answer.len() {
            return Err(StatusFault::TooLong);
        }
        answer.extend_from_slice(&piece[..count])?;
    }
}

// What an answer says.
fn read_answer(alloc: Global, answer: &[u8]) -> Result<StatusTold, StatusFault>
    ensures { GivesStatus (IsStatusAnswer answer.now) result }
{
    match body_of(answer) {
        Some(body) => read_told(alloc, body),
        None => Err(StatusFault::NotUnderstood),
    }
}

// The body of an answer of 200.
fn body_of(answer: &[u8]) -> Option<&[u8]>
    ensures { option_map (λ body. body.now) result ≡ body_in answer.now }
{
    if answer.starts_with(b"HTTP/1.1 200 ") {
        after_gap(answer)
    } else {
        None
    }
}

// What stands after the first empty line.
fn after_gap(text: &[u8]) -> Option<&[u8]>
    ensures { option_map (λ rest. rest.now) result ≡ after_gap text.now }
{
    let mut rest = text;
    while let Some((_, after)) = rest.split_first() {
        if begins_gap(rest) {
            return Some(&rest[4..]);
        }
        rest = after;
    }
    None
}

// Whether the end of a line and an empty line begin the bytes.
fn begins_gap(bytes: &[u8]) -> bool
    ensures gap { result ≡ begins_gap bytes.now }
    ensures long { IsTrue result → 4 ≤ length bytes.now }
{
    match bytes {
        [first, second, third, fourth, ..] => {
            *first == b'\r' && *second == b'\n' && *third == b'\r' && *fourth == b'\n'
        }
        _ => false,
    }
}
