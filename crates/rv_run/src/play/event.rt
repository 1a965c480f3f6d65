//! Reads the event that a line of a play says.
ghost use Rattle.std.specs.Prelude.{◌≡◌, ◌↔◌, ℕ, Err, None, IfOk, IfSome, IsTrue, codes};
ghost use Rattle.rv_text.specs.Number.{WritesNumber};
ghost use Rattle.rv_text.specs.declared.call.Call as calls;
ghost use Rattle.rv_world.specs.declared.parts.event.Event.TheVariants as event;
ghost use Rattle.rv_run.specs.play.Parts.{SaysAtMostBegin, SaysNoneOfOne, SaysParts};
ghost use Rattle.rv_run.specs.play.Reading.{SayRest, SaysEvent, SaysNoEvent, SaysSession};
ghost use Rattle.rv_text.specs.declared.version.Version.{Version};

use rv_book::lines::{LineFault, cut_at};
use rv_text::{Version, decode_call, read_identifier, read_number};
use rv_world::Event;
use std::alloc::Global;

/// The event that a line says: its word and then its fields, with one space between each two.
pub(crate) fn read_event(alloc: Global, line: &[u8]) -> Result<Event, LineFault>
    ensures says { IfOk result (SaysEvent line.now) }
    ensures bad { result ≡ Err LineFault.Bad → SaysNoEvent line.now }
{
    let (word, fields) = cut_at(b' ', line).ok_or(LineFault::Bad)?;
    if is_word(word, b"begin") {
        return begin(alloc, fields);
    }
    event_of(word, fields).ok_or(LineFault::Bad)
}

// The event of a word, with these fields. That of `begin` is none of them.
fn event_of(word: &[u8], fields: &[u8]) -> Option<Event>
    ensures says { IfSome result (SaysParts word.now fields.now) }
    ensures none { result ≡ None → SaysAtMostBegin word.now fields.now }
{
    if is_word(word, b"start") {
        return start(fields);
    }
    if is_word(word, b"server") {
        return to_server(fields);
    }
    if is_word(word, b"client") {
        return Some(Event::ToClient(read_packet(fields)?));
    }
    of_identifier(word, fields)
}

// The event of a word after which an identifier comes alone, that of a client or of an epoch.
fn of_identifier(word: &[u8], identifier: &[u8]) -> Option<Event>
    ensures says { IfSome result (SaysParts word.now identifier.now) }
    ensures none { result ≡ None → SaysNoneOfOne word.now identifier.now }
{
    let number = read_identifier(identifier)?;
    if is_word(word, b"resend") {
        return Some(Event::Resend(number));
    }
    if is_word(word, b"cancel") {
        return Some(Event::CancelSent(number));
    }
    if is_word(word, b"crash") {
        return Some(Event::Crash(number));
    }
    if is_word(word, b"epoch") {
        return Some(Event::NewEpoch(number));
    }
    None
}

// Whether the bytes are this word.
fn is_word(bytes: &[u8], word: &[u8]) -> bool
    ensures { IsTrue result ↔ (bytes.now ≡ word.now) }
{
    bytes == word
}

// The fields of `start`: a client, an incarnation and, where it is 2, the version.
fn start(fields: &[u8]) -> Option<Event>
    ensures says { IfSome result (SaysParts (codes "start") fields.now) }
    ensures none { result ≡ None → (client incarnation : ℕ) (version : Version)
        → ¬ SayRest fields.now (event.Start client incarnation version) }
{
    let (client, session) = cut_at(b' ', fields)?;
    let (incarnation, version) = read_session(session)?;
    Some(Event::Start(read_identifier(client)?, incarnation, version))
}

// An incarnation of version 1, or one with the version 2 after it.
fn read_session(fields: &[u8]) -> Option<(u64, Version)>
    ensures says { IfSome result (λ session. SaysSession fields.now session.0 session.1) }
    ensures none { result ≡ None → (incarnation : ℕ) (version : Version)
        → ¬ SaysSession fields.now incarnation version }
{
    match cut_at(b' ', fields) {
        None => Some((read_identifier(fields)?, Version::One)),
        Some((incarnation, version)) if is_word(version, b"2") => {
            Some((read_identifier(incarnation)?, Version::Two))
        }
        Some(_) => None,
    }
}

// The fields of `begin`: a client and the text of a call.
fn begin(alloc: Global, fields: &[u8]) -> Result<Event, LineFault>
    ensures says { IfOk result (SaysParts (codes "begin") fields.now) }
    ensures bad { result ≡ Err LineFault.Bad → (client : ℕ) (call : calls.Call)
        → ¬ SayRest fields.now (event.Begin client call) }
{
    let (client, text) = cut_at(b' ', fields).ok_or(LineFault::Bad)?;
    let client = read_identifier(client).ok_or(LineFault::Bad)?;
    Ok(Event::Begin(client, decode_call(alloc, text)?))
}

// The fields of `server`: a packet's number and a moment.
fn to_server(fields: &[u8]) -> Option<Event>
    ensures says { IfSome result (SaysParts (codes "server") fields.now) }
    ensures none { result ≡ None → (packet moment : ℕ)
        → ¬ SayRest fields.now (event.ToServer packet moment) }
{
    let (packet, moment) = cut_at(b' ', fields)?;
    Some(Event::ToServer(read_packet(packet)?, read_number(moment)?))
}

// The number of a packet. Every number of so many digits is one, whether the packet was sent or not.
fn read_packet(text: &[u8]) -> Option<usize>
    ensures some { IfSome result (WritesNumber text.now) }
    ensures none { result ≡ None → (n : ℕ) → ¬ WritesNumber text.now n }
{
    Some(read_number(text)? as usize)
}
