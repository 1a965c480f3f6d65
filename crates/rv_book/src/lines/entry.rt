//! Reads the line of an entry.
ghost use Rattle.std.specs.Prelude.{◌≡◌, ◌↔◌, ◌++◌, ◌∷◌, [], ℕ, List, None, Some, Err};
ghost use Rattle.std.specs.Prelude.{IfOk, IfSome, IsTrue, OnOk};
ghost use Rattle.rv_account.specs.declared.entry.Act as account;
ghost use Rattle.rv_account.specs.declared.entry.Entry as entries;
ghost use Rattle.rv_text.specs.Number.{WritesUpTo};
ghost use Rattle.rv_book.specs.lines.Reading.{CutsFields, ReadsEntryUpTo, SaysAct, SaysPartnersUpTo};
ghost use Rattle.rv_book.specs.lines.Reading.{SaysSomePlacesUpTo};
ghost use Rattle.rv_book.specs.lines.Written.{message_in};

use crate::lines::fault::LineFault;
use crate::lines::line::cut_at;
use crate::{Act, Entry, MAX_MOMENT, Partners, Place};
use rv_text::{Message, NoMemory, decode_message, read_plain};
use std::alloc::Global;

/// The entry that a line says by its three fields, separated by one space: the moment; the places of the
/// partners with commas between, each at most the greatest, or `-`; and a body of the message, or the word
/// `tick`.
pub fn read_entry(alloc: Global, line: &[u8], greatest_place: u64) -> Result<Entry, LineFault>
    ensures reads { IfOk result (ReadsEntryUpTo greatest_place line.now) }
    ensures bad { result ≡ Err LineFault.Bad
        → (e : entries.Entry) → ¬ ReadsEntryUpTo greatest_place line.now e }
{
    let (moment, places, field) = cut_fields(line).ok_or(LineFault::Bad)?;
    let partners = read_partners(alloc, places, greatest_place)?;
    let act = read_act(alloc, field)?;
    Ok(Entry {
        moment,
        act,
        partners,
    })
}

// The moment of a line, its partners' field, and all bytes after the next space.
fn cut_fields(line: &[u8]) -> Option<(u64, &[u8], &[u8])>
    ensures some { IfSome result (λ f. CutsFields line.now f.0 f.1.now f.2.now) }
    ensures none { result ≡ None → (moment : ℕ) (partners field : List ℕ)
        → ¬ CutsFields line.now moment partners field }
{
    let (moment, fields) = cut_at(b' ', line)?;
    let (partners, field) = cut_at(b' ', fields)?;
    let moment = read_plain(moment, MAX_MOMENT)?;
    Some((moment, partners, field))
}

// The partners that a field says: places with commas between, or `-` for none.
fn read_partners(alloc: Global, field: &[u8], greatest_place: u64) -> Result<Partners, LineFault>
    ensures reads { IfOk result (SaysPartnersUpTo greatest_place field.now) }
    ensures bad { result ≡ Err LineFault.Bad
        → (partners : List ℕ) → ¬ SaysPartnersUpTo greatest_place field.now partners }
{
    if is_text(field, b"-") {
        return Ok(Partners::none(alloc));
    }
    let places = read_places(alloc, field, greatest_place)?;
    Ok(Partners::from_vec(places))
}

// The places that a field says: one at least, with commas between.
fn read_places(alloc: Global, field: &[u8], greatest_place: u64) -> Result<Vec<Place>, LineFault>
    ensures reads { IfOk result (λ places. SaysSomePlacesUpTo greatest_place field.now places.items) }
    ensures bad { result ≡ Err LineFault.Bad
        → (places : List ℕ) → ¬ SaysSomePlacesUpTo greatest_place field.now places }
{
    let mut places = Vec::new(alloc);
    let mut rest = field;
    while let Some((piece, after)) = cut_at(b',', rest) {
        let place = read_place(piece, greatest_place).ok_or(LineFault::Bad)?;
        keep(&mut places, place)?;
        rest = after;
    }
    let place = read_place(rest, greatest_place).ok_or(LineFault::Bad)?;
    keep(&mut places, place)?;
    Ok(places)
}

// The place that a piece of a field says.
fn read_place(piece: &[u8], greatest_place: u64) -> Option<Place>
    ensures some { IfSome result (WritesUpTo greatest_place piece.now) }
    ensures none { result ≡ None → (place : ℕ) → ¬ WritesUpTo greatest_place piece.now place }
{
    let place = read_plain(piece, greatest_place)?;
    Some(place as usize)
}

// Adds a place to those that were read.
fn keep(places: &mut Vec<Place>, place: Place) -> Result<(), NoMemory>
    ensures { OnOk result (places.new.items ≡ places.old.items ++ place ∷ []) }
{
    Ok(places.push(place)?)
}

// The act that a field says: that of a message's body, or `tick`.
fn read_act(alloc: Global, field: &[u8]) -> Result<Act, LineFault>
    ensures reads { IfOk result (SaysAct field.now) }
    ensures bad { result ≡ Err LineFault.Bad → (act : account.Act) → ¬ SaysAct field.now act }
{
    if is_text(field, b"tick") {
        return Ok(Act::Tick);
    }
    let message = decode_message(alloc, field)?;
    Ok(act_of(message))
}

// The act that records a message.
fn act_of(message: Message) -> Act
    ensures { message_in result ≡ Some message }
{
    match message {
        Message::Hello {
            client,
            incarnation,
            version,
        } => Act::Hello {
            client,
            incarnation,
            version,
        },
        Message::Request { key, call } => Act::Arrive { key, call },
        Message::Cancel { key } => Act::Cancel { key },
    }
}

// Whether the bytes are this text.
fn is_text(bytes: &[u8], text: &[u8]) -> bool
    ensures { IsTrue result ↔ (bytes.now ≡ text.now) }
{
    bytes == text
}
