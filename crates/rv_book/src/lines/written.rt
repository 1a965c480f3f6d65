//! Writes the lines of an account.
ghost use Rattle.std.specs.Prelude.{◌≡◌, ◌≤◌, ◌++◌, ◌∷◌, IfOk, OnOk, length, string_bytes};
ghost use Rattle.std.specs.Fmt.{decimal};
ghost use Rattle.rv_account.specs.Limits.{FitsAct};
ghost use Rattle.rv_book.specs.lines.EntryText.{FitPartners, IsShort, entry_text, head_text, message_in};
ghost use Rattle.rv_book.specs.lines.EntryText.{partners_text, places_text, said_text};

use rv_account::{Act, Entry, Partners, Place};
use rv_text::{Message, NoMemory, encode_message, encode_request};
use std::alloc::Global;

/// The first line of an account, with no LF: `epoch E opened T`. It is shorter than 65,727 bytes. Fails only
/// if memory was refused.
pub fn head_line(alloc: Global, epoch: u64, opened: u64) -> Result<String, NoMemory>
    ensures text { IfOk result (λ s. string_bytes s ≡ head_text epoch opened) }
    ensures short { IfOk result (λ s. IsShort (string_bytes s)) }
{
    format!(in alloc; "epoch {epoch} opened {opened}")
}

/// The line of an entry, with no LF: three fields, separated by one space. They are the moment; the places of
/// the partners with commas between, or `-`; and the written body of the message, or the word `tick`. It is
/// shorter than 65,727 bytes if the act is within its limits and the entry names at most 16 partners, at
/// places up to 99,999. Fails only if memory was refused.
pub fn entry_line(alloc: Global, entry: &Entry) -> Result<String, NoMemory>
    ensures text { IfOk result (λ s. string_bytes s ≡ entry_text entry.now) }
    ensures short { FitsAct entry.now.act → FitPartners entry.now
        → IfOk result (λ s. IsShort (string_bytes s)) }
{
    let moment = entry.moment;
    let partners = partners_field(alloc, &entry.partners)?;
    let act = act_field(alloc, &entry.act)?;
    format!(in alloc; "{moment} {partners} {act}")
}

// The places of the partners with commas between, or `-`.
fn partners_field(alloc: Global, partners: &Partners) -> Result<String, NoMemory>
    ensures { IfOk result (λ s. string_bytes s ≡ partners_text partners.now) }
{
    match partners.as_slice().split_first() {
        Some((first, more)) => places_field(alloc, *first, more),
        None => String::from_str(alloc, "-"),
    }
}

// A place and those after it, with commas between.
fn places_field(alloc: Global, first: Place, more: &[Place]) -> Result<String, NoMemory>
    ensures { IfOk result (λ s. string_bytes s ≡ places_text first more.now) }
{
    let mut field = format!(in alloc; "{first}")?;
    for place in more {
        add_place(&mut field, alloc, *place)?;
    }
    Ok(field)
}

// Adds a comma and a place.
fn add_place(field: &mut String, alloc: Global, place: Place) -> Result<(), NoMemory>
    ensures { OnOk result (string_bytes field.new ≡ string_bytes field.old ++ 44 ∷ decimal place) }
{
    let more = format!(in alloc; ",{place}")?;
    field.push_str(more.as_str())
}

// The body of the act's message, or `tick`.
fn act_field(alloc: Global, act: &Act) -> Result<String, NoMemory>
    ensures text { IfOk result (λ s. string_bytes s ≡ said_text (message_in act.now)) }
    ensures short { FitsAct act.now → IfOk result (λ s. length (string_bytes s) ≤ 65535) }
{
    match act {
        Act::Hello {
            client,
            incarnation,
            version,
        } => {
            let hello = Message::Hello {
                client: *client,
                incarnation: *incarnation,
                version: *version,
            };
            encode_message(alloc, &hello)
        }
        Act::Arrive { key, call } => encode_request(alloc, key, call),
        Act::Cancel { key } => encode_message(alloc, &Message::Cancel { key: *key }),
        Act::Tick => String::from_str(alloc, "tick"),
    }
}
