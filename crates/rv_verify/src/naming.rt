//! Reads again the entries before one that names a closed place, and says which rule that entry breaks.
ghost use Rattle.std.specs.Prelude.{◌≡◌, ◌<◌, ◌⊎◌, ℕ, List, Ok, Err, Some, IfOk, IsOk, length, true, false};
ghost use Rattle.rv_account.specs.Account.{Among, call_in};
ghost use Rattle.rv_account.specs.declared.entry.Entry as entries;
ghost use Rattle.rv_audit.specs.declared.rule.Rule.TheVariants.{P1};
ghost use Rattle.rv_book.specs.lines.Lines.{lines};
ghost use Rattle.rv_text.specs.Calls.{side_of};
ghost use Rattle.rv_text.specs.declared.call.Call as calls;
ghost use Rattle.rv_verify.specs.Naming.{AreReadAs, BeginAlike, HasMet, IsRuleAt, MeetsOne, rule_by_side};
ghost use Rattle.rv_verify.specs.Verdicts.{ReadsLongEntry, TellsNotOpen};

use crate::fault::VerifyFault;
use crate::parts::{NextPart, next_line};
use rv_account::{Act, Entry, Place};
use rv_audit::Rule;
use rv_book::lines::{LineFault, read_entry};
use rv_text::{MAX_IDENTIFIER, Side};
use std::alloc::Global;
use std::io::BufRead;

/// The rule that the entry at a place breaks first, if the verdict on an account is that it names a closed
/// place. The reader begins with the lines of the same account, and ends no earlier than after that entry's
/// line; `None` means that it doesn't.
pub fn rule_at<B: BufRead>(
    alloc: Global,
    reader: &mut B,
    place: Place,
    entry: &Entry,
) -> Result<Option<Rule>, VerifyFault>
    ensures told { (all : List (List ℕ)) (bytes : List ℕ) → B.remaining reader.old ≡ Some bytes
        → TellsNotOpen all place entry.now → BeginAlike all (lines bytes) place
        → IfOk result (IsRuleAt all place) }
{
    let mut line = Vec::new(alloc);
    rule_read(alloc, reader, &mut line, place, entry)
}

// The same, with room for a line.
fn rule_read<B: BufRead>(
    alloc: Global,
    reader: &mut B,
    line: &mut Vec<u8>,
    place: Place,
    entry: &Entry,
) -> Result<Option<Rule>, VerifyFault>
    ensures told { (all : List (List ℕ)) (bytes : List ℕ) → B.remaining reader.old ≡ Some bytes
        → TellsNotOpen all place entry.now → BeginAlike all (lines bytes) place
        → IfOk result (IsRuleAt all place) }
{
    match next_line(reader, line)? {
        NextPart::Line => {}
        NextPart::Piece => return Ok(None),
        NextPart::End => return Ok(None),
    }
    match read_met(alloc, reader, line, place, entry.partners.as_slice())? {
        Some(met) => Ok(Some(rule_by(met, &entry.act))),
        None => Ok(None),
    }
}

// The rule, by whether a named place was met.
fn rule_by(met: bool, act: &Act) -> Rule
    ensures met { met ≡ true → result ≡ P1 }
    ensures unmet { met ≡ false → (call : calls.Call) → call_in act.now ≡ Some call
        → result ≡ rule_by_side (side_of call) }
{
    if met {
        return Rule::P1;
    }
    match act {
        Act::Arrive { call, .. } => rule_of(call.side()),
        Act::Hello { .. } => Rule::P1,
        Act::Cancel { .. } => Rule::P1,
        Act::Tick => Rule::P1,
    }
}

// The rule, by the side of a call that met none.
fn rule_of(side: Side) -> Rule
    ensures { result ≡ rule_by_side side }
{
    match side {
        Side::Exchanges(_) => Rule::S1,
        Side::Gives(_) => Rule::P2,
        Side::Takes(_) => Rule::P2,
        Side::Looks(_) => Rule::P2,
    }
}

// Whether one of so many next entries met a named place.
fn read_met<B: BufRead>(
    alloc: Global,
    reader: &mut B,
    line: &mut Vec<u8>,
    place: Place,
    named: &[Place],
) -> Result<Option<bool>, VerifyFault>
    ensures told { (bytes : List ℕ) (es : List entries.Entry) → B.remaining reader.old ≡ Some bytes
        → AreReadAs (lines bytes) es → length es < length (lines bytes) → length es ≡ place
        → IfOk result (HasMet es named.now) }
{
    for index in 0..place {
        match next_line(reader, line)? {
            NextPart::Line => {}
            NextPart::Piece => return Ok(None),
            NextPart::End => return Ok(None),
        }
        match line_met(alloc, line, index, named)? {
            Some(true) => return Ok(Some(true)),
            Some(false) => {}
            None => return Ok(None),
        }
    }
    Ok(Some(false))
}

// Whether the entry that a line says, and that stands at the place, met a named place; `None` if the line
// says none.
fn line_met(
    alloc: Global,
    line: &[u8],
    place: Place,
    named: &[Place],
) -> Result<Option<bool>, VerifyFault>
    ensures yes { result ≡ Ok (Some true) → (e : entries.Entry) → ReadsLongEntry line.now e
        → MeetsOne named.now place e.partners }
    ensures no { result ≡ Ok (Some false) → (e : entries.Entry) → ReadsLongEntry line.now e
        → ¬ MeetsOne named.now place e.partners }
    ensures none { result ≡ Ok None → (e : entries.Entry) → ¬ ReadsLongEntry line.now e }
{
    let read = read_entry(alloc, line, MAX_IDENTIFIER);
    tells_met(&read, place, named)
}

// The same of what was read of a line.
fn tells_met(
    read: &Result<Entry, LineFault>,
    place: Place,
    named: &[Place],
) -> Result<Option<bool>, VerifyFault>
    ensures yes { result ≡ Ok (Some true)
        → IsOk read.now × IfOk read.now (λ e. MeetsOne named.now place e.partners) }
    ensures no { result ≡ Ok (Some false)
        → IsOk read.now × IfOk read.now (λ e. ¬ MeetsOne named.now place e.partners) }
    ensures none { result ≡ Ok None → read.now ≡ Err LineFault.Bad }
{
    match read {
        Ok(entry) => Ok(Some(meets_one(named, place, entry.partners.as_slice()))),
        Err(LineFault::Bad) => Ok(None),
        Err(LineFault::NoMemory) => Err(VerifyFault::NoMemory),
    }
}

// Whether an entry at the place, with these partners, met a named place.
fn meets_one(named: &[Place], place: Place, partners: &[Place]) -> bool
    ensures yes { result ≡ true → MeetsOne named.now place partners.now }
    ensures no { result ≡ false → ¬ MeetsOne named.now place partners.now }
{
    for partner in partners {
        if meets_by(named, place, *partner) {
            return true;
        }
    }
    false
}

// Whether an entry at the place met a named place by this partner.
fn meets_by(named: &[Place], place: Place, partner: Place) -> bool
    ensures yes { result ≡ true → Among named.now partner ⊎ Among named.now place }
    ensures no { result ≡ false → ¬ (Among named.now partner ⊎ Among named.now place) }
{
    if is_among(named, partner) {
        return true;
    }
    is_among(named, place)
}

// Whether the place is one of these.
fn is_among(places: &[Place], place: Place) -> bool
    ensures yes { result ≡ true → Among places.now place }
    ensures no { result ≡ false → ¬ Among places.now place }
{
    for other in places {
        if *other == place {
            return true;
        }
    }
    false
}
