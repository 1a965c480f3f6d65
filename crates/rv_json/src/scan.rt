//! Reads the members of a flat object in one pass over its compact text.
ghost use Rattle.std.specs.Prelude.{◌≡◌, ◌≤◌, ◌<◌, ◌-◌, ◌∷◌, [], ◌++◌, length, take, drop};
ghost use Rattle.std.specs.Prelude.{decimal, IsTrue, IfSome, Some, ℕ};
ghost use Rattle.json.specs.Print.{escape, escape_byte, quoted};
ghost use Rattle.serde_json.specs.Data.{object};
ghost use Rattle.serde_json.specs.Read.{read};
ghost use Rattle.rv_json.specs.Bodies.{HasBodyLength, Reads};
ghost use Rattle.rv_json.specs.Flat.{flat_members};
ghost use Rattle.rv_json.specs.Scan.{plain_text, field_text, FitsPlain, BeginsByList, IsListText, mark_after};

use crate::flat::{FlatMember, Plain};
use crate::items::MAX_DRAIN;
use crate::value::has_body_length;

// The place after this byte, if it stands at the place.
#[tactic(auto, using(crate::proofs::FlatParts::byte_here))]
#[inline(always)]
pub(crate) fn after_byte(text: &str, at: usize, byte: u8) -> Option<usize>
    ensures text { IfSome result (λ next. drop at text.now ≡ byte ∷ drop next text.now) }
    ensures on { IfSome result (λ next. at < next) }
    ensures within { IfSome result (λ next. next ≤ length text.now) }
{
    let bytes = text.as_bytes();
    if at < bytes.len() && bytes[at] == byte {
        Some(at + 1)
    } else {
        None
    }
}

// Whether the byte stands for itself in a JSON string.
#[inline(always)]
fn is_plain(byte: u8) -> bool
    ensures { IsTrue result → escape_byte byte ≡ byte ∷ [] }
{
    (byte >= 32) & (byte != b'"') & (byte != b'\\')
}

// The place after the plain bytes that begin at this one.
#[inline(always)]
fn plain_end(text: &str, from: usize) -> usize
    requires { from ≤ length text.now }
    ensures end { result ≤ length text.now }
    ensures after { from ≤ result }
    ensures plain { let plain = take (result - from) (drop from text.now) in escape plain ≡ plain }
{
    let bytes = text.as_bytes();
    let mut at = from;
    'plain: while at < bytes.len() && is_plain(bytes[at]) {
        at += 1;
    }
    at
}

// The text between the quotes that stand at the place, and the place after them.
#[inline(always)]
pub(crate) fn scan_text<'a>(text: &'a str, at: usize) -> Option<(&'a str, usize)>
    ensures text { IfSome result (λ p. drop at text.now ≡ quoted p.0.now ++ drop p.1 text.now) }
    ensures on { IfSome result (λ p. at < p.1) }
{
    let Some(from) = after_byte(text, at, b'"') else {
        return None;
    };
    let end = plain_end(text, from);
    let Some(after) = after_byte(text, end, b'"') else {
        return None;
    };
    Some((text.get(from..end)?, after))
}

// A number as great as this gets no digit more: with one, some would be past 64 bits.
const MOST: u64 = 1_000_000_000_000_000_000;

// The number at the place, of 19 digits at most, and the place after it.
#[inline(always)]
fn scan_whole(bytes: &[u8], at: usize) -> Option<(u64, usize)>
    ensures text { IfSome result (λ p. drop at bytes.now ≡ decimal p.0 ++ drop p.1 bytes.now) }
    ensures on { IfSome result (λ p. at < p.1) }
{
    if at >= bytes.len() || !bytes[at].is_ascii_digit() {
        return None;
    }
    let mut value = (bytes[at] - b'0') as u64;
    let mut end = at + 1;
    if value == 0 {
        return Some((value, end));
    }
    'digits: while end < bytes.len() && value < MOST && bytes[end].is_ascii_digit() {
        value = value * 10 + (bytes[end] - b'0') as u64;
        end += 1;
    }
    Some((value, end))
}

// Whether the closing mark stands at the place, or else a comma; and the place after it.
#[inline(always)]
fn scan_mark(text: &str, at: usize, close: u8) -> Option<(bool, usize)>
    ensures text { IfSome result (λ p. drop at text.now ≡ mark_after close p.0 ∷ drop p.1 text.now) }
    ensures on { IfSome result (λ p. at < p.1) }
    ensures within { IfSome result (λ p. p.1 ≤ length text.now) }
{
    if let Some(end) = after_byte(text, at, close) {
        return Some((true, end));
    }
    let Some(next) = after_byte(text, at, b',') else {
        return None;
    };
    Some((false, next))
}

// The text of a list that stands at the place, whether it is the list's last, and the place after the mark
// that follows it: a comma, or the closing bracket after the last.
pub(crate) fn scan_element<'a>(text: &'a str, at: usize) -> Option<(&'a str, bool, usize)>
    ensures text { IfSome result
        (λ p. drop at text.now ≡ quoted p.0.now ++ (mark_after 93 p.1 ∷ drop p.2 text.now)) }
    ensures on { IfSome result (λ p. at < p.2) }
    ensures within { IfSome result (λ p. p.2 ≤ length text.now) }
{
    let Some((element, end)) = scan_text(text, at) else {
        return None;
    };
    let Some((last, after)) = scan_mark(text, end, b']') else {
        return None;
    };
    Some((element, last, after))
}

// The place after the list of at most 16 texts that stands at this one.
fn list_end(text: &str, at: usize) -> Option<usize>
    ensures list { IfSome result (λ end. BeginsByList (drop at text.now) (drop end text.now)) }
    ensures on { IfSome result (λ end. at < end) }
    ensures within { IfSome result (λ end. end ≤ length text.now) }
{
    let Some(first) = after_byte(text, at, b'[') else {
        return None;
    };
    if let Some(end) = after_byte(text, first, b']') {
        return Some(end);
    }
    elements_end(text, first)
}

// The place after the closing bracket of a list whose first text, of at most 16, stands at this one.
fn elements_end(text: &str, first: usize) -> Option<usize>
    ensures list { IfSome result (λ end. BeginsByList (91 ∷ drop first text.now) (drop end text.now)) }
    ensures on { IfSome result (λ end. first < end) }
    ensures within { IfSome result (λ end. end ≤ length text.now) }
{
    let mut at = first;
    let mut count = 0;
    'texts: while count < MAX_DRAIN {
        let Some((_element, last, after)) = scan_element(text, at) else {
            return None;
        };
        if last {
            return Some(after);
        }
        at = after;
        count += 1;
    }
    None
}

// The list of at most 16 texts at the place, as it stands there, and the place after it.
fn scan_list<'a>(text: &'a str, at: usize) -> Option<(&'a str, usize)>
    ensures text { IfSome result (λ p. drop at text.now ≡ p.0.now ++ drop p.1 text.now) }
    ensures list { IfSome result (λ p. IsListText p.0.now) }
    ensures on { IfSome result (λ p. at < p.1) }
{
    let Some(end) = list_end(text, at) else {
        return None;
    };
    Some((text.get(at..end)?, end))
}

// The text, the number or the list of texts at the place, and the place after it.
#[inline(always)]
fn scan_plain<'a>(text: &'a str, at: usize) -> Option<(Plain<'a>, usize)>
    ensures text { IfSome result (λ p. drop at text.now ≡ plain_text p.0 ++ drop p.1 text.now) }
    ensures fits { IfSome result (λ p. FitsPlain p.0) }
    ensures on { IfSome result (λ p. at < p.1) }
{
    if let Some((value, end)) = scan_text(text, at) {
        return Some((Plain::Text(value), end));
    }
    if let Some((value, end)) = scan_whole(text.as_bytes(), at) {
        return Some((Plain::Whole(value), end));
    }
    let Some((list, end)) = scan_list(text, at) else {
        return None;
    };
    Some((Plain::Texts(list), end))
}

// The member at the place, which is its name, a colon and its value; whether it is the object's last; and the
// place after the mark that follows it: a comma, or the closing bracket after the last.
#[inline(always)]
pub(crate) fn scan_field<'a>(text: &'a str, at: usize) -> Option<(FlatMember<'a>, bool, usize)>
    ensures text { IfSome result
        (λ p. drop at text.now ≡ field_text p.0 ++ (mark_after 125 p.1 ∷ drop p.2 text.now)) }
    ensures fits { IfSome result (λ p. FitsPlain p.0.value) }
    ensures on { IfSome result (λ p. at < p.2) }
    ensures within { IfSome result (λ p. p.2 ≤ length text.now) }
{
    let Some((name, end)) = scan_text(text, at) else {
        return None;
    };
    let Some(start) = after_byte(text, end, b':') else {
        return None;
    };
    let Some((value, after)) = scan_plain(text, start) else {
        return None;
    };
    let Some((last, next)) = scan_mark(text, after, b'}') else {
        return None;
    };
    Some((FlatMember { name, value }, last, next))
}

// Reads the members of the flat object that the text is into the first places, and tells how many they are,
// if each is a whole number, a text or a list of at most 16 texts, with no white space, escape or sign, and
// has a place.
fn scan_flat<'a>(text: &'a str, places: &mut [FlatMember<'a>]) -> Option<usize>
    ensures within { IfSome result (λ count. count ≤ length places.new) }
    ensures value { IfSome result
        (λ count. read text.now ≡ Some (object (flat_members (take count places.new)))) }
{
    let Some(mut at) = after_byte(text, 0, b'{') else {
        return None;
    };
    let mut count = 0;
    'turns: while count < places.len() {
        let Some((field, last, next)) = scan_field(text, at) else {
            return None;
        };
        places[count] = field;
        count += 1;
        if last {
            return if next == text.len() {
                Some(count)
            } else {
                None
            };
        }
        at = next;
    }
    None
}

/// Reads the members of the object whose text the bytes are into the first places, and gives how many there
/// are; if a name occurs twice, the last counts. `None` says nothing about the bytes: they may be anything
/// but the compact text of whole numbers below 10^19, texts with no escape and lists of at most 16 of these,
/// or have more members than places.
pub(crate) fn scan_body<'a>(bytes: &'a [u8], places: &mut [FlatMember<'a>]) -> Option<usize>
    ensures within { IfSome result (λ count. count ≤ length places.new) }
    ensures length { IfSome result (λ count. HasBodyLength bytes.now) }
    ensures value { IfSome result (λ count. Reads bytes.now (object (flat_members (take count places.new)))) }
{
    if !has_body_length(bytes) {
        return None;
    }
    match std::str::from_utf8(bytes) {
        Ok(text) => scan_flat(text, places),
        Err(_) => None,
    }
}
