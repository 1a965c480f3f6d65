//! Finds the texts of two flat objects in the compact text of the object that has them, with no tree.
ghost use Rattle.std.specs.Prelude.{◌≡◌, ◌<◌, ◌≤◌, ◌∷◌, [], ◌++◌, IfSome, drop, length};
ghost use Rattle.json.specs.Print.{escape, quoted};
ghost use Rattle.rv_json.specs.Pair.{BeginsByFlat, IsFlatText, ReadsPair, pair_text};

use crate::scan::{after_byte, scan_field, scan_text};

// The place after the flat object, of one member or more, that stands at this one.
fn object_end(text: &str, at: usize) -> Option<usize>
    ensures object { IfSome result (λ end. BeginsByFlat (drop at text.now) (drop end text.now)) }
    ensures on { IfSome result (λ end. at < end) }
    ensures within { IfSome result (λ end. end ≤ length text.now) }
{
    let Some(mut place) = after_byte(text, at, b'{') else {
        return None;
    };
    'members: while place < text.len() {
        let Some((_field, last, next)) = scan_field(text, place) else {
            return None;
        };
        if last {
            return Some(next);
        }
        place = next;
    }
    None
}

// The flat object at the place, as it stands there, and the place after it.
fn scan_object<'a>(text: &'a str, at: usize) -> Option<(&'a str, usize)>
    ensures text { IfSome result (λ p. drop at text.now ≡ p.0.now ++ drop p.1 text.now) }
    ensures object { IfSome result (λ p. IsFlatText p.0.now) }
    ensures on { IfSome result (λ p. at < p.1) }
{
    let Some(end) = object_end(text, at) else {
        return None;
    };
    Some((text.get(at..end)?, end))
}

// The flat object that is the value of the member at the place, if it has this name, and the place after it.
fn scan_member<'a>(text: &'a str, at: usize, name: &str) -> Option<(&'a str, usize)>
    ensures text { IfSome result
        (λ p. drop at text.now ≡ (quoted name.now ++ (58 ∷ p.0.now)) ++ drop p.1 text.now) }
    ensures object { IfSome result (λ p. IsFlatText p.0.now) }
    ensures on { IfSome result (λ p. at < p.1) }
{
    let Some((own, end)) = scan_text(text, at) else {
        return None;
    };
    if own != name {
        return None;
    }
    let Some(start) = after_byte(text, end, b':') else {
        return None;
    };
    scan_object(text, start)
}

// The two flat objects of which the text is the compact text under these names, in this order.
fn scan_pair<'a>(text: &'a str, first: &str, second: &str) -> Option<(&'a str, &'a str)>
    ensures text { IfSome result
        (λ p. text.now ≡ pair_text first.now p.0.now second.now p.1.now) }
    ensures one { IfSome result (λ p. IsFlatText p.0.now) }
    ensures other { IfSome result (λ p. IsFlatText p.1.now) }
{
    let Some(start) = after_byte(text, 0, b'{') else {
        return None;
    };
    let Some((one, comma)) = scan_member(text, start, first) else {
        return None;
    };
    let Some(next) = after_byte(text, comma, b',') else {
        return None;
    };
    let Some((other, close)) = scan_member(text, next, second) else {
        return None;
    };
    let Some(end) = after_byte(text, close, b'}') else {
        return None;
    };
    if end == text.len() {
        Some((one, other))
    } else {
        None
    }
}

/// The texts of the two objects that make up the bytes' object, the first under one name and the second under
/// the other. `None` says nothing about the bytes: they may be anything but the compact text of just these
/// two, in this order, each with one member or more: whole numbers below 10^19, texts with no escape and
/// lists of at most 16 of these.
pub fn two_objects<'a>(bytes: &'a [u8], first: &str, second: &str) -> Option<(&'a [u8], &'a [u8])>
    ensures { IfSome result (λ p. ReadsPair bytes.now first.now p.0.now second.now p.1.now) }
{
    let Ok(text) = std::str::from_utf8(bytes) else {
        return None;
    };
    let Some((one, other)) = scan_pair(text, first, second) else {
        return None;
    };
    Some((one.as_bytes(), other.as_bytes()))
}
