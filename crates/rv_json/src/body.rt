//! The value whose body given bytes are, for each kind of value that has a body.
ghost use Rattle.std.specs.Prelude.{◌≡◌, ◌↔◌, ◌≤◌, IsTrue, IfErr, IfOk, IfSome, Ok, OnOk, Some};
ghost use Rattle.serde_json.specs.Events.{members_len};
ghost use Rattle.serde_json.specs.View.{members_view};
ghost use Rattle.rv_json.specs.Alone.{FindsAlone, FindsIn, Form, IsAlone};
ghost use Rattle.rv_json.specs.Bodies.{HasBodyLength};
ghost use Rattle.rv_json.specs.Finding.{FindsAmong};
ghost use Rattle.rv_json.specs.Flat.{flat_members};
ghost use Rattle.rv_json.specs.Sorted.{IsSorted};

use crate::fault::TextFault;
use crate::flat::FlatMember;
use crate::members::Members;
use crate::scan::scan_body;
use crate::value::read_value;
use serde_json::{Map, Value};
use std::alloc::Global;

// The most members that a body has.
const MOST_MEMBERS: usize = 9;

/// A kind of value that has a body. Its form says how it is found among the members of an object, how many
/// members it has, and its limits.
pub trait Body: Drop {
    ghost form: { Form Self };

    /// Finds it among the members. Other members don't matter, and no limit is checked but that of 16 texts.
    /// Items are taken out last.
    fn read(alloc: Global, members: &mut Members) -> Result<Self, TextFault>
        ensures { FindsAmong members.old result form.found };

    /// How many members it has.
    fn member_count(&self) -> usize
        ensures { result ≡ form.size self.now };

    /// Whether it is within its limits.
    fn is_within(&self) -> bool
        ensures { IsTrue result ↔ form.Fits self.now };

    /// A law, which does nothing: a value that is found among members has no more than these are.
    fn has_members(&self, fields: &[FlatMember])
        requires { form.found (flat_members fields.now) ≡ Some self.now }
        ensures { form.size self.now ≤ members_len (flat_members fields.now) };
}

// A growth of memory was refused.
#[derive(Clone, Copy)]
struct Refused;

/// Reads the value from the text of an object that has exactly the value's members. [`TextFault::NoMemory`]
/// comes only if a growth was refused. A compact text of whole numbers, texts and lists of texts is read in
/// one pass, with no memory but that of its items; any other as `serde_json` reads it.
pub fn decode<B: Body>(alloc: Global, bytes: &[u8]) -> Result<B, TextFault>
    ensures { FindsIn B.form bytes.now result }
{
    match decode_flat(alloc, bytes) {
        Ok(Some(value)) => Ok(value),
        Ok(None) => decode_tree(alloc, bytes),
        Err(Refused) => Err(TextFault::NoMemory),
    }
}

// What is alone in a flat object, where the pass over its text is sure of it. Fails only if memory was
// refused.
fn decode_flat<B: Body>(alloc: Global, bytes: &[u8]) -> Result<Option<B>, Refused>
    ensures value { IfOk result (λ found. IfSome found (λ value. FindsIn B.form bytes.now (Ok value))) }
    ensures fault { IfErr result (λ _. HasBodyLength bytes.now) }
{
    let mut places = [FlatMember::NONE; MOST_MEMBERS];
    match scan_body(bytes, &mut places) {
        Some(count) => read_flat(alloc, &places[..count]),
        None => Ok(None),
    }
}

// The value that is alone among these members, if their number tells that none stands twice. Fails only if
// memory was refused.
fn read_flat<B: Body>(alloc: Global, fields: &[FlatMember]) -> Result<Option<B>, Refused>
    ensures { IfOk result (λ found. IfSome found (IsAlone B B.form (flat_members fields.now))) }
{
    let mut members = Members::Flat(fields);
    match B::read(alloc, &mut members) {
        Ok(value) => Ok(own_alone(fields, value)),
        Err(TextFault::NoMemory) => Err(Refused),
        Err(_) => Ok(None),
    }
}

// The value, if it is alone among the members and none of their names stands twice.
fn own_alone<B: Body>(fields: &[FlatMember], value: B) -> Option<B>
    requires { B.form.found (flat_members fields.now) ≡ Some value }
    ensures { IfSome result (IsAlone B B.form (flat_members fields.now)) }
{
    value.has_members(fields);
    if fields.len() == value.member_count() && value.is_within() {
        Some(value)
    } else {
        None
    }
}

// What is alone in the object that `serde_json` reads.
fn decode_tree<B: Body>(alloc: Global, bytes: &[u8]) -> Result<B, TextFault>
    ensures { FindsIn B.form bytes.now result }
{
    match read_value(alloc, bytes)? {
        Value::Object(map) => read_alone(alloc, map),
        _ => Err(TextFault::NotMessage),
    }
}

// The value that is found among the members, if they are no more than its own and within its limits.
#[tactic(auto, using(crate::proofs::Counts::members_counted, crate::proofs::InOrder::entries_sorted))]
fn read_alone<B: Body>(alloc: Global, map: Map<String, Value>) -> Result<B, TextFault>
    ensures alone { FindsAlone B.form result (members_view map.entries) }
    ensures sorted { OnOk result (IsSorted (members_view map.entries)) }
{
    let count = map.len();
    let mut members = Members::Tree(map);
    let value = B::read(alloc, &mut members)?;
    if count == value.member_count() && value.is_within() {
        Ok(value)
    } else {
        Err(TextFault::NotMessage)
    }
}
