//! Reads members of a JSON object, each by its name. The only limit is that of a list: 16 texts.
ghost use Rattle.std.specs.Prelude.{◌≡◌, codes, option_map, option_and_then, Err, None, Some};
ghost use Rattle.serde_json.specs.Find.{get_member, as_str, as_u64, as_number};
ghost use Rattle.rv_json.specs.Flat.{seen, plain_data};
ghost use Rattle.serde_json.specs.View.{view, items_view, members_view};
ghost use Rattle.rv_json.specs.Finding.{Finds, FindsAmong, FindsSeenAmong, texts_in, whole_among, text_among};
ghost use Rattle.rv_json.specs.Finding.{few_of, few_in, texts_of, texts_among, item_among, CopiesItem};
ghost use Rattle.rv_json.specs.Finding.{without, Leaves, TakesRoomForTexts};
ghost use Rattle.rv_json.specs.declared.fault.TextFault.TheVariants as fault;

use crate::fault::TextFault;
use crate::flat::{FlatMember, Plain, find};
use crate::item::Item;
use crate::items::{Items, MAX_DRAIN};
use crate::list::read_items;
use serde_json::{Map, Value};
use std::alloc::Global;

/// The members of a JSON object. If a name occurred twice, its last value counts.
#[derive(Drop)]
pub enum Members<'a> {
    /// Whole numbers, texts and lists of texts, as they stand in the body's bytes.
    Flat(&'a [FlatMember<'a>]),
    /// Any members, as `serde_json` reads them.
    Tree(Map<String, Value>),
}

/// The whole number at the name, 0 to 2^64 - 1, if one stands there.
pub fn find_whole(members: &Members, name: &str) -> Option<u64>
    ensures { result ≡ whole_among name.now (seen members.now) }
{
    match members {
        Members::Flat(fields) => whole_of(find(fields, name)),
        Members::Tree(map) => value_at(map, name).and_then(Value::as_u64),
    }
}

fn whole_of(value: Option<Plain>) -> Option<u64>
    ensures { result ≡ option_and_then as_u64 (option_and_then as_number
        (option_map plain_data value.entry)) }
{
    match value {
        Some(Plain::Whole(n)) => Some(n),
        Some(Plain::Text(_)) => None,
        Some(Plain::Texts(_)) => None,
        None => None,
    }
}

fn text_of<'a>(value: Option<Plain<'a>>) -> Option<&'a str>
    ensures { option_map (λ text. text.now) result
        ≡ option_and_then as_str (option_map plain_data value.entry) }
{
    match value {
        Some(Plain::Text(text)) => Some(text),
        Some(Plain::Whole(_)) => None,
        Some(Plain::Texts(_)) => None,
        None => None,
    }
}

// The value at the name, if one stands there.
fn value_at<'v>(map: &'v Map<String, Value>, name: &str) -> Option<&'v Value>
    ensures { option_map (λ v. view v.now) result
        ≡ get_member name.now (members_view map.now.entries) }
{
    map.get(name)
}

/// The text at the name, if one stands there.
pub fn find_text<'v>(members: &'v Members<'v>, name: &str) -> Option<&'v str>
    ensures { option_map (λ text. text.now) result ≡ text_among name.now (seen members.now) }
{
    match members {
        Members::Flat(fields) => text_of(find(fields, name)),
        Members::Tree(map) => value_at(map, name).and_then(Value::as_str),
    }
}

/// The whole number at the name. The only fault is [`TextFault::NotMessage`], if none stands there.
pub fn read_whole(members: &Members, name: &str) -> Result<u64, TextFault>
    ensures found { FindsAmong members.now result (whole_among name.now) }
    ensures sure { ¬ (result ≡ Err fault.NoMemory) }
{
    find_whole(members, name).ok_or(TextFault::NotMessage)
}

/// The text at the name. The only fault is [`TextFault::NotMessage`], if none stands there.
pub fn read_text<'v>(members: &'v Members<'v>, name: &str) -> Result<&'v str, TextFault>
    ensures found { FindsSeenAmong members.now (λ text. text.now) result (text_among name.now) }
    ensures sure { ¬ (result ≡ Err fault.NoMemory) }
{
    find_text(members, name).ok_or(TextFault::NotMessage)
}

// Takes the value at the name out of the members.
fn take_member(map: &mut Map<String, Value>, name: &str) -> Option<Value>
    ensures found { option_map view result ≡ get_member name.now (members_view map.old.entries) }
    ensures left { members_view map.new.entries ≡ without name.now (members_view map.old.entries) }
{
    map.remove(name)
}

/// The text of the member `item`: copied from flat members, taken out of others. [`TextFault::NotMessage`]
/// comes only if no text stands there; [`TextFault::NoMemory`] only if the members are flat, a text stands
/// there, and a growth was refused. Flat members stay as they are; others lose only `item`.
pub fn take_item(alloc: Global, members: &mut Members) -> Result<Item, TextFault>
    ensures found { FindsAmong members.old result item_among }
    ensures sure { result ≡ Err fault.NoMemory → CopiesItem members.old }
    ensures left { Leaves (codes "item") members.old members.new }
{
    match members {
        Members::Flat(fields) => copy_item(alloc, text_of(find(fields, "item"))),
        Members::Tree(map) => item_of(take_member(map, "item").ok_or(TextFault::NotMessage)?),
    }
}

fn copy_item(alloc: Global, text: Option<&str>) -> Result<Item, TextFault>
    ensures found { Finds (λ item. item) result (option_map (λ t. t.now) text.entry) }
    ensures sure { result ≡ Err fault.NoMemory → ¬ (option_map (λ t. t.now) text.entry ≡ None) }
{
    let text = String::from_str(alloc, text.ok_or(TextFault::NotMessage)?)?;
    Ok(Item::from_text(text))
}

/// The texts of the member `texts`: copied from flat members, taken out of others without a copy.
/// [`TextFault::NotMessage`] comes only if no list of at most 16 texts stands there, and
/// [`TextFault::NoMemory`] only if a growth was refused, and such a list stands there, or one of at most 16
/// other values that aren't flat. Flat members stay as they are; others lose only `texts`.
pub fn take_texts(alloc: Global, members: &mut Members) -> Result<Items, TextFault>
    ensures found { FindsAmong members.old result texts_among }
    ensures sure { result ≡ Err fault.NoMemory → TakesRoomForTexts members.old }
    ensures left { Leaves (codes "texts") members.old members.new }
{
    match members {
        Members::Flat(fields) => texts_at(alloc, find(fields, "texts")),
        Members::Tree(map) => {
            let value = take_member(map, "texts").ok_or(TextFault::NotMessage)?;
            items_of(alloc, value)
        }
    }
}

// The items of the list that the value is.
#[tactic(auto, using(crate::proofs::FewTexts::read_texts_in_list))]
fn texts_at(alloc: Global, value: Option<Plain>) -> Result<Items, TextFault>
    ensures found { Finds (λ items. items) result (texts_in (option_map plain_data value.entry)) }
    ensures sure { result ≡ Err fault.NoMemory → ¬ (texts_in (option_map plain_data value.entry) ≡ None) }
{
    match value {
        Some(Plain::Texts(text)) => read_items(alloc, text),
        Some(Plain::Whole(_)) => Err(TextFault::NotMessage),
        Some(Plain::Text(_)) => Err(TextFault::NotMessage),
        None => Err(TextFault::NotMessage),
    }
}

// The items of the list of at most 16 texts that the value is.
pub(crate) fn items_of(alloc: Global, value: Value) -> Result<Items, TextFault>
    ensures found { Finds (λ items. items) result (texts_in (Some (view value))) }
    ensures sure { result ≡ Err fault.NoMemory → ¬ (few_in (view value) ≡ None) }
{
    take_each_text(alloc, values_of(value)?)
}

// The values of a list of 16 at most.
fn values_of(value: Value) -> Result<Vec<Value>, TextFault>
    ensures found { Finds (λ values. items_view values.items) result (few_in (view value)) }
    ensures sure { ¬ (result ≡ Err fault.NoMemory) }
{
    match value {
        Value::Array(values) => few_of(values),
        _ => Err(TextFault::NotMessage),
    }
}

#[tactic(auto, using(crate::proofs::Counts::items_counted))]
fn few_of(values: Vec<Value>) -> Result<Vec<Value>, TextFault>
    ensures found { Finds (λ values. items_view values.items) result (few_of (items_view values.items)) }
    ensures sure { ¬ (result ≡ Err fault.NoMemory) }
{
    if values.len() as u64 <= MAX_DRAIN {
        Ok(values)
    } else {
        Err(TextFault::NotMessage)
    }
}

// The items whose texts these values are, in their order.
fn take_each_text(alloc: Global, values: Vec<Value>) -> Result<Items, TextFault>
    ensures { Finds (λ items. items) result (texts_of (items_view values.items)) }
{
    let mut items = Items::new(alloc);
    for value in values {
        items.push(item_of(value)?)?;
    }
    Ok(items)
}

// The item whose text the value is. It takes the text over.
fn item_of(value: Value) -> Result<Item, TextFault>
    ensures found { Finds (λ item. item) result (as_str (view value)) }
    ensures sure { ¬ (result ≡ Err fault.NoMemory) }
{
    match value {
        Value::String(text) => Ok(Item::from_text(text)),
        _ => Err(TextFault::NotMessage),
    }
}
