//! The items of a list of texts, read from the list's own text.
ghost use Rattle.std.specs.Prelude.{◌≡◌, [], ◌∷◌, ◌++◌, IfOk, IfSome, IsTrue, OnOk, Some};
ghost use Rattle.serde_json.specs.Read.{read};
ghost use Rattle.rv_json.specs.Finding.{Finds, texts_in};
ghost use Rattle.rv_json.specs.Listed.{texts_read};

use crate::fault::{NoMemory, TextFault};
use crate::item::Item;
use crate::items::{Items, MAX_DRAIN};
use crate::members::items_of;
use crate::scan::scan_element;
use serde_json::Value;
use std::alloc::Global;

// The items of the list of at most 16 texts that the text is; none if it is no such list. The only fault is
// [`TextFault::NoMemory`]. A compact text with no escape is read with no memory but that of its items, and
// any other as `serde_json` reads it.
pub(crate) fn read_items(alloc: Global, text: &str) -> Result<Items, TextFault>
    ensures { Finds (λ items. items) result (Some (texts_read text.now)) }
{
    match compact_items(alloc, text)? {
        Some(items) => Ok(items),
        None => other_items(alloc, text),
    }
}

// The items of a compact text with no escape, if it is one.
fn compact_items(alloc: Global, text: &str) -> Result<Option<Items>, NoMemory>
    ensures { IfOk result (λ found. IfSome found (λ items. items ≡ texts_read text.now)) }
{
    let mut items = Items::new(alloc);
    if text == "[]" {
        return Ok(Some(items));
    }
    if push_each(alloc, text, &mut items)? {
        Ok(Some(items))
    } else {
        Ok(None)
    }
}

// Puts the texts of a list, of which there is one or more, into the items, and tells whether all are there.
fn push_each(alloc: Global, text: &str, items: &mut Items) -> Result<bool, NoMemory>
    requires { items.old ≡ [] }
    ensures { IfOk result (λ all. IsTrue all → items.new ≡ texts_read text.now) }
{
    let bytes = text.as_bytes();
    if bytes.is_empty() || bytes[0] != b'[' {
        return Ok(false);
    }
    let mut at = 1;
    let mut count = 0;
    'texts: while count < MAX_DRAIN {
        let Some((element, last, after)) = scan_element(text, at) else {
            return Ok(false);
        };
        push_copy(alloc, items, element)?;
        if last {
            return Ok(after == bytes.len());
        }
        at = after;
        count += 1;
    }
    Ok(false)
}

// Appends an item whose text is a copy of this one.
fn push_copy(alloc: Global, items: &mut Items, text: &str) -> Result<(), NoMemory>
    ensures { OnOk result (items.new ≡ items.old ++ text.now ∷ []) }
{
    items.push(Item::from_text(String::from_str(alloc, text)?))
}

// The items of any other text.
fn other_items(alloc: Global, text: &str) -> Result<Items, TextFault>
    ensures { Finds (λ items. items) result (Some (texts_read text.now)) }
{
    match tree_items(alloc, text) {
        Ok(items) => Ok(items),
        Err(TextFault::NoMemory) => Err(TextFault::NoMemory),
        Err(TextFault::NotJson) => Ok(Items::new(alloc)),
        Err(TextFault::NotMessage) => Ok(Items::new(alloc)),
    }
}

// The items of the list that `serde_json` reads.
fn tree_items(alloc: Global, text: &str) -> Result<Items, TextFault>
    ensures { Finds (λ items. items) result (texts_in (read text.now)) }
{
    match Value::from_str(alloc, text) {
        Ok(value) => items_of(alloc, value),
        Err(error) if error.is_memory() => Err(TextFault::NoMemory),
        Err(_) => Err(TextFault::NotMessage),
    }
}
