//! The text that a producer hands over.
ghost use Rattle.std.specs.Prelude.{◌≡◌, IsTrue, IfOk, IsUtf8, ◌↔◌, string_bytes};
ghost use Rattle.std.specs.Prelude.{nat_eq};
ghost use Rattle.std.specs.Cmp.{partial_equiv_from_equiv};
ghost use Rattle.std.specs.Cmp.Lexicographic.{nat_list_eq_equiv, pointwise};
ghost use Rattle.rv_json.specs.Limits.{FitsItem};

use crate::fault::NoMemory;
use std::alloc::Global;
use std::marker::Model;

/// The most bytes of UTF-8 that an item has.
pub const MAX_ITEM_BYTES: usize = 512;

/// The text that a producer hands over. Contracts see it as the list of its bytes.
///
/// An item that is read from a body has at most 512 bytes. One that a program makes may be longer;
/// [`Item::fits`] checks that.
#[derive(Drop)]
pub struct Item {
    text: String,
}

impl Model for Item {
    ghost use Rattle.std.specs.Prelude.{List, ℕ, string_bytes};

    ghost Value = { List ℕ };

    ghost view = { λ i. string_bytes i.text };
}

impl Item {
    /// The item of this text, which it takes over without memory.
    pub fn from_text(text: String) -> Item
        ensures text { result ≡ string_bytes text }
        ensures utf8 { IsUtf8 result }
    {
        Item { text }
    }

    /// The item's text.
    pub fn as_str(&self) -> &str
        ensures text { result.now ≡ self.now }
        ensures utf8 { IsUtf8 self.now }
    {
        self.text.as_str()
    }

    /// The item's text, given back. It takes no memory.
    pub fn into_text(self) -> String
        ensures { string_bytes result ≡ self }
    {
        let Item { text } = self;
        text
    }

    /// A copy of the item. Fails only if memory was refused.
    pub fn copy(&self, alloc: Global) -> Result<Item, NoMemory>
        ensures same { IfOk result (λ i. i ≡ self.now) }
    {
        let text = String::from_str(alloc, self.text.as_str())?;
        Ok(Item { text })
    }

    /// Whether the item has at most 512 bytes; that they are UTF-8 holds of every item.
    #[tactic(auto, unfolding(crate::specs::Limits::FitsItem))]
    pub fn fits(&self) -> bool
        ensures { IsTrue result ↔ FitsItem self.now }
    {
        self.as_str().len() <= MAX_ITEM_BYTES
    }
}

impl Clone for Item {
    ghost is_clone = { λ item copy. copy ≡ item };

    fn clone(&self) -> Result<Item, NoMemory> {
        self.copy(*self.text.allocator())
    }
}

impl PartialEq for Item {
    ghost eq = { λ a b. pointwise nat_eq a b };

    ghost laws = { partial_equiv_from_equiv nat_list_eq_equiv };

    fn eq(&self, other: &Item) -> bool {
        self.as_str() == other.as_str()
    }
}

impl Eq for Item {
    ghost laws = { nat_list_eq_equiv };
}
