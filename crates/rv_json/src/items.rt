//! The items that a drain takes in one step.
ghost use Rattle.std.specs.Prelude.{◌≡◌, ◌↔◌, [], ◌∷◌, ◌++◌, IsTrue, IfOk, OnErr, OnOk, nat_eq};
ghost use Rattle.std.specs.Cmp.{partial_equiv_from_equiv};
ghost use Rattle.std.specs.Cmp.Lexicographic.{lists_equiv, nat_list_eq_equiv, pointwise};
ghost use Rattle.rv_json.specs.Limits.{FitsItems};

use crate::fault::NoMemory;
use crate::item::Item;
use std::alloc::Global;
use std::marker::Model;

/// The most items that a drain takes; the least that it asks for is 1.
pub const MAX_DRAIN: u64 = 16;

/// The items that a drain took, in the order of their places. Contracts see the list of their texts.
///
/// At most 16 are read from a body. A program may make more; [`Items::fits`] checks that.
#[derive(Drop)]
pub struct Items {
    items: Vec<Item>,
}

impl Model for Items {
    ghost use Rattle.std.specs.Prelude.{List, ℕ};

    ghost Value = { List (List ℕ) };

    ghost view = { λ i. i.items.items };
}

impl Items {
    /// These items, which it takes over without memory.
    pub fn from_vec(items: Vec<Item>) -> Items
        ensures { result ≡ items.items }
    {
        Items { items }
    }

    /// The items, in their order.
    pub fn as_slice(&self) -> &[Item]
        ensures { result.now ≡ self.now }
    {
        self.items.as_slice()
    }

    /// The items, given back in their order. It takes no memory.
    pub fn into_vec(self) -> Vec<Item>
        ensures { result.items ≡ self }
    {
        let Items { items } = self;
        items
    }

    /// No items, which take no memory.
    pub fn new(alloc: Global) -> Items
        ensures { result ≡ [] }
    {
        Items {
            items: Vec::new(alloc),
        }
    }

    /// Appends an item. Fails only if memory was refused, and then the items stay as they were.
    pub fn push(&mut self, item: Item) -> Result<(), NoMemory>
        ensures pushed { OnOk result (self.new ≡ self.old ++ item ∷ []) }
        ensures kept { OnErr result (self.new ≡ self.old) }
    {
        Ok(self.items.push(item)?)
    }

    /// A copy of the items. Fails only if memory was refused.
    pub fn copy(&self, alloc: Global) -> Result<Items, NoMemory>
        ensures same { IfOk result (λ items. items ≡ self.now) }
    {
        let mut items = Vec::with_capacity(alloc, self.items.len())?;
        for item in &self.items {
            items.push(item.copy(alloc)?)?;
        }
        Ok(Items::from_vec(items))
    }

    /// Whether there are at most 16 items, and each has at most 512 bytes.
    pub fn fits(&self) -> bool
        ensures { IsTrue result ↔ FitsItems self.now }
    {
        self.items.len() as u64 <= MAX_DRAIN && self.items.iter().all(Item::fits)
    }
}

impl PartialEq for Items {
    ghost eq = { λ a b. pointwise (pointwise nat_eq) a b };

    ghost laws = { partial_equiv_from_equiv (lists_equiv nat_list_eq_equiv) };

    fn eq(&self, other: &Items) -> bool {
        self.items == other.items
    }
}

impl Eq for Items {
    ghost laws = { lists_equiv nat_list_eq_equiv };
}
