//! What is open: an item that lies at its place, or a request that waits there.
ghost use Rattle.std.specs.Prelude.{◌≡◌, IfOk};

use crate::kept::Place;
use rv_text::{Item, Key, NoMemory, Side};
use std::alloc::Global;

/// The request that waits at an open place.
#[derive(Clone, Copy)]
pub struct Waiter {
    /// The key of the request.
    pub key: Key,
    /// The moment of its arrival, in milliseconds, which no step uses.
    pub since: u64,
}

/// An arrival that is open, as the state of an account has it.
#[derive(Drop)]
pub struct OpenPlace {
    /// Where it arrived.
    pub place: Place,
    /// Its side of a queue or of an exchanger.
    pub side: Side,
    /// The item that it hands over, if any.
    pub item: Option<Item>,
    /// The moment at which its wait ends, in milliseconds, if it has such a limit.
    pub limit: Option<u64>,
    /// The request that waits there; none where it is a put's item.
    pub waiter: Option<Waiter>,
}

// A copy of an item, if there is one. Fails only if memory was refused.
fn copy_item(item: &Option<Item>, alloc: Global) -> Result<Option<Item>, NoMemory>
    ensures { IfOk result (λ copy. copy ≡ item.now) }
{
    match item {
        Some(item) => Ok(Some(item.copy(alloc)?)),
        None => Ok(None),
    }
}

impl OpenPlace {
    /// A copy of the open place. Fails only if memory for its item was refused.
    pub fn copy(&self, alloc: Global) -> Result<OpenPlace, NoMemory>
        ensures { IfOk result (λ copy. copy ≡ self.now) }
    {
        Ok(OpenPlace {
            place: self.place,
            side: self.side,
            item: copy_item(&self.item, alloc)?,
            limit: self.limit,
            waiter: self.waiter,
        })
    }
}
