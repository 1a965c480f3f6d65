//! A worker's report on the frames of a connection.
use crate::locked::{Desk, Item};
use std::alloc::Global;

/// A worker's report on the frames of a connection: one item for each frame that was answered whole, and all
/// stamps in the order in which they came. Frames are numbered from 0.
#[derive(Drop)]
pub struct Served<D: Desk> {
    /// One for each frame that was answered whole.
    pub items: Vec<Item>,
    /// Each stamp, beside the number of its frame.
    pub stamps: Vec<(u32, D::Stamp)>,
}

impl<D: Desk> Served<D> {
    ghost use Rattle.std.specs.Prelude.{◌≡◌, []};

    // Nothing was served yet.
    pub(crate) fn nothing(alloc: Global) -> Served<D>
        ensures items { result.items.items ≡ [] }
        ensures stamps { result.stamps.items ≡ [] }
    {
        Served {
            items: Vec::new(alloc),
            stamps: Vec::new(alloc),
        }
    }
}
