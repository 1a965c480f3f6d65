//! How a server keeps a store.
use crate::EpochWish;

/// How a server keeps a store.
#[derive(Clone, Copy)]
pub struct StoreRules<'a> {
    /// The epochs that it may have.
    pub epochs: EpochWish,
    /// Whether what it took is stored. Else it is with the system: it outlives the server, and a machine that
    /// dies may lose it.
    pub syncs: bool,
    /// The machine's boot, by any name that no other boot of it has. Without one the system is asked.
    pub boot: Option<&'a str>,
    /// How many bytes a file may have.
    pub most: u64,
}
