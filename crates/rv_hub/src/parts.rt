//! The parts of a hub.
use crate::dispatcher::Dispatcher;

/// A dispatcher, and whether a journal is kept. Contracts see a hub this way.
#[derive(Drop)]
pub struct HubParts {
    pub(crate) dispatcher: Dispatcher,
    // Whether what is written is told; else all entries are.
    pub(crate) has_journal: bool,
}
