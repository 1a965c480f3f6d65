//! The parts that all workers of a server share.
use crate::locked::{Desk, Shared};
use std::alloc::Global;
use std::sync::ledger::Ledger;

/// The context of a server's workers: the desk behind its lock, a clock, and a gate for pauses.
#[derive(Drop)]
pub(crate) struct WorkerContext<'a, T, D: Desk, L: Ledger, C, G> {
    pub(crate) rt: &'a T,
    pub(crate) alloc: Global,
    pub(crate) shared: &'a Shared<D, L>,
    pub(crate) clock: &'a C,
    pub(crate) gate: &'a G,
}
