//! The parts of an engine.
use crate::calls::CallCounts;
use crate::looks::LookList;
use rv_hub::Hub;
use std::alloc::Global;

/// A hub, with what is to be written of its account and which connections to look at. Contracts see an engine
/// this way.
#[derive(Drop)]
pub struct EngineParts {
    pub(crate) alloc: Global,
    pub(crate) hub: Hub,
    // Whether an account is kept; else no line is gathered.
    pub(crate) has_account: bool,
    // The lines that are gathered and not written.
    pub(crate) lines: String,
    // How many entries of the last event have their lines gathered.
    pub(crate) gathered: usize,
    // How many entries' lines the device took; those that there were at first count too.
    pub(crate) stored: usize,
    // How many requests of each call its entries record.
    pub(crate) calls: CallCounts,
    // Those to look at in the next round, and those of this round that are left.
    pub(crate) looks: LookList,
    pub(crate) round: LookList,
}
