//! Tests of what no contract and no program says of the libraries.
//!
//! They test a list of events, the copy of an account, room on both sides of a queue, and that a deadline
//! that is there takes no memory; the fault that a request or a worker meets at its link, how often devices
//! are asked, and sizes that no program has; how many of its connections a server counts as served; the lines
//! of a checkpoint; and a journal over a file that a crash left, and a store over a folder.
//!
//! ```
//! fn room_is_made_on_both_sides(rt: HostRuntime) {
//!     Dual::new(rt.alloc()).reserve().expect(&rt, "no memory");
//! }
//! ```
#![tactic(auto)]

#[cfg(test)]
mod accounts;
#[cfg(test)]
mod asks;
#[cfg(test)]
mod checkpoints;
#[cfg(test)]
mod counts;
#[cfg(test)]
mod deadlines;
#[cfg(test)]
mod expect;
#[cfg(test)]
mod faults;
#[cfg(test)]
mod frames;
#[cfg(test)]
mod items;
#[cfg(test)]
mod journals;
#[cfg(test)]
mod queues;
#[cfg(test)]
mod still;
#[cfg(test)]
mod stores;
#[cfg(test)]
mod worlds;
