//! Checks a record of the replies that clients got against an account, as its entries pass one by one.
//!
//! A record first takes all its lines, and then each entry, after the machine has followed it.
//!
//! ```rust
//! let mut records = Records::new(alloc);
//! records.take(alloc, line)?;
//! records.pass(alloc, &machine, &entry)?;
//! let finding = records.finding(0, machine.epoch());
//! println!("line 1: {}", finding.words());
//! ```
#![tactic(auto)]

mod changes;
mod fates;
pub mod findings;
mod firsts;
mod reading;
mod records;
mod telling;

pub use reading::Flaw;
pub use records::{Beside, Line, OutOfMemory, Records};
