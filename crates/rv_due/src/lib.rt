//! The deadlines of the requests that wait: moments with places, whose least is taken when it has come.
//!
//! ```
//! let mut due = Due::new(alloc);
//! due.add(moment, place)?;
//! while let Some((moment, place)) = due.pop_until(now) {
//!     time_out(moment, place);
//! }
//! ```
#![tactic(auto)]

mod due;

pub use due::{Due, NoMemory, Place};
