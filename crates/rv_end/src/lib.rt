//! Ends requests that wait with no connection, as a server's status lists them, by hellos of greater
//! incarnations.
//!
//! ```
//! let mut told = ask_status(alloc, "127.0.0.1:7412", &mut from, &mut to)?;
//! keep_due(&mut told.unheard, told.uptime, 60_000, &[]); // those alone for a minute or longer
//! for row in &told.unheard {
//!     let ending = end_request(alloc, row, micros, &mut source, &mut sink)?;
//!     tell_ending(alloc, &mut out, row, told.uptime, ending)?;
//! }
//! ```
#![tactic(auto)]

mod answer;
mod chosen;
mod ending;
mod fault;
mod lines;
mod told;

pub use answer::ask_status;
pub use chosen::{is_looked_through, keep_due};
pub use ending::{Ending, end_request};
pub use fault::StatusFault;
pub use lines::tell_ending;
pub use told::StatusTold;
