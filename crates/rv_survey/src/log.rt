//! The lines that a server logs: its start, and how often each kind of fault came, at most once a minute.
//!
//! ```
//! let mut tally = FaultTally::new();
//! tally.note();
//! if let Some(count) = tally.take(now) {
//!     let text = fault_text(alloc, FaultKind::Link, count)?; // "links that broke: 1"
//!     let bytes = line(alloc, None, &text)?; // with LF, at most 4,096 bytes
//! }
//! ```

mod kind;
mod lines;
mod tally;
mod texts;

pub use kind::FaultKind;
pub use lines::line;
pub use tally::FaultTally;
pub use texts::{StartSaid, call_text, fault_text, start_text};
