//! Audits an account of any length as it is read, by a machine that follows its entries, and checks a record
//! of replies against it.
//!
//! Memory holds what is open, the clients, the record, and one line at a time.
//!
//! ```rust
//! let mut records = read_records(alloc, &mut record)?;
//! let found = verify(alloc, &mut account, &mut records)?;
//! match found.verdict {
//!     AccountVerdict::Legal => println!("legal"),
//!     AccountVerdict::Fault { place, rule } => println!("entry {place} breaks {}", rule.name()),
//!     AccountVerdict::NotOpen { .. } => println!("an entry names a place where nothing is open"),
//!     AccountVerdict::BadLine(line) => println!("line {line} is bad"),
//!     AccountVerdict::BeyondLimits(_) => println!("beyond limits"),
//! }
//! ```
#![tactic(auto)]

mod checkpoints;
mod fault;
pub mod follow;
pub mod laws;
mod looks;
mod naming;
mod ongoing;
mod parts;
mod reading;
mod recording;
mod stage;
mod torn;
mod verifier;

pub use checkpoints::read_checkpoint;
pub use fault::VerifyFault;
pub use naming::rule_at;
pub use ongoing::{OngoingAudit, Pause};
pub use reading::{verify, verify_whole};
pub use recording::read_records;
pub use torn::is_torn;
