//! What a server shows of itself over HTTP: a page for people, the same as JSON, metrics, and whether it
//! works.
//!
//! It keeps a few short-lived connections for that, and visits them in turn.
//!
//! ```
//! let mut visitors = Visitors::new(alloc, keys)?;
//! visitors.admit(now, stream);
//! let mut pages = StatusPages { alloc, status: &status, names: &names };
//! let had_something_to_send = visitors.visit(now, &mut pages);
//! ```
#![tactic(auto)]

mod answers;
mod counted;
mod frames;
mod histogram;
mod hosts;
mod members;
mod metrics;
mod numbers;
mod page;
mod pages;
mod samples;
mod standing;
mod status;
mod visitor;
mod visitors;

pub use answers::{ANSWERS, AnswerCounts, AnswerMeter};
pub use counted::{AnswerTally, CountedStream};
pub use frames::FrameMeter;
pub use histogram::{Bucket, Histogram};
pub use members::status_json;
pub use metrics::metrics_of;
pub use numbers::{FaultCounts, StatusNumbers};
pub use pages::StatusPages;
pub use samples::take_sample;
pub use standing::FrameLine;
pub use status::{CallKind, HostStatus, QueueRow, StatusSample, StatusTimes, WaitingRow};
pub use visitor::Visitor;
pub use visitors::Visitors;
