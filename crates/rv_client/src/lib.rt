//! A typed client, whose types let a process do only what comes next, and the link for its requests.
//!
//! The link carries one request and one answer at a time, over a source and a sink.
//!
//! ```
//! let new = New::start(client, incarnation, Version::Two);
//! let answer = ask(alloc, &mut source, &mut sink, &new.message())?;
//! if let WelcomeOutcome::Idle(idle) = new.welcome(&answer) {
//!     let take = Call::Take { queue: 3, wait: Wait::Millis(5_000) };
//!     let outcome = call(alloc, idle, &mut source, &mut sink, take, 6);
//! }
//! ```
#![tactic(auto)]

mod calling;
mod fault;
mod hello;
pub mod laws;
mod link;
mod request;

pub use calling::{CallOutcome, call};
pub use fault::LinkFault;
pub use hello::{New, WelcomeOutcome};
pub use link::ask;
pub use request::{HearOutcome, Idle, Outstanding, Resting};
