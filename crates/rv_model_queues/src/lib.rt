//! The 64 queues and 64 exchangers, in which requests and items wait, with the duties to settle the requests.
//!
//! ```
//! let mut wait_queues = WaitQueues::empty(alloc)?;
//! wait_queues.reserve(&call)?;
//! let Arrived { partner, own, other } = wait_queues.arrive(&call, duty);
//! ```
#![tactic(auto)]

mod exchangers;
mod outcome;
mod queues;
mod wait_queues;

pub use outcome::Arrived;
pub use wait_queues::WaitQueues;
