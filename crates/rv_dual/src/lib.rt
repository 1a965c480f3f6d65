//! A dual queue: items that wait for consumers, or consumers that wait for items, the oldest first.
//!
//! The duties of the requests that wait are laid aside in it. An arrival that meets one of the other side
//! gets a pair, which must be taken apart.
//!
//! ```
//! let mut queue = Dual::new(alloc);
//! queue.reserve_giver()?;
//! match queue.give(Giver::Waits(duty)) {
//!     DualOutcome::Met(pair) => {
//!         let (giver, taker, place) = pair.part();
//!         settle_both(giver, taker, place);
//!     }
//!     DualOutcome::Parked => {}
//! }
//! ```
#![tactic(auto)]

mod dual;
mod giver;
mod line;
mod pair;
mod slot;

pub use dual::Dual;
pub use giver::{Giver, Offer};
pub use pair::{DualOutcome, Pair, TryOutcome};
