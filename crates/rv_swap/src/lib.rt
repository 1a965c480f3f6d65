//! One exchanger: at most one request waits at it, and the next one that arrives meets it.
//!
//! ```
//! let mut swap = Swap::new();
//! match swap.arrive(duty) {
//!     SwapOutcome::Met(earlier, later) => settle_both(earlier, later),
//!     SwapOutcome::Parked => {}
//! }
//! ```
#![tactic(auto)]

mod swap;

pub use swap::{Swap, SwapOutcome, SwapTry};
