//! The state of an account, on which all of the account's future depends, and the laws of states.
//!
//! ```
//! let state = Snapshot::from_parts(epoch, moment, length, open_places, clients)?;
//! let may_resume = state.can_resume();
//! ```

pub mod laws;
mod places;
pub mod resume;
mod waiting;

pub use places::{is_last_of, lies_open};
