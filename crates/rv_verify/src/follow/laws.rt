//! Laws of entries that follow a state.
pub use crate::follow::state_rules::laws::{closed_breaks, follows_legally, rules_break};
