//! The rules of an audit, each checked against the state that a machine holds: whether an entry keeps it.

mod keeping;
pub mod laws;
mod line;
mod moments;
mod numbers;
mod partners;

pub use keeping::keeps;
pub use numbers::is_waiting;
pub use partners::{names_open, opposite};
