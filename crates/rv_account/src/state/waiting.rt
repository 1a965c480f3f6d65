//! The laws of what waits in a state to resume from.

pub mod laws;
