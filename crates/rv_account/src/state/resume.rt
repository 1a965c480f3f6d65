//! Which states a machine can resume from, their laws, and the test of one in memory.

mod clients;
mod finding;
pub mod laws;
mod parts;
mod sides;
mod snapshot;
mod suits;

pub use snapshot::Snapshot;
pub use suits::suits_call;
