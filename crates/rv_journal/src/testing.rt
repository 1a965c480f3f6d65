//! Devices for tests: a file in memory, and one that fails.
mod failing;
mod memory;

pub use failing::FailingDevice;
pub use memory::Memory;
