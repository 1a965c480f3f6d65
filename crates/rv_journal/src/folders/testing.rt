//! A folder for tests.
mod memory;

pub use memory::MemoryFolder;
