//! The lines of a checkpoint: a state of an account, from which a machine can resume, written and read back.
//!
//! ```
//! let mut writer = CheckpointWriter::new(machine.state()?);
//! let mut reader = CheckpointReader::new(alloc);
//! while let Some(line) = writer.next_line(alloc)? {
//!     reader.take(line.as_bytes())?;
//! }
//! let again: Option<Snapshot> = reader.finish();
//! ```
#![tactic(auto)]

mod client;
mod field;
mod head;
mod kind;
pub mod laws;
mod line;
mod open;
mod reader;
mod writer;

pub use reader::CheckpointReader;
pub use writer::CheckpointWriter;
