//! Journals: files to which pieces of text are added, each stored once it is said to be, and the folder that
//! has their names.
//!
//! ```
//! let mut lines = Vec::new(alloc);
//! let mut journal = DiskJournal::open(alloc, device, &mut lines)?;
//! journal.append(b"a line\n")?;
//! ```
#![tactic(auto)]

mod creating;
mod cutter;
mod device;
mod fault;
mod filled;
pub mod folders;
mod journal;
pub mod laws;
mod opening;
mod reader;
mod reading;
mod rewriting;
mod system;
pub mod testing;
mod writer;

pub use device::{Device, DeviceFault};
pub use fault::{CreateFault, JournalFault, OpenFault};
pub use journal::DiskJournal;
pub use reader::JournalReader;
pub use system::SystemFile;
