//! The files of a store by name: which one holds an epoch's journal, also after a crash.
//!
//! ```
//! let journal = begin_journal(alloc, &mut folder, epoch, first)?;
//! let present = present_epoch(alloc, &mut folder)?; // Some(epoch), whenever a crash comes
//! ```

mod beginning;
mod folder;
mod present;
mod system;
pub mod testing;

pub use beginning::{BeginFault, begin_journal};
pub use folder::{FileName, Folder};
pub use present::present_epoch;
pub use system::{SystemFolder, SystemFolderFault, present_account};
