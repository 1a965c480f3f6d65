//! An account in a journal: what was written of it is found after a crash, and a server goes on from there.
//!
//! ```
//! let StoredAccount { journal, machine } = open_account(alloc, device, 7, None)?;
//! ```
#![tactic(auto)]

mod account_journal;
mod entering;
mod format;
pub mod keeping;
pub mod laws;
mod opening;
mod reader;
mod resuming;
pub mod servers;
mod store;
mod wish;

pub use account_journal::AccountJournal;
pub use entering::{EnterFault, EnteredStore, enter_store};
pub use format::{FORMAT, VERSION};
pub use opening::{StoredAccount, open_account};
pub use reader::{AccountReader, RecoveryFault};
pub use store::{PresentFault, begin_account, open_present};
pub use wish::{EpochChoice, EpochWish};
