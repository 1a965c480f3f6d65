//! Reads and writes the lines of text that say an account.
//!
//! ```
//! let account: Account = read_account(alloc, input)?;
//! let first: String = head_line(alloc, account.epoch(), account.opened())?;
//! if let Some(entry) = account.entry(0) {
//!     let second: String = entry_line(alloc, entry)?;
//! }
//! ```

mod account;
mod entry;
mod fault;
pub mod laws;
mod line;
mod written;

pub use account::{read_account, read_head};
pub use entry::read_entry;
pub use fault::{AccountFault, LineFault};
pub use line::{after_text, cut_at, first_line};
pub use written::{entry_line, head_line};
