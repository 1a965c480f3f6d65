//! The book of one epoch: its sessions, all that waits in it, and the account of what happened to them, which
//! lines of text can say.
//!
//! ```
//! let mut book = Book::open(alloc, epoch, now)?;
//! let verdict = book.handle(now, message);
//! let answer: Answer = book.answer(alloc, &verdict)?;
//! let entries = book.account().len();
//! ```
#![tactic(auto)]

mod book;
pub mod laws;
pub mod lines;
mod reply_cache;
mod state;
mod verdict;

pub use book::Book;
pub use rv_account::{Account, Act, Entry, Partners, Place};
pub use state::{MAX_ENTRIES, MAX_MOMENT};
pub use verdict::Verdict;
