//! Accounts: what came to a book, in order, and who met whom; their rules, and the states on which their
//! futures depend.
//!
//! ```
//! let mut account = Account::empty(alloc, epoch, opened);
//! account.reserve(1)?;
//! account.push(Entry {
//!     moment,
//!     act: Act::Arrive { key, call },
//!     partners: Partners::none(alloc),
//! });
//! let call: Option<&Call> = account.call(0);
//! ```
#![tactic(auto)]

mod account;
mod entry;
mod partners;
pub mod rules;
pub mod state;
mod waits;

pub use account::Account;
pub use entry::{Act, Entry};
pub use partners::{Partners, may_name};
pub use rv_session::Place;
pub use waits::{deadline_after, lasts, need_of};
