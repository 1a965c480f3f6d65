//! The commands of a shell, such as `rv take 3`: they ask, print and record what came of it, and end with its
//! status.
//!
//! ```
//! let new = New::start(client, incarnation, Version::Two);
//! let take = Call::Take { queue: 3, wait: Wait::Millis(10_000) };
//! if let CallEnd::Replied(key, reply) = ask_call(alloc, new, take, None, &mut source, &mut sink) {
//!     let status = status_of(&reply); // 0 for an item, 4 where the wait ended
//!     let text = reply_text(alloc, ReplyForm::Lines, &key, &reply)?; // the item and LF, or nothing
//! }
//! ```
#![tactic(auto)]

mod asking;
mod lease;
mod lines;
mod open;
mod pieces;
mod record;
mod reply;
mod run;

pub use asking::{CallEnd, ask_call};
pub use lease::{lease_address, lease_at};
pub use lines::{LineEnd, LinePuts};
pub use open::OpenCall;
pub use pieces::{call_for, first_piece};
pub use record::record_line;
pub use reply::{ReplyForm, reply_text, status_of};
pub use run::{connected, run_shell};
