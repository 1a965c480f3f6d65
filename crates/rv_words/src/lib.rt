//! The command line of the program `rv`, as `clap` reads it: its commands and their options.
//!
//! Some commands, such as `host`, `record` and `verify`, have a reader of their own.
//!
//! ```
//! let command = read_command(alloc, &["rv", "book", "--epoch", "7"])?; // Command::Book(7)
//! let verify = read_verify(alloc, &["rv", "verify", "account.txt"])?; // Some(VerifyWords { .. })
//! let millis = read_duration("90s"); // Some(90_000)
//! ```
#![tactic(auto)]

pub mod command;
mod compacting;
mod duration;
mod fault;
mod helping;
mod listed;
pub mod options;
mod program;
mod reading;
mod recorded;
pub mod shell;
mod verifying;
mod versions;
mod words;

pub use compacting::read_compact;
pub use duration::read_duration;
pub use fault::CommandFault;
pub use helping::{HelpAnswer, read_help};
pub use program::matches_of;
pub use reading::text_of;
pub use recorded::read_record;
pub use verifying::{STANDARD_INPUT, VerifyWords, read_verify};
pub use versions::{asks_version, version_text};
pub use words::words_of_host;
