//! Takes a machine through entries that were written before, or says which rule an entry breaks first.
//!
//! An entry that isn't followed leaves the machine's state as it was.
//!
//! ```rust
//! match follow(&mut machine, entry) {
//!     Followed::Done => println!("it settled {} requests", machine.settled().len()),
//!     Followed::Breaks(rule) => println!("it breaks {}", rule.name()),
//!     Followed::NotOpen => println!("it names a place where nothing is open"),
//!     Followed::BeyondLimits => println!("the state after it would have no room"),
//!     Followed::NoMemory => println!("memory was refused"),
//! }
//! ```

mod following;
pub mod laws;
mod room;
mod ruling;
mod state_rules;

pub use following::{Followed, follow};
