//! The machine of a book: its tables are the state of an account, and its steps are those of the state.
//!
//! ```
//! let mut machine = Machine::open(alloc, epoch, now)?;
//! let TickMade { moment, entry: tick } = machine.elapse(now);
//! let Heard { entry, said } = machine.hear(&Limits::book(), moment, message);
//! ```
#![tactic(auto)]

mod cancels;
mod drains;
mod hellos;
mod leaves;
mod looks;
mod machine;
mod meets;
mod open_places;
mod redo;
mod requests;
mod space;
mod state;
mod stays;
mod steps;
mod tables;
mod ticks;

pub use machine::{Machine, Said};
pub use space::message_need;
pub use state::NoMachine;
pub use steps::{Heard, TickMade};
