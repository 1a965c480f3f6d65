//! Keeps a hub's connections: their input, their answers and when these may leave, and what each waits for.
//!
//! An answer that rests on entries is held back until they are written.
//!
//! ```rust
//! let mut wires = Wires::new(alloc, written);
//! let connection = wires.open()?;
//! let taken = wires.take_in(connection, piece)?;
//! let body = wires.get(connection).and_then(|wire| wire.next());
//! wires.answer(connection, AnswerTo::Unread, entries, answer)?;
//! wires.release(entries);
//! let bytes = wires.get(connection).map(|wire| wire.ready());
//! ```
#![tactic(auto)]

mod changes;
pub mod connection;
mod noted;
mod slots;
pub mod subscribers;
mod table;
mod wires;

pub use connection::NoMemory;
pub use subscribers::ConnectionNumber;
pub use wires::Wires;
