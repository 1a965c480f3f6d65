//! Runs a hub with its account: it hands on events, gathers and writes lines, and lists connections to look
//! at.
//!
//! No socket is in it.
//!
//! ```rust
//! let mut engine = Engine::new(alloc, machine, limits, patience, has_account, room)?;
//! let connection = engine.tell(now, LinkEvent::Opened)?;
//! let taken = engine.tell(now, LinkEvent::Came(connection, piece))?;
//! engine.write_lines(now, &mut file)?;
//! engine.begin_round();
//! while let Some(connection) = engine.next_look() {
//!     let ready = engine.hub().wire(connection).map(|wire| wire.ready());
//! }
//! ```
#![tactic(auto)]

mod calls;
mod engine;
mod events;
mod gathering;
mod handing;
pub mod laws;
mod looks;
mod parts;
mod writing;

pub use calls::{CALLS, CallCounts};
pub use engine::Engine;
pub use events::{EngineFault, LinkEvent};
pub use looks::LookList;
pub use parts::EngineParts;
