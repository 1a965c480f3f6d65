//! Serves many connections over one machine: it takes events, answers frames, and tells those that waited.
//!
//! No thread, lock, socket or clock is in it.
//!
//! ```rust
//! let mut hub = Hub::new(alloc, machine, limits, DEFAULT_PATIENCE, has_journal)?;
//! let connection = hub.handle(now, HubEvent::Opened)?;
//! let taken = hub.handle(now, HubEvent::Came(connection, piece))?;
//! let ready = hub.wire(connection).map(|wire| wire.ready());
//! ```
#![tactic(auto)]

mod checks;
mod dispatcher;
mod events;
mod handling;
mod hub;
pub mod laws;
mod parts;
mod progress;

pub use events::{EventRefusal, HubEvent};
pub use hub::{DEFAULT_PATIENCE, Hub};
pub use parts::HubParts;
