//! The parts of a network world: servers, clients, and a link that loses, repeats and reorders. Each event's
//! work on them is here, with the laws of events. Servers are books, and clients are typed clients.

mod clients;
mod event;
pub mod laws;
mod packet;
mod process;
mod seen;
mod state;

pub use clients::Clients;
pub use event::Event;
pub use packet::Packet;
pub use process::Saying;
pub use seen::{Seen, WorldRefusal};
pub use state::WorldState;
