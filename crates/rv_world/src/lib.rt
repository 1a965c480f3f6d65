//! Models servers, clients and the lossy link between them as one value that takes one event at a time.
//!
//! Every message and answer that was sent is kept as a numbered packet, and may come never, once or often.
//!
//! ```rust
//! let mut world = World::open(alloc, 1)?;
//! world.step(&Event::Start(7, 1, Version::One))?;
//! world.step(&Event::ToServer(0, 0))?;
//! world.step(&Event::ToClient(0))?;
//! world.step(&Event::Begin(7, call))?;
//! println!("{} calls were begun", world.asked().len());
//! ```
#![tactic(auto)]

pub mod laws;
mod parts;
mod runs;
mod world;

pub use parts::{Event, Packet, Seen, WorldRefusal};
pub use runs::run;
pub use rv_audit::{Audit, Rule, audit};
pub use world::World;
