//! Connects an engine to its sockets: it reads from each, hands on what came, and writes what may leave.
//!
//! Long input waits, and is handed on in shares, so that no connection holds up the others. `Origins` tells
//! whether one more connection may come from an address, and `overdue` when one's time is over.
//!
//! ```rust
//! let mut switchboard = Switchboard::new(engine, links, waits);
//! let opened = switchboard.open(now)?;
//! let has_room = switchboard.attach(now, opened, stream);
//! let faults = switchboard.read_round(room, now);
//! switchboard.share_out(room, now);
//! switchboard.write_lines(now, &mut file)?;
//! let broken = switchboard.write_round(now);
//! ```
#![tactic(auto)]

mod accepting;
mod asking;
mod frames;
mod giving_up;
pub mod laws;
pub mod links;
mod origins;
mod outcomes;
mod reading;
mod rounds;
mod sharing;
mod times;
mod traffic;
mod waiting;
mod writing;

pub use accepting::Opened;
pub use frames::FrameLooks;
pub use origins::{Origins, number_of};
pub use outcomes::{ReadFaults, Reading, Writing};
pub use times::{OverdueKind, TimeLimits, overdue};
pub use traffic::{SHARE, SHARES, SMALL, Switchboard};
pub use waiting::WaitingLists;
