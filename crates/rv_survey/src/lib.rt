//! What a server shows of itself: the rows of its status that tell of a hub, and the lines of its log.
//!
//! ```
//! let mut sights = Sights::new(alloc);
//! list_queues(hub.machine(), &mut queues)?;
//! renew(&mut waiting, client, waiting_row(hub.machine(), client))?;
//! let look = sights.look(client, unheard_row(&hub, client), now);
//! renew(&mut unheard, client, look.row)?;
//! look.noted?;
//! ```
#![tactic(auto)]

pub mod log;
mod oldest;
mod queues;
mod rows;
mod sights;

pub use oldest::renew;
pub use queues::list_queues;
pub use rows::{unheard_row, waiting_row};
pub use sights::{Look, Sight, Sights};
