//! The sessions of an epoch, one for each client, and the duty to settle a request that waits.
//!
//! A session has what became of its client's last request: by places of the account in [`Sessions`], with all
//! texts in [`Clients`]. A [`Duty`] can be neither copied nor dropped, unless it is laid aside.
//!
//! ```
//! let mut sessions = Sessions::open(alloc, epoch);
//! if let Greeting::Unknown = sessions.greet(client, incarnation, version) {
//!     sessions.enter(client, incarnation, version)?;
//! }
//! if let Standing::Next = sessions.look(&key) {
//!     let duty = sessions.begin(&key, place);
//!     sessions.settle(duty, Kept::Done);
//! }
//! ```
#![tactic(auto)]

mod claims;
mod client;
mod clients;
mod duty;
mod kept;
mod open;
mod session;
mod sessions;
mod standing;

pub use claims::{Claims, ReturnedClients};
pub use client::{ClientState, LastRequest};
pub use clients::Clients;
pub use duty::{Duty, Parked};
pub use kept::{Kept, Place};
pub use open::{OpenPlace, Waiter};
pub use session::{RequestState, Session};
pub use sessions::{MAX_CLIENTS, Sessions};
pub use standing::{Greeting, KeyStanding, Standing};
