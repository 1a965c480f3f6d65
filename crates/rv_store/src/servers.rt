//! States and proves the laws of a hub as a server that crashes and goes on from what it stored.
//!
//! Each law is a function whose contract is the law; it does nothing when called, and a proof above may cite
//! it.
//!
//! ```rust
//! use crate::servers::laws::{hubs_are_servers, hubs_go_on};
//!
//! hubs_go_on();
//! hubs_are_servers();
//! ```

mod crashes;
pub mod laws;
