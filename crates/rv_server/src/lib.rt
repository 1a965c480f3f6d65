//! The worker threads that answer frames from a desk behind its lock, and the sockets that they serve.
//!
//! ```
//! let (shared, seats) = Shared::<Book, L>::open(alloc, blank, book, workers)?;
//! let report = match serve(rt, alloc, &shared, seats, &clock, &gate, listener, connections) {
//!     Ok(report) => report,
//!     Err((report, _fault)) => report,
//! };
//! let closing = finish(shared, report.seats); // the book again, and the number of its entries
//! ```
#![tactic(auto)]

mod asking;
mod context;
mod fault;
mod inlet;
mod locked;
mod sending;
mod served;
mod sockets;
mod worker;

pub use fault::WorkFault;
pub use locked::{
    Clock, Closing, Desk, ForeignSeat, Gate, Item, Locked, MAX_WORKERS, Seat, Shared, finish,
    serve_message,
};
pub use served::Served;
pub use sockets::{Report, ServeFault, serve};
pub use worker::{MAX_FRAMES, work};
