//! A desk behind its lock: what it is asked for one frame, and the frame that answers.

mod asking;
mod book;
mod desk;
mod item;
mod shared;
mod telling;

pub use asking::{FrameAnswer, read_body};
pub use desk::{Clock, Desk, Gate};
pub use item::Item;
pub use shared::{Closing, ForeignSeat, Locked, MAX_WORKERS, Seat, Shared, finish, serve_message};
pub use telling::write_told;
