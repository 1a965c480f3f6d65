//! Cuts bytes into frames and writes frames, over readers and writers that remember a failure and count
//! bytes.
//!
//! ```
//! let mut frames = Frames::new(alloc);
//! frames.feed(piece)?;
//! while let Some(body) = frames.next()? {
//!     take(body);
//! }
//!
//! let mut sink = Sink::new(writer);
//! write_frame(&mut sink, body)?;
//! ```
#![tactic(auto)]

mod frames;
mod held;
mod lasting;
pub mod laws;
mod sink;
mod source;
pub mod testing;
mod write;

pub use frames::{FrameFault, Frames, NoMemory};
pub use lasting::Lasting;
pub use sink::{Sink, WriteFault};
pub use source::{ReadFault, Source};
pub use write::write_frame;
