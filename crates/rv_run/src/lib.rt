//! The runs of `rv` over lines, such as calls, plays and turns of a book, and what these runs share.
//!
//! They read their whole input first, print their lines in large pieces, and end with the same faults.
//!
//! ```
//! let mut source = Source::new(rt.stdin());
//! let mut sink = Sink::new(rt.stdout());
//! play_run(rt.alloc(), &mut source, &mut sink)?; // what `rv play` does
//! ```
#![tactic(auto)]

pub mod calls;
mod fault;
mod input;
pub mod inspect;
mod output;
pub mod play;
pub mod turns;

pub use fault::RunFault;
pub use input::read_input;
pub use output::{Output, OutputFault};
