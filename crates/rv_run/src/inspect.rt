//! The command `rv verify`: what it prints on an account and on a record beside it, and its status.

mod lines;
mod progress;
mod telling;

pub use progress::progress_text;
pub use telling::tell_found;
