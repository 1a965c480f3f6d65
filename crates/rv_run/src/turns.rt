//! A run of the book over the lines of an input: each is a turn, and the body that answers it is printed.

pub mod laws;
mod line;
mod run;
mod turn;
mod unanswered;

pub use run::book_run;
