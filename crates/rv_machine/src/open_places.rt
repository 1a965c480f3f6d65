//! What is open in a book, with the tables by which it is found.

mod opens;
mod table;

pub use table::{MetPlace, OpenTable};
