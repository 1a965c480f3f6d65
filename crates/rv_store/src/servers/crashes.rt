//! The world in which a server crashes and goes on: definitions, and laws over them.

pub mod laws;
