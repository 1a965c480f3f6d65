//! A clock and a gate for servers whose requests don't wait, and a client's hello.
use rv_server::{Clock, Gate};

/// The frame of client 1's hello.
pub(crate) const HELLO: &[u8] = b"\x00\x2b{\"client\":1,\"incarnation\":1,\"kind\":\"hello\"}";

/// A clock that stands at 0.
pub(crate) struct Still;

impl Clock for Still {
    fn now(&self) -> u64 {
        0
    }
}

/// A gate that nobody comes to.
pub(crate) struct Closed;

impl Gate for Closed {
    fn pause(&self) {}
}
