//! What comes of a connection's turn.

/// What came of a connection's turn to be read.
#[derive(Clone, Copy)]
pub enum Reading {
    /// Nothing was handed on.
    Nothing,
    /// Bytes were handed on.
    Offered,
    /// A piece came that isn't small: it is pending, and waits for its share.
    Kept,
    /// Its input ended.
    Ended,
    /// Its socket failed: it is given up.
    Broken,
    /// Memory was refused for what was to be pending: it is given up.
    NoMemory,
}

/// What came of a connection's turn to be written to.
#[derive(Clone, Copy)]
pub enum Writing {
    /// Nothing was written.
    Nothing,
    /// Its socket took bytes, and the hub was told how many.
    Sent,
    /// It isn't open: its socket is let go.
    Closed,
    /// It has no socket: the hub was told that its peer is gone.
    Gone,
    /// Its socket failed: it is given up.
    Broken,
}

/// How many connections were given up in a round in which each was read.
#[derive(Clone, Copy)]
pub struct ReadFaults {
    /// The sockets of so many failed.
    pub broken: usize,
    /// For this many, memory was refused for what was to be pending.
    pub no_memory: usize,
}
