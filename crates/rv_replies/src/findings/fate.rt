//! What became of the request with a key.
use rv_text::{Call, Reply};

/// What became of the request with a key, according to an account.
#[derive(Drop)]
pub enum Fate {
    /// No entry names the key.
    Unnamed,
    /// It came with this call, and waits.
    Waits { call: Call },
    /// It came with this call, and has this reply.
    RepliedTo { call: Call, reply: Reply },
    /// It was cancelled before it came.
    CancelledUnseen,
}
