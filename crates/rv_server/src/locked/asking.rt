//! What a frame's body asks the desk for.
ghost use Rattle.std.specs.Prelude.{[], IfErr, IfOk};
ghost use Rattle.rv_text.specs.Bodies.{IsMessageBody};
ghost use Rattle.rv_server.specs.locked.Asking.{TellsFrame};

use rv_text::{Answer, Message, TextFault, decode_message};
use std::alloc::Global;

/// The answer to a frame, before it is written.
pub enum FrameAnswer {
    /// That of refusal 1: the frame's body isn't a message.
    BadText,
    /// That of refusal 11: memory was refused for reading the body or for the answer's text.
    NoMemory,
    /// What the desk said.
    Said(Answer),
}

// Whoever owns one drops it in one step.
impl Drop for FrameAnswer {
    fn drop(self) {
        match self {
            FrameAnswer::BadText => {}
            FrameAnswer::NoMemory => {}
            FrameAnswer::Said(_) => {}
        }
    }
}

/// The message whose body a frame has. If there is none, or memory was refused for reading it, the frame is
/// answered without the desk, by the error.
pub fn read_body(alloc: Global, body: &[u8]) -> Result<Message, FrameAnswer>
    ensures message { IfOk result (IsMessageBody body.now) }
    ensures told { IfErr result (TellsFrame body.now []) }
{
    match decode_message(alloc, body) {
        Ok(message) => Ok(message),
        Err(TextFault::NoMemory) => Err(FrameAnswer::NoMemory),
        Err(TextFault::NotJson) => Err(FrameAnswer::BadText),
        Err(TextFault::NotMessage) => Err(FrameAnswer::BadText),
    }
}
