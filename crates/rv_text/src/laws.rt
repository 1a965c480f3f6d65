//! What holds of messages, answers, calls and their bodies: each contract is a law, and the bodies do
//! nothing.
ghost use Rattle.std.specs.Prelude.{◌≡◌};
ghost use Rattle.rv_text.specs.Bodies.{refused_text};
ghost use Rattle.rv_text.specs.Laws.{OneMessage, WrittenBody, OneAnswer, WrittenAnswer, OneCall, WrittenCall};

use crate::answer::Refusal;
use crate::encode::{BAD_TEXT_BODY, NO_MEMORY_BODY};

/// Bytes are the body of at most one message.
pub fn one_message()
    ensures { OneMessage }
{}

/// The text that is written for a message within the limits is a body of it.
pub fn written_body()
    ensures { WrittenBody }
{}

/// Bytes are the body of at most one answer.
pub fn one_answer()
    ensures { OneAnswer }
{}

/// Bytes are the text of at most one call.
pub fn one_call()
    ensures { OneCall }
{}

/// The compact text of a call within the limits is a text of it.
pub fn written_call()
    ensures { WrittenCall }
{}

/// The text that is written for an answer within the limits is a body of it.
pub fn written_answer()
    ensures { WrittenAnswer }
{}

/// The constant bodies are what is written for their refusals.
pub fn body_constants()
    ensures bad_text { BAD_TEXT_BODY.now ≡ refused_text Refusal.BadText }
    ensures no_memory { NO_MEMORY_BODY.now ≡ refused_text Refusal.NoMemory }
{}
