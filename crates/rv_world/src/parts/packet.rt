//! Packets to clients, and copies of messages and answers for their delivery.
ghost use Rattle.std.specs.Prelude.{◌≡◌, IfOk};
ghost use Rattle.rv_world.specs.parts.Events.{sender};

use rv_text::{Answer, Message, NoMemory};
use std::alloc::Global;

/// An answer that was sent, and the client to which it goes.
#[derive(Drop)]
pub struct Packet {
    /// The client of the message that is answered.
    pub client: u64,
    /// The answer.
    pub answer: Answer,
}

// The client that a message comes from.
pub(crate) fn sender(message: &Message) -> u64
    ensures { result ≡ sender message.now }
{
    match message {
        Message::Hello { client, .. } => *client,
        Message::Request { key, .. } => key.client,
        Message::Cancel { key } => key.client,
    }
}

// A copy of a message. Fails only if memory for its item was refused.
pub(crate) fn copy_message(alloc: Global, message: &Message) -> Result<Message, NoMemory>
    ensures { IfOk result (λ copy. copy ≡ message.now) }
{
    match message {
        Message::Hello {
            client,
            incarnation,
            version,
        } => Ok(Message::Hello {
            client: *client,
            incarnation: *incarnation,
            version: *version,
        }),
        Message::Request { key, call } => Ok(Message::Request {
            key: *key,
            call: call.copy(alloc)?,
        }),
        Message::Cancel { key } => Ok(Message::Cancel { key: *key }),
    }
}

// A copy of an answer. Fails only if memory for its items was refused.
pub(crate) fn copy_answer(alloc: Global, answer: &Answer) -> Result<Answer, NoMemory>
    ensures { IfOk result (λ copy. copy ≡ answer.now) }
{
    match answer {
        Answer::Welcome {
            epoch,
            client,
            incarnation,
            version,
        } => Ok(Answer::Welcome {
            epoch: *epoch,
            client: *client,
            incarnation: *incarnation,
            version: *version,
        }),
        Answer::Replied { key, reply } => Ok(Answer::Replied {
            key: *key,
            reply: reply.copy(alloc)?,
        }),
        Answer::Waiting { key } => Ok(Answer::Waiting { key: *key }),
        Answer::Refused(refusal) => Ok(Answer::Refused(*refusal)),
    }
}
