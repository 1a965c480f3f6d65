//! The message, answer or call whose body given bytes are.
ghost use Rattle.std.specs.Prelude.{◌≡◌};
ghost use Rattle.rv_text.specs.Bodies.{IsMessageBody, IsAnswerBody, IsCallBody, Decodes};
ghost use Rattle.rv_text.specs.Reading.{messages, answers, calls, form_of};
ghost use Rattle.rv_text.specs.Reading.{FindsAmong, hello_among, request_among, welcome_among, replied_among};
ghost use Rattle.rv_text.specs.declared.message.Message.{Message};
ghost use Rattle.rv_text.specs.declared.answer.Answer.{Answer};
ghost use Rattle.rv_text.specs.declared.call.Call.{Call};

use crate::answer::Answer;
use crate::call::Call;
use crate::members::{read_call, read_key, read_refusal, read_reply, read_version};
use crate::message::Message;
use rv_json::{Body, FlatMember, Members, TextFault, decode, read_text, read_whole};
use std::alloc::Global;

/// The message whose body the bytes are.
///
/// The length is checked first, without memory. Bytes of a body's length that are no JSON give
/// [`TextFault::NotJson`], and all other bytes that are no message's body give [`TextFault::NotMessage`]. If
/// a name occurs twice, its last value counts. [`TextFault::NoMemory`] comes only if a growth was refused.
pub fn decode_message(alloc: Global, bytes: &[u8]) -> Result<Message, TextFault>
    ensures { Decodes Message IsMessageBody bytes.now result }
{
    decode::<Message>(alloc, bytes)
}

/// The answer whose body the bytes are, as [`decode_message`] reads a message.
pub fn decode_answer(alloc: Global, bytes: &[u8]) -> Result<Answer, TextFault>
    ensures { Decodes Answer IsAnswerBody bytes.now result }
{
    decode::<Answer>(alloc, bytes)
}

/// The call whose text the bytes are, as [`decode_message`] reads a message. The members are those of the
/// call, without a key.
pub fn decode_call(alloc: Global, bytes: &[u8]) -> Result<Call, TextFault>
    ensures { Decodes Call IsCallBody bytes.now result }
{
    decode::<Call>(alloc, bytes)
}

fn read_hello(members: &Members) -> Result<Message, TextFault>
    ensures { FindsAmong members.now result hello_among }
{
    Ok(Message::Hello {
        client: read_whole(members, "client")?,
        incarnation: read_whole(members, "incarnation")?,
        version: read_version(members),
    })
}

fn read_request(alloc: Global, members: &mut Members) -> Result<Message, TextFault>
    ensures { FindsAmong members.old result request_among }
{
    Ok(Message::Request {
        key: read_key(members)?,
        call: read_call(alloc, members)?,
    })
}

impl Body for Message {
    ghost form = { form_of messages };

    fn read(alloc: Global, members: &mut Members) -> Result<Message, TextFault> {
        match read_text(members, "kind")? {
            "hello" => read_hello(members),
            "request" => read_request(alloc, members),
            "cancel" => read_key(members).map(|key| Message::Cancel { key }),
            _ => Err(TextFault::NotMessage),
        }
    }

    fn member_count(&self) -> usize {
        match self {
            Message::Hello { version, .. } => 3 + version.member_count(),
            Message::Request { call, .. } => 5 + call.member_count(),
            Message::Cancel { .. } => 5,
        }
    }

    fn is_within(&self) -> bool {
        self.fits()
    }

    fn has_members(&self, _fields: &[FlatMember]) {}
}

fn read_welcome(members: &Members) -> Result<Answer, TextFault>
    ensures { FindsAmong members.now result welcome_among }
{
    Ok(Answer::Welcome {
        epoch: read_whole(members, "epoch")?,
        client: read_whole(members, "client")?,
        incarnation: read_whole(members, "incarnation")?,
        version: read_version(members),
    })
}

// A request's key and its reply.
fn read_replied(alloc: Global, members: &mut Members) -> Result<Answer, TextFault>
    ensures { FindsAmong members.old result replied_among }
{
    let key = read_key(members)?;
    read_reply(alloc, members, key.epoch).map(|reply| Answer::Replied { key, reply })
}

impl Body for Answer {
    ghost form = { form_of answers };

    fn read(alloc: Global, members: &mut Members) -> Result<Answer, TextFault> {
        match read_text(members, "kind")? {
            "welcome" => read_welcome(members),
            "reply" => read_replied(alloc, members),
            "waiting" => read_key(members).map(|key| Answer::Waiting { key }),
            "refused" => read_refusal(members).map(Answer::Refused),
            _ => Err(TextFault::NotMessage),
        }
    }

    fn member_count(&self) -> usize {
        match self {
            Answer::Welcome { version, .. } => 4 + version.member_count(),
            Answer::Replied { reply, .. } => 5 + reply.member_count(),
            Answer::Waiting { .. } => 5,
            Answer::Refused(refusal) => 2 + refusal.detail_count(),
        }
    }

    fn is_within(&self) -> bool {
        self.fits()
    }

    fn has_members(&self, _fields: &[FlatMember]) {}
}

impl Body for Call {
    ghost form = { form_of calls };

    fn read(alloc: Global, members: &mut Members) -> Result<Call, TextFault> {
        read_call(alloc, members)
    }

    // Its word and its place, how many items it drains or else its wait, and its item.
    fn member_count(&self) -> usize {
        2 + usize::from(self.drains().is_some() || self.wait().is_some())
            + usize::from(self.item().is_some())
    }

    fn is_within(&self) -> bool {
        self.fits()
    }

    fn has_members(&self, _fields: &[FlatMember]) {}
}
