//! Reads the line of a record.
ghost use Rattle.std.specs.Prelude.{◌≡◌, ◌≤◌, ℕ, Err, IfOk, IfSome, None, codes, option_and_then, option_map};
ghost use Rattle.serde_json.specs.Data.{depth};
ghost use Rattle.serde_json.specs.Data as json;
ghost use Rattle.serde_json.specs.Find.{as_object, get_member};
ghost use Rattle.serde_json.specs.Read.{max_depth};
ghost use Rattle.serde_json.specs.View.{members_view, view};
ghost use Rattle.rv_json.specs.Bodies.{IsNotJson, Reads};
ghost use Rattle.rv_replies.specs.Lines.{AsksMember, HasTwo, ReadsTold, TellsMember};
ghost use Rattle.rv_replies.specs.Reading.{HasMemberText, IsShallow};
ghost use Rattle.rv_replies.specs.declared.findings.Told as told;
ghost use Rattle.rv_text.specs.declared.call.Call as calls;
ghost use Rattle.rv_text.specs.declared.message.Key as keys;
ghost use Rattle.rv_text.specs.declared.answer.Reply as replies;
ghost use Rattle.rv_text.specs.declared.answer.Answer.TheVariants as answers;
ghost use Rattle.rv_text.specs.declared.message.Message.TheVariants as messages;
ghost use Rattle.rv_text.specs.Bodies.{IsAnswerBody, IsMessageBody};

use crate::findings::Told;
use rv_json::two_objects;
use rv_text::{
    Answer, Call, Key, Message, NoMemory, Reply, TextFault, decode_answer, decode_message,
};
use serde_json::{Map, Value};
use std::alloc::{AllocError, Global};

/// Why a line isn't a record of a reply.
#[derive(Clone, Copy)]
pub enum Flaw {
    /// It isn't JSON.
    NotJson,
    /// It isn't an object of two members.
    NotTwo,
    /// Its member `asked` isn't a request.
    NotAsked,
    /// Its member `told` isn't a reply to that request.
    NotTold,
}

/// Why a line wasn't read.
pub(crate) enum NotRead {
    /// It isn't a record.
    Flawed(Flaw),
    /// Memory was refused, for a line that may be one.
    NoMemory,
}

impl From<AllocError> for NotRead {
    ghost use Rattle.rv_replies.specs.declared.reading.NotRead.TheVariants as unread;

    ghost from_gives = { λ _ why. why ≡ unread.NoMemory };

    fn from(_refused: AllocError) -> NotRead {
        NotRead::NoMemory
    }
}

// The JSON value of a line.
fn value_of(alloc: Global, line: &[u8]) -> Result<Value, NotRead>
    ensures value { IfOk result (λ value. Reads line.now (view value)) }
    ensures shallow { IfOk result (λ value. IsShallow (view value)) }
    ensures flaw { (flaw : Flaw) → result ≡ Err (NotRead.Flawed flaw) → IsNotJson line.now }
{
    match Value::from_slice(alloc, line) {
        Ok(value) => Ok(value),
        Err(error) if error.is_memory() => Err(NotRead::NoMemory),
        Err(_) => Err(NotRead::Flawed(Flaw::NotJson)),
    }
}

// The members of an object that has two.
#[tactic(auto, using(crate::proofs::Counts::members_counted))]
fn two_members(value: &Value) -> Option<&Map<String, Value>>
    ensures some { IfSome result (λ members. HasTwo (view value.now) (members_view members.now.entries)) }
    ensures none { result ≡ None → (members : json.Members) → ¬ HasTwo (view value.now) members }
{
    let members = value.as_object()?;
    if members.len() == 2 {
        Some(members)
    } else {
        None
    }
}

fn member<'v>(members: &'v Map<String, Value>, name: &str) -> Option<&'v Value>
    ensures { option_map (λ v. view v.now) result
        ≡ get_member name.now (members_view members.now.entries) }
{
    members.get(name)
}

// The text that is written of the member with a name.
fn text_at(
    alloc: Global,
    members: &Map<String, Value>,
    name: &str,
) -> Result<Option<String>, NoMemory>
    ensures { IfOk result (HasMemberText (get_member name.now (members_view members.now.entries))) }
{
    match member(members, name) {
        Some(value) => Ok(Some(value.to_string(alloc)?)),
        None => Ok(None),
    }
}

// The request that is the member `asked`.
fn read_asked(alloc: Global, members: &Map<String, Value>) -> Result<(Key, Call), NotRead>
    requires { IsShallow (json.object (members_view members.now.entries)) }
    ensures asks { IfOk result (λ p. AsksMember (members_view members.now.entries) p.0 p.1) }
    ensures flaw { (flaw : Flaw) → result ≡ Err (NotRead.Flawed flaw) → (key : keys.Key) (call : calls.Call)
        → ¬ AsksMember (members_view members.now.entries) key call }
{
    let Some(text) = text_at(alloc, members, "asked")? else {
        return Err(NotRead::Flawed(Flaw::NotAsked));
    };
    match decode_message(alloc, text.as_bytes()) {
        Ok(Message::Request { key, call }) => Ok((key, call)),
        Ok(Message::Hello { .. }) => Err(NotRead::Flawed(Flaw::NotAsked)),
        Ok(Message::Cancel { .. }) => Err(NotRead::Flawed(Flaw::NotAsked)),
        Err(TextFault::NotJson) => Err(NotRead::Flawed(Flaw::NotAsked)),
        Err(TextFault::NotMessage) => Err(NotRead::Flawed(Flaw::NotAsked)),
        Err(TextFault::NoMemory) => Err(NotRead::NoMemory),
    }
}

// The reply and its key that are the member `told`.
fn read_reply(alloc: Global, members: &Map<String, Value>) -> Result<(Key, Reply), NotRead>
    requires { IsShallow (json.object (members_view members.now.entries)) }
    ensures tells { IfOk result (λ p. TellsMember (members_view members.now.entries) p.0 p.1) }
    ensures flaw { (flaw : Flaw) → result ≡ Err (NotRead.Flawed flaw) → (key : keys.Key)
        (reply : replies.Reply) → ¬ TellsMember (members_view members.now.entries) key reply }
{
    let Some(text) = text_at(alloc, members, "told")? else {
        return Err(NotRead::Flawed(Flaw::NotTold));
    };
    match decode_answer(alloc, text.as_bytes()) {
        Ok(Answer::Replied { key, reply }) => Ok((key, reply)),
        Ok(Answer::Welcome { .. }) => Err(NotRead::Flawed(Flaw::NotTold)),
        Ok(Answer::Waiting { .. }) => Err(NotRead::Flawed(Flaw::NotTold)),
        Ok(Answer::Refused(_)) => Err(NotRead::Flawed(Flaw::NotTold)),
        Err(TextFault::NotJson) => Err(NotRead::Flawed(Flaw::NotTold)),
        Err(TextFault::NotMessage) => Err(NotRead::Flawed(Flaw::NotTold)),
        Err(TextFault::NoMemory) => Err(NotRead::NoMemory),
    }
}

// The request whose body the bytes are, if they are one. The only fault is want of memory.
fn request_in(alloc: Global, bytes: &[u8]) -> Result<Option<(Key, Call)>, NotRead>
    ensures sure { (flaw : Flaw) → ¬ (result ≡ Err (NotRead.Flawed flaw)) }
    ensures found { IfOk result
        (λ found. IfSome found (λ p. IsMessageBody bytes.now (messages.Request p.0 p.1))) }
{
    match decode_message(alloc, bytes) {
        Ok(Message::Request { key, call }) => Ok(Some((key, call))),
        Ok(Message::Hello { .. }) => Ok(None),
        Ok(Message::Cancel { .. }) => Ok(None),
        Err(TextFault::NotJson) => Ok(None),
        Err(TextFault::NotMessage) => Ok(None),
        Err(TextFault::NoMemory) => Err(NotRead::NoMemory),
    }
}

// The reply whose body the bytes are, with the key of its request, if they are one. The only fault is want
// of memory.
fn reply_in(alloc: Global, bytes: &[u8]) -> Result<Option<(Key, Reply)>, NotRead>
    ensures sure { (flaw : Flaw) → ¬ (result ≡ Err (NotRead.Flawed flaw)) }
    ensures found { IfOk result
        (λ found. IfSome found (λ p. IsAnswerBody bytes.now (answers.Replied p.0 p.1))) }
{
    match decode_answer(alloc, bytes) {
        Ok(Answer::Replied { key, reply }) => Ok(Some((key, reply))),
        Ok(Answer::Welcome { .. }) => Ok(None),
        Ok(Answer::Waiting { .. }) => Ok(None),
        Ok(Answer::Refused(_)) => Ok(None),
        Err(TextFault::NotJson) => Ok(None),
        Err(TextFault::NotMessage) => Ok(None),
        Err(TextFault::NoMemory) => Err(NotRead::NoMemory),
    }
}

// The reply of which a compact line is the record, with no tree. `None` says nothing of the line. The only
// fault is want of memory, where two bodies stand in it.
fn read_compact(alloc: Global, line: &[u8]) -> Result<Option<Told>, NotRead>
    ensures sure { (flaw : Flaw) → ¬ (result ≡ Err (NotRead.Flawed flaw)) }
    ensures told { IfOk result (λ found. IfSome found (ReadsTold line.now)) }
{
    let Some((asked, told)) = two_objects(line, "asked", "told") else {
        return Ok(None);
    };
    let Some((key, call)) = request_in(alloc, asked)? else {
        return Ok(None);
    };
    let Some((own, reply)) = reply_in(alloc, told)? else {
        return Ok(None);
    };
    if key == own {
        Ok(Some(Told { key, call, reply }))
    } else {
        Ok(None)
    }
}

// The reply of which any line is the record.
fn read_tree(alloc: Global, line: &[u8]) -> Result<Told, NotRead>
    ensures told { IfOk result (ReadsTold line.now) }
    ensures flaw { (flaw : Flaw) → result ≡ Err (NotRead.Flawed flaw) → (told : told.Told)
        → ¬ ReadsTold line.now told }
{
    let value = value_of(alloc, line)?;
    let Some(members) = two_members(&value) else {
        return Err(NotRead::Flawed(Flaw::NotTwo));
    };
    let (key, call) = read_asked(alloc, members)?;
    let (own, reply) = read_reply(alloc, members)?;
    if own == key {
        Ok(Told { key, call, reply })
    } else {
        Err(NotRead::Flawed(Flaw::NotTold))
    }
}

/// The reply that a line records. A compact line of both members, in the order in which clients write them,
/// is read with no memory but that of the two; any other line is read by `serde_json`.
pub(crate) fn read_told(alloc: Global, line: &[u8]) -> Result<Told, NotRead>
    ensures told { IfOk result (ReadsTold line.now) }
    ensures flaw { (flaw : Flaw) → result ≡ Err (NotRead.Flawed flaw) → (told : told.Told)
        → ¬ ReadsTold line.now told }
{
    match read_compact(alloc, line)? {
        Some(told) => Ok(told),
        None => read_tree(alloc, line),
    }
}
