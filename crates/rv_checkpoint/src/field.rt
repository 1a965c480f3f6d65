//! The fields of a line: numbers, and the bodies of messages and answers.
ghost use Rattle.std.specs.Prelude.{◌≡◌, ◌≢◌, ℕ, List, None, Err, IfOk, IfSome};
ghost use Rattle.rv_checkpoint.specs.Fields.{CutsNumber, CutsTexts, CutsVersion};
ghost use Rattle.rv_checkpoint.specs.Fields.{IsCancelOf, IsBodyOfReply, IsRequestOf};
ghost use Rattle.rv_text.specs.declared.answer.Reply as told;
ghost use Rattle.rv_text.specs.declared.answer.Answer.TheVariants as answers;
ghost use Rattle.rv_text.specs.declared.call.Call as asked;
ghost use Rattle.rv_text.specs.declared.message.Key as keys;
ghost use Rattle.rv_text.specs.declared.message.Message.TheVariants as messages;
ghost use Rattle.rv_text.specs.declared.version.Version as versions;

use rv_book::lines::{LineFault, cut_at};
use rv_text::{
    Answer, Call, Key, Message, Reply, Version, decode_answer, decode_message, read_plain,
};
use std::alloc::Global;

// The greatest number of a field: 2^62.
pub(crate) const MAX_FIELD: u64 = 4_611_686_018_427_387_904;

// A number, which a space follows, and the bytes after that.
pub(crate) fn cut_number(fields: &[u8]) -> Option<(u64, &[u8])>
    ensures some { IfSome result (λ p. CutsNumber fields.now p.0 p.1.now) }
    ensures none { result ≡ None → (n : ℕ) (rest : List ℕ) → ¬ CutsNumber fields.now n rest }
{
    let (field, rest) = cut_at(b' ', fields)?;
    let n = read_plain(field, MAX_FIELD)?;
    Some((n, rest))
}

// The version whose number comes first, with a space after it.
pub(crate) fn cut_version(fields: &[u8]) -> Option<(Version, &[u8])>
    ensures some { IfSome result (λ p. CutsVersion fields.now p.0 p.1.now) }
    ensures none { result ≡ None → (version : versions.Version) (rest : List ℕ)
        → ¬ CutsVersion fields.now version rest }
{
    let (number, rest) = cut_number(fields)?;
    let version = Version::of_number(number)?;
    Some((version, rest))
}

// The text that comes after its length, and the bytes after the text.
pub(crate) fn cut_texts(fields: &[u8]) -> Option<(&[u8], &[u8])>
    ensures some { IfSome result (λ p. CutsTexts fields.now p.0.now p.1.now) }
    ensures none { result ≡ None → (text rest : List ℕ) → ¬ CutsTexts fields.now text rest }
{
    let (length, texts) = cut_number(fields)?;
    texts.split_at_checked(length as usize)
}

// The key and the call of a message that is a request of this epoch.
fn request_in(epoch: u64, message: Message) -> Option<(Key, Call)>
    ensures some { IfSome result (λ p. (message ≡ messages.Request p.0 p.1) × (p.0.epoch ≡ epoch)) }
    ensures none { result ≡ None → (key : keys.Key) (call : asked.Call) → key.epoch ≡ epoch
        → message ≢ messages.Request key call }
{
    match message {
        Message::Request { key, call } => (key.epoch == epoch).then_some((key, call)),
        Message::Hello { .. } => None,
        Message::Cancel { .. } => None,
    }
}

// The key of a message that cancels a request of this epoch.
fn cancel_in(epoch: u64, message: Message) -> Option<Key>
    ensures some { IfSome result (λ key. (message ≡ messages.Cancel key) × (key.epoch ≡ epoch)) }
    ensures none { result ≡ None → (key : keys.Key) → key.epoch ≡ epoch → message ≢ messages.Cancel key }
{
    match message {
        Message::Cancel { key } => (key.epoch == epoch).then_some(key),
        Message::Hello { .. } => None,
        Message::Request { .. } => None,
    }
}

// The key and the reply of an answer that is a reply of this epoch.
fn reply_in(epoch: u64, answer: Answer) -> Option<(Key, Reply)>
    ensures some { IfSome result (λ p. (answer ≡ answers.Replied p.0 p.1) × (p.0.epoch ≡ epoch)) }
    ensures none { result ≡ None → (key : keys.Key) (reply : told.Reply) → key.epoch ≡ epoch
        → answer ≢ answers.Replied key reply }
{
    match answer {
        Answer::Replied { key, reply } => (key.epoch == epoch).then_some((key, reply)),
        Answer::Welcome { .. } => None,
        Answer::Waiting { .. } => None,
        Answer::Refused(_) => None,
    }
}

// The key and the call of a request of this epoch, by its body.
pub(crate) fn read_request(alloc: Global, epoch: u64, body: &[u8]) -> Result<(Key, Call), LineFault>
    ensures reads { IfOk result (λ p. IsRequestOf epoch body.now p.0 p.1) }
    ensures bad { result ≡ Err LineFault.Bad → (key : keys.Key) (call : asked.Call)
        → ¬ IsRequestOf epoch body.now key call }
{
    let message = decode_message(alloc, body)?;
    request_in(epoch, message).ok_or(LineFault::Bad)
}

// The key of a request of this epoch, by a body of its cancel.
pub(crate) fn read_cancel(alloc: Global, epoch: u64, body: &[u8]) -> Result<Key, LineFault>
    ensures reads { IfOk result (IsCancelOf epoch body.now) }
    ensures bad { result ≡ Err LineFault.Bad → (key : keys.Key) → ¬ IsCancelOf epoch body.now key }
{
    let message = decode_message(alloc, body)?;
    cancel_in(epoch, message).ok_or(LineFault::Bad)
}

// The key and the reply of an answer of this epoch, by its body.
pub(crate) fn read_reply(alloc: Global, epoch: u64, body: &[u8]) -> Result<(Key, Reply), LineFault>
    ensures reads { IfOk result (λ p. IsBodyOfReply epoch body.now p.0 p.1) }
    ensures bad { result ≡ Err LineFault.Bad → (key : keys.Key) (reply : told.Reply)
        → ¬ IsBodyOfReply epoch body.now key reply }
{
    let answer = decode_answer(alloc, body)?;
    reply_in(epoch, answer).ok_or(LineFault::Bad)
}
