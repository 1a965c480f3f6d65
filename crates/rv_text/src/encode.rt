//! The one text that is written for a message or an answer: its members, each in its place by its name.
ghost use Rattle.std.specs.Prelude.{◌≡◌, ◌<◌, [], ◌∷◌, ◌++◌, codes, Some, OnOk, IfOk};
ghost use Rattle.std.specs.Prelude.{length, string_bytes, option_map};
ghost use Rattle.serde_json.specs.Data.{number, unsigned};
ghost use Rattle.rv_json.specs.Writing.{IsBlank, Writes};
ghost use Rattle.rv_text.specs.Rows.{version_row, item_row, taker_row, message_row, answer_row, call_row};
ghost use Rattle.rv_text.specs.Writing.{WritesRow, Completes, keyed_row, session_row, word_row};
ghost use Rattle.rv_text.specs.Writing.{refused_field};
ghost use Rattle.rv_text.specs.Writing.{exchanger_row, queue_row, max_row, wait_unless_max_row};
ghost use Rattle.rv_text.specs.Bodies.{HasBodyLength, message_text, answer_text, call_text, refused_text};
ghost use Rattle.rv_text.specs.Limits.{FitsMessage, FitsAnswer, FitsCall};

use crate::answer::{Answer, Refusal, Reply};
use crate::call::{Call, Side, Wait};
use crate::laws::body_constants;
use crate::message::{Key, Message};
use crate::version::Version;
use rv_json::{Item, NoMemory, ObjectText};
use std::alloc::Global;

/// The body of [`Refusal::BadText`], the answer to bytes that are not a message's body.
pub const BAD_TEXT_BODY: &str = "{\"code\":1,\"kind\":\"refused\"}";

/// The body of [`Refusal::NoMemory`], for an answer whose text finds no memory.
pub const NO_MEMORY_BODY: &str = "{\"code\":11,\"kind\":\"refused\"}";

/// [`BAD_TEXT_BODY`] as bytes: the body that is written for refusal 1.
pub fn bad_text_body() -> &'static [u8]
    ensures text { result.now ≡ refused_text Refusal.BadText }
    ensures length { HasBodyLength result.now }
{
    body_constants();
    BAD_TEXT_BODY.as_bytes()
}

/// [`NO_MEMORY_BODY`] as bytes: the body that is written for refusal 11.
pub fn no_memory_body() -> &'static [u8]
    ensures text { result.now ≡ refused_text Refusal.NoMemory }
    ensures length { HasBodyLength result.now }
{
    body_constants();
    NO_MEMORY_BODY.as_bytes()
}

/// The body that is written for an answer: JSON with no white space, its members in byte order of their
/// names. An answer within its limits has a body shorter than 65,535 bytes. Fails only if memory was refused.
pub fn encode_answer(alloc: Global, answer: &Answer) -> Result<String, NoMemory>
    ensures text { IfOk result (λ s. string_bytes s ≡ answer_text answer.now) }
    ensures short { FitsAnswer answer.now → IfOk result (λ s. HasBodyLength (string_bytes s)) }
    ensures shorter { FitsAnswer answer.now → IfOk result (λ s. length (string_bytes s) < 65535) }
{
    write_answer(ObjectText::new(alloc)?, answer)
}

/// The same body, in the memory of a buffer, whose bytes are dropped. It takes memory only if it needs more.
pub fn encode_answer_in(buffer: Vec<u8>, answer: &Answer) -> Result<String, NoMemory>
    ensures text { IfOk result (λ s. string_bytes s ≡ answer_text answer.now) }
    ensures short { FitsAnswer answer.now → IfOk result (λ s. HasBodyLength (string_bytes s)) }
    ensures shorter { FitsAnswer answer.now → IfOk result (λ s. length (string_bytes s) < 65535) }
{
    write_answer(ObjectText::in_room(buffer)?, answer)
}

/// The body of a reply, as [`encode_answer_in`] writes it, by its key and the reply, of which no copy is
/// made.
pub fn encode_reply_in(buffer: Vec<u8>, key: &Key, reply: &Reply) -> Result<String, NoMemory>
    ensures text { IfOk result (λ s. string_bytes s ≡ answer_text (Answer.Replied key.now reply.now)) }
    ensures short { FitsAnswer (Answer.Replied key.now reply.now)
        → IfOk result (λ s. HasBodyLength (string_bytes s)) }
    ensures shorter { FitsAnswer (Answer.Replied key.now reply.now)
        → IfOk result (λ s. length (string_bytes s) < 65535) }
{
    let mut body = ObjectText::in_room(buffer)?;
    put_reply(&mut body, key, reply)?;
    body.finish()
}

// The body of an answer, whose text has no member so far.
fn write_answer(mut body: ObjectText, answer: &Answer) -> Result<String, NoMemory>
    requires { IsBlank body }
    ensures text { IfOk result (λ s. string_bytes s ≡ answer_text answer.now) }
    ensures short { FitsAnswer answer.now → IfOk result (λ s. HasBodyLength (string_bytes s)) }
    ensures shorter { FitsAnswer answer.now → IfOk result (λ s. length (string_bytes s) < 65535) }
{
    put_answer(&mut body, answer)?;
    body.finish()
}

/// The body that is written for a message, as [`encode_answer`] writes an answer. Fails only if memory was
/// refused.
pub fn encode_message(alloc: Global, message: &Message) -> Result<String, NoMemory>
    ensures text { IfOk result (λ s. string_bytes s ≡ message_text message.now) }
    ensures short { FitsMessage message.now → IfOk result (λ s. HasBodyLength (string_bytes s)) }
    ensures shorter { FitsMessage message.now → IfOk result (λ s. length (string_bytes s) < 65535) }
{
    let mut body = ObjectText::new(alloc)?;
    put_message(&mut body, message)?;
    body.finish()
}

/// The body of a request, as [`encode_message`] writes it, by its key and its call, of which no copy is made.
/// Fails only if memory was refused.
pub fn encode_request(alloc: Global, key: &Key, call: &Call) -> Result<String, NoMemory>
    ensures text { IfOk result (λ s. string_bytes s ≡ message_text (Message.Request key.now call.now)) }
    ensures short { FitsMessage (Message.Request key.now call.now)
        → IfOk result (λ s. HasBodyLength (string_bytes s)) }
    ensures shorter { FitsMessage (Message.Request key.now call.now)
        → IfOk result (λ s. length (string_bytes s) < 65535) }
{
    let mut body = ObjectText::new(alloc)?;
    put_request(&mut body, key, call)?;
    body.finish()
}

/// The text of a call alone, as [`encode_message`] writes a message: its members, and none of a key. Fails
/// only if memory was refused.
pub fn encode_call(alloc: Global, call: &Call) -> Result<String, NoMemory>
    ensures text { IfOk result (λ s. string_bytes s ≡ call_text call.now) }
    ensures short { FitsCall call.now → IfOk result (λ s. HasBodyLength (string_bytes s)) }
    ensures shorter { FitsCall call.now → IfOk result (λ s. length (string_bytes s) < 65535) }
{
    let mut body = ObjectText::new(alloc)?;
    put_call(&mut body, call)?;
    body.finish()
}

fn put_message(body: &mut ObjectText, message: &Message) -> Result<(), NoMemory>
    ensures { OnOk result (Completes (message_row message.now) body.old body.new) }
{
    match message {
        Message::Hello {
            client,
            incarnation,
            version,
        } => {
            body.put_whole("client", *client)?;
            body.put_whole("incarnation", *incarnation)?;
            body.put_text("kind", "hello")?;
            put_version(body, *version)
        }
        Message::Request { key, call } => put_request(body, key, call),
        Message::Cancel { key } => put_keyed(body, "cancel", key),
    }
}

// The member of a version but the first, which goes without saying.
fn put_version(body: &mut ObjectText, version: Version) -> Result<(), NoMemory>
    ensures { OnOk result (WritesRow (version_row version) body.old body.new) }
{
    match version {
        Version::One => Ok(()),
        Version::Two => body.put_whole("version", version.number()),
    }
}

// The members of what is of this kind and has a key, and no more.
fn put_keyed(body: &mut ObjectText, kind: &str, key: &Key) -> Result<(), NoMemory>
    ensures { OnOk result (Completes (keyed_row kind.now key.now) body.old body.new) }
{
    put_session(body, key)?;
    body.put_text("kind", kind)?;
    body.put_whole("number", key.number)
}

// The members of a key but its number.
fn put_session(body: &mut ObjectText, key: &Key) -> Result<(), NoMemory>
    ensures { OnOk result (WritesRow (session_row key.now) body.old body.new) }
{
    body.put_whole("client", key.client)?;
    body.put_whole("epoch", key.epoch)?;
    body.put_whole("incarnation", key.incarnation)
}

fn put_request(body: &mut ObjectText, key: &Key, call: &Call) -> Result<(), NoMemory>
    ensures { OnOk result (Completes (message_row (Message.Request key.now call.now)) body.old body.new) }
{
    let nature = call.nature();
    body.put_text("call", nature.word)?;
    body.put_whole("client", key.client)?;
    body.put_whole("epoch", key.epoch)?;
    put_exchanger(body, nature.side)?;
    body.put_whole("incarnation", key.incarnation)?;
    put_item(body, nature.item)?;
    body.put_text("kind", "request")?;
    put_max(body, nature.drains)?;
    body.put_whole("number", key.number)?;
    put_queue(body, nature.side)?;
    put_wait(body, nature.drains, nature.wait)
}

// The members of a call, and no more.
fn put_call(body: &mut ObjectText, call: &Call) -> Result<(), NoMemory>
    ensures { OnOk result (Completes (call_row call.now) body.old body.new) }
{
    let nature = call.nature();
    body.put_text("call", nature.word)?;
    put_exchanger(body, nature.side)?;
    put_item(body, nature.item)?;
    put_max(body, nature.drains)?;
    put_queue(body, nature.side)?;
    put_wait(body, nature.drains, nature.wait)
}

fn put_exchanger(body: &mut ObjectText, side: Side) -> Result<(), NoMemory>
    ensures { OnOk result (WritesRow (exchanger_row side) body.old body.new) }
{
    match side {
        Side::Exchanges(exchanger) => body.put_whole("exchanger", exchanger),
        Side::Gives(_) | Side::Takes(_) | Side::Looks(_) => Ok(()),
    }
}

fn put_queue(body: &mut ObjectText, side: Side) -> Result<(), NoMemory>
    ensures { OnOk result (WritesRow (queue_row side) body.old body.new) }
{
    match side {
        Side::Gives(queue) | Side::Takes(queue) | Side::Looks(queue) => body.put_whole(
            "queue", queue,
        ),
        Side::Exchanges(_) => Ok(()),
    }
}

fn put_item(body: &mut ObjectText, item: Option<&Item>) -> Result<(), NoMemory>
    ensures { OnOk result (WritesRow (item_row (option_map (λ i. i.now) item.entry)) body.old body.new) }
{
    match item {
        Some(item) => body.put_text("item", item.as_str()),
        None => Ok(()),
    }
}

fn put_max(body: &mut ObjectText, drains: Option<u64>) -> Result<(), NoMemory>
    ensures { OnOk result (WritesRow (max_row drains) body.old body.new) }
{
    match drains {
        Some(max) => body.put_whole("max", max),
        None => Ok(()),
    }
}

// Its wait, unless it tells how many items it drains.
fn put_wait(body: &mut ObjectText, drains: Option<u64>, wait: Option<Wait>) -> Result<(), NoMemory>
    ensures { OnOk result (WritesRow (wait_unless_max_row drains wait) body.old body.new) }
{
    match (drains, wait) {
        (Some(_), _) | (None, None) => Ok(()),
        (None, Some(Wait::Now)) => body.put_text("wait", "now"),
        (None, Some(Wait::Millis(millis))) => body.put_whole("wait", millis),
        (None, Some(Wait::Forever)) => body.put_text("wait", "forever"),
    }
}

fn put_answer(body: &mut ObjectText, answer: &Answer) -> Result<(), NoMemory>
    ensures { OnOk result (Completes (answer_row answer.now) body.old body.new) }
{
    match answer {
        Answer::Welcome {
            epoch,
            client,
            incarnation,
            version,
        } => {
            body.put_whole("client", *client)?;
            body.put_whole("epoch", *epoch)?;
            body.put_whole("incarnation", *incarnation)?;
            body.put_text("kind", "welcome")?;
            put_version(body, *version)
        }
        Answer::Replied { key, reply } => put_reply(body, key, reply),
        Answer::Waiting { key } => put_keyed(body, "waiting", key),
        Answer::Refused(refusal) => put_refusal(body, *refusal),
    }
}

fn put_reply(body: &mut ObjectText, key: &Key, reply: &Reply) -> Result<(), NoMemory>
    ensures { OnOk result (Completes (answer_row (Answer.Replied key.now reply.now)) body.old body.new) }
{
    match reply {
        Reply::Done => put_told(body, key, "done"),
        Reply::Received => put_told(body, key, "received"),
        Reply::ReceivedBy(taker) => {
            put_taker(body, taker)?;
            put_told(body, key, "received")
        }
        Reply::Nobody => put_told(body, key, "nobody"),
        Reply::Item(item) => put_told_item(body, key, "item", item),
        Reply::Empty => put_told(body, key, "empty"),
        Reply::Swapped(item) => put_told_item(body, key, "swapped", item),
        Reply::TimedOut => put_told(body, key, "timedout"),
        Reply::Cancelled => put_told(body, key, "cancelled"),
        Reply::Counted { items, consumers } => put_counted(body, key, *items, *consumers),
        Reply::Peeked(item) => put_told_item(body, key, "peeked", item),
        Reply::Drained(items) => {
            put_told(body, key, "drained")?;
            body.put_texts("texts", items)
        }
    }
}

// The key of a consumer. Its epoch is that of the answer.
fn put_taker(body: &mut ObjectText, taker: &Key) -> Result<(), NoMemory>
    ensures { OnOk result (WritesRow (taker_row taker.now) body.old body.new) }
{
    body.put_whole("by_client", taker.client)?;
    body.put_whole("by_incarnation", taker.incarnation)?;
    body.put_whole("by_number", taker.number)
}

// A key and the word of a reply.
fn put_told(body: &mut ObjectText, key: &Key, word: &str) -> Result<(), NoMemory>
    ensures { OnOk result
        (WritesRow (session_row key.now ++ word_row key.now.number word.now) body.old body.new) }
{
    put_session(body, key)?;
    put_word(body, key.number, word)
}

// A key, an item and the word of a reply.
fn put_told_item(body: &mut ObjectText, key: &Key, word: &str, item: &Item) -> Result<(), NoMemory>
    ensures { OnOk result (WritesRow
        (session_row key.now ++ (item_row (Some item.now) ++ word_row key.now.number word.now))
        body.old body.new) }
{
    put_session(body, key)?;
    body.put_text("item", item.as_str())?;
    put_word(body, key.number, word)
}

// The last members of a key and the word of a reply.
fn put_word(body: &mut ObjectText, number: u64, word: &str) -> Result<(), NoMemory>
    ensures { OnOk result (WritesRow (word_row number word.now) body.old body.new) }
{
    body.put_text("kind", "reply")?;
    body.put_whole("number", number)?;
    body.put_text("reply", word)
}

fn put_counted(body: &mut ObjectText, key: &Key, items: u64, consumers: u64) -> Result<(), NoMemory>
    ensures { OnOk result (Completes (answer_row (Answer.Replied key.now (Reply.Counted items consumers)))
        body.old body.new) }
{
    body.put_whole("client", key.client)?;
    body.put_whole("consumers", consumers)?;
    body.put_whole("epoch", key.epoch)?;
    body.put_whole("incarnation", key.incarnation)?;
    body.put_whole("items", items)?;
    put_word(body, key.number, "counted")
}

fn put_refusal(body: &mut ObjectText, refusal: Refusal) -> Result<(), NoMemory>
    ensures { OnOk result (Completes (answer_row (Answer.Refused refusal)) body.old body.new) }
{
    body.put_whole("code", refusal.code())?;
    match refusal {
        Refusal::OtherEpoch(current) | Refusal::OldIncarnation(current) => put_current(
            body, current,
        ),
        Refusal::OtherVersion(version) => put_current(body, version.number()),
        Refusal::OldNumber(last) | Refusal::Gap(last) => put_refused(body, "last", last),
        Refusal::Busy(number) => put_refused(body, "open", number),
        _ => body.put_text("kind", "refused"),
    }
}

// What is current, and that a refusal is told.
fn put_current(body: &mut ObjectText, current: u64) -> Result<(), NoMemory>
    ensures { OnOk result (Writes ((codes "current", number (unsigned current)) ∷ refused_field ∷ [])
        body.old body.new) }
{
    body.put_whole("current", current)?;
    body.put_text("kind", "refused")
}

// That a refusal is told, and a number of this name.
fn put_refused(body: &mut ObjectText, name: &str, value: u64) -> Result<(), NoMemory>
    ensures { OnOk result (Writes (refused_field ∷ (name.now, number (unsigned value)) ∷ [])
        body.old body.new) }
{
    body.put_text("kind", "refused")?;
    body.put_whole(name, value)
}
