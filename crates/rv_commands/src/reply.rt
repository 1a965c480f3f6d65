//! What a command prints of its request's reply, and the status that tells it.
ghost use Rattle.std.specs.Prelude.{◌≡◌, ◌++◌, IfOk, string_bytes};
ghost use Rattle.rv_commands.specs.Printed.{ended_items, ended_text, key_words, printed, reply_status};

use rv_text::{Item, Key, NoMemory, Reply, encode_reply_in};
use std::alloc::Global;

/// How a reply is printed.
#[derive(Clone, Copy, PartialEq, Eq)]
pub enum ReplyForm {
    /// Each item or line ends with LF.
    Lines,
    /// Each item or line ends with a zero byte.
    Zeros,
    /// The body of the reply's answer, which is JSON, and LF.
    Json,
}

/// The text that is printed of a reply: the item alone, each item of a drain, `done`, `received` with the
/// taker's client, incarnation and number, or how many items and consumers wait. It is empty where nothing
/// took place, except as JSON. Fails only if memory was refused.
pub fn reply_text(
    alloc: Global,
    form: ReplyForm,
    key: &Key,
    reply: &Reply,
) -> Result<String, NoMemory>
    ensures { IfOk result (λ text. string_bytes text ≡ printed form key.now reply.now) }
{
    match form {
        ReplyForm::Lines => text_ended(alloc, reply, "\n"),
        ReplyForm::Zeros => text_ended(alloc, reply, "\0"),
        ReplyForm::Json => body_line(alloc, key, reply),
    }
}

/// The status that tells a reply: 0 where it took place, 3 where nobody or no item was there, 4 where its
/// wait ended, 5 where it was cancelled.
pub fn status_of(reply: &Reply) -> u8
    ensures { result ≡ reply_status reply.now }
{
    match reply {
        Reply::Nobody | Reply::Empty => 3,
        Reply::Drained(items) if items.as_slice().is_empty() => 3,
        Reply::TimedOut => 4,
        Reply::Cancelled => 5,
        _ => 0,
    }
}

// The body of the reply's answer, and LF.
fn body_line(alloc: Global, key: &Key, reply: &Reply) -> Result<String, NoMemory>
    ensures { IfOk result (λ text. string_bytes text ≡ printed ReplyForm.Json key.now reply.now) }
{
    let mut text = encode_reply_in(Vec::new(alloc), key, reply)?;
    text.push('\n')?;
    Ok(text)
}

// The text of a reply, each part of which ends so.
fn text_ended(alloc: Global, reply: &Reply, end: &str) -> Result<String, NoMemory>
    ensures { IfOk result (λ text. string_bytes text ≡ ended_text reply.now end.now) }
{
    match reply {
        Reply::Done => format!(in alloc; "done{end}"),
        Reply::Received => format!(in alloc; "received{end}"),
        Reply::ReceivedBy(taker) => taker_text(alloc, taker, end),
        Reply::Item(item) | Reply::Swapped(item) | Reply::Peeked(item) => {
            item_text(alloc, item, end)
        }
        Reply::Counted { items, consumers } => counts_text(alloc, *items, *consumers, end),
        Reply::Drained(items) => items_text(alloc, items.as_slice(), end),
        Reply::Nobody | Reply::Empty | Reply::TimedOut | Reply::Cancelled => {
            Ok(String::new(alloc))
        }
    }
}

// The line of a transfer whose item went to the request of this key.
fn taker_text(alloc: Global, taker: &Key, end: &str) -> Result<String, NoMemory>
    ensures { IfOk result (λ text. string_bytes text ≡ ended_text (Reply.ReceivedBy taker.now) end.now) }
{
    let key = key_text(alloc, taker)?;
    format!(in alloc; "received {key}{end}")
}

// A key's client, incarnation and number.
fn key_text(alloc: Global, key: &Key) -> Result<String, NoMemory>
    ensures { IfOk result (λ text. string_bytes text ≡ key_words key.now) }
{
    let (client, incarnation, number) = (key.client, key.incarnation, key.number);
    format!(in alloc; "{client} {incarnation} {number}")
}

// How many items wait, and how many consumers.
fn counts_text(alloc: Global, items: u64, consumers: u64, end: &str) -> Result<String, NoMemory>
    ensures { IfOk result (λ text. string_bytes text ≡ ended_text (Reply.Counted items consumers) end.now) }
{
    format!(in alloc; "{items} {consumers}{end}")
}

// An item and its end.
fn item_text(alloc: Global, item: &Item, end: &str) -> Result<String, NoMemory>
    ensures { IfOk result (λ text. string_bytes text ≡ item.now ++ end.now) }
{
    let mut text = String::from_str(alloc, item.as_str())?;
    text.push_str(end)?;
    Ok(text)
}

// Items, each with its end.
fn items_text(alloc: Global, items: &[Item], end: &str) -> Result<String, NoMemory>
    ensures { IfOk result (λ text. string_bytes text ≡ ended_items items.now end.now) }
{
    let mut text = String::new(alloc);
    for item in items {
        text.push_str(item.as_str())?;
        text.push_str(end)?;
    }
    Ok(text)
}
