//! Reads keys, calls, replies and refusals among the members of a JSON object. Limits are not looked at yet.
ghost use Rattle.std.specs.Prelude.{◌≡◌};
ghost use Rattle.rv_json.specs.Flat.{seen};
ghost use Rattle.rv_text.specs.Reading.{FindsAmong, key_among, wait_among, call_among, version_among};
ghost use Rattle.rv_text.specs.Reading.{put_among, take_among, transfer_among, swap_among, drain_among};
ghost use Rattle.rv_text.specs.Reading.{counted_among, received_among, reply_among, refusal_among};
ghost use Rattle.rv_text.specs.Reading.{current_version_among};

use crate::answer::{Refusal, Reply};
use crate::call::{Call, Wait};
use crate::message::Key;
use crate::version::Version;
use rv_json::{Members, TextFault, find_whole, read_text, read_whole, take_item, take_texts};
use std::alloc::Global;

pub(crate) fn read_key(members: &Members) -> Result<Key, TextFault>
    ensures { FindsAmong members.now result key_among }
{
    Ok(Key {
        epoch: read_whole(members, "epoch")?,
        client: read_whole(members, "client")?,
        incarnation: read_whole(members, "incarnation")?,
        number: read_whole(members, "number")?,
    })
}

fn read_wait(members: &Members) -> Result<Wait, TextFault>
    ensures { FindsAmong members.now result wait_among }
{
    if let Some(millis) = find_whole(members, "wait") {
        return Ok(Wait::Millis(millis));
    }
    match read_text(members, "wait")? {
        "now" => Ok(Wait::Now),
        "forever" => Ok(Wait::Forever),
        _ => Err(TextFault::NotMessage),
    }
}

pub(crate) fn read_call(alloc: Global, members: &mut Members) -> Result<Call, TextFault>
    ensures { FindsAmong members.old result call_among }
{
    match read_text(members, "call")? {
        "put" => read_put(alloc, members),
        "transfer" => read_transfer(alloc, members),
        "take" => read_take(members),
        "swap" => read_swap(alloc, members),
        "count" => read_whole(members, "queue").map(|queue| Call::Count { queue }),
        "peek" => read_whole(members, "queue").map(|queue| Call::Peek { queue }),
        "drain" => read_drain(members),
        _ => Err(TextFault::NotMessage),
    }
}

fn read_put(alloc: Global, members: &mut Members) -> Result<Call, TextFault>
    ensures { FindsAmong members.old result put_among }
{
    Ok(Call::Put {
        queue: read_whole(members, "queue")?,
        item: take_item(alloc, members)?,
    })
}

fn read_take(members: &Members) -> Result<Call, TextFault>
    ensures { FindsAmong members.now result take_among }
{
    Ok(Call::Take {
        queue: read_whole(members, "queue")?,
        wait: read_wait(members)?,
    })
}

fn read_transfer(alloc: Global, members: &mut Members) -> Result<Call, TextFault>
    ensures { FindsAmong members.old result transfer_among }
{
    Ok(Call::Transfer {
        queue: read_whole(members, "queue")?,
        wait: read_wait(members)?,
        item: take_item(alloc, members)?,
    })
}

fn read_swap(alloc: Global, members: &mut Members) -> Result<Call, TextFault>
    ensures { FindsAmong members.old result swap_among }
{
    Ok(Call::Swap {
        exchanger: read_whole(members, "exchanger")?,
        wait: read_wait(members)?,
        item: take_item(alloc, members)?,
    })
}

fn read_drain(members: &Members) -> Result<Call, TextFault>
    ensures { FindsAmong members.now result drain_among }
{
    Ok(Call::Drain {
        queue: read_whole(members, "queue")?,
        max: read_whole(members, "max")?,
    })
}

// The version that a hello or a welcome names, or else the first.
pub(crate) fn read_version(members: &Members) -> Version
    ensures { result ≡ version_among (seen members.now) }
{
    match find_whole(members, "version") {
        Some(2) => Version::Two,
        _ => Version::One,
    }
}

// The reply to a transfer that was received, with the consumer's key if there is one. The consumer is of this
// epoch.
fn read_received(members: &Members, epoch: u64) -> Result<Reply, TextFault>
    ensures { FindsAmong members.now result (received_among epoch) }
{
    match find_whole(members, "by_client") {
        None => Ok(Reply::Received),
        Some(client) => Ok(Reply::ReceivedBy(Key {
            epoch,
            client,
            incarnation: read_whole(members, "by_incarnation")?,
            number: read_whole(members, "by_number")?,
        })),
    }
}

fn read_counted(members: &Members) -> Result<Reply, TextFault>
    ensures { FindsAmong members.now result counted_among }
{
    Ok(Reply::Counted {
        items: read_whole(members, "items")?,
        consumers: read_whole(members, "consumers")?,
    })
}

// The reply in an answer of this epoch.
pub(crate) fn read_reply(
    alloc: Global,
    members: &mut Members,
    epoch: u64,
) -> Result<Reply, TextFault>
    ensures { FindsAmong members.old result (reply_among epoch) }
{
    match read_text(members, "reply")? {
        "done" => Ok(Reply::Done),
        "received" => read_received(members, epoch),
        "nobody" => Ok(Reply::Nobody),
        "item" => take_item(alloc, members).map(Reply::Item),
        "empty" => Ok(Reply::Empty),
        "swapped" => take_item(alloc, members).map(Reply::Swapped),
        "timedout" => Ok(Reply::TimedOut),
        "cancelled" => Ok(Reply::Cancelled),
        "counted" => read_counted(members),
        "peeked" => take_item(alloc, members).map(Reply::Peeked),
        "drained" => take_texts(alloc, members).map(Reply::Drained),
        _ => Err(TextFault::NotMessage),
    }
}

// The version of a session that a hello asked for another one.
fn read_current_version(members: &Members) -> Result<Version, TextFault>
    ensures { FindsAmong members.now result current_version_among }
{
    Version::of_number(read_whole(members, "current")?).ok_or(TextFault::NotMessage)
}

pub(crate) fn read_refusal(members: &Members) -> Result<Refusal, TextFault>
    ensures { FindsAmong members.now result refusal_among }
{
    match read_whole(members, "code")? {
        1 => Ok(Refusal::BadText),
        2 => read_whole(members, "current").map(Refusal::OtherEpoch),
        3 => Ok(Refusal::NoSession),
        4 => read_whole(members, "current").map(Refusal::OldIncarnation),
        5 => read_whole(members, "last").map(Refusal::OldNumber),
        6 => Ok(Refusal::OtherCall),
        7 => read_whole(members, "open").map(Refusal::Busy),
        8 => read_whole(members, "last").map(Refusal::Gap),
        9 => Ok(Refusal::ClientsFull),
        10 => Ok(Refusal::EpochFull),
        11 => Ok(Refusal::NoMemory),
        12 => read_current_version(members).map(Refusal::OtherVersion),
        _ => Err(TextFault::NotMessage),
    }
}
