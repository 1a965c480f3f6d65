//! The line of an open place: an item that a put left, or a request that waits.
ghost use Rattle.std.specs.Prelude.{◌≡◌, ◌≢◌, ◌≤◌, ℕ, List, None, Some, Err, IfOk, IfSome, IsSome};
ghost use Rattle.std.specs.Prelude.{string_bytes};
ghost use Rattle.rv_account.specs.Calls.{Lasts, limit_of};
ghost use Rattle.rv_account.specs.Limits.{max_moment};
ghost use Rattle.rv_account.specs.state.Standing.{StandsFor};
ghost use Rattle.rv_checkpoint.specs.Saying.{SaysLying, SaysWaiting};
ghost use Rattle.rv_checkpoint.specs.Written.{IsOpenText, StandsThere, lying_text, waiting_text};
ghost use Rattle.rv_session.specs.declared.open.OpenPlace as places;
ghost use Rattle.rv_text.specs.Calls.{item_of, wait_of};
ghost use Rattle.rv_text.specs.Limits.{FitsCall};
ghost use Rattle.rv_text.specs.declared.call.Call as asked;
ghost use Rattle.rv_text.specs.declared.call.Call.TheVariants as calls;

use crate::field::{cut_number, read_request};
use rv_account::{deadline_after, lasts};
use rv_book::lines::LineFault;
use rv_session::{OpenPlace, Place, Waiter};
use rv_text::{Call, Item, NoMemory, Side, Wait, decode_call, encode_call, encode_request};
use std::alloc::Global;

// The queue and the item of a call that is a put.
fn put_in(call: Call) -> Option<(u64, Item)>
    ensures some { IfSome result (λ p. call ≡ calls.Put p.0 p.1) }
    ensures none { result ≡ None → (queue : ℕ) (item : List ℕ) → call ≢ calls.Put queue item }
{
    match call {
        Call::Put { queue, item } => Some((queue, item)),
        Call::Transfer { .. } => None,
        Call::Take { .. } => None,
        Call::Swap { .. } => None,
        Call::Count { .. } => None,
        Call::Peek { .. } => None,
        Call::Drain { .. } => None,
    }
}

// The open place at which an item lies, by the place and the text of the put that left the item.
pub(crate) fn read_lying(alloc: Global, fields: &[u8]) -> Result<OpenPlace, LineFault>
    ensures reads { IfOk result (SaysLying fields.now) }
    ensures bad { result ≡ Err LineFault.Bad → (there : places.OpenPlace) → ¬ SaysLying fields.now there }
{
    let (place, body) = cut_number(fields).ok_or(LineFault::Bad)?;
    let call = decode_call(alloc, body)?;
    let (queue, item) = put_in(call).ok_or(LineFault::Bad)?;
    Ok(OpenPlace {
        place: place as usize,
        side: Side::Gives(queue),
        item: Some(item),
        limit: None,
        waiter: None,
    })
}

// The item that a call hands over.
fn into_item(call: Call) -> Option<Item>
    ensures { result ≡ item_of call }
{
    match call {
        Call::Put { item, .. } | Call::Transfer { item, .. } | Call::Swap { item, .. } => Some(
            item,
        ),
        Call::Take { .. } | Call::Count { .. } | Call::Peek { .. } | Call::Drain { .. } => None,
    }
}

// The open place at which a request with this call waits; none where such a call never waits past its
// arrival.
fn waiting_at(place: Place, waiter: Waiter, call: Call) -> Option<OpenPlace>
    requires since { waiter.since ≤ max_moment }
    requires fits { FitsCall call }
    ensures some { IfSome result (λ there. (there.place ≡ place) × (there.waiter ≡ Some waiter)
        × StandsFor there waiter.since call) }
    ensures none { result ≡ None → (there : places.OpenPlace) → ¬ StandsFor there waiter.since call }
{
    let wait = call.wait()?;
    if !lasts(wait) {
        return None;
    }
    let limit = deadline_after(waiter.since, Some(wait));
    let side = call.side();
    Some(OpenPlace {
        place,
        side,
        item: into_item(call),
        limit,
        waiter: Some(waiter),
    })
}

// The open place at which a request waits, by the place, the moment of its arrival and its body.
pub(crate) fn read_waiting(alloc: Global, epoch: u64, fields: &[u8]) -> Result<OpenPlace, LineFault>
    ensures reads { IfOk result (SaysWaiting epoch fields.now) }
    ensures bad { result ≡ Err LineFault.Bad
        → (there : places.OpenPlace) → ¬ SaysWaiting epoch fields.now there }
{
    let (place, fields) = cut_number(fields).ok_or(LineFault::Bad)?;
    let (since, body) = cut_number(fields).ok_or(LineFault::Bad)?;
    let (key, call) = read_request(alloc, epoch, body)?;
    waiting_at(place as usize, Waiter { key, since }, call).ok_or(LineFault::Bad)
}

// The wait that began at a moment and ends at the limit.
fn wait_until(limit: Option<u64>, since: u64) -> Wait
    ensures { (call : asked.Call) → limit ≡ limit_of since call → Lasts (wait_of call) → IsSome (wait_of call)
        → wait_of call ≡ Some result }
{
    match limit {
        Some(limit) => Wait::Millis(limit.saturating_sub(since)),
        None => Wait::Forever,
    }
}

// The call with which a request waits at the place since a moment.
fn call_at(alloc: Global, there: &OpenPlace, since: u64) -> Result<Call, NoMemory>
    ensures { (call : asked.Call) → StandsFor there.now since call → IfOk result (λ made. made ≡ call) }
{
    let wait = wait_until(there.limit, since);
    match (there.side, &there.item) {
        (Side::Gives(queue), Some(item)) => Ok(Call::Transfer {
            queue,
            item: item.copy(alloc)?,
            wait,
        }),
        (Side::Exchanges(exchanger), Some(item)) => Ok(Call::Swap {
            exchanger,
            item: item.copy(alloc)?,
            wait,
        }),
        // without an item only a take waits
        (
            Side::Gives(queue) | Side::Takes(queue) | Side::Looks(queue) | Side::Exchanges(queue),
            _,
        ) => { Ok(Call::Take { queue, wait }) }
    }
}

// The line of an item that a put left.
fn lying_line(alloc: Global, place: Place, queue: u64, item: &Item) -> Result<String, NoMemory>
    ensures { IfOk result (λ s. string_bytes s ≡ lying_text place queue item.now) }
{
    let item = item.copy(alloc)?;
    let body = encode_call(alloc, &Call::Put { queue, item })?;
    format!(in alloc; "lies {place} {body}")
}

// The line of a request that waits with this call.
fn waiting_line(
    alloc: Global,
    place: Place,
    waiter: Waiter,
    call: &Call,
) -> Result<String, NoMemory>
    ensures { IfOk result (λ s. string_bytes s ≡ waiting_text place waiter call.now) }
{
    let body = encode_request(alloc, &waiter.key, call)?;
    let since = waiter.since;
    format!(in alloc; "waits {place} {since} {body}")
}

/// The line of an open place, with no LF: `lies`, the place and the put's text; or `waits`, the place, the
/// moment of the request's arrival and its body. Fails only if memory was refused.
pub(crate) fn open_line(alloc: Global, there: &OpenPlace) -> Result<String, NoMemory>
    requires { StandsThere there.now }
    ensures { IfOk result (λ s. IsOpenText there.now (string_bytes s)) }
{
    let Some(waiter) = there.waiter else {
        return match (there.side, &there.item) {
            (Side::Gives(queue), Some(item)) => lying_line(alloc, there.place, queue, item),
            _ => unreachable!(),
        };
    };
    let call = call_at(alloc, there, waiter.since)?;
    waiting_line(alloc, there.place, waiter, &call)
}
