//! What stands at an open place of a state.
ghost use Rattle.std.specs.Prelude.{◌≡◌, ◌↔◌, ◌≤◌, IsTrue, None, Some, option_and_then};
ghost use Rattle.rv_account.specs.Calls.{limit_after};
ghost use Rattle.rv_text.specs.Calls.{item_of};
ghost use Rattle.rv_account.specs.state.Standing.{IsLastOf, LiesOpen, StandsFor};

use crate::lasts;
use rv_session::{ClientState, LastRequest, OpenPlace, Waiter};
use rv_text::{Call, MAX_QUEUE, Side, Wait};

// Whether this is the limit of such a wait since a moment, whatever its size.
fn is_limit(limit: Option<u64>, since: u64, wait: Wait) -> bool
    ensures { IsTrue result ↔ (limit ≡ limit_after since wait) }
{
    match (wait, limit) {
        (Wait::Millis(millis), Some(limit)) => limit >= since && limit - since == millis,
        (Wait::Millis(_), None) => false,
        (_, limit) => limit.is_none(),
    }
}

// Whether a place's item is that of a call.
fn has_item(there: &OpenPlace, call: &Call) -> bool
    ensures { IsTrue result ↔ (there.now.item ≡ item_of call.now) }
{
    match (&there.item, call.item()) {
        (Some(item), Some(its)) => item == its,
        (None, None) => true,
        _ => false,
    }
}

// Whether a request that waits since a moment with this call stands at the place.
fn stands_by(there: &OpenPlace, since: u64, call: &Call) -> bool
    ensures { IsTrue result ↔ StandsFor there.now since call.now }
{
    match call.wait() {
        None => false,
        Some(wait) => {
            there.side == call.side()
                && has_item(there, call)
                && is_limit(there.limit, since, wait)
                && lasts(wait)
        }
    }
}

/// Whether the request that waits at the place is the last of this session of its client.
pub fn is_last_of(epoch: u64, there: &OpenPlace, waiter: Waiter, session: &ClientState) -> bool
    ensures { IsTrue result ↔ IsLastOf epoch there.now waiter session.now }
{
    match &session.request {
        LastRequest::Waits { place, call } => {
            waiter.key.epoch == epoch
                && waiter.key.incarnation == session.incarnation
                && waiter.key.number == session.last
                && *place == there.place
                && stands_by(there, waiter.since, call)
        }
        _ => false,
    }
}

/// Whether the place has an item that was given to a queue, with no limit. Where nobody waits, that is a
/// put's.
pub fn lies_open(there: &OpenPlace) -> bool
    ensures { IsTrue result ↔ LiesOpen there.now }
{
    match (there.side, &there.item) {
        (Side::Gives(queue), Some(item)) => {
            queue <= MAX_QUEUE && item.fits() && there.limit.is_none()
        }
        _ => false,
    }
}
