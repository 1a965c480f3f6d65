//! Which sides of queues and exchangers are open in a state to resume from.
ghost use Rattle.std.specs.Prelude.{◌≡◌, ◌↔◌, ◌≤◌, ℕ, IsTrue, filter, is_some, length};
ghost use Rattle.rv_account.specs.state.State.{same_side};
ghost use Rattle.rv_account.specs.state.resume.Checking.{HasSide, IsCalmExchanger, IsCalmQueue};

use rv_session::OpenPlace;
use rv_text::{MAX_EXCHANGER, MAX_QUEUE, Side};

// Whether some open place is of the side.
fn has_side(opens: &[OpenPlace], side: Side) -> bool
    ensures { IsTrue result ↔ HasSide opens.now side }
{
    opens.iter().any(|there| there.side == side)
}

// How many open places are of the side.
fn count_side(opens: &[OpenPlace], side: Side) -> usize
    ensures { result ≡ length (filter (λ o. same_side o.side side) opens.now) }
{
    opens.iter().filter(|there| there.side == side).count()
}

// How many open places have a waiter.
pub(crate) fn count_wait_queues(opens: &[OpenPlace]) -> usize
    ensures { result ≡ length (filter (λ o. is_some o.waiter) opens.now) }
{
    opens.iter().filter(|there| there.waiter.is_some()).count()
}

// Whether the queue has open places of one side at most.
fn queue_is_calm(opens: &[OpenPlace], queue: u64) -> bool
    ensures { IsTrue result ↔ IsCalmQueue opens.now queue }
{
    !has_side(opens, Side::Gives(queue)) || !has_side(opens, Side::Takes(queue))
}

// Whether an exchanger has at most one open place.
fn exchanger_is_calm(opens: &[OpenPlace], exchanger: u64) -> bool
    ensures { IsTrue result ↔ IsCalmExchanger opens.now exchanger }
{
    count_side(opens, Side::Exchanges(exchanger)) <= 1
}

// Whether no queue has open places of both sides.
pub(crate) fn queues_are_calm(opens: &[OpenPlace]) -> bool
    ensures { IsTrue result ↔ ((queue : ℕ) → queue ≤ 63 → IsCalmQueue opens.now queue) }
{
    for queue in 0..MAX_QUEUE + 1 {
        if !queue_is_calm(opens, queue) {
            return false;
        }
    }
    true
}

// Whether no exchanger has two open places.
pub(crate) fn exchangers_are_calm(opens: &[OpenPlace]) -> bool
    ensures { IsTrue result ↔ ((exchanger : ℕ) → exchanger ≤ 63 → IsCalmExchanger opens.now exchanger) }
{
    for exchanger in 0..MAX_EXCHANGER + 1 {
        if !exchanger_is_calm(opens, exchanger) {
            return false;
        }
    }
    true
}
