//! Which replies a call may get.
ghost use Rattle.std.specs.Prelude.{◌≡◌, ◌↔◌, ◌≤◌, ℕ, List, IsTrue, length};
ghost use Rattle.rv_text.specs.declared.answer.Reply.{Reply};
ghost use Rattle.rv_text.specs.declared.answer.Reply.TheVariants.{Cancelled, Drained, TimedOut};
ghost use Rattle.rv_account.specs.state.resume.Suiting.{EndsUnmet, SuitsCall, TellsReceipt};

use rv_text::{Call, Reply, Version, Wait};

// Whether a transfer that was met may have this reply in a session of the version.
fn is_receipt(version: Version, reply: &Reply) -> bool
    ensures { IsTrue result ↔ TellsReceipt version reply.now }
{
    match (version, reply) {
        (Version::One, Reply::Received) => true,
        (Version::Two, Reply::ReceivedBy(_)) => true,
        _ => false,
    }
}

// Whether the reply is that the request's time is over.
fn is_timed_out(reply: &Reply) -> bool
    ensures { IsTrue result ↔ (reply.now ≡ TimedOut) }
{
    matches!(reply, Reply::TimedOut)
}

// Whether the reply is that the request was cancelled.
fn is_cancelled(reply: &Reply) -> bool
    ensures { IsTrue result ↔ (reply.now ≡ Cancelled) }
{
    matches!(reply, Reply::Cancelled)
}

// Whether a request that met nobody may have this reply, by its wait and by whether it is its reply at once.
fn ends_unmet(wait: Wait, at_once: bool, reply: &Reply) -> bool
    ensures { (its : Reply) → (IsTrue at_once ↔ (reply.now ≡ its))
        → IsTrue result ↔ EndsUnmet wait its reply.now }
{
    match wait {
        Wait::Now => at_once,
        Wait::Millis(0) => is_timed_out(reply),
        Wait::Millis(_) => is_timed_out(reply) || is_cancelled(reply),
        Wait::Forever => is_cancelled(reply),
    }
}

/// Whether a request with this call may have this reply in a session of this version.
pub fn suits_call(version: Version, call: &Call, reply: &Reply) -> bool
    ensures { IsTrue result ↔ SuitsCall version call.now reply.now }
{
    match call {
        Call::Put { .. } => matches!(reply, Reply::Done),
        Call::Transfer { wait, .. } => {
            is_receipt(version, reply) || ends_unmet(*wait, matches!(reply, Reply::Nobody), reply)
        }
        Call::Take { wait, .. } => {
            matches!(reply, Reply::Item(_))
                || ends_unmet(*wait, matches!(reply, Reply::Empty), reply)
        }
        Call::Swap { wait, .. } => {
            matches!(reply, Reply::Swapped(_)) || ends_unmet(*wait, is_timed_out(reply), reply)
        }
        Call::Count { .. } => matches!(reply, Reply::Counted { .. }),
        Call::Peek { .. } => matches!(reply, Reply::Peeked(_) | Reply::Empty),
        Call::Drain { max, .. } => is_drained(*max, reply),
    }
}

// Whether the reply is that so many items at most were drained.
fn is_drained(max: u64, reply: &Reply) -> bool
    ensures { IsTrue result ↔ ((items : List (List ℕ)) × (reply.now ≡ Drained items) × (length items ≤ max)) }
{
    match reply {
        Reply::Drained(items) => items.as_slice().len() as u64 <= max,
        _ => false,
    }
}
