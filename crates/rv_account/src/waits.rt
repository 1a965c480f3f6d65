//! Waits: whether they go on past the moment of arrival, their deadlines, and the room that they take.
ghost use Rattle.std.specs.Prelude.{◌≡◌, ◌↔◌, ◌≤◌, IfSome, IsTrue, Some};
ghost use Rattle.rv_text.specs.Limits.{FitsWait};
ghost use Rattle.rv_account.specs.Calls.{Lasts, deadline_after, limit_after, need_of};
ghost use Rattle.rv_account.specs.Limits.{max_moment};

use rv_text::{Call, Wait};

/// Whether a wait goes on past the moment of arrival.
pub fn lasts(wait: Wait) -> bool
    ensures { IsTrue result ↔ Lasts (Some wait) }
{
    match wait {
        Wait::Now => false,
        Wait::Millis(millis) => millis > 0,
        Wait::Forever => true,
    }
}

// The moment at which a wait that begins at a moment has elapsed, if it ends by itself.
pub(crate) fn limit_after(moment: u64, wait: Wait) -> Option<u64>
    requires moment { moment ≤ max_moment }
    requires wait { FitsWait wait }
    ensures { result ≡ limit_after moment wait }
{
    match wait {
        Wait::Now => None,
        Wait::Millis(millis) => Some(moment + millis),
        Wait::Forever => None,
    }
}

/// The deadline, in milliseconds, of a wait that begins at a moment of at most 2^62. It is the wait's limit,
/// if that isn't the moment itself. A wait with no limit has none.
pub fn deadline_after(moment: u64, wait: Option<Wait>) -> Option<u64>
    requires moment { moment ≤ max_moment }
    requires wait { IfSome wait FitsWait }
    ensures { result ≡ deadline_after moment wait }
{
    match wait? {
        Wait::Now => None,
        Wait::Millis(millis) => (millis > 0).then_some(moment + millis),
        Wait::Forever => None,
    }
}

/// How many entries a call may need: its own, and one that ends its wait.
pub fn need_of(call: &Call) -> usize
    ensures exact { result ≡ need_of call.now }
    ensures small { result ≤ 2 }
{
    1 + usize::from(call.wait().is_some_and(|wait| lasts(wait)))
}
