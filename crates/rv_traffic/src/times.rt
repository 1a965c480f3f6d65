//! When a connection's time is over.
ghost use Rattle.std.specs.Prelude.{◌≡◌, ◌↔◌, IsTrue, Some};
ghost use Rattle.rv_traffic.specs.Times.{IsMidFrame, IsSeenSince, IsSilent, IsStalled};
ghost use Rattle.rv_traffic.specs.declared.times.OverdueKind.TheVariants as kind;

use rv_server_connections::connection::Wire;

/// The milliseconds after which a connection's time is over.
#[derive(Clone, Copy)]
pub struct TimeLimits {
    /// Of a stall: its peer takes none of the bytes that may leave, or stays in the middle of one frame.
    pub stall: u64,
    /// Of silence, while nothing is owed to it.
    pub idle: u64,
}

/// Why a connection's time is over.
#[derive(Clone, Copy)]
pub enum OverdueKind {
    /// It stopped in the middle of a frame, or took no answer.
    Stall,
    /// It said nothing for too long.
    Idle,
}

// Whether all that was asked is answered, the answers are taken, and a frame has begun.
fn is_mid_frame(wire: &Wire) -> bool
    ensures { IsTrue result ↔ IsMidFrame wire.now }
{
    !wire.owes() && wire.held() == 0 && wire.unread_count() > 0
}

/// The look since which a connection has been seen in the middle of one frame, given what the look before
/// found and the moment at which bytes last left.
pub(crate) fn seen_since(wire: &Wire, before: Option<u64>, sent: u64, now: u64) -> Option<u64>
    ensures { IsSeenSince wire.now before sent now result }
{
    if !is_mid_frame(wire) {
        return None;
    }
    match before {
        Some(look) if sent < look => Some(look),
        _ => Some(now),
    }
}

/// Why a connection is to be closed at the moment `now`, if it is: given the moments at which its bytes last
/// came (`heard`), and at which bytes last left or none were there to leave (`moved`), and the look since
/// which it has been seen in the middle of one frame. All are in milliseconds by one clock.
///
/// None to which an answer is owed is to be closed, unless it takes none of the bytes that may leave. If it
/// couldn't be read for a while, an answer left when it could be again, so it has all its time from then on.
pub fn overdue(
    wire: &Wire,
    heard: u64,
    moved: u64,
    since: Option<u64>,
    now: u64,
    limits: TimeLimits,
) -> Option<OverdueKind>
    ensures stall { (result ≡ Some kind.Stall) ↔ IsStalled wire.now heard moved since now limits.stall }
    ensures idle { (result ≡ Some kind.Idle) ↔ IsSilent wire.now heard moved since now limits }
{
    if !wire.ready().is_empty() {
        return (now.saturating_sub(moved) >= limits.stall).then_some(OverdueKind::Stall);
    }
    if wire.owes() || wire.held() > 0 {
        return None;
    }
    let still = now.saturating_sub(heard.max(moved));
    let seen = match since {
        Some(look) => now.saturating_sub(look),
        None => 0,
    };
    if wire.unread_count() > 0 && still.max(seen) >= limits.stall {
        return Some(OverdueKind::Stall);
    }
    (still >= limits.idle).then_some(OverdueKind::Idle)
}
