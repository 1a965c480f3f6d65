//! The clock of a server's turns: at which moment each began, and how long it took.
ghost use Rattle.std.specs.Prelude.{◌≡◌, ◌-◌, ◌≤◌, IfOk, IfSome, max};

use rv_status::Histogram;
use std::io;
use std::time::{Clock, Duration};

/// When a server started, when its turn began, and how long its turns took.
#[derive(Drop)]
pub(crate) struct TurnClock {
    start: Duration,
    // The moment of the start.
    first: u64,
    // What the clock showed when the poll of this turn ended, if it could be read.
    woke: Option<Duration>,
    pub(crate) turns: Histogram,
    // How often the clock failed.
    pub(crate) faults: u64,
}

/// The moment at which a server starts that goes on from an account: the wall clock's milliseconds, or its
/// last moment if that is later.
pub(crate) fn first_moment(wall: u64, last: u64) -> u64
    ensures { result ≡ max wall last }
{
    wall.max(last)
}

impl TurnClock {
    /// A server starts now, at this moment of its account, and has had no turn yet.
    pub(crate) fn new(rt: &HostRuntime, first: u64) -> io::Result<TurnClock>
        ensures { IfOk result (λ clock. clock.first ≡ first) }
    {
        Ok(TurnClock {
            start: rt.monotonic()?,
            first,
            woke: None,
            turns: Histogram::of_turns(),
            faults: 0,
        })
    }

    /// The moment now, if the clock can be read: that of the start, and the milliseconds since.
    pub(crate) fn now(&mut self, rt: &HostRuntime) -> Option<u64>
        ensures later { IfSome result (λ now. self.old.first ≤ now) }
        ensures first { self.new.first ≡ self.old.first }
    {
        self.woke = rt.monotonic().ok();
        match self.woke {
            Some(since) => {
                let passed = since.saturating_sub(self.start).as_millis();
                let passed = u64::try_from(passed).unwrap_or(u64::MAX);
                Some(self.first.saturating_add(passed))
            }
            None => {
                self.faults = self.faults.saturating_add(1);
                None
            }
        }
    }

    /// How many milliseconds after the start a moment came: 0 for one before it.
    pub(crate) fn since_start(&self, moment: u64) -> u64
        ensures { result ≡ moment - self.now.first }
    {
        moment.saturating_sub(self.first)
    }

    /// The turn is over. Notes how long it took since its poll, if the clock could be read.
    pub(crate) fn end_turn(&mut self, rt: &HostRuntime) {
        if let (Some(woke), Ok(since)) = (self.woke, rt.monotonic()) {
            let micros = since.saturating_sub(woke).as_micros();
            self.turns
                .observe(u64::try_from(micros).unwrap_or(u64::MAX));
        }
    }
}
