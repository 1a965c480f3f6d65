//! The look over all connections, which closes those that are idle or stall.
ghost use Rattle.std.specs.Prelude.{◌≡◌};
ghost use Rattle.rv_survey.specs.declared.log.kind.FaultKind.TheVariants as fault;
ghost use Rattle.rv_traffic.specs.CallRuns.{OnlyCalls};
ghost use Rattle.rv_traffic.specs.declared.times.OverdueKind.TheVariants as over;

use crate::report::{FaultKind, HostReport};
use rv_server_connections::subscribers::ConnectionNumber;
use rv_traffic::{FrameLooks, OverdueKind, Switchboard, TimeLimits, overdue};
use std::alloc::{AllocError, Global};

// How many milliseconds pass between two looks.
const PAUSE: u64 = 1_000;

/// When all were looked over, who was in the middle of a frame then, and how long a connection may stall or
/// be idle.
#[derive(Drop)]
pub(crate) struct LookOver {
    last: u64,
    frames: FrameLooks,
    pub(crate) limits: TimeLimits,
}

// The last moment at which bytes that came over a connection may not have been read: there was no room for
// them, or they wait for their share.
fn unread_at<S: Drop>(
    traffic: &Switchboard<S>,
    number: ConnectionNumber,
    last_full: u64,
    now: u64,
) -> u64 {
    if traffic.links().pending(number).is_empty() {
        return last_full;
    }
    now
}

// The fault as which it is reported that a connection's time is over.
fn fault_of(kind: OverdueKind) -> FaultKind
    ensures stall { kind ≡ over.Stall → result ≡ fault.Stall }
    ensures idle { kind ≡ over.Idle → result ≡ fault.Idle }
{
    match kind {
        OverdueKind::Stall => FaultKind::Stall,
        OverdueKind::Idle => FaultKind::Idle,
    }
}

impl LookOver {
    /// None was looked at yet at the start, which is at this moment. There is room for so many connections.
    pub(crate) fn new(
        alloc: Global,
        connections: usize,
        limits: TimeLimits,
        first: u64,
    ) -> Result<LookOver, AllocError> {
        Ok(LookOver {
            last: first,
            frames: FrameLooks::new(alloc, connections)?,
            limits,
        })
    }

    /// The moment of the next look.
    pub(crate) fn next(&self) -> u64 {
        self.last.saturating_add(PAUSE)
    }

    /// Closes all connections whose time is over at a moment, given the last at which there was no room for
    /// what comes.
    pub(crate) fn look<S: Drop>(
        &mut self,
        traffic: &mut Switchboard<S>,
        report: &mut HostReport,
        last_full: u64,
        now: u64,
    )
        ensures { OnlyCalls traffic.old traffic.new }
    {
        self.last = now;
        for number in 0..traffic.links().room() {
            self.look_over_one(traffic, report, number, last_full, now);
        }
    }

    // Closes a connection whose time is over. While lines of the account are left, none is read or written
    // to, so no time is over, and a frame's time starts anew.
    fn look_over_one<S: Drop>(
        &mut self,
        traffic: &mut Switchboard<S>,
        report: &mut HostReport,
        number: ConnectionNumber,
        last_full: u64,
        now: u64,
    )
        ensures { OnlyCalls traffic.old traffic.new }
    {
        if !traffic.catch_up() {
            self.frames.forget(number);
            return;
        }
        let Some(kind) = self.overdue(traffic, number, last_full, now) else {
            return;
        };
        report.note(fault_of(kind));
        traffic.give_up(now, number);
    }

    // Why a connection's time is over, if it is.
    fn overdue<S: Drop>(
        &mut self,
        traffic: &Switchboard<S>,
        number: ConnectionNumber,
        last_full: u64,
        now: u64,
    ) -> Option<OverdueKind> {
        let heard = traffic.links().heard(number)?;
        let moved = traffic.links().moved(number)?;
        let sent = traffic.links().sent(number)?;
        let unread = unread_at(traffic, number, last_full, now);
        let wire = traffic.engine().hub().wire(number)?;
        let since = self.frames.look(number, wire, sent, now);
        let seen = since.map(|look| look.max(unread));
        overdue(wire, heard.max(unread), moved, seen, now, self.limits)
    }
}
