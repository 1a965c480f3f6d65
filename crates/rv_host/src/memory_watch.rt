//! How much is held of all connections, and which of them is closed where that is too much for too long.
ghost use Rattle.rv_traffic.specs.CallRuns.{OnlyCalls};

use crate::report::{FaultKind, HostReport};
use rv_server_connections::subscribers::ConnectionNumber;
use rv_traffic::{SHARE, Switchboard};

/// The bytes that may be held of all connections, and when more were.
#[derive(Clone, Copy)]
pub(crate) struct MemoryWatch {
    pub(crate) most: u128,
    // Since when more is held, if more is.
    full_since: Option<u64>,
    // When more was held last.
    pub(crate) last_full: u64,
}

/// How many bytes are held of all connections.
pub(crate) fn total<S: Drop>(traffic: &Switchboard<S>) -> u128 {
    let pending = traffic.links().pending_count();
    let hub = traffic.engine().hub();
    hub.held()
        .saturating_add(hub.unread_count())
        .saturating_add(pending)
}

// How many bytes are held of a connection.
fn holds<S: Drop>(traffic: &Switchboard<S>, number: ConnectionNumber) -> usize {
    let pending = traffic.links().pending(number).len();
    match traffic.engine().hub().wire(number) {
        Some(wire) => pending
            .saturating_add(wire.held())
            .saturating_add(wire.unread_count()),
        None => pending,
    }
}

// The connection that holds most, if one holds anything.
fn largest<S: Drop>(traffic: &Switchboard<S>) -> Option<ConnectionNumber> {
    let mut largest = None;
    let mut most = 0;
    for number in 0..traffic.links().room() {
        let holds = holds(traffic, number);
        if holds > most {
            most = holds;
            largest = Some(number);
        }
    }
    largest
}

// Closes the connection that holds most, if all hold more than they may, and returns whether one was closed.
// While lines of the account are left, the hub can't be told, and nothing more comes.
#[tactic(auto, using(crate::proofs::Turning::none_called))]
fn close_largest<S: Drop>(
    traffic: &mut Switchboard<S>,
    most: u128,
    report: &mut HostReport,
    now: u64,
) -> bool
    ensures { OnlyCalls traffic.old traffic.new }
{
    if !traffic.is_over(most) {
        return false;
    }
    if !traffic.catch_up() {
        return false;
    }
    let Some(number) = largest(traffic) else {
        return false;
    };
    report.note(FaultKind::MostHeld);
    traffic.give_up(now, number);
    true
}

// Closes those that hold most, until all hold at most what they may.
fn make_room<S: Drop>(traffic: &mut Switchboard<S>, most: u128, report: &mut HostReport, now: u64)
    ensures { OnlyCalls traffic.old traffic.new }
{
    for _place in 0..traffic.links().room() {
        if !close_largest(traffic, most, report, now) {
            break;
        }
    }
}

impl MemoryWatch {
    /// So many megabytes may be held, and nothing is.
    pub(crate) fn of_megabytes(megabytes: u64) -> MemoryWatch {
        MemoryWatch {
            most: megabytes as u128 * 1_048_576,
            full_since: None,
            last_full: 0,
        }
    }

    /// Room for answers to what is pending, when there is no room for more to be pending.
    pub(crate) fn room_to_answer<S: Drop>(&self, traffic: &Switchboard<S>) -> u128 {
        let pending = traffic.links().room().saturating_mul(SHARE) as u128;
        self.most.saturating_add(pending)
    }

    // Takes in whether too much is held at a moment, and returns for how long it has been.
    fn look(&mut self, is_over: bool, now: u64) -> u64 {
        if !is_over {
            self.full_since = None;
            return 0;
        }
        let since = self.full_since.unwrap_or(now);
        self.full_since = Some(since);
        self.last_full = now;
        now.saturating_sub(since)
    }

    /// Closes those that hold most, if all have held too much for as long as a peer may stall.
    #[tactic(auto, using(crate::proofs::Turning::none_called))]
    pub(crate) fn watch<S: Drop>(
        &mut self,
        traffic: &mut Switchboard<S>,
        report: &mut HostReport,
        now: u64,
        stall: u64,
    )
        ensures { OnlyCalls traffic.old traffic.new }
    {
        if self.look(traffic.is_over(self.most), now) < stall {
            return;
        }
        make_room(traffic, self.most, report, now);
        self.full_since = None;
    }
}
