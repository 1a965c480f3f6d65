//! The status address: its listener, who asks there, and what answers them.
ghost use Rattle.std.specs.Prelude.{◌≡◌};

use crate::door::{Accepted, Door};
use crate::fault::HostEnd;
use crate::memory_watch::total;
use crate::report::{FaultKind, HostReport};
use crate::reserve::Reserve;
use crate::shell::Shell;
use crate::turn_clock::TurnClock;
use mio::net::{TcpListener, TcpStream};
use rv_hub::Hub;
use rv_status::{
    FaultCounts, HostStatus, StatusNumbers, StatusPages, StatusSample, StatusTimes, WaitingRow,
    take_sample,
};
use rv_store::keeping::Keeper;
use rv_survey::{Sights, list_queues, renew, unheard_row, waiting_row};
use rv_words::options::{HostOptions, VERSION};
use std::alloc::{AllocError, Global};
use std::hash::RandomState;

// The milliseconds between two readings of the numbers, how many clients are looked at in that time, and how
// many of them in one turn.
const SECOND: u64 = 1_000;

const CLIENTS_A_SECOND: usize = 2_560;

const CLIENTS_A_TURN: usize = 256;

// The milliseconds between two rounds. In each, at most so many connections are accepted, and each is visited
// at once, until one is answered; and then at most so many in the line are visited, until one is answered.
const PAUSE: u64 = 20;

const ACCEPTS: usize = 256;

const VISITS: usize = 8;

/// What the status address shows, and its connections.
pub(crate) struct StatusDesk {
    alloc: Global,
    pub(crate) door: Door,
    reserve: Reserve,
    visitors: rv_status::Visitors<TcpStream>,
    status: HostStatus,
    // Since when clients were found with no connection.
    sights: Sights,
    // The names under which it is asked.
    names: Vec<String>,
    // The last client that was looked at, and how many more are to be.
    after: Option<u64>,
    left: usize,
    // When numbers are to be read next, and when a connection is to be visited.
    next_second: u64,
    next_visit: u64,
}

// Whoever owns one drops it in one step.
impl Drop for StatusDesk {
    fn drop(self) {
        let StatusDesk {
            alloc: _,
            door: _,
            reserve: _,
            visitors: _,
            status: _,
            sights: _,
            names: _,
            after: _,
            left: _,
            next_second: _,
            next_visit: _,
        } = self;
    }
}

// The names that an option has, with commas between them.
fn names_of(alloc: Global, option: Option<&str>) -> Result<Vec<String>, AllocError> {
    let mut names = Vec::new(alloc);
    let Some(text) = option else {
        return Ok(names);
    };
    for name in text.split(',') {
        names.push(String::from_str(alloc, name)?)?;
    }
    Ok(names)
}

// A request's row, with the milliseconds of its moment since the start.
fn since_start(clock: &TurnClock, row: Option<WaitingRow>) -> Option<WaitingRow> {
    row.map(|row| WaitingRow {
        since: clock.since_start(row.since),
        ..row
    })
}

impl StatusDesk {
    pub(crate) fn new(
        rt: &HostRuntime,
        listener: TcpListener,
        options: &HostOptions<'_>,
        report: &HostReport,
    ) -> Result<StatusDesk, HostEnd> {
        let alloc = rt.alloc();
        let keys = RandomState::new(rt)?;
        let visitors = rv_status::Visitors::new(alloc, keys)?;
        let faults = fault_counts(report, 0);
        let numbers = StatusNumbers::new(
            options.limits.clients,
            options.limits.open_places,
            faults,
        );
        let status = HostStatus::with_room(alloc, VERSION, numbers)?;
        let names = names_of(alloc, options.status_names)?;
        Ok(StatusDesk {
            alloc,
            door: Door::new(listener),
            reserve: Reserve::new(rt),
            visitors,
            status,
            sights: Sights::new(alloc),
            names,
            after: None,
            left: 0,
            next_second: 0,
            next_visit: 0,
        })
    }

    /// The moment at which there is something to do again.
    pub(crate) fn next_moment(&self, now: u64) -> u64 {
        if self.left > 0 {
            return now;
        }
        if !self.visitors.is_empty() || self.door.is_asked(now) {
            return self.next_visit.min(self.next_second);
        }
        self.next_second.min(self.door.again().unwrap_or(u64::MAX))
    }

    // Takes in what is known at a moment.
    fn learn(
        &mut self,
        now: u64,
        numbers: StatusNumbers,
        times: StatusTimes,
        hub: &Hub,
    ) -> Result<(), AllocError> {
        self.next_second = now.saturating_add(SECOND);
        self.left = CLIENTS_A_SECOND;
        self.status.times = times;
        self.status.numbers = StatusNumbers {
            clients_limit: self.status.numbers.clients_limit,
            open_places_limit: self.status.numbers.open_places_limit,
            status_connections: self.visitors.len() as u64,
            ..numbers
        };
        let sample = StatusSample {
            second: numbers.uptime,
            entries: numbers.entries,
            places: numbers.open_places,
            account: numbers.account_bytes,
        };
        take_sample(&mut self.status.history, sample)?;
        list_queues(hub.machine(), &mut self.status.queues)
    }

    // Looks at the next clients, and goes on from the first after the last.
    fn look_at_clients(
        &mut self,
        clock: &TurnClock,
        now: u64,
        hub: &Hub,
    ) -> Result<(), AllocError> {
        for _ in 0..CLIENTS_A_TURN.min(self.left) {
            self.left = self.left.saturating_sub(1);
            let Some((client, _)) = hub.machine().next_client(self.after) else {
                self.after = None;
                self.left = 0;
                break;
            };
            self.after = Some(client);
            let waiting = since_start(clock, waiting_row(hub.machine(), client));
            renew(&mut self.status.waiting, client, waiting)?;
            let unheard = since_start(clock, unheard_row(hub, client));
            let look = self.sights.look(client, unheard, clock.since_start(now));
            renew(&mut self.status.unheard, client, look.row)?;
            look.noted?;
        }
        Ok(())
    }

    // Accepts those who come and visits those who ask, if it is time to.
    fn serve(&mut self, rt: &HostRuntime, now: u64) {
        if now < self.next_visit || (self.visitors.is_empty() && !self.door.is_asked(now)) {
            return;
        }
        self.next_visit = now.saturating_add(PAUSE);
        self.welcome(rt, now);
        self.go_round(rt, now);
    }

    // Accepts those who come, and visits each at once, until one is answered.
    fn welcome(&mut self, rt: &HostRuntime, now: u64) {
        for _ in 0..ACCEPTS {
            if !self.door.is_asked(now) {
                break;
            }
            if self.accept(rt, now) && self.visit(rt, now) {
                break;
            }
        }
    }

    // Visits those who stand in line, until one is answered.
    fn go_round(&mut self, rt: &HostRuntime, now: u64) {
        for _ in 0..VISITS {
            if self.visitors.is_empty() || self.visit(rt, now) {
                break;
            }
        }
    }

    // Visits the first in line, and returns whether there was something to send. A descriptor that is free
    // then is held back.
    fn visit(&mut self, rt: &HostRuntime, now: u64) -> bool {
        let mut pages = StatusPages {
            alloc: self.alloc,
            status: &self.status,
            names: &self.names,
        };
        let is_answered = self.visitors.visit(now, &mut pages);
        self.reserve.hold(rt);
        is_answered
    }

    // Accepts one more, and returns whether one came. A descriptor that nobody took is held back again.
    fn accept(&mut self, rt: &HostRuntime, now: u64) -> bool {
        if let Accepted::Stream(stream, _) = self.ask_door(now) {
            self.visitors.admit(now, stream);
            return true;
        }
        self.reserve.hold(rt);
        false
    }

    // Asks for one connection. If no other descriptor is left, it uses the one that is held back.
    fn ask_door(&mut self, now: u64) -> Accepted {
        let accepted = self.door.accept(now);
        if matches!(accepted, Accepted::NoDescriptor) && self.reserve.let_go() {
            return self.door.accept(now);
        }
        accepted
    }
}

impl<K: Keeper + Drop> Shell<K> {
    /// The turn of the status address, after all others. Its lists have room, so no memory is refused to
    /// them.
    pub(crate) fn show_status(&mut self, rt: &HostRuntime, now: u64)
        ensures traffic { self.new.traffic ≡ self.old.traffic }
        ensures account { self.new.account ≡ self.old.account }
    {
        self.tally.note_refusals();
        self.learn(now);
        let Some(desk) = &mut self.reception.doors.status else {
            return;
        };
        let _ = desk.look_at_clients(&self.clock, now, self.traffic.engine().hub());
        desk.serve(rt, now);
    }

    // Once a second takes in what is known.
    fn learn(&mut self, now: u64)
        ensures traffic { self.new.traffic ≡ self.old.traffic }
        ensures account { self.new.account ≡ self.old.account }
    {
        let numbers = match &self.reception.doors.status {
            Some(desk) if desk.next_second <= now => self.numbers(now),
            _ => return,
        };
        if let Some(desk) = &mut self.reception.doors.status {
            let times = StatusTimes {
                turns: self.clock.turns,
                answers: self.tally.answers.times(),
            };
            let _ = desk.learn(now, numbers, times, self.traffic.engine().hub());
        }
    }

    // What is known of the server at a moment, each in constant time.
    fn numbers(&self, now: u64) -> StatusNumbers {
        let hub = self.traffic.engine().hub();
        let machine = hub.machine();
        StatusNumbers {
            account_bytes: self.account.as_ref().map_or(0, |account| account.bytes()),
            answers: self.tally.answers.counts(),
            buffer_bytes: u64::try_from(total(&self.traffic)).unwrap_or(u64::MAX),
            buffer_limit: u64::try_from(self.memory.most).unwrap_or(u64::MAX),
            calls: self.traffic.engine().calls(),
            clients: machine.clients() as u64,
            clients_limit: 0,
            connections: self.traffic.links().len() as u64,
            connections_limit: self.traffic.links().room() as u64,
            connections_opened: self.tally.opened,
            entries: machine.length() as u64,
            epoch: machine.epoch(),
            faults: fault_counts(&self.tally.report, self.clock.faults),
            open_places: machine.open_places() as u64,
            open_places_limit: 0,
            requests_unheard: hub.unheard() as u64,
            requests_waiting: machine.waiting() as u64,
            status_connections: 0,
            uptime: self.clock.since_start(now) / SECOND,
        }
    }
}

// How often each kind of fault came.
fn fault_counts(report: &HostReport, clock: u64) -> FaultCounts {
    FaultCounts {
        accept: report.count(FaultKind::NotAccepted),
        account: report.count(FaultKind::AccountFile),
        address: report.count(FaultKind::TooManyFrom),
        clock,
        descriptor: report.count(FaultKind::NoDescriptor),
        idle: report.count(FaultKind::Idle),
        line: report.count(FaultKind::Dropped),
        link: report.count(FaultKind::Link),
        memory: report.count(FaultKind::NotOpened),
        most_held: report.count(FaultKind::MostHeld),
        stall: report.count(FaultKind::Stall),
        unwritten: report.count(FaultKind::Behind),
    }
}
