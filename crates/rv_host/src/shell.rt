//! The shell of a server: it hands what the poll reports to the traffic of its sockets, turn by turn.
ghost use Rattle.std.specs.Prelude.{◌≡◌, IfOk, OnOk, false};
ghost use Rattle.rv_traffic.specs.CallRuns.{OnlyCalls, RunsOnDevice};

use crate::fault::HostEnd;
use crate::look_over::LookOver;
use crate::memory_watch::MemoryWatch;
use crate::reception::{Doors, Reception};
use crate::report::{FaultKind, HostReport};
use crate::tally::HostTally;
use crate::turn_clock::TurnClock;
use mio::net::TcpStream;
use rv_engine::{Engine, EngineFault};
use rv_status::{AnswerTally, CountedStream};
use rv_store::keeping::Keeper;
use rv_traffic::links::Links;
use rv_traffic::{Switchboard, TimeLimits, WaitingLists};
use rv_words::options::HostOptions;

// The longest that a poll waits, in milliseconds.
const LONGEST_WAIT: u64 = 60_000;

// The milliseconds after which lines that found no memory are tried again, and a read for which there was no
// room.
const MEMORY_AGAIN: u64 = 10;

/// The traffic of a server's sockets.
pub(crate) type HostTraffic = Switchboard<CountedStream<TcpStream>>;

/// A server: its account, over the traffic of its sockets, and what watches over them.
pub(crate) struct Shell<K> {
    pub(crate) account: Option<K>,
    pub(crate) traffic: HostTraffic,
    pub(crate) clock: TurnClock,
    pub(crate) reception: Reception,
    pub(crate) memory: MemoryWatch,
    pub(crate) look_over: LookOver,
    pub(crate) tally: HostTally,
}

// Whoever owns one drops it in one step.
impl<K: Drop> Drop for Shell<K> {
    fn drop(self) {
        let Shell {
            account: _,
            traffic: _,
            clock: _,
            reception: _,
            memory: _,
            look_over: _,
            tally: _,
        } = self;
    }
}

/// A shell without its engine, its account and its report.
#[derive(Drop)]
pub(crate) struct ShellParts {
    clock: TurnClock,
    reception: Reception,
    memory: MemoryWatch,
    look_over: LookOver,
    links: Links<CountedStream<TcpStream>>,
    waits: WaitingLists,
    answers: AnswerTally,
}

impl ShellParts {
    /// A poll that watches these doors, and room for `connections` sockets. It starts at this moment.
    pub(crate) fn new(
        rt: &HostRuntime,
        options: &HostOptions<'_>,
        doors: Doors,
        connections: usize,
        first: u64,
    ) -> Result<ShellParts, HostEnd>
        ensures first { IfOk result (λ parts. parts.clock.first ≡ first) }
    {
        let most_from = options.limits.connections_from as usize;
        let most = (most_from < connections).then_some(most_from);
        let limits = TimeLimits {
            stall: options.limits.stall.saturating_mul(1_000),
            idle: options.limits.idle.saturating_mul(1_000),
        };
        Ok(ShellParts {
            clock: TurnClock::new(rt, first)?,
            reception: Reception::new(rt, doors, connections, most)?,
            memory: MemoryWatch::of_megabytes(options.limits.memory),
            look_over: LookOver::new(rt.alloc(), connections, limits, first)?,
            links: Links::new(rt.alloc(), connections)?,
            waits: WaitingLists::new(rt.alloc(), connections)?,
            answers: AnswerTally::new(rt.alloc())?,
        })
    }
}

impl<K: Drop> Shell<K> {
    /// A shell that has had no turn yet.
    pub(crate) fn new(
        parts: ShellParts,
        account: Option<K>,
        engine: Engine,
        report: HostReport,
    ) -> Shell<K>
        ensures account { result.account ≡ account }
        ensures engine { result.traffic.engine ≡ engine }
        ensures clock { result.clock ≡ parts.clock }
    {
        Shell {
            account,
            traffic: Switchboard::new(engine, parts.links, parts.waits),
            clock: parts.clock,
            reception: parts.reception,
            memory: parts.memory,
            look_over: parts.look_over,
            tally: HostTally {
                answers: parts.answers,
                opened: 0,
                report,
            },
        }
    }

    // The moment. A clock that fails stands still.
    fn now(&mut self, rt: &HostRuntime) -> u64
        ensures traffic { self.new.traffic ≡ self.old.traffic }
        ensures account { self.new.account ≡ self.old.account }
    {
        match self.clock.now(rt) {
            Some(now) => now,
            None => self.traffic.engine().hub().now(),
        }
    }

    // For how many milliseconds the poll may wait.
    fn wait(&mut self, now: u64) -> u64
        ensures runs { OnlyCalls self.old.traffic self.new.traffic }
        ensures account { self.new.account ≡ self.old.account }
    {
        if !self.traffic.catch_up() {
            self.tally.report.note(FaultKind::Behind);
            return MEMORY_AGAIN;
        }
        self.time_to_wait(now)
    }

    // The same, if no line of the account is left.
    fn time_to_wait(&self, now: u64) -> u64 {
        let count = self.traffic.links().len();
        let doors = &self.reception.doors;
        let may_accept = count < self.traffic.links().room();
        if self.is_asked_at_once() || (may_accept && doors.door.is_asked(now)) {
            return 0;
        }
        let mut until = self
            .traffic
            .engine()
            .hub()
            .next_moment()
            .unwrap_or(u64::MAX);
        if !self.is_quiet() {
            until = until.min(now.saturating_add(MEMORY_AGAIN));
        }
        if count > 0 || self.account.is_some() || self.tally.report.has_untold() {
            until = until.min(self.look_over.next());
        }
        if may_accept {
            until = until.min(doors.door.again().unwrap_or(u64::MAX));
        }
        if let Some(desk) = &doors.status {
            until = until.min(desk.next_moment(now));
        }
        until.saturating_sub(now).min(LONGEST_WAIT)
    }

    // Whether no connection is to be looked at, and none waits for a share.
    fn is_quiet(&self) -> bool {
        self.traffic.engine().is_quiet() && self.traffic.has_none_waiting()
    }

    // Whether there is something to do at once: entries are to be written, or a connection waits for a share
    // or is to be looked at. If there is no room for what comes of that, it can wait.
    fn is_asked_at_once(&self) -> bool {
        let hub = self.traffic.engine().hub();
        if hub.written() < hub.machine().length() as u64 {
            return true;
        }
        let room = self.memory.room_to_answer(&self.traffic);
        if !self.traffic.has_none_waiting() && !self.traffic.is_over(room) {
            return true;
        }
        !self.traffic.engine().is_quiet() && !self.traffic.is_over(self.memory.most)
    }

    // Waits until there is something to do, and returns the moment.
    fn poll(&mut self, rt: &HostRuntime) -> Result<u64, HostEnd>
        ensures runs { OnlyCalls self.old.traffic self.new.traffic }
        ensures account { self.new.account ≡ self.old.account }
    {
        let before = self.now(rt);
        let wait = self.wait(before);
        self.reception.wait(wait)?;
        let now = self.now(rt);
        self.tally.answers.begin_turn(now);
        Ok(now)
    }

    // Takes all that came.
    fn take_all(&mut self, now: u64)
        ensures runs { OnlyCalls self.old.traffic self.new.traffic }
        ensures account { self.new.account ≡ self.old.account }
    {
        self.reception.heed(&mut self.traffic);
        elapse(&mut self.traffic, now);
        self.reception
            .accept(&mut self.traffic, &mut self.tally, now);
        let faults = self.traffic.read_round(self.memory.most, now);
        self.tally.note_read(&faults);
        let room = self.memory.room_to_answer(&self.traffic);
        self.traffic.share_out(room, now);
    }
}

// Time goes on, if no line of the account is left.
fn elapse<S: Drop>(traffic: &mut Switchboard<S>, now: u64)
    ensures { OnlyCalls traffic.old traffic.new }
{
    if !traffic.catch_up() {
        return;
    }
    traffic.pass(now);
}

// Looks whether the account's file is in its place, if one is kept.
fn look_at_account<K: Keeper>(rt: &HostRuntime, account: &Option<K>, report: &mut HostReport) {
    if let Some(account) = account {
        if !account.is_kept(rt) {
            report.note(FaultKind::AccountFile);
        }
    }
}

// Writes what was gathered of the account, and tells the hub.
fn write_lines<K: Keeper, S: Drop>(
    account: &mut K,
    traffic: &mut Switchboard<S>,
    now: u64,
) -> Result<(), HostEnd>
    ensures over { RunsOnDevice K.lasts traffic.old account.old traffic.new account.new }
    ensures works { OnOk result (K.lasts.failed account.new ≡ false) }
{
    match traffic.write_lines(now, account) {
        Ok(_) => Ok(()),
        Err(EngineFault::NoMemory) => Ok(()),
        Err(EngineFault::NotWritten(fault)) => Err(HostEnd::Account(fault)),
        Err(EngineFault::Refused(_)) => Ok(()),
    }
}

impl<K: Keeper + Drop> Shell<K> {
    ghost use Rattle.rv_host.specs.Turns.{TakesAllLines, TurnsOver};

    // Sends all that may leave, and looks after all connections.
    fn send_all(&mut self, rt: &HostRuntime, now: u64)
        ensures runs { OnlyCalls self.old.traffic self.new.traffic }
        ensures account { self.new.account ≡ self.old.account }
    {
        let broken = self.traffic.write_round(now);
        self.tally.report.note_all(FaultKind::Link, broken);
        self.look_over(rt, now);
        self.show_status(rt, now);
        self.clock.end_turn(rt);
    }

    // Once a second, closes connections that are idle or stall, looks at the account's file, and reports
    // faults. If all have held too much for as long as a peer may stall, closes those that hold most, until
    // the rest fits.
    fn look_over(&mut self, rt: &HostRuntime, now: u64)
        ensures runs { OnlyCalls self.old.traffic self.new.traffic }
        ensures account { self.new.account ≡ self.old.account }
    {
        let report = &mut self.tally.report;
        let stall = self.look_over.limits.stall;
        self.memory.watch(&mut self.traffic, report, now, stall);
        if now < self.look_over.next() {
            return;
        }
        let last_full = self.memory.last_full;
        self.look_over
            .look(&mut self.traffic, report, last_full, now);
        look_at_account(rt, &self.account, report);
        report.tell(rt, now);
    }

    /// Serves until it can't go on.
    pub(crate) fn serve(&mut self, rt: &HostRuntime) -> Result<(), HostEnd>
        ensures turns { TurnsOver K.lasts self.old self.new }
    {
        for _turn in 0..u64::MAX {
            match self.turn(rt) {
                Ok(()) => {}
                Err(end) => return Err(end),
            }
        }
        Ok(())
    }

    // One turn: all that came is taken, and then the answers go out.
    fn turn(&mut self, rt: &HostRuntime) -> Result<(), HostEnd>
        ensures turns { TurnsOver K.lasts self.old self.new }
        ensures works { OnOk result (TakesAllLines K.lasts self.new.account) }
    {
        match self.poll(rt) {
            Ok(now) => self.go_through(rt, now),
            Err(end) => Err(end),
        }
    }

    // The turn at a moment.
    fn go_through(&mut self, rt: &HostRuntime, now: u64) -> Result<(), HostEnd>
        ensures turns { TurnsOver K.lasts self.old self.new }
        ensures works { OnOk result (TakesAllLines K.lasts self.new.account) }
    {
        self.take_all(now);
        if !self.has_room() {
            return Err(HostEnd::TooLong);
        }
        match self.write_account(now) {
            Ok(()) => {
                self.send_all(rt, now);
                Ok(())
            }
            Err(end) => Err(end),
        }
    }

    // Whether the account's file may take what was gathered, if one is kept.
    fn has_room(&self) -> bool {
        match &self.account {
            Some(account) => account.takes(self.traffic.engine().lines().len() as u64),
            None => true,
        }
    }

    // Writes what was gathered of the account, if one is kept, and tells the hub.
    fn write_account(&mut self, now: u64) -> Result<(), HostEnd>
        ensures turns { TurnsOver K.lasts self.old self.new }
        ensures works { OnOk result (TakesAllLines K.lasts self.new.account) }
    {
        match &mut self.account {
            Some(account) => write_lines(account, &mut self.traffic, now),
            None => Ok(()),
        }
    }
}
