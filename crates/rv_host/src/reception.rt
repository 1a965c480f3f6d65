//! Where clients come in: the poll that reports what they do, the listeners, and who may come.
ghost use Rattle.rv_traffic.specs.CallRuns.{OnlyCalls};

use crate::door::{Accepted, Door};
use crate::fault::HostEnd;
use crate::report::FaultKind;
use crate::shell::HostTraffic;
use crate::status::StatusDesk;
use crate::tally::HostTally;
use libc::net::{IPPROTO_TCP, SO_KEEPALIVE, SOL_SOCKET, TCP_USER_TIMEOUT, setsockopt};
use mio::event::Event;
use mio::net::TcpStream;
use mio::{Events, Interest, Poll, Token};
use rv_server_connections::subscribers::ConnectionNumber;
use rv_traffic::Origins;
use std::io;
use std::os::fd::AsRawFd;
use std::time::Duration;

const LISTENER: Token = Token(usize::MAX);

const STATUS_LISTENER: Token = Token(usize::MAX - 1);

// The most events of one poll, and the most accepts of one turn.
const EVENTS: usize = 1_024;

const ACCEPTS: usize = 64;

/// The listeners of a server: for connections, and for its status.
#[derive(Drop)]
pub(crate) struct Doors {
    pub(crate) door: Door,
    pub(crate) status: Option<StatusDesk>,
}

/// The poll and what it reported, the listeners that it watches, and where each connection came from.
#[derive(Drop)]
pub(crate) struct Reception {
    poll: Poll,
    events: Events,
    pub(crate) doors: Doors,
    origins: Origins,
}

impl Doors {
    // The poll reports both from now on.
    fn register(&mut self, poll: &Poll) -> io::Result<()> {
        self.door.register(poll, LISTENER)?;
        match &mut self.status {
            Some(desk) => desk.door.register(poll, STATUS_LISTENER),
            None => Ok(()),
        }
    }
}

// A poll that watches the doors.
fn watching(rt: &HostRuntime, doors: &mut Doors) -> io::Result<Poll> {
    let poll = Poll::new(rt)?;
    doors.register(&poll)?;
    Ok(poll)
}

// The system asks a silent peer whether it is there, and gives up a peer that takes nothing for a minute. If
// the system refuses to, the connection goes on without that.
fn keep_alive(stream: &TcpStream) {
    let number = stream.as_raw_fd();
    let mut value = [0u8; 16];
    value[0] = 1;
    let _ = unsafe { setsockopt(number, SOL_SOCKET, SO_KEEPALIVE, &value, 4) };
    let [first, second, ..] = 60_000u32.to_le_bytes();
    value[0] = first;
    value[1] = second;
    let _ = unsafe { setsockopt(number, IPPROTO_TCP, TCP_USER_TIMEOUT, &value, 4) };
}

// The poll reports a socket from now on, by the number of its connection.
fn register(poll: &Poll, number: ConnectionNumber, stream: &mut TcpStream) -> bool {
    let both = Interest::READABLE | Interest::WRITABLE;
    poll.registry()
        .register(stream, Token(number), both)
        .is_ok()
}

// The poll reported a connection's socket.
fn heed_one(traffic: &mut HostTraffic, event: &Event)
    ensures { OnlyCalls traffic.old traffic.new }
{
    let is_over = event.is_error();
    let is_readable = event.is_readable() || event.is_read_closed() || is_over;
    let is_writable = event.is_writable() || event.is_write_closed() || is_over;
    traffic.heed(event.token().0, is_readable, is_writable);
}

// The poll reported that something may be done.
#[tactic(auto, using(crate::proofs::Turning::none_called))]
fn heed_event(doors: &mut Doors, traffic: &mut HostTraffic, event: &Event)
    ensures { OnlyCalls traffic.old traffic.new }
{
    if event.token() == LISTENER {
        doors.door.knock();
        return;
    }
    if event.token() == STATUS_LISTENER {
        if let Some(desk) = &mut doors.status {
            desk.door.knock();
        }
        return;
    }
    heed_one(traffic, event);
}

// Takes in all that the poll reported.
fn heed_all(events: &Events, doors: &mut Doors, traffic: &mut HostTraffic)
    ensures { OnlyCalls traffic.old traffic.new }
{
    for event in events.iter() {
        heed_event(doors, traffic, event);
    }
}

// Whether one more connection may be asked for.
#[tactic(auto, using(crate::proofs::Turning::none_called))]
fn may_accept(door: &Door, traffic: &mut HostTraffic, now: u64) -> bool
    ensures { OnlyCalls traffic.old traffic.new }
{
    if traffic.links().len() >= traffic.links().room() || !door.is_asked(now) {
        return false;
    }
    traffic.catch_up()
}

impl Reception {
    /// A poll that watches these doors, and room for `connections`, of which `most_from` may come from one
    /// address, if that is bounded.
    pub(crate) fn new(
        rt: &HostRuntime,
        mut doors: Doors,
        connections: usize,
        most_from: Option<usize>,
    ) -> Result<Reception, HostEnd> {
        Ok(Reception {
            poll: watching(rt, &mut doors)?,
            events: Events::with_capacity(rt.alloc(), EVENTS)?,
            origins: Origins::new(rt.alloc(), connections, most_from)?,
            doors,
        })
    }

    /// Waits until something may be done, for so many milliseconds at most.
    pub(crate) fn wait(&mut self, wait: u64) -> io::Result<()> {
        self.poll
            .poll(&mut self.events, Some(Duration::from_millis(wait)))
    }

    /// Takes in what the poll reported.
    pub(crate) fn heed(&mut self, traffic: &mut HostTraffic)
        ensures { OnlyCalls traffic.old traffic.new }
    {
        heed_all(&self.events, &mut self.doors, traffic);
    }

    /// Accepts those that wait, up to a number.
    pub(crate) fn accept(&mut self, traffic: &mut HostTraffic, tally: &mut HostTally, now: u64)
        ensures { OnlyCalls traffic.old traffic.new }
    {
        for _turn in 0..ACCEPTS {
            if !self.accept_one(traffic, tally, now) {
                break;
            }
        }
    }

    // Asks for one connection, if there may be one more. Returns whether one was asked for.
    fn accept_one(&mut self, traffic: &mut HostTraffic, tally: &mut HostTally, now: u64) -> bool
        ensures { OnlyCalls traffic.old traffic.new }
    {
        if !may_accept(&self.doors.door, traffic, now) {
            return false;
        }
        let accepted = self.doors.door.accept(now);
        self.take_in(traffic, tally, now, accepted);
        true
    }

    // Handles what came of asking for one.
    #[tactic(auto, using(crate::proofs::Turning::none_called))]
    fn take_in(
        &mut self,
        traffic: &mut HostTraffic,
        tally: &mut HostTally,
        now: u64,
        accepted: Accepted,
    )
        ensures { OnlyCalls traffic.old traffic.new }
    {
        match accepted {
            Accepted::Stream(stream, from) => self.admit(traffic, tally, now, stream, from),
            Accepted::Nobody => {}
            Accepted::NoDescriptor => tally.report.note(FaultKind::NoDescriptor),
            Accepted::Failed => tally.report.note(FaultKind::NotAccepted),
        }
    }

    // Takes in a connection that was accepted, unless its address has as many as it may have.
    #[tactic(auto, using(crate::proofs::Turning::none_called))]
    fn admit(
        &mut self,
        traffic: &mut HostTraffic,
        tally: &mut HostTally,
        now: u64,
        stream: TcpStream,
        from: u128,
    )
        ensures { OnlyCalls traffic.old traffic.new }
    {
        tally.opened = tally.opened.saturating_add(1);
        if !self.origins.takes(traffic.links(), from) {
            tally.report.note(FaultKind::TooManyFrom);
            return;
        }
        self.open(traffic, tally, now, stream, from);
    }

    // Opens a connection that was accepted.
    fn open(
        &mut self,
        traffic: &mut HostTraffic,
        tally: &mut HostTally,
        now: u64,
        mut stream: TcpStream,
        from: u128,
    )
        ensures { OnlyCalls traffic.old traffic.new }
    {
        let _ = stream.set_nodelay(true);
        keep_alive(&stream);
        let Ok(opened) = traffic.open(now) else {
            tally.report.note(FaultKind::NotOpened);
            return;
        };
        self.origins.note(opened.number(), from);
        if !register(&self.poll, opened.number(), &mut stream) {
            tally.report.note(FaultKind::NotOpened);
            traffic.turn_away(now, opened);
            return;
        }
        let stream = tally.answers.over(stream);
        if traffic.attach(now, opened, stream) {
            return;
        }
        tally.report.note(FaultKind::NotOpened);
    }
}
