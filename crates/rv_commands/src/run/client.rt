//! The client of a shell's command: it asks, over one connection after another, until its request is settled.
ghost use Rattle.rv_text.specs.Limits.{FitsIdentifier};

use crate::asking::CallEnd;
use crate::open::OpenCall;
use crate::run::end::ShellEnd;
use crate::run::link::connected_to_one;
use crate::run::session::ShellSession;
use rv_client::New;
use rv_frame::{Sink, Source};
use rv_text::{Key, Refusal, Reply, Version, fits_identifier};
use std::alloc::Global;
use std::net::TcpStream;
use std::thread;
use std::time::{Clock, Duration};

// The milliseconds between two tries.
const PAUSE_MILLIS: u64 = 200;

// How often one that was never there is tried, since it may be starting: a second in all.
const FIRST_TRIES: u64 = 5;

/// What came of asking once.
#[derive(Drop)]
pub(crate) enum Asked {
    /// There is nothing more to ask.
    Over,
    /// The request of this key has this reply.
    Replied(Key, Reply),
    /// It came to this end, which is no reply.
    Ended(CallEnd),
}

/// What is asked, again and again, until it is settled.
pub(crate) trait OpenRequest {
    /// The key of its request, if that was asked and isn't settled.
    fn asked(&self) -> Option<Key>;

    /// Asks once over a link.
    fn ask_once(
        &mut self,
        alloc: Global,
        new: New,
        from: &mut Source<&TcpStream>,
        to: &mut Sink<&TcpStream>,
    ) -> Result<Asked, ShellEnd>
        requires client { FitsIdentifier new.client }
        requires incarnation { FitsIdentifier new.incarnation };
}

impl OpenRequest for OpenCall {
    fn asked(&self) -> Option<Key> {
        OpenCall::asked(self)
    }

    fn ask_once(
        &mut self,
        alloc: Global,
        new: New,
        from: &mut Source<&TcpStream>,
        to: &mut Sink<&TcpStream>,
    ) -> Result<Asked, ShellEnd> {
        match self.ask_again(alloc, new, from, to) {
            CallEnd::Replied(key, reply) => Ok(Asked::Replied(key, reply)),
            other => Ok(Asked::Ended(other)),
        }
    }
}

/// A client that asks one request after another, each in an incarnation of its own.
#[derive(Drop)]
pub(crate) struct ShellClient<'a> {
    rt: &'a HostRuntime,
    servers: &'a str,
    client: u64,
    incarnation: u64,
    version: Version,
    // For how long a server is tried again after it was lost.
    patience: Duration,
    // Whether a server was there once: then one that is lost is tried again.
    was_there: bool,
    // The connection over which the last request was settled.
    stream: Option<TcpStream>,
}

// What came of one try.
#[derive(Drop)]
enum Tried {
    // There is nothing more to ask.
    Over,
    // The request of this key has this reply.
    Replied(Key, Reply),
    // The server was lost.
    Lost,
}

impl<'a> ShellClient<'a> {
    /// A client of the session, which has asked nothing.
    pub(crate) fn new(rt: &'a HostRuntime, session: &'a ShellSession) -> ShellClient<'a> {
        ShellClient {
            rt,
            servers: session.servers(),
            client: session.client(),
            incarnation: new_incarnation(rt),
            version: session.version(),
            patience: session.patience(),
            was_there: false,
            stream: None,
        }
    }

    /// What it runs on.
    pub(crate) fn rt(&self) -> &'a HostRuntime {
        self.rt
    }

    /// Lets the connection go, so that the next request gets one of its own.
    pub(crate) fn hang_up(&mut self) {
        self.stream = None;
    }

    /// Asks until it is settled, again over another connection where one is lost: the reply of the request
    /// of this key, or `None` if there is nothing to ask.
    pub(crate) fn settle<A: OpenRequest>(
        &mut self,
        asks: &mut A,
    ) -> Result<Option<(Key, Reply)>, ShellEnd> {
        let mut lost_at = None;
        for tried in 0..u64::MAX {
            match self.tried(asks, tried < FIRST_TRIES)? {
                Tried::Over => return Ok(None),
                Tried::Replied(key, reply) => return Ok(Some((key, reply))),
                Tried::Lost => {}
            }
            let now = self.rt.monotonic().unwrap_or(Duration::ZERO);
            let since = lost_at.unwrap_or(now);
            lost_at = Some(since);
            if now.saturating_sub(since) >= self.patience {
                break;
            }
            thread::sleep(self.rt, Duration::from_millis(PAUSE_MILLIS));
        }
        match asks.asked() {
            Some(key) => Err(ShellEnd::NotKnown(key, self.version)),
            None => Err(ShellEnd::NoServer),
        }
    }

    // Asks once, over the connection that there is or a new one. If there is none, one may come later where
    // a server was there before, or where it is early.
    fn tried<A: OpenRequest>(&mut self, asks: &mut A, is_early: bool) -> Result<Tried, ShellEnd> {
        let Some(stream) = self.found() else {
            return if self.was_there || is_early {
                Ok(Tried::Lost)
            } else {
                Err(ShellEnd::NoServer)
            };
        };
        self.was_there = true;
        let earlier = asks.asked();
        match self.asked_over(&stream, asks)? {
            Asked::Over => Ok(Tried::Over),
            Asked::Replied(key, reply) => {
                self.incarnation = self.incarnation.saturating_add(1);
                self.stream = Some(stream);
                Ok(Tried::Replied(key, reply))
            }
            Asked::Ended(end) => self.lost(end, earlier),
        }
    }

    // The connection that there is, or a new one.
    fn found(&mut self) -> Option<TcpStream> {
        match self.stream.take() {
            Some(stream) => Some(stream),
            None => connected_to_one(self.rt, self.servers),
        }
    }

    // What is to be done after an end that is no reply, of a request that was asked before if it has this
    // key.
    fn lost(&mut self, end: CallEnd, earlier: Option<Key>) -> Result<Tried, ShellEnd> {
        match end {
            CallEnd::Unheard(_)
            | CallEnd::Unsettled(_, _)
            | CallEnd::Refused(_, Refusal::NoMemory)
            | CallEnd::Unwelcome(Refusal::NoMemory) => Ok(Tried::Lost),
            CallEnd::Unwelcome(refusal) => self.refused(refusal, earlier),
            CallEnd::Refused(_, refusal) => Err(self.told_of(refusal, earlier)),
            CallEnd::Replied(key, _)
            | CallEnd::EpochEnded(key, _)
            | CallEnd::Replaced(key, _)
            | CallEnd::Moved(key, _) => Err(ShellEnd::NotKnown(key, self.version)),
        }
    }

    // A hello was refused. Where the clock was set back, the next incarnation after the server's is taken.
    fn refused(&mut self, refusal: Refusal, earlier: Option<Key>) -> Result<Tried, ShellEnd> {
        match (refusal, earlier) {
            (Refusal::OldIncarnation(current), None) => {
                self.incarnation = current.saturating_add(1);
                Ok(Tried::Lost)
            }
            (other, earlier) => Err(self.told_of(other, earlier)),
        }
    }

    // A refusal: what the server refused it didn't do, but what it was asked before it may have done.
    fn told_of(&self, refusal: Refusal, earlier: Option<Key>) -> ShellEnd {
        match earlier {
            Some(key) => ShellEnd::NotKnown(key, self.version),
            None => ShellEnd::Refused(refusal),
        }
    }

    // Says hello and asks, over this connection.
    fn asked_over<A: OpenRequest>(
        &self,
        stream: &TcpStream,
        asks: &mut A,
    ) -> Result<Asked, ShellEnd> {
        if !fits_identifier(self.client) || !fits_identifier(self.incarnation) {
            return Err(ShellEnd::Clock);
        }
        let new = New::start(self.client, self.incarnation, self.version);
        let mut from = Source::new(stream);
        let mut to = Sink::new(stream);
        asks.ask_once(self.rt.alloc(), new, &mut from, &mut to)
    }
}

/// A new incarnation: the microseconds since 1970.
pub(crate) fn new_incarnation(rt: &HostRuntime) -> u64 {
    match rt.since_1970() {
        Ok(since) => u64::try_from(since.as_micros()).unwrap_or(1),
        Err(_) => 1,
    }
}
