//! One connection to an HTTP address.
ghost use Rattle.std.specs.Prelude.{◌↔◌, IsTrue};
ghost use Rattle.rv_status.specs.Visits.{IsFresh, IsLeaving, ReceivesOnce, IsVisit, SendsOnce};

use http_server::{Config, Connection, Service};
use http1::Limits;
use std::alloc::Global;
use std::hash::RandomState;
use std::io::{Error, ErrorKind, Read, Write};

// The most bytes of a request's head, which is also how many are read at once.
const MOST_HEAD: usize = 4_096;

// The most milliseconds that a connection lasts, and those within which it says what it asks for.
const LONGEST: u64 = 10_000;

const LONGEST_SILENCE: u64 = 1_000;

/// A connection with its socket.
#[derive(Drop)]
pub struct Visitor<S> {
    pub(crate) stream: S,
    pub(crate) connection: Connection,
    // When it came, in milliseconds.
    pub(crate) came: u64,
    // Whether its socket failed.
    pub(crate) is_broken: bool,
}

impl<S> Visitor<S> {
    // A connection that was accepted at a moment, whose header maps take these keys.
    pub(crate) fn new(alloc: Global, keys: RandomState, stream: S, now: u64) -> Visitor<S>
        ensures { IsFresh stream now result }
    {
        let config = Config {
            limits: Limits {
                max_head_len: MOST_HEAD,
                max_extensions_len: 0,
                max_trailers_len: 2,
            },
            max_body_len: 0,
            max_pending: 0,
            read_size: MOST_HEAD,
        };
        Visitor {
            stream,
            connection: Connection::new(alloc, keys, config),
            came: now,
            is_broken: false,
        }
    }

    // Whether it is to be let go at a moment.
    pub(crate) fn is_over(&self, now: u64) -> bool
        ensures { IsTrue result ↔ IsLeaving now self.now }
    {
        let age = now.saturating_sub(self.came);
        self.is_broken
            || self.connection.is_done()
            || age >= LONGEST
            || (age >= LONGEST_SILENCE && self.connection.wants_read())
    }
}

// Whether a socket is of no use any more.
fn breaks(error: &Error) -> bool {
    !matches!(error.kind(), ErrorKind::WouldBlock | ErrorKind::Interrupted)
}

impl<S: Read + Write> Visitor<S> {
    // Reads once, answers, and writes once, if there is something to send. Returns whether there was.
    pub(crate) fn turn<P: Service>(&mut self, pages: &mut P) -> bool
        ensures { IsVisit S.remaining S.contents P.answers self.old self.new pages.old pages.new result }
    {
        self.read();
        self.connection.advance(pages);
        let answers = self.connection.wants_write();
        self.write();
        answers
    }

    // Reads once, if its connection wants that.
    fn read(&mut self)
        ensures { ReceivesOnce S.remaining self.old self.new }
    {
        if !self.connection.wants_read() {
            return;
        }
        if let Err(error) = self.connection.read_from(&mut self.stream) {
            self.is_broken = breaks(&error);
        }
    }

    // Writes once, if its connection wants that.
    fn write(&mut self)
        ensures { SendsOnce S.contents self.old self.new }
    {
        if !self.connection.wants_write() {
            return;
        }
        self.is_broken = match self.connection.write_to(&mut self.stream) {
            Ok(count) => count == 0,
            Err(error) => breaks(&error),
        };
    }
}
