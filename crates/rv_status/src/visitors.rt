//! All connections to an HTTP address, in a line.
ghost use Rattle.std.specs.Prelude.{◌≡◌, ◌<◌, ◌≤◌, ◌-◌, ◌↔◌, [], drop, IfOk, IsTrue, length};
ghost use Rattle.std.specs.VecDeque.{deque_capacity, deque_len};
ghost use Rattle.rv_status.specs.Visits.{Admits, StaysUnlessLeaving, Visits};

use crate::visitor::Visitor;
use http_server::Service;
use std::alloc::{AllocError, Global};
use std::collections::VecDeque;
use std::hash::RandomState;
use std::io::{Read, Write};

// The most connections in the line.
const MOST: usize = 32;

/// Connections in a line, the first of which is visited next. Room for all of them was made at the start.
#[derive(Drop)]
pub struct Visitors<S> {
    alloc: Global,
    keys: RandomState,
    pub(crate) line: VecDeque<Visitor<S>>,
    ghost few: { deque_len line ≤ 32 },
    ghost roomy: { 32 ≤ deque_capacity line },
}

impl<S: Drop> Visitors<S> {
    /// An empty line with room for 32. The maps of headers use these keys.
    pub fn new(alloc: Global, keys: RandomState) -> Result<Visitors<S>, AllocError>
        ensures { IfOk result (λ v. v.line.items ≡ []) }
    {
        Ok(Visitors {
            alloc,
            keys,
            line: VecDeque::with_capacity(alloc, MOST)?,
        })
    }

    /// How many there are.
    pub fn len(&self) -> usize
        ensures { result ≡ length self.now.line.items }
    {
        self.line.len()
    }

    /// Whether nobody is there.
    pub fn is_empty(&self) -> bool
        ensures { IsTrue result ↔ (self.now.line.items ≡ []) }
    {
        self.line.is_empty()
    }

    /// Takes a connection in, at a moment in milliseconds, to be visited next. If 32 are there, the first
    /// one, which was visited longest ago, makes way.
    pub fn admit(&mut self, now: u64, stream: S)
        ensures { Admits now stream self.old.line.items self.new.line.items }
    {
        let visitor = Visitor::new(self.alloc, self.keys, stream, now);
        self.make_way();
        self.line.push_front_reserved(visitor);
    }

    // If 32 are there, the first is let go.
    fn make_way(&mut self)
        ensures left { self.new.line.items ≡ drop (length self.old.line.items - 31) self.old.line.items }
        ensures room { deque_len self.new.line < 32 }
    {
        if self.line.len() < MOST {
            return;
        }
        if let Some(first) = self.line.pop_front() {
            drop(first);
        }
    }

    // Puts a connection that had its turn at the end of the line, or closes it if it is over.
    fn take_back(&mut self, now: u64, visitor: Visitor<S>)
        requires { deque_len self.old.line < 32 }
        ensures { StaysUnlessLeaving now visitor self.old.line.items self.new.line.items }
    {
        if visitor.is_over(now) {
            return drop(visitor);
        }
        self.line.push_back_reserved(visitor);
    }
}

impl<S: Read + Write + Drop> Visitors<S> {
    /// Reads the first connection once, answers it from the pages, and writes to it once. It then goes to
    /// the end of the line, or is closed: if its socket failed, if all is said, a second after it came
    /// where it hasn't said what it asks for, or ten seconds after it came. True where there was something
    /// to send: an answer was made, or an earlier one hasn't gone out yet.
    pub fn visit<P: Service>(&mut self, now: u64, pages: &mut P) -> bool
        ensures { Visits S.remaining S.contents P.answers now self.old.line.items self.new.line.items
            pages.old pages.new result }
    {
        let Some(mut visitor) = self.line.pop_front() else {
            return false;
        };
        let answers = visitor.turn(pages);
        self.take_back(now, visitor);
        answers
    }
}
