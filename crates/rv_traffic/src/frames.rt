//! The look since which each connection has been seen in the middle of one frame.
ghost use Rattle.std.specs.Prelude.{◌≡◌, get_or, replicate, slice_set, IfOk, None};
ghost use Rattle.rv_traffic.specs.Times.{IsSeenSince};

use crate::times::seen_since;
use rv_server_connections::connection::Wire;
use rv_server_connections::subscribers::ConnectionNumber;
use std::alloc::{AllocError, Global};

/// For each connection, by its number, the moment in milliseconds of the look since which it has been in the
/// middle of one frame, if it is in one.
#[derive(Drop)]
pub struct FrameLooks {
    since: Vec<Option<u64>>,
}

impl FrameLooks {
    /// No connection is in a frame, and there is room for all numbers below `most`.
    pub fn new(alloc: Global, most: usize) -> Result<FrameLooks, AllocError>
        ensures none { IfOk result (λ looks. looks.since.items ≡ replicate most None) }
    {
        Ok(FrameLooks {
            since: Vec::from_elem(alloc, None, most)?,
        })
    }

    /// Looks at a connection at the moment `now`, in milliseconds, and returns the look since which it has
    /// been seen in the middle of one frame, if it is in one. Bytes of it last left at `sent`. Each look at
    /// one for whose number there is no room is the first.
    pub fn look(
        &mut self,
        number: ConnectionNumber,
        wire: &Wire,
        sent: u64,
        now: u64,
    ) -> Option<u64>
        ensures since { IsSeenSince wire.now (get_or self.old.since.items number None) sent now result }
        ensures kept { self.new.since.items ≡ slice_set self.old.since.items number result }
    {
        let before = match self.since.get(number) {
            Some(since) => *since,
            None => None,
        };
        let since = seen_since(wire, before, sent, now);
        if number < self.since.len() {
            self.since[number] = since;
        }
        since
    }

    /// A connection isn't looked at this time: its next look will be the first.
    pub fn forget(&mut self, number: ConnectionNumber)
        ensures { self.new.since.items ≡ slice_set self.old.since.items number None }
    {
        if number < self.since.len() {
            self.since[number] = None;
        }
    }
}
