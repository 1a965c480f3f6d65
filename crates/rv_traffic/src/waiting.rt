//! The connections that wait for a share of input, in rounds: each has one in each.
ghost use Rattle.std.specs.Prelude.{◌≡◌, ◌++◌, ◌∷◌, ◌↔◌, [], length, IfNone, IfOk, IfSome, IsTrue};
ghost use Rattle.std.specs.Prelude.{AllPairs, ◌≢◌};
ghost use Rattle.rv_engine.specs.Engines.{IsLooks};

use rv_engine::LookList;
use rv_server_connections::subscribers::ConnectionNumber;
use std::alloc::{AllocError, Global};

/// Connections that wait for a share of input, in room that was made before: those whose share of this round
/// is due, and those that wait for one of the next.
#[derive(Drop)]
pub struct WaitingLists {
    pub(crate) due: LookList,
    pub(crate) next: LookList,
    ghost due_sound: { IsLooks due },
    ghost next_sound: { IsLooks next },
    ghost same_room: { length next.flags.items ≡ length due.flags.items },
}

impl WaitingLists {
    ghost use Rattle.rv_traffic.specs.Views.{waits_of};
    ghost use Rattle.rv_traffic.specs.Waiting.{WaitsToo, shares_begun};

    /// Empty lists, which have room for all numbers below this one.
    pub fn new(alloc: Global, most: usize) -> Result<WaitingLists, AllocError>
        ensures none { IfOk result (λ lists. waits_of lists ≡ record { due = []; next = []; room = most }) }
    {
        Ok(WaitingLists {
            due: LookList::new(alloc, most)?,
            next: LookList::new(alloc, most)?,
        })
    }

    /// Whether no connection waits.
    pub fn is_empty(&self) -> bool
        ensures { IsTrue result ↔ (((waits_of self.now).due ≡ []) × ((waits_of self.now).next ≡ [])) }
    {
        self.due.is_empty() && self.next.is_empty()
    }

    // One more waits for a share of the next round, if it may be listed.
    pub(crate) fn add(&mut self, number: ConnectionNumber)
        ensures { WaitsToo (waits_of self.old) number (waits_of self.new) }
    {
        self.next.add(number);
    }

    // Where no share is due any more, those of the next round are.
    pub(crate) fn begin(&mut self)
        ensures begins { waits_of self.new ≡ shares_begun (waits_of self.old) }
        ensures once { AllPairs (λ one other. one ≢ other) (waits_of self.new).due }
    {
        if self.due.is_empty() {
            std::mem::swap(&mut self.due, &mut self.next);
        }
    }

    // The last whose share is due, which waits no longer for this one.
    pub(crate) fn pop(&mut self) -> Option<ConnectionNumber>
        ensures some { IfSome result (λ number. (waits_of self.old).due
            ≡ (waits_of self.new).due ++ number ∷ []) }
        ensures none { IfNone result ((waits_of self.old).due ≡ []) }
        ensures none_same { IfNone result ((waits_of self.new).due ≡ []) }
        ensures rest { waits_of self.new ≡ record (waits_of self.old) { due = (waits_of self.new).due } }
    {
        self.due.pop()
    }
}
