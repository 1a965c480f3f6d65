//! The set of deadlines.
ghost use Rattle.std.specs.Prelude.{◌≡◌};

use std::alloc::{AllocError, Global};
use std::collections::BTreeMap;
use std::marker::Model;

/// A growth of memory was refused.
pub type NoMemory = AllocError;

/// An entry's index in the account.
pub type Place = usize;

/// The deadlines of the requests that wait, which contracts see as a set of pairs: a moment in milliseconds,
/// and the place of the request whose time is over then. The lesser of two deadlines has the lower moment, or
/// the same moment and the lower place.
///
/// Each call takes time logarithmic in their number, and `len` constant time. If none is due `pop_until`
/// looks at the least alone.
#[derive(Drop)]
pub struct Due {
    // In their order, with nothing at each.
    deadlines: BTreeMap<(u64, Place), ()>,
}

impl Model for Due {
    ghost use Rattle.rv_due.specs.Deadlines.{Deadlines, deadlines_code};
    ghost use Rattle.rv_due.specs.Keeping.{set_kept};

    ghost Value = { Deadlines };

    ghost coded = { deadlines_code };

    ghost view = { λ d. set_kept d.deadlines };
}

impl Due {
    ghost use Rattle.std.specs.Prelude.{ℕ, IsOk, IfNone, IfSome, OnErr, OnOk, true};
    ghost use Rattle.std.specs.FinSet.{contains, empty, insert, len};
    ghost use Rattle.std.specs.FinSet as set;
    ghost use Rattle.rv_due.specs.Deadlines.{AllAbove, IsLeastUntil};

    /// The set of no deadlines. It takes no memory yet.
    pub fn new(alloc: Global) -> Due
        ensures { result ≡ empty }
    {
        let deadlines = BTreeMap::new(alloc);
        Due { deadlines }
    }

    /// Adds a deadline. If it is there already nothing changes, and no memory is taken. Otherwise it fails
    /// only if memory was refused, and then nothing changes.
    pub fn add(&mut self, moment: u64, place: Place) -> Result<(), NoMemory>
        ensures ok { OnOk result (self.new ≡ insert self.old (moment, place)) }
        ensures err { OnErr result (self.new ≡ self.old) }
        ensures there { contains self.old (moment, place) ≡ true → IsOk result }
    {
        self.deadlines.insert((moment, place), ())?;
        Ok(())
    }

    /// Takes a deadline out, and says whether it was there. No other deadline changes.
    pub fn remove(&mut self, moment: u64, place: Place) -> bool
        ensures was_there { result ≡ contains self.old (moment, place) }
        ensures taken { self.new ≡ set.remove self.old (moment, place) }
    {
        self.deadlines.remove(&(moment, place)).is_some()
    }

    /// The least deadline, if there is one. It looks at that one alone.
    pub fn first(&self) -> Option<(u64, Place)>
        ensures least { IfSome result (λ deadline. IsLeastUntil self.now deadline.0 deadline) }
        ensures none { IfNone result ((moment : ℕ) → AllAbove self.now moment) }
    {
        Some(*self.deadlines.first_key_value()?.0)
    }

    /// Takes the least deadline out, if its moment is at most `now`, and gives it. If none is that early,
    /// nothing changes.
    pub fn pop_until(&mut self, now: u64) -> Option<(u64, Place)>
        ensures least { IfSome result (IsLeastUntil self.old now) }
        ensures taken { IfSome result (λ deadline. self.new ≡ set.remove self.old deadline) }
        ensures none_due { IfNone result (AllAbove self.old now) }
        ensures stays { IfNone result (self.new ≡ self.old) }
    {
        let least = *self.deadlines.first_key_value()?.0;
        if now < least.0 {
            return None;
        }
        self.deadlines.remove(&least);
        Some(least)
    }

    /// How many deadlines there are.
    pub fn len(&self) -> usize
        ensures { result ≡ len self.now }
    {
        self.deadlines.len()
    }
}
