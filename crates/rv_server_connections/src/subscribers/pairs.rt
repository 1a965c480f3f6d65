//! Connections, each under a number: a client's, a moment, or how many entries are written.
ghost use Rattle.std.specs.Prelude.{◌≡◌, ◌+◌, ◌^◌, ◌<◌, ◌≤◌, false, true, IfNone, IfSome, OnErr, OnOk};
ghost use Rattle.std.specs.Prelude.{length, vec_capacity};
ghost use Rattle.rv_server_connections.specs.subscribers.Pairs.{ChangesPairs, IsLeastPair, IsLowestUnder};
ghost use Rattle.rv_server_connections.specs.subscribers.Pairs.{ListsUpTo, NoPairs, NoneUnder, SamePairs};
ghost use Rattle.rv_server_connections.specs.subscribers.Pairs.{pair_count, stands_under};

use rv_text::NoMemory;
use std::alloc::{AllocError, Global};
use std::collections::BTreeSet;
use std::ops::Bound;

/// Connections, each under a number, or under several.
///
/// Contracts see whether a connection stands under a number (`stands_under`). Each call but `list_up_to`
/// takes time logarithmic in how many stand there.
#[derive(Drop)]
pub struct Pairs {
    pub(crate) pairs: BTreeSet<(u64, usize)>,
}

impl Pairs {
    /// No connection is under any number. It takes no memory yet.
    pub fn empty(alloc: Global) -> Pairs
        ensures none { NoPairs result }
        ensures count { pair_count result ≡ 0 }
    {
        Pairs {
            pairs: BTreeSet::new(alloc),
        }
    }

    /// The connection stands under the number from now on. If memory is refused nothing changes.
    pub fn add(&mut self, number: u64, connection: usize) -> Result<(), NoMemory>
        ensures ok { OnOk result (ChangesPairs self.old self.new number connection true) }
        ensures err { OnErr result (SamePairs self.old self.new) }
        ensures count { pair_count self.new ≤ pair_count self.old + 1 }
        ensures same_count { OnErr result (pair_count self.new ≡ pair_count self.old) }
    {
        match self.pairs.insert((number, connection)) {
            Ok(_) => Ok(()),
            Err(refused) => Err(AllocError::from(refused)),
        }
    }

    /// The connection is no longer under the number.
    pub fn remove(&mut self, number: u64, connection: usize)
        ensures removed { ChangesPairs self.old self.new number connection false }
        ensures fewer { stands_under self.old number connection ≡ true
            → pair_count self.new + 1 ≡ pair_count self.old }
        ensures no_more { pair_count self.new ≤ pair_count self.old }
    {
        self.pairs.remove(&(number, connection));
    }

    /// The lowest connection under the number.
    pub fn lowest(&self, number: u64) -> Option<usize>
        ensures some { IfSome result (IsLowestUnder self.now number) }
        ensures none { IfNone result (NoneUnder self.now number) }
    {
        let under = (Bound::Included((number, 0)), Bound::Unbounded);
        let (least, connection) = *self.pairs.range(under).next()?;
        (least == number).then_some(connection)
    }

    /// The lowest connection under the lowest number, with that number.
    pub fn least(&self) -> Option<(u64, usize)>
        ensures some { IfSome result (IsLeastPair self.now) }
        ensures none { IfNone result (NoPairs self.now) }
    {
        Some(*self.pairs.first()?)
    }

    /// How many there are, each counted under each of its numbers.
    pub fn count(&self) -> usize
        ensures count { result ≡ pair_count self.now }
        ensures small { result < 2 ^ 63 }
    {
        self.pairs.len()
    }

    /// Fills a list, which has room for all, with those that are under a number up to this one: those under
    /// the lowest number first, and under one number the lowest connection first.
    pub fn list_up_to(&self, most: u64, list: &mut Vec<usize>)
        requires { pair_count self.now ≤ vec_capacity list.old }
        ensures listed { ListsUpTo self.now most list.new.items }
        ensures few { length list.new.items ≤ pair_count self.now }
        ensures capacity { vec_capacity list.new ≡ vec_capacity list.old }
    {
        list.clear();
        for (number, connection) in self.pairs.iter() {
            if most < *number {
                break;
            }
            list.push_reserved(*connection);
        }
    }
}
