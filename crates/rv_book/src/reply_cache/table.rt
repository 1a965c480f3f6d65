//! The table of what is kept of each client's reply.
ghost use Rattle.std.specs.Prelude.{◌≡◌, ◌<◌, ◌≤◌, Some, None, IsSome, IsOk, OnOk};
ghost use Rattle.std.specs.FinMap.{get, insert};

use indexmap::IndexMap;
use rv_session::Kept;
use rv_text::NoMemory;
use std::alloc::Global;
use std::marker::Model;

/// For each client what is kept of its last request's reply, which contracts see as a map, with the number of
/// further clients that there is room for.
///
/// Only [`reserve`](KeptReplies::reserve) takes memory. `get` and `keep` look a client up in a hash table,
/// once unless it is new, and search nothing else: they take constant time on average.
#[derive(Drop)]
pub struct KeptReplies {
    replies: IndexMap<u64, Option<Kept>>,
}

impl Model for KeptReplies {
    ghost use Rattle.indexmap.specs.IndexMap.{spare};
    ghost use Rattle.rv_session.specs.Entries.{map_of};
    ghost use Rattle.rv_session.specs.contracts.kept.Kept as kept;
    ghost use Rattle.rv_book.specs.reply_cache.KeptTable.{KeptTable, kept_code};

    ghost Value = { KeptTable };

    ghost coded = { kept_code kept.the_row.coded };

    ghost view = { λ t. record {
      replies = map_of t.replies.entries;
      room = spare t.replies;
    } };
}

impl KeptReplies {
    ghost use Rattle.std.specs.Prelude.{◌+◌, is_some, option_and_then, true, false};
    ghost use Rattle.std.specs.FinMap.{empty};

    /// The table of no client. It takes no memory yet.
    pub fn new(alloc: Global) -> KeptReplies
        ensures { result.replies ≡ empty }
    {
        let replies = IndexMap::new(alloc);
        KeptReplies { replies }
    }

    /// What is kept of the client's reply; nothing for a client that isn't known.
    pub fn get(&self, client: u64) -> Option<Kept>
        ensures { result ≡ option_and_then (λ k. k) (get self.now.replies client) }
    {
        match self.replies.get(&client) {
            Some(kept) => *kept,
            None => None,
        }
    }

    /// Makes room for one more client, if there is none. It fails only if memory is refused. What is kept
    /// stays, and there is no less room, even if it fails.
    pub fn reserve(&mut self) -> Result<(), NoMemory>
        ensures ok { OnOk result (0 < self.new.room) }
        ensures succeeds { 0 < self.old.room → IsOk result }
        ensures stays { self.new.replies ≡ self.old.replies }
        ensures room { self.old.room ≤ self.new.room }
    {
        self.replies.reserve(1)?;
        Ok(())
    }

    // Replaces what is kept of a client, if it is known, and tells whether it is. It takes no memory.
    fn renew(&mut self, client: u64, kept: Option<Kept>) -> bool
        ensures known { result ≡ is_some (get self.old.replies client) }
        ensures replies { result ≡ true → self.new.replies ≡ insert self.old.replies client kept }
        ensures room { result ≡ true → self.new.room ≡ self.old.room }
        ensures stays { result ≡ false → self.new ≡ self.old }
    {
        if let Some(there) = self.replies.get_mut(&client) {
            *there = kept;
            return true;
        }
        false
    }

    // Keeps this of a client that isn't known, for which there must be room.
    fn add(&mut self, client: u64, kept: Option<Kept>)
        requires none { get self.old.replies client ≡ None }
        requires room { 0 < self.old.room }
        ensures replies { self.new.replies ≡ insert self.old.replies client kept }
        ensures room { self.old.room ≤ self.new.room + 1 }
    {
        self.replies.insert(client, kept).unwrap();
    }

    /// Keeps this of the client's reply, in place of what was kept of it. The client must be known, or there
    /// must be room for it. It takes no memory; a client that is known leaves the room as it was.
    pub fn keep(&mut self, client: u64, kept: Option<Kept>)
        requires room { get self.old.replies client ≡ None → 0 < self.old.room }
        ensures replies { self.new.replies ≡ insert self.old.replies client kept }
        ensures known { IsSome (get self.old.replies client) → self.new.room ≡ self.old.room }
        ensures room { self.old.room ≤ self.new.room + 1 }
    {
        if !self.renew(client, kept) {
            self.add(client, kept);
        }
    }
}
