//! The account of an epoch: what came to the book, in order, and who met whom.
ghost use Rattle.std.specs.Prelude.{◌≡◌, ◌<◌, ◌≤◌, ◌+◌, ◌==◌, [], Some};
ghost use Rattle.std.specs.Prelude.{IfOk, IsSome, OnErr, OnOk};
ghost use Rattle.std.specs.Prelude.{length, option_map, slice_get};
ghost use Rattle.std.specs.Option.{option_copied};
ghost use Rattle.rv_account.specs.Account.{call_at, item_at, key_at, limit_at, own_moment, with_entry};
ghost use Rattle.rv_account.specs.Limits.{FitEntries};

use crate::entry::{Act, Entry};
use crate::waits::limit_after;
use rv_session::Place;
use rv_text::{Call, Item, Key, NoMemory};
use std::alloc::Global;
use std::marker::Model;

/// All entries of an epoch, in the order in which they were recorded. Contracts see its epoch, its opening
/// moment, the list of its entries, and for how many more entries it has room.
#[derive(Drop)]
pub struct Account {
    epoch: u64,
    opened: u64,
    entries: Vec<Entry>,
}

impl Model for Account {
    ghost use Rattle.rv_account.specs.Account.{Stored};
    ghost use Rattle.std.specs.Prelude.{◌-◌, vec_capacity, vec_len};

    ghost Value = { Stored };

    ghost view = { λ a. record {
      account = record { epoch = a.epoch; opened = a.opened; entries = a.entries.items };
      room = vec_capacity a.entries - vec_len a.entries;
    } };
}

impl Account {
    /// The epoch; in a book's account 1 to 2^53 - 1.
    pub fn epoch(&self) -> u64
        ensures { result ≡ self.now.account.epoch }
    {
        self.epoch
    }

    /// The moment at which the epoch was opened, in milliseconds; in a book's account at most 2^62.
    pub fn opened(&self) -> u64
        ensures { result ≡ self.now.account.opened }
    {
        self.opened
    }

    /// How many entries there are.
    pub fn len(&self) -> usize
        ensures { result ≡ length self.now.account.entries }
    {
        self.entries.len()
    }

    /// Whether there is no entry yet.
    pub fn is_empty(&self) -> bool
        ensures { result ≡ (length self.now.account.entries == 0) }
    {
        self.entries.is_empty()
    }

    /// The entry at a place, if the account has one there.
    pub fn entry(&self, place: Place) -> Option<&Entry>
        ensures { option_copied result ≡ slice_get self.now.account.entries place }
    {
        self.entries.get(place)
    }

    /// The call of the arrival at a place, if one stands there.
    pub fn call(&self, place: Place) -> Option<&Call>
        ensures { option_map (λ c. c.now) result ≡ call_at self.now.account.entries place }
    {
        match &self.entry(place)?.act {
            Act::Arrive { call, .. } => Some(call),
            Act::Hello { .. } | Act::Cancel { .. } | Act::Tick => None,
        }
    }

    /// The limit of the request that arrived at a place, in milliseconds, if it has one. The account's
    /// moments, numbers and items must be within their limits.
    pub fn limit(&self, place: Place) -> Option<u64>
        requires { FitEntries self.now.account.entries }
        ensures { result ≡ limit_at self.now.account.entries place }
    {
        let entry = self.entry(place)?;
        limit_after(entry.moment, self.call(place)?.wait()?)
    }

    /// The key that the entry at a place names: of the request that arrived there, or that is cancelled. The
    /// entry must be an arrival or a cancel.
    pub fn key(&self, place: Place) -> Key
        requires { IsSome (key_at self.now.account.entries place) }
        ensures { key_at self.now.account.entries place ≡ Some result }
    {
        self.entry(place).and_then(|entry| entry.act.key()).unwrap()
    }

    /// The item that the arrival at a place hands over. There must be one.
    pub fn item(&self, place: Place) -> &Item
        requires { IsSome (item_at self.now.account.entries place) }
        ensures { item_at self.now.account.entries place ≡ Some result.now }
    {
        self.call(place).and_then(Call::item).unwrap()
    }

    /// The last entry's moment, or the opening moment if there are no entries.
    pub fn own_moment(&self) -> u64
        ensures { result ≡ own_moment self.now.account }
    {
        self.entries
            .last()
            .map_or(self.opened, |entry| entry.moment)
    }

    /// An empty account.
    pub fn empty(alloc: Global, epoch: u64, opened: u64) -> Account
        ensures epoch { result.account.epoch ≡ epoch }
        ensures opened { result.account.opened ≡ opened }
        ensures entries { result.account.entries ≡ [] }
    {
        Account::from_entries(epoch, opened, Vec::new(alloc))
    }

    /// Makes room for so many more entries. Fails only if there was less room than that and memory was
    /// refused. Either way the entries stay, and so does the room that was there.
    pub fn reserve(&mut self, more: usize) -> Result<(), NoMemory>
        ensures same { self.new.account ≡ self.old.account }
        ensures kept { self.old.room ≤ self.new.room }
        ensures room { OnOk result (more ≤ self.new.room) }
        ensures full { OnErr result (self.old.room < more) }
    {
        self.entries.reserve(more)
    }

    /// For how many more entries it has room.
    pub fn room(&self) -> usize
        ensures { result ≡ self.now.room }
    {
        self.entries.capacity() - self.entries.len()
    }

    /// The allocator that the account keeps.
    pub fn allocator(&self) -> Global {
        *self.entries.allocator()
    }

    /// Records one more entry, for which there must be room. It takes no memory.
    pub fn push(&mut self, entry: Entry)
        requires { 0 < self.old.room }
        ensures entry { self.new.account ≡ with_entry self.old.account entry }
        ensures room { self.old.room ≡ self.new.room + 1 }
    {
        self.entries.push_reserved(entry);
    }

    /// The account of this epoch, opening moment and entries, legal or not. It takes no memory.
    pub fn from_entries(epoch: u64, opened: u64, entries: Vec<Entry>) -> Account
        ensures epoch { result.account.epoch ≡ epoch }
        ensures opened { result.account.opened ≡ opened }
        ensures entries { result.account.entries ≡ entries.items }
    {
        Account {
            epoch,
            opened,
            entries,
        }
    }

    /// A copy, legal or not, by the allocator that the account keeps. Fails only if memory was refused.
    pub fn clone_out(&self) -> Result<Account, NoMemory>
        ensures { IfOk result (λ copy. copy.account ≡ self.now.account) }
    {
        let alloc = self.allocator();
        let mut entries = Vec::with_capacity(alloc, self.len())?;
        for entry in &self.entries {
            entries.push(entry.copy(alloc)?)?;
        }
        Ok(Account::from_entries(self.epoch, self.opened, entries))
    }
}
