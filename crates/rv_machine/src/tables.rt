//! The tables of a machine: the state of an account, and what changes them together.
ghost use Rattle.std.specs.Prelude.{◌≡◌, ◌+◌, ◌<◌, ◌≤◌};
ghost use Rattle.rv_machine.specs.open_places.OpenMap.{count_waiting, most_counted};
ghost use Rattle.rv_machine.specs.open_places.Indexed.{WaitsIn};
ghost use Rattle.rv_machine.specs.Machines.{IsWhole, SameListRoom};
ghost use Rattle.rv_machine.specs.Ending.{EndsWaiting, counted};
ghost use Rattle.rv_account.specs.Account.{entry};
ghost use Rattle.rv_account.specs.rules.Steps.{max_moment};

use crate::open_places::OpenTable;
use rv_account::{Act, Entry, Partners};
use rv_session::{Clients, Place};
use rv_text::{Key, Reply};
use std::alloc::Global;

/// What a machine holds: the tables that are the state of an account, without its entries.
#[derive(Drop)]
pub struct Holdings {
    pub(crate) moment: u64,
    // How many entries there were.
    pub(crate) length: usize,
    pub(crate) table: OpenTable,
    pub(crate) clients: Clients,
    // The keys that the tick or the message has settled so far.
    pub(crate) settled: Vec<Key>,
}

impl Holdings {
    /// Ends the wait of the request at a place with this reply, and lists its key.
    pub(crate) fn end(&mut self, place: Place, reply: Reply)
        requires ready { IsWhole self.old }
        requires waits { WaitsIn self.old.table place }
        ensures ready { IsWhole self.new }
        ensures ends { EndsWaiting self.old self.new place reply }
        ensures room { SameListRoom self.old self.new }
    {
        let (there, duty) = self.table.close(place);
        self.settled.push_reserved(there.waiter.unwrap().key);
        self.clients.settle(duty, reply);
    }

    /// Counts one more entry, of a moment, and gives it. Whole tables stay whole if there is space for it.
    pub(crate) fn record(&mut self, moment: u64, act: Act, partners: Partners) -> Entry
        requires { self.old.length < most_counted }
        ensures entry { result ≡ entry moment act partners }
        ensures ready { IsWhole self.old → moment ≤ max_moment
            → self.old.length + count_waiting self.old.table < most_counted → IsWhole self.new }
        ensures counted { self.new ≡ counted self.old moment }
    {
        self.length += 1;
        self.moment = moment;
        Entry {
            moment,
            act,
            partners,
        }
    }

    /// The allocator that the tables keep.
    pub(crate) fn allocator(&self) -> Global {
        *self.settled.allocator()
    }
}
