//! Requests that find nobody and stay: they are open from then on.
ghost use Rattle.std.specs.Prelude.{◌≡◌, ◌≤◌, [], Some, IfOk, IfSome, OnErr, OnOk};
ghost use Rattle.rv_session.specs.Clients.{place_awaited};
ghost use Rattle.rv_account.specs.Calls.{Lasts};
ghost use Rattle.rv_account.specs.rules.Steps.{max_moment};
ghost use Rattle.rv_account.specs.state.After.{opened_by};
ghost use Rattle.rv_text.specs.Calls.{item_of, side_of, wait_of};
ghost use Rattle.rv_text.specs.Limits.{FitsCall};
ghost use Rattle.rv_model_queues.specs.Meeting.{StaysBy};
ghost use Rattle.rv_machine.specs.Arriving.{Arrives, CanListOneMore, DiffersInRoom, IsAsBefore};
ghost use Rattle.rv_machine.specs.Arriving.{MayArrive, after_put};
ghost use Rattle.rv_machine.specs.Machines.{IsWhole, state_in};
ghost use Rattle.rv_machine.specs.open_places.OpenMap.{opposed_in};

use crate::tables::Holdings;
use rv_account::{Act, Entry, Partners, deadline_after};
use rv_session::{Clients, Duty, OpenPlace, Waiter};
use rv_text::{Call, Item, Key, NoMemory, Reply};
use std::alloc::Global;

/// A copy of the item that a call hands over, if it does. Fails only if memory was refused.
pub(crate) fn copy_item(alloc: Global, call: &Call) -> Result<Option<Item>, NoMemory>
    ensures { IfOk result (λ item. item ≡ item_of call.now) }
{
    match call.item() {
        Some(item) => Ok(Some(item.copy(alloc)?)),
        None => Ok(None),
    }
}

// Settles a put, which is done when it comes.
fn settle_put(clients: &mut Clients, put: Option<Duty>)
    requires { IfSome put (λ d. place_awaited clients.old.clients d.client ≡ Some d.place) }
    ensures { clients.new ≡ after_put clients.old put }
{
    if let Some(duty) = put {
        clients.settle(duty, Reply::Done);
    }
}

impl Holdings {
    // The open place of a request that stays, with a copy of its item.
    fn opening(&self, moment: u64, key: &Key, call: &Call) -> Result<OpenPlace, NoMemory>
        requires time { moment ≤ max_moment }
        requires fits { FitsCall call.now }
        requires lasts { Lasts (wait_of call.now) }
        ensures { IfOk result (λ place. place ≡ opened_by (state_in self.now) moment key.now call.now) }
    {
        let item = copy_item(self.allocator(), call)?;
        let waiter = call.wait().map(|_| Waiter {
            key: *key,
            since: moment,
        });
        Ok(OpenPlace {
            place: self.length,
            side: call.side(),
            item,
            limit: deadline_after(moment, call.wait()),
            waiter,
        })
    }

    // Makes room to list a request that stays, and makes its open place and a copy of its call. Fails only if
    // memory was refused.
    fn prepare(
        &mut self,
        moment: u64,
        key: &Key,
        call: &Call,
    ) -> Result<(OpenPlace, Call), NoMemory>
        requires may { MayArrive self.old moment key.now call.now }
        requires lasts { Lasts (wait_of call.now) }
        ensures opened { IfOk result
            (λ made. made.0 ≡ opened_by (state_in self.old) moment key.now call.now) }
        ensures copy { IfOk result (λ made. made.1 ≡ call.now) }
        ensures room { OnOk result (CanListOneMore self.new) }
        ensures rest { DiffersInRoom self.old self.new }
    {
        self.settled.reserve(self.table.waiting() + 1)?;
        let opened = self.opening(moment, key, call)?;
        Ok((opened, call.copy(self.allocator())?))
    }

    /// A request finds nobody and stays. Fails only if memory was refused, and then the state stays.
    pub(crate) fn stay(&mut self, moment: u64, key: Key, call: Call) -> Result<Entry, NoMemory>
        requires may { MayArrive self.old moment key call }
        requires alone { opposed_in self.old.table (side_of call) ≡ [] }
        requires stays { StaysBy (side_of call) (wait_of call) }
        ensures ready { IsWhole self.new }
        ensures ok { IfOk result (Arrives self.old self.new moment key call) }
        ensures err { OnErr result (IsAsBefore self.old self.new) }
    {
        let (opened, copy) = self.prepare(moment, &key, &call)?;
        self.stay_at(moment, key, call, opened, copy)
    }

    // The same, with all prepared.
    fn stay_at(
        &mut self,
        moment: u64,
        key: Key,
        call: Call,
        opened: OpenPlace,
        copy: Call,
    ) -> Result<Entry, NoMemory>
        requires may { MayArrive self.old moment key call }
        requires alone { opposed_in self.old.table (side_of call) ≡ [] }
        requires stays { StaysBy (side_of call) (wait_of call) }
        requires opened { opened ≡ opened_by (state_in self.old) moment key call }
        requires copy { copy ≡ call }
        requires room { CanListOneMore self.old }
        ensures ready { IsWhole self.new }
        ensures ok { IfOk result (Arrives self.old self.new moment key call) }
        ensures err { OnErr result (IsAsBefore self.old self.new) }
    {
        let alloc = self.allocator();
        let put = self
            .table
            .park(&mut self.clients, opened, &key, call, &copy)?;
        settle_put(&mut self.clients, put);
        let act = Act::Arrive { key, call: copy };
        Ok(self.record(moment, act, Partners::none(alloc)))
    }
}
