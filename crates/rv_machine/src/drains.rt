//! Arrivals that drain a queue.
ghost use Rattle.std.specs.Prelude.{◌≡◌, ◌<◌, ◌≤◌, ◌++◌, ◌∷◌, [], None, Some, IfOk, IsSome, OnErr, length};
ghost use Rattle.std.specs.Prelude.{unwrap_or, vec_capacity, vec_len};
ghost use Rattle.rv_text.specs.Calls.{drains_of, side_of};
ghost use Rattle.rv_text.specs.Limits.{FitsCall, FitsQueue};
ghost use Rattle.rv_text.specs.declared.call.Side.TheVariants.{Gives, Takes};
ghost use Rattle.rv_machine.specs.Arriving.{Arrives, IsAsBefore, MayArrive};
ghost use Rattle.rv_machine.specs.Machines.{IsWhole};
ghost use Rattle.rv_machine.specs.open_places.OpenMap.{line_in};
ghost use Rattle.rv_machine.specs.Taking.{TakesAll, TakesOne};

use crate::meets::receipt;
use crate::tables::Holdings;
use rv_account::{Act, Entry, Partners};
use rv_session::{OpenPlace, Place};
use rv_text::{Call, Item, Items, Key, NoMemory, Reply};
use std::alloc::Global;

// The queue that a call drains.
fn drained_queue(call: &Call) -> u64
    requires drains { IsSome (drains_of call.now) }
    requires fits { FitsCall call.now }
    ensures side { side_of call.now ≡ Takes result }
    ensures fits { FitsQueue result }
{
    match call {
        Call::Drain { queue, .. } => *queue,
        Call::Put { .. } => unreachable!(),
        Call::Transfer { .. } => unreachable!(),
        Call::Take { .. } => unreachable!(),
        Call::Swap { .. } => unreachable!(),
        Call::Count { .. } => unreachable!(),
        Call::Peek { .. } => unreachable!(),
    }
}

// What a drain of so many items needs: a copy of its call, and room for the items and their places. Fails
// only if memory was refused.
fn growths(
    alloc: Global,
    call: &Call,
    most: usize,
) -> Result<(Call, Vec<Item>, Vec<Place>), NoMemory>
    ensures copy { IfOk result (λ made. made.0 ≡ call.now) }
    ensures no_items { IfOk result (λ made. made.1.items ≡ []) }
    ensures no_places { IfOk result (λ made. made.2.items ≡ []) }
    ensures items_room { IfOk result (λ made. most ≤ vec_capacity made.1) }
    ensures places_room { IfOk result (λ made. most ≤ vec_capacity made.2) }
{
    let places = Vec::with_capacity(alloc, most)?;
    let items = Vec::with_capacity(alloc, most)?;
    Ok((call.copy(alloc)?, items, places))
}

// Lists what was taken, for which there is room.
fn list(there: OpenPlace, items: &mut Vec<Item>, places: &mut Vec<Place>)
    requires has { IsSome there.item }
    requires items { vec_len items.old < vec_capacity items.old }
    requires places { vec_len places.old < vec_capacity places.old }
    ensures items { items.new.items ≡ items.old.items ++ unwrap_or there.item [] ∷ [] }
    ensures places { places.new.items ≡ places.old.items ++ there.place ∷ [] }
    ensures items_room { vec_capacity items.new ≡ vec_capacity items.old }
    ensures places_room { vec_capacity places.new ≡ vec_capacity places.old }
{
    items.push_reserved(there.item.unwrap());
    places.push_reserved(there.place);
}

impl Holdings {
    /// Records an arrival that drains a queue of at most so many of its oldest items, and gives its entry.
    /// Fails only if memory was refused, and then nothing changes.
    pub(crate) fn drain(
        &mut self,
        moment: u64,
        key: Key,
        call: Call,
        max: u64,
    ) -> Result<Entry, NoMemory>
        requires may { MayArrive self.old moment key call }
        requires drains { drains_of call ≡ Some max }
        ensures arrives { IfOk result (λ made. Arrives self.old self.new moment key call made) }
        ensures same { OnErr result (IsAsBefore self.old self.new) }
        ensures ready { IsWhole self.new }
    {
        let queue = drained_queue(&call);
        let most = self.table.count(queue).0.min(max as usize);
        let (copy, mut items, mut places) = growths(self.allocator(), &call, most)?;
        self.take_items(queue, key, most, &mut items, &mut places);
        let reply = Reply::Drained(Items::from_vec(items));
        self.clients.conclude(&key, call, reply);
        let act = Act::Arrive { key, call: copy };
        Ok(self.record(moment, act, Partners::from_vec(places)))
    }

    // Takes so many of a queue's oldest items for the request of this key, which there must be, one a pass,
    // and lists them where there is room for them.
    fn take_items(
        &mut self,
        queue: u64,
        taker: Key,
        count: usize,
        items: &mut Vec<Item>,
        places: &mut Vec<Place>,
    )
        requires ready { IsWhole self.old }
        requires fits { FitsQueue queue }
        requires some { count ≤ length (line_in self.old.table (Gives queue)) }
        requires no_items { items.old.items ≡ [] }
        requires no_places { places.old.items ≡ [] }
        requires items_room { count ≤ vec_capacity items.old }
        requires places_room { count ≤ vec_capacity places.old }
        ensures ready { IsWhole self.new }
        ensures takes { TakesAll self.old self.new queue taker count items.new.items places.new.items }
    {
        for _taken in 0..count {
            list(self.take_item(queue, taker), items, places);
        }
    }

    // Takes the oldest item of a queue, which there must be, for the request with this key. The request that
    // waited with it gets its reply.
    fn take_item(&mut self, queue: u64, taker: Key) -> OpenPlace
        requires ready { IsWhole self.old }
        requires fits { FitsQueue queue }
        requires some { 0 < length (line_in self.old.table (Gives queue)) }
        ensures ready { IsWhole self.new }
        ensures takes { TakesOne self.old self.new queue taker result }
    {
        let (there, duty) = self.table.take_front(queue).unwrap();
        match duty {
            Some(duty) => {
                let key = there.waiter.unwrap().key;
                let reply = receipt(self.version_of(key.client), Some(taker));
                self.settled.push_reserved(key);
                self.clients.settle(duty, reply);
                there
            }
            None => there,
        }
    }
}
