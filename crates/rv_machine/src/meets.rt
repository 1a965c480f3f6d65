//! Requests that meet one that was there.
ghost use Rattle.std.specs.Prelude.{◌≡◌, ◌<◌, [], None, Some, IfOk, IsSome, OnErr, length, option_map};
ghost use Rattle.std.specs.Prelude.{vec_capacity};
ghost use Rattle.std.specs.FinMap.{get};
ghost use Rattle.rv_text.specs.Calls.{drains_of, item_of, side_of};
ghost use Rattle.rv_machine.specs.Arriving.{Arrives, IsAsBefore, MayArrive};
ghost use Rattle.rv_machine.specs.Machines.{IsWhole};
ghost use Rattle.rv_machine.specs.open_places.OpenMap.{opposed_in};
ghost use Rattle.rv_account.specs.state.After.{receipt_of};
ghost use Rattle.rv_machine.specs.Telling.{TellsOne, TellsWaiter, told_arriving, told_on_side};

use crate::open_places::MetPlace;
use crate::stays::copy_item;
use crate::tables::Holdings;
use rv_account::{Act, Entry, Partners};
use rv_session::{Duty, OpenPlace, Place, Waiter};
use rv_text::{Call, Item, Key, NoMemory, Reply, Side, Version, Wait};
use std::alloc::Global;

/// The reply of a giver whose item was taken by the request with a key.
pub(crate) fn receipt(version: Version, taker: Option<Key>) -> Reply
    requires { IsSome (receipt_of version taker) }
    ensures { receipt_of version taker ≡ Some result }
{
    match version {
        Version::One => Reply::Received,
        Version::Two => Reply::ReceivedBy(taker.unwrap()),
    }
}

// The reply of one that meets, by its side and its session's version.
fn met(side: Side, version: Version, other: Option<Key>, gets: Option<Item>) -> Reply
    requires gives { IsSome (told_on_side side version other gets) }
    ensures { told_on_side side version other gets ≡ Some result }
{
    match side {
        Side::Gives(_) => receipt(version, other),
        Side::Takes(_) => Reply::Item(gets.unwrap()),
        Side::Exchanges(_) => Reply::Swapped(gets.unwrap()),
        Side::Looks(_) => unreachable!(),
    }
}

// The key of the request that waits, if one does.
fn key_of(waiter: Option<Waiter>) -> Option<Key>
    ensures { result ≡ option_map (λ w. w.key) waiter }
{
    Some(waiter?.key)
}

// The reply of an arrival that met one, by its wait: a put is done.
fn arriving(
    wait: Option<Wait>,
    side: Side,
    version: Version,
    other: Option<Key>,
    gets: Option<Item>,
) -> Reply
    requires { IsSome (told_arriving wait side version other gets) }
    ensures { told_arriving wait side version other gets ≡ Some result }
{
    match wait {
        None => Reply::Done,
        Some(_) => met(side, version, other, gets),
    }
}

// What a request that meets one needs: a copy of its call, one of its item if it hands one over, and room to
// name its partner. Fails only if memory was refused.
fn growths(alloc: Global, call: &Call) -> Result<(Call, Option<Item>, Vec<Place>), NoMemory>
    ensures copy { IfOk result (λ made. made.0 ≡ call.now) }
    ensures gift { IfOk result (λ made. made.1 ≡ item_of call.now) }
    ensures none { IfOk result (λ made. made.2.items ≡ []) }
    ensures room { IfOk result (λ made. 0 < vec_capacity made.2) }
{
    let places = Vec::with_capacity(alloc, 1)?;
    let gift = copy_item(alloc, call)?;
    Ok((call.copy(alloc)?, gift, places))
}

impl Holdings {
    /// A request meets the oldest that it can meet; there must be one. Fails only if memory was refused, and
    /// then the state stays.
    pub(crate) fn meet(&mut self, moment: u64, key: Key, call: Call) -> Result<Entry, NoMemory>
        requires may { MayArrive self.old moment key call }
        requires some { 0 < length (opposed_in self.old.table (side_of call)) }
        requires one { drains_of call ≡ None }
        ensures ready { IsWhole self.new }
        ensures ok { IfOk result (Arrives self.old self.new moment key call) }
        ensures err { OnErr result (IsAsBefore self.old self.new) }
    {
        let (copy, gift, places) = growths(self.allocator(), &call)?;
        Ok(self.meet_now(moment, key, call, copy, gift, places))
    }

    // The same, with all growths made.
    fn meet_now(
        &mut self,
        moment: u64,
        key: Key,
        call: Call,
        copy: Call,
        gift: Option<Item>,
        mut places: Vec<Place>,
    ) -> Entry
        requires may { MayArrive self.old moment key call }
        requires some { 0 < length (opposed_in self.old.table (side_of call)) }
        requires one { drains_of call ≡ None }
        requires copy { copy ≡ call }
        requires gift { gift ≡ item_of call }
        requires none { places.items ≡ [] }
        requires room { 0 < vec_capacity places }
        ensures ready { IsWhole self.new }
        ensures arrives { Arrives self.old self.new moment key call result }
    {
        let (duty, version) = self.clients.begin(&key, self.length, call);
        let MetPlace { there, own, other } = self.table.meet(&copy, duty);
        places.push_reserved(there.place);
        let OpenPlace {
            place: _,
            side,
            item,
            limit: _,
            waiter,
        } = there;
        self.tell(other, waiter, side, key, gift);
        let taker = key_of(waiter);
        let reply = arriving(copy.wait(), copy.side(), version, taker, item);
        self.clients.settle(own, reply);
        let act = Act::Arrive { key, call: copy };
        self.record(moment, act, Partners::from_vec(places))
    }

    /// The version of a client's session.
    pub(crate) fn version_of(&self, client: u64) -> Version
        requires { IsSome (get self.now.clients.clients client) }
        ensures { option_map (λ c. c.version) (get self.now.clients.clients client) ≡ Some result }
    {
        self.clients.get(client).unwrap().version
    }

    // Settles the request that waited at a place, if one did: a key's request met it. Lists its own key.
    fn tell(
        &mut self,
        duty: Option<Duty>,
        waiter: Option<Waiter>,
        side: Side,
        key: Key,
        gift: Option<Item>,
    )
        requires waits { TellsWaiter self.old duty waiter side key gift }
        ensures { TellsOne self.old self.new duty waiter side key gift }
    {
        if let Some(duty) = duty {
            let waiter = waiter.unwrap();
            self.settled.push_reserved(waiter.key);
            let version = self.version_of(waiter.key.client);
            self.clients
                .settle(duty, met(side, version, Some(key), gift));
        }
    }
}
