//! The queues: all that wait in each, the oldest first.
ghost use Rattle.std.specs.Prelude.{◌≡◌, ◌<◌, [], None, Some, OnOk, OnErr, IfOk, length, slice_get};
ghost use Rattle.rv_text.specs.Limits.{FitsQueue};
ghost use Rattle.rv_dual.specs.Above.{first_above};
ghost use Rattle.rv_dual.specs.Offers.{duty_of, offer_of, place_of, places_of, takers_places};
ghost use Rattle.rv_dual.specs.Meanings.{ParksGiver, ParksTaker, TakenFront};
ghost use Rattle.rv_dual.specs.Queue.{IsAbove};
ghost use Rattle.rv_dual.specs.Withdrawing.{Withdraws};
ghost use Rattle.rv_model_queues.specs.Meeting.{Gave, GrowsGivers, GrowsTakers, HasRoomToGive, HasRoomToTake};
ghost use Rattle.rv_model_queues.specs.Meeting.{Took};
ghost use Rattle.rv_model_queues.specs.Views.{AllEmpty, OnlyQueue, queue_at};

use crate::outcome::Arrived;
use rv_account::lasts;
use rv_dual::{Dual, DualOutcome, Giver, Pair, TryOutcome};
use rv_session::{Duty, Place};
use rv_text::{MAX_QUEUE, NoMemory, Wait};
use std::alloc::Global;
use std::marker::Model;

// A put arrives: its duty comes back, whether a consumer waits or not.
fn put(queue: &mut Dual, duty: Duty) -> Arrived
    requires room { queue.old.takers ≡ [] → 0 < queue.old.giver_room.spare }
    requires above { IsAbove queue.old duty.place }
    ensures { Gave queue.old queue.new None duty result }
{
    match queue.give(Giver::Put(duty.place())) {
        DualOutcome::Met(pair) => {
            let (giver, taker, _) = pair.part();
            let own = match giver {
                None => duty,
                Some(_giver) => unreachable!(),
            };
            Arrived::met(taker.place(), Some(own), Some(taker))
        }
        DualOutcome::Parked => Arrived::alone(Some(duty)),
    }
}

// What became of a giver that met a consumer.
fn gave(pair: Pair) -> Arrived
    ensures { result ≡ record {
      partner = Some pair.taker.place;
      own = duty_of pair.giver;
      other = Some pair.taker;
    } }
{
    let (own, taker, _) = pair.part();
    Arrived::met(taker.place(), own, Some(taker))
}

// What became of a taker that met a giver.
fn took(pair: Pair) -> Arrived
    ensures { result ≡ record {
      partner = Some (place_of pair.giver);
      own = Some pair.taker;
      other = duty_of pair.giver;
    } }
{
    let (other, own, place) = pair.part();
    Arrived::met(place, Some(own), other)
}

// A request that gives arrives: if no consumer is there it waits, or goes.
fn transfer(queue: &mut Dual, wait: Wait, duty: Duty) -> Arrived
    requires room { HasRoomToGive queue.old (Some wait) }
    requires above { IsAbove queue.old duty.place }
    ensures { Gave queue.old queue.new (Some wait) duty result }
{
    if lasts(wait) {
        match queue.give(Giver::Waits(duty)) {
            DualOutcome::Met(pair) => gave(pair),
            DualOutcome::Parked => Arrived::alone(None),
        }
    } else {
        match queue.try_give(duty) {
            TryOutcome::Met(pair) => gave(pair),
            TryOutcome::Alone(duty) => Arrived::alone(Some(duty)),
        }
    }
}

// A giver arrives, a put or a request.
fn give(queue: &mut Dual, wait: Option<Wait>, duty: Duty) -> Arrived
    requires room { HasRoomToGive queue.old wait }
    requires above { IsAbove queue.old duty.place }
    ensures { Gave queue.old queue.new wait duty result }
{
    match wait {
        None => put(queue, duty),
        Some(wait) => transfer(queue, wait, duty),
    }
}

// A taker arrives: if no item is there it waits, or goes.
fn receive(queue: &mut Dual, wait: Wait, duty: Duty) -> Arrived
    requires room { HasRoomToTake queue.old (Some wait) }
    requires above { IsAbove queue.old duty.place }
    ensures { Took queue.old queue.new (Some wait) duty result }
{
    if lasts(wait) {
        match queue.take(duty) {
            DualOutcome::Met(pair) => took(pair),
            DualOutcome::Parked => Arrived::alone(None),
        }
    } else {
        match queue.try_take(duty) {
            TryOutcome::Met(pair) => took(pair),
            TryOutcome::Alone(duty) => Arrived::alone(Some(duty)),
        }
    }
}

// Adds an item after the others, where no consumer waits.
fn lay_giver(queue: &mut Dual, giver: Giver)
    requires nobody { queue.old.takers ≡ [] }
    requires room { 0 < queue.old.giver_room.spare }
    requires above { IsAbove queue.old (place_of (offer_of giver)) }
    ensures { ParksGiver queue.old queue.new (offer_of giver) }
{
    match queue.give(giver) {
        DualOutcome::Met(_pair) => unreachable!(),
        DualOutcome::Parked => {}
    }
}

// Adds a consumer after the others, where no item waits.
fn lay_taker(queue: &mut Dual, duty: Duty)
    requires nobody { queue.old.givers ≡ [] }
    requires room { 0 < queue.old.taker_room.spare }
    requires above { IsAbove queue.old duty.place }
    ensures { ParksTaker queue.old queue.new duty }
{
    match queue.take(duty) {
        DualOutcome::Met(_pair) => unreachable!(),
        DualOutcome::Parked => {}
    }
}

/// All queues, by their numbers.
#[derive(Drop)]
pub(crate) struct Queues {
    queues: Vec<Dual>,
}

impl Model for Queues {
    ghost use Rattle.rv_dual.specs.Queue.{Queue};
    ghost use Rattle.std.specs.Prelude.{◌≡◌, List, length};

    ghost Value = { List Queue };

    ghost view = { λ q. q.queues.items };

    ghost invariant = { λ q. length q.queues.items ≡ 64 };
}

impl Queues {
    /// 64 empty queues.
    pub(crate) fn empty(alloc: Global) -> Result<Queues, NoMemory>
        ensures { IfOk result AllEmpty }
    {
        let count = MAX_QUEUE as usize + 1;
        let mut queues = Vec::new(alloc);
        for _ in 0..count {
            queues.push(Dual::new(alloc))?;
        }
        Ok(Queues { queues })
    }

    /// The place of the oldest item of a queue.
    pub(crate) fn front(&self, queue: u64) -> Option<Place>
        requires { FitsQueue queue }
        ensures { result ≡ slice_get (places_of (queue_at self.now queue).givers) 0 }
    {
        self.queues[queue as usize].front()
    }

    /// The place of a queue's first item above another place, or of its oldest.
    pub(crate) fn giver_behind(&self, queue: u64, after: Option<Place>) -> Option<Place>
        requires { FitsQueue queue }
        ensures { result ≡ first_above after (places_of (queue_at self.now queue).givers) }
    {
        self.queues[queue as usize].giver_behind(after)
    }

    /// The place of a queue's first consumer above another place, or of its oldest.
    pub(crate) fn taker_behind(&self, queue: u64, after: Option<Place>) -> Option<Place>
        requires { FitsQueue queue }
        ensures { result ≡ first_above after (takers_places (queue_at self.now queue).takers) }
    {
        self.queues[queue as usize].taker_behind(after)
    }

    /// How many items and how many consumers wait in a queue.
    pub(crate) fn count(&self, queue: u64) -> (usize, usize)
        requires { FitsQueue queue }
        ensures items { result.0 ≡ length (queue_at self.now queue).givers }
        ensures consumers { result.1 ≡ length (queue_at self.now queue).takers }
    {
        let dual = &self.queues[queue as usize];
        (dual.items(), dual.consumers())
    }

    /// Makes room for one more item in a queue. All that wait stay, even if memory is refused.
    pub(crate) fn reserve_giver(&mut self, queue: u64) -> Result<(), NoMemory>
        requires { FitsQueue queue }
        ensures makes { GrowsGivers (queue_at self.old queue) (queue_at self.new queue) }
        ensures others { OnlyQueue queue self.old self.new }
        ensures room { OnOk result (0 < (queue_at self.new queue).giver_room.spare) }
        ensures full { OnErr result ((queue_at self.old queue).giver_room.spare ≡ 0) }
    {
        self.queues[queue as usize].reserve_giver()
    }

    /// Makes room for one more consumer in a queue, as `reserve_giver` does for an item.
    pub(crate) fn reserve_taker(&mut self, queue: u64) -> Result<(), NoMemory>
        requires { FitsQueue queue }
        ensures makes { GrowsTakers (queue_at self.old queue) (queue_at self.new queue) }
        ensures others { OnlyQueue queue self.old self.new }
        ensures room { OnOk result (0 < (queue_at self.new queue).taker_room.spare) }
        ensures full { OnErr result ((queue_at self.old queue).taker_room.spare ≡ 0) }
    {
        self.queues[queue as usize].reserve_taker()
    }

    /// A giver meets the queue's oldest consumer, which leaves. If there is none, it waits last, if its wait
    /// lasts.
    pub(crate) fn give(&mut self, queue: u64, wait: Option<Wait>, duty: Duty) -> Arrived
        requires fits { FitsQueue queue }
        requires room { HasRoomToGive (queue_at self.old queue) wait }
        requires above { IsAbove (queue_at self.old queue) duty.place }
        ensures gave { Gave (queue_at self.old queue) (queue_at self.new queue) wait duty result }
        ensures others { OnlyQueue queue self.old self.new }
    {
        give(&mut self.queues[queue as usize], wait, duty)
    }

    /// A taker meets the queue's oldest item, which leaves. If there is none, it waits last, if its wait
    /// lasts.
    pub(crate) fn receive(&mut self, queue: u64, wait: Wait, duty: Duty) -> Arrived
        requires fits { FitsQueue queue }
        requires room { HasRoomToTake (queue_at self.old queue) (Some wait) }
        requires above { IsAbove (queue_at self.old queue) duty.place }
        ensures took { Took (queue_at self.old queue) (queue_at self.new queue) (Some wait) duty result }
        ensures others { OnlyQueue queue self.old self.new }
    {
        receive(&mut self.queues[queue as usize], wait, duty)
    }

    /// Adds an item at the end of a queue in which no consumer waits.
    pub(crate) fn lay_giver(&mut self, queue: u64, giver: Giver)
        requires fits { FitsQueue queue }
        requires nobody { (queue_at self.old queue).takers ≡ [] }
        requires room { 0 < (queue_at self.old queue).giver_room.spare }
        requires above { IsAbove (queue_at self.old queue) (place_of (offer_of giver)) }
        ensures laid { ParksGiver (queue_at self.old queue) (queue_at self.new queue) (offer_of giver) }
        ensures others { OnlyQueue queue self.old self.new }
    {
        lay_giver(&mut self.queues[queue as usize], giver)
    }

    /// Adds a consumer at the end of a queue in which no item waits.
    pub(crate) fn lay_taker(&mut self, queue: u64, duty: Duty)
        requires fits { FitsQueue queue }
        requires nobody { (queue_at self.old queue).givers ≡ [] }
        requires room { 0 < (queue_at self.old queue).taker_room.spare }
        requires above { IsAbove (queue_at self.old queue) duty.place }
        ensures laid { ParksTaker (queue_at self.old queue) (queue_at self.new queue) duty }
        ensures others { OnlyQueue queue self.old self.new }
    {
        lay_taker(&mut self.queues[queue as usize], duty)
    }

    /// A queue's oldest item, if there is one, leaves it: its duty, None for a put's, and its place come out.
    pub(crate) fn take_front(&mut self, queue: u64) -> Option<(Option<Duty>, Place)>
        requires { FitsQueue queue }
        ensures front { TakenFront (queue_at self.old queue) (queue_at self.new queue) result }
        ensures others { OnlyQueue queue self.old self.new }
    {
        self.queues[queue as usize].take_front()
    }

    /// The request that waits at a place in a queue leaves it, and gives its duty back.
    pub(crate) fn withdraw(&mut self, queue: u64, place: Place) -> Option<Duty>
        requires { FitsQueue queue }
        ensures withdrew { Withdraws (queue_at self.old queue) (queue_at self.new queue) place result }
        ensures others { OnlyQueue queue self.old self.new }
    {
        self.queues[queue as usize].withdraw(place)
    }
}
