//! The queue of one side at a time.
ghost use Rattle.std.specs.Prelude.{◌≡◌, ◌<◌, [], OnErr, OnOk, IfSome, IfNone, length, slice_get};
ghost use Rattle.rv_dual.specs.Offers.{place_of, waits_at, is_at};
ghost use Rattle.rv_dual.specs.Withdrawing.{GivesAt, TakesAt, without_giver, without_taker};
ghost use Rattle.rv_dual.specs.Entries.{PassesNowhere};
ghost use Rattle.rv_dual.specs.Room.{KeepsRoom};

use crate::giver::{Giver, Offer};
use crate::line::SlotLine;
use crate::pair::{DualOutcome, Pair, TryOutcome};
use rv_session::{Duty, Parked, Place};
use rv_text::NoMemory;
use std::alloc::Global;
use std::marker::Model;

/// A dual queue: the items that wait for consumers, or the consumers that wait for items, the oldest first.
/// It never holds both. Contracts see both lists, of which one is empty, and the room of each: for how many
/// more, and for how many in all. Only [`reserve`](Dual::reserve) and its two halves take memory, and nothing
/// gives it back.
///
/// Places arrive in rising order, so a place occurs at most once. [`withdraw`](Dual::withdraw) finds it in
/// time logarithmic in the slots between the oldest that waits and the newest, of which at most half were
/// left by a withdrawal. [`giver_behind`](Dual::giver_behind) and [`taker_behind`](Dual::taker_behind) take
/// the same time, and pass over such slots: over each one once in a walk of a line. Everything else takes
/// constant time, on average over the calls so far.
#[derive(Drop)]
pub struct Dual {
    givers: SlotLine<Offer>,
    takers: SlotLine<Parked>,
}

impl Model for Dual {
    ghost use Rattle.rv_dual.specs.Queue.{Queue, IsDual};

    ghost Value = { Queue };

    ghost view = { λ d. record {
      givers = d.givers.waiting;
      takers = d.takers.waiting;
      giver_room = d.givers.room;
      taker_room = d.takers.room;
    } };

    ghost invariant = { λ d. IsDual d.givers.waiting d.takers.waiting };
}

// Takes out the item with which the request at a place waits, and gives that request's duty.
fn withdraw_giver(givers: &mut SlotLine<Offer>, place: Place) -> Option<Duty>
    ensures some { IfSome result (GivesAt givers.old.waiting place) }
    ensures none { IfNone result (PassesNowhere (waits_at place) givers.old.waiting) }
    ensures same { IfNone result (givers.new ≡ givers.old) }
    ensures rest { givers.new.waiting ≡ without_giver place givers.old.waiting }
    ensures room { KeepsRoom givers.old.room givers.new.room }
{
    givers.withdraw(place)?.duty()
}

// Takes out the consumer at a place, and gives its duty.
fn withdraw_taker(takers: &mut SlotLine<Parked>, place: Place) -> Option<Duty>
    ensures some { IfSome result (TakesAt takers.old.waiting place) }
    ensures none { IfNone result (PassesNowhere (is_at place) takers.old.waiting) }
    ensures same { IfNone result (takers.new ≡ takers.old) }
    ensures rest { takers.new.waiting ≡ without_taker place takers.old.waiting }
    ensures room { KeepsRoom takers.old.room takers.new.room }
{
    Some(takers.withdraw(place)?.wake())
}

impl Dual {
    ghost use Rattle.rv_dual.specs.Above.{first_above};
    ghost use Rattle.rv_dual.specs.Offers.{offer_of, places_of, takers_places};
    ghost use Rattle.rv_dual.specs.Queue.{GrowRooms, HasRooms, IsQueue, IsAbove, SameLists};
    ghost use Rattle.rv_dual.specs.Room.{GrowsRoom};
    ghost use Rattle.rv_dual.specs.Meanings.{GiveMeans, TakeMeans, TakenFront, TriedGive, TriedTake};
    ghost use Rattle.rv_dual.specs.Withdrawing.{Withdraws};

    /// An empty queue. It takes no memory yet.
    pub fn new(alloc: Global) -> Dual
        ensures givers { result.givers ≡ [] }
        ensures takers { result.takers ≡ [] }
    {
        Dual {
            givers: SlotLine::new(alloc),
            takers: SlotLine::new(alloc),
        }
    }

    /// Makes room for one more item, so that the next giver that waits takes no memory. Fails only if no room
    /// was left and memory was refused. Either way all that wait stay, and so does the room that was there.
    pub fn reserve_giver(&mut self) -> Result<(), NoMemory>
        ensures same { SameLists self.old self.new }
        ensures takers { self.new.taker_room ≡ self.old.taker_room }
        ensures kept { GrowsRoom self.old.giver_room self.new.giver_room }
        ensures room { OnOk result (0 < self.new.giver_room.spare) }
        ensures full { OnErr result (self.old.giver_room.spare ≡ 0) }
    {
        self.givers.reserve()
    }

    /// Makes room for one more consumer, as [`reserve_giver`](Dual::reserve_giver) does for an item.
    pub fn reserve_taker(&mut self) -> Result<(), NoMemory>
        ensures same { SameLists self.old self.new }
        ensures givers { self.new.giver_room ≡ self.old.giver_room }
        ensures kept { GrowsRoom self.old.taker_room self.new.taker_room }
        ensures room { OnOk result (0 < self.new.taker_room.spare) }
        ensures full { OnErr result (self.old.taker_room.spare ≡ 0) }
    {
        self.takers.reserve()
    }

    /// Makes room for one more of each side. Fails only if one of them had none left and memory was refused.
    /// Either way all that wait stay, and so does the room that was there.
    pub fn reserve(&mut self) -> Result<(), NoMemory>
        ensures same { SameLists self.old self.new }
        ensures kept { GrowRooms self.old self.new }
        ensures room { OnOk result (HasRooms self.new) }
        ensures full { OnErr result (¬ HasRooms self.old) }
    {
        self.reserve_giver()?;
        self.reserve_taker()
    }

    /// A giver arrives. It meets the consumer that has waited longest, which leaves the queue. If no consumer
    /// waits, the giver waits after the items that are there, and there must be room for one more item. The
    /// giver's place must be above all that wait.
    pub fn give(&mut self, giver: Giver) -> DualOutcome
        requires room { self.old.takers ≡ [] → 0 < self.old.giver_room.spare }
        requires above { IsAbove self.old (place_of (offer_of giver)) }
        ensures { GiveMeans self.old self.new (offer_of giver) result }
    {
        match self.takers.pop() {
            Some(taker) => DualOutcome::Met(Pair::new(giver, taker.wake())),
            None => {
                self.givers.push(giver.park());
                DualOutcome::Parked
            }
        }
    }

    /// A taker arrives. It meets the oldest item, which leaves the queue. If no item waits, the taker waits
    /// after the consumers that are there, and there must be room for one more consumer. The taker's place
    /// must be above all that wait.
    pub fn take(&mut self, duty: Duty) -> DualOutcome
        requires room { self.old.givers ≡ [] → 0 < self.old.taker_room.spare }
        requires above { IsAbove self.old duty.place }
        ensures { TakeMeans self.old self.new duty result }
    {
        match self.givers.pop() {
            Some(offer) => DualOutcome::Met(Pair::new(offer.wake(), duty)),
            None => {
                self.takers.push(duty.park());
                DualOutcome::Parked
            }
        }
    }

    /// A giver that doesn't wait arrives: it meets the consumer that has waited longest, which leaves the
    /// queue. If there is none nothing changes, and its duty comes back.
    pub fn try_give(&mut self, giver: Duty) -> TryOutcome
        ensures { TriedGive self.old self.new giver result }
    {
        match self.takers.pop() {
            Some(taker) => TryOutcome::Met(Pair::new(Giver::Waits(giver), taker.wake())),
            None => TryOutcome::Alone(giver),
        }
    }

    /// A taker that doesn't wait arrives: it meets the oldest item, which leaves the queue. If there is none
    /// nothing changes, and its duty comes back.
    pub fn try_take(&mut self, taker: Duty) -> TryOutcome
        ensures { TriedTake self.old self.new taker result }
    {
        match self.givers.pop() {
            Some(offer) => TryOutcome::Met(Pair::new(offer.wake(), taker)),
            None => TryOutcome::Alone(taker),
        }
    }

    /// The oldest item leaves the queue. Returns its duty (None for a put's) and its place. If no item waits
    /// it is None, and nothing changes. Consumers stay.
    #[tactic(auto, using(crate::proofs::Sides::dual_after_giver))]
    pub fn take_front(&mut self) -> Option<(Option<Duty>, Place)>
        ensures { TakenFront self.old self.new result }
    {
        Some(self.givers.pop()?.wake().part())
    }

    /// The request that waits at a place leaves the queue, wherever it stands in it, and its duty comes
    /// back. If the place is a put's, or no request waits there, it is None and nothing changes.
    pub fn withdraw(&mut self, place: Place) -> Option<Duty>
        ensures { Withdraws self.old self.new place result }
    {
        match withdraw_giver(&mut self.givers, place) {
            Some(duty) => Some(duty),
            None => withdraw_taker(&mut self.takers, place),
        }
    }

    /// The place of the oldest item, if an item waits.
    pub fn front(&self) -> Option<Place>
        ensures oldest { result ≡ slice_get (places_of self.now.givers) 0 }
        ensures sound { IsQueue self.now }
    {
        self.givers.front()
    }

    /// The place of the first item above another place, or of the oldest item.
    pub fn giver_behind(&self, after: Option<Place>) -> Option<Place>
        ensures { result ≡ first_above after (places_of self.now.givers) }
    {
        self.givers.behind(after)
    }

    /// The place of the first consumer above another place, or of the oldest consumer.
    pub fn taker_behind(&self, after: Option<Place>) -> Option<Place>
        ensures { result ≡ first_above after (takers_places self.now.takers) }
    {
        self.takers.behind(after)
    }

    /// How many items wait.
    pub fn items(&self) -> usize
        ensures count { result ≡ length self.now.givers }
        ensures sound { IsQueue self.now }
    {
        self.givers.len()
    }

    /// How many consumers wait.
    pub fn consumers(&self) -> usize
        ensures count { result ≡ length self.now.takers }
        ensures sound { IsQueue self.now }
    {
        self.takers.len()
    }
}
