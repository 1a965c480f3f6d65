//! The queues and the exchangers, in which requests wait for each other, by the side of a call.
ghost use Rattle.std.specs.Prelude.{◌≡◌, ◌↔◌, ◌<◌, OnOk, OnErr, IfOk, IsTrue, length, slice_get};
ghost use Rattle.rv_text.specs.Calls.{side_of, wait_of};
ghost use Rattle.rv_text.specs.Limits.{FitsQueue, FitsSide};
ghost use Rattle.rv_text.specs.declared.call.Side.TheVariants.{Gives, Takes};
ghost use Rattle.rv_account.specs.Calls.{opposite};
ghost use Rattle.rv_dual.specs.Above.{first_above};
ghost use Rattle.rv_dual.specs.Offers.{offer_of};
ghost use Rattle.rv_model_queues.specs.Laying.{LaidOn, MayWaitBy, offer_with};
ghost use Rattle.rv_model_queues.specs.Meeting.{ArrivedOn, FindsNobody, HasRoomOn, LacksRoomOn, MakesRoomFor};
ghost use Rattle.rv_model_queues.specs.Meeting.{MakesRoomOn, StaysAlone, TakenFor, Withdrew, opposed_by};
ghost use Rattle.rv_model_queues.specs.Meeting.{room_on};
ghost use Rattle.rv_model_queues.specs.Views.{AreBelow, NobodyWaits, waiting_on};

use crate::exchangers::Exchangers;
use crate::outcome::Arrived;
use crate::queues::Queues;
use rv_account::lasts;
use rv_dual::Giver;
use rv_session::{Duty, Place};
use rv_text::{Call, NoMemory, Side};
use std::alloc::Global;
use std::marker::Model;

// Who lies in a queue at a place: a put's item, or a request's with its duty.
fn giver_of(place: Place, duty: Option<Duty>) -> Giver
    ensures { offer_of result ≡ offer_with place duty }
{
    match duty {
        None => Giver::Put(place),
        Some(duty) => Giver::Waits(duty),
    }
}

/// All that wait, in 64 queues and at 64 exchangers, numbered from 0: in a queue items or consumers, the
/// oldest first, and at an exchanger one request at most. Each waits by the place at which it arrived: a
/// request with the duty to settle it, a put with none. Contracts see the places that wait on each side, and
/// that the parked duties are the owed ones, for any function that says which are owed.
#[derive(Drop)]
pub struct WaitQueues {
    queues: Queues,
    exchangers: Exchangers,
}

impl Model for WaitQueues {
    ghost use Rattle.rv_model_queues.specs.Views as views;

    ghost Value = { views.WaitQueues };

    ghost view = { λ s. record { queues = s.queues; exchangers = s.exchangers } };
}

impl WaitQueues {
    /// Empty queues and exchangers. Fails only if memory is refused.
    pub fn empty(alloc: Global) -> Result<WaitQueues, NoMemory>
        ensures { IfOk result NobodyWaits }
    {
        let queues = Queues::empty(alloc)?;
        let exchangers = Exchangers::empty(alloc)?;
        Ok(WaitQueues { queues, exchangers })
    }

    /// The place of the oldest item of a queue from 0 to 63, or None where no item waits.
    pub fn front(&self, queue: u64) -> Option<Place>
        requires { FitsQueue queue }
        ensures { result ≡ slice_get (waiting_on self.now (Gives queue)) 0 }
    {
        self.queues.front(queue)
    }

    /// The first place that waits on a side above another place, or the oldest there; nothing waits on a side
    /// that looks.
    pub fn behind(&self, side: Side, after: Option<Place>) -> Option<Place>
        requires { FitsSide side }
        ensures { result ≡ first_above after (waiting_on self.now side) }
    {
        match side {
            Side::Gives(queue) => self.queues.giver_behind(queue, after),
            Side::Takes(queue) => self.queues.taker_behind(queue, after),
            Side::Looks(_) => None,
            Side::Exchanges(exchanger) => self.exchangers.behind(exchanger, after),
        }
    }

    /// How many items and how many consumers wait in a queue from 0 to 63.
    pub fn count(&self, queue: u64) -> (usize, usize)
        requires { FitsQueue queue }
        ensures items { result.0 ≡ length (waiting_on self.now (Gives queue)) }
        ensures consumers { result.1 ≡ length (waiting_on self.now (Takes queue)) }
    {
        self.queues.count(queue)
    }

    /// How many wait that an arrival of this side can meet; none if it looks.
    pub fn opposed(&self, side: Side) -> usize
        requires { FitsSide side }
        ensures { result ≡ opposed_by self.now (opposite side) }
    {
        match side {
            Side::Gives(queue) => self.count(queue).1,
            Side::Takes(queue) => self.count(queue).0,
            Side::Looks(_) => 0,
            Side::Exchanges(exchanger) => self.exchangers.count(exchanger),
        }
    }

    // Whether an arrival with this call stays, and meets nobody.
    fn parks(&self, call: &Call) -> bool
        requires { FitsSide (side_of call.now) }
        ensures { IsTrue result ↔ StaysAlone self.now (side_of call.now) (wait_of call.now) }
    {
        call.wait().is_none_or(|wait| lasts(wait)) && self.opposed(call.side()) == 0
    }

    /// Makes room for one more on a side. Fails only if no room was left there and memory was refused. Either
    /// way all that wait stay, and so does the room that was there. An exchanger has its own.
    pub fn reserve_on(&mut self, side: Side) -> Result<(), NoMemory>
        requires { FitsSide side }
        ensures makes { MakesRoomOn self.old self.new side }
        ensures room { OnOk result (0 < (room_on self.new side).spare) }
        ensures full { OnErr result ((room_on self.old side).spare ≡ 0) }
    {
        match side {
            Side::Gives(queue) => self.queues.reserve_giver(queue),
            Side::Takes(queue) => self.queues.reserve_taker(queue),
            Side::Looks(_) | Side::Exchanges(_) => Ok(()),
        }
    }

    /// Makes room for an arrival that parks in a queue, on its own side; for any other nothing changes. Fails
    /// only if it parks, no room was left there and memory was refused. Either way all that wait stay.
    pub fn reserve(&mut self, call: &Call) -> Result<(), NoMemory>
        requires { FitsSide (side_of call.now) }
        ensures makes { MakesRoomFor self.old self.new (side_of call.now) (wait_of call.now) }
        ensures room { OnOk result (HasRoomOn self.new (side_of call.now) (wait_of call.now)) }
        ensures full { OnErr result (LacksRoomOn self.old (side_of call.now) (wait_of call.now)) }
    {
        if !self.parks(call) {
            return Ok(());
        }
        self.reserve_on(call.side())
    }

    /// Adds one that waited before as the last of its side: a request with its duty, a put's item with none.
    /// None may wait on the other side, its place must be above those of all that wait, and its side must
    /// have room. All others stay.
    pub fn lay(&mut self, side: Side, place: Place, duty: Option<Duty>)
        requires fits { FitsSide side }
        requires owed { MayWaitBy side place duty }
        requires nobody { FindsNobody self.old side }
        requires room { 0 < (room_on self.old side).spare }
        requires above { AreBelow self.old place }
        ensures { LaidOn self.old self.new side place duty }
    {
        match side {
            Side::Gives(queue) => self.queues.lay_giver(queue, giver_of(place, duty)),
            Side::Takes(queue) => self.queues.lay_taker(queue, duty.unwrap()),
            Side::Looks(_) => unreachable!(),
            Side::Exchanges(exchanger) => self.exchangers.lay(exchanger, duty.unwrap()),
        }
    }

    /// A request meets the oldest of the other side, which leaves. If there is none, it waits last, if its
    /// wait lasts; otherwise it goes, and all that wait stay. Its place must be above theirs, and its side
    /// must have room if it parks.
    pub fn arrive(&mut self, call: &Call, duty: Duty) -> Arrived
        requires fits { FitsSide (side_of call.now) }
        requires room { HasRoomOn self.old (side_of call.now) (wait_of call.now) }
        requires above { AreBelow self.old duty.place }
        ensures { ArrivedOn self.old self.new (side_of call.now) (wait_of call.now) duty result }
    {
        match call.side() {
            Side::Gives(queue) => self.queues.give(queue, call.wait(), duty),
            Side::Takes(queue) => self.queues.receive(queue, call.wait().unwrap(), duty),
            Side::Looks(_) => Arrived::alone(Some(duty)),
            Side::Exchanges(exchanger) => {
                self.exchangers
                    .exchange(exchanger, call.wait().unwrap(), duty)
            }
        }
    }

    /// The oldest item that a side takes leaves, if there is one. Returns its duty (None for a put's) and its
    /// place. All others stay, in their order.
    pub fn take_front(&mut self, side: Side) -> Option<(Option<Duty>, Place)>
        requires { FitsSide side }
        ensures { TakenFor self.old self.new side result }
    {
        match side {
            Side::Takes(queue) => self.queues.take_front(queue),
            Side::Gives(_) | Side::Looks(_) | Side::Exchanges(_) => None,
        }
    }

    /// The request that waits at a place on this side leaves it, and gives its duty back. All others stay, in
    /// their order.
    pub fn withdraw(&mut self, side: Side, place: Place) -> Option<Duty>
        requires { FitsSide side }
        ensures { Withdrew self.old self.new side place result }
    {
        match side {
            Side::Gives(queue) => self.queues.withdraw(queue, place),
            Side::Takes(queue) => self.queues.withdraw(queue, place),
            Side::Looks(_) => None,
            Side::Exchanges(exchanger) => self.exchangers.withdraw(exchanger, place),
        }
    }
}
