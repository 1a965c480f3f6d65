//! The exchanger.
ghost use Rattle.std.specs.Prelude.{◌≡◌};

use rv_session::{Duty, Parked, Place};
use std::marker::Model;

/// An exchanger, which contracts see as the duty that waits at it, if there is one: its place and the
/// client whose session waits there.
///
/// No call takes memory, and each is done in constant time.
#[derive(Drop)]
pub struct Swap {
    waiting: Option<Parked>,
}

impl Model for Swap {
    ghost use Rattle.std.specs.Prelude.{Option};
    ghost use Rattle.rv_session.specs.OwedDuty.{OwedDuty};

    ghost Value = { Option OwedDuty };

    ghost view = { λ s. s.waiting };
}

/// What becomes of a duty that waits if there is no partner.
pub enum SwapOutcome {
    /// It met the duty that waited: the earlier one, and the one that arrived.
    Met(Duty, Duty),
    /// It waits from now on.
    Parked,
}

/// What becomes of a duty that doesn't wait.
pub enum SwapTry {
    /// It met the duty that waited: the earlier one, and the one that arrived.
    Met(Duty, Duty),
    /// No duty waited, and it is handed back.
    Alone(Duty),
}

impl Swap {
    ghost use Rattle.std.specs.Prelude.{None, IfNone, IfSome, option_map};
    ghost use Rattle.rv_swap.specs.Exchange.{ArrivesToSwap, LeavesExchanger, NotWaiting, TriesAt};

    /// An exchanger at which no duty waits.
    pub fn new() -> Swap
        ensures { result ≡ None }
    {
        Swap { waiting: None }
    }

    /// A duty arrives. It meets the one that waits, which leaves. If none waits, the new one waits.
    pub fn arrive(&mut self, duty: Duty) -> SwapOutcome
        ensures { ArrivesToSwap self.old duty self.new result }
    {
        match self.waiting.take() {
            Some(earlier) => SwapOutcome::Met(earlier.wake(), duty),
            None => {
                self.waiting = Some(duty.park());
                SwapOutcome::Parked
            }
        }
    }

    /// A duty arrives that doesn't wait. It meets the one that waits, which leaves. If none waits it is
    /// handed back, and nothing changes.
    pub fn try_arrive(&mut self, duty: Duty) -> SwapTry
        ensures { TriesAt self.old duty self.new result }
    {
        match self.waiting.take() {
            Some(earlier) => SwapTry::Met(earlier.wake(), duty),
            None => SwapTry::Alone(duty),
        }
    }

    /// Takes out the duty of a place, if it is the one that waits. Otherwise nothing changes.
    pub fn withdraw(&mut self, place: Place) -> Option<Duty>
        ensures taken { IfSome result (LeavesExchanger self.old place self.new) }
        ensures not_there { IfNone result (NotWaiting self.old place) }
        ensures stays { IfNone result (self.new ≡ self.old) }
    {
        if self.waiting() != Some(place) {
            return None;
        }
        self.waiting.take().map(Parked::wake)
    }

    /// The place of the duty that waits, if there is one.
    pub fn waiting(&self) -> Option<Place>
        ensures { result ≡ option_map (λ duty. duty.place) self.now }
    {
        match &self.waiting {
            Some(parked) => Some(parked.place()),
            None => None,
        }
    }
}
