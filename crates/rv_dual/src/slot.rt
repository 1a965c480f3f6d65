//! A slot of a line: what waits there, or the mark of what was withdrawn.
ghost use Rattle.std.specs.Prelude.{◌≡◌, true, ℕ, Bool, option_map};
ghost use Rattle.rv_dual.specs.Slots.{holder, is_held, passes_in, slot_place};

use crate::giver::Offer;
use rv_session::{Parked, Place};

/// What can wait in a line.
pub(crate) trait StandsInLine: Drop {
    ghost place_of: { Self → ℕ };

    ghost waits_at: { ℕ → Self → Bool };

    // The place of the arrival.
    fn place(&self) -> Place
        ensures { result ≡ place_of self.now };

    // Whether it is a request that waits, and at this place.
    fn waits_at(&self, place: Place) -> bool
        ensures { result ≡ waits_at place self.now };

    ghost at_its_place: { (place : ℕ) (x : Self) → waits_at place x ≡ true → place_of x ≡ place };
}

/// A slot of a line.
#[derive(Drop)]
pub(crate) enum Slot<T> {
    /// What waits.
    Holds(T),
    /// The mark of a place that was withdrawn.
    Withdrawn(Place),
}

impl<T: StandsInLine> Slot<T> {
    // The place of what waits there, or waited.
    pub(crate) fn place(&self) -> Place
        ensures { result ≡ slot_place T.place_of self.now }
    {
        match self {
            Slot::Holds(waiting) => waiting.place(),
            Slot::Withdrawn(place) => *place,
        }
    }

    // Who waits there, if the slot isn't marked.
    pub(crate) fn into_holder(self) -> Option<T>
        ensures { result ≡ holder self }
    {
        match self {
            Slot::Holds(waiting) => Some(waiting),
            Slot::Withdrawn(_) => None,
        }
    }

    // Whether somebody waits there.
    pub(crate) fn is_held(&self) -> bool
        ensures { result ≡ is_held self.now }
    {
        matches!(self, Slot::Holds(_))
    }

    // The place of what waits there.
    pub(crate) fn waiting_place(&self) -> Option<Place>
        ensures { result ≡ option_map T.place_of (holder self.now) }
    {
        match self {
            Slot::Holds(waiting) => Some(waiting.place()),
            Slot::Withdrawn(_) => None,
        }
    }

    // Whether the request at a place waits there.
    pub(crate) fn waits_at(&self, place: Place) -> bool
        ensures { result ≡ passes_in (T.waits_at place) self.now }
    {
        match self {
            Slot::Holds(waiting) => waiting.waits_at(place),
            Slot::Withdrawn(_) => false,
        }
    }
}

impl StandsInLine for Offer {
    ghost use Rattle.rv_dual.specs.Offers as offers;

    ghost place_of = { offers.place_of };

    ghost waits_at = { offers.waits_at };

    fn place(&self) -> Place {
        Offer::place(self)
    }

    fn waits_at(&self, place: Place) -> bool {
        Offer::waits_at(self, place)
    }

    ghost at_its_place = { offers.offer_at };
}

impl StandsInLine for Parked {
    ghost use Rattle.rv_dual.specs.Offers as offers;

    ghost place_of = { λ duty. duty.place };

    ghost waits_at = { offers.is_at };

    fn place(&self) -> Place {
        Parked::place(self)
    }

    fn waits_at(&self, place: Place) -> bool {
        Parked::place(self) == place
    }

    ghost at_its_place = { offers.duty_at };
}
