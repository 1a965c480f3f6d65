//! Givers: a put, or a request that waits until its item is taken.
ghost use Rattle.std.specs.Prelude.{◌≡◌};
ghost use Rattle.rv_dual.specs.Offers.{offer_of, place_of, duty_of, waits_at};

use rv_session::{Duty, Parked, Place};

/// An arrival that brings an item. It can't be dropped: it may hold a duty.
pub enum Giver {
    /// A put, by its place: it is settled already, and only its item waits.
    Put(Place),
    /// A request that waits until its item is taken.
    Waits(Duty),
}

/// An item that waits in a queue, as its giver left it there. Contracts see a giver in a pair as its offer.
#[derive(Drop)]
pub enum Offer {
    /// The item of the put at this place.
    Put(Place),
    /// The item of a request that waits.
    Waits(Parked),
}

impl Giver {
    // Lays the giver's duty aside, if it has one.
    pub(crate) fn park(self) -> Offer
        ensures { result ≡ offer_of self }
    {
        match self {
            Giver::Put(place) => Offer::Put(place),
            Giver::Waits(duty) => Offer::Waits(duty.park()),
        }
    }

    // The giver's duty, if it waits, and its place.
    pub(crate) fn part(self) -> (Option<Duty>, Place)
        ensures duty { result.0 ≡ duty_of (offer_of self) }
        ensures place { result.1 ≡ place_of (offer_of self) }
    {
        match self {
            Giver::Put(place) => (None, place),
            Giver::Waits(duty) => {
                let place = duty.place();
                (Some(duty), place)
            }
        }
    }
}

impl Offer {
    // The place where the item arrived.
    pub(crate) fn place(&self) -> Place
        ensures { result ≡ place_of self.now }
    {
        match self {
            Offer::Put(place) => *place,
            Offer::Waits(parked) => parked.place(),
        }
    }

    // Whether the request at a place waits with this item; a put's doesn't.
    pub(crate) fn waits_at(&self, place: Place) -> bool
        ensures { result ≡ waits_at place self.now }
    {
        match self {
            Offer::Put(_) => false,
            Offer::Waits(parked) => parked.place() == place,
        }
    }

    // The giver again.
    pub(crate) fn wake(self) -> Giver
        ensures { offer_of result ≡ self }
    {
        match self {
            Offer::Put(place) => Giver::Put(place),
            Offer::Waits(parked) => Giver::Waits(parked.wake()),
        }
    }

    // The duty of the request that waits with this item, if one does.
    pub(crate) fn duty(self) -> Option<Duty>
        ensures { result ≡ duty_of self }
    {
        match self {
            Offer::Put(_) => None,
            Offer::Waits(parked) => Some(parked.wake()),
        }
    }
}
