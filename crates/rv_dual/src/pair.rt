//! A giver and a taker that met, and what becomes of an arrival.
ghost use Rattle.std.specs.Prelude.{◌≡◌};

use crate::giver::Giver;
use rv_session::{Duty, Place};
use std::marker::Model;

/// A giver and a taker that met. Only a queue makes it, and it can't be dropped: take it apart, and settle
/// the duties in it. Contracts see what the giver offers and the taker's duty.
pub struct Pair {
    giver: Giver,
    taker: Duty,
}

impl Model for Pair {
    ghost use Rattle.rv_dual.specs.Offers.{Meeting, offer_of};

    ghost Value = { Meeting };

    ghost view = { λ p. record { giver = offer_of p.giver; taker = p.taker } };
}

impl Pair {
    ghost use Rattle.rv_dual.specs.Offers.{duty_of, place_of, offer_of};

    // The pair of a giver and a taker.
    pub(crate) fn new(giver: Giver, taker: Duty) -> Pair
        ensures { result ≡ record { giver = offer_of giver; taker = taker } }
    {
        Pair { giver, taker }
    }

    /// The giver's duty, if it waited or came with one, the taker's duty, and the giver's place.
    pub fn part(self) -> (Option<Duty>, Duty, Place)
        ensures giver { result.0 ≡ duty_of self.giver }
        ensures taker { result.1 ≡ self.taker }
        ensures place { result.2 ≡ place_of self.giver }
    {
        let Pair { giver, taker } = self;
        let (duty, place) = giver.part();
        (duty, taker, place)
    }
}

/// What becomes of an arrival that waits if it meets nobody.
pub enum DualOutcome {
    /// It met the oldest of the other side.
    Met(Pair),
    /// Nobody of the other side was there, and it waits after all of its own side.
    Parked,
}

/// What becomes of a request that doesn't wait.
pub enum TryOutcome {
    /// It met the oldest of the other side.
    Met(Pair),
    /// Nobody of the other side was there, and here is its duty again.
    Alone(Duty),
}
