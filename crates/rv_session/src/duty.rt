//! The right and duty to settle a request.
ghost use Rattle.std.specs.Prelude.{◌≡◌};

use crate::kept::Place;
use std::marker::Model;

/// The one right and duty to settle a request that waits. It can be neither copied nor dropped. Only
/// [`Sessions::begin`](crate::Sessions::begin) and [`Clients::begin`](crate::Clients::begin) make one, and
/// [`Claims::claim`](crate::Claims::claim), once for each, where a table came back from its states.
/// [`Parked`] lays it aside and gives it back, and the `settle` of the same table spends it. Contracts see
/// the place of the request and the client whose session waits there.
pub struct Duty {
    place: Place,
    client: u64,
}

impl Model for Duty {
    ghost use Rattle.rv_session.specs.OwedDuty.{OwedDuty};

    ghost Value = { OwedDuty };

    ghost view = { λ d. record { place = d.place; client = d.client } };
}

/// A duty that is laid aside, as plain data in a list or a table, until it is woken. Only a duty makes it,
/// and it can't be copied. It can be dropped, and then its request is never settled: its keeper has to
/// promise that none is lost.
#[derive(Drop)]
pub struct Parked {
    place: Place,
    client: u64,
}

impl Model for Parked {
    ghost use Rattle.rv_session.specs.OwedDuty.{OwedDuty};

    ghost Value = { OwedDuty };

    ghost view = { λ p. record { place = p.place; client = p.client } };
}

impl Duty {
    // The duty to settle what the client asked at a place.
    pub(crate) fn new(place: Place, client: u64) -> Duty
        ensures { result ≡ record { place = place; client = client } }
    {
        Duty { place, client }
    }

    /// The place of the request's arrival.
    pub fn place(&self) -> Place
        ensures { result ≡ self.now.place }
    {
        self.place
    }

    // The client whose session waits.
    pub(crate) fn client(&self) -> u64
        ensures { result ≡ self.now.client }
    {
        self.client
    }

    /// Lays the duty aside, with its place and its session.
    pub fn park(self) -> Parked
        ensures { result ≡ self }
    {
        let (place, client) = self.spend();
        Parked { place, client }
    }

    // The place and the client of a duty that is settled.
    pub(crate) fn spend(self) -> (Place, u64)
        ensures { self ≡ record { place = result.0; client = result.1 } }
    {
        let Duty { place, client } = self;
        (place, client)
    }
}

impl Parked {
    /// The place of the request's arrival.
    pub fn place(&self) -> Place
        ensures { result ≡ self.now.place }
    {
        let Parked { place, .. } = self;
        *place
    }

    /// The duty again, of the same place and session.
    pub fn wake(self) -> Duty
        ensures { result ≡ self }
    {
        let Parked { place, client } = self;
        Duty { place, client }
    }
}
