//! A client's session: its incarnation, its last number and what became of that.
ghost use Rattle.std.specs.Prelude.{◌≡◌};
ghost use Rattle.rv_session.specs.Table.{fresh, session_for, settled_session, waiting_place};
ghost use Rattle.rv_session.specs.Standings.{greeting_in, standing_in, standing_last};

use crate::kept::{Kept, Place};
use crate::standing::{Greeting, Standing};
use rv_text::{Key, Refusal, Version};

/// What became of a session's last number.
#[derive(Clone, Copy)]
pub enum RequestState {
    /// Nothing was asked yet.
    Fresh,
    /// The request waits at this place.
    Waits(Place),
    /// It was settled: the place where its request arrived, if it did, and the reply that is kept.
    Settled { place: Option<Place>, kept: Kept },
}

/// A client's session, as contracts see it.
#[derive(Clone, Copy)]
pub struct Session {
    /// The incarnation of the client's last hello.
    pub incarnation: u64,
    /// The version of that hello.
    pub version: Version,
    /// The last number; 0 before the first.
    pub last: u64,
    /// What became of the last number.
    pub state: RequestState,
}

impl RequestState {
    // Where the request waits, if it does.
    fn waiting(&self) -> Option<Place>
        ensures { result ≡ waiting_place self.now }
    {
        match self {
            RequestState::Waits(place) => Some(*place),
            RequestState::Fresh => None,
            RequestState::Settled { .. } => None,
        }
    }

    // What became of the last number. No request has the number 0 of a fresh session.
    fn standing(&self, last: u64) -> Standing
        ensures { result ≡ standing_last last self.now }
    {
        match self {
            RequestState::Fresh => Standing::Refused(Refusal::OldNumber(last)),
            RequestState::Waits(place) => Standing::Waits(*place),
            RequestState::Settled { place, kept } => Standing::Settled {
                place: *place,
                kept: *kept,
            },
        }
    }
}

impl Session {
    // A session in which nothing was asked yet.
    pub(crate) fn fresh(incarnation: u64, version: Version) -> Session
        ensures { result ≡ fresh incarnation version }
    {
        Session {
            incarnation,
            version,
            last: 0,
            state: RequestState::Fresh,
        }
    }

    // The session of a key whose number is the last from now on, with what stands of it.
    pub(crate) fn of(key: &Key, version: Version, state: RequestState) -> Session
        ensures { result ≡ session_for key.now version state }
    {
        Session {
            incarnation: key.incarnation,
            version,
            last: key.number,
            state,
        }
    }

    // The session with its last number settled.
    pub(crate) fn settled(&self, place: Option<Place>, kept: Kept) -> Session
        ensures { result ≡ settled_session self.now place kept }
    {
        Session {
            incarnation: self.incarnation,
            version: self.version,
            last: self.last,
            state: RequestState::Settled { place, kept },
        }
    }

    // What a hello of an incarnation and a version is to the session.
    pub(crate) fn greeting(&self, incarnation: u64, version: Version) -> Greeting
        ensures { result ≡ greeting_in self.now incarnation version }
    {
        if incarnation < self.incarnation {
            return Greeting::Older(self.incarnation);
        }
        if incarnation > self.incarnation {
            return Greeting::Newer {
                waiting: self.state.waiting(),
            };
        }
        if version != self.version {
            return Greeting::OtherVersion(self.version);
        }
        Greeting::Again
    }

    // What stands of a key of the client.
    pub(crate) fn standing(&self, key: &Key) -> Standing
        ensures { result ≡ standing_in self.now key.now }
    {
        if self.incarnation < key.incarnation {
            return Standing::Refused(Refusal::NoSession);
        }
        if key.incarnation < self.incarnation {
            return Standing::Refused(Refusal::OldIncarnation(self.incarnation));
        }
        if key.number < self.last {
            return Standing::Refused(Refusal::OldNumber(self.last));
        }
        if key.number == self.last {
            return self.state.standing(self.last);
        }
        if self.state.waiting().is_some() {
            return Standing::Refused(Refusal::Busy(self.last));
        }
        if key.number - self.last > 1 {
            return Standing::Refused(Refusal::Gap(self.last));
        }
        Standing::Next
    }
}
