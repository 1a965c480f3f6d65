//! What became of an arrival: its partner, and the duties that are to be settled.
ghost use Rattle.std.specs.Prelude.{◌≡◌, None, Some};

use rv_session::{Duty, Place};

/// What became of an arrival in its queue or at its exchanger. The duties in it are to be settled.
pub struct Arrived {
    /// The place of the earlier arrival that it met, or None if it met nobody.
    pub partner: Option<Place>,
    /// Its own duty, unless it waits.
    pub own: Option<Duty>,
    /// The duty of the request that it met; a put has none.
    pub other: Option<Duty>,
}

impl Arrived {
    ghost use Rattle.std.specs.Prelude.{◌≤◌, ◌+◌, ◌^◌};
    ghost use Rattle.rv_model_queues.specs.Meeting.{ends_waiting, starts_waiting};

    /// It met the earlier arrival at this place.
    pub(crate) fn met(partner: Place, own: Option<Duty>, other: Option<Duty>) -> Arrived
        ensures { result ≡ record { partner = Some partner; own = own; other = other } }
    {
        Arrived {
            partner: Some(partner),
            own,
            other,
        }
    }

    /// It met nobody, and waits unless its own duty comes back.
    pub(crate) fn alone(own: Option<Duty>) -> Arrived
        ensures { result ≡ record { partner = None; own = own; other = None } }
    {
        Arrived {
            partner: None,
            own,
            other: None,
        }
    }

    /// How many requests wait after it, if so many did before: one more if it waits itself, one less if it
    /// met a request.
    pub fn count(&self, waiting: usize) -> usize
        requires most { waiting + starts_waiting self.now.own ≤ 2 ^ 32 }
        requires least { ends_waiting self.now.other ≤ waiting + starts_waiting self.now.own }
        ensures { result + ends_waiting self.now.other ≡ waiting + starts_waiting self.now.own }
    {
        waiting + usize::from(self.own.is_none()) - usize::from(self.other.is_some())
    }
}
