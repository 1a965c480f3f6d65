//! The partners of an arrival: the places of the earlier arrivals that it met.
ghost use Rattle.std.specs.Prelude.{◌≡◌, [], IfOk};
ghost use Rattle.std.specs.Prelude.{nat_eq};
ghost use Rattle.std.specs.Cmp.{partial_equiv_from_equiv};
ghost use Rattle.std.specs.Cmp.Lexicographic.{nat_list_eq_equiv, pointwise};
ghost use Rattle.rv_account.specs.Calls.{may_name};

use rv_session::Place;
use rv_text::{Call, NoMemory};
use std::alloc::Global;
use std::marker::Model;

/// The places of an entry's partners, which contracts see as a list. In a legal account they rise.
#[derive(Drop)]
pub struct Partners {
    places: Vec<Place>,
}

impl Model for Partners {
    ghost use Rattle.std.specs.Prelude.{List, ℕ};

    ghost Value = { List ℕ };

    ghost view = { λ p. p.places.items };
}

impl Partners {
    /// No partner. It takes no memory.
    pub fn none(alloc: Global) -> Partners
        ensures { result ≡ [] }
    {
        Partners::from_vec(Vec::new(alloc))
    }

    /// The partners at these places, in their order, which it takes over without memory.
    pub fn from_vec(places: Vec<Place>) -> Partners
        ensures { result ≡ places.items }
    {
        Partners { places }
    }

    /// The places, in their order.
    pub fn as_slice(&self) -> &[Place]
        ensures { result.now ≡ self.now }
    {
        &self.places
    }

    /// A copy. Fails only if memory was refused.
    pub fn copy(&self, alloc: Global) -> Result<Partners, NoMemory>
        ensures { IfOk result (λ copy. copy ≡ self.now) }
    {
        let mut places = Vec::with_capacity(alloc, self.places.len())?;
        places.extend_from_slice(&self.places)?;
        Ok(Partners { places })
    }
}

/// How many partners an arrival with this call may name: a drain as many as it may take, any other call one.
pub fn may_name(call: &Call) -> usize
    ensures { result ≡ may_name call.now }
{
    call.drains().map_or(1, |max| max as usize)
}

impl PartialEq for Partners {
    ghost eq = { λ a b. pointwise nat_eq a b };

    ghost laws = { partial_equiv_from_equiv nat_list_eq_equiv };

    fn eq(&self, other: &Partners) -> bool {
        self.as_slice() == other.as_slice()
    }
}

impl Eq for Partners {
    ghost laws = { nat_list_eq_equiv };
}
