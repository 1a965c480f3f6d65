//! What is open, by its place.
ghost use Rattle.std.specs.Prelude.{◌≡◌, [], ◌∷◌, ◌++◌, IfOk, OnOk, OnErr, length, option_map};
ghost use Rattle.rv_machine.specs.open_places.OpenMap.{StandBelow, found_at, all_but};

use rv_session::{OpenPlace, Place};
use rv_text::NoMemory;
use std::alloc::Global;
use std::collections::BTreeMap;
use std::marker::Model;

/// What is open, which contracts see as the list of open places, the oldest first.
///
/// Each call takes time logarithmic in their number.
#[derive(Drop)]
pub(crate) struct OpenMap {
    places: BTreeMap<Place, OpenPlace>,
}

impl Model for OpenMap {
    ghost use Rattle.std.specs.Prelude.{List};
    ghost use Rattle.std.specs.Map.{values_of};
    ghost use Rattle.rv_account.specs.state.State.{OpenPlace};
    ghost use Rattle.rv_machine.specs.open_places.OpenMap.{AreOpens};

    ghost Value = { List OpenPlace };

    ghost view = { λ o. values_of o.places.entries };

    ghost invariant = { λ o. AreOpens o.places.entries };
}

impl OpenMap {
    /// Nothing is open. It takes no memory yet.
    pub(crate) fn new(alloc: Global) -> OpenMap
        ensures { result ≡ [] }
    {
        OpenMap {
            places: BTreeMap::new(alloc),
        }
    }

    /// How many places are open.
    pub(crate) fn len(&self) -> usize
        ensures { result ≡ length self.now }
    {
        self.places.len()
    }

    /// One more is open, after all others. Fails only if memory was refused, and then nothing changes.
    pub(crate) fn push(&mut self, opened: OpenPlace) -> Result<(), NoMemory>
        requires { StandBelow self.old opened.place }
        ensures ok { OnOk result (self.new ≡ self.old ++ opened ∷ []) }
        ensures err { OnErr result (self.new ≡ self.old) }
    {
        self.places.insert(opened.place, opened)?;
        Ok(())
    }

    /// Takes out what is open at a place, if something is. All else stays.
    pub(crate) fn take(&mut self, place: Place) -> Option<OpenPlace>
        ensures found { result ≡ found_at self.old place }
        ensures rest { self.new ≡ all_but self.old place }
    {
        self.places.remove(&place)
    }

    /// What is open at a place.
    pub(crate) fn get(&self, place: Place) -> Option<&OpenPlace>
        ensures { option_map (λ o. o.now) result ≡ found_at self.now place }
    {
        self.places.get(&place)
    }

    /// A copy of what is open, the oldest first. Fails only if memory was refused.
    pub(crate) fn copies(&self, alloc: Global) -> Result<Vec<OpenPlace>, NoMemory>
        ensures { IfOk result (λ places. places.items ≡ self.now) }
    {
        let mut places = Vec::with_capacity(alloc, self.places.len())?;
        for opened in self.places.values() {
            places.push(opened.copy(alloc)?)?;
        }
        Ok(places)
    }
}
