//! A table of connections under numbers: a number is given again once nothing is under it.
use crate::connection::{NoMemory, Wire};
use crate::subscribers::ConnectionNumber;
use std::alloc::Global;
use std::marker::Model;

// A connection, and the number under which the index has it: at most as many entries as its first answer
// rests on that may not leave.
#[derive(Drop)]
pub(crate) struct WireSlot {
    pub(crate) wire: Wire,
    pub(crate) mark: Option<u64>,
}

// The connections under their numbers. The list of free numbers has room for all numbers, so closing takes no
// memory.
#[derive(Drop)]
pub(crate) struct WireTable {
    // What is under each number from 0 on.
    places: Vec<Option<WireSlot>>,
    // The numbers under which nothing is. The next to be given is the last.
    free: Vec<ConnectionNumber>,
}

impl Model for WireTable {
    ghost use Rattle.std.specs.Prelude.{is_none, map, vec_capacity, vec_len};
    ghost use Rattle.rv_server_connections.specs.Table.{TableState};
    ghost use Rattle.rv_server_connections.specs.Flags.{AreListed};

    ghost Value = { TableState };

    ghost view = { λ t. record {
      places = t.places.items;
      free = t.free.items;
      room = vec_len t.places;
    } };

    ghost invariant = { λ t. AreListed (map is_none t.places.items) t.free.items (vec_capacity t.free) };
}

impl WireSlot {
    ghost use Rattle.std.specs.Prelude.{◌≡◌, Some, IsSome};
    ghost use Rattle.std.specs.Borrow.{sem};
    ghost use Rattle.rv_server_connections.specs.Lending.{LendsSlotAt};

    // What is at a place that isn't free.
    fn at(place: &mut Option<WireSlot>) -> &mut WireSlot
        requires { IsSome place.old }
        ensures* writes_back { sem 𝓛 (LendsSlotAt place.entry result) }
        ensures value { place.old ≡ Some result.now }
    {
        match place {
            Some(slot) => slot,
            None => unreachable!(),
        }
    }
}

impl WireTable {
    ghost use Rattle.std.specs.Prelude.{ℕ, ◌≡◌, ◌<◌, ◌≤◌, [], None, Some, IsSome, OnOk, length};
    ghost use Rattle.std.specs.Option.{option_copied, option_copied_mut};
    ghost use Rattle.std.specs.Borrow.{sem};
    ghost use Rattle.rv_server_connections.specs.Table.{SetsSlot, get};
    ghost use Rattle.rv_server_connections.specs.Lending.{FindsSlot, LendsSlot};

    pub(crate) fn empty(alloc: Global) -> WireTable
        ensures { result ≡ record { places = []; free = []; room = 0 } }
    {
        WireTable {
            places: Vec::new(alloc),
            free: Vec::new(alloc),
        }
    }

    // All numbers are below this one.
    pub(crate) fn room(&self) -> usize
        ensures { result ≡ self.now.room }
    {
        self.places.len()
    }

    // Makes sure that a number is free.
    pub(crate) fn make_room(&mut self) -> Result<(), NoMemory>
        ensures free { OnOk result (0 < length self.new.free) }
        ensures same { (number : ℕ) → get self.new number ≡ get self.old number }
        ensures grows { self.old.room ≤ self.new.room }
    {
        if !self.free.is_empty() {
            return Ok(());
        }
        let next = self.places.len();
        self.places.reserve(1)?;
        self.free.reserve(next + 1)?;
        self.places.push_reserved(None);
        self.free.push_reserved(next);
        Ok(())
    }

    // Puts a connection under a free number.
    pub(crate) fn open(&mut self, slot: WireSlot) -> ConnectionNumber
        requires { 0 < length self.old.free }
        ensures free { get self.old result ≡ None }
        ensures sets { SetsSlot (get self.old) result (Some slot) (get self.new) }
        ensures within { result < self.old.room }
        ensures room { self.new.room ≡ self.old.room }
    {
        let number = self.free.pop().unwrap();
        self.places[number] = Some(slot);
        number
    }

    pub(crate) fn get(&self, number: ConnectionNumber) -> Option<&WireSlot>
        ensures { option_copied result ≡ get self.now number }
    {
        match self.places.get(number) {
            Some(Some(slot)) => Some(slot),
            _ => None,
        }
    }

    pub(crate) fn slot_mut(&mut self, number: ConnectionNumber) -> &mut WireSlot
        requires { IsSome (get self.old number) }
        ensures* writes_back { sem 𝓛 (LendsSlot self.entry number result) }
        ensures value { get self.old number ≡ Some result.now }
    {
        WireSlot::at(&mut self.places[number])
    }

    // The same, if a connection is open under the number.
    pub(crate) fn find_mut(&mut self, number: ConnectionNumber) -> Option<&mut WireSlot>
        ensures* writes_back { sem 𝓛 (FindsSlot self.entry number result) }
        ensures value { option_copied_mut result ≡ get self.old number }
    {
        if number >= self.places.len() {
            return None;
        }
        match &mut self.places[number] {
            Some(slot) => Some(slot),
            None => None,
        }
    }

    // Takes out what is under a number, which is free then.
    pub(crate) fn remove(&mut self, number: ConnectionNumber) -> Option<WireSlot>
        ensures value { result ≡ get self.old number }
        ensures sets { SetsSlot (get self.old) number None (get self.new) }
        ensures room { self.new.room ≡ self.old.room }
    {
        self.get(number)?;
        self.free.push_reserved(number);
        self.places[number].take()
    }
}
