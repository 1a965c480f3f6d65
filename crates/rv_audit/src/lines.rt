//! The places of the open arrivals of each side.
ghost use Rattle.std.specs.Prelude.{◌≡◌, ℕ, false, IfNone, IfSome, OnOk};
ghost use Rattle.rv_text.specs.declared.call.Side.{Side};

use crate::marks::Marks;
use rv_account::Place;
use rv_text::{NoMemory, Side};
use std::alloc::Global;

// The places that are open, each on the side of its call.
#[derive(Drop)]
pub(crate) struct OpenLines {
    givers: Marks,
    takers: Marks,
    exchangers: Marks,
}

impl OpenLines {
    ghost use Rattle.rv_audit.specs.Lines.{Opens, Closes, IsFirstBeside, NobodyBeside, stands_in};

    // Nobody is open. It takes no memory yet.
    pub(crate) fn empty(alloc: Global) -> OpenLines
        ensures { (side : Side) (place : ℕ) → stands_in result side place ≡ false }
    {
        OpenLines {
            givers: Marks::empty(alloc),
            takers: Marks::empty(alloc),
            exchangers: Marks::empty(alloc),
        }
    }

    // Whether the place is open on the side.
    pub(crate) fn has(&self, side: Side, place: Place) -> bool
        ensures { result ≡ stands_in self.now side place }
    {
        match side {
            Side::Gives(queue) => self.givers.has(queue, place),
            Side::Takes(queue) => self.takers.has(queue, place),
            Side::Looks(_) => false,
            Side::Exchanges(exchanger) => self.exchangers.has(exchanger, place),
        }
    }

    // The oldest place on the side that is none of these.
    pub(crate) fn oldest_beside(&self, side: Side, places: &[Place]) -> Option<Place>
        ensures some { IfSome result (IsFirstBeside self.now side places.now) }
        ensures none { IfNone result (NobodyBeside self.now side places.now) }
    {
        match side {
            Side::Gives(queue) => self.givers.lowest_beside(queue, places),
            Side::Takes(queue) => self.takers.lowest_beside(queue, places),
            Side::Looks(_) => None,
            Side::Exchanges(exchanger) => self.exchangers.lowest_beside(exchanger, places),
        }
    }

    // The place opens on its side. A call that looks opens nowhere.
    pub(crate) fn open(&mut self, side: Side, place: Place) -> Result<(), NoMemory>
        ensures { OnOk result (Opens self.old self.new side place) }
    {
        match side {
            Side::Gives(queue) => self.givers.add(queue, place),
            Side::Takes(queue) => self.takers.add(queue, place),
            Side::Looks(_) => Ok(()),
            Side::Exchanges(exchanger) => self.exchangers.add(exchanger, place),
        }
    }

    // The place is no longer open on its side.
    pub(crate) fn close(&mut self, side: Side, place: Place)
        ensures { Closes self.old self.new side place }
    {
        match side {
            Side::Gives(queue) => self.givers.remove(queue, place),
            Side::Takes(queue) => self.takers.remove(queue, place),
            Side::Looks(_) => {}
            Side::Exchanges(exchanger) => self.exchangers.remove(exchanger, place),
        }
    }
}
