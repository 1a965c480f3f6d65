//! What is open, by its place, and the tables in which it is found by its side and by its limit.
ghost use Rattle.std.specs.Prelude.{◌≡◌, ◌<◌, ◌^◌, ℕ, None, Some, option_and_then, IfNone, IfSome, OnOk};
ghost use Rattle.rv_text.specs.declared.call.Side.{Side};
ghost use Rattle.rv_audit.specs.Lines.{IsFirstBeside, NobodyBeside, stands_in};
ghost use Rattle.rv_audit.specs.Marks.{IsUntil, NoneUntil};
ghost use Rattle.rv_audit.specs.Opens.{AreTabled, ClosesEach, ClosesUntil, OpensIf, count_of};
ghost use Rattle.rv_audit.specs.Opens.{opening_at, OpensAt, AuditOpen};

use crate::lines::OpenLines;
use crate::marks::{Marks, add_limit, drop_limit};
use rv_account::Place;
use rv_text::{NoMemory, Side};
use std::alloc::{AllocError, Global};
use std::collections::BTreeMap;

// What is open at a place: its side, its limit if it has one below 2^64, and whose request waits there.
#[derive(Clone, Copy)]
pub(crate) struct AuditOpen {
    pub(crate) side: Side,
    pub(crate) limit: Option<u64>,
    pub(crate) client: Option<u64>,
}

// What is open.
#[derive(Drop)]
pub(crate) struct Opens {
    places: BTreeMap<Place, AuditOpen>,
    lines: OpenLines,
    limits: Marks,
}

impl Opens {
    // Nothing is open. It takes no memory yet.
    pub(crate) fn empty(alloc: Global) -> Opens
        ensures indexed { AreTabled result }
        ensures none { (place : ℕ) → opening_at result place ≡ None }
    {
        Opens {
            places: BTreeMap::new(alloc),
            lines: OpenLines::empty(alloc),
            limits: Marks::empty(alloc),
        }
    }

    // Whether the place is open on the side.
    pub(crate) fn has(&self, side: Side, place: Place) -> bool
        ensures { result ≡ stands_in self.now.lines side place }
    {
        self.lines.has(side, place)
    }

    // Whose request waits at the place, if one does.
    pub(crate) fn client(&self, place: Place) -> Option<u64>
        ensures { result ≡ option_and_then (λ there. there.client) (opening_at self.now place) }
    {
        self.places.get(&place)?.client
    }

    // The oldest place on the side that is none of these.
    pub(crate) fn oldest_beside(&self, side: Side, places: &[Place]) -> Option<Place>
        ensures some { IfSome result (IsFirstBeside self.now.lines side places.now) }
        ensures none { IfNone result (NobodyBeside self.now.lines side places.now) }
    {
        self.lines.oldest_beside(side, places)
    }

    // A place whose limit has come at a moment.
    pub(crate) fn due(&self, moment: u64) -> Option<Place>
        ensures some { IfSome result (IsUntil self.now.limits moment) }
        ensures none { IfNone result (NoneUntil self.now.limits moment) }
    {
        self.limits.until(moment)
    }

    // This is open at the place from now on.
    fn open(&mut self, place: Place, there: AuditOpen) -> Result<(), NoMemory>
        requires indexed { AreTabled self.old }
        requires free { opening_at self.old place ≡ None }
        ensures { OnOk result (OpensAt self.old self.new place (Some there)) }
    {
        if let Err(refused) = self.places.insert(place, there) {
            return Err(AllocError::from(refused));
        }
        self.lines.open(there.side, place)?;
        add_limit(&mut self.limits, there.limit, place)
    }

    // This is open at the place from now on, if it is given.
    pub(crate) fn open_if(&mut self, place: Place, there: Option<AuditOpen>) -> Result<(), NoMemory>
        requires indexed { AreTabled self.old }
        requires free { opening_at self.old place ≡ None }
        ensures { OnOk result (OpensIf self.old self.new place there) }
    {
        match there {
            Some(there) => self.open(place, there),
            None => Ok(()),
        }
    }

    // Nothing is open at the place from now on.
    pub(crate) fn close(&mut self, place: Place)
        requires { AreTabled self.old }
        ensures closes { OpensAt self.old self.new place None }
        ensures fewer { (there : AuditOpen) → opening_at self.old place ≡ Some there
            → count_of self.new < count_of self.old }
    {
        if let Some(there) = self.places.remove(&place) {
            self.lines.close(there.side, place);
            drop_limit(&mut self.limits, there.limit, place);
        }
    }

    // Closes these places.
    pub(crate) fn close_each(&mut self, places: &[Place])
        requires { AreTabled self.old }
        ensures { ClosesEach self.old self.new places.now }
    {
        for place in places {
            self.close(*place);
        }
    }

    // Closes each place whose limit has come at a moment.
    pub(crate) fn close_due(&mut self, moment: u64)
        requires { AreTabled self.old }
        ensures closes { ClosesUntil self.old self.new moment }
        ensures fits { moment < 2 ^ 64 }
    {
        while let Some(place) = self.due(moment) {
            self.close(place);
        }
    }
}
