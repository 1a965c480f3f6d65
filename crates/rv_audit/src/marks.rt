//! Sets of places, each under a number: that of a queue, of an exchanger, or a limit.
ghost use Rattle.std.specs.Prelude.{◌≡◌, ◌↔◌, ◌<◌, ◌^◌, ℕ, false};
ghost use Rattle.std.specs.Prelude.{IfNone, IfSome, IsTrue, OnErr, OnOk};
ghost use Rattle.rv_account.specs.Account.{Among};
ghost use Rattle.rv_audit.specs.Marks.{Gains, GainsIf, IsFirstBehind, IsLowestBeside, IsUntil, Loses};
ghost use Rattle.rv_audit.specs.Marks.{LosesIf, NoneBehind, NoneBeside, NoneUntil, SameMarks};
ghost use Rattle.rv_audit.specs.Marks.{bound_behind, is_marked_under};

use rv_account::Place;
use rv_text::NoMemory;
use std::alloc::{AllocError, Global};
use std::collections::BTreeSet;
use std::ops::Bound;

// Where the places that are marked under the number begin, or those after another place if one is given.
fn bound_behind(number: u64, last: Option<Place>) -> Bound<(u64, Place)>
    ensures { result ≡ bound_behind number last }
{
    match last {
        Some(last) => Bound::Excluded((number, last)),
        None => Bound::Included((number, 0)),
    }
}

// Places, each under a number.
#[derive(Drop)]
pub(crate) struct Marks {
    marks: BTreeSet<(u64, Place)>,
}

impl Marks {
    // No place is marked. It takes no memory yet.
    pub(crate) fn empty(alloc: Global) -> Marks
        ensures { (number place : ℕ) → is_marked_under result number place ≡ false }
    {
        Marks {
            marks: BTreeSet::new(alloc),
        }
    }

    // Whether the place is marked under the number.
    pub(crate) fn has(&self, number: u64, place: Place) -> bool
        ensures { result ≡ is_marked_under self.now number place }
    {
        self.marks.contains(&(number, place))
    }

    // Marks the place under the number. If memory is refused nothing changes.
    pub(crate) fn add(&mut self, number: u64, place: Place) -> Result<(), NoMemory>
        ensures ok { OnOk result (Gains self.old self.new number place) }
        ensures err { OnErr result (SameMarks self.old self.new) }
    {
        match self.marks.insert((number, place)) {
            Ok(_) => Ok(()),
            Err(refused) => Err(AllocError::from(refused)),
        }
    }

    // The place is no longer marked under the number.
    pub(crate) fn remove(&mut self, number: u64, place: Place)
        ensures { Loses self.old self.new number place }
    {
        self.marks.remove(&(number, place));
    }

    // The lowest place that is marked under the number, after another if one is given.
    fn first_behind(&self, number: u64, last: Option<Place>) -> Option<Place>
        ensures some { IfSome result (IsFirstBehind self.now number last) }
        ensures none { IfNone result (NoneBehind self.now number last) }
        ensures fits { IfSome result (λ place. place < 2 ^ 64) }
    {
        let behind = (bound_behind(number, last), Bound::Unbounded);
        let (least, place) = *self.marks.range(behind).next()?;
        (least == number).then_some(place)
    }

    // The lowest place marked under the number that is none of these. Where they rise and are all marked, it
    // is a merge: the next that is marked is compared with the next of them.
    pub(crate) fn lowest_beside(&self, number: u64, places: &[Place]) -> Option<Place>
        ensures some { IfSome result (IsLowestBeside self.now number places.now) }
        ensures none { IfNone result (NoneBeside self.now number places.now) }
    {
        let mut last = None;
        let mut at: usize = 0;
        while let Some(place) = self.first_behind(number, last) {
            if !is_named(places, at, place) {
                return Some(place);
            }
            last = Some(place);
            at = at.saturating_add(1);
        }
        None
    }

    // A place that is marked under the least number, if that is at most the limit.
    pub(crate) fn until(&self, limit: u64) -> Option<Place>
        ensures some { IfSome result (IsUntil self.now limit) }
        ensures none { IfNone result (NoneUntil self.now limit) }
    {
        let (number, place) = *self.marks.first()?;
        (number <= limit).then_some(place)
    }
}

// Whether the place is one of these. The others are looked through where it does not stand as the `at`th.
fn is_named(places: &[Place], at: usize, place: Place) -> bool
    ensures { IsTrue result ↔ Among places.now place }
{
    (at < places.len() && places[at] == place) || places.contains(&place)
}

// The place is no longer marked under the number, if one is given.
pub(crate) fn drop_limit(limits: &mut Marks, limit: Option<u64>, place: Place)
    ensures { LosesIf limits.old limits.new limit place }
{
    if let Some(limit) = limit {
        limits.remove(limit, place);
    }
}

// Marks the place under the number, if one is given.
pub(crate) fn add_limit(
    limits: &mut Marks,
    limit: Option<u64>,
    place: Place,
) -> Result<(), NoMemory>
    ensures { OnOk result (GainsIf limits.old limits.new limit place) }
{
    match limit {
        Some(limit) => limits.add(limit, place),
        None => Ok(()),
    }
}
