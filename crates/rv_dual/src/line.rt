//! A line of those that wait, the oldest first, in which a withdrawn place is marked.
ghost use Rattle.std.specs.Prelude.{◌≡◌, ◌<◌, [], ◌∷◌, ◌++◌, true, length, Some, IfNone, IfSome};
ghost use Rattle.std.specs.Prelude.{◌≤◌, drop, map, option_and_then, option_to_list, slice_get, slice_set};
ghost use Rattle.rv_dual.specs.Above.{first_above};
ghost use Rattle.rv_dual.specs.Entries.{PassesAt, PassesNowhere};
ghost use Rattle.rv_dual.specs.Room.{KeepsRoom, UsesRoom, room_in};
ghost use Rattle.rv_dual.specs.Slots.{FirstHolds, IsSlotLine, LastHolds, NoSlotAt, Rises, waiting_in};
ghost use Rattle.rv_dual.specs.Slots.{first_slot, holder, is_marked, last_slot, passes_in, slot_places};
ghost use Rattle.rv_dual.specs.declared.slot.Slot.TheVariants.{Holds, Withdrawn};

use crate::slot::{Slot, StandsInLine};
use rv_session::Place;
use rv_text::NoMemory;
use std::alloc::Global;
use std::collections::VecDeque;
use std::marker::Model;
use std::mem;

/// Those that wait, the oldest first, which contracts see as a list and its room. A withdrawn place is marked
/// where it is, and neither end is ever marked. So the places rise, marks included, whatever place above
/// those that wait comes next, and a line in which nobody waits is empty. There are never more marks than
/// there are places that wait: before there would be, all marks go at once, in a time that is constant on
/// average over the withdrawals that made them.
#[derive(Drop)]
pub(crate) struct SlotLine<T: StandsInLine> {
    slots: VecDeque<Slot<T>>,
    // How many slots aren't marked.
    count: usize,
}

impl<T: StandsInLine> Model for SlotLine<T> {
    ghost use Rattle.rv_dual.specs.Room.{room_in};
    ghost use Rattle.rv_dual.specs.Slots.{IsSlotLine, WaitingLine, waiting_in};

    ghost Value = { WaitingLine T };

    ghost view = { λ l. record { waiting = waiting_in l.slots.items; room = room_in l.slots } };

    ghost invariant = { λ l. IsSlotLine T.place_of l.slots.items l.count };
}

// Whether a mark stands first.
fn front_is_marked<T>(slots: &VecDeque<Slot<T>>) -> bool
    ensures { result ≡ is_marked (first_slot slots.now.items) }
{
    matches!(slots.front(), Some(Slot::Withdrawn(_)))
}

// Whether a mark stands last.
fn back_is_marked<T>(slots: &VecDeque<Slot<T>>) -> bool
    ensures { result ≡ is_marked (last_slot slots.now.items) }
{
    matches!(slots.back(), Some(Slot::Withdrawn(_)))
}

// Adds an arrival after the others, where there is room.
fn append<T>(slots: &mut VecDeque<Slot<T>>, arrival: T)
    requires { 0 < (room_in slots.old).spare }
    ensures last { slots.new.items ≡ slots.old.items ++ Holds arrival ∷ [] }
    ensures room { UsesRoom (room_in slots.old) (room_in slots.new) }
{
    slots.push_back(Slot::Holds(arrival)).unwrap();
}

// Takes the marks off the front.
fn trim_front<T: StandsInLine>(slots: &mut VecDeque<Slot<T>>)
    requires { Rises T.place_of slots.old.items }
    ensures same { waiting_in slots.new.items ≡ waiting_in slots.old.items }
    ensures rises { Rises T.place_of slots.new.items }
    ensures first { FirstHolds slots.new.items }
    ensures room { KeepsRoom (room_in slots.old) (room_in slots.new) }
{
    while front_is_marked(slots) {
        slots.pop_front();
    }
}

// Takes the marks off the back.
fn trim_back<T: StandsInLine>(slots: &mut VecDeque<Slot<T>>)
    requires rises { Rises T.place_of slots.old.items }
    requires first { FirstHolds slots.old.items }
    ensures same { waiting_in slots.new.items ≡ waiting_in slots.old.items }
    ensures rises { Rises T.place_of slots.new.items }
    ensures first { FirstHolds slots.new.items }
    ensures last { LastHolds slots.new.items }
    ensures room { KeepsRoom (room_in slots.old) (room_in slots.new) }
{
    while back_is_marked(slots) {
        slots.pop_back();
    }
}

// Takes all marks out of a line where they are more than those that wait.
fn sweep<T: StandsInLine>(slots: &mut VecDeque<Slot<T>>, count: usize)
    requires rises { Rises T.place_of slots.old.items }
    requires first { FirstHolds slots.old.items }
    requires last { LastHolds slots.old.items }
    requires counted { count ≡ length (waiting_in slots.old.items) }
    ensures same { waiting_in slots.new.items ≡ waiting_in slots.old.items }
    ensures line { IsSlotLine T.place_of slots.new.items count }
    ensures room { KeepsRoom (room_in slots.old) (room_in slots.new) }
{
    if slots.len() - count > count {
        slots.retain(|slot| slot.is_held());
    }
}

// Takes the marks off both ends, and all of them where they are more than those that wait.
fn trim<T: StandsInLine>(slots: &mut VecDeque<Slot<T>>, count: usize)
    requires rises { Rises T.place_of slots.old.items }
    requires counted { count ≡ length (waiting_in slots.old.items) }
    ensures same { waiting_in slots.new.items ≡ waiting_in slots.old.items }
    ensures line { IsSlotLine T.place_of slots.new.items count }
    ensures room { KeepsRoom (room_in slots.old) (room_in slots.new) }
{
    trim_front(slots);
    trim_back(slots);
    sweep(slots, count);
}

// The index of the slot of a place.
fn slot_at<T: StandsInLine>(slots: &VecDeque<Slot<T>>, place: Place) -> Option<usize>
    requires { Rises T.place_of slots.now.items }
    ensures found { IfSome result (λ i. slice_get (slot_places T.place_of slots.now.items) i ≡ Some place) }
    ensures none { IfNone result (NoSlotAt T.place_of place slots.now.items) }
{
    slots.binary_search_by_key(&place, |slot| slot.place()).ok()
}

// The index of the request that waits at a place.
fn index_of<T: StandsInLine>(slots: &VecDeque<Slot<T>>, place: Place) -> Option<usize>
    requires { Rises T.place_of slots.now.items }
    ensures found { IfSome result (PassesAt (passes_in (T.waits_at place)) slots.now.items) }
    ensures none { IfNone result (PassesNowhere (T.waits_at place) (waiting_in slots.now.items)) }
{
    let index = slot_at(slots, place)?;
    slots[index].waits_at(place).then_some(index)
}

// Marks the slot at an index, and gives what waited there.
fn mark<T: StandsInLine>(slots: &mut VecDeque<Slot<T>>, index: usize, place: Place) -> Option<T>
    requires { index < length slots.old.items }
    ensures out { result ≡ option_and_then holder (slice_get slots.old.items index) }
    ensures rest { slots.new.items ≡ slice_set slots.old.items index (Withdrawn place) }
    ensures room { KeepsRoom (room_in slots.old) (room_in slots.new) }
{
    mem::replace(&mut slots[index], Slot::Withdrawn(place)).into_holder()
}

// The index after all slots up to a place.
fn index_above<T: StandsInLine>(slots: &VecDeque<Slot<T>>, after: Option<Place>) -> usize
    requires { Rises T.place_of slots.now.items }
    ensures within { result ≤ length slots.now.items }
    ensures above { slice_get (map T.place_of (waiting_in (drop result slots.now.items))) 0
        ≡ first_above after (map T.place_of (waiting_in slots.now.items)) }
{
    match after {
        Some(place) => slots.partition_point(|slot| slot.place() <= place),
        None => 0,
    }
}

// The place of the first one that waits in a slot from an index on.
fn first_from<T: StandsInLine>(slots: &VecDeque<Slot<T>>, start: usize) -> Option<Place>
    requires { start ≤ length slots.now.items }
    ensures { result ≡ slice_get (map T.place_of (waiting_in (drop start slots.now.items))) 0 }
{
    for index in start..slots.len() {
        let waiting = slots[index].waiting_place();
        if waiting.is_some() {
            return waiting;
        }
    }
    None
}

impl<T: StandsInLine> SlotLine<T> {
    ghost use Rattle.std.specs.Prelude.{OnErr, OnOk, not, Contains};
    ghost use Rattle.std.specs.List.{All, filter};
    ghost use Rattle.rv_dual.specs.Room.{GrowsRoom};

    // A line in which nobody waits. It takes no memory yet.
    pub(crate) fn new(alloc: Global) -> SlotLine<T>
        ensures { result.waiting ≡ [] }
    {
        SlotLine {
            slots: VecDeque::new(alloc),
            count: 0,
        }
    }

    // Makes room for one more. All that wait stay, and so does the room that was there.
    pub(crate) fn reserve(&mut self) -> Result<(), NoMemory>
        ensures same { self.new.waiting ≡ self.old.waiting }
        ensures kept { GrowsRoom self.old.room self.new.room }
        ensures room { OnOk result (0 < self.new.room.spare) }
        ensures full { OnErr result (self.old.room.spare ≡ 0) }
    {
        self.slots.reserve(1)
    }

    // One more waits, after the others.
    pub(crate) fn push(&mut self, arrival: T)
        requires room { 0 < self.old.room.spare }
        requires above { All (λ x. T.place_of x < T.place_of arrival) self.old.waiting }
        ensures last { self.new.waiting ≡ self.old.waiting ++ arrival ∷ [] }
        ensures room { UsesRoom self.old.room self.new.room }
    {
        append(&mut self.slots, arrival);
        self.count += 1;
    }

    // The oldest leaves, if anybody waits.
    pub(crate) fn pop(&mut self) -> Option<T>
        ensures oldest { self.old.waiting ≡ option_to_list result ++ self.new.waiting }
        ensures nobody { IfNone result (self.old.waiting ≡ []) }
        ensures same { IfNone result (self.new ≡ self.old) }
        ensures rest { self.new.waiting ≡ drop 1 self.old.waiting }
        ensures room { KeepsRoom self.old.room self.new.room }
    {
        let oldest = self.slots.pop_front()?.into_holder().unwrap();
        self.count -= 1;
        trim(&mut self.slots, self.count);
        Some(oldest)
    }

    // The request that waits at a place leaves, wherever it stands.
    pub(crate) fn withdraw(&mut self, place: Place) -> Option<T>
        ensures some { IfSome result (λ x. Contains self.old.waiting x × (T.waits_at place x ≡ true)) }
        ensures none { IfNone result (PassesNowhere (T.waits_at place) self.old.waiting) }
        ensures same { IfNone result (self.new ≡ self.old) }
        ensures rest { self.new.waiting ≡ filter (λ x. not (T.waits_at place x)) self.old.waiting }
        ensures room { KeepsRoom self.old.room self.new.room }
    {
        let index = index_of(&self.slots, place)?;
        let out = mark(&mut self.slots, index, place).unwrap();
        self.count -= 1;
        trim(&mut self.slots, self.count);
        Some(out)
    }

    // The place of the oldest.
    pub(crate) fn front(&self) -> Option<Place>
        ensures { result ≡ slice_get (map T.place_of self.now.waiting) 0 }
    {
        self.slots.front().map(Slot::place)
    }

    // The place of the first one that waits above another place, or of the oldest.
    pub(crate) fn behind(&self, after: Option<Place>) -> Option<Place>
        ensures { result ≡ first_above after (map T.place_of self.now.waiting) }
    {
        first_from(&self.slots, index_above(&self.slots, after))
    }

    // How many wait.
    pub(crate) fn len(&self) -> usize
        ensures { result ≡ length self.now.waiting }
    {
        self.count
    }
}
