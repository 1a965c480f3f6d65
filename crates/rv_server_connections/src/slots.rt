//! The connections under their numbers, and the index of those that hold something back.
ghost use Rattle.std.specs.Prelude.{◌≡◌, ◌≢◌, ◌≤◌, ◌<◌, ◌+◌, ◌↔◌, ◌⊎◌, true, length, vec_capacity};
ghost use Rattle.std.specs.Prelude.{ℕ, [], ◌*◌, None, Some, IfNone, IfOk, IfSome, IsSome, IsSomeAnd, IsTrue};
ghost use Rattle.std.specs.Prelude.{◌^◌, OnErr, OnOk};
ghost use Rattle.std.specs.Bool.{OnFalse, OnTrue};
ghost use Rattle.std.specs.Option.{option_copied};
ghost use Rattle.rv_frame.specs.Cut.{IsFrameBody, IsUnfinished};
ghost use Rattle.rv_server_connections.specs.connection.Traffic.{IsDue};
ghost use Rattle.rv_server_connections.specs.connection.Steps.{AnswersBy, CanAnswer, HoldsBack, TakesIn};
ghost use Rattle.rv_server_connections.specs.connection.Steps.{input_ended, left_by, owing, taken};
ghost use Rattle.rv_server_connections.specs.Connections.{ChangesWire, HasWire, IsReleased, IsTotalHeld};
ghost use Rattle.rv_server_connections.specs.Connections.{OpensWire, ReleasesAll, SetsWire, WireTakesNoMore};
ghost use Rattle.rv_server_connections.specs.Connections.{count_at, none_open, unread_count};
ghost use Rattle.rv_server_connections.specs.Fields.{Drops, Gives, HasIndex, IsReaching, IsSoundSlots};
ghost use Rattle.rv_server_connections.specs.Fields.{KeepsRest, ReleasesOne, Remarks, StandsByMark};
ghost use Rattle.rv_server_connections.specs.Fields.{StandsStill, StandsToo, mark_count, slots_state};
ghost use Rattle.rv_server_connections.specs.subscribers.Pairs.{pair_count, stands_under};
ghost use Rattle.rv_server_connections.specs.Table.{get};

use crate::connection::{AnswerTo, NoMemory, Wire};
use crate::subscribers::{ConnectionNumber, Pairs};
use crate::table::{WireSlot, WireTable};
use std::alloc::{AllocError, Global};

// The connections, each under its number.
#[derive(Drop)]
pub(crate) struct Slots {
    alloc: Global,
    pub(crate) slots: WireTable,
    // How many entries are written.
    pub(crate) written: u64,
    // The connections that hold something back, by their marks.
    pub(crate) index: Pairs,
    // Those of which the last release let bytes go, and those at which it has to look.
    pub(crate) released: Vec<ConnectionNumber>,
    pub(crate) reached: Vec<ConnectionNumber>,
    // How many bytes of answers are held for all.
    pub(crate) held: u128,
}

// A connection stands under a mark no longer, if it has one.
fn drop_mark(index: &mut Pairs, connection: ConnectionNumber, mark: Option<u64>)
    requires { (entries : ℕ) → mark ≡ Some entries → stands_under index.old entries connection ≡ true }
    ensures dropped { Drops index.old connection mark index.new }
    ensures count { pair_count index.new + mark_count mark ≡ pair_count index.old }
{
    if let Some(entries) = mark {
        index.remove(entries, connection);
    }
}

// A connection that stood under a mark stands under the next one now, or under none. If memory is refused it
// stays where it stood, which it gives.
fn move_mark(
    index: &mut Pairs,
    connection: ConnectionNumber,
    mark: Option<u64>,
    next: Option<u64>,
) -> Option<u64>
    requires stands { StandsByMark index.old connection mark }
    requires there { IsSome mark }
    requires differ { next ≢ mark }
    ensures moved { Remarks index.old connection result index.new }
    ensures mark { (result ≡ next) ⊎ ((result ≡ mark) × IsSome next) }
    ensures count { pair_count index.new ≤ pair_count index.old }
{
    match next {
        None => {
            drop_mark(index, connection, mark);
            None
        }
        Some(entries) => match index.add(entries, connection) {
            Ok(()) => {
                drop_mark(index, connection, mark);
                Some(entries)
            }
            Err(_) => mark,
        },
    }
}

// Whether the entries are written for which something waits.
fn is_written(waits_for: Option<u64>, written: u64) -> bool
    ensures { IsTrue result ↔ IsSomeAnd waits_for (λ entries. entries ≤ written) }
{
    match waits_for {
        Some(entries) => entries <= written,
        None => false,
    }
}

// Whether an answer is the first of its connection that may not leave.
fn is_first_back(mark: Option<u64>, written: u64, entries: u64) -> bool
    ensures yes { OnTrue result ((mark ≡ None) × (written < entries)) }
    ensures no { OnFalse result (IsSome mark ⊎ (entries ≤ written)) }
{
    match mark {
        None => written < entries,
        Some(_) => false,
    }
}

// How many bytes more are held of a connection, and how many fewer are unread, after an answer.
#[derive(Clone, Copy)]
pub(crate) struct Given {
    pub(crate) more: usize,
    pub(crate) read: usize,
}

// Gives an answer to a connection, which has this mark from then on.
fn give(
    slot: &mut WireSlot,
    to: AnswerTo,
    written: u64,
    entries: u64,
    body: &[u8],
    mark: Option<u64>,
) -> Result<Given, NoMemory>
    requires can { CanAnswer to slot.old.wire }
    requires held_back { HoldsBack written slot.old.wire.behind }
    requires fits { IsFrameBody body.now }
    ensures gives { IfOk result (λ given. Gives slot.old to written entries body.now mark given slot.new) }
    ensures refused { OnErr result (slot.new ≡ slot.old) }
{
    let held = slot.wire.held();
    let unread = slot.wire.unread_count();
    slot.wire.answer(to, written, entries, body)?;
    slot.mark = mark;
    Ok(Given {
        more: slot.wire.held() - held,
        read: unread - slot.wire.unread_count(),
    })
}

// Makes a connection stand under a number, and room in the lists for all that stand there.
fn stand(
    index: &mut Pairs,
    released: &mut Vec<ConnectionNumber>,
    reached: &mut Vec<ConnectionNumber>,
    entries: u64,
    connection: ConnectionNumber,
) -> Result<(), NoMemory>
    ensures stands { OnOk result (StandsToo index.old entries connection index.new (vec_capacity released.new)
        (vec_capacity reached.new)) }
    ensures refused { OnErr result (StandsStill index.old index.new) }
    ensures released { released.new.items ≡ released.old.items }
    ensures room { vec_capacity released.old ≤ vec_capacity released.new }
    ensures looks { vec_capacity reached.old ≤ vec_capacity reached.new }
{
    let count = index.count() + 1;
    released.reserve(count)?;
    reached.reserve(count)?;
    index.add(entries, connection)
}

// So many bytes more, where at most 131,071 are held for each number that has room.
fn add_held(held: u128, more: usize, room: usize) -> u128
    requires { held ≤ 131071 * room }
    ensures { result ≡ held + more }
{
    let _ = room;
    held + more as u128
}

impl Slots {
    pub(crate) fn empty(alloc: Global, written: u64) -> Slots
        ensures sound { IsSoundSlots result }
        ensures none { slots_state result ≡ none_open written }
    {
        Slots {
            alloc,
            slots: WireTable::empty(alloc),
            written,
            index: Pairs::empty(alloc),
            released: Vec::new(alloc),
            reached: Vec::new(alloc),
            held: 0,
        }
    }

    // Makes room for one connection more.
    pub(crate) fn make_way(&mut self) -> Result<(), NoMemory>
        requires { IsSoundSlots self.old }
        ensures sound { IsSoundSlots self.new }
        ensures room { OnOk result (0 < length self.new.slots.free) }
        ensures same { slots_state self.new ≡ slots_state self.old }
    {
        self.slots.make_room()
    }

    // All numbers are below this one.
    pub(crate) fn room(&self) -> usize
        ensures { result ≡ self.now.slots.room }
    {
        self.slots.room()
    }

    pub(crate) fn open(&mut self) -> ConnectionNumber
        requires sound { IsSoundSlots self.old }
        requires room { 0 < length self.old.slots.free }
        ensures sound { IsSoundSlots self.new }
        ensures opened { OpensWire (slots_state self.old) result (slots_state self.new) }
        ensures within { result < self.old.slots.room }
    {
        self.slots.open(WireSlot {
            wire: Wire::new(self.alloc),
            mark: None,
        })
    }

    pub(crate) fn get(&self, connection: ConnectionNumber) -> Option<&Wire>
        ensures { option_copied result ≡ (slots_state self.now).wires connection }
    {
        match self.slots.get(connection) {
            Some(slot) => Some(&slot.wire),
            None => None,
        }
    }

    pub(crate) fn take_in(
        &mut self,
        connection: ConnectionNumber,
        piece: &[u8],
    ) -> Result<Option<usize>, NoMemory>
        requires { IsSoundSlots self.old }
        ensures sound { IsSoundSlots self.new }
        ensures takes { IfOk result (λ taken. IfSome taken (λ count. ChangesWire (slots_state self.old)
            connection (λ wire after. IsUnfinished wire.unread × TakesIn wire piece.now count after)
            (slots_state self.new))) }
        ensures few { IfOk result (λ taken. IfSome taken (λ _. count_at unread_count
            ((slots_state self.new).wires connection) < 2 ^ 64)) }
        ensures no_more { IfOk result (λ taken. IfNone taken (WireTakesNoMore (slots_state self.old)
            connection)) }
        ensures same { IfOk result (λ taken. IfNone taken (slots_state self.new ≡ slots_state self.old)) }
        ensures wants { OnErr result (HasWire (slots_state self.old) connection
            (λ wire. IsUnfinished wire.unread)) }
        ensures refused { OnErr result (slots_state self.new ≡ slots_state self.old) }
    {
        let Some(slot) = self.slots.find_mut(connection) else {
            return Ok(None);
        };
        if !slot.wire.takes_more() {
            return Ok(None);
        }
        let count = slot.wire.take_in(piece)?;
        let _ = slot.wire.unread_count();
        Ok(Some(count))
    }

    // Gives how many bytes the frame had.
    pub(crate) fn take_frame(&mut self, connection: ConnectionNumber) -> usize
        requires sound { IsSoundSlots self.old }
        requires due { HasWire (slots_state self.old) connection IsDue }
        ensures sound { IsSoundSlots self.new }
        ensures taken { ChangesWire (slots_state self.old) connection (λ wire after. after ≡ taken wire)
            (slots_state self.new) }
        ensures read { result ≡ count_at unread_count ((slots_state self.old).wires connection) }
    {
        let slot = self.slots.slot_mut(connection);
        let read = slot.wire.unread_count();
        slot.wire.take_frame();
        read
    }

    pub(crate) fn end_input(&mut self, connection: ConnectionNumber)
        requires sound { IsSoundSlots self.old }
        requires there { IsSome ((slots_state self.old).wires connection) }
        ensures sound { IsSoundSlots self.new }
        ensures ended { ChangesWire (slots_state self.old) connection (λ wire after. after ≡ input_ended wire)
            (slots_state self.new) }
    {
        let slot = self.slots.slot_mut(connection);
        slot.wire.end_input();
    }

    pub(crate) fn took(&mut self, connection: ConnectionNumber, count: usize)
        requires sound { IsSoundSlots self.old }
        requires ready { HasWire (slots_state self.old) connection (λ wire. count ≤ length wire.ready) }
        ensures sound { IsSoundSlots self.new }
        ensures left { ChangesWire (slots_state self.old) connection
            (λ wire after. after ≡ left_by wire count) (slots_state self.new) }
    {
        let slot = self.slots.slot_mut(connection);
        slot.wire.took(count);
        self.held -= count as u128;
    }

    // Gives how many bytes the frame had that was taken for it.
    pub(crate) fn answer(
        &mut self,
        connection: ConnectionNumber,
        to: AnswerTo,
        entries: u64,
        body: &[u8],
    ) -> Result<usize, NoMemory>
        requires sound { IsSoundSlots self.old }
        requires can { HasWire (slots_state self.old) connection (CanAnswer to) }
        requires fits { IsFrameBody body.now }
        ensures sound { IsSoundSlots self.new }
        ensures answers { OnOk result (ChangesWire (slots_state self.old) connection
            (λ wire after. AnswersBy (slots_state self.old).written (owing to wire) entries body.now after)
            (slots_state self.new)) }
        ensures read { IfOk result (λ read. count_at unread_count ((slots_state self.new).wires connection)
            + read ≡ count_at unread_count ((slots_state self.old).wires connection)) }
        ensures refused { OnErr result (slots_state self.new ≡ slots_state self.old) }
    {
        let room = self.slots.room();
        let slot = self.slots.slot_mut(connection);
        let mark = slot.mark;
        if !is_first_back(mark, self.written, entries) {
            let given = give(slot, to, self.written, entries, body, mark)?;
            self.held = add_held(self.held, given.more, room);
            return Ok(given.read);
        }
        stand(
            &mut self.index,
            &mut self.released,
            &mut self.reached,
            entries,
            connection,
        )?;
        match give(slot, to, self.written, entries, body, Some(entries)) {
            Ok(given) => {
                self.held = add_held(self.held, given.more, room);
                Ok(given.read)
            }
            Err(refused) => {
                self.index.remove(entries, connection);
                Err(refused)
            }
        }
    }

    // Makes ready what may leave of a connection, and gives whether any of it may.
    fn release_one(&mut self, written: u64, connection: ConnectionNumber) -> bool
        requires indexed { HasIndex self.old }
        requires there { IsSome (get self.old.slots connection) }
        ensures indexed { HasIndex self.new }
        ensures rest { KeepsRest self.old self.new }
        ensures yes { OnTrue result (IsReleased (slots_state self.old) written connection) }
        ensures no { OnFalse result (¬ IsReleased (slots_state self.old) written connection) }
        ensures each { ReleasesOne written self.old connection self.new }
    {
        let slot = self.slots.slot_mut(connection);
        if !is_written(slot.wire.waits_for(), written) {
            return false;
        }
        slot.wire.release(written);
        slot.mark = move_mark(
            &mut self.index,
            connection,
            slot.mark,
            slot.wire.waits_for(),
        );
        true
    }

    // Looks at all that the index led to.
    fn release_reached(&mut self, written: u64)
        requires { IsReaching written (get self.old.slots) self.old }
        ensures { IsReaching written (get self.old.slots) self.new × (self.new.reached.items ≡ []) }
    {
        while let Some(connection) = self.reached.pop() {
            if self.release_one(written, connection) {
                self.released.push_reserved(connection);
            }
        }
    }

    pub(crate) fn release(&mut self, written: u64)
        requires { IsSoundSlots self.old }
        ensures sound { IsSoundSlots self.new }
        ensures releases { ReleasesAll (slots_state self.old) written (slots_state self.new) }
    {
        self.released.clear();
        self.index.list_up_to(written, &mut self.reached);
        self.release_reached(written);
        self.written = written;
    }

    pub(crate) fn close(&mut self, connection: ConnectionNumber)
        requires { IsSoundSlots self.old }
        ensures sound { IsSoundSlots self.new }
        ensures closed { SetsWire (slots_state self.old) connection None (slots_state self.new) }
    {
        if let Some(slot) = self.slots.remove(connection) {
            drop_mark(&mut self.index, connection, slot.mark);
            self.held -= slot.wire.held() as u128;
        }
    }
}
