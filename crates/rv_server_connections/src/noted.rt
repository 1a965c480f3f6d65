//! The connections under their numbers, and the list of those that changed.
ghost use Rattle.std.specs.Prelude.{◌≡◌, ◌≤◌, ◌+◌, None, [], length, IfNone, IfOk, IfSome, IsSome, OnErr};
ghost use Rattle.std.specs.Prelude.{◌<◌, ◌^◌, OnOk};
ghost use Rattle.std.specs.Option.{option_copied};
ghost use Rattle.rv_frame.specs.Cut.{IsFrameBody, IsUnfinished};
ghost use Rattle.rv_server_connections.specs.connection.Traffic.{IsDue};
ghost use Rattle.rv_server_connections.specs.connection.Steps.{AnswersBy, CanAnswer, TakesIn, input_ended};
ghost use Rattle.rv_server_connections.specs.connection.Steps.{left_by, owing, taken};
ghost use Rattle.rv_server_connections.specs.Connections.{AllHeldBack, ChangesWire, HasWire, Notes};
ghost use Rattle.rv_server_connections.specs.Connections.{NotesReleased, OpensWire, ReleasesAll, SetsWire};
ghost use Rattle.rv_server_connections.specs.Connections.{WireTakesNoMore, count_at, none_open, unread_count};
ghost use Rattle.rv_server_connections.specs.Fields.{slots_state};
ghost use Rattle.rv_server_connections.specs.Noting.{IsNoted, tally_of};

use crate::changes::ChangeList;
use crate::connection::{AnswerTo, NoMemory, Wire};
use crate::slots::Slots;
use crate::subscribers::ConnectionNumber;
use std::alloc::Global;

// The connections, with room in the list for each that is open.
#[derive(Drop)]
pub(crate) struct Noted {
    pub(crate) slots: Slots,
    pub(crate) changes: ChangeList,
}

impl Noted {
    pub(crate) fn empty(alloc: Global, written: u64) -> Noted
        ensures sound { IsNoted result }
        ensures none { slots_state result.slots ≡ none_open written }
        ensures tally { tally_of result ≡ record { changed = []; unread = 0 } }
    {
        Noted {
            slots: Slots::empty(alloc, written),
            changes: ChangeList::empty(alloc),
        }
    }

    pub(crate) fn open(&mut self) -> Result<ConnectionNumber, NoMemory>
        requires { IsNoted self.old }
        ensures sound { IsNoted self.new }
        ensures opened { IfOk result (λ connection.
            OpensWire (slots_state self.old.slots) connection (slots_state self.new.slots)) }
        ensures noted { IfOk result (λ connection. Notes (slots_state self.old.slots) (tally_of self.old)
            connection (slots_state self.new.slots) (tally_of self.new)) }
        ensures refused { OnErr result (slots_state self.new.slots ≡ slots_state self.old.slots) }
        ensures kept { OnErr result (tally_of self.new ≡ tally_of self.old) }
    {
        self.slots.make_way()?;
        self.changes.make_room(self.slots.room())?;
        let connection = self.slots.open();
        self.changes.mark(connection);
        Ok(connection)
    }

    pub(crate) fn get(&self, connection: ConnectionNumber) -> Option<&Wire>
        requires { IsNoted self.now }
        ensures found { option_copied result ≡ (slots_state self.now.slots).wires connection }
        ensures held_back { AllHeldBack (slots_state self.now.slots) }
    {
        self.slots.get(connection)
    }

    pub(crate) fn take_in(
        &mut self,
        connection: ConnectionNumber,
        piece: &[u8],
    ) -> Result<Option<usize>, NoMemory>
        requires { IsNoted self.old }
        ensures sound { IsNoted self.new }
        ensures takes { IfOk result (λ taken. IfSome taken (λ count. ChangesWire (slots_state self.old.slots)
            connection (λ wire after. IsUnfinished wire.unread × TakesIn wire piece.now count after)
            (slots_state self.new.slots))) }
        ensures noted { IfOk result (λ taken. IfSome taken (λ _. Notes (slots_state self.old.slots)
            (tally_of self.old) connection (slots_state self.new.slots) (tally_of self.new))) }
        ensures few { IfOk result (λ taken. IfSome taken (λ _. count_at unread_count
            ((slots_state self.new.slots).wires connection) < 2 ^ 64)) }
        ensures no_more { IfOk result (λ taken. IfNone taken (WireTakesNoMore (slots_state self.old.slots)
            connection)) }
        ensures same { IfOk result (λ taken. IfNone taken (slots_state self.new.slots
            ≡ slots_state self.old.slots)) }
        ensures same_tally { IfOk result (λ taken. IfNone taken (tally_of self.new ≡ tally_of self.old)) }
        ensures wants { OnErr result (HasWire (slots_state self.old.slots) connection
            (λ wire. IsUnfinished wire.unread)) }
        ensures refused { OnErr result (slots_state self.new.slots ≡ slots_state self.old.slots) }
        ensures kept { OnErr result (tally_of self.new ≡ tally_of self.old) }
    {
        match self.slots.take_in(connection, piece)? {
            Some(count) => {
                self.changes.mark(connection);
                Ok(Some(count))
            }
            None => Ok(None),
        }
    }

    pub(crate) fn take_frame(&mut self, connection: ConnectionNumber) -> usize
        requires sound { IsNoted self.old }
        requires due { HasWire (slots_state self.old.slots) connection IsDue }
        ensures sound { IsNoted self.new }
        ensures changes { ChangesWire (slots_state self.old.slots) connection
            (λ wire after. after ≡ taken wire) (slots_state self.new.slots) }
        ensures noted { Notes (slots_state self.old.slots) (tally_of self.old) connection
            (slots_state self.new.slots) (tally_of self.new) }
        ensures read { result ≡ count_at unread_count ((slots_state self.old.slots).wires connection) }
    {
        let read = self.slots.take_frame(connection);
        self.changes.mark(connection);
        read
    }

    pub(crate) fn answer(
        &mut self,
        connection: ConnectionNumber,
        to: AnswerTo,
        entries: u64,
        body: &[u8],
    ) -> Result<usize, NoMemory>
        requires sound { IsNoted self.old }
        requires can { HasWire (slots_state self.old.slots) connection (CanAnswer to) }
        requires fits { IsFrameBody body.now }
        ensures sound { IsNoted self.new }
        ensures answers { OnOk result (ChangesWire (slots_state self.old.slots) connection
            (λ wire after. AnswersBy (slots_state self.old.slots).written (owing to wire) entries body.now
            after)
            (slots_state self.new.slots)) }
        ensures read { IfOk result (λ read. count_at unread_count
            ((slots_state self.new.slots).wires connection) + read
            ≡ count_at unread_count ((slots_state self.old.slots).wires connection)) }
        ensures noted { OnOk result (Notes (slots_state self.old.slots) (tally_of self.old) connection
            (slots_state self.new.slots) (tally_of self.new)) }
        ensures refused { OnErr result (slots_state self.new.slots ≡ slots_state self.old.slots) }
        ensures kept { OnErr result (tally_of self.new ≡ tally_of self.old) }
    {
        let read = self.slots.answer(connection, to, entries, body)?;
        self.changes.mark(connection);
        Ok(read)
    }

    pub(crate) fn end_input(&mut self, connection: ConnectionNumber)
        requires sound { IsNoted self.old }
        requires there { IsSome ((slots_state self.old.slots).wires connection) }
        ensures sound { IsNoted self.new }
        ensures changes { ChangesWire (slots_state self.old.slots) connection
            (λ wire after. after ≡ input_ended wire) (slots_state self.new.slots) }
        ensures noted { Notes (slots_state self.old.slots) (tally_of self.old) connection
            (slots_state self.new.slots) (tally_of self.new) }
    {
        self.slots.end_input(connection);
        self.changes.mark(connection);
    }

    pub(crate) fn took(&mut self, connection: ConnectionNumber, count: usize)
        requires sound { IsNoted self.old }
        requires ready { HasWire (slots_state self.old.slots) connection (λ wire. count ≤ length wire.ready) }
        ensures sound { IsNoted self.new }
        ensures changes { ChangesWire (slots_state self.old.slots) connection
            (λ wire after. after ≡ left_by wire count) (slots_state self.new.slots) }
        ensures noted { Notes (slots_state self.old.slots) (tally_of self.old) connection
            (slots_state self.new.slots) (tally_of self.new) }
    {
        self.slots.took(connection, count);
        self.changes.mark(connection);
    }

    pub(crate) fn release(&mut self, written: u64)
        requires { IsNoted self.old }
        ensures sound { IsNoted self.new }
        ensures releases { ReleasesAll (slots_state self.old.slots) written (slots_state self.new.slots) }
        ensures noted { NotesReleased (slots_state self.old.slots) (tally_of self.old) written
            (tally_of self.new) }
    {
        self.slots.release(written);
        self.changes.mark_all(&self.slots.released);
    }

    pub(crate) fn close(&mut self, connection: ConnectionNumber)
        requires { IsNoted self.old }
        ensures sound { IsNoted self.new }
        ensures closed { SetsWire (slots_state self.old.slots) connection None (slots_state self.new.slots) }
        ensures noted { IsSome ((slots_state self.old.slots).wires connection)
            → Notes (slots_state self.old.slots) (tally_of self.old) connection
            (slots_state self.new.slots) (tally_of self.new) }
        ensures same { (slots_state self.old.slots).wires connection ≡ None
            → tally_of self.new ≡ tally_of self.old }
    {
        if self.slots.get(connection).is_none() {
            return;
        }
        self.slots.close(connection);
        self.changes.mark(connection);
    }

    pub(crate) fn clear_changed(&mut self)
        requires { IsNoted self.old }
        ensures sound { IsNoted self.new }
        ensures same { slots_state self.new.slots ≡ slots_state self.old.slots }
        ensures cleared { tally_of self.new ≡ record (tally_of self.old) { changed = [] } }
    {
        self.changes.clear();
    }
}
