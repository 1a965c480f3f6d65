//! All open connections of a hub.
ghost use Rattle.std.specs.Prelude.{◌≡◌, ◌≤◌, ◌+◌, ◌*◌, Option, None, Some};
ghost use Rattle.rv_server_connections.specs.Connections.{count_at, unread_count};
ghost use Rattle.rv_server_connections.specs.Fields.{slots_state};
ghost use Rattle.rv_server_connections.specs.Noting.{IsNoted, IsUnreadIn};

use crate::connection::{AnswerTo, NoMemory, Wire};
use crate::noted::Noted;
use crate::subscribers::ConnectionNumber;
use std::alloc::Global;
use std::mem;

// How many bytes of a connection are unread, if it is open.
fn unread_of(noted: &Noted, connection: ConnectionNumber) -> usize
    requires { IsNoted noted.now }
    ensures { result ≡ count_at unread_count ((slots_state noted.now.slots).wires connection) }
{
    match noted.get(connection) {
        Some(wire) => wire.unread_count(),
        None => 0,
    }
}

// So many bytes more, where fewer than 2^64 are unread of each number that has room.
fn add_unread(unread: u128, more: usize, room: usize) -> u128
    requires { unread ≤ 18446744073709551615 * room }
    ensures { result ≡ unread + more }
{
    let _ = room;
    unread + more as u128
}

/// All open connections, each under its number, with how many entries are written.
///
/// Contracts see the bytes of the connection under each number, if it is open (`wires_in`). A number is free
/// exactly while no connection is open under it. All calls but `release` take constant time, or time
/// logarithmic in the number of connections that hold something back.
#[derive(Drop)]
pub struct Wires {
    noted: Noted,
    // How many bytes are unread of all.
    unread: u128,
    // The room in which the texts of answers are written.
    room: Vec<u8>,
    ghost sound: { IsNoted noted },
    ghost counted: { IsUnreadIn noted unread },
}

impl Wires {
    ghost use Rattle.std.specs.Prelude.{◌≡◌, ◌≢◌, ◌≤◌, None, [], length, AllPairs, IfNone, IfOk, IfSome};
    ghost use Rattle.std.specs.Prelude.{IsSome, OnErr, OnOk};
    ghost use Rattle.std.specs.Option.{option_copied};
    ghost use Rattle.rv_frame.specs.Cut.{IsFrameBody, IsUnfinished};
    ghost use Rattle.rv_server_connections.specs.connection.Traffic.{IsDue};
    ghost use Rattle.rv_server_connections.specs.connection.Steps.{AnswersBy, CanAnswer, TakesIn};
    ghost use Rattle.rv_server_connections.specs.connection.Steps.{input_ended, left_by, owing, taken};
    ghost use Rattle.rv_server_connections.specs.Connections.{AllHeldBack, ChangesWire, HasWire, IsTotalHeld};
    ghost use Rattle.rv_server_connections.specs.Connections.{Notes, IsTotalUnread, NotesReleased, OpensWire};
    ghost use Rattle.rv_server_connections.specs.Connections.{ReleasesAll, SetsWire, WireTakesNoMore};
    ghost use Rattle.rv_server_connections.specs.Connections.{none_open};
    ghost use Rattle.rv_server_connections.specs.Wires.{tally_in, wires_in};

    /// No connection is open, and so many entries are written. It takes no memory yet.
    pub fn new(alloc: Global, written: u64) -> Wires
        ensures none { wires_in result ≡ none_open written }
        ensures tally { tally_in result ≡ record { changed = []; unread = 0 } }
    {
        Wires {
            noted: Noted::empty(alloc, written),
            unread: 0,
            room: Vec::new(alloc),
        }
    }

    /// How many entries are written.
    pub fn written(&self) -> u64
        ensures { result ≡ (wires_in self.now).written }
    {
        self.noted.slots.written
    }

    /// Opens a connection, under a number that is free. If memory for it is refused nothing changes.
    pub fn open(&mut self) -> Result<ConnectionNumber, NoMemory>
        ensures opened { IfOk result (λ connection.
            OpensWire (wires_in self.old) connection (wires_in self.new)) }
        ensures noted { IfOk result (λ connection. Notes (wires_in self.old) (tally_in self.old) connection
            (wires_in self.new) (tally_in self.new)) }
        ensures refused { OnErr result (wires_in self.new ≡ wires_in self.old) }
        ensures kept { OnErr result (tally_in self.new ≡ tally_in self.old) }
    {
        self.noted.open()
    }

    /// The connection under a number, if it is open. The bytes that may not leave begin with an answer that
    /// rests on an unwritten entry.
    pub fn get(&self, connection: ConnectionNumber) -> Option<&Wire>
        ensures found { option_copied result ≡ (wires_in self.now).wires connection }
        ensures held_back { AllHeldBack (wires_in self.now) }
    {
        self.noted.get(connection)
    }

    /// Takes bytes of a piece of a connection's input, and gives how many (`Wire::take_in`), or `None` if it
    /// isn't open or takes no more. If memory for them is refused, nothing changes.
    pub fn take_in(
        &mut self,
        connection: ConnectionNumber,
        piece: &[u8],
    ) -> Result<Option<usize>, NoMemory>
        ensures takes { IfOk result (λ taken. IfSome taken (λ count. ChangesWire (wires_in self.old)
            connection (λ wire after. IsUnfinished wire.unread × TakesIn wire piece.now count after)
            (wires_in self.new))) }
        ensures noted { IfOk result (λ taken. IfSome taken (λ _. Notes (wires_in self.old)
            (tally_in self.old) connection (wires_in self.new) (tally_in self.new))) }
        ensures no_more { IfOk result (λ taken. IfNone taken (WireTakesNoMore (wires_in self.old)
            connection)) }
        ensures same { IfOk result (λ taken. IfNone taken (wires_in self.new ≡ wires_in self.old)) }
        ensures same_tally { IfOk result (λ taken. IfNone taken (tally_in self.new ≡ tally_in self.old)) }
        ensures wants { OnErr result (HasWire (wires_in self.old) connection
            (λ wire. IsUnfinished wire.unread)) }
        ensures refused { OnErr result (wires_in self.new ≡ wires_in self.old) }
        ensures kept { OnErr result (tally_in self.new ≡ tally_in self.old) }
    {
        let room = self.noted.slots.room();
        let taken = self.noted.take_in(connection, piece)?;
        self.unread = add_unread(self.unread, taken.unwrap_or(0), room);
        Ok(taken)
    }

    /// Takes the unread frame of a connection, whose answer is then owed.
    pub fn take_frame(&mut self, connection: ConnectionNumber)
        requires { HasWire (wires_in self.old) connection IsDue }
        ensures changes { ChangesWire (wires_in self.old) connection (λ wire after. after ≡ taken wire)
            (wires_in self.new) }
        ensures noted { Notes (wires_in self.old) (tally_in self.old) connection
            (wires_in self.new) (tally_in self.new) }
    {
        let read = self.noted.take_frame(connection);
        self.unread -= read as u128;
    }

    /// Gives an answer to a connection, by its body, after all that is held for it. It rests on so many
    /// entries. If memory for it is refused nothing changes.
    pub fn answer(
        &mut self,
        connection: ConnectionNumber,
        to: AnswerTo,
        entries: u64,
        body: &[u8],
    ) -> Result<(), NoMemory>
        requires can { HasWire (wires_in self.old) connection (CanAnswer to) }
        requires fits { IsFrameBody body.now }
        ensures answers { OnOk result (ChangesWire (wires_in self.old) connection
            (λ wire after. AnswersBy (wires_in self.old).written (owing to wire) entries body.now after)
            (wires_in self.new)) }
        ensures noted { OnOk result (Notes (wires_in self.old) (tally_in self.old) connection
            (wires_in self.new) (tally_in self.new)) }
        ensures refused { OnErr result (wires_in self.new ≡ wires_in self.old) }
        ensures kept { OnErr result (tally_in self.new ≡ tally_in self.old) }
    {
        let read = self.noted.answer(connection, to, entries, body)?;
        self.unread -= read as u128;
        Ok(())
    }

    /// Lends the buffer in which the texts of answers are written, so that one text after another takes no
    /// memory unless it needs more room. While it is lent, there is none.
    pub fn lend_room(&mut self) -> Vec<u8>
        ensures same { wires_in self.new ≡ wires_in self.old }
        ensures tally { tally_in self.new ≡ tally_in self.old }
    {
        let none = Vec::new(*self.room.allocator());
        mem::replace(&mut self.room, none)
    }

    /// Takes the buffer back. It stays as large as the longest text needed: at most twice the bytes that a
    /// body may have.
    pub fn keep_room(&mut self, room: Vec<u8>)
        ensures same { wires_in self.new ≡ wires_in self.old }
        ensures tally { tally_in self.new ≡ tally_in self.old }
    {
        self.room = room;
    }

    /// The input of a connection has ended.
    pub fn end_input(&mut self, connection: ConnectionNumber)
        requires { IsSome ((wires_in self.old).wires connection) }
        ensures changes { ChangesWire (wires_in self.old) connection (λ wire after. after ≡ input_ended wire)
            (wires_in self.new) }
        ensures noted { Notes (wires_in self.old) (tally_in self.old) connection
            (wires_in self.new) (tally_in self.new) }
    {
        self.noted.end_input(connection)
    }

    /// So many of the bytes of a connection that may leave have left.
    pub fn took(&mut self, connection: ConnectionNumber, count: usize)
        requires { HasWire (wires_in self.old) connection (λ wire. count ≤ length wire.ready) }
        ensures changes { ChangesWire (wires_in self.old) connection
            (λ wire after. after ≡ left_by wire count) (wires_in self.new) }
        ensures noted { Notes (wires_in self.old) (tally_in self.old) connection
            (wires_in self.new) (tally_in self.new) }
    {
        self.noted.took(connection, count)
    }

    /// From now on so many entries are written, and all answers that rest on no more are released. It takes
    /// time only for the connections that it releases. A refused growth of memory does no harm: the next call
    /// looks at a connection in vain.
    pub fn release(&mut self, written: u64)
        ensures releases { ReleasesAll (wires_in self.old) written (wires_in self.new) }
        ensures noted { NotesReleased (wires_in self.old) (tally_in self.old) written (tally_in self.new) }
    {
        self.noted.release(written)
    }

    /// The connections with bytes that may leave since the last `release` and might not before it.
    pub fn released(&self) -> &[ConnectionNumber]
        ensures { result.now ≡ (wires_in self.now).released }
    {
        &self.noted.slots.released
    }

    /// Closes a connection: nothing is held for it any more, and its number is free.
    pub fn close(&mut self, connection: ConnectionNumber)
        ensures closed { SetsWire (wires_in self.old) connection None (wires_in self.new) }
        ensures noted { IsSome ((wires_in self.old).wires connection)
            → Notes (wires_in self.old) (tally_in self.old) connection
            (wires_in self.new) (tally_in self.new) }
        ensures same { (wires_in self.old).wires connection ≡ None
            → tally_in self.new ≡ tally_in self.old }
    {
        let gone = unread_of(&self.noted, connection);
        self.noted.close(connection);
        self.unread -= gone as u128;
    }

    /// How many bytes of answers are held for all connections.
    pub fn held(&self) -> u128
        ensures { IsTotalHeld (wires_in self.now).wires result }
    {
        self.noted.slots.held
    }

    /// How many bytes are unread, over all connections.
    pub fn unread_count(&self) -> u128
        ensures { IsTotalUnread (wires_in self.now).wires result }
    {
        let Wires { unread, .. } = self;
        *unread
    }

    /// The connections that changed since `clear_changed`, each once: those that were opened or closed, got
    /// an answer, or whose input ended, and those whose bytes came, left, or may leave now.
    pub fn changed(&self) -> &[ConnectionNumber]
        ensures all { result.now ≡ (tally_in self.now).changed }
        ensures once { AllPairs (λ one other. one ≢ other) result.now }
    {
        &self.noted.changes.numbers
    }

    /// Empties the list of those that changed. It takes time for those that are listed.
    pub fn clear_changed(&mut self)
        ensures same { wires_in self.new ≡ wires_in self.old }
        ensures cleared { tally_in self.new ≡ record (tally_in self.old) { changed = [] } }
    {
        self.noted.clear_changed()
    }
}
