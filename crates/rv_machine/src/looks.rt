//! What is read off a machine.
ghost use Rattle.std.specs.Prelude.{◌≡◌, ◌≤◌, ◌+◌, IfNone, IfSome, length, option_map, slice_get, ℕ, []};
ghost use Rattle.std.specs.FinMap.{len};
ghost use Rattle.rv_text.specs.Limits.{FitsQueue, FitsSide};
ghost use Rattle.rv_machine.specs.open_places.OpenMap.{first_behind, most_counted};
ghost use Rattle.rv_session.specs.ClientOrder.{next_client};
ghost use Rattle.rv_text.specs.declared.call.Side.TheVariants.{Gives, Takes};
ghost use Rattle.rv_account.specs.state.After.{due_at};
ghost use Rattle.rv_account.specs.state.State.{client_at, line, open_at, place_list, waiting_count};
ghost use Rattle.rv_machine.specs.Machines.{state_in};
ghost use Rattle.rv_machine.specs.Redoing.{IsNextLimit};

use crate::machine::Machine;
use rv_session::{ClientState, OpenPlace, Place};
use rv_text::{Key, Side};

impl Machine {
    /// The epoch.
    pub fn epoch(&self) -> u64
        ensures { result ≡ (state_in self.now).epoch }
    {
        self.tables.clients.epoch()
    }

    /// How many entries there were.
    pub fn length(&self) -> usize
        ensures { result ≡ (state_in self.now).length }
    {
        self.tables.length
    }

    /// The moment of the last entry, or the opening moment, in milliseconds.
    pub fn moment(&self) -> u64
        ensures { result ≡ (state_in self.now).moment }
    {
        self.tables.moment
    }

    /// How many clients said a hello.
    pub fn clients(&self) -> usize
        ensures { result ≡ len (state_in self.now).clients }
    {
        self.tables.clients.len()
    }

    /// The client's state, if it said hello.
    pub fn client(&self, client: u64) -> Option<&ClientState>
        ensures { option_map (λ c. c.now) result ≡ client_at (state_in self.now) client }
    {
        self.tables.clients.get(client)
    }

    /// How many places are open.
    pub fn open_places(&self) -> usize
        ensures { result ≡ length (state_in self.now).open_places }
    {
        self.tables.table.len()
    }

    /// What is open at a place.
    pub fn open_at(&self, place: Place) -> Option<&OpenPlace>
        ensures { option_map (λ o. o.now) result ≡ open_at (state_in self.now) place }
    {
        self.tables.table.get(place)
    }

    /// How many requests wait. Together with the entries that there were, they are at most 2^54.
    pub fn waiting(&self) -> usize
        ensures count { result ≡ waiting_count (state_in self.now) }
        ensures space { (state_in self.now).length + result ≤ most_counted }
    {
        self.tables.table.waiting()
    }

    /// How many items and how many consumers wait in a queue.
    pub fn count(&self, queue: u64) -> (usize, usize)
        requires { FitsQueue queue }
        ensures items { result.0 ≡ length (line (state_in self.now) (Gives queue)) }
        ensures consumers { result.1 ≡ length (line (state_in self.now) (Takes queue)) }
    {
        self.tables.table.count(queue)
    }

    /// The place of a queue's oldest item.
    pub fn front(&self, queue: u64) -> Option<Place>
        requires { FitsQueue queue }
        ensures { result ≡ slice_get (place_list (line (state_in self.now) (Gives queue))) 0 }
    {
        Some(self.tables.table.front(queue)?.place)
    }

    /// The first open place on a side that is above the given one, or the first on the side if none is given.
    /// So a side can be read in order without a copy.
    pub fn behind(&self, side: Side, after: Option<Place>) -> Option<&OpenPlace>
        requires { FitsSide side }
        ensures { option_map (λ o. o.now) result ≡ first_behind after (line (state_in self.now) side) }
    {
        self.tables.table.behind(side, after)
    }

    /// The client with the least number above another, or of all, and its state. So clients are read in the
    /// order of their numbers, without a copy.
    pub fn next_client(&self, after: Option<u64>) -> Option<(u64, &ClientState)>
        ensures { option_map (λ p. (p.0, p.1.now)) result ≡ next_client (state_in self.now).clients after }
    {
        self.tables.clients.next(after)
    }

    /// The least limit of a request that waits, if one has a limit: the first moment at which something is
    /// due.
    pub fn next_limit(&self) -> Option<u64>
        ensures some { IfSome result (IsNextLimit (state_in self.now)) }
        ensures none { IfNone result ((moment : ℕ) → due_at (state_in self.now) moment ≡ []) }
    {
        self.tables.table.next_limit()
    }

    /// The keys that the last [`elapse`](Machine::elapse), [`hear`](Machine::hear) or [`redo`](Machine::redo)
    /// settled, in their order.
    pub fn settled(&self) -> &[Key]
        ensures { result.now ≡ self.now.settled.items }
    {
        &self.tables.settled
    }
}
