//! The dispatcher of a hub: a machine, the bytes of each connection, and who waits for what. A connection
//! goes on until it stops, and after each step all connections that it settled are told.
ghost use Rattle.std.specs.Prelude.{◌≡◌, ◌+◌, ◌≤◌, ◌↔◌, [], ℕ, None, Some, true, false, length, max};
ghost use Rattle.std.specs.Prelude.{option_map, IfErr, IfNone, IfOk, IfSome, IsSome, IsTrue, OnErr, OnOk};
ghost use Rattle.rv_account.specs.rules.StepLimits.{AreStepLimits};
ghost use Rattle.rv_machine.specs.Machines.{state_in};
ghost use Rattle.rv_account.specs.state.resume.Resuming.{CanResume};
ghost use Rattle.rv_server_connections.specs.connection.Steps.{input_ended, left_by};
ghost use Rattle.rv_server_connections.specs.Connections.{AllHeldBack, HasWire, none_open};
ghost use Rattle.rv_server_connections.specs.Wires.{wires_in};
ghost use Rattle.rv_server_connections.specs.subscribers.Subscription.{nobody};
ghost use Rattle.rv_server_connections.specs.subscribers.Subscribers.{subscribers_of};
ghost use Rattle.rv_hub.specs.dispatcher.View.{ChangesBytes, begun};
ghost use Rattle.rv_hub.specs.dispatcher.Telling.{CountsUnheard, DoesWait, IsUnheard};
ghost use Rattle.rv_hub.specs.dispatcher.Effects.{DoesClose, DoesOpen, DoesWrite};
ghost use Rattle.rv_hub.specs.dispatcher.Rest.{IsNextMoment};
ghost use Rattle.rv_hub.specs.dispatcher.Fields.{IsDispatcherReady, IsDispatcherSound, IsSteady};
ghost use Rattle.rv_hub.specs.dispatcher.Fields.{dispatcher_state, dispatcher_terms};
ghost use Rattle.rv_hub.specs.dispatcher.Going.{work_left};

mod asking;
pub mod laws;
mod telling;
mod time;
mod turns;

use rv_account::Entry;
use rv_account::rules::Limits;
use rv_machine::Machine;
use rv_server_connections::Wires;
use rv_server_connections::connection::Wire;
use rv_server_connections::subscribers::{ConnectionNumber, Subscribers};
use rv_session::LastRequest;
use rv_text::NoMemory;
use std::alloc::Global;
use std::collections::VecDeque;

/// A machine with the connections that send it requests, and which of them wait for what.
#[derive(Drop)]
pub struct Dispatcher {
    pub(crate) alloc: Global,
    pub(crate) machine: Machine,
    pub(crate) limits: Limits,
    // For how many milliseconds a request waits for a frame before it is told so.
    pub(crate) patience: u32,
    // The greatest moment so far.
    pub(crate) latest: u64,
    // The open connections, and how many entries are written.
    pub(crate) wires: Wires,
    pub(crate) subscribers: Subscribers,
    // Those that were told, in order: each goes on with the next of its frames.
    pub(crate) freed: VecDeque<ConnectionNumber>,
    // The entries that were made since they were last let go.
    pub(crate) entries: Vec<Entry>,
}

// Whether a last request waits.
pub(crate) fn is_waiting(request: &LastRequest) -> bool
    ensures { IsTrue result ↔ DoesWait request.now }
{
    match request {
        LastRequest::Waits { .. } => true,
        LastRequest::Fresh => false,
        LastRequest::RepliedTo { .. } => false,
        LastRequest::CancelledUnseen => false,
    }
}

impl Dispatcher {
    /// A dispatcher with no connection over a machine, with the limits of each step. A waiting request is
    /// told so when it has waited `patience` milliseconds for a frame. The machine's entries so far are
    /// written, and none has been made since.
    pub fn new(
        alloc: Global,
        machine: Machine,
        limits: Limits,
        patience: u32,
    ) -> Result<Dispatcher, NoMemory>
        requires resumes { CanResume (state_in machine) }
        requires limits { AreStepLimits limits }
        ensures ready { IfOk result IsDispatcherReady }
        ensures none_made { IfOk result (λ d. d.entries.items ≡ []) }
        ensures state { IfOk result (λ d. dispatcher_state d ≡ record {
          book = state_in machine;
          now = (state_in machine).moment;
          open_wires = none_open (state_in machine).length;
          changed = [];
          hears = nobody;
        }) }
        ensures terms { IfOk result (λ d. dispatcher_terms d
            ≡ record { limits = limits; patience = max 1 patience }) }
    {
        let latest = machine.moment();
        let length = machine.length() as u64;
        match Vec::with_capacity(alloc, 1) {
            Ok(entries) => Ok(Dispatcher {
                alloc,
                machine,
                limits,
                patience: patience.max(1),
                latest,
                wires: Wires::new(alloc, length),
                subscribers: Subscribers::new(alloc),
                freed: VecDeque::new(alloc),
                entries,
            }),
            Err(refused) => {
                drop(machine);
                Err(refused)
            }
        }
    }

    /// The machine.
    pub fn machine(&self) -> &Machine
        ensures { result.now ≡ self.now.machine }
    {
        &self.machine
    }

    /// The greatest moment so far.
    pub fn now(&self) -> u64
        ensures { result ≡ self.now.latest }
    {
        self.latest
    }

    /// The open connections.
    pub fn wires(&self) -> &Wires
        ensures wires { result.now ≡ self.now.wires }
        ensures held_back { AllHeldBack (wires_in self.now.wires) }
    {
        &self.wires
    }

    /// The entries that were made since [`begin`](Dispatcher::begin), in order.
    pub fn entries(&self) -> &[Entry]
        ensures { result.now ≡ self.now.entries.items }
    {
        &self.entries
    }

    /// Whether a client has a waiting request for which no connection waits. It takes time logarithmic in the
    /// number of clients.
    pub fn is_unheard(&self, client: u64) -> bool
        ensures { IsTrue result ↔ IsUnheard (state_in self.now.machine) (subscribers_of self.now.subscribers)
            client }
    {
        match self.machine.client(client) {
            Some(session) => is_waiting(&session.request) && !self.subscribers.is_heard(client),
            None => false,
        }
    }

    /// How many requests wait for which no connection waits. It takes constant time.
    pub fn unheard(&self) -> usize
        requires { IsDispatcherReady self.now }
        ensures { CountsUnheard (state_in self.now.machine) (subscribers_of self.now.subscribers) result }
    {
        self.machine.waiting() - self.subscribers.clients_heard()
    }

    /// The next moment at which time must go on, if there is one: the earliest of the machine's limits and of
    /// the moments up to which a connection waits.
    pub fn next_moment(&self) -> Option<u64>
        ensures some { IfSome result (IsNextMoment (dispatcher_state self.now)) }
        ensures none { IfNone result ((moment : ℕ) → ¬ IsNextMoment (dispatcher_state self.now) moment) }
    {
        let until = match self.subscribers.next_until() {
            Some((until, _)) => Some(until),
            None => None,
        };
        match (self.machine.next_limit(), until) {
            (Some(limit), Some(until)) => Some(limit.min(until)),
            (limit, None) => limit,
            (None, until) => until,
        }
    }

    /// Lets go of the entries, and of the list of changed connections.
    pub fn begin(&mut self)
        requires { IsDispatcherReady self.old }
        ensures ready { IsDispatcherReady self.new }
        ensures entries { self.new.entries.items ≡ [] }
        ensures state { dispatcher_state self.new ≡ begun (dispatcher_state self.old) }
        ensures terms { dispatcher_terms self.new ≡ dispatcher_terms self.old }
    {
        self.entries.clear();
        self.wires.clear_changed();
    }

    /// Opens a connection, and gives its number.
    pub fn open(&mut self) -> Result<ConnectionNumber, NoMemory>
        requires { IsDispatcherReady self.old }
        ensures ready { IsDispatcherReady self.new }
        ensures opens { IfOk result (λ connection.
            DoesOpen (dispatcher_state self.old) connection (dispatcher_state self.new)) }
        ensures refused { OnErr result (dispatcher_state self.new ≡ dispatcher_state self.old) }
        ensures rest { self.new ≡ record self.old { wires = self.new.wires } }
    {
        self.wires.open()
    }

    /// The input of an open connection has ended.
    pub fn end_input(&mut self, connection: ConnectionNumber)
        requires ready { IsDispatcherReady self.old }
        requires open_wire { HasWire (wires_in self.old.wires) connection (λ wire. wire.ended ≡ false) }
        ensures ready { IsDispatcherReady self.new }
        ensures ends { ChangesBytes (dispatcher_state self.old) connection
            (λ wire after. (wire.ended ≡ false) × (after ≡ input_ended wire)) (dispatcher_state self.new) }
        ensures rest { self.new ≡ record self.old { wires = self.new.wires } }
    {
        self.wires.end_input(connection);
    }

    /// So many of an open connection's bytes that may leave have left.
    pub fn took(&mut self, connection: ConnectionNumber, count: usize)
        requires ready { IsDispatcherReady self.old }
        requires offered { HasWire (wires_in self.old.wires) connection (λ wire. count ≤ length wire.ready) }
        ensures ready { IsDispatcherReady self.new }
        ensures leaves { ChangesBytes (dispatcher_state self.old) connection
            (λ wire after. (count ≤ length wire.ready) × (after ≡ left_by wire count)) (dispatcher_state
            self.new) }
        ensures rest { self.new ≡ record self.old { wires = self.new.wires } }
    {
        self.wires.took(connection, count);
    }

    /// So many entries are written.
    pub fn write(&mut self, entries: u64)
        requires ready { IsDispatcherReady self.old }
        requires rises { (wires_in self.old.wires).written ≤ entries }
        requires within { entries ≤ (state_in self.old.machine).length }
        ensures ready { IsDispatcherReady self.new }
        ensures writes { DoesWrite (dispatcher_state self.old) entries (dispatcher_state self.new) }
        ensures rest { self.new ≡ record self.old { wires = self.new.wires } }
    {
        self.wires.release(entries);
    }

    /// Closes an open connection. Its request goes on waiting in the machine.
    pub fn close(&mut self, connection: ConnectionNumber)
        requires ready { IsDispatcherReady self.old }
        requires open_wire { IsSome ((wires_in self.old.wires).wires connection) }
        ensures ready { IsDispatcherReady self.new }
        ensures closes { DoesClose (dispatcher_state self.old) connection (dispatcher_state self.new) }
        ensures rest { self.new ≡ record self.old {
          wires = self.new.wires;
          subscribers =
              self.new.subscribers;
        } }
    {
        self.shut(connection);
    }

    // The same, within an event too.
    pub(crate) fn shut(&mut self, connection: ConnectionNumber)
        requires sound { IsDispatcherSound self.old }
        requires open_wire { IsSome ((wires_in self.old.wires).wires connection) }
        ensures ready { IsDispatcherReady self.old → IsDispatcherReady self.new }
        ensures steady { IsSteady self.old → IsSteady self.new }
        ensures closes { DoesClose (dispatcher_state self.old) connection (dispatcher_state self.new) }
        ensures rest { self.new ≡ record self.old {
          wires = self.new.wires;
          subscribers =
              self.new.subscribers;
        } }
        ensures less { work_left self.new ≤ work_left self.old }
    {
        self.subscribers.remove(connection);
        self.wires.close(connection);
    }
}
