//! The hub: its events, and what can be read off it.
ghost use Rattle.std.specs.Prelude.{◌≡◌};

use crate::dispatcher::Dispatcher;
use crate::events::{EventRefusal, HubEvent};
use crate::handling;
use crate::parts::HubParts;
use rv_account::Entry;
use rv_account::rules::Limits;
use rv_machine::Machine;
use rv_server_connections::connection::Wire;
use rv_server_connections::subscribers::ConnectionNumber;
use rv_text::NoMemory;
use std::alloc::Global;
use std::marker::Model;

/// The default number of milliseconds after which a waiting request is told so: ten seconds.
pub const DEFAULT_PATIENCE: u32 = 10_000;

/// The engine of a server: thousands of connections over one machine. Contracts see its parts, which always
/// are as they must be between two events.
pub struct Hub {
    parts: HubParts,
}

// Whoever owns one drops it in one step.
impl Drop for Hub {
    fn drop(self) {
        let Hub { parts: _ } = self;
    }
}

impl Model for Hub {
    ghost use Rattle.rv_hub.specs.declared.parts.HubParts.{HubParts};
    ghost use Rattle.rv_hub.specs.contracts.parts.HubParts as row;

    ghost Value = { HubParts };

    ghost coded = { row.the_row.coded };

    ghost use Rattle.rv_hub.specs.Hubs.{IsHub};

    ghost view = { λ h. h.parts };

    ghost invariant = { λ h. IsHub h.parts };
}

impl Hub {
    ghost use Rattle.std.specs.Prelude.{◌↔◌, ◌≢◌, ℕ, AllPairs, IfErr, IfNone, IfOk, IfSome};
    ghost use Rattle.std.specs.Prelude.{IsTrue, OnErr, OnOk, [], max};
    ghost use Rattle.std.specs.Option.{option_copied};
    ghost use Rattle.rv_machine.specs.Machines.{state_in};
    ghost use Rattle.rv_account.specs.state.resume.Resuming.{CanResume};
    ghost use Rattle.rv_account.specs.rules.StepLimits.{AreStepLimits};
    ghost use Rattle.rv_server_connections.specs.subscribers.Subscription.{nobody};
    ghost use Rattle.rv_server_connections.specs.Connections.{AllHeldBack, IsTotalHeld, IsTotalUnread};
    ghost use Rattle.rv_server_connections.specs.Connections.{none_open};
    ghost use Rattle.rv_hub.specs.dispatcher.View.{begun};
    ghost use Rattle.rv_hub.specs.dispatcher.Telling.{CountsUnheard, IsUnheard};
    ghost use Rattle.rv_hub.specs.dispatcher.Rest.{IsNextMoment};
    ghost use Rattle.rv_hub.specs.dispatcher.Runs.{ListsChanged};
    ghost use Rattle.rv_hub.specs.Hubs.{IsHub, hub_state, hub_terms};
    ghost use Rattle.rv_hub.specs.declared.events.HubEvent.TheVariants as what;
    ghost use Rattle.rv_hub.specs.declared.events.EventRefusal.TheVariants as refused;
    ghost use Rattle.rv_hub.specs.Events.{EventCan};
    ghost use Rattle.rv_hub.specs.Turns.{EventRefused, TakesEvent, TakesPiece};

    /// A hub over a machine, with the limits of each step. A waiting request is told so when it has waited
    /// `patience` milliseconds for a frame, at least 1 (usually [`DEFAULT_PATIENCE`]). The machine's entries
    /// so far count as written. From then on, if a journal is kept, `Written` says what is written; else all
    /// is.
    pub fn new(
        alloc: Global,
        machine: Machine,
        limits: Limits,
        patience: u32,
        has_journal: bool,
    ) -> Result<Hub, NoMemory>
        requires resumes { CanResume (state_in machine) }
        requires limits { AreStepLimits limits }
        ensures state { IfOk result (λ h. hub_state h ≡ record {
          book = state_in machine;
          now = (state_in machine).moment;
          open_wires = none_open (state_in machine).length;
          changed = [];
          hears = nobody;
        }) }
        ensures none_made { IfOk result (λ h. h.dispatcher.entries.items ≡ []) }
        ensures terms { IfOk result (λ h. hub_terms h
            ≡ record { limits = limits; patience = max 1 patience }) }
        ensures journal { IfOk result (λ h. h.has_journal ≡ has_journal) }
    {
        let dispatcher = Dispatcher::new(alloc, machine, limits, patience)?;
        Ok(Hub {
            parts: HubParts {
                dispatcher,
                has_journal,
            },
        })
    }

    /// Takes an event that came at a moment in milliseconds: one above 2^62 counts as that, and one below the
    /// greatest so far counts as that. Gives the number of a connection that was opened, or how many bytes of
    /// a piece were taken, else 0. A refused event changes nothing but `entries` and `changed`, which are
    /// then empty.
    pub fn handle(&mut self, now: u64, event: HubEvent<'_>) -> Result<usize, EventRefusal>
        ensures hub { IsHub self.new }
        ensures takes { IfOk result (λ given. TakesEvent self.old.has_journal (hub_terms self.old)
            (hub_state self.old) now event.entry self.new.dispatcher.entries.items given
            (hub_state self.new)) }
        ensures piece { IfOk result (λ given. TakesPiece event.entry given (hub_state self.new)) }
        ensures listed { OnOk result (ListsChanged (begun (hub_state self.old)) (hub_state self.new)) }
        ensures refused { IfErr result (EventRefused (hub_state self.old) event.entry) }
        ensures same { OnErr result (hub_state self.new ≡ begun (hub_state self.old)) }
        ensures none_made { OnErr result (self.new.dispatcher.entries.items ≡ []) }
        ensures terms { hub_terms self.new ≡ hub_terms self.old }
        ensures journal { self.new.has_journal ≡ self.old.has_journal }
    {
        handling::handle(
            &mut self.parts.dispatcher,
            self.parts.has_journal,
            now,
            &event,
        )
    }

    /// The same as [`handle`](Hub::handle), for an event that can be, which isn't checked again. It may be
    /// refused only if it opens a connection for which memory is refused: then nothing changes but `entries`
    /// and `changed`, which are then empty.
    pub fn take(&mut self, now: u64, event: HubEvent<'_>) -> Result<usize, EventRefusal>
        requires can { EventCan (hub_state self.old) event }
        ensures hub { IsHub self.new }
        ensures takes { IfOk result (λ given. TakesEvent self.old.has_journal (hub_terms self.old)
            (hub_state self.old) now event.entry self.new.dispatcher.entries.items given
            (hub_state self.new)) }
        ensures piece { IfOk result (λ given. TakesPiece event.entry given (hub_state self.new)) }
        ensures listed { OnOk result (ListsChanged (begun (hub_state self.old)) (hub_state self.new)) }
        ensures refused { IfErr result (λ why. (event.entry ≡ what.Opened) × (why ≡ refused.NoMemory)) }
        ensures same { OnErr result (hub_state self.new ≡ begun (hub_state self.old)) }
        ensures none_made { OnErr result (self.new.dispatcher.entries.items ≡ []) }
        ensures terms { hub_terms self.new ≡ hub_terms self.old }
        ensures journal { self.new.has_journal ≡ self.old.has_journal }
    {
        let has_journal = self.parts.has_journal;
        handling::take(&mut self.parts.dispatcher, has_journal, now, &event)
    }

    /// The entries that the last event made, in order; none if it was refused.
    pub fn entries(&self) -> &[Entry]
        ensures { result.now ≡ self.now.dispatcher.entries.items }
    {
        self.parts.dispatcher.entries()
    }

    /// The connections that the last event changed, each once: those that were opened or closed, got an
    /// answer, or whose input ended, and those whose bytes came, left, or may leave now.
    pub fn changed(&self) -> &[ConnectionNumber]
        ensures all { result.now ≡ (hub_state self.now).changed }
        ensures once { AllPairs (λ one other. one ≢ other) result.now }
    {
        self.parts.dispatcher.wires().changed()
    }

    /// The connection of a number, if it is open: whether it is owed an answer, and so waits; its unread,
    /// held and ready bytes; and whether it may offer more. The bytes that may not leave begin with an answer
    /// that rests on an unwritten entry.
    pub fn wire(&self, connection: ConnectionNumber) -> Option<&Wire>
        ensures wire { option_copied result ≡ (hub_state self.now).open_wires.wires connection }
        ensures held_back { AllHeldBack (hub_state self.now).open_wires }
    {
        self.parts.dispatcher.wires().get(connection)
    }

    /// How many bytes of answers are held for all connections.
    pub fn held(&self) -> u128
        ensures { IsTotalHeld (hub_state self.now).open_wires.wires result }
    {
        self.parts.dispatcher.wires().held()
    }

    /// How many bytes are unread, over all connections.
    pub fn unread_count(&self) -> u128
        ensures { IsTotalUnread (hub_state self.now).open_wires.wires result }
    {
        self.parts.dispatcher.wires().unread_count()
    }

    /// How many entries are written.
    pub fn written(&self) -> u64
        ensures { result ≡ (hub_state self.now).open_wires.written }
    {
        self.parts.dispatcher.wires().written()
    }

    /// The greatest moment so far.
    pub fn now(&self) -> u64
        ensures { result ≡ (hub_state self.now).now }
    {
        self.parts.dispatcher.now()
    }

    /// The machine, whose steps are the account.
    pub fn machine(&self) -> &Machine
        ensures { result.now ≡ self.now.dispatcher.machine }
    {
        self.parts.dispatcher.machine()
    }

    /// Whether a client has a waiting request for which no connection waits.
    pub fn is_unheard(&self, client: u64) -> bool
        ensures { IsTrue result ↔ IsUnheard (hub_state self.now).book (hub_state self.now).hears client }
    {
        self.parts.dispatcher.is_unheard(client)
    }

    /// How many requests wait for which no connection waits.
    pub fn unheard(&self) -> usize
        ensures { CountsUnheard (hub_state self.now).book (hub_state self.now).hears result }
    {
        self.parts.dispatcher.unheard()
    }

    /// The next moment at which time must go on, if there is one: the earliest of the machine's limits and of
    /// the moments up to which a connection waits.
    pub fn next_moment(&self) -> Option<u64>
        ensures some { IfSome result (IsNextMoment (hub_state self.now)) }
        ensures none { IfNone result ((moment : ℕ) → ¬ IsNextMoment (hub_state self.now) moment) }
    {
        self.parts.dispatcher.next_moment()
    }
}
