//! The engine: what a shell hands to it, and what can be read off it.
ghost use Rattle.std.specs.Prelude.{◌≡◌};

use crate::calls::{CALLS, CallCounts};
use crate::events::{EngineFault, LinkEvent, hub_event};
use crate::looks::LookList;
use crate::parts::EngineParts;
use crate::{handing, writing};
use rv_account::rules::Limits;
use rv_frame::Lasting;
use rv_hub::Hub;
use rv_machine::Machine;
use rv_server_connections::subscribers::ConnectionNumber;
use rv_text::NoMemory;
use std::alloc::Global;
use std::marker::Model;

/// A hub with the lines of its account that are to be written, if one is kept, and the connections that are
/// to be looked at. Contracts see its parts, which always are as they must be between two calls.
pub struct Engine {
    parts: EngineParts,
}

// Whoever owns one drops it in one step.
impl Drop for Engine {
    fn drop(self) {
        let Engine { parts: _ } = self;
    }
}

impl Model for Engine {
    ghost use Rattle.rv_engine.specs.declared.parts.EngineParts.{EngineParts};
    ghost use Rattle.rv_engine.specs.contracts.parts.EngineParts as row;

    ghost Value = { EngineParts };

    ghost coded = { row.the_row.coded };

    ghost use Rattle.rv_engine.specs.Engines.{IsEngine};

    ghost view = { λ e. e.parts };

    ghost invariant = { λ e. IsEngine e.parts };
}

impl Engine {
    ghost use Rattle.std.specs.Prelude.{◌↔◌, ◌<◌, ◌∷◌, ◌++◌, [], IfErr, IfNone, IfOk, IfSome, IsTrue, OnOk};
    ghost use Rattle.std.specs.Prelude.{AllPairs, ◌≢◌, OnErr, length, max};
    ghost use Rattle.std.specs.Bool.{OnFalse, OnTrue};
    ghost use Rattle.rv_frame.specs.Lasting.{LeavesHeld, LeavesFront, TakesBytes};
    ghost use Rattle.rv_machine.specs.Machines.{state_in};
    ghost use Rattle.rv_account.specs.state.resume.Resuming.{CanResume};
    ghost use Rattle.rv_account.specs.rules.StepLimits.{AreStepLimits};
    ghost use Rattle.rv_server_connections.specs.subscribers.Subscription.{nobody};
    ghost use Rattle.rv_server_connections.specs.Connections.{none_open};
    ghost use Rattle.rv_hub.specs.Hubs.{hub_terms};
    ghost use Rattle.rv_engine.specs.Engines.{engine_state};
    ghost use Rattle.rv_hub.specs.Events.{EventCan};
    ghost use Rattle.rv_engine.specs.Calls.{CallsAreCounted, CountsMore, CountsTold};
    ghost use Rattle.rv_engine.specs.Handing.{Gathers, HandsOn, HasWorked, IsNoOpening, IsNotTold, IsRefused};
    ghost use Rattle.rv_engine.specs.Handing.{LooksAt, TellsWritten, all_gone, told_hub, unwritten};

    /// An engine over a machine, with the limits of each step. A waiting request is told so when it has
    /// waited `patience` milliseconds for a frame, at least 1. Only connections below `room` are listed.
    pub fn new(
        alloc: Global,
        machine: Machine,
        limits: Limits,
        patience: u32,
        has_account: bool,
        room: usize,
    ) -> Result<Engine, NoMemory>
        requires resumes { CanResume (state_in machine) }
        requires limits { AreStepLimits limits }
        ensures state { IfOk result (λ e. engine_state e ≡ record {
          hub = record {
            book = state_in machine;
            now = (state_in machine).moment;
            open_wires = none_open (state_in machine).length;
            changed = [];
            hears = nobody;
          };
          lines = [];
          left = [];
          stored = (state_in machine).length;
          looks = [];
          round = [];
          room = room;
        }) }
        ensures terms { IfOk result (λ e. hub_terms e.hub
            ≡ record { limits = limits; patience = max 1 patience }) }
        ensures journal { IfOk result (λ e. e.hub.has_journal ≡ has_account) }
        ensures calls { IfOk result (λ e. CallsAreCounted [] e.calls) }
    {
        let (looks, round) = LookList::pair(alloc, room)?;
        let hub = Hub::new(alloc, machine, limits, patience, has_account)?;
        let gathered = hub.entries().len();
        let book = hub.machine();
        let stored = book.length();
        Ok(Engine {
            parts: EngineParts {
                alloc,
                hub,
                has_account,
                lines: String::new(alloc),
                gathered,
                stored,
                calls: [0; CALLS],
                looks,
                round,
            },
        })
    }

    /// Hands on an event that came at a moment in milliseconds, once all lines of earlier entries are
    /// gathered. Gives the number of a connection that was opened, or how many bytes of a piece were taken,
    /// else 0.
    pub fn tell(&mut self, now: u64, event: LinkEvent<'_>) -> Result<usize, EngineFault>
        ensures takes { IfOk result (λ given. HandsOn self.old.hub.has_journal (hub_terms self.old.hub)
            (engine_state self.old) now (told_hub event.entry) self.new.hub.dispatcher.entries.items given
            (engine_state self.new)) }
        ensures refused { IfErr result (λ why. IsRefused (engine_state self.old) (told_hub event.entry) why
            (engine_state self.new)) }
        ensures terms { hub_terms self.new.hub ≡ hub_terms self.old.hub }
        ensures journal { self.new.hub.has_journal ≡ self.old.hub.has_journal }
        ensures calls { IfOk result (λ _. CountsMore self.old.calls self.new.hub.dispatcher.entries.items
            self.new.calls) }
        ensures no_calls { OnErr result (self.new.calls ≡ self.old.calls) }
    {
        handing::hand_on(&mut self.parts, now, hub_event(event))
    }

    /// Hands on an event that can be, while no entry is left, so that it isn't refused. Gives what `tell`
    /// gives.
    pub fn hand(&mut self, now: u64, event: LinkEvent<'_>) -> usize
        requires none_left { (engine_state self.old).left ≡ [] }
        requires can { EventCan (engine_state self.old).hub (told_hub event) }
        requires no_opening { IsNoOpening (told_hub event) }
        ensures takes { HandsOn self.old.hub.has_journal (hub_terms self.old.hub) (engine_state self.old) now
            (told_hub event.entry) self.new.hub.dispatcher.entries.items result (engine_state self.new) }
        ensures terms { hub_terms self.new.hub ≡ hub_terms self.old.hub }
        ensures journal { self.new.hub.has_journal ≡ self.old.hub.has_journal }
        ensures calls { CountsMore self.old.calls self.new.hub.dispatcher.entries.items self.new.calls }
    {
        handing::hand_sure(&mut self.parts, now, hub_event(event))
    }

    /// Writes all lines that aren't written. If the hub knows of fewer entries as written, tells it that all
    /// are, and gives what the hub gives. If the device doesn't take all lines that are gathered, they stay
    /// gathered; if memory for some is refused, those before them are written. In both cases the hub isn't
    /// told. A crash at any moment of the call leaves what the device held, and a front of these lines.
    pub fn write_lines<L: Lasting>(
        &mut self,
        now: u64,
        file: &mut L,
    ) -> Result<Option<usize>, EngineFault>
        ensures written { OnOk result (TakesBytes L.lasts file.old file.new
            (unwritten (engine_state self.old))) }
        ensures works { OnOk result (HasWorked L.lasts file.old file.new) }
        ensures any_moment { LeavesFront L.lasts file.old (unwritten (engine_state self.old)) file.new }
        ensures durable { OnOk result (LeavesHeld L.lasts file.new) }
        ensures tells { IfOk result (λ told. TellsWritten self.old.hub.has_journal (hub_terms self.old.hub)
            (all_gone (engine_state self.old)) now self.new.hub.dispatcher.entries.items told
            (engine_state self.new)) }
        ensures not_told { IfErr result (λ why. IsNotTold L.lasts (engine_state self.old) file.old why
            (engine_state self.new) file.new) }
        ensures terms { hub_terms self.new.hub ≡ hub_terms self.old.hub }
        ensures journal { self.new.hub.has_journal ≡ self.old.hub.has_journal }
        ensures calls { IfOk result (λ told. CountsTold told self.old.calls
            self.new.hub.dispatcher.entries.items self.new.calls) }
        ensures no_calls { OnErr result (self.new.calls ≡ self.old.calls) }
    {
        writing::write_lines(&mut self.parts, now, file)
    }

    /// The lines that are gathered and not written.
    pub fn lines(&self) -> &str
        ensures { result.now ≡ (engine_state self.now).lines }
    {
        &self.parts.lines
    }

    /// Gathers the lines of entries that were left when memory was refused, as far as memory allows now.
    /// Gives whether none is left, so that the next event is handed on.
    pub fn catch_up(&mut self) -> bool
        ensures gathers { Gathers (engine_state self.old) (engine_state self.new) }
        ensures hub { self.new.hub ≡ self.old.hub }
        ensures yes { OnTrue result ((engine_state self.new).left ≡ []) }
        ensures no { OnFalse result (0 < length (engine_state self.new).left) }
        ensures calls { self.new.calls ≡ self.old.calls }
    {
        handing::try_to_catch_up(&mut self.parts)
    }

    /// A connection is to be looked at in the next round.
    pub fn look_at(&mut self, number: ConnectionNumber)
        ensures looks { LooksAt (engine_state self.old) (number ∷ []) (engine_state self.new) }
        ensures hub { self.new.hub ≡ self.old.hub }
        ensures lines { (engine_state self.new).lines ≡ (engine_state self.old).lines }
        ensures left { (engine_state self.new).left ≡ (engine_state self.old).left }
        ensures stored { (engine_state self.new).stored ≡ (engine_state self.old).stored }
        ensures calls { self.new.calls ≡ self.old.calls }
    {
        handing::look_at(&mut self.parts, number);
    }

    /// The connections that are to be looked at become the round, each once. Any that are left of the last
    /// round are to be looked at in the next one.
    pub fn begin_round(&mut self)
        ensures once { AllPairs (λ one other. one ≢ other) (engine_state self.old).looks }
        ensures round { engine_state self.new ≡ record (engine_state self.old) {
          looks = (engine_state self.old).round;
          round = (engine_state self.old).looks;
        } }
        ensures hub { self.new.hub ≡ self.old.hub }
        ensures calls { self.new.calls ≡ self.old.calls }
    {
        std::mem::swap(&mut self.parts.looks, &mut self.parts.round);
    }

    /// The next connection of the round, if one is left.
    pub fn next_look(&mut self) -> Option<ConnectionNumber>
        ensures some { IfSome result (λ number. (engine_state self.old).round
            ≡ (engine_state self.new).round ++ number ∷ []) }
        ensures none { IfNone result ((engine_state self.old).round ≡ []) }
        ensures over { IfNone result ((engine_state self.new).round ≡ []) }
        ensures rest { engine_state self.new
            ≡ record (engine_state self.old) { round = (engine_state self.new).round } }
        ensures hub { self.new.hub ≡ self.old.hub }
        ensures calls { self.new.calls ≡ self.old.calls }
    {
        self.parts.round.pop()
    }

    /// Whether no connection is to be looked at in the next round.
    pub fn is_quiet(&self) -> bool
        ensures { IsTrue result ↔ ((engine_state self.now).looks ≡ []) }
    {
        self.parts.looks.is_empty()
    }

    /// How many requests of each call are recorded in the entries that its events made.
    pub fn calls(&self) -> CallCounts
        ensures { result ≡ self.now.calls }
    {
        self.parts.calls
    }

    /// The hub.
    pub fn hub(&self) -> &Hub
        ensures { result.now ≡ self.now.hub }
    {
        &self.parts.hub
    }
}
