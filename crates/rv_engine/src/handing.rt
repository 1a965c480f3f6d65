//! Hands events on to the hub.
ghost use Rattle.std.specs.Prelude.{◌≡◌, ◌≤◌, ◌<◌, ◌∷◌, [], length, true, false, IfErr, IfOk, OnErr};
ghost use Rattle.std.specs.Bool.{OnFalse, OnTrue};
ghost use Rattle.rv_hub.specs.Hubs.{hub_terms};
ghost use Rattle.rv_engine.specs.Engines.{IsEngine, engine_state};
ghost use Rattle.rv_hub.specs.Events.{EventCan};
ghost use Rattle.rv_engine.specs.Calls.{CountsMore};
ghost use Rattle.rv_engine.specs.Handing.{Gathers, HandsOn, IsNoOpening, IsRefused, LooksAt, TellsStored};
ghost use Rattle.rv_engine.specs.Noting.{HasTaken, NotesEvent};

use crate::calls::note_arrivals;
use crate::events::EngineFault;
use crate::gathering::{gather, gather_kept};
use crate::parts::EngineParts;
use rv_hub::HubEvent;
use rv_server_connections::subscribers::ConnectionNumber;

/// Gathers the lines of the entries that are left, as far as memory allows.
pub(crate) fn catch_up(parts: &mut EngineParts)
    requires { IsEngine parts.old }
    ensures sound { IsEngine parts.new }
    ensures gathers { Gathers (engine_state parts.old) (engine_state parts.new) }
    ensures hub { parts.new.hub ≡ parts.old.hub }
    ensures calls { parts.new.calls ≡ parts.old.calls }
{
    if !parts.has_account {
        return;
    }
    let left = &parts.hub.entries()[parts.gathered..];
    parts.gathered += gather(&mut parts.lines, parts.alloc, left);
}

/// Whether no entry is left.
pub(crate) fn is_caught_up(parts: &EngineParts) -> bool
    requires { IsEngine parts.now }
    ensures yes { OnTrue result ((engine_state parts.now).left ≡ []) }
    ensures no { OnFalse result (0 < length (engine_state parts.now).left) }
{
    parts.gathered == parts.hub.entries().len()
}

/// Gathers the lines of the entries that are left, and gives whether none is left now.
pub(crate) fn try_to_catch_up(parts: &mut EngineParts) -> bool
    requires { IsEngine parts.old }
    ensures sound { IsEngine parts.new }
    ensures gathers { Gathers (engine_state parts.old) (engine_state parts.new) }
    ensures hub { parts.new.hub ≡ parts.old.hub }
    ensures yes { OnTrue result ((engine_state parts.new).left ≡ []) }
    ensures no { OnFalse result (0 < length (engine_state parts.new).left) }
    ensures calls { parts.new.calls ≡ parts.old.calls }
{
    catch_up(parts);
    is_caught_up(parts)
}

// After the hub took an event: gathers the lines of the entries that this made, counts the requests among
// them, and lists whom it changed.
fn note_event(parts: &mut EngineParts)
    requires { HasTaken parts.old }
    ensures sound { IsEngine parts.new }
    ensures notes { NotesEvent parts.old parts.new }
    ensures hub { parts.new.hub ≡ parts.old.hub }
    ensures calls { CountsMore parts.old.calls parts.new.hub.dispatcher.entries.items parts.new.calls }
{
    let made = parts.hub.entries();
    parts.gathered = gather_kept(&mut parts.lines, parts.alloc, parts.has_account, made);
    note_arrivals(&mut parts.calls, made);
    parts.looks.add_all(parts.hub.changed());
}

// Hands an event to the hub, where no entry is left.
fn hand_over(parts: &mut EngineParts, now: u64, event: HubEvent<'_>) -> Result<usize, EngineFault>
    requires sound { IsEngine parts.old }
    requires none_left { (engine_state parts.old).left ≡ [] }
    requires tells { TellsStored event (engine_state parts.old).stored }
    ensures sound { IsEngine parts.new }
    ensures takes { IfOk result (λ given. HandsOn parts.old.hub.has_journal (hub_terms parts.old.hub)
        (engine_state parts.old) now event.entry parts.new.hub.dispatcher.entries.items given
        (engine_state parts.new)) }
    ensures refused { IfErr result (λ why. IsRefused (engine_state parts.old) event.entry why
        (engine_state parts.new)) }
    ensures terms { hub_terms parts.new.hub ≡ hub_terms parts.old.hub }
    ensures journal { parts.new.hub.has_journal ≡ parts.old.hub.has_journal }
    ensures calls { IfOk result (λ _. CountsMore parts.old.calls parts.new.hub.dispatcher.entries.items
        parts.new.calls) }
    ensures no_calls { OnErr result (parts.new.calls ≡ parts.old.calls) }
{
    match parts.hub.handle(now, event) {
        Ok(given) => {
            note_event(parts);
            Ok(given)
        }
        Err(why) => {
            parts.gathered = 0;
            Err(EngineFault::Refused(why))
        }
    }
}

/// Hands on an event that can be, while no entry is left, so that it isn't refused.
pub(crate) fn hand_sure(parts: &mut EngineParts, now: u64, event: HubEvent<'_>) -> usize
    requires sound { IsEngine parts.old }
    requires none_left { (engine_state parts.old).left ≡ [] }
    requires can { EventCan (engine_state parts.old).hub event }
    requires no_opening { IsNoOpening event }
    requires tells { TellsStored event (engine_state parts.old).stored }
    ensures sound { IsEngine parts.new }
    ensures takes { HandsOn parts.old.hub.has_journal (hub_terms parts.old.hub) (engine_state parts.old) now
        event.entry parts.new.hub.dispatcher.entries.items result (engine_state parts.new) }
    ensures terms { hub_terms parts.new.hub ≡ hub_terms parts.old.hub }
    ensures journal { parts.new.hub.has_journal ≡ parts.old.hub.has_journal }
    ensures calls { CountsMore parts.old.calls parts.new.hub.dispatcher.entries.items parts.new.calls }
{
    match parts.hub.take(now, event) {
        Ok(given) => {
            note_event(parts);
            given
        }
        Err(_) => unreachable!(),
    }
}

// Hands an event on, once all lines of earlier entries are gathered.
pub(crate) fn hand_on(
    parts: &mut EngineParts,
    now: u64,
    event: HubEvent<'_>,
) -> Result<usize, EngineFault>
    requires sound { IsEngine parts.old }
    requires tells { TellsStored event (engine_state parts.old).stored }
    ensures sound { IsEngine parts.new }
    ensures takes { IfOk result (λ given. HandsOn parts.old.hub.has_journal (hub_terms parts.old.hub)
        (engine_state parts.old) now event.entry parts.new.hub.dispatcher.entries.items given
        (engine_state parts.new)) }
    ensures refused { IfErr result (λ why. IsRefused (engine_state parts.old) event.entry why
        (engine_state parts.new)) }
    ensures terms { hub_terms parts.new.hub ≡ hub_terms parts.old.hub }
    ensures journal { parts.new.hub.has_journal ≡ parts.old.hub.has_journal }
    ensures calls { IfOk result (λ _. CountsMore parts.old.calls parts.new.hub.dispatcher.entries.items
        parts.new.calls) }
    ensures no_calls { OnErr result (parts.new.calls ≡ parts.old.calls) }
{
    catch_up(parts);
    if !is_caught_up(parts) {
        return Err(EngineFault::NoMemory);
    }
    hand_over(parts, now, event)
}

/// A connection is to be looked at in the next round.
pub(crate) fn look_at(parts: &mut EngineParts, number: ConnectionNumber)
    requires { IsEngine parts.old }
    ensures sound { IsEngine parts.new }
    ensures looks { LooksAt (engine_state parts.old) (number ∷ []) (engine_state parts.new) }
    ensures hub { parts.new.hub ≡ parts.old.hub }
    ensures lines { (engine_state parts.new).lines ≡ (engine_state parts.old).lines }
    ensures left { (engine_state parts.new).left ≡ (engine_state parts.old).left }
    ensures stored { (engine_state parts.new).stored ≡ (engine_state parts.old).stored }
    ensures calls { parts.new.calls ≡ parts.old.calls }
{
    parts.looks.add(number);
}
