//! Writes the lines of an account.
ghost use Rattle.std.specs.Prelude.{◌≡◌, [], IfErr, IfOk, OnErr, OnOk, take, true};
ghost use Rattle.rv_frame.specs.Lasting.{LeavesHeld, LeavesFront, TakesBytes};
ghost use Rattle.rv_hub.specs.Hubs.{hub_terms};
ghost use Rattle.rv_engine.specs.Calls.{CountsTold};
ghost use Rattle.rv_engine.specs.Engines.{IsEngine, engine_state};
ghost use Rattle.rv_engine.specs.Handing.{HasWorked, IsNotTold, TellsWritten, all_gone, gathered_count};
ghost use Rattle.rv_engine.specs.Handing.{lines_gone, unwritten};

use crate::events::EngineFault;
use crate::handing::{catch_up, hand_sure, is_caught_up};
use crate::parts::EngineParts;
use rv_frame::{Lasting, WriteFault};
use rv_hub::HubEvent;

// How many entries the hub has made.
fn entry_count(parts: &EngineParts) -> usize
    ensures { result ≡ (engine_state parts.now).hub.book.length }
{
    parts.hub.machine().length()
}

// How many entries have their line gathered or stored.
#[tactic(auto, using(crate::proofs::Written::count_is))]
fn count_gathered(parts: &EngineParts) -> usize
    requires { IsEngine parts.now }
    ensures { result ≡ gathered_count (engine_state parts.now) }
{
    let left = parts.hub.entries().len() - parts.gathered;
    entry_count(parts).saturating_sub(left)
}

// Writes the lines that are gathered, which then are stored, and gathered no longer.
fn write_gathered<L: Lasting>(parts: &mut EngineParts, file: &mut L) -> Result<(), WriteFault>
    requires { IsEngine parts.old }
    ensures sound { IsEngine parts.new }
    ensures written { OnOk result (TakesBytes L.lasts file.old file.new (engine_state parts.old).lines) }
    ensures works { OnOk result (HasWorked L.lasts file.old file.new) }
    ensures any_moment { LeavesFront L.lasts file.old (engine_state parts.old).lines file.new }
    ensures durable { OnOk result (LeavesHeld L.lasts file.new) }
    ensures gone { OnOk result (engine_state parts.new ≡ lines_gone (engine_state parts.old)) }
    ensures part { IfErr result (λ why. TakesBytes L.lasts file.old file.new
        (take why.sent (engine_state parts.old).lines)) }
    ensures failed { OnErr result (L.lasts.failed file.new ≡ true) }
    ensures refused { IfErr result (λ why. L.lasts.failed file.old ≡ true → why.sent ≡ 0) }
    ensures same { OnErr result (parts.new ≡ parts.old) }
    ensures hub { parts.new.hub ≡ parts.old.hub }
    ensures calls { parts.new.calls ≡ parts.old.calls }
{
    match file.store(parts.lines.as_bytes()) {
        Ok(()) => {
            parts.stored = count_gathered(parts);
            parts.lines.clear();
            Ok(())
        }
        Err(why) => Err(why),
    }
}

// Tells the hub that all its entries are written, where it knows of fewer.
fn tell_written(parts: &mut EngineParts, now: u64) -> Option<usize>
    requires sound { IsEngine parts.old }
    requires none_left { (engine_state parts.old).left ≡ [] }
    requires stored { (engine_state parts.old).stored ≡ (engine_state parts.old).hub.book.length }
    ensures sound { IsEngine parts.new }
    ensures tells { TellsWritten parts.old.hub.has_journal (hub_terms parts.old.hub) (engine_state parts.old)
        now parts.new.hub.dispatcher.entries.items result (engine_state parts.new) }
    ensures terms { hub_terms parts.new.hub ≡ hub_terms parts.old.hub }
    ensures journal { parts.new.hub.has_journal ≡ parts.old.hub.has_journal }
    ensures calls { CountsTold result parts.old.calls parts.new.hub.dispatcher.entries.items parts.new.calls }
{
    let entries = entry_count(parts);
    if parts.hub.written() >= entries as u64 {
        return None;
    }
    Some(hand_sure(parts, now, HubEvent::Written(entries)))
}

// Writes all lines that aren't written, and tells the hub so.
pub(crate) fn write_lines<L: Lasting>(
    parts: &mut EngineParts,
    now: u64,
    file: &mut L,
) -> Result<Option<usize>, EngineFault>
    requires { IsEngine parts.old }
    ensures sound { IsEngine parts.new }
    ensures written { OnOk result (TakesBytes L.lasts file.old file.new
        (unwritten (engine_state parts.old))) }
    ensures works { OnOk result (HasWorked L.lasts file.old file.new) }
    ensures any_moment { LeavesFront L.lasts file.old (unwritten (engine_state parts.old)) file.new }
    ensures durable { OnOk result (LeavesHeld L.lasts file.new) }
    ensures tells { IfOk result (λ told. TellsWritten parts.old.hub.has_journal (hub_terms parts.old.hub)
        (all_gone (engine_state parts.old)) now parts.new.hub.dispatcher.entries.items told
        (engine_state parts.new)) }
    ensures not_told { IfErr result (λ why. IsNotTold L.lasts (engine_state parts.old) file.old why
        (engine_state parts.new) file.new) }
    ensures terms { hub_terms parts.new.hub ≡ hub_terms parts.old.hub }
    ensures journal { parts.new.hub.has_journal ≡ parts.old.hub.has_journal }
    ensures calls { IfOk result (λ told. CountsTold told parts.old.calls
        parts.new.hub.dispatcher.entries.items
        parts.new.calls) }
    ensures no_calls { OnErr result (parts.new.calls ≡ parts.old.calls) }
{
    catch_up(parts);
    if let Err(why) = write_gathered(parts, file) {
        return Err(EngineFault::NotWritten(why));
    }
    if !is_caught_up(parts) {
        return Err(EngineFault::NoMemory);
    }
    Ok(tell_written(parts, now))
}
