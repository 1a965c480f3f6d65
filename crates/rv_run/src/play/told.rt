//! The result that a play prints for one line of its input.
ghost use Rattle.std.specs.Prelude.{◌≡◌, IfOk, Ok};
ghost use Rattle.rv_text.specs.declared.message.Key as keys;
ghost use Rattle.rv_world.specs.declared.parts.seen.Seen.TheVariants as sees;
ghost use Rattle.rv_world.specs.parts.Limits.{FitsEvent};
ghost use Rattle.rv_run.specs.play.Told.{CanTell, IsBodyOf, IsResult, PlaysEvent, PlaysLine, SettlesBy};
ghost use Rattle.rv_run.specs.play.Told.{SettlesOne, WasSent};
ghost use Rattle.rv_run.specs.play.Turns.{refusal_number};

use crate::fault::RunFault;
use crate::play::event::read_event;
use rv_book::lines::LineFault;
use rv_text::{NoMemory, encode_answer};
use rv_world::{Event, Seen, World, WorldRefusal};
use std::alloc::Global;

/// Gives the world the event that a line says, and returns the text of its result. Fails only if memory for
/// reading the line or for the text was refused.
pub(crate) fn play_line(alloc: Global, world: &mut World, line: &[u8]) -> Result<String, RunFault>
    ensures { IfOk result (PlaysLine world.old line.now world.new) }
{
    match read_event(alloc, line) {
        Ok(event) => play_event(alloc, world, &event).map_err(RunFault::from),
        Err(LineFault::Bad) => String::from_str(alloc, "bad line").map_err(RunFault::from),
        Err(LineFault::NoMemory) => Err(RunFault::NoMemory),
    }
}

// Gives the world an event, and returns the text of its result.
fn play_event(alloc: Global, world: &mut World, event: &Event) -> Result<String, NoMemory>
    requires { FitsEvent event.now }
    ensures { IfOk result (PlaysEvent world.old event.now world.new) }
{
    match world.step(event) {
        Ok(seen) => seen_text(alloc, world, event, seen),
        Err(refusal) => format!(in alloc; "refused {}", number_of(refusal)),
    }
}

// The text of what was seen of an event that was just taken.
fn seen_text(alloc: Global, world: &World, event: &Event, seen: Seen) -> Result<String, NoMemory>
    requires { CanTell world.now event.now seen }
    ensures { IfOk result (IsResult world.now (Ok seen)) }
{
    match seen {
        Seen::Sent(packet) => format!(in alloc; "sent {packet}"),
        Seen::Answered(packet) => answered_text(alloc, world, packet),
        Seen::Welcomed => String::from_str(alloc, "welcomed"),
        Seen::TurnedAway(refusal) => format!(in alloc; "turned away {}", refusal.code()),
        Seen::Settled(_) => settled_text(alloc, world, event),
        Seen::Ignored => String::from_str(alloc, "ignored"),
        Seen::Ended(current) => format!(in alloc; "ended {current}"),
        Seen::Replaced(current) => format!(in alloc; "replaced {current}"),
        Seen::Crashed => String::from_str(alloc, "crashed"),
        Seen::Opened(epoch) => format!(in alloc; "opened {epoch}"),
    }
}

// The text of an answer that the server sent as this packet.
fn answered_text(alloc: Global, world: &World, packet: usize) -> Result<String, NoMemory>
    requires { WasSent world.now packet }
    ensures { IfOk result (IsResult world.now (Ok (sees.Answered packet))) }
{
    let body = packet_body(alloc, world, packet)?;
    format!(in alloc; "answered {packet} {body}")
}

// The text of a reply that came to its client and settled a request.
fn settled_text(alloc: Global, world: &World, event: &Event) -> Result<String, NoMemory>
    requires { SettlesOne world.now event.now }
    ensures { (key : keys.Key) → SettlesBy world.now event.now key
        → IfOk result (IsResult world.now (Ok (sees.Settled key))) }
{
    let body = match event {
        Event::ToClient(packet) => packet_body(alloc, world, *packet)?,
        _ => unreachable!(),
    };
    format!(in alloc; "settled {body}")
}

// The body of an answer that was sent.
fn packet_body(alloc: Global, world: &World, packet: usize) -> Result<String, NoMemory>
    requires { WasSent world.now packet }
    ensures { IfOk result (IsBodyOf world.now packet) }
{
    let answer = world.answer_packet(packet).unwrap();
    encode_answer(alloc, answer)
}

// The number of a refusal, as a play prints it.
fn number_of(refusal: WorldRefusal) -> u8
    ensures { result ≡ refusal_number refusal }
{
    match refusal {
        WorldRefusal::NoSuchPacket => 1,
        WorldRefusal::NotIdle => 2,
        WorldRefusal::NotOutstanding => 3,
        WorldRefusal::IncarnationNotGreater => 4,
        WorldRefusal::EpochNotGreater => 5,
        WorldRefusal::NoSuchClient => 6,
        WorldRefusal::NoMemory => 7,
    }
}
