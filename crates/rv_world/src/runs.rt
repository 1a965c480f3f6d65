//! Lists of events.
ghost use Rattle.std.specs.Prelude.{IfErr, IfOk, OnOk};
ghost use Rattle.std.specs.List.{All};
ghost use Rattle.rv_world.specs.parts.Headline.{Headline};
ghost use Rattle.rv_world.specs.parts.Limits.{FitsEvent};
ghost use Rattle.rv_world.specs.parts.Runs.{Runs, StopsAt, StopsIn};
ghost use Rattle.rv_world.specs.parts.World.{first_world};

use crate::parts::{Event, WorldRefusal};
use crate::world::World;
use std::alloc::Global;

// Gives a world each of these events. The first that is refused ends it, with its number and its refusal.
fn take_each(world: &mut World, events: &[Event]) -> Result<(), (usize, WorldRefusal)>
    requires { All FitsEvent events.now }
    ensures runs { OnOk result (Runs world.old events.now world.new) }
    ensures stops { IfErr result (λ stop. StopsAt world.old events.now stop.0 stop.1) }
{
    for (i, event) in events.iter().enumerate() {
        if let Err(refusal) = world.step(event) {
            return Err((i, refusal));
        }
    }
    Ok(())
}

/// The world after a list of events, each of which must keep its limits, from epoch 1. The first event that
/// is refused ends the list, and the error is its number, from 0, with its refusal. If memory for the world
/// itself was refused, before any event, the error is `(0, NoMemory)`, even for an empty list.
pub fn run(alloc: Global, events: &[Event]) -> Result<World, (usize, WorldRefusal)>
    requires { All FitsEvent events.now }
    ensures runs { IfOk result (Runs (first_world 1) events.now) }
    ensures headline { IfOk result Headline }
    ensures stops { IfErr result (StopsIn events.now) }
{
    let mut world = match World::open(alloc, 1) {
        Ok(world) => world,
        Err(_) => return Err((0, WorldRefusal::NoMemory)),
    };
    take_each(&mut world, events)?;
    Ok(world)
}
