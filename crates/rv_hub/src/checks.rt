//! Which events can't be.
ghost use Rattle.std.specs.Prelude.{◌≡◌, ◌⊎◌, ◌≤◌, ◌<◌, Some, true, false, length, IfErr, IfOk, OnOk};
ghost use Rattle.rv_server_connections.specs.Connections.{HasWire};
ghost use Rattle.rv_hub.specs.dispatcher.Fields.{dispatcher_state};
ghost use Rattle.rv_hub.specs.declared.events.EventRefusal.TheVariants as refused;
ghost use Rattle.rv_hub.specs.Events.{EventCan, EventCannotBe, IsNotOpen};

use crate::dispatcher::Dispatcher;
use crate::events::{EventRefusal, HubEvent};
use rv_server_connections::connection::Wire;
use rv_server_connections::subscribers::ConnectionNumber;

// The open connection of a number.
fn open_wire(dispatcher: &Dispatcher, connection: ConnectionNumber) -> Result<&Wire, EventRefusal>
    ensures found { IfOk result (λ wire. (dispatcher_state dispatcher.now).open_wires.wires connection ≡ Some
        wire.now) }
    ensures not_open { IfErr result (λ why. IsNotOpen (dispatcher_state dispatcher.now) connection
        × (why ≡ refused.NotOpen)) }
{
    match dispatcher.wires().get(connection) {
        Some(wire) => Ok(wire),
        None => Err(EventRefusal::NotOpen),
    }
}

// A connection is open, and its input hasn't ended.
fn check_input(dispatcher: &Dispatcher, connection: ConnectionNumber) -> Result<(), EventRefusal>
    ensures can { OnOk result (HasWire (dispatcher_state dispatcher.now).open_wires connection
        (λ wire. wire.ended ≡ false)) }
    ensures cannot { IfErr result (λ why. (IsNotOpen (dispatcher_state dispatcher.now) connection
        × (why ≡ refused.NotOpen))
        ⊎ (HasWire (dispatcher_state dispatcher.now).open_wires connection (λ wire. wire.ended ≡ true)
        × (why ≡ refused.HasEnded))) }
{
    if open_wire(dispatcher, connection)?.has_ended() {
        return Err(EventRefusal::HasEnded);
    }
    Ok(())
}

// A connection is open, and so many bytes were offered.
fn check_offered(
    dispatcher: &Dispatcher,
    connection: ConnectionNumber,
    count: usize,
) -> Result<(), EventRefusal>
    ensures can { OnOk result (HasWire (dispatcher_state dispatcher.now).open_wires connection
        (λ wire. count ≤ length wire.ready)) }
    ensures cannot { IfErr result (λ why. (IsNotOpen (dispatcher_state dispatcher.now) connection
        × (why ≡ refused.NotOpen))
        ⊎ (HasWire (dispatcher_state dispatcher.now).open_wires connection (λ wire. length wire.ready < count)
        × (why ≡ refused.NotOffered))) }
{
    if open_wire(dispatcher, connection)?.ready().len() < count {
        return Err(EventRefusal::NotOffered);
    }
    Ok(())
}

// So many entries may be written.
fn check_written(dispatcher: &Dispatcher, entries: usize) -> Result<(), EventRefusal>
    ensures can { OnOk result (((dispatcher_state dispatcher.now).open_wires.written ≤ entries)
        × (entries ≤ (dispatcher_state dispatcher.now).book.length)) }
    ensures cannot { IfErr result (λ why. ((entries < (dispatcher_state dispatcher.now).open_wires.written)
        × (why ≡ refused.WrittenFalls))
        ⊎ (((dispatcher_state dispatcher.now).book.length < entries) × (why ≡ refused.NotMade))) }
{
    if (entries as u64) < dispatcher.wires().written() {
        return Err(EventRefusal::WrittenFalls);
    }
    if dispatcher.machine().length() < entries {
        return Err(EventRefusal::NotMade);
    }
    Ok(())
}

// Whether an event can be.
pub(crate) fn check(dispatcher: &Dispatcher, event: &HubEvent<'_>) -> Result<(), EventRefusal>
    ensures can { OnOk result (EventCan (dispatcher_state dispatcher.now) event.now) }
    ensures cannot { IfErr result (EventCannotBe (dispatcher_state dispatcher.now) event.now) }
{
    match event {
        HubEvent::Opened => Ok(()),
        HubEvent::Came(connection, _) => check_input(dispatcher, *connection),
        HubEvent::Ended(connection) => check_input(dispatcher, *connection),
        HubEvent::Gone(connection) => {
            open_wire(dispatcher, *connection)?;
            Ok(())
        }
        HubEvent::Took(connection, count) => check_offered(dispatcher, *connection, *count),
        HubEvent::Written(entries) => check_written(dispatcher, *entries),
        HubEvent::Passed => Ok(()),
    }
}
