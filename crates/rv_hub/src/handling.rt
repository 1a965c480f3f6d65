//! Events, one at a time.
ghost use Rattle.std.specs.Prelude.{◌≡◌, ◌≤◌, ◌++◌, [], option_to_list};
ghost use Rattle.std.specs.Prelude.{IfErr, IfOk, OnErr, OnOk};
ghost use Rattle.rv_hub.specs.dispatcher.View.{begun};
ghost use Rattle.rv_hub.specs.dispatcher.Effects.{DoesAll};
ghost use Rattle.rv_hub.specs.dispatcher.Runs.{ListsChanged};
ghost use Rattle.rv_hub.specs.dispatcher.Fields.{IsDispatcherReady, IsSteady, dispatcher_state};
ghost use Rattle.rv_hub.specs.dispatcher.Fields.{dispatcher_terms};
ghost use Rattle.rv_hub.specs.declared.events.HubEvent.TheVariants as what;
ghost use Rattle.rv_hub.specs.declared.events.EventRefusal.TheVariants as refused;
ghost use Rattle.rv_hub.specs.Events.{EventCan};
ghost use Rattle.rv_hub.specs.Turns.{EventRefused, IsAtRest, TakesEvent, TakesPiece, goes_on_first};
ghost use Rattle.rv_hub.specs.Turns.{last_effects, offer_in};
ghost use Rattle.rv_hub.specs.Steps.{ActsOwn, IsGoing, RunsOn, offer_from};

use crate::checks::check;
use crate::dispatcher::Dispatcher;
use crate::events::{EventRefusal, HubEvent};
use crate::progress::turn_all;
use rv_server_connections::subscribers::ConnectionNumber;

// The connection that goes on after time, before those that were freed.
fn first_of(event: &HubEvent<'_>) -> Option<ConnectionNumber>
    ensures { result ≡ goes_on_first event.now }
{
    match event {
        HubEvent::Opened => None,
        HubEvent::Came(connection, _) => Some(*connection),
        HubEvent::Ended(connection) => Some(*connection),
        HubEvent::Gone(_) => None,
        HubEvent::Took(connection, _) => Some(*connection),
        HubEvent::Written(_) => None,
        HubEvent::Passed => None,
    }
}

// The piece that an event offers, after the connection that it came from.
fn piece_of<'a>(event: &HubEvent<'a>) -> (ConnectionNumber, &'a [u8])
    ensures { offer_from result.0 result.1.now ≡ offer_in event.now }
{
    match event {
        HubEvent::Opened => (0, &[]),
        HubEvent::Came(connection, piece) => (*connection, piece),
        HubEvent::Ended(_) => (0, &[]),
        HubEvent::Gone(_) => (0, &[]),
        HubEvent::Took(_, _) => (0, &[]),
        HubEvent::Written(_) => (0, &[]),
        HubEvent::Passed => (0, &[]),
    }
}

// Does the event's own effect, before time goes on. It gives the number of a connection that it opens. If
// memory for that is refused nothing changes.
fn act(
    dispatcher: &mut Dispatcher,
    event: &HubEvent<'_>,
) -> Result<Option<ConnectionNumber>, EventRefusal>
    requires ready { IsDispatcherReady dispatcher.old }
    requires can { EventCan (dispatcher_state dispatcher.old) event.now }
    ensures ready { IsDispatcherReady dispatcher.new }
    ensures acts { IfOk result (λ opened. ActsOwn dispatcher.old event.now opened dispatcher.new) }
    ensures refused { IfErr result (λ why. (event.now ≡ what.Opened) × (why ≡ refused.NoMemory)) }
    ensures same { OnErr result (dispatcher_state dispatcher.new ≡ dispatcher_state dispatcher.old) }
    ensures entries { dispatcher.new.entries.items ≡ dispatcher.old.entries.items }
    ensures terms { dispatcher_terms dispatcher.new ≡ dispatcher_terms dispatcher.old }
{
    match event {
        HubEvent::Opened => match dispatcher.open() {
            Ok(connection) => Ok(Some(connection)),
            Err(_) => Err(EventRefusal::NoMemory),
        },
        HubEvent::Came(_, _) => Ok(None),
        HubEvent::Ended(connection) => {
            dispatcher.end_input(*connection);
            Ok(None)
        }
        HubEvent::Gone(connection) => {
            dispatcher.close(*connection);
            Ok(None)
        }
        HubEvent::Took(connection, count) => {
            dispatcher.took(*connection, *count);
            Ok(None)
        }
        HubEvent::Written(entries) => {
            dispatcher.write(*entries as u64);
            Ok(None)
        }
        HubEvent::Passed => Ok(None),
    }
}

// Time goes on, and then connections do until they stop. It gives how many bytes of a piece were taken.
fn run(dispatcher: &mut Dispatcher, now: u64, event: &HubEvent<'_>) -> usize
    requires ready { IsDispatcherReady dispatcher.old }
    requires begun { dispatcher.old.entries.items ≡ [] }
    requires going { IsGoing (dispatcher_state dispatcher.old) (option_to_list (goes_on_first event.now)) }
    ensures steady { IsSteady dispatcher.new }
    ensures runs { RunsOn dispatcher.old now event.now (offer_in event.now) result dispatcher.new }
{
    dispatcher.pass(now);
    let (source, piece) = piece_of(event);
    turn_all(dispatcher, first_of(event), source, piece)
}

// Without a journal all entries are written.
fn write_all(dispatcher: &mut Dispatcher, has_journal: bool)
    requires ready { IsDispatcherReady dispatcher.old }
    requires written { (dispatcher_state dispatcher.old).open_wires.written ≤ (dispatcher_state
        dispatcher.old).book.length }
    ensures ready { IsDispatcherReady dispatcher.new }
    ensures writes { DoesAll (dispatcher_terms dispatcher.old) (dispatcher_state dispatcher.old)
        (last_effects has_journal (dispatcher_state dispatcher.old)) (dispatcher_state dispatcher.new) }
    ensures entries { dispatcher.new.entries.items ≡ dispatcher.old.entries.items }
    ensures terms { dispatcher_terms dispatcher.new ≡ dispatcher_terms dispatcher.old }
{
    if !has_journal {
        let entries = dispatcher.machine().length() as u64;
        dispatcher.write(entries);
    }
}

// Takes an event that can be, at the moment at which it came. If memory for a connection that it opens is
// refused nothing changes.
pub(crate) fn take(
    dispatcher: &mut Dispatcher,
    has_journal: bool,
    now: u64,
    event: &HubEvent<'_>,
) -> Result<usize, EventRefusal>
    requires ready { IsDispatcherReady dispatcher.old }
    requires rest { IsAtRest has_journal (dispatcher_state dispatcher.old) }
    requires can { EventCan (dispatcher_state dispatcher.old) event.now }
    ensures ready { IsDispatcherReady dispatcher.new }
    ensures rest { IsAtRest has_journal (dispatcher_state dispatcher.new) }
    ensures takes { IfOk result (λ given. TakesEvent has_journal (dispatcher_terms dispatcher.old)
        (dispatcher_state dispatcher.old)
        now event.now dispatcher.new.entries.items given (dispatcher_state dispatcher.new)) }
    ensures piece { IfOk result (λ given. TakesPiece event.now given (dispatcher_state dispatcher.new)) }
    ensures listed { OnOk result (ListsChanged (begun (dispatcher_state dispatcher.old)) (dispatcher_state
        dispatcher.new)) }
    ensures refused { IfErr result (λ why. (event.now ≡ what.Opened) × (why ≡ refused.NoMemory)) }
    ensures same { OnErr result (dispatcher_state dispatcher.new ≡ begun (dispatcher_state dispatcher.old)) }
    ensures none_made { OnErr result (dispatcher.new.entries.items ≡ []) }
    ensures terms { dispatcher_terms dispatcher.new ≡ dispatcher_terms dispatcher.old }
{
    dispatcher.begin();
    let opened = act(dispatcher, event)?;
    let taken = run(dispatcher, now, event);
    write_all(dispatcher, has_journal);
    Ok(opened.unwrap_or(taken))
}

// Takes an event that came at a moment. An event that can't be changes nothing.
pub(crate) fn handle(
    dispatcher: &mut Dispatcher,
    has_journal: bool,
    now: u64,
    event: &HubEvent<'_>,
) -> Result<usize, EventRefusal>
    requires ready { IsDispatcherReady dispatcher.old }
    requires rest { IsAtRest has_journal (dispatcher_state dispatcher.old) }
    ensures ready { IsDispatcherReady dispatcher.new }
    ensures rest { IsAtRest has_journal (dispatcher_state dispatcher.new) }
    ensures takes { IfOk result (λ given. TakesEvent has_journal (dispatcher_terms dispatcher.old)
        (dispatcher_state dispatcher.old)
        now event.now dispatcher.new.entries.items given (dispatcher_state dispatcher.new)) }
    ensures piece { IfOk result (λ given. TakesPiece event.now given (dispatcher_state dispatcher.new)) }
    ensures listed { OnOk result (ListsChanged (begun (dispatcher_state dispatcher.old)) (dispatcher_state
        dispatcher.new)) }
    ensures refused { IfErr result (EventRefused (dispatcher_state dispatcher.old) event.now) }
    ensures same { OnErr result (dispatcher_state dispatcher.new ≡ begun (dispatcher_state dispatcher.old)) }
    ensures none_made { OnErr result (dispatcher.new.entries.items ≡ []) }
    ensures terms { dispatcher_terms dispatcher.new ≡ dispatcher_terms dispatcher.old }
{
    match check(dispatcher, event) {
        Ok(()) => take(dispatcher, has_journal, now, event),
        Err(why) => {
            dispatcher.begin();
            Err(why)
        }
    }
}
