//! A client's request that waits, as a row.
ghost use Rattle.std.specs.Prelude.{◌≡◌, None};
ghost use Rattle.rv_session.specs.Clients.{place_waiting};
ghost use Rattle.rv_machine.specs.Machines.{state_in};
ghost use Rattle.rv_hub.specs.dispatcher.Telling.{IsUnheard};
ghost use Rattle.rv_hub.specs.Hubs.{hub_state};
ghost use Rattle.rv_survey.specs.Rows.{call_on_side, row_in, row_of};

use rv_hub::Hub;
use rv_machine::Machine;
use rv_session::{LastRequest, OpenPlace, Place};
use rv_status::{CallKind, WaitingRow};
use rv_text::Side;

/// The client's request, if it waits.
pub fn waiting_row(machine: &Machine, client: u64) -> Option<WaitingRow>
    ensures { result ≡ row_of (state_in machine.now) client }
{
    let session = machine.client(client)?;
    let place = place_of(&session.request)?;
    row(machine.open_at(place)?)
}

/// The client's request, if it waits and no connection waits for its answer.
pub fn unheard_row(hub: &Hub, client: u64) -> Option<WaitingRow>
    ensures unheard { IsUnheard (hub_state hub.now).book (hub_state hub.now).hears client
        → result ≡ row_of (hub_state hub.now).book client }
    ensures heard { ¬ IsUnheard (hub_state hub.now).book (hub_state hub.now).hears client → result ≡ None }
{
    if hub.is_unheard(client) {
        waiting_row(hub.machine(), client)
    } else {
        None
    }
}

// Where a request waits.
fn place_of(request: &LastRequest) -> Option<Place>
    ensures { result ≡ place_waiting request.now }
{
    match request {
        LastRequest::Fresh => None,
        LastRequest::Waits { place, .. } => Some(*place),
        LastRequest::RepliedTo { .. } => None,
        LastRequest::CancelledUnseen => None,
    }
}

// The row of an open place.
fn row(opened: &OpenPlace) -> Option<WaitingRow>
    ensures { result ≡ row_in opened.now }
{
    let waiter = opened.waiter?;
    let (call, at) = call_on(opened.side)?;
    Some(WaitingRow {
        call,
        at,
        since: waiter.since,
        client: waiter.key.client,
        incarnation: waiter.key.incarnation,
        number: waiter.key.number,
        unheard: None,
    })
}

// What waits on a side, and in which queue or at which exchanger.
fn call_on(side: Side) -> Option<(CallKind, u64)>
    ensures { result ≡ call_on_side side }
{
    match side {
        Side::Gives(queue) => Some((CallKind::Transfer, queue)),
        Side::Takes(queue) => Some((CallKind::Take, queue)),
        Side::Exchanges(exchanger) => Some((CallKind::Swap, exchanger)),
        Side::Looks(_) => None,
    }
}
