//! The parts of a state to resume from: each open place with its session, each client with its place.
ghost use Rattle.std.specs.Prelude.{◌↔◌, IsTrue};
ghost use Rattle.std.specs.List.{All};
ghost use Rattle.rv_session.specs.ClientOrder.{ClientsRise};
ghost use Rattle.rv_account.specs.state.resume.Checking.{HasRoomIn, IsAwaitedAmong, IsLastAmong};
ghost use Rattle.rv_account.specs.state.resume.Checking.{IsSettledIn, OpensRise, StandsWell};

use crate::state::places::{is_last_of, lies_open};
use crate::state::resume::clients::fits_session;
use crate::state::resume::finding::{client_index, open_index};
use crate::state::resume::sides::count_wait_queues;
use rv_session::{ClientState, LastRequest, OpenPlace, Place, Waiter};
use rv_text::MAX_IDENTIFIER;

// The greatest moment, in milliseconds: 2^62.
const MAX_MOMENT: u64 = 4_611_686_018_427_387_904;

// The most clients of a state to resume from.
const MAX_RESUMED_CLIENTS: usize = 100_000;

// The most open places of a state.
const MAX_OPEN_PLACES: usize = 100_000;

// Whether the request that waits at an open place is the last of its client's session.
fn is_last_among(
    epoch: u64,
    clients: &[(u64, ClientState)],
    there: &OpenPlace,
    waiter: Waiter,
) -> bool
    requires { ClientsRise clients.now }
    ensures { IsTrue result ↔ IsLastAmong epoch clients.now there.now waiter }
{
    match client_index(clients, waiter.key.client) {
        Some(index) => is_last_of(epoch, there, waiter, &clients[index].1),
        None => false,
    }
}

// Whether a request of the client waits at the place.
fn is_awaited_among(opens: &[OpenPlace], client: u64, place: Place) -> bool
    requires { OpensRise opens.now }
    ensures { IsTrue result ↔ IsAwaitedAmong opens.now client place }
{
    match open_index(opens, place) {
        Some(index) => match opens[index].waiter {
            Some(waiter) => waiter.key.client == client,
            None => false,
        },
        None => false,
    }
}

// Whether an open place has all that it has in a state to resume from, but for what the others are.
fn stands_well(
    epoch: u64,
    moment: u64,
    length: u64,
    clients: &[(u64, ClientState)],
    there: &OpenPlace,
) -> bool
    requires { ClientsRise clients.now }
    ensures { IsTrue result ↔ StandsWell epoch moment length clients.now there.now }
{
    let waits = match there.waiter {
        Some(waiter) => waiter.since <= moment && is_last_among(epoch, clients, there, waiter),
        None => lies_open(there),
    };
    waits && (there.place as u64) < length && there.limit.is_none_or(|limit| moment < limit)
}

// Whether a client has all that it has in such a state.
fn is_settled_in(epoch: u64, opens: &[OpenPlace], client: u64, session: &ClientState) -> bool
    requires { OpensRise opens.now }
    ensures { IsTrue result ↔ IsSettledIn epoch opens.now client session.now }
{
    fits_session(epoch, client, session)
        && match &session.request {
            LastRequest::Waits { place, .. } => is_awaited_among(opens, client, *place),
            _ => true,
        }
}

// Whether each open place has.
pub(crate) fn all_stand(
    epoch: u64,
    moment: u64,
    length: u64,
    clients: &[(u64, ClientState)],
    opens: &[OpenPlace],
) -> bool
    requires { ClientsRise clients.now }
    ensures { IsTrue result ↔ All (StandsWell epoch moment length clients.now) opens.now }
{
    opens
        .iter()
        .all(|there| stands_well(epoch, moment, length, clients, there))
}

// Whether each client has.
pub(crate) fn all_settled(epoch: u64, opens: &[OpenPlace], clients: &[(u64, ClientState)]) -> bool
    requires { OpensRise opens.now }
    ensures { IsTrue result ↔ All (λ known. IsSettledIn epoch opens.now known.0 known.1) clients.now }
{
    clients
        .iter()
        .all(|known| is_settled_in(epoch, opens, known.0, &known.1))
}

// Whether there is room.
pub(crate) fn has_room_in(
    moment: u64,
    length: u64,
    opens: &[OpenPlace],
    clients: &[(u64, ClientState)],
) -> bool
    ensures { IsTrue result ↔ HasRoomIn moment length opens.now clients.now }
{
    moment <= MAX_MOMENT
        && opens.len() <= MAX_OPEN_PLACES
        && clients.len() <= MAX_RESUMED_CLIENTS
        && length <= MAX_IDENTIFIER
        && count_wait_queues(opens) as u64 <= MAX_IDENTIFIER - length
}
