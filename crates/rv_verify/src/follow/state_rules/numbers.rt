//! Whether an entry keeps the rules on sessions and numbers.
ghost use Rattle.std.specs.Prelude.{◌≡◌, ◌≢◌, ◌↔◌, ◌+◌, IfNone, IfSome, IsTrue, IsSome, None};
ghost use Rattle.rv_session.specs.Clients.{place_waiting};
ghost use Rattle.rv_account.specs.state.Follows.{InSession, NumberIsNext, NumberWaits};
ghost use Rattle.rv_account.specs.state.Kept.{HelloRises, KeyInSession, NumberInTurn};
ghost use Rattle.rv_account.specs.state.State.{ClientState};
ghost use Rattle.rv_machine.specs.Machines.{state_in};

use rv_account::Act;
use rv_machine::Machine;
use rv_session::{ClientState, LastRequest};
use rv_text::Key;

/// Whether a hello is of a greater incarnation than its client's session.
pub(crate) fn hello_rises(machine: &Machine, act: &Act) -> bool
    ensures { IsTrue result ↔ HelloRises (state_in machine.now) act.now }
{
    match act {
        Act::Hello {
            client,
            incarnation,
            ..
        } => match machine.client(*client) {
            Some(session) => session.incarnation < *incarnation,
            None => true,
        },
        Act::Arrive { .. } => true,
        Act::Cancel { .. } => true,
        Act::Tick => true,
    }
}

// The session of the key's client, if the key is of it.
fn session_of<'a>(machine: &'a Machine, key: &Key) -> Option<&'a ClientState>
    ensures some { IfSome result (λ session. InSession (state_in machine.now) key.now session.now) }
    ensures none { IfNone result
        ((session : ClientState) → ¬ InSession (state_in machine.now) key.now session) }
{
    match machine.client(key.client) {
        Some(session) => {
            if session.incarnation == key.incarnation && key.epoch == machine.epoch() {
                Some(session)
            } else {
                None
            }
        }
        None => None,
    }
}

/// Whether the key that the act names, if it does, is of the session of its client.
pub(crate) fn in_session(machine: &Machine, act: &Act) -> bool
    ensures { IsTrue result ↔ KeyInSession (state_in machine.now) act.now }
{
    match act {
        Act::Arrive { key, .. } => session_of(machine, key).is_some(),
        Act::Cancel { key } => session_of(machine, key).is_some(),
        Act::Hello { .. } => true,
        Act::Tick => true,
    }
}

/// Whether the request waits.
pub fn is_waiting(request: &LastRequest) -> bool
    ensures yes { IsTrue result ↔ IsSome (place_waiting request.now) }
    ensures no { IsTrue result ↔ place_waiting request.now ≢ None }
{
    match request {
        LastRequest::Waits { .. } => true,
        LastRequest::Fresh => false,
        LastRequest::RepliedTo { .. } => false,
        LastRequest::CancelledUnseen => false,
    }
}

// Whether the key has its session's next number, and nothing waits there.
fn is_next(machine: &Machine, key: &Key) -> bool
    ensures { IsTrue result ↔ NumberIsNext (state_in machine.now) key.now }
{
    match session_of(machine, key) {
        Some(session) => {
            key.number > session.last
                && key.number - session.last == 1
                && !is_waiting(&session.request)
        }
        None => false,
    }
}

// Whether the key has its session's last number, and its request waits.
fn waits(machine: &Machine, key: &Key) -> bool
    ensures { IsTrue result ↔ NumberWaits (state_in machine.now) key.now }
{
    match session_of(machine, key) {
        Some(session) => key.number == session.last && is_waiting(&session.request),
        None => false,
    }
}

/// Whether an arrival has the next number of its session, and a cancel that or the number that waits.
pub(crate) fn in_turn(machine: &Machine, act: &Act) -> bool
    ensures { IsTrue result ↔ NumberInTurn (state_in machine.now) act.now }
{
    match act {
        Act::Arrive { key, .. } => is_next(machine, key),
        Act::Cancel { key } => waits(machine, key) || is_next(machine, key),
        Act::Hello { .. } => true,
        Act::Tick => true,
    }
}
