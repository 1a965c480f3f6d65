//! The reply that a request got, read off the machine that passed its entry.
ghost use Rattle.std.specs.Prelude.{◌≡◌, IfOk};
ghost use Rattle.rv_machine.specs.Machines.{state_in};
ghost use Rattle.rv_account.specs.state.Moves.{told_again};
ghost use Rattle.rv_replies.specs.Ending.{told_last_by, told_now};

use crate::findings::told_by;
use rv_account::Act;
use rv_machine::Machine;
use rv_session::LastRequest;
use rv_text::{Key, NoMemory, Reply};
use std::alloc::Global;

// The reply that a last request gets again.
fn told_again(alloc: Global, request: &LastRequest) -> Result<Option<Reply>, NoMemory>
    ensures { IfOk result (λ told. told ≡ told_again request.now) }
{
    match request {
        LastRequest::Fresh => Ok(None),
        LastRequest::Waits { .. } => Ok(None),
        LastRequest::RepliedTo { reply, .. } => Ok(Some(reply.copy(alloc)?)),
        LastRequest::CancelledUnseen => Ok(Some(Reply::Cancelled)),
    }
}

/// The reply that the last request of a key's client gets again. Fails only if memory for a text was refused.
pub(crate) fn told_last_by(
    alloc: Global,
    machine: &Machine,
    key: &Key,
) -> Result<Option<Reply>, NoMemory>
    ensures { IfOk result (λ told. told ≡ told_last_by (state_in machine.now) key.now) }
{
    match machine.client(key.client) {
        Some(session) => told_again(alloc, &session.request),
        None => Ok(None),
    }
}

/// The reply to a request that waited until an act, by the machine after it. A hello may have taken its
/// session.
pub(crate) fn told_now(
    alloc: Global,
    machine: &Machine,
    act: &Act,
    key: &Key,
) -> Result<Option<Reply>, NoMemory>
    ensures { IfOk result (λ told. told ≡ told_now (state_in machine.now) act.now key.now) }
{
    match act {
        Act::Hello { .. } => Ok(Some(told_by(act))),
        Act::Arrive { .. } => told_last_by(alloc, machine, key),
        Act::Cancel { .. } => Ok(Some(told_by(act))),
        Act::Tick => Ok(Some(told_by(act))),
    }
}
