//! The pieces in which a command waits, so that one that is killed leaves a request for a short time.
ghost use Rattle.std.specs.Prelude.{◌≡◌, IfOk};
ghost use Rattle.rv_commands.specs.Pieces.{pieces_of, waiting};

use rv_text::{Call, NoMemory, Wait};
use std::alloc::Global;

/// The first piece of a wait, which is no longer than so many milliseconds, and the wait that is left after
/// it, if there is one.
pub fn first_piece(wait: Wait, most: u64) -> (Wait, Option<Wait>)
    ensures { result ≡ pieces_of wait most }
{
    match wait {
        Wait::Millis(millis) if millis > most => {
            (Wait::Millis(most), Some(Wait::Millis(millis - most)))
        }
        Wait::Forever => (Wait::Millis(most), Some(Wait::Forever)),
        _ => (wait, None),
    }
}

/// A copy of the call, which waits so long if it waits at all. Fails only if memory was refused.
pub fn call_for(alloc: Global, call: &Call, wait: Wait) -> Result<Call, NoMemory>
    ensures { IfOk result (λ copy. copy ≡ waiting call.now wait) }
{
    let copy = call.copy(alloc)?;
    match wait {
        Wait::Now => Ok(copy),
        _ => Ok(with_wait(copy, wait)),
    }
}

// The call with this wait.
fn with_wait(call: Call, wait: Wait) -> Call
    requires { ¬ (wait ≡ Wait.Now) }
    ensures { result ≡ waiting call wait }
{
    match call {
        Call::Transfer { queue, item, .. } => Call::Transfer { queue, item, wait },
        Call::Take { queue, .. } => Call::Take { queue, wait },
        Call::Swap {
            exchanger,
            item,
            ..
        } => Call::Swap {
            exchanger,
            item,
            wait,
        },
        other => other,
    }
}
