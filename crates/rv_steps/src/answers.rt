//! The answer that is made from what a step says, and from the state after it.
ghost use Rattle.std.specs.Prelude.{◌≡◌, IfOk};
ghost use Rattle.rv_text.specs.declared.answer.Answer.{Answer as AnswerOf};
ghost use Rattle.rv_account.specs.state.Moves.{answer_told, told_again};
ghost use Rattle.rv_machine.specs.Machines.{Says, state_in};

use rv_machine::{Machine, Said};
use rv_session::LastRequest;
use rv_text::{Answer, Key, NoMemory, Reply};
use std::alloc::Global;

/// The answer that is said, which the state must have. Fails only if memory was refused.
pub(crate) fn answer_of(alloc: Global, machine: &Machine, said: Said) -> Result<Answer, NoMemory>
    requires said { (answer : AnswerOf) × Says (state_in machine.now) said answer }
    ensures says { IfOk result (Says (state_in machine.now) said) }
{
    match said {
        Said::Welcome(epoch, client, incarnation, version) => Ok(Answer::Welcome {
            epoch,
            client,
            incarnation,
            version,
        }),
        Said::Told(key) => told(alloc, key, &machine.client(key.client).unwrap().request),
        Said::Refused(refusal) => Ok(Answer::Refused(refusal)),
    }
}

// The answer to a session's last request: its reply, or that it waits.
fn told(alloc: Global, key: Key, request: &LastRequest) -> Result<Answer, NoMemory>
    ensures { IfOk result (λ answer. answer ≡ answer_told key (told_again request.now)) }
{
    match request {
        LastRequest::Fresh => Ok(Answer::Waiting { key }),
        LastRequest::Waits { .. } => Ok(Answer::Waiting { key }),
        LastRequest::RepliedTo { reply, .. } => Ok(Answer::Replied {
            key,
            reply: reply.copy(alloc)?,
        }),
        LastRequest::CancelledUnseen => Ok(Answer::Replied {
            key,
            reply: Reply::Cancelled,
        }),
    }
}
