//! The words that end a run of calls.
ghost use Rattle.std.specs.Prelude.{◌≡◌, IfOk, string_bytes};
ghost use Rattle.rv_run.specs.Output.{IsShortText};
ghost use Rattle.rv_run.specs.calls.EndWord.{word_text};

use rv_text::{NoMemory, Refusal};
use std::alloc::Global;

// The reason why a run of calls ends before its lines do.
#[derive(Clone, Copy)]
pub(crate) enum EndWord {
    // No welcome came: the link failed, or no answer said anything to the client.
    NotWelcome,
    // The hello was refused, for this reason.
    Refused(Refusal),
    // Nothing final was heard of the request of this number.
    Unsettled(u64),
    // A later epoch is there, which is given.
    EpochEnded(u64),
    // The client has a later incarnation, which is given.
    Replaced(u64),
    // The line says no call.
    BadLine,
}

impl EndWord {
    /// The line that says the word.
    pub(crate) fn text(self, alloc: Global) -> Result<String, NoMemory>
        ensures text { IfOk result (λ text. string_bytes text ≡ word_text self) }
        ensures short { IfOk result IsShortText }
    {
        match self {
            EndWord::NotWelcome => String::from_str(alloc, "not welcome"),
            EndWord::Refused(refusal) => format!(in alloc; "refused {}", refusal.code()),
            EndWord::Unsettled(number) => format!(in alloc; "unsettled {number}"),
            EndWord::EpochEnded(current) => format!(in alloc; "epoch ended {current}"),
            EndWord::Replaced(current) => format!(in alloc; "replaced {current}"),
            EndWord::BadLine => String::from_str(alloc, "bad line"),
        }
    }
}
