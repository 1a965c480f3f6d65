//! The book's answer to a message, in a form that takes no memory.
use rv_account::Account;
use rv_session::Kept;
use rv_text::{Key, Message, Refusal, Version};
use std::marker::Model;
use std::snapshot::Snapshot;

#[derive(Clone, Copy)]
pub(crate) enum KeptAnswer {
    // The session of this epoch, client, incarnation and version is open.
    Welcome(u64, u64, u64, Version),
    Replied { key: Key, kept: Kept },
    Waiting { key: Key },
    Refused(Refusal),
}

impl KeptAnswer {
    ghost use Rattle.rv_book.specs.Saying.{said_of};
    ghost use Rattle.std.specs.Prelude.{◌≡◌};

    // What is said to a request: the reply that is kept for it, or that it waits.
    pub(crate) fn of(key: Key, kept: Option<Kept>) -> KeptAnswer
        ensures { result ≡ said_of key kept }
    {
        match kept {
            Some(kept) => KeptAnswer::Replied { key, kept },
            None => KeptAnswer::Waiting { key },
        }
    }
}

/// What [`Book::handle`](crate::Book::handle) answered to a message, by places, with no texts. Contracts see
/// the message, the answer, the account's number of entries before and after, and what is kept of a reply.
#[derive(Drop)]
pub struct Verdict {
    pub(crate) said: KeptAnswer,
    pub(crate) asked: Snapshot<Message>,
    pub(crate) before: Snapshot<Account>,
    pub(crate) after: Snapshot<Account>,
}

impl Model for Verdict {
    ghost use Rattle.rv_book.specs.Saying.{stamp_of};
    ghost use Rattle.rv_book.specs.Verdicts.{IsOfStep, VerdictView};

    ghost Value = { VerdictView };

    ghost view = { λ v. stamp_of v.asked.value v.before.value.account v.after.value.account v.said };

    ghost invariant = { λ v.
        IsOfStep (stamp_of v.asked.value v.before.value.account v.after.value.account v.said) };
}
