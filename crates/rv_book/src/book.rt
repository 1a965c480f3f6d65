//! The book of one epoch: it takes messages one by one and says what becomes of each.
ghost use Rattle.std.specs.Prelude.{◌≡◌, ◌≤◌, ◌^◌, [], IfOk, OnErr, length, min};
ghost use Rattle.rv_text.specs.Limits.{FitsAnswer, FitsIdentifier, FitsMessage};
ghost use Rattle.rv_book.specs.Legal.{Legal};
ghost use Rattle.rv_book.specs.Steps.{Next};
ghost use Rattle.rv_book.specs.Verdicts.{HasText, VerdictView, WasGiven};

use crate::state::BookState;
use crate::verdict::{KeptAnswer, Verdict};
use rv_account::Account;
use rv_text::{Answer, Message, NoMemory};
use std::alloc::Global;
use std::marker::Model;
use std::snapshot::Snapshot;

/// The book of an epoch, which contracts see as its [`Account`].
/// The account is always legal and within the limits, and all else that the book keeps follows from it.
pub struct Book {
    state: BookState,
}

// Whoever owns one drops it in one step.
impl Drop for Book {
    fn drop(self) {
        let Book { state: _ } = self;
    }
}

impl Model for Book {
    ghost use Rattle.rv_account.specs.Account.{Account};

    ghost Value = { Account };

    ghost use Rattle.rv_book.specs.Tables.{IsSound};

    ghost view = { λ b. b.state.account.account };

    ghost invariant = { λ b. IsSound b.state };
}

impl Book {
    ghost use Rattle.rv_book.specs.Limits.{FitsAccount};

    /// The book's account, as it stands.
    pub fn account(&self) -> &Account
        ensures same { result.now.account ≡ self.now }
        ensures legal { Legal self.now }
        ensures fits { FitsAccount self.now }
    {
        self.state.account()
    }

    /// Opens a book of an epoch, 1 to 2^53 - 1, at a moment in milliseconds, which counts as at most 2^62.
    /// Fails only if memory was refused.
    pub fn open(alloc: Global, epoch: u64, now: u64) -> Result<Book, NoMemory>
        requires { FitsIdentifier epoch }
        ensures epoch { IfOk result (λ book. book.epoch ≡ epoch) }
        ensures opened { IfOk result (λ book. book.opened ≡ min now (2 ^ 62)) }
        ensures empty { IfOk result (λ book. book.entries ≡ []) }
    {
        let state = BookState::open(alloc, epoch, now)?;
        Ok(Book { state })
    }

    /// Takes one step with a message that came at a moment in milliseconds, which counts as no less than the
    /// book's own and at most 2^62. First one tick times out all that is due, if anything is, without memory.
    /// Then the message is recorded, unless it is refused, or repeats one that was answered and gets the same
    /// answer again; in both cases the account stays as the tick left it. If memory for the message was
    /// refused, the verdict is refusal 11, and the account also stays as the tick left it.
    ///
    /// On average the cost grows neither with the entries nor with the clients. A wait that ends by a tick,
    /// cancel or hello is looked up in its queue, and a limit among the limits, in logarithmic time.
    pub fn handle(&mut self, now: u64, message: Message) -> Verdict
        requires { FitsMessage message }
        ensures step { Next self.old now message self.new result.said }
        ensures asked { result.asked ≡ message }
        ensures before { result.before ≡ length self.old.entries }
        ensures length { result.length ≡ length self.new.entries }
        ensures fits { FitsAnswer result.said }
        ensures given { WasGiven self.new result }
        ensures still { (v : VerdictView) → WasGiven self.old v → WasGiven self.new v }
    {
        let asked = Snapshot::of(&message);
        let before = Snapshot::of(self.state.account());
        Verdict {
            asked,
            before,
            said: self.state.step(now, message),
            after: Snapshot::of(self.state.account()),
        }
    }

    /// The answer that a verdict of this book stands for, now and later. Fails only if memory for a text was
    /// refused.
    pub fn answer(&self, alloc: Global, verdict: &Verdict) -> Result<Answer, NoMemory>
        requires { WasGiven self.now verdict.now }
        ensures ok { IfOk result (λ answer. answer ≡ verdict.now.said) }
        ensures err { OnErr result (HasText verdict.now.said) }
    {
        match verdict.said {
            KeptAnswer::Welcome(epoch, client, incarnation, version) => Ok(Answer::Welcome {
                epoch,
                client,
                incarnation,
                version,
            }),
            KeptAnswer::Replied { key, kept } => {
                let reply = crate::reply_cache::reply(alloc, self.state.account(), kept)?;
                Ok(Answer::Replied { key, reply })
            }
            KeptAnswer::Waiting { key } => Ok(Answer::Waiting { key }),
            KeptAnswer::Refused(refusal) => Ok(Answer::Refused(refusal)),
        }
    }
}
