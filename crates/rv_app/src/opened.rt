//! A book whose epoch and opening moment are known by its type.
ghost use Rattle.std.specs.Prelude.{◌≡◌, ◌≤◌, [], ℕ, ◌^◌, IfOk};
ghost use Rattle.rv_book.specs.Verdicts.{WasGiven};
ghost use Rattle.rv_server.specs.Books.{IsStep, entry_count, shown_by};
ghost use Rattle.rv_text.specs.Limits.{FitsIdentifier};

use rv_book::{Book, Verdict};
use rv_server::Desk;
use rv_text::{Answer, Message, NoMemory};
use std::alloc::Global;
use std::marker::{Brand, Model, PhantomData};

/// The epoch of a book, and the moment of its opening. Only contracts see them.
pub(crate) trait Opening {
    // The epoch.
    ghost epoch: { ℕ };

    // The moment.
    ghost moment: { ℕ };
}

impl Opening for Brand {
    ghost epoch = { 0 };

    ghost moment = { 0 };
}

/// A book that was opened for this epoch and at this moment, whatever it has handled since. Contracts see it
/// as its account.
#[derive(Drop)]
pub(crate) struct OpenedBook<O: Opening> {
    book: Book,
    opening: PhantomData<O>,
}

impl<O: Opening> Model for OpenedBook<O> {
    ghost use Rattle.std.specs.Prelude.{◌≡◌};
    ghost use Rattle.rv_account.specs.Account.{Account};

    ghost Value = { Account };

    ghost view = { λ opened. opened.book };

    ghost invariant = { λ opened. (opened.book.epoch ≡ O.epoch) × (opened.book.opened ≡ O.moment) };
}

impl<O: Opening> OpenedBook<O> {
    /// Opens the book. It fails only if memory was refused.
    pub(crate) fn open(alloc: Global, epoch: u64, moment: u64) -> Result<OpenedBook<O>, NoMemory>
        requires fits { FitsIdentifier epoch }
        requires small { moment ≤ 2 ^ 62 }
        requires epoch { epoch ≡ O.epoch }
        requires moment { moment ≡ O.moment }
        ensures { IfOk result (λ opened. opened.entries ≡ []) }
    {
        let book = Book::open(alloc, epoch, moment)?;
        Ok(OpenedBook {
            book,
            opening: PhantomData,
        })
    }

    /// The book.
    pub(crate) fn book(&self) -> &Book
        ensures same { result.now ≡ self.now }
        ensures epoch { self.now.epoch ≡ O.epoch }
        ensures moment { self.now.opened ≡ O.moment }
    {
        &self.book
    }
}

impl<O: Opening> Desk for OpenedBook<O> {
    type Stamp = Verdict;

    ghost stamped = { shown_by };

    ghost count = { entry_count };

    ghost steps = { IsStep };

    ghost gave = { WasGiven };

    fn handle(&mut self, now: u64, message: Message) -> Verdict {
        self.book.handle(now, message)
    }

    fn answer(&self, alloc: Global, verdict: &Verdict) -> Result<Answer, NoMemory> {
        self.book.answer(alloc, verdict)
    }

    fn entries(&self) -> u64 {
        self.book.account().len() as u64
    }
}
