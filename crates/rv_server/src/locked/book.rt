//! The book is a desk: its stamps are verdicts.
ghost use Rattle.rv_book.specs.Verdicts.{WasGiven};
ghost use Rattle.rv_server.specs.locked.Books.{IsStep, entry_count, shown_by};

use crate::locked::desk::Desk;
use rv_book::{Book, Verdict};
use rv_text::{Answer, Message, NoMemory};
use std::alloc::Global;

impl Desk for Book {
    type Stamp = Verdict;

    ghost stamped = { shown_by };

    ghost count = { entry_count };

    ghost steps = { IsStep };

    ghost gave = { WasGiven };

    fn handle(&mut self, now: u64, message: Message) -> Verdict {
        self.handle(now, message)
    }

    fn answer(&self, alloc: Global, verdict: &Verdict) -> Result<Answer, NoMemory> {
        self.answer(alloc, verdict)
    }

    fn entries(&self) -> u64 {
        self.account().len() as u64
    }
}
