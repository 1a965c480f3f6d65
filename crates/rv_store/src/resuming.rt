//! Reads the lines of a journal from those on that a machine's account has.
ghost use Rattle.std.specs.Prelude.{◌≡◌, ◌+◌, ℕ, List, []};
ghost use Rattle.rv_account.specs.state.resume.Resuming.{CanResume};
ghost use Rattle.rv_book.specs.lines.Lines.{lines};
ghost use Rattle.rv_journal.specs.Text.{IsLines};
ghost use Rattle.rv_machine.specs.Machines.{state_in};
ghost use Rattle.rv_verify.specs.Standing.{HoldsAccountOf};
ghost use Rattle.rv_store.specs.Format.{IsJournalOf};
ghost use Rattle.rv_store.specs.Reading.{HasReadJournal};
ghost use Rattle.rv_store.specs.Resuming.{HasPassedOver, PassesSome};

use crate::format::account_part;
use crate::reader::{AccountReader, RecoveryFault};
use rv_book::lines::cut_at;
use rv_journal::JournalReader;
use rv_machine::Machine;
use std::alloc::Global;

/// Reads the lines of a journal as an account that begins with the one whose state a machine holds: it passes
/// over the lines of that, and goes on from the machine.
#[derive(Drop)]
pub(crate) struct ResumingReader {
    // How many lines of the account are left to be passed over.
    left: u64,
    // Whether the journal's first line has begun.
    begun: bool,
    reader: AccountReader,
}

impl ResumingReader {
    /// A reader of an account of this epoch that goes on from a machine. It has read no line.
    pub(crate) fn new(alloc: Global, epoch: u64, machine: Machine) -> ResumingReader
        requires resumes { CanResume (state_in machine) }
        ensures none { HasPassedOver ((state_in machine).length + 1) result.reader [] result }
        ensures read { (text account : List ℕ) → IsJournalOf text account
            → HoldsAccountOf (lines account) machine → HasReadJournal text result.reader }
        ensures epoch { result.reader.epoch ≡ epoch }
    {
        ResumingReader {
            left: machine.length() as u64 + 1,
            begun: false,
            reader: AccountReader::after(alloc, epoch, machine),
        }
    }
}

// Passes over so many whole lines, or all if they are fewer: how many are left to be passed over, and what is
// after them.
fn after_lines(count: u64, lines: &[u8]) -> (u64, &[u8])
    requires { IsLines lines.now }
    ensures { PassesSome count result.0 lines.now result.1.now }
{
    let mut left = count;
    let mut rest = lines;
    while left > 0 {
        match cut_at(b'\n', rest) {
            Some((_, after)) => rest = after,
            None => return (left, rest),
        }
        left -= 1;
    }
    (left, rest)
}

impl JournalReader for ResumingReader {
    ghost use Rattle.rv_store.specs.Resuming.{LacksResumed, MakesResumed, RefusesResuming, ResumesOn};
    ghost use Rattle.rv_store.specs.Joined.{resumes_none, resumes_on, resuming_refuses_on};

    type Fault = RecoveryFault;

    type Made = Machine;

    ghost takes = { ResumesOn };

    ghost refuses = { RefusesResuming };

    ghost makes = { MakesResumed };

    ghost lacks = { LacksResumed };

    fn take(&mut self, lines: &[u8]) -> Result<(), RecoveryFault> {
        if lines.is_empty() {
            return Ok(());
        }
        let account = account_part(self.begun, lines)?;
        self.begun = true;
        let (left, rest) = after_lines(self.left, account);
        self.left = left;
        if left > 0 {
            return Ok(());
        }
        self.reader.take(rest)
    }

    fn finish(self) -> Result<Machine, RecoveryFault> {
        if self.begun && self.left == 0 {
            self.reader.finish()
        } else {
            Err(RecoveryFault::TooFew)
        }
    }

    ghost none = { resumes_none };

    ghost joined = { resumes_on };

    ghost refused_on = { resuming_refuses_on };
}
