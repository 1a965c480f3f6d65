//! Reads the lines of a journal as those of an account.
ghost use Rattle.std.specs.Prelude.{◌≡◌, ℕ, List, IfErr, IfOk, [], false};
ghost use Rattle.rv_account.specs.state.resume.Resuming.{CanResume};
ghost use Rattle.rv_book.specs.lines.Lines.{lines};
ghost use Rattle.rv_journal.specs.Text.{IsLines};
ghost use Rattle.rv_machine.specs.Machines.{state_in};
ghost use Rattle.rv_verify.specs.Ongoing.{CanGoOn};
ghost use Rattle.rv_verify.specs.Standing.{HoldsAccountOf};
ghost use Rattle.rv_store.specs.Format.{IsJournalOf};
ghost use Rattle.rv_store.specs.Reading.{LacksAccount, MakesMachine, ReadsWholeOn, RefusesWholeOn};

use crate::format::account_part;
use rv_journal::JournalReader;
use rv_machine::Machine;
use rv_replies::Records;
use rv_replies::findings::AccountFinding;
use rv_verify::{OngoingAudit, Pause};
use std::alloc::Global;
use std::marker::Model;
use std::mem;

/// Why the lines of a journal aren't read as an account.
#[derive(Drop)]
pub enum RecoveryFault {
    /// The first line names this version of the format; [`VERSION`](crate::VERSION) is read.
    OtherVersion(u64),
    /// The first line names no format of a journal.
    NoJournal,
    /// There is no whole line.
    NoLines,
    /// They are an account of this epoch, and not of the one that was asked for.
    OtherEpoch(u64),
    /// They are no legal account, or one beyond the limits of a state: this was found of the first of them.
    NoAccount(AccountFinding),
    /// They are fewer than those of the account whose state they should go on from.
    TooFew,
    /// Memory was refused.
    NoMemory,
}

/// Reads the lines of a journal as an account of any length. It keeps what is open in it and its clients,
/// and no entry.
#[derive(Drop)]
pub struct AccountReader {
    parts: ReaderParts,
}

// The epoch that is asked for, what was read, a record of no replies, and whether the first line was read.
#[derive(Drop)]
pub(crate) struct ReaderParts {
    pub(crate) alloc: Global,
    pub(crate) epoch: u64,
    pub(crate) audit: OngoingAudit,
    pub(crate) records: Records,
    pub(crate) begun: bool,
}

impl Model for AccountReader {
    ghost use Rattle.rv_store.specs.declared.reader.ReaderParts.{ReaderParts};
    ghost use Rattle.rv_store.specs.contracts.reader.ReaderParts as row;
    ghost use Rattle.rv_verify.specs.Ongoing.{CanGoOn};

    ghost Value = { ReaderParts };

    ghost coded = { row.the_row.coded };

    ghost view = { λ r. r.parts };

    ghost invariant = { λ r. CanGoOn r.parts.audit };
}

impl AccountReader {
    ghost use Rattle.rv_store.specs.Reading.{HasReadJournal};

    /// A reader of an account of this epoch that has read no line. It takes no memory yet.
    pub fn new(alloc: Global, epoch: u64) -> AccountReader
        ensures read { HasReadJournal [] result }
        ensures epoch { result.epoch ≡ epoch }
    {
        AccountReader {
            parts: ReaderParts {
                alloc,
                epoch,
                audit: OngoingAudit::new(alloc),
                records: Records::new(alloc),
                begun: false,
            },
        }
    }

    /// A reader of an account of this epoch that goes on from a machine: as one that has read the journal of
    /// the account whose state the machine holds. It takes no memory yet.
    pub(crate) fn after(alloc: Global, epoch: u64, machine: Machine) -> AccountReader
        requires resumes { CanResume (state_in machine) }
        ensures read { (text account : List ℕ) → IsJournalOf text account
            → HoldsAccountOf (lines account) machine → HasReadJournal text result }
        ensures epoch { result.epoch ≡ epoch }
    {
        AccountReader {
            parts: ReaderParts {
                alloc,
                epoch,
                audit: OngoingAudit::after(alloc, machine),
                records: Records::new(alloc),
                begun: true,
            },
        }
    }
}

// Reads whole lines on by an audit, and gives it back once it has read all of them.
fn read_lines_on(
    alloc: Global,
    audit: OngoingAudit,
    records: &mut Records,
    lines: &[u8],
) -> Result<OngoingAudit, RecoveryFault>
    requires ready { CanGoOn audit }
    requires whole { IsLines lines.now }
    ensures ready { IfOk result CanGoOn }
    ensures read { IfOk result (λ later. ReadsWholeOn audit records.old lines.now later records.new) }
    ensures refused { IfErr result (λ why. RefusesWholeOn audit records.old lines.now why) }
{
    let mut audit = audit;
    let mut rest = lines;
    match audit.read_on(alloc, &mut rest, records) {
        Ok(Pause::End) => Ok(audit),
        Ok(Pause::Fault) => Err(RecoveryFault::NoAccount(audit.break_off())),
        // bytes in memory are read without a fault
        Err(_) => Err(RecoveryFault::NoMemory),
    }
}

// The machine that goes on from what was read, or why there is none.
fn machine_of(parts: ReaderParts) -> Result<Machine, RecoveryFault>
    requires { CanGoOn parts.audit }
    ensures made { IfOk result (MakesMachine parts) }
    ensures lacking { IfErr result (LacksAccount parts) }
{
    if !parts.begun {
        return Err(RecoveryFault::NoLines);
    }
    match parts.audit.into_machine() {
        Ok(machine) if machine.epoch() == parts.epoch => Ok(machine),
        Ok(machine) => Err(RecoveryFault::OtherEpoch(machine.epoch())),
        Err(found) => Err(RecoveryFault::NoAccount(found)),
    }
}

impl JournalReader for AccountReader {
    ghost use Rattle.rv_store.specs.Reading.{LacksAccount, MakesMachine, ReadsTextOn, RefusesTextOn};
    ghost use Rattle.rv_store.specs.Joined.{refuses_on, takes_none, takes_on};

    type Fault = RecoveryFault;

    type Made = Machine;

    ghost takes = { ReadsTextOn };

    ghost refuses = { RefusesTextOn };

    ghost makes = { MakesMachine };

    ghost lacks = { LacksAccount };

    fn take(&mut self, lines: &[u8]) -> Result<(), RecoveryFault> {
        if lines.is_empty() {
            return Ok(());
        }
        let parts = &mut self.parts;
        let account = account_part(parts.begun, lines)?;
        let audit = mem::replace(&mut parts.audit, OngoingAudit::new(parts.alloc));
        parts.audit = read_lines_on(parts.alloc, audit, &mut parts.records, account)?;
        parts.begun = true;
        Ok(())
    }

    fn finish(self) -> Result<Machine, RecoveryFault> {
        machine_of(self.parts)
    }

    ghost none = { takes_none };

    ghost joined = { takes_on };

    ghost refused_on = { refuses_on };
}
