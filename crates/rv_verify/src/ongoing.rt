//! Audits an account as it comes, even while it still grows.
ghost use Rattle.std.specs.Prelude.{◌≡◌, ◌≢◌, ◌↔◌, ◌∷◌, ◌++◌, [], ℕ, List, Some, IfErr, IfOk, IsTrue, OnOk};
ghost use Rattle.rv_replies.specs.declared.findings.verdict.AccountVerdict.TheVariants as verdict;
ghost use Rattle.rv_replies.specs.declared.records.Records as records;
ghost use Rattle.rv_book.specs.lines.Lines.{lines};
ghost use Rattle.rv_replies.specs.Standing.{HasNoted};
ghost use Rattle.rv_verify.specs.Ends.{AreWholeLines};
ghost use Rattle.rv_verify.specs.Noting.{HasNotedOf};
ghost use Rattle.rv_verify.specs.Verdicts.{IsVerdictOn};
ghost use Rattle.rv_verify.specs.Ongoing.{CanGoOn, HasGoneOn, HasReadOn, HasReadPart, IsFoundOfBytes};
ghost use Rattle.rv_verify.specs.Ongoing.{IsFoundOfLines};
ghost use Rattle.rv_verify.specs.Stages.{AreNew, HasFault, HasReadLines, entries_of};
ghost use Rattle.rv_verify.specs.Standing.{HoldsAccountOf};
ghost use Rattle.rv_machine.specs.Machines.{state_in};
ghost use Rattle.rv_account.specs.state.resume.Resuming.{CanResume};

use crate::fault::VerifyFault;
use crate::parts::{NextPart, more_of_line};
use crate::reading::is_torn;
use crate::stage::Stage;
use rv_machine::Machine;
use rv_replies::Records;
use rv_replies::findings::AccountFinding;
use std::alloc::Global;
use std::io::BufRead;

/// How far to read.
#[derive(Clone, Copy)]
pub(crate) enum Until {
    /// To the reader's end.
    End,
    /// Up to the first line that is bad, or whose entry isn't followed, if there is one.
    Fault,
}

/// Why a reading pauses.
#[derive(Clone, Copy)]
pub enum Pause {
    /// The reader has no more bytes for now.
    End,
    /// The line that was read last is bad; or its entry breaks a rule, or leaves no room.
    Fault,
}

/// An audit of an account whose bytes come bit by bit. It keeps what is open, the clients, and the last
/// bytes, if they lack their LF.
pub struct OngoingAudit {
    pub(crate) stage: Stage,
    pub(crate) piece: Vec<u8>,
}

// Whoever owns one drops it in one step.
impl Drop for OngoingAudit {
    fn drop(self) {
        let OngoingAudit { stage: _, piece: _ } = self;
    }
}

impl OngoingAudit {
    /// An audit that has read no byte. It takes no memory yet.
    pub fn new(alloc: Global) -> OngoingAudit
        ensures ready { CanGoOn result }
        ensures read { (r : records.Records) → AreNew r → HasReadPart [] result r }
        ensures piece { result.piece.items ≡ [] }
    {
        OngoingAudit {
            stage: Stage::new(),
            piece: Vec::new(alloc),
        }
    }

    /// An audit that goes on from a machine, as one does that has read the lines of the account whose state
    /// the machine holds, with a record that has noted it; it needn't read them. It takes no memory yet.
    pub fn after(alloc: Global, machine: Machine) -> OngoingAudit
        requires resumes { CanResume (state_in machine) }
        ensures ready { CanGoOn result }
        ensures counted { entries_of result.stage.verifier ≡ (state_in machine).length }
        ensures read { (lines : List (List ℕ)) (held : HoldsAccountOf lines machine) (r : records.Records)
            → HasNoted r held.account → HasReadPart lines result r }
        ensures piece { result.piece.items ≡ [] }
    {
        OngoingAudit {
            stage: Stage::after(machine),
            piece: Vec::new(alloc),
        }
    }

    /// Reads on to the reader's end, or up to the first fault, and hands each entry that passed to the
    /// records. It may be called again once the reader has more. If it fails, it is of no further use.
    pub fn read_on<B: BufRead>(
        &mut self,
        alloc: Global,
        reader: &mut B,
        records: &mut Records,
    ) -> Result<Pause, VerifyFault>
        requires ready { CanGoOn self.old }
        ensures ready { OnOk result (CanGoOn self.new) }
        ensures lines { records.new.lines ≡ records.old.lines }
        ensures read { (before : List (List ℕ)) (bytes : List ℕ)
            → HasReadPart before self.old records.old → B.remaining reader.old ≡ Some bytes
            → IfOk result (HasReadOn before (self.old.piece.items ++ bytes) self.new records.new
            (B.remaining reader.new)) }
        ensures none_kept { IfOk result (λ why. why ≡ Pause.Fault → self.new.piece.items ≡ []) }
    {
        self.read_until(alloc, reader, records, Until::Fault)
    }

    // The same, or goes on reading after faults.
    pub(crate) fn read_until<B: BufRead>(
        &mut self,
        alloc: Global,
        reader: &mut B,
        records: &mut Records,
        until: Until,
    ) -> Result<Pause, VerifyFault>
        requires ready { CanGoOn self.old }
        ensures ready { OnOk result (CanGoOn self.new) }
        ensures lines { records.new.lines ≡ records.old.lines }
        ensures ends { until ≡ Until.End → IfOk result (λ why. why ≡ Pause.End) }
        ensures read { (before : List (List ℕ)) (bytes : List ℕ)
            → HasReadPart before self.old records.old → B.remaining reader.old ≡ Some bytes
            → IfOk result (HasGoneOn until before (self.old.piece.items ++ bytes) self.new records.new
            (B.remaining reader.new)) }
        ensures none_kept { IfOk result (λ why. why ≡ Pause.Fault → self.new.piece.items ≡ []) }
    {
        for _turn in 0..u64::MAX {
            match more_of_line(reader, &mut self.piece)? {
                NextPart::Line => self.take_line(alloc, records)?,
                NextPart::Piece => return Ok(Pause::End),
                NextPart::End => return Ok(Pause::End),
            }
            if matches!(until, Until::Fault) && self.stage.has_fault() {
                return Ok(Pause::Fault);
            }
        }
        Err(VerifyFault::ReadFault)
    }

    // Takes the line that is kept.
    fn take_line(&mut self, alloc: Global, records: &mut Records) -> Result<(), VerifyFault>
        requires ready { CanGoOn self.old }
        ensures ready { OnOk result (CanGoOn self.new) }
        ensures lines { records.new.lines ≡ records.old.lines }
        ensures read { OnOk result ((before : List (List ℕ))
            → HasReadLines before self.old.stage records.old
            → HasReadLines (before ++ self.old.piece.items ∷ []) self.new.stage records.new) }
        ensures piece { OnOk result (self.new.piece.items ≡ []) }
    {
        self.stage.line(alloc, records, &self.piece)?;
        self.piece.clear();
        Ok(())
    }

    /// How many entries were read.
    pub fn entries(&self) -> u64
        ensures { result ≡ entries_of self.now.stage.verifier }
    {
        self.stage.entries()
    }

    /// Reads the rest of an account, and says what was found of it.
    pub(crate) fn read_to_end<B: BufRead>(
        &mut self,
        alloc: Global,
        reader: &mut B,
        records: &mut Records,
    ) -> Result<AccountFinding, VerifyFault>
        requires ready { CanGoOn self.old }
        ensures lines { records.new.lines ≡ records.old.lines }
        ensures found { (bytes : List ℕ) → HasReadPart [] self.old records.old
            → self.old.piece.items ≡ [] → B.remaining reader.old ≡ Some bytes
            → IfOk result (IsFoundOfBytes bytes records.new) }
    {
        self.read_until(alloc, reader, records, Until::End)?;
        self.finish(alloc, records)
    }

    // The finding on an account that ends here: its last bytes count too, unless they are torn.
    fn finish(
        &mut self,
        alloc: Global,
        records: &mut Records,
    ) -> Result<AccountFinding, VerifyFault>
        requires ready { CanGoOn self.old }
        ensures lines { records.new.lines ≡ records.old.lines }
        ensures found { (whole : List ℕ) → AreWholeLines whole
            → HasReadPart (lines whole) self.old records.old
            → IfOk result (IsFoundOfBytes (whole ++ self.old.piece.items) records.new) }
    {
        if self.piece.is_empty() {
            return Ok(finding_on(&mut self.stage, false));
        }
        if self.stage.is_at_head() {
            return Ok(finding_on(&mut self.stage, true));
        }
        if is_torn(alloc, &self.piece)? {
            return Ok(finding_on(&mut self.stage, true));
        }
        self.take_line(alloc, records)?;
        Ok(finding_on(&mut self.stage, false))
    }

    /// What is found of an account that isn't read to its end, from its whole lines alone. Its end is torn if
    /// bytes after them were read.
    pub fn break_off(self) -> AccountFinding
        ensures found { (read : List (List ℕ)) (r : records.Records) → HasReadLines read self.stage r
            → IsFoundOfLines read r result }
        ensures fault { HasFault self.stage → result.verdict ≢ verdict.Legal }
        ensures torn { IsTrue result.torn ↔ (self.piece.items ≢ []) }
    {
        let mut audit = self;
        let torn = !audit.piece.is_empty();
        finding_on(&mut audit.stage, torn)
    }

    /// The machine that goes on from the whole lines that were read, if they are a legal account whose state
    /// has had room after each entry; else what is found of them, as [`OngoingAudit::break_off`] gives it.
    /// Its moment is the last entry's, below which no step may be.
    pub fn into_machine(self) -> Result<Machine, AccountFinding>
        ensures ready { CanGoOn self → IfOk result (λ machine. CanResume (state_in machine)) }
        ensures holds { (read : List (List ℕ)) (r : records.Records) → HasReadLines read self.stage r
            → IfOk result (HoldsAccountOf read) }
        ensures found { (read : List (List ℕ)) (r : records.Records) → HasReadLines read self.stage r
            → IfErr result (IsFoundOfLines read r) }
        ensures fault { IfErr result (λ found. found.verdict ≢ verdict.Legal) }
        ensures torn { IfErr result (λ found. IsTrue found.torn ↔ (self.piece.items ≢ [])) }
    {
        let OngoingAudit { stage, piece } = self;
        let epoch = stage.epoch();
        let torn = !piece.is_empty();
        match stage.into_machine() {
            Ok(machine) => Ok(machine),
            Err(verdict) => Err(AccountFinding {
                epoch,
                verdict,
                torn,
            }),
        }
    }
}

// The finding on the lines that were read, with an end that is torn or not.
fn finding_on(stage: &mut Stage, torn: bool) -> AccountFinding
    ensures torn { result.torn ≡ torn }
    ensures verdict { (read : List (List ℕ)) (r : records.Records) → HasReadLines read stage.old r
        → IsVerdictOn read result.verdict }
    ensures noted { (read : List (List ℕ)) (r : records.Records) → HasReadLines read stage.old r
        → HasNotedOf read result.epoch r }
    ensures fault { HasFault stage.old → result.verdict ≢ verdict.Legal }
{
    AccountFinding {
        epoch: stage.epoch(),
        verdict: stage.verdict(),
        torn,
    }
}
