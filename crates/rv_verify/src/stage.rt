//! How far the lines of an account were read, from the first one on.
ghost use Rattle.std.specs.Prelude.{◌≡◌, ◌≢◌, ◌↔◌, ◌∷◌, ◌++◌, [], ℕ, List, None, Some};
ghost use Rattle.std.specs.Prelude.{IfErr, IfOk, IsTrue, OnOk};
ghost use Rattle.rv_replies.specs.declared.findings.verdict.AccountVerdict.TheVariants as verdict;
ghost use Rattle.rv_replies.specs.declared.records.Records as records;
ghost use Rattle.rv_replies.specs.Standing.{HasNoted};
ghost use Rattle.rv_verify.specs.Noting.{HasNotedOf};
ghost use Rattle.rv_verify.specs.Stages.{AreNew, CanTakeLine, HasFault, HasReadLines, HasReadNoting};
ghost use Rattle.rv_verify.specs.Stages.{IsAtHead, StandsBehind, entries_of, epoch_of};
ghost use Rattle.rv_verify.specs.Standing.{CanReadOn, HoldsAccountOf};
ghost use Rattle.rv_machine.specs.Machines.{state_in};
ghost use Rattle.rv_account.specs.state.resume.Resuming.{CanResume};
ghost use Rattle.rv_verify.specs.Verdicts.{IsVerdictOn};

use crate::fault::VerifyFault;
use crate::verifier::Verifier;
use rv_book::lines::{LineFault, read_head};
use rv_machine::Machine;
use rv_replies::Records;
use rv_replies::findings::AccountVerdict;
use std::alloc::Global;

/// The lines of an account that were read so far.
#[derive(Drop)]
pub(crate) struct Stage {
    // What read the lines before the first bad one.
    pub(crate) verifier: Option<Verifier>,
    // The number of the first bad line.
    pub(crate) bad: Option<u64>,
}

impl Stage {
    /// Before the first line.
    pub(crate) fn new() -> Stage
        ensures ready { CanTakeLine result }
        ensures read { (r : records.Records) → AreNew r → HasReadLines [] result r }
    {
        Stage {
            verifier: None,
            bad: None,
        }
    }

    /// After the lines of the account whose state a machine holds, with a record that has noted it.
    pub(crate) fn after(machine: Machine) -> Stage
        requires { CanResume (state_in machine) }
        ensures ready { CanTakeLine result }
        ensures counted { entries_of result.verifier ≡ (state_in machine).length }
        ensures read { (lines : List (List ℕ)) (held : HoldsAccountOf lines machine) (r : records.Records)
            → HasNoted r held.account → HasReadLines lines result r }
    {
        Stage {
            verifier: Some(Verifier::after(machine)),
            bad: None,
        }
    }

    // After the first line.
    fn begun(alloc: Global, line: &[u8]) -> Result<Stage, VerifyFault>
        ensures ready { IfOk result CanTakeLine }
        ensures read { IfOk result (λ stage. (r : records.Records) → AreNew r
            → HasReadLines (line.now ∷ []) stage r) }
    {
        match read_head(line) {
            Some((epoch, opened)) => Ok(Stage {
                verifier: Some(Verifier::open(alloc, epoch, opened)?),
                bad: None,
            }),
            None => Ok(Stage {
                verifier: None,
                bad: Some(1),
            }),
        }
    }

    /// Whether no line was read.
    pub(crate) fn is_at_head(&self) -> bool
        ensures { IsTrue result ↔ IsAtHead self.now }
    {
        self.verifier.is_none() && self.bad.is_none()
    }

    /// Whether a line is bad, or its entry isn't followed.
    pub(crate) fn has_fault(&self) -> bool
        ensures { IsTrue result ↔ HasFault self.now }
    {
        match &self.verifier {
            Some(verifier) => self.bad.is_some() || verifier.stopped(),
            None => self.bad.is_some(),
        }
    }

    /// Reads one more line, and hands its entry to the records, if the entry passed.
    pub(crate) fn line(
        &mut self,
        alloc: Global,
        records: &mut Records,
        line: &[u8],
    ) -> Result<(), VerifyFault>
        requires ready { CanTakeLine self.old }
        ensures ready { OnOk result (CanTakeLine self.new) }
        ensures lines { records.new.lines ≡ records.old.lines }
        ensures read { OnOk result ((before : List (List ℕ)) → HasReadLines before self.old records.old
            → HasReadLines (before ++ line.now ∷ []) self.new records.new) }
    {
        if self.bad.is_some() {
            return Ok(());
        }
        match &mut self.verifier {
            Some(verifier) => self.bad = bad_behind(alloc, verifier, records, line)?,
            None => *self = Stage::begun(alloc, line)?,
        }
        Ok(())
    }

    /// The verdict on the lines that were read. It can be taken only once.
    pub(crate) fn verdict(&mut self) -> AccountVerdict
        ensures told { (lines : List (List ℕ)) (r : records.Records) → HasReadLines lines self.old r
            → IsVerdictOn lines result }
        ensures fault { HasFault self.old → result ≢ verdict.Legal }
    {
        if let Some(number) = self.bad {
            return AccountVerdict::BadLine(number);
        }
        match &mut self.verifier {
            Some(verifier) => verifier.verdict(),
            None => AccountVerdict::BadLine(1),
        }
    }

    /// The machine, which goes on from the account that the lines are, if it is legal and had room; else the
    /// verdict on them.
    pub(crate) fn into_machine(self) -> Result<Machine, AccountVerdict>
        ensures ready { CanTakeLine self → IfOk result (λ machine. CanResume (state_in machine)) }
        ensures holds { (lines : List (List ℕ)) (r : records.Records) → HasReadLines lines self r
            → IfOk result (HoldsAccountOf lines) }
        ensures told { (lines : List (List ℕ)) (r : records.Records) → HasReadLines lines self r
            → IfErr result (IsVerdictOn lines) }
        ensures fault { IfErr result (λ told. told ≢ verdict.Legal) }
    {
        let Stage { verifier, bad } = self;
        if let Some(number) = bad {
            return Err(AccountVerdict::BadLine(number));
        }
        match verifier {
            Some(verifier) => verifier.into_machine(),
            None => Err(AccountVerdict::BadLine(1)),
        }
    }

    /// The epoch that the first line says.
    pub(crate) fn epoch(&self) -> Option<u64>
        ensures is { result ≡ epoch_of self.now.verifier }
        ensures noted { (lines : List (List ℕ)) (r : records.Records) → HasReadLines lines self.now r
            → HasNotedOf lines result r }
    {
        match &self.verifier {
            Some(verifier) => Some(verifier.machine().epoch()),
            None => None,
        }
    }

    /// How many entries were read.
    pub(crate) fn entries(&self) -> u64
        ensures { result ≡ entries_of self.now.verifier }
    {
        match &self.verifier {
            Some(verifier) => verifier.entries(),
            None => 0,
        }
    }
}

// Reads one more line by a verifier, and gives its number if it is bad.
fn bad_behind(
    alloc: Global,
    verifier: &mut Verifier,
    records: &mut Records,
    line: &[u8],
) -> Result<Option<u64>, VerifyFault>
    requires ready { CanReadOn verifier.old }
    ensures ready { OnOk result (CanReadOn verifier.new) }
    ensures lines { records.new.lines ≡ records.old.lines }
    ensures read { IfOk result (λ bad. (before : List (List ℕ))
        → HasReadNoting before verifier.old records.old
        → StandsBehind (before ++ line.now ∷ []) (Some verifier.new) bad records.new) }
{
    match verifier.line(alloc, records, line) {
        Ok(()) => Ok(None),
        Err(LineFault::Bad) => Ok(Some(verifier.entries() + 2)),
        Err(LineFault::NoMemory) => Err(VerifyFault::NoMemory),
    }
}
