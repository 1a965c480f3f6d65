//! An account that is followed line by line, as far as it is legal and has room.
ghost use Rattle.std.specs.Prelude.{◌≡◌, ◌≢◌, ◌<◌, ◌≤◌, ◌∷◌, ◌++◌, [], ℕ, List, None, Err};
ghost use Rattle.std.specs.Prelude.{IfErr, IfOk, IsSome, OnOk};
ghost use Rattle.rv_text.specs.Limits.{FitsIdentifier};
ghost use Rattle.rv_text.specs.Members.{max_identifier};
ghost use Rattle.rv_account.specs.Limits.{max_moment};
ghost use Rattle.rv_account.specs.declared.entry.Entry as entries;
ghost use Rattle.rv_replies.specs.declared.findings.verdict.AccountVerdict.TheVariants as verdict;
ghost use Rattle.rv_machine.specs.Machines.{state_in};
ghost use Rattle.rv_account.specs.state.resume.Resuming.{CanResume};
ghost use Rattle.rv_book.specs.lines.Entries.{IsNoNext};
ghost use Rattle.rv_book.specs.lines.Reading.{ReadsHead};
ghost use Rattle.rv_verify.specs.Verdicts.{IsVerdictOn, ReadsLongEntry, long_limits};
ghost use Rattle.rv_account.specs.Account.{Account, with_entry};
ghost use Rattle.rv_replies.specs.Known.{HasPassedBy};
ghost use Rattle.rv_replies.specs.Standing.{HasNoted};
ghost use Rattle.rv_replies.specs.declared.records.Records as records;
ghost use Rattle.rv_verify.specs.Standing.{CanReadOn, HasRead, HoldsAccountOf, entries_read, verdict_by};
ghost use Rattle.rv_verify.specs.Reading.{IsStopped, NotesOneMore, NotesUnlessStopped, ReadsOneMore};
ghost use Rattle.rv_verify.specs.Stages.{AreNew, HasReadNoting};

use crate::fault::VerifyFault;
use crate::follow::{Followed, follow};
use rv_account::Entry;
use rv_audit::Rule;
use rv_book::lines::{LineFault, read_entry};
use rv_machine::Machine;
use rv_replies::Records;
use rv_replies::findings::AccountVerdict;
use rv_text::{MAX_IDENTIFIER, NoMemory};
use std::alloc::Global;

/// Why a verifier follows an account no further.
#[derive(Drop)]
pub(crate) enum StopReason {
    /// An entry breaks this rule first, in the order of an audit.
    Breaks(Rule),
    /// This entry names a place where nothing is open, and breaks no rule before P1.
    NotOpen(Entry),
    /// The state after an entry has no room.
    BeyondLimits,
}

impl StopReason {
    // The verdict on an account that stops at this place.
    fn verdict(self, place: usize) -> AccountVerdict
        ensures { result ≡ verdict_by self place }
    {
        match self {
            StopReason::Breaks(rule) => AccountVerdict::Fault { place, rule },
            StopReason::NotOpen(entry) => AccountVerdict::NotOpen { place, entry },
            StopReason::BeyondLimits => AccountVerdict::BeyondLimits(place),
        }
    }
}

/// The part of an account that was read so far. It keeps what is open and the clients, and nothing of the
/// entries that passed.
pub(crate) struct Verifier {
    pub(crate) machine: Machine,
    // How many entries were read.
    pub(crate) entries: u64,
    // Why the last ones were only read, and not followed.
    pub(crate) stop: Option<StopReason>,
}

// Whoever owns one drops it in one step.
impl Drop for Verifier {
    fn drop(self) {
        let Verifier {
            machine: _,
            entries: _,
            stop: _,
        } = self;
    }
}

impl Verifier {
    /// A verifier that has read the first line of an account, which says its epoch and its opening moment.
    pub(crate) fn open(alloc: Global, epoch: u64, opened: u64) -> Result<Verifier, NoMemory>
        requires epoch { FitsIdentifier epoch }
        requires opened { opened ≤ max_moment }
        ensures ready { IfOk result CanReadOn }
        ensures read { IfOk result (λ v. (head : List ℕ) (r : records.Records) → ReadsHead head epoch opened
            → AreNew r → HasReadNoting (head ∷ []) v r) }
    {
        Ok(Verifier {
            machine: Machine::open(alloc, epoch, opened)?,
            entries: 0,
            stop: None,
        })
    }

    /// A verifier that goes on from a machine, as one does that has read the account whose state that holds.
    pub(crate) fn after(machine: Machine) -> Verifier
        requires { CanResume (state_in machine) }
        ensures ready { CanReadOn result }
        ensures counted { result.entries ≡ (state_in machine).length }
        ensures read { (lines : List (List ℕ)) (held : HoldsAccountOf lines machine) (r : records.Records)
            → HasNoted r held.account → HasReadNoting lines result r }
    {
        let entries = machine.length() as u64;
        Verifier {
            machine,
            entries,
            stop: None,
        }
    }

    /// Reads the next line. If all before it passed, follows its entry, and hands it to the records if it
    /// passed too. Fails if the line isn't read as one more entry, or memory was refused.
    pub(crate) fn line(
        &mut self,
        alloc: Global,
        records: &mut Records,
        line: &[u8],
    ) -> Result<(), LineFault>
        requires ready { CanReadOn self.old }
        ensures ready { OnOk result (CanReadOn self.new) }
        ensures lines { records.new.lines ≡ records.old.lines }
        ensures read { OnOk result ((before : List (List ℕ)) → HasReadNoting before self.old records.old
            → HasReadNoting (before ++ line.now ∷ []) self.new records.new) }
        ensures bad { result ≡ Err LineFault.Bad
            → IsNoNext long_limits (entries_read self.old) line.now × (self.new ≡ self.old)
            × (records.new ≡ records.old) }
    {
        if self.entries == MAX_IDENTIFIER {
            return Err(LineFault::Bad);
        }
        if self.stop.is_some() {
            self.pass_over(alloc, line)
        } else {
            self.follow_line(alloc, records, line)
        }
    }

    // Reads a line, and counts its entry alone.
    fn pass_over(&mut self, alloc: Global, line: &[u8]) -> Result<(), LineFault>
        requires ready { CanReadOn self.old }
        requires few { self.old.entries < max_identifier }
        requires stopped { IsSome self.old.stop }
        ensures ready { OnOk result (CanReadOn self.new) }
        ensures stopped { OnOk result (IsSome self.new.stop) }
        ensures read { OnOk result (ReadsOneMore self.old self.new line.now) }
        ensures bad { result ≡ Err LineFault.Bad
            → ((e : entries.Entry) → ¬ ReadsLongEntry line.now e) × (self.new ≡ self.old) }
    {
        let _entry = read_entry(alloc, line, MAX_IDENTIFIER)?;
        self.entries += 1;
        Ok(())
    }

    // Reads a line, follows its entry, and hands it to the records, if it passed.
    fn follow_line(
        &mut self,
        alloc: Global,
        records: &mut Records,
        line: &[u8],
    ) -> Result<(), LineFault>
        requires ready { CanReadOn self.old }
        requires few { self.old.entries < max_identifier }
        requires goes { self.old.stop ≡ None }
        ensures ready { OnOk result (CanReadOn self.new) }
        ensures lines { records.new.lines ≡ records.old.lines }
        ensures read { OnOk result (NotesOneMore self.old self.new records.old records.new line.now) }
        ensures bad { result ≡ Err LineFault.Bad
            → ((e : entries.Entry) → ¬ ReadsLongEntry line.now e) × (self.new ≡ self.old)
            × (records.new ≡ records.old) }
    {
        let entry = read_entry(alloc, line, MAX_IDENTIFIER)?;
        let Ok(stop) = stop_at(alloc, &mut self.machine, records, line, entry) else {
            return Err(LineFault::NoMemory);
        };
        self.stop = stop;
        self.entries += 1;
        Ok(())
    }

    /// The verdict on the lines that were read. If the verifier stopped, it can be taken only once.
    pub(crate) fn verdict(&mut self) -> AccountVerdict
        ensures told { (lines : List (List ℕ)) → HasRead lines self.old → IsVerdictOn lines result }
        ensures fault { IsSome self.old.stop → result ≢ verdict.Legal }
    {
        match self.stop.take() {
            None => AccountVerdict::Legal,
            Some(reason) => reason.verdict(self.machine.length()),
        }
    }

    /// The machine, which goes on from the account, if all entries passed; else the verdict.
    pub(crate) fn into_machine(self) -> Result<Machine, AccountVerdict>
        ensures ready { CanReadOn self → IfOk result (λ machine. CanResume (state_in machine)) }
        ensures holds { (lines : List (List ℕ)) → HasRead lines self → IfOk result (HoldsAccountOf lines) }
        ensures told { (lines : List (List ℕ)) → HasRead lines self → IfErr result (IsVerdictOn lines) }
        ensures fault { IfErr result (λ told. told ≢ verdict.Legal) }
    {
        let Verifier {
            machine,
            entries: _,
            stop,
        } = self;
        match stop {
            None => Ok(machine),
            Some(reason) => Err(reason.verdict(machine.length())),
        }
    }
}

// Follows the entry that a line says, and hands it to the records, or says why it doesn't go on.
fn stop_at(
    alloc: Global,
    machine: &mut Machine,
    records: &mut Records,
    line: &[u8],
    entry: Entry,
) -> Result<Option<StopReason>, VerifyFault>
    requires resumes { CanResume (state_in machine.old) }
    requires says { ReadsLongEntry line.now entry }
    ensures resumes { CanResume (state_in machine.new) }
    ensures stopped { IfOk result (IsStopped machine.old machine.new entry) }
    ensures lines { records.new.lines ≡ records.old.lines }
    ensures noted { IfOk result (NotesUnlessStopped machine.new records.old records.new entry) }
{
    match follow(machine, entry) {
        Followed::Done => {
            hand_on(alloc, machine, records, line)?;
            Ok(None)
        }
        Followed::Breaks(rule) => Ok(Some(StopReason::Breaks(rule))),
        Followed::NotOpen => Ok(Some(StopReason::NotOpen(entry_again(alloc, line)?))),
        Followed::BeyondLimits => Ok(Some(StopReason::BeyondLimits)),
        Followed::NoMemory => Err(VerifyFault::NoMemory),
    }
}

// Hands the entry that a line says to the records, by the machine that has followed it. If they ask about
// nothing, it isn't read again.
fn hand_on(
    alloc: Global,
    machine: &Machine,
    records: &mut Records,
    line: &[u8],
) -> Result<(), VerifyFault>
    requires says { (e : entries.Entry) × ReadsLongEntry line.now e }
    ensures lines { records.new.lines ≡ records.old.lines }
    ensures noted { OnOk result ((a : Account) (e : entries.Entry) → ReadsLongEntry line.now e
        → HasPassedBy machine.now a e → HasNoted records.old a → HasNoted records.new (with_entry a e)) }
{
    if records.asks_nothing() {
        return Ok(());
    }
    let entry = entry_again(alloc, line)?;
    records.pass(alloc, machine, &entry)?;
    Ok(())
}

// The entry that a line says, read again.
fn entry_again(alloc: Global, line: &[u8]) -> Result<Entry, VerifyFault>
    requires says { (e : entries.Entry) × ReadsLongEntry line.now e }
    ensures same { IfOk result (λ again. (e : entries.Entry) → ReadsLongEntry line.now e → again ≡ e) }
{
    match read_entry(alloc, line, MAX_IDENTIFIER) {
        Ok(entry) => Ok(entry),
        Err(_) => Err(VerifyFault::NoMemory),
    }
}
