//! Verifies the account in a file, a store's folder or standard input, and a record of replies beside it. Of
//! the account, only what is open and the clients are in memory.
ghost use Rattle.std.specs.Prelude.{◌≡◌, ℕ, IfErr, IfOk, IfSome, List, Some, false, option_map};
ghost use Rattle.std.specs.Io.Buffered.{reader_remaining};
ghost use Rattle.rv_app.specs.Verifying.{IsFoundIn, IsReread, Reports, StopsReporting, beside};
ghost use Rattle.rv_book.specs.lines.Lines.{lines};
ghost use Rattle.rv_verify.specs.Naming.{BeginAlike, IsRuleAt};
ghost use Rattle.rv_verify.specs.Recording.{IsRecordOf};
ghost use Rattle.rv_verify.specs.Stages.{AreNew};
ghost use Rattle.rv_verify.specs.Verdicts.{TellsNotOpen};

use crate::again::{Again, RegularFile, is_folder, size_of};
use crate::checkpoints::checkpoints_hold;
use crate::fault::{NoAccount, ProgramFault};
use crate::growing::follow;
use crate::journal::{FileKind, JournalFile, JournalText, kind_of};
use crate::watch::{Watch, Watched};
use rv_account::{Entry, Place};
use rv_audit::Rule;
use rv_frame::Sink;
use rv_journal::folders::present_account;
use rv_replies::Records;
use rv_replies::findings::{AccountFinding, AccountVerdict};
use rv_run::RunFault;
use rv_run::inspect::tell_found;
use rv_verify::{VerifyFault, read_records, rule_at, verify, verify_whole};
use rv_words::{STANDARD_INPUT, VerifyWords};
use std::alloc::Global;
use std::fmt::Display;
use std::fs::File;
use std::io::{BufRead, BufReader, Read, Write};
use std::process::ExitCode;
use std::sync::Wait;
use std::time;

// The status if a file can't be opened, or has no account in a form that is read, or a checkpoint isn't what
// its account gives.
const UNREAD: u8 = 1;

/// `rv verify`: verifies the account in a file, in a store's folder or on standard input, and prints what it
/// finds, and what the account says of each line of a record, if one is named.
pub(crate) fn run_verify<T: Wait + time::Clock>(
    rt: &HostRuntime,
    waits: &T,
    words: &VerifyWords<'_>,
) -> Result<ExitCode, ProgramFault> {
    let Some(path) = words.replies else {
        let mut records = Records::new(rt.alloc());
        return verify_beside(rt, waits, words, &mut records);
    };
    match File::open(rt, path) {
        Ok(file) => {
            let mut records = records_in(rt, size_of(&file), file)?;
            verify_beside(rt, waits, words, &mut records)
        }
        Err(error) => {
            unread(rt, "record", path, &error);
            Ok(ExitCode::from(UNREAD))
        }
    }
}

// The same beside a record, which has noted no entry yet.
fn verify_beside<T: Wait + time::Clock>(
    rt: &HostRuntime,
    waits: &T,
    words: &VerifyWords<'_>,
    records: &mut Records,
) -> Result<ExitCode, ProgramFault>
    requires { AreNew records.old }
    ensures { records.new.lines ≡ records.old.lines }
{
    if words.file == STANDARD_INPUT {
        let about = About::<RegularFile<'_>> {
            size: 0,
            is_journal: false,
            again: None,
        };
        let mut sink = Sink::new(rt.stdout());
        let status = verify_bytes(rt, waits, words, &about, rt.stdin(), records, &mut sink)?;
        return Ok(ExitCode::from(status));
    }
    match File::open(rt, words.file) {
        Ok(file) if is_folder(&file) => verify_store(rt, waits, words, records),
        Ok(file) => verify_file(rt, waits, words, file, records),
        Err(error) => Ok(not_verified(rt, words.file, &error)),
    }
}

// The same of a store's folder: of the file of its present account, and unless that is followed of its
// checkpoints. It takes no lock, so a server may write.
fn verify_store<T: Wait + time::Clock>(
    rt: &HostRuntime,
    waits: &T,
    words: &VerifyWords<'_>,
    records: &mut Records,
) -> Result<ExitCode, ProgramFault>
    requires { AreNew records.old }
    ensures { records.new.lines ≡ records.old.lines }
{
    match present_account(rt, words.file) {
        Ok(Some(path)) => {
            let status = verify_present(rt, waits, words, &path, records)?;
            if words.follow || checkpoints_hold(rt, words.file, &path)? {
                Ok(status)
            } else {
                Ok(ExitCode::from(UNREAD))
            }
        }
        Ok(None) => Ok(not_verified(rt, words.file, &NoAccount::NoEpoch)),
        Err(error) => Ok(not_verified(rt, words.file, &error)),
    }
}

// The same of the file at this path in place of what the words name.
fn verify_present<T: Wait + time::Clock>(
    rt: &HostRuntime,
    waits: &T,
    words: &VerifyWords<'_>,
    path: &str,
    records: &mut Records,
) -> Result<ExitCode, ProgramFault>
    requires { AreNew records.old }
    ensures { records.new.lines ≡ records.old.lines }
{
    let words = VerifyWords {
        file: path,
        replies: words.replies,
        follow: words.follow,
    };
    match File::open(rt, path) {
        Ok(file) => verify_file(rt, waits, &words, file, records),
        Err(error) => Ok(not_verified(rt, path, &error)),
    }
}

// The same of this file, which the words name.
fn verify_file<T: Wait + time::Clock>(
    rt: &HostRuntime,
    waits: &T,
    words: &VerifyWords<'_>,
    file: File,
    records: &mut Records,
) -> Result<ExitCode, ProgramFault>
    requires { AreNew records.old }
    ensures { records.new.lines ≡ records.old.lines }
{
    match kind_of(&file) {
        FileKind::OtherVersion(version) => {
            let fault = NoAccount::OtherVersion(version);
            Ok(not_verified(rt, words.file, &fault))
        }
        FileKind::NoLine if !words.follow => {
            Ok(not_verified(rt, words.file, &NoAccount::NoLine))
        }
        FileKind::Journal | FileKind::NoLine => verify_journal(rt, waits, words, file, records),
        FileKind::Other => verify_other(rt, waits, words, file, records),
    }
}

// The same of a journal.
fn verify_journal<T: Wait + time::Clock>(
    rt: &HostRuntime,
    waits: &T,
    words: &VerifyWords<'_>,
    file: File,
    records: &mut Records,
) -> Result<ExitCode, ProgramFault>
    requires { AreNew records.old }
    ensures { records.new.lines ≡ records.old.lines }
{
    let about = About {
        size: size_of(&file),
        is_journal: true,
        again: Some(JournalFile::at(words.file)),
    };
    let mut sink = Sink::new(rt.stdout());
    let text = JournalText::new(file);
    let status = verify_bytes(rt, waits, words, &about, text, records, &mut sink)?;
    Ok(ExitCode::from(status))
}

// The same of another file.
fn verify_other<T: Wait + time::Clock>(
    rt: &HostRuntime,
    waits: &T,
    words: &VerifyWords<'_>,
    file: File,
    records: &mut Records,
) -> Result<ExitCode, ProgramFault>
    requires { AreNew records.old }
    ensures { records.new.lines ≡ records.old.lines }
{
    let about = About {
        size: size_of(&file),
        is_journal: false,
        again: RegularFile::at(words.file, &file),
    };
    let mut sink = Sink::new(rt.stdout());
    let status = verify_bytes(rt, waits, words, &about, file, records, &mut sink)?;
    Ok(ExitCode::from(status))
}

// What is known of an input.
#[derive(Drop)]
struct About<A> {
    // How many bytes it has, or 0 if that isn't known.
    size: u64,
    // Whether a line counts with its LF alone.
    is_journal: bool,
    // From where its bytes may be read once more, if they may be.
    again: Option<A>,
}

// Prints what is found of the bytes of an input, and of the record if one is named, and returns the status.
fn verify_bytes<T: Wait + time::Clock, F: Read + Drop, A: Again + Drop, W: Write>(
    rt: &HostRuntime,
    waits: &T,
    words: &VerifyWords<'_>,
    about: &About<A>,
    input: F,
    records: &mut Records,
    sink: &mut Sink<W>,
) -> Result<u8, RunFault>
    requires { AreNew records.old }
    ensures lines { records.new.lines ≡ records.old.lines }

    // What went out is the report on the bytes and the record; or none did, since they can't be read again.
    ensures told { IfSome (F.remaining input) (λ bytes. IfOk result (Reports W.contents
        (IsFoundIn words.now.follow about.now.is_journal bytes records.new)
        (option_map A.bytes about.now.again) (beside words.now.replies records.new) sink.old sink.new)) }
    ensures stopped { IfSome (F.remaining input) (λ bytes. IfErr result (StopsReporting W.contents
        (IsFoundIn words.now.follow about.now.is_journal bytes records.new)
        (option_map A.bytes about.now.again) (beside words.now.replies records.new) sink.old sink.new)) }
{
    let found = found_by(rt, waits, words.follow, about, input, records)?;
    tell_file(rt, words, about, &found, records, sink)
}

// What is found of an input's bytes: of all, or of those of a growing file.
fn found_by<T: Wait + time::Clock, F: Read + Drop, A>(
    rt: &HostRuntime,
    waits: &T,
    grows: bool,
    about: &About<A>,
    input: F,
    records: &mut Records,
) -> Result<AccountFinding, RunFault>
    requires { AreNew records.old }
    ensures found { IfSome (F.remaining input) (λ bytes. IfOk result
        (IsFoundIn grows about.now.is_journal bytes records.new)) }
    ensures lines { records.new.lines ≡ records.old.lines }
{
    if grows {
        follow(rt, waits, input, records)
    } else {
        found_in(rt, about.size, about.is_journal, input, records)
    }
}

// Prints what was found of an input, or nothing if it can't be read once more, as standard error says.
fn tell_file<A: Again + Drop, W: Write>(
    rt: &HostRuntime,
    words: &VerifyWords<'_>,
    about: &About<A>,
    found: &AccountFinding,
    records: &Records,
    sink: &mut Sink<W>,
) -> Result<u8, RunFault>
    ensures told { IfOk result (Reports W.contents (λ other. other ≡ found.now)
        (option_map A.bytes about.now.again) (beside words.now.replies records.now) sink.old sink.new) }
    ensures stopped { IfErr result (StopsReporting W.contents (λ other. other ≡ found.now)
        (option_map A.bytes about.now.again) (beside words.now.replies records.now) sink.old sink.new) }
{
    let beside = record_named(words, records);
    match rule_again(rt, words.file, &about.again, found)? {
        Reread::Told(rule) => tell_found(rt.alloc(), found, rule, beside, sink),
        Reread::Unopened => Ok(UNREAD),
    }
}

/// What a second reading of an input finds, if one is needed.
#[derive(Clone, Copy)]
enum Reread {
    /// The rule at a closed place: none if no place is closed, or if nothing may be read once more.
    Told(Option<Rule>),
    /// The bytes can't be opened once more.
    Unopened,
}

// The rule at a closed place, if it is known: there the bytes are read once more, if they may be.
fn rule_again<A: Again>(
    rt: &HostRuntime,
    path: &str,
    again: &Option<A>,
    found: &AccountFinding,
) -> Result<Reread, RunFault>
    ensures { IfOk result (IsReread found.now.verdict (option_map A.bytes again.now)) }
{
    let AccountVerdict::NotOpen { place, entry } = &found.verdict else {
        return Ok(Reread::Told(None));
    };
    match again {
        None => Ok(Reread::Told(None)),
        Some(again) => read_once_more(rt, path, again, *place, entry),
    }
}

// The rule that the entry at a place breaks, where it names a closed place. Reads the bytes once more.
fn read_once_more<A: Again>(
    rt: &HostRuntime,
    path: &str,
    again: &A,
    place: Place,
    entry: &Entry,
) -> Result<Reread, RunFault>
    ensures { IfOk result (IsReread (AccountVerdict.NotOpen place entry.now) (Some (A.bytes again.now))) }
{
    match again.open(rt) {
        Ok(input) => {
            let size = again.size(&input);
            let rule = rule_in(rt, place, entry, size, input)?;
            Ok(Reread::Told(rule))
        }
        Err(error) => {
            unread(rt, "account", path, &error);
            Ok(Reread::Unopened)
        }
    }
}

// The record, if the words name one.
fn record_named<'a>(words: &VerifyWords<'_>, records: &'a Records) -> Option<&'a Records>
    ensures { option_map (λ r. r.now) result ≡ beside words.now.replies records.now }
{
    words.replies.map(|_| records)
}

// The record that a reader's lines are. It has `size` bytes, or 0 if their number isn't known.
fn records_in<F: Read + Drop>(rt: &HostRuntime, size: u64, input: F) -> Result<Records, RunFault>
    ensures record { IfSome (F.remaining input) (λ bytes. IfOk result (IsRecordOf bytes)) }
    ensures are_new { IfOk result AreNew }
{
    let mut watch = Watch::new(rt, size);
    let records = records_watched(rt, &mut watch, input);
    watch.erase();
    records
}

// The same, watched.
fn records_watched<F: Read + Drop>(
    rt: &HostRuntime,
    watch: &mut Watch<'_>,
    input: F,
) -> Result<Records, RunFault>
    ensures record { IfSome (F.remaining input) (λ bytes. IfOk result (IsRecordOf bytes)) }
    ensures are_new { IfOk result AreNew }
{
    let mut reader = buffered(rt.alloc(), Watched::new(watch, input))?;
    match read_records(rt.alloc(), &mut reader) {
        Ok(records) => Ok(records),
        Err(fault) => Err(run_fault(fault)),
    }
}

// What the account is whose bytes a reader has, a journal's or another's: `size` bytes, or 0 if their number
// isn't known.
fn found_in<F: Read + Drop>(
    rt: &HostRuntime,
    size: u64,
    is_journal: bool,
    input: F,
    records: &mut Records,
) -> Result<AccountFinding, RunFault>
    requires { AreNew records.old }
    ensures found { IfSome (F.remaining input) (λ bytes. IfOk result
        (IsFoundIn false is_journal bytes records.new)) }
    ensures lines { records.new.lines ≡ records.old.lines }
{
    let mut watch = Watch::new(rt, size);
    let found = found_watched(rt, &mut watch, is_journal, input, records);
    watch.erase();
    found
}

// The same, watched.
fn found_watched<F: Read + Drop>(
    rt: &HostRuntime,
    watch: &mut Watch<'_>,
    is_journal: bool,
    input: F,
    records: &mut Records,
) -> Result<AccountFinding, RunFault>
    requires { AreNew records.old }
    ensures found { IfSome (F.remaining input) (λ bytes. IfOk result
        (IsFoundIn false is_journal bytes records.new)) }
    ensures lines { records.new.lines ≡ records.old.lines }
{
    let mut reader = buffered(rt.alloc(), Watched::new(watch, input))?;
    match found_of(rt.alloc(), is_journal, &mut reader, records) {
        Ok(found) => Ok(found),
        Err(fault) => Err(run_fault(fault)),
    }
}

// The same of a reader's bytes.
fn found_of<B: BufRead>(
    alloc: Global,
    is_journal: bool,
    reader: &mut B,
    records: &mut Records,
) -> Result<AccountFinding, VerifyFault>
    requires { AreNew records.old }
    ensures found { IfSome (B.remaining reader.old) (λ bytes. IfOk result
        (IsFoundIn false is_journal bytes records.new)) }
    ensures lines { records.new.lines ≡ records.old.lines }
{
    if is_journal {
        verify_whole(alloc, reader, records)
    } else {
        verify(alloc, reader, records)
    }
}

// The rule that the entry at a place breaks, which names a closed place, by a reader with the same account's
// bytes: so many, or 0 if nobody knows how many.
fn rule_in<F: Read + Drop>(
    rt: &HostRuntime,
    place: Place,
    entry: &Entry,
    size: u64,
    input: F,
) -> Result<Option<Rule>, RunFault>
    ensures { (all : List (List ℕ)) (bytes : List ℕ) → F.remaining input ≡ Some bytes
        → TellsNotOpen all place entry.now → BeginAlike all (lines bytes) place
        → IfOk result (IsRuleAt all place) }
{
    let mut watch = Watch::new(rt, size);
    let rule = rule_watched(rt, &mut watch, place, entry, input);
    watch.erase();
    rule
}

// The same, watched.
fn rule_watched<F: Read + Drop>(
    rt: &HostRuntime,
    watch: &mut Watch<'_>,
    place: Place,
    entry: &Entry,
    input: F,
) -> Result<Option<Rule>, RunFault>
    ensures { (all : List (List ℕ)) (bytes : List ℕ) → F.remaining input ≡ Some bytes
        → TellsNotOpen all place entry.now → BeginAlike all (lines bytes) place
        → IfOk result (IsRuleAt all place) }
{
    let mut reader = buffered(rt.alloc(), Watched::new(watch, input))?;
    match rule_at(rt.alloc(), &mut reader, place, entry) {
        Ok(rule) => Ok(rule),
        Err(fault) => Err(run_fault(fault)),
    }
}

/// A reader with a buffer: its bytes are those of the reader.
pub(crate) fn buffered<F: Read + Drop>(alloc: Global, input: F) -> Result<BufReader<F>, RunFault>
    ensures { IfOk result (λ reader. reader_remaining F.remaining reader ≡ F.remaining input) }
{
    match BufReader::new(alloc, input) {
        Ok(reader) => Ok(reader),
        Err(_) => Err(RunFault::NoMemory),
    }
}

/// Why an account was not read to its end.
pub(crate) fn run_fault(fault: VerifyFault) -> RunFault {
    match fault {
        VerifyFault::ReadFault => RunFault::ReadFault,
        VerifyFault::NoMemory => RunFault::NoMemory,
    }
}

// Says why the account at a path isn't verified, and returns the status.
fn not_verified<E: Display>(rt: &HostRuntime, path: &str, why: &E) -> ExitCode {
    unread(rt, "account", path, why);
    ExitCode::from(UNREAD)
}

/// Says which file isn't read, and why.
pub(crate) fn unread<E: Display>(rt: &HostRuntime, what: &str, path: &str, why: &E) {
    let _ = eprintln!(rt; "{what} {path}: {why}");
}
