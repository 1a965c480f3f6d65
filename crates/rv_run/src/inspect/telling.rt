//! Prints what was found of an account and of a record, and returns the status that says so.
ghost use Rattle.std.specs.Prelude.{◌≡◌, ◌<◌, ◌≤◌, ◌+◌, ◌∷◌, ◌++◌, ◌↔◌, [], true, IfErr, IfOk, IsTrue};
ghost use Rattle.std.specs.Prelude.{List, OnOk, length, option_map, ℕ};
ghost use Rattle.rv_account.specs.Account.{Account};
ghost use Rattle.rv_replies.specs.Standing.{HasNoted};
ghost use Rattle.rv_run.specs.inspect.Report.{BeginsBehind, BeginsReport, CountsBeside, FindsFirst, IsReport};
ghost use Rattle.rv_run.specs.inspect.Report.{ReportsAll, ReportsBehind, ReportsSome, SaysAll, SaysSome};
ghost use Rattle.rv_run.specs.inspect.Report.{StandsSo, StopsTaking, TookLines};
ghost use Rattle.rv_run.specs.inspect.Statuses.{IsKeptBeside, TellsFound, TellsKept};
ghost use Rattle.rv_run.specs.inspect.Texts.{IsOneText};

use crate::fault::RunFault;
use crate::inspect::lines::{count_lines, record_lines, verdict_lines};
use crate::output::Output;
use rv_audit::Rule;
use rv_frame::Sink;
use rv_replies::findings::{AccountFinding, Finding, are_kept, status_of};
use rv_replies::{Beside, Records};
use rv_text::NoMemory;
use std::alloc::{AllocError, Global};
use std::io::Write;

/// Prints the verdict on an account, with the rule at a closed place if it is known, and whether its end is
/// torn. If there is a record beside it, and the account says an epoch, it then prints what the account says
/// of each line of the record, and how many lines have which finding. Returns the status for that.
///
/// Its only faults are `WriteFault`, after the bytes that the fault counts, and `NoMemory`, after some whole
/// lines or none.
pub fn tell_found<W: Write>(
    alloc: Global,
    found: &AccountFinding,
    rule: Option<Rule>,
    records: Option<&Records>,
    sink: &mut Sink<W>,
) -> Result<u8, RunFault>
    ensures status { IfOk result (TellsFound found.now rule (option_map (λ r. r.now) records.entry)) }

    // The sink took exactly the lines of the report.
    ensures all { OnOk result (TookLines W.contents
        (IsReport found.now rule (option_map (λ r. r.now) records.entry)) sink.old sink.new) }

    // It took exactly a front of them: of so many bytes, or some whole lines.
    ensures part { IfErr result (StopsTaking W.contents
        (IsReport found.now rule (option_map (λ r. r.now) records.entry))
        (BeginsReport found.now rule (option_map (λ r. r.now) records.entry)) sink.old sink.new) }
{
    let first = verdict_lines(alloc, found, rule)?;
    let kept = tell_beside(alloc, first.as_str(), records, found.epoch, sink)?;
    Ok(status_of(found, rule, kept))
}

// Prints the first lines, and what is found of a record, if one stood beside an account that says an epoch.
// Returns whether all of it is kept.
fn tell_beside<W: Write>(
    alloc: Global,
    first: &str,
    records: Option<&Records>,
    epoch: Option<u64>,
    sink: &mut Sink<W>,
) -> Result<bool, RunFault>
    ensures kept { IfOk result (IsKeptBeside (option_map (λ r. r.now) records.entry) epoch) }
    ensures all { (lines : List (List ℕ)) → IsOneText lines first.now → OnOk result (TookLines W.contents
        (ReportsBehind lines (option_map (λ r. r.now) records.entry) epoch) sink.old sink.new) }
    ensures part { (lines : List (List ℕ)) → IsOneText lines first.now → IfErr result
        (StopsTaking W.contents (ReportsBehind lines (option_map (λ r. r.now) records.entry) epoch)
        (BeginsBehind lines (option_map (λ r. r.now) records.entry) epoch) sink.old sink.new) }
{
    match records {
        Some(records) => match epoch {
            Some(epoch) => tell_records(alloc, first, records, epoch, sink),
            None => tell_alone(alloc, first, sink),
        },
        None => tell_alone(alloc, first, sink),
    }
}

// Prints only the first lines. With no record, there is nothing that isn't kept.
fn tell_alone<W: Write>(alloc: Global, first: &str, sink: &mut Sink<W>) -> Result<bool, RunFault>
    ensures kept { IfOk result (λ kept. kept ≡ true) }
    ensures all { (lines : List (List ℕ)) → IsOneText lines first.now → OnOk result
        (TookLines W.contents (λ texts. texts ≡ lines) sink.old sink.new) }
    ensures part { (lines : List (List ℕ)) → IsOneText lines first.now → IfErr result
        (StopsTaking W.contents (λ texts. texts ≡ lines) (λ texts. texts ≡ lines) sink.old sink.new) }
{
    let mut output = Output::new(alloc)?;
    output.line(sink, first.as_bytes())?;
    output.flush(sink)?;
    Ok(true)
}

// Prints the first lines, what the account of this epoch says of each line of a record, and the counts.
// Returns whether all lines are kept. If two lines of one key differ, one of them isn't.
fn tell_records<W: Write>(
    alloc: Global,
    first: &str,
    records: &Records,
    epoch: u64,
    sink: &mut Sink<W>,
) -> Result<bool, RunFault>
    ensures kept { IfOk result (TellsKept records.now epoch) }
    ensures all { (lines : List (List ℕ)) → IsOneText lines first.now → OnOk result
        (TookLines W.contents (ReportsAll lines records.now epoch) sink.old sink.new) }
    ensures part { (lines : List (List ℕ)) → IsOneText lines first.now → IfErr result
        (StopsTaking W.contents (ReportsAll lines records.now epoch) (ReportsSome lines records.now epoch)
        sink.old sink.new) }
{
    let findings = findings_on(alloc, records, epoch)?;
    let differing = count_beside(records, Beside::Differs);
    let repeating = count_beside(records, Beside::Repeats);
    let counts = count_lines(alloc, &findings, differing, repeating)?;
    tell_lines(alloc, first, records, &findings, counts.as_str(), sink)?;
    Ok(are_kept(&findings))
}

// Prints the first lines, those on each line of a record by the findings, and the last ones.
fn tell_lines<W: Write>(
    alloc: Global,
    first: &str,
    records: &Records,
    findings: &[Finding],
    last: &str,
    sink: &mut Sink<W>,
) -> Result<(), RunFault>
    requires { length findings.now ≡ length records.now.lines.items }
    ensures all { (lines counts : List (List ℕ)) → IsOneText lines first.now → IsOneText counts last.now
        → OnOk result (TookLines W.contents (SaysAll lines records.now findings.now counts)
        sink.old sink.new) }
    ensures part { (lines counts : List (List ℕ)) → IsOneText lines first.now → IsOneText counts last.now
        → IfErr result (StopsTaking W.contents (SaysAll lines records.now findings.now counts)
        (SaysSome lines records.now findings.now) sink.old sink.new) }
{
    let mut output = Output::new(alloc)?;
    output.line(sink, first.as_bytes())?;
    for index in 0..findings.len() {
        let Ok(text) = record_lines(alloc, records, index, findings[index]) else {
            output.flush(sink)?;
            return Err(RunFault::NoMemory);
        };
        output.line(sink, text.as_bytes())?;
    }
    output.line(sink, last.as_bytes())?;
    Ok(output.flush(sink)?)
}

// The finding on each line.
fn findings_on(alloc: Global, records: &Records, epoch: u64) -> Result<Vec<Finding>, NoMemory>
    ensures { IfOk result (λ findings.
        FindsFirst records.now epoch (length records.now.lines.items) findings.items) }
{
    let mut findings = Vec::new(alloc);
    for index in 0..records.len() {
        add(&mut findings, records.finding(index, epoch))?;
    }
    Ok(findings)
}

// Adds a finding.
fn add(findings: &mut Vec<Finding>, finding: Finding) -> Result<(), NoMemory>
    ensures { OnOk result (findings.new.items ≡ findings.old.items ++ finding ∷ []) }
{
    match findings.push(finding) {
        Ok(()) => Ok(()),
        Err(refused) => Err(AllocError::from(refused)),
    }
}

// How many lines stand so to the first one of their key.
fn count_beside(records: &Records, how: Beside) -> usize
    ensures { CountsBeside how records.now (length records.now.lines.items) result }
{
    let mut count = 0;
    for index in 0..records.len() {
        count = with_line(records, how, index, count);
    }
    count
}

// So many of the lines before the one with an index, or one more if it too stands so.
fn with_line(records: &Records, how: Beside, index: usize, count: usize) -> usize
    requires inside { index < length records.now.lines.items }
    requires few { count ≤ index }
    ensures few { result ≤ index + 1 }
    ensures counted { CountsBeside how records.now index count
        → CountsBeside how records.now (index + 1) result }
{
    if stands(records, how, index) {
        count + 1
    } else {
        count
    }
}

// Whether the line with an index stands so to the first one of its key.
fn stands(records: &Records, how: Beside, index: usize) -> bool
    requires { index < length records.now.lines.items }
    ensures { (a : Account) → HasNoted records.now a
        → (IsTrue result ↔ StandsSo how records.now.lines.items (index + 1) index) }
{
    match records.beside_first(index) {
        Some(own) => is_alike(own.0, how),
        None => false,
    }
}

// Whether both are the same.
fn is_alike(own: Beside, other: Beside) -> bool
    ensures { IsTrue result ↔ (own ≡ other) }
{
    match own {
        Beside::Differs => matches!(other, Beside::Differs),
        Beside::Repeats => matches!(other, Beside::Repeats),
    }
}
