//! The lines that are printed.
ghost use Rattle.std.specs.Prelude.{◌≡◌, ◌<◌, ◌+◌, ◌∷◌, ◌++◌, IfOk, None, Some, length, option_map};
ghost use Rattle.std.specs.Prelude.{slice_get, string_bytes};
ghost use Rattle.rv_account.specs.Account.{Account};
ghost use Rattle.rv_replies.specs.declared.findings.Told as replies;
ghost use Rattle.rv_replies.specs.Standing.{HasNoted};
ghost use Rattle.rv_replies.specs.declared.records.Line.TheVariants as kinds;
ghost use Rattle.rv_run.specs.inspect.Lines.{SaysFate, beside_text, call_said, count_lines, fault_text};
ghost use Rattle.rv_run.specs.inspect.Lines.{finding_text, instead_said, reply_said, verdict_lines};
ghost use Rattle.rv_run.specs.inspect.Lines.{verdict_text};
ghost use Rattle.rv_run.specs.inspect.Texts.{IsLineText, IsOneText, first_counts, kept_counts, last_counts};
ghost use Rattle.rv_run.specs.inspect.Texts.{next_counts};

use rv_audit::Rule;
use rv_replies::findings::{AccountFinding, AccountVerdict, Fate, Finding, count_of};
use rv_replies::{Beside, Flaw, Line, Records};
use rv_text::{Key, NoMemory, Reply, encode_reply_in, encode_request};
use std::alloc::Global;

/// The lines of a verdict, with LF between them: the verdict, and whether the end is torn.
pub(crate) fn verdict_lines(
    alloc: Global,
    found: &AccountFinding,
    rule: Option<Rule>,
) -> Result<String, NoMemory>
    ensures { IfOk result (λ s.
        IsOneText (verdict_lines found.now.verdict rule found.now.torn) (string_bytes s)) }
{
    let verdict = verdict_line(alloc, &found.verdict, rule)?;
    if found.torn {
        format!(in alloc; "{verdict}\ntorn end")
    } else {
        Ok(verdict)
    }
}

// The line of a verdict. A second reading, if there was one, says which rule is broken at a closed place.
fn verdict_line(
    alloc: Global,
    verdict: &AccountVerdict,
    rule: Option<Rule>,
) -> Result<String, NoMemory>
    ensures { IfOk result (λ s. string_bytes s ≡ verdict_text verdict.now rule) }
{
    match verdict {
        AccountVerdict::Legal => String::from_str(alloc, "legal"),
        AccountVerdict::Fault { place, rule } => fault_line(alloc, *place, rule.name()),
        AccountVerdict::NotOpen { place, .. } => match rule {
            Some(rule) => fault_line(alloc, *place, rule.name()),
            None => fault_line(
                alloc,
                *place,
                "P1, P2 or S1: a file, read twice, tells which",
            ),
        },
        AccountVerdict::BadLine(number) => format!(in alloc; "bad line {number}"),
        AccountVerdict::BeyondLimits(place) => format!(in alloc; "beyond limits {place}"),
    }
}

// The line of a fault.
fn fault_line(alloc: Global, place: usize, rule: &str) -> Result<String, NoMemory>
    ensures { IfOk result (λ s. string_bytes s ≡ fault_text place rule.now) }
{
    format!(in alloc; "fault {place} {rule}")
}

/// How many lines have each finding, how many differ from the first one of their key, and how many repeat
/// it: a line each, with LF between each two.
pub(crate) fn count_lines(
    alloc: Global,
    findings: &[Finding],
    differing: usize,
    repeating: usize,
) -> Result<String, NoMemory>
    ensures { IfOk result (λ s.
        IsOneText (count_lines findings.now differing repeating) (string_bytes s)) }
{
    let kept = kept_counts(alloc, findings)?;
    let first = first_counts(alloc, findings)?;
    let next = next_counts(alloc, findings)?;
    let last = last_counts(alloc, findings, differing, repeating)?;
    format!(in alloc; "{kept}\n{first}\n{next}\n{last}")
}

// How many lines are kept, and how many by a cancel that came before its request.
fn kept_counts(alloc: Global, findings: &[Finding]) -> Result<String, NoMemory>
    ensures { IfOk result (λ s. string_bytes s ≡ kept_counts findings.now) }
{
    let kept = count_of(findings, Finding::Kept);
    let (words, unseen) = (
        Finding::KeptUnseen.words(),
        count_of(findings, Finding::KeptUnseen),
    );
    format!(in alloc; "kept {kept}\n{words} {unseen}")
}

// How many lines say another reply or another call, or name no request of the account.
fn first_counts(alloc: Global, findings: &[Finding]) -> Result<String, NoMemory>
    ensures { IfOk result (λ s. string_bytes s ≡ first_counts findings.now) }
{
    let reply = count_of(findings, Finding::OtherReply);
    let call = count_of(findings, Finding::OtherCall);
    let none = count_of(findings, Finding::NoRequest);
    format!(in alloc; "another reply {reply}\nanother call {call}\nno such request {none}")
}

// The same for lines whose request still waits, which are of another epoch, or which say what can't be.
fn next_counts(alloc: Global, findings: &[Finding]) -> Result<String, NoMemory>
    ensures { IfOk result (λ s. string_bytes s ≡ next_counts findings.now) }
{
    let waiting = count_of(findings, Finding::Waiting);
    let epoch = count_of(findings, Finding::OtherEpoch);
    let (words, never) = (
        Finding::Impossible.words(),
        count_of(findings, Finding::Impossible),
    );
    format!(in alloc; "still waiting {waiting}\nanother epoch {epoch}\n{words} {never}")
}

// The same for lines that are no record, that differ from the first one of their key, or that repeat it.
fn last_counts(
    alloc: Global,
    findings: &[Finding],
    differing: usize,
    repeating: usize,
) -> Result<String, NoMemory>
    ensures { IfOk result (λ s. string_bytes s ≡ last_counts findings.now differing repeating) }
{
    let flawed = count_of(findings, Finding::NoRecord);
    format!(in alloc; "no record {flawed}\ndiffering {differing}\nrepeating {repeating}")
}

/// The lines on a line of a record, with LF between them: the finding, and whether it differs from the first
/// one of its key or repeats it.
pub(crate) fn record_lines(
    alloc: Global,
    records: &Records,
    index: usize,
    finding: Finding,
) -> Result<String, NoMemory>
    requires { index < length records.now.lines.items }
    ensures { IfOk result (λ s. IsLineText records.now index finding (string_bytes s)) }
{
    let line = finding_line(alloc, records, index, finding)?;
    match records.beside_first(index) {
        Some((how, first)) => with_other(alloc, line.as_str(), how, index, first),
        None => Ok(line),
    }
}

// A line, and after it how the line of a record with an index compares to the first one of its key.
fn with_other(
    alloc: Global,
    line: &str,
    how: Beside,
    index: usize,
    first: usize,
) -> Result<String, NoMemory>
    ensures { IfOk result (λ s.
        string_bytes s ≡ line.now ++ 10 ∷ beside_text how (index + 1) (first + 1)) }
{
    let other = beside_line(alloc, how, index, first)?;
    format!(in alloc; "{line}\n{other}")
}

// The line that says how a line of a record compares to the first one of its key.
fn beside_line(alloc: Global, how: Beside, index: usize, first: usize) -> Result<String, NoMemory>
    ensures { IfOk result (λ s. string_bytes s ≡ beside_text how (index + 1) (first + 1)) }
{
    let (number, other) = (index as u128 + 1, first as u128 + 1);
    match how {
        Beside::Differs => format!(in alloc; "{number} differs from line {other}"),
        Beside::Repeats => format!(in alloc; "{number} repeats line {other}"),
    }
}

// The line of the finding on a line of a record, with what the account says in its place.
fn finding_line(
    alloc: Global,
    records: &Records,
    index: usize,
    finding: Finding,
) -> Result<String, NoMemory>
    requires { index < length records.now.lines.items }
    ensures told { (a : Account) (told : replies.Told)
        → slice_get records.now.lines.items index ≡ Some (kinds.Told told) → HasNoted records.now a
        → IfOk result (λ s. SaysFate a told (index + 1) finding (string_bytes s)) }
    ensures flawed { (flaw : Flaw) → slice_get records.now.lines.items index ≡ Some (kinds.Flawed flaw)
        → IfOk result (λ s. string_bytes s ≡ finding_text (index + 1) finding None) }
{
    match records.line(index) {
        Line::Told(told) => match records.fate(index) {
            Some(fate) => fate_line(alloc, index, told.key, fate, finding),
            None => plain_line(alloc, index, finding),
        },
        Line::Flawed(_) => plain_line(alloc, index, finding),
    }
}

// The same by what became of the request with a key.
fn fate_line(
    alloc: Global,
    index: usize,
    key: Key,
    fate: &Fate,
    finding: Finding,
) -> Result<String, NoMemory>
    ensures { IfOk result (λ s.
        string_bytes s ≡ finding_text (index + 1) finding (instead_said finding key fate.now)) }
{
    match said_instead(alloc, key, fate, finding)? {
        Some(body) => body_line(alloc, index, finding, body.as_str()),
        None => plain_line(alloc, index, finding),
    }
}

// The same with a body.
fn body_line(alloc: Global, index: usize, finding: Finding, body: &str) -> Result<String, NoMemory>
    ensures { IfOk result (λ s. string_bytes s ≡ finding_text (index + 1) finding (Some body.now)) }
{
    let (number, words) = (index as u128 + 1, finding.words());
    format!(in alloc; "{number} {words} {body}")
}

// The same with none.
fn plain_line(alloc: Global, index: usize, finding: Finding) -> Result<String, NoMemory>
    ensures { IfOk result (λ s. string_bytes s ≡ finding_text (index + 1) finding None) }
{
    let (number, words) = (index as u128 + 1, finding.words());
    format!(in alloc; "{number} {words}")
}

// The body of the other reply or of the other call.
fn said_instead(
    alloc: Global,
    key: Key,
    fate: &Fate,
    finding: Finding,
) -> Result<Option<String>, NoMemory>
    ensures { IfOk result (λ said. option_map string_bytes said ≡ instead_said finding key fate.now) }
{
    match finding {
        Finding::OtherReply => reply_body(alloc, key, fate),
        Finding::OtherCall => call_body(alloc, key, fate),
        Finding::Kept => Ok(None),
        Finding::KeptUnseen => Ok(None),
        Finding::OtherEpoch => Ok(None),
        Finding::Impossible => Ok(None),
        Finding::Waiting => Ok(None),
        Finding::NoRequest => Ok(None),
        Finding::NoRecord => Ok(None),
    }
}

// The body of the reply that a request has.
fn reply_body(alloc: Global, key: Key, fate: &Fate) -> Result<Option<String>, NoMemory>
    ensures { IfOk result (λ said. option_map string_bytes said ≡ reply_said key fate.now) }
{
    let room = Vec::new(alloc);
    match fate {
        Fate::RepliedTo { reply, .. } => Ok(Some(encode_reply_in(room, &key, reply)?)),
        Fate::CancelledUnseen => Ok(Some(encode_reply_in(room, &key, &Reply::Cancelled)?)),
        Fate::Unnamed => Ok(None),
        Fate::Waits { .. } => Ok(None),
    }
}

// The body of a request as it came.
fn call_body(alloc: Global, key: Key, fate: &Fate) -> Result<Option<String>, NoMemory>
    ensures { IfOk result (λ said. option_map string_bytes said ≡ call_said key fate.now) }
{
    let call = match fate {
        Fate::Waits { call } => call,
        Fate::RepliedTo { call, .. } => call,
        Fate::Unnamed => return Ok(None),
        Fate::CancelledUnseen => return Ok(None),
    };
    Ok(Some(encode_request(alloc, &key, call)?))
}
