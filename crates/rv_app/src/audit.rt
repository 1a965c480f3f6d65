//! Audits the account that the lines of an input say.
ghost use Rattle.std.specs.Prelude.{◌≡◌, Err, IfErr, IfOk};
ghost use Rattle.rv_app.specs.Audits.{Audited, HasLine, StoppedTelling, TellsOf};
ghost use Rattle.rv_run.specs.Input.{FailedReading, FoundTooLong, LackedMemory};

use rv_book::Account;
use rv_book::lines::{AccountFault, read_account};
use rv_frame::{Sink, Source};
use rv_run::{OutputFault, RunFault, read_input};
use rv_text::NoMemory;
use rv_world::{Audit, audit};
use std::alloc::Global;
use std::io::{Read, Write};

/// The verdict of an audit on an input.
#[derive(Clone, Copy)]
pub enum AuditSaid {
    /// Its lines are read as a legal account.
    Legal,
    /// Its lines are read as an account in which a rule is broken.
    Fault,
    /// Its lines aren't those of an account.
    BadLine,
}

/// Reads the account that the source's lines say, audits it, and writes one line and LF to the sink: `legal`;
/// or `fault PLACE RULE` for the first place at which a rule is broken, and the first such rule there; or
/// `bad line N` for the first line that has another form, counted from 1, which goes before any fault. Lines
/// end with LF, which the last one may lack.
///
/// The whole input is read before anything is written. After a read fault, if memory is refused, and if the
/// input is too long, nothing is written.
pub fn audit_run<R: Read, W: Write>(
    alloc: Global,
    source: &mut Source<R>,
    sink: &mut Sink<W>,
) -> Result<AuditSaid, RunFault>
    // The line says what the audit of the whole input finds, and which of the three it is.
    ensures audited { IfOk result
        (Audited R.remaining W.contents source.old source.new sink.old sink.new) }

    // Exactly the first `sent` bytes of such a line went out, and not all.
    ensures stopped_writing { (fault : _) → result ≡ Err (RunFault.WriteFault fault) →
        StoppedTelling R.remaining W.contents source.old source.new sink.old sink.new fault.sent }

    // The other faults write nothing.
    ensures failed_reading { result ≡ Err RunFault.ReadFault →
        FailedReading source.new sink.old sink.new }
    ensures found_too_long { result ≡ Err RunFault.TooLong →
        FoundTooLong R.remaining source.old source.new sink.old sink.new }
    ensures lacked_memory { result ≡ Err RunFault.NoMemory →
        LackedMemory source.new sink.old sink.new }
{
    let input = read_input(alloc, source)?;
    let (said, line) = tell_input(alloc, &input)?;
    match sink.write_all(line.as_bytes()) {
        Ok(()) => Ok(said),
        Err(fault) => Err(RunFault::WriteFault(OutputFault {
            sent: fault.sent as u128,
        })),
    }
}

// What an audit of the input's lines finds, and the line that says so, with its LF.
fn tell_input(alloc: Global, input: &[u8]) -> Result<(AuditSaid, String), RunFault>
    ensures ok { IfOk result (HasLine input.now) }
    ensures fault { IfErr result (λ fault. fault ≡ RunFault.NoMemory) }
{
    match read_account(alloc, input) {
        Ok(account) => tell_account(alloc, &account).map_err(RunFault::from),
        Err(AccountFault::BadLine(number)) => {
            let line = format!(in alloc; "bad line {number}\n")?;
            Ok((AuditSaid::BadLine, line))
        }
        Err(AccountFault::NoMemory) => Err(RunFault::NoMemory),
    }
}

// The same of an account that was read.
fn tell_account(alloc: Global, account: &Account) -> Result<(AuditSaid, String), NoMemory>
    ensures { IfOk result (TellsOf account.now.account) }
{
    match audit(alloc, account)? {
        Audit::Legal => {
            let line = String::from_str(alloc, "legal\n")?;
            Ok((AuditSaid::Legal, line))
        }
        Audit::Fault { place, rule } => {
            let name = rule.name();
            let line = format!(in alloc; "fault {place} {name}\n")?;
            Ok((AuditSaid::Fault, line))
        }
    }
}
