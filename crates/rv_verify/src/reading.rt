//! Reads an account to its end, and says what was found of it.
ghost use Rattle.std.specs.Prelude.{◌≡◌, Ok, IfOk, IfSome, true, false};
ghost use Rattle.rv_account.specs.declared.entry.Entry as entries;
ghost use Rattle.rv_verify.specs.Ends.{IsToldOfBytes};
ghost use Rattle.rv_verify.specs.Noting.{IsNotedOfBytes};
ghost use Rattle.rv_verify.specs.Ongoing.{IsFoundOfWholeLines};
ghost use Rattle.rv_verify.specs.Stages.{AreNew};
ghost use Rattle.rv_verify.specs.Verdicts.{ReadsLongEntry};

use crate::fault::VerifyFault;
use crate::ongoing::{OngoingAudit, Until};
use rv_replies::Records;
use rv_replies::findings::AccountFinding;
use std::alloc::Global;
use std::io::BufRead;

/// Reads an account to its end, says what was found of it, and hands each entry that passed to the records,
/// which have noted none yet. A bad line is reported wherever it is; if there is none, the first fault of the
/// account is, if its state has room up to there.
///
/// It keeps what is open, the clients, and one line at a time.
pub fn verify<B: BufRead>(
    alloc: Global,
    reader: &mut B,
    records: &mut Records,
) -> Result<AccountFinding, VerifyFault>
    requires { AreNew records.old }
    ensures told { IfSome (B.remaining reader.old) (λ bytes. IfOk result (IsToldOfBytes bytes)) }
    ensures noted { IfSome (B.remaining reader.old) (λ bytes. IfOk result
        (λ found. IsNotedOfBytes bytes found records.new)) }
    ensures lines { records.new.lines ≡ records.old.lines }
{
    let mut audit = OngoingAudit::new(alloc);
    audit.read_to_end(alloc, reader, records)
}

/// The same of an account in which a line counts with its LF alone, as in a journal: any bytes after the last
/// LF are a torn end, whatever they say.
pub fn verify_whole<B: BufRead>(
    alloc: Global,
    reader: &mut B,
    records: &mut Records,
) -> Result<AccountFinding, VerifyFault>
    requires { AreNew records.old }
    ensures found { IfSome (B.remaining reader.old) (λ bytes. IfOk result
        (IsFoundOfWholeLines bytes records.new)) }
    ensures lines { records.new.lines ≡ records.old.lines }
{
    let mut audit = OngoingAudit::new(alloc);
    audit.read_until(alloc, reader, records, Until::End)?;
    Ok(audit.break_off())
}

/// Whether a last piece, which isn't the first line, isn't read as an entry.
pub(crate) fn is_torn(alloc: Global, piece: &[u8]) -> Result<bool, VerifyFault>
    ensures yes { result ≡ Ok true → (e : entries.Entry) → ¬ ReadsLongEntry piece.now e }
    ensures no { result ≡ Ok false → (e : entries.Entry) × ReadsLongEntry piece.now e }
{
    match crate::torn::is_torn(alloc, piece) {
        Ok(torn) => Ok(torn),
        Err(_) => Err(VerifyFault::NoMemory),
    }
}
