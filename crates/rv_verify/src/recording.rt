//! Reads a record of replies.
ghost use Rattle.std.specs.Prelude.{◌≡◌, [], ℕ, List, Some, IfOk, IfSome, OnOk};
ghost use Rattle.std.specs.List.{AllZip};
ghost use Rattle.rv_book.specs.lines.Lines.{lines};
ghost use Rattle.rv_replies.specs.Standing.{IsRecordLine};
ghost use Rattle.rv_verify.specs.Recording.{IsRecordOf};
ghost use Rattle.rv_verify.specs.Stages.{AreNew};

use crate::fault::VerifyFault;
use crate::parts::{NextPart, next_line};
use rv_replies::Records;
use std::alloc::Global;
use std::io::BufRead;

/// Reads a record from the lines of a reader, to its end. The last line may lack its LF.
pub fn read_records<B: BufRead>(alloc: Global, reader: &mut B) -> Result<Records, VerifyFault>
    ensures record { IfSome (B.remaining reader.old) (λ bytes. IfOk result (IsRecordOf bytes)) }
    ensures are_new { IfOk result AreNew }
{
    let mut records = Records::new(alloc);
    let mut line = Vec::new(alloc);
    take_lines(alloc, reader, &mut line, &mut records)?;
    Ok(records)
}

// Takes each line of a reader, with room for one.
fn take_lines<B: BufRead>(
    alloc: Global,
    reader: &mut B,
    line: &mut Vec<u8>,
    records: &mut Records,
) -> Result<(), VerifyFault>
    ensures taken { (bytes : List ℕ) → B.remaining reader.old ≡ Some bytes → records.old.lines.items ≡ []
        → OnOk result (AllZip IsRecordLine (lines bytes) records.new.lines.items) }
    ensures are_new { AreNew records.old → OnOk result (AreNew records.new) }
{
    for _turn in 0..u64::MAX {
        match next_line(reader, line)? {
            NextPart::Line => records.take(alloc, line)?,
            NextPart::Piece => {
                records.take(alloc, line)?;
                return Ok(());
            }
            NextPart::End => return Ok(()),
        }
    }
    Err(VerifyFault::ReadFault)
}
