//! Reads bytes line by line.
ghost use Rattle.std.specs.Prelude.{◌≡◌, ◌≢◌, ◌∷◌, ◌++◌, [], ℕ, List, Some, IfOk, true, false};
ghost use Rattle.std.specs.Io.BufRead.{drop_through, take_through};
ghost use Rattle.std.specs.List.{All};
ghost use Rattle.rv_verify.specs.Reading.{HasNextPart, IsNext};

use crate::fault::VerifyFault;
use std::io::BufRead;

/// What a reader has next.
#[derive(Clone, Copy)]
pub(crate) enum NextPart {
    /// A line, which ended by LF.
    Line,
    /// The last bytes, which lack LF.
    Piece,
    /// No bytes.
    End,
}

/// Reads the next line, without its LF.
pub(crate) fn next_line<B: BufRead>(
    reader: &mut B,
    line: &mut Vec<u8>,
) -> Result<NextPart, VerifyFault>
    ensures next { (bytes : List ℕ) → B.remaining reader.old ≡ Some bytes
        → IfOk result (HasNextPart bytes (B.remaining reader.new) line.new.items) }
{
    line.clear();
    more_of_line(reader, line)
}

/// Reads on to the end of the line that begins with these bytes, without its LF.
pub(crate) fn more_of_line<B: BufRead>(
    reader: &mut B,
    line: &mut Vec<u8>,
) -> Result<NextPart, VerifyFault>
    ensures next { (bytes : List ℕ) → B.remaining reader.old ≡ Some bytes
        → All (λ byte. byte ≢ 10) line.old.items → IfOk result
        (HasNextPart (line.old.items ++ bytes) (B.remaining reader.new) line.new.items) }
{
    reader.read_until(b'\n', line)?;
    Ok(part_taken(line))
}

// What bytes are that were taken through the next LF, without it.
fn part_taken(line: &mut Vec<u8>) -> NextPart
    ensures { (begun : List ℕ) (bytes : List ℕ) → All (λ byte. byte ≢ 10) begun
        → line.old.items ≡ begun ++ take_through 10 bytes
        → IsNext (begun ++ bytes) (drop_through 10 bytes) line.new.items result }
{
    if line.is_empty() {
        return NextPart::End;
    }
    if drop_lf(line) {
        NextPart::Line
    } else {
        NextPart::Piece
    }
}

// Drops the LF at the end of bytes, if one stands there.
fn drop_lf(line: &mut Vec<u8>) -> bool
    ensures yes { result ≡ true → line.old.items ≡ line.new.items ++ 10 ∷ [] }
    ensures no { result ≡ false → (front : List ℕ) → line.old.items ≢ front ++ 10 ∷ [] }
    ensures stays { result ≡ false → line.new.items ≡ line.old.items }
{
    let length = line.len();
    if length == 0 || line[length - 1] != b'\n' {
        return false;
    }
    line.truncate(length - 1);
    true
}
