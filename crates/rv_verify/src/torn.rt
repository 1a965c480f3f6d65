//! Tells a torn piece from a line that is an entry.
ghost use Rattle.std.specs.Prelude.{◌≡◌, Ok, Err, IfErr, IsOk, true, false};
ghost use Rattle.rv_text.specs.Members.{max_identifier};
ghost use Rattle.rv_account.specs.declared.entry.Entry as entries;
ghost use Rattle.rv_book.specs.lines.Reading.{ReadsEntryUpTo};

use rv_account::Entry;
use rv_book::lines::{LineFault, read_entry};
use rv_text::MAX_IDENTIFIER;
use std::alloc::Global;

/// Whether a last piece, which isn't the first line, isn't read as an entry of an account of any length.
/// Fails only if memory was refused.
pub fn is_torn(alloc: Global, piece: &[u8]) -> Result<bool, LineFault>
    ensures yes { result ≡ Ok true → (e : entries.Entry) → ¬ ReadsEntryUpTo max_identifier piece.now e }
    ensures no { result ≡ Ok false → (e : entries.Entry) × ReadsEntryUpTo max_identifier piece.now e }
    ensures memory { IfErr result (λ fault. fault ≡ LineFault.NoMemory) }
{
    let read = read_entry(alloc, piece, MAX_IDENTIFIER);
    tells_torn(&read)
}

// Whether a piece that was read says no entry.
fn tells_torn(read: &Result<Entry, LineFault>) -> Result<bool, LineFault>
    ensures yes { result ≡ Ok true → read.now ≡ Err LineFault.Bad }
    ensures no { result ≡ Ok false → IsOk read.now }
    ensures memory { IfErr result (λ fault. fault ≡ LineFault.NoMemory) }
{
    match read {
        Ok(_) => Ok(false),
        Err(LineFault::Bad) => Ok(true),
        Err(LineFault::NoMemory) => Err(LineFault::NoMemory),
    }
}
