//! The format that the first line of a journal names.
ghost use Rattle.std.specs.Prelude.{◌≡◌, ◌++◌, ℕ, List, None, false, true, IfErr, IfOk, IfSome};
ghost use Rattle.rv_store.specs.Format.{CutsFormat, IsFormatFault, first_text, format};

use crate::reader::RecoveryFault;
use rv_book::lines::{cut_at, head_line};
use rv_text::{NoMemory, read_identifier};
use std::alloc::Global;

/// What a journal begins with.
pub const FORMAT: &[u8] = b"journal 1 ";

/// The version of the format in which a journal's first line is written and read.
pub const VERSION: u64 = 1;

// The digits of a version, and what comes after them, of lines that begin as a journal of any version does.
fn cut_format(lines: &[u8]) -> Option<(&[u8], &[u8])>
    ensures some { IfSome result (λ parts. CutsFormat lines.now parts.0.now parts.1.now) }
    ensures none { result ≡ None → (digits rest : List ℕ) → ¬ CutsFormat lines.now digits rest }
{
    let (word, rest) = cut_at(b' ', lines)?;
    if word == b"journal".as_slice() {
        cut_at(b' ', rest)
    } else {
        None
    }
}

// The lines of an account, of which these are a journal's first ones.
fn account_in(lines: &[u8]) -> Result<&[u8], RecoveryFault>
    ensures account { IfOk result (λ account. lines.now ≡ format ++ account.now) }
    ensures refused { IfErr result (IsFormatFault lines.now) }
{
    let Some((digits, account)) = cut_format(lines) else {
        return Err(RecoveryFault::NoJournal);
    };
    if digits == b"1".as_slice() {
        return Ok(account);
    }
    let Some(version) = read_identifier(digits) else {
        return Err(RecoveryFault::NoJournal);
    };
    if version == VERSION {
        return Err(RecoveryFault::NoJournal);
    }
    Err(RecoveryFault::OtherVersion(version))
}

// The account's lines among these, which are a journal's first ones if it hasn't begun.
pub(crate) fn account_part(begun: bool, lines: &[u8]) -> Result<&[u8], RecoveryFault>
    ensures later { begun ≡ true → IfOk result (λ account. account.now ≡ lines.now) }
    ensures first { begun ≡ false → IfOk result (λ account. lines.now ≡ format ++ account.now) }
    ensures refused { IfErr result (λ why. (begun ≡ false) × IsFormatFault lines.now why) }
{
    if begun { Ok(lines) } else { account_in(lines) }
}

// The first line of the journal of an account, with its LF.
pub(crate) fn first_line_of(alloc: Global, epoch: u64, opened: u64) -> Result<Vec<u8>, NoMemory>
    ensures { IfOk result (λ line. line.items ≡ first_text epoch opened) }
{
    let head = head_line(alloc, epoch, opened)?;
    let mut line = FORMAT.to_vec(alloc)?;
    line.extend_from_slice(head.as_bytes())?;
    line.push(b'\n')?;
    Ok(line)
}
