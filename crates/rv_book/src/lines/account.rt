//! Reads the lines of an account.
ghost use Rattle.std.specs.Prelude.{◌≡◌, ◌≤◌, ◌+◌, ◌++◌, ◌∷◌, [], ℕ, None, Err, IfOk, IfSome, OnOk};
ghost use Rattle.rv_book.specs.lines.Lines.{lines};
ghost use Rattle.rv_text.specs.Number.{WritesPlainly};
ghost use Rattle.rv_book.specs.lines.Reading.{FirstBadLine, ReadsAccount, ReadsEntries, ReadsEntry};
ghost use Rattle.rv_book.specs.lines.Reading.{ReadsHead};
ghost use Rattle.rv_book.specs.lines.Reading.{account_limits};
ghost use Rattle.rv_book.specs.lines.Entries.{IsNoNext, StopsAtLine};
ghost use Rattle.rv_text.specs.Limits.{FitsIdentifier};

use crate::lines::entry::read_entry;
use crate::lines::fault::{AccountFault, LineFault};
use crate::lines::line::{after_text, cut_at, first_line};
use crate::{Account, Entry, MAX_ENTRIES, MAX_MOMENT};
use rv_text::{MAX_IDENTIFIER, NoMemory, read_plain};
use std::alloc::Global;

// The greatest place of a partner.
const MAX_PARTNER: u64 = 99_999;

/// The account that the lines of an input say, legal or not. Lines end with LF, which the last one may lack.
///
/// The first line is `epoch E opened T`. Each other one is the line of an entry, and there are at most
/// 100,000 of them. Numbers have no leading zeros; moments are at most 2^62, and the places of partners
/// 99,999; a message has any body that `decode_message` reads.
pub fn read_account(alloc: Global, input: &[u8]) -> Result<Account, AccountFault>
    ensures account { IfOk result (λ a. ReadsAccount (lines input.now) a.account) }
    ensures bad { (n : ℕ) → result ≡ Err (AccountFault.BadLine n) → FirstBadLine (lines input.now) n }
{
    let Some((head, rest)) = first_line(input) else {
        return Err(AccountFault::BadLine(1));
    };
    let Some((epoch, opened)) = read_head(head) else {
        return Err(AccountFault::BadLine(1));
    };
    let entries = read_entries(alloc, rest)?;
    Ok(Account::from_entries(epoch, opened, entries))
}

/// The epoch and the opening moment that a first line says: `epoch E opened T`.
pub fn read_head(line: &[u8]) -> Option<(u64, u64)>
    ensures some { IfSome result (λ p. ReadsHead line.now p.0 p.1) }
    ensures none { result ≡ None → (epoch opened : ℕ) → ¬ ReadsHead line.now epoch opened }
{
    let fields = after_text(b"epoch ", line)?;
    let (epoch, fields) = cut_at(b' ', fields)?;
    let opened = after_text(b"opened ", fields)?;
    let epoch = read_epoch(epoch)?;
    let opened = read_plain(opened, MAX_MOMENT)?;
    Some((epoch, opened))
}

// The epoch that a field says.
fn read_epoch(field: &[u8]) -> Option<u64>
    ensures some { IfSome result (λ n. WritesPlainly field.now n × FitsIdentifier n) }
    ensures none { result ≡ None → (n : ℕ) → WritesPlainly field.now n → ¬ FitsIdentifier n }
{
    let n = read_plain(field, MAX_IDENTIFIER)?;
    if n == 0 { None } else { Some(n) }
}

// The entries that the lines after the first say.
fn read_entries(alloc: Global, input: &[u8]) -> Result<Vec<Entry>, AccountFault>
    ensures entries { IfOk result (λ entries. ReadsEntries (lines input.now) entries.items) }
    ensures bad { (n : ℕ) → result ≡ Err (AccountFault.BadLine n)
        → StopsAtLine account_limits (lines input.now) n }
{
    let mut entries = Vec::new(alloc);
    let mut rest = input;
    while let Some((line, after)) = first_line(rest) {
        let entry = next_entry(alloc, line, entries.len())?;
        keep(&mut entries, entry)?;
        rest = after;
    }
    Ok(entries)
}

// The entry that a line says after so many others, which come after the head's line.
fn next_entry(alloc: Global, line: &[u8], before: usize) -> Result<Entry, AccountFault>
    requires { before ≤ 100000 }
    ensures entry { IfOk result (ReadsEntry line.now) }
    ensures room { IfOk result (λ _. before + 1 ≤ 100000) }
    ensures bad { (n : ℕ) → result ≡ Err (AccountFault.BadLine n) → IsNoNext account_limits before line.now }
    ensures counted { (n : ℕ) → result ≡ Err (AccountFault.BadLine n) → n ≡ before + 2 }
{
    if before == MAX_ENTRIES {
        return Err(AccountFault::BadLine(before + 2));
    }
    match read_entry(alloc, line, MAX_PARTNER) {
        Ok(entry) => Ok(entry),
        Err(LineFault::Bad) => Err(AccountFault::BadLine(before + 2)),
        Err(LineFault::NoMemory) => Err(AccountFault::NoMemory),
    }
}

// Adds an entry to those that were read.
fn keep(entries: &mut Vec<Entry>, entry: Entry) -> Result<(), NoMemory>
    ensures { OnOk result (entries.new.items ≡ entries.old.items ++ entry ∷ []) }
{
    Ok(entries.push(entry)?)
}
