//! Reads the words of a shell's commands, such as `rv take 3`, each of which makes one call.
ghost use Rattle.std.specs.Prelude.{◌≡◌, [], ◌∷◌, IfErr, IfOk, IfSome, List, None, ℕ};
ghost use Rattle.clap.specs.Words.{Text, fault_of, found_of, matches_of, rows_of};
ghost use Rattle.clap.specs.Walk.{texts};
ghost use Rattle.rv_json.specs.Limits.{FitsItem};
ghost use Rattle.rv_text.specs.Limits.{FitsCall, FitsWait};
ghost use Rattle.rv_words.specs.Beginning.{BeginWithout};
ghost use Rattle.rv_words.specs.command.Command.{GivesBetween};
ghost use Rattle.rv_words.specs.shell.Calls.{GivesItem, GivesPlace, IsWait, NamesCall, PutsLines};
ghost use Rattle.rv_words.specs.shell.Calls.{SaysShell, SaysShellCall, swap_wait, value_row};
ghost use Rattle.rv_words.specs.shell.Faults.{HasShellFault, IsFaultIn, IsShellFault};
ghost use Rattle.rv_words.specs.declared.shell.fault.ShellFault.TheVariants.{Outside};
ghost use Rattle.rv_words.specs.declared.shell.value.ShellValue.TheVariants as value;
ghost use Rattle.rv_words.specs.shell.Words.{NeedsValue, shell_app, shell_word};

mod fault;
mod value;
mod word;

use crate::duration::read_duration;
use crate::listed::listed_command;
use crate::reading::{is_given, text_of};
use clap::ArgMatches;
pub use fault::ShellFault;
use rv_text::{Call, Item, Wait, read_between};
use std::alloc::Global;
pub use value::ShellValue;
pub use word::ShellWord;

/// What the words of a shell's command say.
#[derive(Drop)]
pub struct ShellCall<'a> {
    /// The command.
    pub word: ShellWord,
    /// The call that it makes; of a bench, the one that it makes first.
    pub call: Call,
    /// The address of the server, as it was written, if it is named.
    pub connect: Option<&'a str>,
    /// Whether each item is ended by a zero byte.
    pub null: bool,
    /// Whether the reply's body is printed.
    pub json: bool,
}

impl ShellCall<'_> {
    /// The queue into which each line of standard input is put, where that is what it does: the item of its
    /// put is one dash.
    pub fn puts_lines(&self) -> Option<u64>
        ensures some { IfSome result (PutsLines self.now) }
        ensures none { result ≡ None → (queue : ℕ) → ¬ PutsLines self.now queue }
    {
        match &self.call {
            Call::Put { queue, item } if item.as_str() == "-" => Some(*queue),
            _ => None,
        }
    }
}

/// The call that the words name, the program's name first, as `clap` reads them; `None` if the word after
/// that is none of these commands. A queue or exchanger is 0 to 63, an item at most 512 bytes, a wait a span
/// as [`read_duration`](crate::read_duration) reads it: without one the call waits until it is met, with one
/// of 0 not at all.
pub fn read_shell<'a>(
    alloc: Global,
    words: &'a [&'a str],
) -> Result<Option<ShellCall<'a>>, ShellFault<'a>>
    ensures named { IfOk result (λ found. IfSome found (NamesCall (texts words.entry.now))) }
    ensures fits { IfOk result (λ found. IfSome found (λ c. FitsCall c.call)) }
    ensures other { IfOk result (λ found. found ≡ None → (word : ShellWord)
        → BeginWithout (shell_word word) (texts words.entry.now)) }
    ensures fault { IfErr result (HasShellFault (texts words.entry.now)) }
{
    match own_words(words) {
        Some((word, own)) => Ok(Some(said(alloc, word, own)?)),
        None => Ok(None),
    }
}

// The command that the word after the program's name is, and the words from there on.
fn own_words<'a>(words: &'a [&'a str]) -> Option<(ShellWord, &'a [&'a str])>
    ensures some { IfSome result (λ p. (name : Text) × (rest : List Text)
        × (texts words.entry.now ≡ name ∷ shell_word p.0 ∷ rest) × (texts p.1.now ≡ shell_word p.0 ∷ rest)) }
    ensures none { result ≡ None → (word : ShellWord)
        → BeginWithout (shell_word word) (texts words.entry.now) }
{
    if words.len() < 2 {
        return None;
    }
    let word = ShellWord::of_text(words[1])?;
    Some((word, &words[1..]))
}

// What the words from the command on say.
fn said<'a>(
    alloc: Global,
    word: ShellWord,
    own: &'a [&'a str],
) -> Result<ShellCall<'a>, ShellFault<'a>>
    ensures taken { IfOk result (λ _. fault_of (shell_app word) (texts own.entry.now) ≡ []) }
    ensures says { IfOk result (SaysShell word (matches_of (shell_app word) (texts own.entry.now))) }
    ensures fits { IfOk result (λ c. FitsCall c.call) }
    ensures fault { IfErr result (IsShellFault word (texts own.entry.now)) }
{
    let matches = matches_in(alloc, word, own)?;
    said_by(alloc, word, &matches)
}

// The words as clap reads them.
fn matches_in<'a>(
    alloc: Global,
    word: ShellWord,
    own: &'a [&'a str],
) -> Result<ArgMatches<'a>, ShellFault<'a>>
    ensures taken { IfOk result (λ _. fault_of (shell_app word) (texts own.entry.now) ≡ []) }
    ensures found { IfOk result (λ m.
        rows_of (found_of m) ≡ matches_of (shell_app word) (texts own.entry.now)) }
    ensures fault { IfErr result (IsShellFault word (texts own.entry.now)) }
{
    let command = listed_command(alloc, word.listed())?.bin_name(word.called())?;
    Ok(command.try_get_matches_from(own)?)
}

// What the rows of this command say.
fn said_by<'a>(
    alloc: Global,
    word: ShellWord,
    given: &ArgMatches<'a>,
) -> Result<ShellCall<'a>, ShellFault<'a>>
    ensures ok { IfOk result (SaysShell word (rows_of (found_of given.now))) }
    ensures fits { IfOk result (λ c. FitsCall c.call) }
    ensures fault { IfErr result (IsFaultIn word (rows_of (found_of given.now))) }
{
    let null = is_given(given, "null");
    let json = is_given(given, "json");
    if null && json {
        return Err(ShellFault::TwoForms);
    }
    Ok(ShellCall {
        word,
        call: call_of(alloc, word, given)?,
        connect: text_of(given, "connect"),
        null,
        json,
    })
}

// The call that they say.
fn call_of<'a>(
    alloc: Global,
    word: ShellWord,
    given: &ArgMatches<'a>,
) -> Result<Call, ShellFault<'a>>
    ensures ok { IfOk result (SaysShellCall (rows_of (found_of given.now)) word) }
    ensures fits { IfOk result FitsCall }
    ensures fault { IfErr result (IsFaultIn word (rows_of (found_of given.now))) }
{
    let place = place_of(word, given)?;
    match word {
        ShellWord::Put => Ok(Call::Put {
            queue: place,
            item: item_of(alloc, word, given)?,
        }),
        ShellWord::Take => Ok(Call::Take {
            queue: place,
            wait: wait_of(word, given)?,
        }),
        ShellWord::Transfer => Ok(Call::Transfer {
            queue: place,
            item: item_of(alloc, word, given)?,
            wait: wait_of(word, given)?,
        }),
        ShellWord::Drain => Ok(Call::Drain {
            queue: place,
            max: max_of(word, given)?,
        }),
        ShellWord::Count | ShellWord::Bench => Ok(Call::Count { queue: place }),
        ShellWord::Peek => Ok(Call::Peek { queue: place }),
        ShellWord::Swap => Ok(Call::Swap {
            exchanger: place,
            item: item_of(alloc, word, given)?,
            wait: swap_wait(wait_of(word, given)?),
        }),
    }
}

// The queue or exchanger that is given.
fn place_of<'a>(word: ShellWord, given: &ArgMatches<'a>) -> Result<u64, ShellFault<'a>>
    ensures ok { IfOk result (GivesPlace (rows_of (found_of given.now)) word) }
    ensures fault { IfErr result (IsFaultIn word (rows_of (found_of given.now))) }
{
    let value = word.place();
    let Some(text) = text_of(given, value.word()) else {
        return Err(ShellFault::Missing(value));
    };
    match read_between(text.as_bytes(), 0, 63) {
        Some(place) => Ok(place),
        None => Err(outside(value, text)),
    }
}

// How many items are taken at most.
fn max_of<'a>(word: ShellWord, given: &ArgMatches<'a>) -> Result<u64, ShellFault<'a>>
    requires { NeedsValue word value.Max }
    ensures ok { IfOk result (GivesBetween 1 16 (value_row value.Max (rows_of (found_of given.now)))) }
    ensures fault { IfErr result (IsFaultIn word (rows_of (found_of given.now))) }
{
    let Some(text) = text_of(given, ShellValue::Max.word()) else {
        return Err(ShellFault::Missing(ShellValue::Max));
    };
    match read_between(text.as_bytes(), 1, 16) {
        Some(max) => Ok(max),
        None => Err(outside(ShellValue::Max, text)),
    }
}

// The item that is given.
fn item_of<'a>(
    alloc: Global,
    word: ShellWord,
    given: &ArgMatches<'a>,
) -> Result<Item, ShellFault<'a>>
    requires { NeedsValue word value.Item }
    ensures ok { IfOk result (GivesItem (rows_of (found_of given.now))) }
    ensures fits { IfOk result FitsItem }
    ensures fault { IfErr result (IsFaultIn word (rows_of (found_of given.now))) }
{
    let Some(text) = text_of(given, ShellValue::Item.word()) else {
        return Err(ShellFault::Missing(ShellValue::Item));
    };
    let item = Item::from_text(String::from_str(alloc, text)?);
    if item.fits() {
        Ok(item)
    } else {
        Err(outside(ShellValue::Item, text))
    }
}

// The wait that is given.
fn wait_of<'a>(word: ShellWord, given: &ArgMatches<'a>) -> Result<Wait, ShellFault<'a>>
    ensures ok { IfOk result (IsWait (value_row value.Wait (rows_of (found_of given.now)))) }
    ensures fits { IfOk result FitsWait }
    ensures fault { IfErr result (IsFaultIn word (rows_of (found_of given.now))) }
{
    let Some(text) = text_of(given, ShellValue::Wait.word()) else {
        return Ok(Wait::Forever);
    };
    match read_duration(text) {
        Some(0) => Ok(Wait::Now),
        Some(millis) => Ok(Wait::Millis(millis)),
        None => Err(outside(ShellValue::Wait, text)),
    }
}

// The same of a swap.
fn swap_wait(wait: Wait) -> Wait
    ensures { result ≡ swap_wait wait }
{
    match wait {
        Wait::Now => Wait::Millis(0),
        _ => wait,
    }
}

// A value that isn't within its limits.
fn outside<'a>(value: ShellValue, given: &'a str) -> ShellFault<'a>
    ensures { result ≡ Outside value given.entry }
{
    ShellFault::Outside { value, given }
}
