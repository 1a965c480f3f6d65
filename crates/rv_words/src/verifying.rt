//! Reads the words of `rv verify`.
ghost use Rattle.std.specs.Prelude.{◌≡◌, ◌∷◌, ◌↔◌, [], codes, false, IfOk, IfSome, IsErrOf, IsTrue};
ghost use Rattle.std.specs.Prelude.{List, None};
ghost use Rattle.clap.specs.Words.{Text, fault_of, found_of, matches_of, rows_of};
ghost use Rattle.clap.specs.Walk.{texts};
ghost use Rattle.rv_words.specs.Verifying.{BeginOtherwise, ClapSays, NamesNoVerify, NamesVerify};
ghost use Rattle.rv_words.specs.Verifying.{SaysVerify};
ghost use Rattle.rv_words.specs.Verifying.{verify_app};

use crate::fault::CommandFault;
use crate::listed::{FLAG, ListedCommand, ListedOption, NEEDED, OPTIONAL, listed_command};
use crate::reading::{is_given, taken, text_of};
use crate::words::words_from;
use clap::ArgMatches;
use std::alloc::Global;

/// The word for standard input.
pub const STANDARD_INPUT: &str = "-";

/// What the words of `rv verify` say.
#[derive(Clone, Copy)]
pub struct VerifyWords<'a> {
    /// The account's file, the folder of a store, or `-` for standard input.
    pub file: &'a str,
    /// The file of a record of replies, if one is named.
    pub replies: Option<&'a str>,
    /// Whether to go on as the account's file grows.
    pub follow: bool,
}

/// `rv verify FILE`, in any order with `--replies FILE` and `--follow`, which can't be used with standard
/// input. `None` if the words begin in another way. The first word is the program's name.
pub fn read_verify<'a>(
    alloc: Global,
    words: &'a [&'a str],
) -> Result<Option<VerifyWords<'a>>, CommandFault>
    ensures named { IfOk result (λ found. IfSome found (NamesVerify (texts words.entry.now))) }
    ensures other { IfOk result (λ found. found ≡ None → BeginOtherwise (texts words.entry.now)) }
    ensures bad { IsErrOf result CommandFault.Bad → NamesNoVerify (texts words.entry.now) }
{
    match words_from("verify", words) {
        Some(own) => Ok(Some(said(alloc, own)?)),
        None => Ok(None),
    }
}

// What the words from `verify` on say.
fn said<'a>(alloc: Global, own: &'a [&'a str]) -> Result<VerifyWords<'a>, CommandFault>
    ensures says { IfOk result (ClapSays (texts own.entry.now)) }
    ensures bad { IsErrOf result CommandFault.Bad → (v : VerifyWords) → ¬ ClapSays (texts own.entry.now) v }
{
    let matches = matches_in(alloc, own)?;
    said_by(&matches).ok_or(CommandFault::Bad)
}

// What the matches say.
fn said_by<'a>(matches: &ArgMatches<'a>) -> Option<VerifyWords<'a>>
    ensures some { IfSome result (SaysVerify (rows_of (found_of matches.now))) }
    ensures none { result ≡ None → (v : VerifyWords) → ¬ SaysVerify (rows_of (found_of matches.now)) v }
{
    let file = text_of(matches, "FILE")?;
    let follow = is_given(matches, "follow");
    if follow && is_standard_input(file) {
        return None;
    }
    Some(VerifyWords {
        file,
        replies: text_of(matches, "replies"),
        follow,
    })
}

// Whether these words call standard input.
fn is_standard_input(file: &str) -> bool
    ensures { IsTrue result ↔ (file.now ≡ codes "-") }
{
    file == STANDARD_INPUT
}

// The words as clap reads them.
fn matches_in<'a>(alloc: Global, own: &'a [&'a str]) -> Result<ArgMatches<'a>, CommandFault>
    ensures taken { IfOk result (λ _. fault_of verify_app (texts own.entry.now) ≡ []) }
    ensures found { IfOk result (λ m.
        rows_of (found_of m) ≡ matches_of verify_app (texts own.entry.now)) }
    ensures bad { IsErrOf result CommandFault.Bad
        → ¬ (fault_of verify_app (texts own.entry.now) ≡ []) }
{
    taken(listed_command(alloc, &VERIFY)?, own)
}

/// `verify FILE --replies FILE --follow`, as help shows it and clap reads it.
pub(crate) const VERIFY: ListedCommand = ListedCommand {
    name: "verify",
    about: "Verify the account in a file or a store, or on standard input by -, and a record of replies",
    options: &[
        ListedOption {
            name: "FILE",
            positional: true,
            help: "The account's file, a store's folder, or - for standard input",
            ..NEEDED
        },
        ListedOption {
            name: "replies",
            help: "A file of recorded replies, each of which the account has to keep",
            ..OPTIONAL
        },
        ListedOption {
            name: "follow",
            help: "Go on as the file grows",
            ..FLAG
        },
    ],
};
