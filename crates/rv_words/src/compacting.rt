//! Reads the words of `rv compact`.
ghost use Rattle.std.specs.Prelude.{◌≡◌, [], List, None, IfOk, IfSome, IsErrOf};
ghost use Rattle.clap.specs.Words.{Text, fault_of, found_of, matches_of, rows_of};
ghost use Rattle.clap.specs.Walk.{texts};
ghost use Rattle.rv_words.specs.Compacting.{NamesCompact, SaysFolder, compact_app};
ghost use Rattle.rv_words.specs.Compacting.{BeginsNoCompact, NamesNoFolder};

use crate::fault::CommandFault;
use crate::listed::{ListedCommand, ListedOption, NEEDED, listed_command};
use crate::reading::{taken, text_of};
use crate::words::words_from;
use clap::ArgMatches;
use std::alloc::Global;

/// The store's folder that `rv compact FOLDER` names. `None` if the words begin in another way. The first
/// word is the program's name.
pub fn read_compact<'a>(
    alloc: Global,
    words: &'a [&'a str],
) -> Result<Option<&'a str>, CommandFault>
    ensures named { IfOk result (λ found. IfSome found (λ folder.
        NamesCompact (texts words.entry.now) folder.now)) }
    ensures other { IfOk result (λ found. found ≡ None → BeginsNoCompact (texts words.entry.now)) }
    ensures bad { IsErrOf result CommandFault.Bad → NamesNoFolder (texts words.entry.now) }
{
    match words_from("compact", words) {
        Some(own) => Ok(Some(folder_in(alloc, own)?)),
        None => Ok(None),
    }
}

// The folder that the words from `compact` on name.
fn folder_in<'a>(alloc: Global, own: &'a [&'a str]) -> Result<&'a str, CommandFault>
    ensures says { IfOk result (λ folder. SaysFolder (texts own.entry.now) folder.now) }
    ensures bad { IsErrOf result CommandFault.Bad → (folder : Text)
        → ¬ SaysFolder (texts own.entry.now) folder }
{
    let matches = matches_in(alloc, own)?;
    text_of(&matches, "FOLDER").ok_or(CommandFault::Bad)
}

// The words as clap reads them.
fn matches_in<'a>(alloc: Global, own: &'a [&'a str]) -> Result<ArgMatches<'a>, CommandFault>
    ensures taken { IfOk result (λ _. fault_of compact_app (texts own.entry.now) ≡ []) }
    ensures found { IfOk result (λ m.
        rows_of (found_of m) ≡ matches_of compact_app (texts own.entry.now)) }
    ensures bad { IsErrOf result CommandFault.Bad
        → ¬ (fault_of compact_app (texts own.entry.now) ≡ []) }
{
    taken(listed_command(alloc, &COMPACT)?, own)
}

/// `compact FOLDER`, as help shows it and clap reads it.
pub(crate) const COMPACT: ListedCommand = ListedCommand {
    name: "compact",
    about: "Make a checkpoint of a store's account, from which a start goes on: FOLDER",
    options: &[ListedOption {
        name: "FOLDER",
        positional: true,
        help: "The store's folder, which a server may have",
        ..NEEDED
    }],
};
