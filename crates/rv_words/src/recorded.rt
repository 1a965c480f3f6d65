//! Reads the words of a run of calls that keeps a record.
ghost use Rattle.std.specs.Prelude.{◌≡◌, ◌∷◌, codes, IfErr, IfOk, IfSome, List, None};
ghost use Rattle.clap.specs.Words.{Text};
ghost use Rattle.clap.specs.Walk.{texts};
ghost use Rattle.rv_words.specs.Recorded.{NamesNoRecord, NamesRecord};
ghost use Rattle.rv_words.specs.declared.fault.CommandFault.TheVariants.{NoMemory};

use crate::fault::CommandFault;
use std::alloc::Global;

/// `rv record --to FILE`, and then the options of `rv call`: the file, and the words of that call, as
/// [`matches_of`](crate::matches_of) takes them. `None` if the words begin in another way. The first word is
/// the program's name.
pub fn read_record<'a>(
    alloc: Global,
    words: &'a [&'a str],
) -> Result<Option<(&'a str, Vec<&'a str>)>, CommandFault>
    ensures record { IfOk result (λ found. IfSome found (λ p.
        NamesRecord (texts words.entry.now) p.0.now (texts p.1.items))) }
    ensures other { IfOk result (λ found. found ≡ None → NamesNoRecord (texts words.entry.now)) }
    ensures fault { IfErr result (λ fault. fault ≡ NoMemory) }
{
    match file_and_options(words) {
        Some((file, options)) => Ok(Some((file, words_of_call(alloc, options)?))),
        None => Ok(None),
    }
}

// The file of a record, and the options after it.
fn file_and_options<'a>(words: &'a [&'a str]) -> Option<(&'a str, &'a [&'a str])>
    ensures some { IfSome result (λ p. (name : Text)
        × (texts words.entry.now ≡ name ∷ codes "record" ∷ codes "--to" ∷ p.0.now ∷ texts p.1.now)) }
    ensures none { result ≡ None → (name file : Text) (options : List Text)
        → ¬ (texts words.entry.now ≡ name ∷ codes "record" ∷ codes "--to" ∷ file ∷ options) }
{
    match words {
        [_, "record", "--to", file, options @ ..] => Some((*file, options)),
        _ => None,
    }
}

// The words of `rv call` with these options.
fn words_of_call<'a>(alloc: Global, options: &'a [&'a str]) -> Result<Vec<&'a str>, CommandFault>
    ensures words { IfOk result (λ call. texts call.items ≡ codes "rv" ∷ codes "call" ∷ texts options.now) }
    ensures fault { IfErr result (λ fault. fault ≡ NoMemory) }
{
    let mut words = Vec::new(alloc);
    words.extend_from_slice(&["rv", "call"])?;
    words.extend_from_slice(options)?;
    Ok(words)
}
