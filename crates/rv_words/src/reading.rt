//! Reads words with `clap`, and the values of options from what it finds.
ghost use Rattle.std.specs.Prelude.{◌≡◌, ◌↔◌, [], codes, IfOk, IsErrOf, IsTrue, Some, option_map, true};
ghost use Rattle.clap.specs.Words.{HasMatchesOf, app_of, fault_of, first_of, found_of, is_simple_and_free};
ghost use Rattle.clap.specs.Words.{rows_of};
ghost use Rattle.clap.specs.Walk.{texts};
ghost use Rattle.rv_words.specs.declared.fault.CommandFault.TheVariants.{Bad, NoMemory};

use crate::fault::CommandFault;
use clap::ArgMatches;

/// An option's value.
pub fn text_of<'a>(options: &ArgMatches<'a>, name: &str) -> Option<&'a str>
    ensures { option_map (λ v. v.now) result ≡ first_of name.now (rows_of (found_of options.now)) }
{
    options.get_str(name)
}

/// Whether a flag is given.
pub(crate) fn is_given(options: &ArgMatches, name: &str) -> bool
    ensures { IsTrue result ↔ (first_of name.now (rows_of (found_of options.now)) ≡ Some (codes "true")) }
{
    match text_of(options, name) {
        Some(text) => text == "true",
        None => false,
    }
}

/// The words as `clap` reads them for a command for which it reports each fault.
pub(crate) fn taken<'a>(
    command: clap::Command<'a>,
    words: &'a [&'a str],
) -> Result<ArgMatches<'a>, CommandFault>
    requires { is_simple_and_free (app_of command) ≡ true }
    ensures taken { IfOk result (λ _. fault_of (app_of command.entry) (texts words.entry.now) ≡ []) }
    ensures found { IfOk result (HasMatchesOf (app_of command.entry) (texts words.entry.now)) }
    ensures bad { IsErrOf result CommandFault.Bad
        → ¬ (fault_of (app_of command.entry) (texts words.entry.now) ≡ []) }
{
    Ok(command.try_get_matches_from(words)?)
}
