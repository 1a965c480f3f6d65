//! Reads the words of `rv help`.
ghost use Rattle.std.specs.Prelude.{◌≡◌, [], codes, false, IfOk, IfSome, IsErrOf, None, map, true};
ghost use Rattle.clap.specs.Words.{HasKind, app_of, fault_of, is_simple_and_free, kind_of};
ghost use Rattle.clap.specs.Walk.{texts};
ghost use Rattle.rv_words.specs.Beginning.{BeginWithout};
ghost use Rattle.rv_words.specs.Helping.{IsHelpFor, help_app, help_status};
ghost use Rattle.rv_words.specs.Listed.{with_apps};
ghost use Rattle.rv_words.specs.shell.Words.{shell_app};

use crate::compacting::COMPACT;
use crate::fault::CommandFault;
use crate::listed::{ListedCommand, ListedOption, NEEDED, listed_command, with_commands};
use crate::options::host_words;
use crate::program::program;
use crate::shell::ShellWord;
use crate::verifying::VERIFY;
use crate::words::words_from;
use clap::error::ErrorKind;
use std::alloc::{AllocError, Global};
use std::fmt;

/// The answer to a call for help. Its `Display` is the text.
#[derive(Drop)]
pub struct HelpAnswer {
    pub(crate) error: clap::Error,
}

impl HelpAnswer {
    /// The status of a program that ends with it: 0 for help, 2 if there is none to give.
    pub fn status(&self) -> u8
        ensures { result ≡ help_status (kind_of self.now.error) }
    {
        match self.error.kind() {
            ErrorKind::DisplayHelp => 0,
            _ => 2,
        }
    }
}

impl fmt::Display for HelpAnswer {
    fn fmt<W: fmt::Write>(&self, f: &mut fmt::Formatter<W>) -> fmt::Result {
        let error = &self.error;
        write!(f, "{error}")
    }
}

/// `rv help`, alone or with a command's name after it: the help that `clap` has, or why it has none. Words
/// that begin otherwise ask for none. The first word is the program's name.
pub fn read_help<'a>(
    alloc: Global,
    words: &'a [&'a str],
) -> Result<Option<HelpAnswer>, CommandFault>
    ensures answered { IfOk result (λ found. IfSome found (IsHelpFor (texts words.entry.now))) }
    ensures other { IfOk result (λ found. found ≡ None
        → BeginWithout (codes "help") (texts words.entry.now)) }
    ensures bad { IsErrOf result CommandFault.Bad → fault_of help_app (texts words.entry.now) ≡ [] }
{
    match words_from("help", words) {
        Some(_) => Ok(Some(answer(alloc, words)?)),
        None => Ok(None),
    }
}

// What clap says of the words, of which it takes none.
fn answer<'a>(alloc: Global, words: &'a [&'a str]) -> Result<HelpAnswer, CommandFault>
    ensures answered { IfOk result (IsHelpFor (texts words.entry.now)) }
    ensures bad { IsErrOf result CommandFault.Bad → fault_of help_app (texts words.entry.now) ≡ [] }
{
    let command = whole_program(alloc)?;
    match refusal_of(command, words) {
        None => Err(CommandFault::Bad),
        Some(error) => match error.kind() {
            ErrorKind::OutOfMemory => Err(CommandFault::NoMemory),
            _ => Ok(HelpAnswer { error }),
        },
    }
}

// Why a command, for which `clap` reports each fault, doesn't accept the words.
fn refusal_of<'a>(command: clap::Command<'a>, words: &'a [&'a str]) -> Option<clap::Error>
    requires { is_simple_and_free (app_of command) ≡ true }
    ensures some { IfSome result (HasKind (fault_of (app_of command.entry) (texts words.entry.now))) }
    ensures none { result ≡ None → fault_of (app_of command.entry) (texts words.entry.now) ≡ [] }
{
    command.try_get_matches_from(words).err()
}

// The program with all its commands, as help shows them.
fn whole_program<'a>(alloc: Global) -> Result<clap::Command<'a>, AllocError>
    ensures { IfOk result (λ c. app_of c ≡ help_app) }
{
    let program = program(alloc)?.bin_name("rv")?;
    let program = with_commands(alloc, program, OTHERS)?;
    let program = with_shell(alloc, program, SHELL)?;
    let host = host_words(alloc)?;
    program.subcommand(host)
}

// The program with these commands of a shell too.
fn with_shell<'a>(
    alloc: Global,
    program: clap::Command<'a>,
    words: &[ShellWord],
) -> Result<clap::Command<'a>, AllocError>
    ensures { IfOk result (λ p.
        app_of p ≡ with_apps (app_of program.entry) (map shell_app words.now)) }
{
    let mut program = program;
    for word in words {
        let command = listed_command(alloc, word.listed())?;
        program = program.subcommand(command)?;
    }
    Ok(program)
}

// What help says of `record`.
const RECORD_ABOUT: &str =
    "Do as call does, and append each request and its reply to a file: --to FILE, then its options";

// The commands that read their words themselves, but for `host` and those of a shell.
const OTHERS: &[ListedCommand] = &[
    ListedCommand {
        name: "record",
        about: RECORD_ABOUT,
        options: &[ListedOption {
            name: "to",
            help: "The file to which each request and its reply are appended",
            ..NEEDED
        }],
    },
    ListedCommand {
        name: "version",
        about: "Print the version of this build",
        options: &[],
    },
    VERIFY,
    COMPACT,
];

// The commands of a shell.
const SHELL: &[ShellWord] = &[
    ShellWord::Put,
    ShellWord::Take,
    ShellWord::Transfer,
    ShellWord::Drain,
    ShellWord::Count,
    ShellWord::Peek,
    ShellWord::Swap,
    ShellWord::Bench,
];
