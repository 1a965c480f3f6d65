//! Commands and options that are listed in tables, as `clap` reads them.
ghost use Rattle.std.specs.Prelude.{◌≡◌, false, IfOk, map};
ghost use Rattle.clap.specs.Words.{app_of, new_app, rule_of};
ghost use Rattle.clap.specs.declared.Command.TheViews.{out-Command};
ghost use Rattle.rv_words.specs.Listed.{listed_app, listed_rule, positional_rule, with_apps};

use clap::{Arg, ArgAction, Command};
use std::alloc::{AllocError, Global};

/// A command, as it is listed.
pub(crate) struct ListedCommand {
    /// Its name.
    pub(crate) name: &'static str,
    /// What help says of it.
    pub(crate) about: &'static str,
    /// Its options and values, in the order of help.
    pub(crate) options: &'static [ListedOption],
}

/// An option, a flag, or a value with no option before it.
pub(crate) struct ListedOption {
    /// Its name.
    pub(crate) name: &'static str,
    /// Whether it is a value with no option before it; else its name follows two dashes.
    pub(crate) positional: bool,
    /// What help calls its value, if that isn't its name; nothing for a flag.
    pub(crate) values: &'static [&'static str],
    /// Whether it has to be given.
    pub(crate) required: bool,
    /// What is done when it is met.
    pub(crate) action: ArgAction,
    /// Its value if it isn't given, if it has a default.
    pub(crate) usual: &'static [&'static str],
    /// What help says of it.
    pub(crate) help: &'static str,
}

/// The program with these commands too, if there was memory for them.
pub(crate) fn with_commands<'a>(
    alloc: Global,
    program: Command<'a>,
    commands: &[ListedCommand],
) -> Result<Command<'a>, AllocError>
    ensures { IfOk result (λ p.
        app_of p ≡ with_apps (app_of program.entry) (map listed_app commands.now)) }
{
    let mut program = program;
    for listed in commands {
        let command = listed_command(alloc, listed)?;
        program = program.subcommand(command)?;
    }
    Ok(program)
}

/// A command as it is listed, if there was memory for it.
pub(crate) fn listed_command<'a>(
    alloc: Global,
    listed: &ListedCommand,
) -> Result<Command<'a>, AllocError>
    ensures app { IfOk result (λ c. app_of c ≡ listed_app listed.now) }
    ensures local { IfOk result (λ c. (out-Command c).has_globals ≡ false) }
{
    let mut command = named(alloc, listed.name, listed.about);
    for option in listed.options {
        command = command.arg(listed_option(alloc, option))?;
    }
    Ok(command)
}

/// A command of this name, with no option yet, and what help says of it.
pub(crate) fn named<'a>(alloc: Global, name: &'a str, about: &'a str) -> Command<'a>
    ensures app { app_of result ≡ new_app name.entry.now }
    ensures local { (out-Command result).has_globals ≡ false }
{
    Command::new(alloc, name).about(about)
}

// An option as it is listed.
fn listed_option<'a>(alloc: Global, option: &ListedOption) -> Arg<'a>
    ensures rule { rule_of result ≡ listed_rule option.now }
    ensures local { result.global ≡ false }
{
    let arg = named_option(alloc, option);
    if option.positional {
        arg
    } else {
        arg.long(option.name)
    }
}

// The same, with no dashes before its name.
fn named_option<'a>(alloc: Global, option: &ListedOption) -> Arg<'a>
    ensures rule { rule_of result ≡ positional_rule option.now }
    ensures local { result.global ≡ false }
{
    Arg::new(alloc, option.name)
        .value_names(option.values)
        .required(option.required)
        .action(option.action)
        .default_values(option.usual)
        .help(option.help)
}

/// An option with a value that has to be given, to which the rest is added.
pub(crate) const NEEDED: ListedOption = ListedOption {
    name: "",
    positional: false,
    values: &[],
    required: true,
    action: ArgAction::Set,
    usual: &[],
    help: "",
};

/// An option with a value that may be left out.
pub(crate) const OPTIONAL: ListedOption = ListedOption {
    name: "",
    positional: false,
    values: &[],
    required: false,
    action: ArgAction::Set,
    usual: &[],
    help: "",
};

/// A flag.
pub(crate) const FLAG: ListedOption = ListedOption {
    name: "",
    positional: false,
    values: &[],
    required: false,
    action: ArgAction::SetTrue,
    usual: &[],
    help: "",
};
