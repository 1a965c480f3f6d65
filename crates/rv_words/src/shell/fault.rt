//! What is wrong with the words of a shell's command.
ghost use Rattle.std.specs.Prelude.{◌≡◌};
ghost use Rattle.clap.specs.Words.{kind_of};
ghost use Rattle.rv_words.specs.shell.Faults.{shell_fault_by, shell_status};
ghost use Rattle.rv_words.specs.declared.shell.fault.ShellFault.TheVariants as faults;

use crate::shell::value::ShellValue;
use clap::error::ErrorKind;
use std::alloc::AllocError;
use std::fmt;

/// Why the words name no call. Its `Display` is the text for whoever wrote them.
#[derive(Drop)]
pub enum ShellFault<'a> {
    /// `clap` refuses the words, or they ask for help.
    Refused(clap::Error),
    /// A value isn't within its limits, or isn't written so.
    Outside {
        /// Which value.
        value: ShellValue,
        /// The value, as it was written.
        given: &'a str,
    },
    /// A value isn't there. `clap` lets none through.
    Missing(ShellValue),
    /// `--null` and `--json` are both there.
    TwoForms,
    /// Memory was refused.
    NoMemory,
}

impl<'a> From<AllocError> for ShellFault<'a> {
    ghost from_gives = { λ _ fault. fault ≡ faults.NoMemory };

    fn from(_error: AllocError) -> ShellFault<'a> {
        ShellFault::NoMemory
    }
}

impl<'a> From<clap::Error> for ShellFault<'a> {
    ghost from_gives = { λ error fault. fault ≡ shell_fault_by (kind_of error) error };

    fn from(error: clap::Error) -> ShellFault<'a> {
        match error.kind() {
            ErrorKind::OutOfMemory => ShellFault::NoMemory,
            _ => ShellFault::Refused(error),
        }
    }
}

impl ShellFault<'_> {
    /// The status of a program that ends with it: 0 if help was asked for, else 2.
    pub fn status(&self) -> u8
        ensures { result ≡ shell_status self.now }
    {
        match self {
            ShellFault::Refused(error) => match error.kind() {
                ErrorKind::DisplayHelp => 0,
                _ => 2,
            },
            _ => 2,
        }
    }
}

impl fmt::Display for ShellFault<'_> {
    fn fmt<W: fmt::Write>(&self, f: &mut fmt::Formatter<W>) -> fmt::Result {
        match self {
            ShellFault::Refused(error) => write!(f, "{error}"),
            ShellFault::Outside { value, given } => {
                write!(f, "{} {given}: {}", value.shown(), value.limits())
            }
            ShellFault::Missing(value) => write!(f, "{}: no value", value.shown()),
            ShellFault::TwoForms => f.write_str("--null and --json: not both"),
            ShellFault::NoMemory => f.write_str("no memory"),
        }
    }
}
