//! What is wrong with words that aren't options of `rv host`.
ghost use Rattle.std.specs.Prelude.{◌≡◌};
ghost use Rattle.clap.specs.Words.{kind_of};
ghost use Rattle.rv_words.specs.options.Faults.{status_of, fault_by};
ghost use Rattle.rv_words.specs.declared.options.fault.HostFault.TheVariants as faults;

use crate::options::number::HostNumber;
use clap::error::ErrorKind;
use std::alloc::AllocError;
use std::fmt;

/// Why the words aren't options of `rv host`. Its `Display` is the text for whoever wrote them.
#[derive(Drop)]
pub enum HostFault<'a> {
    /// `clap` refuses the words, or they ask for help.
    Refused(clap::Error),
    /// The value of this option isn't a number within its limits.
    Outside {
        /// The option.
        number: HostNumber,
        /// Its value, as it was written.
        given: &'a str,
    },
    /// An option of this word has no value. `clap` lets none through.
    Missing(&'static str),
    /// `--epoch` and `--epoch-above` are both there.
    TwoEpochs,
    /// `--account` and `--store` are both there.
    TwoAccounts,
    /// The flag of this word wants a store and is there, and `--store` isn't.
    NoStore(&'static str),
    /// Memory was refused.
    NoMemory,
}

impl<'a> From<AllocError> for HostFault<'a> {
    ghost from_gives = { λ _ fault. fault ≡ faults.NoMemory };

    fn from(_error: AllocError) -> HostFault<'a> {
        HostFault::NoMemory
    }
}

impl<'a> From<clap::Error> for HostFault<'a> {
    ghost from_gives = { λ error fault. fault ≡ fault_by (kind_of error) error };

    fn from(error: clap::Error) -> HostFault<'a> {
        match error.kind() {
            ErrorKind::OutOfMemory => HostFault::NoMemory,
            _ => HostFault::Refused(error),
        }
    }
}

impl HostFault<'_> {
    /// The status of a program that ends with it: 0 if help was asked for, 1 if memory was refused, else 2.
    pub fn status(&self) -> u8
        ensures { result ≡ status_of self.now }
    {
        match self {
            HostFault::Refused(error) => match error.kind() {
                ErrorKind::DisplayHelp => 0,
                _ => 2,
            },
            HostFault::NoMemory => 1,
            _ => 2,
        }
    }
}

impl fmt::Display for HostFault<'_> {
    fn fmt<W: fmt::Write>(&self, f: &mut fmt::Formatter<W>) -> fmt::Result {
        match self {
            HostFault::Refused(error) => write!(f, "{error}"),
            HostFault::Outside { number, given } => write_outside(f, *number, given),
            HostFault::Missing(word) => write!(f, "--{word}: no value"),
            HostFault::TwoEpochs => f.write_str("--epoch and --epoch-above: not both"),
            HostFault::TwoAccounts => f.write_str("--account and --store: not both"),
            HostFault::NoStore(word) => write!(f, "--{word}: only with --store"),
            HostFault::NoMemory => f.write_str("no memory"),
        }
    }
}

// Writes an option with its value, and the limits that the value isn't within.
fn write_outside<W: fmt::Write>(
    f: &mut fmt::Formatter<W>,
    number: HostNumber,
    given: &str,
) -> fmt::Result {
    write!(f, "--{} {given}: ", number.word())?;
    write_grouped(f, number.least())?;
    f.write_str(" to ")?;
    write_grouped(f, number.most())
}

// Writes a number with a comma before each three digits.
fn write_grouped<W: fmt::Write>(f: &mut fmt::Formatter<W>, number: u64) -> fmt::Result {
    if number < 1000 {
        return write!(f, "{number}");
    }
    write_grouped(f, number / 1000)?;
    write!(f, ",{:03}", number % 1000)
}
