//! The command line of the program `rv`: which command its words name.
ghost use Rattle.std.specs.Prelude.{ℕ, ◌≡◌, codes, IfOk, IfSome, IsErrOf, None};
ghost use Rattle.std.specs.Option.{IsSomeAnd};
ghost use Rattle.clap.specs.Words.{Text, first_of, found_of, rows_of, subcommand_rows_of};
ghost use Rattle.clap.specs.Walk.{texts};
ghost use Rattle.rv_words.specs.command.Command.{FitsCommand, GivesBetween, GivesDuration, GivesIdentifier};
ghost use Rattle.rv_words.specs.command.Command.{GivesVersion, NamesCommand, NamesNone, SaysCall};
ghost use Rattle.rv_words.specs.command.Command.{SaysCommand, SaysEnd, SaysServe, max_count};
ghost use Rattle.rv_words.specs.declared.fault.CommandFault.TheVariants.{Bad};

pub mod laws;

use crate::duration::read_duration;
pub use crate::fault::CommandFault;
use crate::program::matches_of;
use crate::reading::text_of;
use clap::ArgMatches;
use rv_text::{Version, read_between, read_identifier};
use std::alloc::Global;

// The most workers of a server. That rv_server takes so many is proved where a server is started.
const MAX_WORKERS: u64 = 64;

// The greatest count, of connections or tries.
const MAX_COUNT: u64 = 4_294_967_295;

/// A command of the program.
#[derive(Clone, Copy)]
pub enum Command<'a> {
    /// `rv book --epoch E`: run the book of this epoch, 1 to 9,007,199,254,740,991, over the lines
    /// of standard input.
    Book(u64),
    /// `rv play`: act out the events of standard input.
    Play,
    /// `rv audit`: audit the account that the lines of standard input say.
    Audit,
    /// `rv serve --listen ADDR --epoch E --workers W --connections N`: serve the book of an epoch.
    Serve {
        /// The address to listen at, as it was written.
        listen: &'a str,
        /// The epoch, 1 to 9,007,199,254,740,991.
        epoch: u64,
        /// The number of workers, 1 to 64.
        workers: usize,
        /// The number of connections that are accepted before the server ends.
        connections: u32,
    },
    /// `rv call --connect ADDR --client C --incarnation I --tries T --speak V`: make the calls of standard
    /// input.
    Call {
        /// The address of the server, as it was written.
        connect: &'a str,
        /// The client, 1 to 9,007,199,254,740,991.
        client: u64,
        /// Its incarnation, 1 to 9,007,199,254,740,991.
        incarnation: u64,
        /// How often hello is said at most, and each request asked.
        tries: u32,
        /// The version that its hello asks for, 1 or 2.
        speak: Version,
    },
    /// `rv end --status ADDR --connect ADDR --older TIME`: end the requests that have had no connection for
    /// this long.
    End {
        /// The server's status address, as it was written.
        status: &'a str,
        /// The address of the server, as it was written.
        connect: &'a str,
        /// For how many milliseconds, at most a day.
        older: u64,
    },
}

/// The command that the words name, as `clap` reads them. The first word is the program's name. A
/// number is 1 to 19 ASCII digits, read in decimal.
pub fn read_command<'a>(alloc: Global, words: &'a [&'a str]) -> Result<Command<'a>, CommandFault>
    ensures ok { IfOk result (λ command. NamesCommand (texts words.entry.now) command) }
    ensures bad { IsErrOf result CommandFault.Bad → NamesNone (texts words.entry.now) }
    ensures fits { IfOk result FitsCommand }
{
    let matches = matches_of(alloc, words)?;
    command_of(&matches).ok_or(CommandFault::Bad)
}

// The command that a subcommand names.
fn command_of<'a>(matches: &ArgMatches<'a>) -> Option<Command<'a>>
    ensures some { IfSome result (λ command.
        IsSomeAnd (subcommand_rows_of matches.now) (λ s. SaysCommand s command)) }
    ensures none { result ≡ None → (command : Command)
        → ¬ IsSomeAnd (subcommand_rows_of matches.now) (λ s. SaysCommand s command) }
{
    let (name, options) = matches.subcommand()?;
    match name {
        "book" => book_of(options),
        "play" => Some(Command::Play),
        "audit" => Some(Command::Audit),
        "serve" => serve_of(options),
        "call" => call_of(options),
        "end" => end_of(options),
        _ => None,
    }
}

// The command `book` with these options.
fn book_of<'a>(options: &ArgMatches<'a>) -> Option<Command<'a>>
    ensures some { IfSome result (SaysCommand (codes "book", rows_of (found_of options.now))) }
    ensures none { result ≡ None → (epoch : ℕ)
        → ¬ GivesIdentifier (first_of (codes "epoch") (rows_of (found_of options.now))) epoch }
{
    let epoch = identifier_of(options, "epoch")?;
    Some(Command::Book(epoch))
}

// The command `serve` with these options.
fn serve_of<'a>(options: &ArgMatches<'a>) -> Option<Command<'a>>
    ensures some { IfSome result (SaysCommand (codes "serve", rows_of (found_of options.now))) }
    ensures none { result ≡ None → (listen : Text) (epoch workers connections : ℕ)
        → ¬ SaysServe (rows_of (found_of options.now)) listen epoch workers connections }
{
    let listen = text_of(options, "listen")?;
    let epoch = identifier_of(options, "epoch")?;
    let workers = workers_of(options)?;
    let connections = count_of(options, "connections")?;
    Some(Command::Serve {
        listen,
        epoch,
        workers,
        connections,
    })
}

// The command `call` with these options.
fn call_of<'a>(options: &ArgMatches<'a>) -> Option<Command<'a>>
    ensures some { IfSome result (SaysCommand (codes "call", rows_of (found_of options.now))) }
    ensures none { result ≡ None → (connect : Text) (client incarnation tries : ℕ) (speak : Version)
        → ¬ SaysCall (rows_of (found_of options.now)) connect client incarnation tries speak }
{
    let connect = text_of(options, "connect")?;
    let client = identifier_of(options, "client")?;
    let incarnation = identifier_of(options, "incarnation")?;
    let tries = count_of(options, "tries")?;
    let speak = version_of(options, "speak")?;
    Some(Command::Call {
        connect,
        client,
        incarnation,
        tries,
        speak,
    })
}

// The command `end` with these options.
fn end_of<'a>(options: &ArgMatches<'a>) -> Option<Command<'a>>
    ensures some { IfSome result (SaysCommand (codes "end", rows_of (found_of options.now))) }
    ensures none { result ≡ None → (status connect : Text) (older : ℕ)
        → ¬ SaysEnd (rows_of (found_of options.now)) status connect older }
{
    let status = text_of(options, "status")?;
    let connect = text_of(options, "connect")?;
    let older = duration_of(options, "older")?;
    Some(Command::End {
        status,
        connect,
        older,
    })
}

// The identifier that an option's value writes: an epoch, a client and the like.
fn identifier_of(options: &ArgMatches, name: &str) -> Option<u64>
    ensures some { IfSome result
        (GivesIdentifier (first_of name.now (rows_of (found_of options.now)))) }
    ensures none { result ≡ None → (n : ℕ)
        → ¬ GivesIdentifier (first_of name.now (rows_of (found_of options.now))) n }
{
    read_identifier(text_of(options, name)?.as_bytes())
}

// The version whose number an option's value writes.
fn version_of(options: &ArgMatches, name: &str) -> Option<Version>
    ensures some { IfSome result
        (GivesVersion (first_of name.now (rows_of (found_of options.now)))) }
    ensures none { result ≡ None → (version : Version)
        → ¬ GivesVersion (first_of name.now (rows_of (found_of options.now))) version }
{
    Version::of_number(number_of(options, name, 1, 2)?)
}

// The span of time that an option's value writes.
fn duration_of(options: &ArgMatches, name: &str) -> Option<u64>
    ensures some { IfSome result
        (GivesDuration (first_of name.now (rows_of (found_of options.now)))) }
    ensures none { result ≡ None → (n : ℕ)
        → ¬ GivesDuration (first_of name.now (rows_of (found_of options.now))) n }
{
    read_duration(text_of(options, name)?)
}

// The number of workers that the option for it writes.
fn workers_of(options: &ArgMatches) -> Option<usize>
    ensures some { IfSome result
        (GivesBetween 1 64 (first_of (codes "workers") (rows_of (found_of options.now)))) }
    ensures none { result ≡ None → (n : ℕ)
        → ¬ GivesBetween 1 64 (first_of (codes "workers") (rows_of (found_of options.now))) n }
{
    Some(number_of(options, "workers", 1, MAX_WORKERS)? as usize)
}

// The count that an option's value writes.
fn count_of(options: &ArgMatches, name: &str) -> Option<u32>
    ensures some { IfSome result
        (GivesBetween 0 max_count (first_of name.now (rows_of (found_of options.now)))) }
    ensures none { result ≡ None → (n : ℕ)
        → ¬ GivesBetween 0 max_count (first_of name.now (rows_of (found_of options.now))) n }
{
    Some(number_of(options, name, 0, MAX_COUNT)? as u32)
}

// The number from `least` to `most` that an option's value writes.
fn number_of(options: &ArgMatches, name: &str, least: u64, most: u64) -> Option<u64>
    ensures some { IfSome result
        (GivesBetween least most (first_of name.now (rows_of (found_of options.now)))) }
    ensures none { result ≡ None → (n : ℕ)
        → ¬ GivesBetween least most (first_of name.now (rows_of (found_of options.now))) n }
{
    read_between(text_of(options, name)?.as_bytes(), least, most)
}
