//! The options of the long-running server, `rv host`: what its words name, or what is wrong with them.
ghost use Rattle.std.specs.Prelude.{◌≡◌, ◌↔◌, [], codes, IfErr, IfOk, IsTrue, List, None, Some, is_some};
ghost use Rattle.std.specs.Prelude.{option_map, true};
ghost use Rattle.clap.specs.Walk.{texts};
ghost use Rattle.clap.specs.Words.{Row, fault_of, first_of, found_of, matches_of, rows_of};
ghost use Rattle.rv_words.specs.options.Epochs.{FitsRule, SaysRule};
ghost use Rattle.rv_words.specs.options.Faults.{IsFault, IsFaultOf, WantsStore};
ghost use Rattle.rv_words.specs.options.Numbers.{Fits, GivesNumber, IsAlwaysThere, WritesWithin, given_for};
ghost use Rattle.rv_words.specs.options.Options.{FitLimits, FitOptions, NamesOptions};
ghost use Rattle.rv_words.specs.options.Options.{SaysLimits, SaysOptions};
ghost use Rattle.rv_words.specs.options.Words.{host_app};

mod epoch;
mod fault;
pub mod laws;
mod number;
mod version;
mod words;

use crate::reading::{is_given, text_of};
use clap::ArgMatches;
pub use epoch::EpochRule;
pub use fault::HostFault;
pub use number::HostNumber;
use std::alloc::Global;
pub use version::VERSION;
pub use words::host_words;

/// The options of `rv host`.
#[derive(Clone, Copy)]
pub struct HostOptions<'a> {
    /// The address to listen at, as it was written.
    pub listen: &'a str,
    /// How it chooses its epoch.
    pub epoch: EpochRule,
    /// Whether a new epoch begins in the store, which is there then.
    pub new_epoch: bool,
    /// Whether the store, which is there then, isn't synced.
    pub no_sync: bool,
    /// The machine's boot, as it was written, if it was named.
    pub boot: Option<&'a str>,
    /// The file to which its account is written, if there is one.
    pub account: Option<&'a str>,
    /// The folder in which its account is kept instead, as it was written, if there is one.
    pub store: Option<&'a str>,
    /// Its status address, for HTTP, as it was written, if there is one.
    pub status: Option<&'a str>,
    /// The names under which that address is asked, beside `localhost` and each IP address, as they were
    /// written, with commas between them, if there are any.
    pub status_names: Option<&'a str>,
    /// The limits of its book and of its connections.
    pub limits: HostLimits,
    /// Whether it prints nothing except why it ends.
    pub quiet: bool,
}

/// The limits of the book and of the connections of `rv host`.
#[derive(Clone, Copy)]
pub struct HostLimits {
    /// The most clients that its book takes.
    pub clients: u64,
    /// The most items and requests that are open in it.
    pub open_places: u64,
    /// The most connections that are open at once.
    pub connections: u64,
    /// The most of them that may come from one address.
    pub connections_from: u64,
    /// The most MiB that the bytes of all connections take.
    pub memory: u64,
    /// The seconds after which a connection is closed that says nothing and waits for nothing.
    pub idle: u64,
    /// The seconds after which one is closed that is in the middle of a frame, or whose peer takes no answer.
    pub stall: u64,
}

/// The options that the words of `rv host` name, the word `host` first, as `clap` reads them. A number is
/// ASCII digits, with or without a plus in front, read in decimal.
pub fn read_host<'a>(alloc: Global, words: &'a [&'a str]) -> Result<HostOptions<'a>, HostFault<'a>>
    ensures ok { IfOk result (NamesOptions (texts words.entry.now)) }
    ensures fits { IfOk result FitOptions }
    ensures fault { IfErr result (IsFault (texts words.entry.now)) }
{
    let matches = matches_of(alloc, words)?;
    options_of(&matches)
}

// The words as clap reads them.
fn matches_of<'a>(alloc: Global, words: &'a [&'a str]) -> Result<ArgMatches<'a>, HostFault<'a>>
    ensures taken { IfOk result (λ _. fault_of host_app (texts words.entry.now) ≡ []) }
    ensures found { IfOk result (λ m. rows_of (found_of m) ≡ matches_of host_app (texts words.entry.now)) }
    ensures fault { IfErr result (IsFault (texts words.entry.now)) }
{
    let command = host_words(alloc)?;
    Ok(command.try_get_matches_from(words)?)
}

// The options that the rows say.
fn options_of<'a>(given: &ArgMatches<'a>) -> Result<HostOptions<'a>, HostFault<'a>>
    ensures ok { IfOk result (SaysOptions (rows_of (found_of given.now))) }
    ensures fits { IfOk result FitOptions }
    ensures fault { IfErr result (IsFaultOf (rows_of (found_of given.now))) }
{
    let Some(listen) = text_of(given, "listen") else {
        return Err(HostFault::Missing("listen"));
    };
    Ok(HostOptions {
        listen,
        epoch: epoch_of(given)?,
        new_epoch: flag_in_store(given, "new-epoch")?,
        no_sync: flag_in_store(given, "no-sync")?,
        boot: text_of(given, "boot"),
        account: text_of(given, "account"),
        store: store_of(given)?,
        status: text_of(given, "status"),
        status_names: text_of(given, "status-name"),
        limits: limits_of(given)?,
        quiet: is_given(given, "quiet"),
    })
}

// The limits that they say.
fn limits_of<'a>(given: &ArgMatches<'a>) -> Result<HostLimits, HostFault<'a>>
    ensures ok { IfOk result (SaysLimits (rows_of (found_of given.now))) }
    ensures fits { IfOk result FitLimits }
    ensures fault { IfErr result (IsFaultOf (rows_of (found_of given.now))) }
{
    Ok(HostLimits {
        clients: number_of(given, HostNumber::Clients)?,
        open_places: number_of(given, HostNumber::Open)?,
        connections: number_of(given, HostNumber::Connections)?,
        connections_from: number_of(given, HostNumber::ConnectionsFrom)?,
        memory: number_of(given, HostNumber::Memory)?,
        idle: number_of(given, HostNumber::Idle)?,
        stall: number_of(given, HostNumber::Stall)?,
    })
}

// The rule of the epoch that they say.
fn epoch_of<'a>(given: &ArgMatches<'a>) -> Result<EpochRule, HostFault<'a>>
    ensures ok { IfOk result (SaysRule (rows_of (found_of given.now))) }
    ensures fits { IfOk result FitsRule }
    ensures fault { IfErr result (IsFaultOf (rows_of (found_of given.now))) }
{
    let exact = text_of(given, HostNumber::Epoch.word());
    let above = text_of(given, HostNumber::EpochAbove.word());
    match (exact, above) {
        (Some(_), Some(_)) => Err(HostFault::TwoEpochs),
        (Some(text), None) => Ok(EpochRule::Exactly(number_in(text, HostNumber::Epoch)?)),
        (None, Some(text)) => Ok(EpochRule::Above(number_in(text, HostNumber::EpochAbove)?)),
        (None, None) => Ok(EpochRule::Clock),
    }
}

// Whether a flag is there, for which there has to be a store.
fn flag_in_store<'a>(given: &ArgMatches<'a>, word: &'static str) -> Result<bool, HostFault<'a>>
    requires { WantsStore word.now }
    ensures ok { IfOk result (λ is_there. IsTrue is_there
        ↔ (first_of word.now (rows_of (found_of given.now)) ≡ Some (codes "true"))) }
    ensures in_store { IfOk result (λ is_there. IsTrue is_there
        → is_some (first_of (codes "store") (rows_of (found_of given.now))) ≡ true) }
    ensures fault { IfErr result (IsFaultOf (rows_of (found_of given.now))) }
{
    let is_there = is_given(given, word);
    if is_there && text_of(given, "store").is_none() {
        Err(HostFault::NoStore(word))
    } else {
        Ok(is_there)
    }
}

// The store, beside which there may be no account in a file of its own.
fn store_of<'a>(given: &ArgMatches<'a>) -> Result<Option<&'a str>, HostFault<'a>>
    ensures ok { IfOk result (λ store. option_map (λ folder. folder.now) store
        ≡ first_of (codes "store") (rows_of (found_of given.now))) }
    ensures alone { IfOk result (λ store.
        is_some (first_of (codes "account") (rows_of (found_of given.now))) ≡ true → store ≡ None) }
    ensures fault { IfErr result (IsFaultOf (rows_of (found_of given.now))) }
{
    let store = text_of(given, "store");
    if store.is_some() && text_of(given, "account").is_some() {
        Err(HostFault::TwoAccounts)
    } else {
        Ok(store)
    }
}

// The number that the value of an option writes, which is always there.
fn number_of<'a>(given: &ArgMatches<'a>, number: HostNumber) -> Result<u64, HostFault<'a>>
    requires { IsAlwaysThere number }
    ensures ok { IfOk result (GivesNumber number (rows_of (found_of given.now))) }
    ensures fits { IfOk result (Fits number) }
    ensures fault { IfErr result (IsFaultOf (rows_of (found_of given.now))) }
{
    match text_of(given, number.word()) {
        Some(text) => number_in(text, number),
        None => Err(HostFault::Missing(number.word())),
    }
}

// The number that a value writes.
fn number_in<'a>(text: &'a str, number: HostNumber) -> Result<u64, HostFault<'a>>
    ensures ok { IfOk result (WritesWithin number text.entry.now) }
    ensures fits { IfOk result (Fits number) }
    ensures fault { (rows : List Row) → given_for number rows ≡ Some text.entry.now
        → IfErr result (IsFaultOf rows) }
{
    match number.read(text) {
        Some(n) => Ok(n),
        None => Err(HostFault::Outside {
            number,
            given: text,
        }),
    }
}
