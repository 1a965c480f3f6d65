//! What a server says of itself, in words.
ghost use Rattle.std.specs.Prelude.{◌≡◌, IfOk, string_bytes};
ghost use Rattle.rv_survey.specs.log.Texts.{book_words, call_words, fault_words, link_words, place_words};
ghost use Rattle.rv_survey.specs.log.Texts.{start_words};

use crate::log::kind::FaultKind;
use std::alloc::{AllocError, Global};

/// What is said of a server that started.
#[derive(Clone, Copy)]
pub struct StartSaid<'a> {
    /// The address at which it listens.
    pub address: &'a str,
    /// Its epoch.
    pub epoch: u64,
    /// The most connections that it has, which keep within the limit of open files.
    pub connections: u64,
    /// The limit of open files.
    pub open_files: u64,
    /// The most clients that it takes.
    pub clients: u64,
    /// The most items and requests that are open.
    pub open_places: u64,
    /// The most MiB that the bytes of all connections take.
    pub memory: u64,
    /// The version of this build.
    pub version: &'a str,
}

/// Where a server listens, its epoch, its limits, and its version.
pub fn start_text(alloc: Global, said: &StartSaid<'_>) -> Result<String, AllocError>
    ensures { IfOk result (λ text. string_bytes text ≡ start_words said.now) }
{
    let mut text = place_text(alloc, said.address, said.epoch)?;
    text.push_str(&link_text(alloc, said.connections, said.open_files)?)?;
    text.push_str(&book_text(alloc, said.clients, said.open_places, said.memory)?)?;
    text.push_str(", rv ")?;
    text.push_str(said.version)?;
    Ok(text)
}

// Where it listens, and its epoch.
fn place_text(alloc: Global, address: &str, epoch: u64) -> Result<String, AllocError>
    ensures { IfOk result (λ text. string_bytes text ≡ place_words address.now epoch) }
{
    format!(in alloc; "rv host listens on {address}, epoch {epoch}: ")
}

// The limits of its connections.
fn link_text(alloc: Global, connections: u64, files: u64) -> Result<String, AllocError>
    ensures { IfOk result (λ text. string_bytes text ≡ link_words connections files) }
{
    format!(in alloc; "{connections} connections (ulimit -n {files}), ")
}

// The limits of its book, and of its buffers.
fn book_text(alloc: Global, clients: u64, places: u64, memory: u64) -> Result<String, AllocError>
    ensures { IfOk result (λ text. string_bytes text ≡ book_words clients places memory) }
{
    format!(in alloc; "{clients} clients, {places} open, {memory} MiB")
}

/// The command line with which a client of this number makes a call, given as text, to the server at an
/// address.
pub fn call_text(
    alloc: Global,
    call: &str,
    address: &str,
    client: u64,
) -> Result<String, AllocError>
    ensures { IfOk result (λ text. string_bytes text ≡ call_words call.now address.now client) }
{
    format!(in alloc;
        "echo '{call}' | rv call --connect {address} --client {client} {CALL_OPTIONS}"
    )
}

const CALL_OPTIONS: &str = "--incarnation $(date +%s) --tries 6 --speak 2";

/// A kind of fault, and how often it came.
pub fn fault_text(alloc: Global, kind: FaultKind, count: u64) -> Result<String, AllocError>
    ensures { IfOk result (λ text. string_bytes text ≡ fault_words kind count) }
{
    let words = kind.words();
    format!(in alloc; "{words}: {count}")
}
