//! What a server shows of itself: its numbers, and lists of bounded length. It shows no item's text.
ghost use Rattle.std.specs.Prelude.{◌≡◌, IfOk};
ghost use Rattle.rv_status.specs.Begun.{HasNoRow, HasRoom, no_times};
ghost use Rattle.rv_status.specs.Values.{call_word};

use crate::histogram::Histogram;
use crate::numbers::StatusNumbers;
use std::alloc::{AllocError, Global};

// The room of a list: that many rows, one of which is taken out again; that many queues; that many samples.
const ROWS: usize = 101;

const QUEUES: usize = 64;

const SAMPLES: usize = 62;

/// How long turns and answers took.
#[derive(Clone, Copy)]
pub struct StatusTimes {
    /// Turns of the server.
    pub turns: Histogram,
    /// Requests, for as long as they stood first of their connection.
    pub answers: Histogram,
}

/// What a server shows of itself at one moment. Whoever fills it keeps each list at 100 rows at most.
#[derive(Drop)]
pub struct HostStatus {
    /// The version of its build, of digits and points.
    pub version: &'static str,
    /// Its numbers.
    pub numbers: StatusNumbers,
    /// How long turns and answers took.
    pub times: StatusTimes,
    /// Samples of the last ten minutes, the oldest first.
    pub history: Vec<StatusSample>,
    /// Its queues.
    pub queues: Vec<QueueRow>,
    /// Requests that wait while no connection of their client does.
    pub unheard: Vec<WaitingRow>,
    /// Requests that wait, the oldest first.
    pub waiting: Vec<WaitingRow>,
}

/// How far a server was at one moment.
#[derive(Clone, Copy)]
pub struct StatusSample {
    /// The moment, in seconds since the start.
    pub second: u64,
    /// How many entries its account had.
    pub entries: u64,
    /// How many places were open.
    pub places: u64,
    /// How many bytes of its account were written.
    pub account: u64,
}

/// What waits in a queue.
#[derive(Clone, Copy)]
pub struct QueueRow {
    /// The queue's number.
    pub queue: u64,
    /// How many items are there.
    pub items: u64,
    /// How many consumers wait there.
    pub consumers: u64,
}

/// A call that may wait.
#[derive(Clone, Copy)]
pub enum CallKind {
    /// It hands an item over.
    Transfer,
    /// It takes an item.
    Take,
    /// It swaps items.
    Swap,
}

/// A request that waits.
#[derive(Clone, Copy)]
pub struct WaitingRow {
    /// What it is.
    pub call: CallKind,
    /// The number of its queue or exchanger.
    pub at: u64,
    /// The moment of its arrival, in milliseconds since the start.
    pub since: u64,
    /// Its client.
    pub client: u64,
    /// Its client's incarnation.
    pub incarnation: u64,
    /// Its number.
    pub number: u64,
    /// Since when it has been found with no connection, in milliseconds since the start, if that is shown.
    pub unheard: Option<u64>,
}

impl StatusTimes {
    /// Nothing was observed.
    pub fn new() -> StatusTimes
        ensures { result ≡ no_times }
    {
        StatusTimes {
            turns: Histogram::of_turns(),
            answers: Histogram::of_answers(),
        }
    }
}

impl HostStatus {
    /// A status of these numbers, with no rows, and with room in each list for as many as it shows and one
    /// more. Fails only if memory was refused.
    pub fn with_room(
        alloc: Global,
        version: &'static str,
        numbers: StatusNumbers,
    ) -> Result<HostStatus, AllocError>
        ensures version { IfOk result (λ s. s.version.now ≡ version.now) }
        ensures numbers { IfOk result (λ s. s.numbers ≡ numbers) }
        ensures times { IfOk result (λ s. s.times ≡ no_times) }
        ensures none { IfOk result (λ s. HasNoRow s) }
        ensures room { IfOk result (λ s. HasRoom s) }
    {
        Ok(HostStatus {
            version,
            numbers,
            times: StatusTimes::new(),
            history: Vec::with_capacity(alloc, SAMPLES)?,
            queues: Vec::with_capacity(alloc, QUEUES)?,
            unheard: Vec::with_capacity(alloc, ROWS)?,
            waiting: Vec::with_capacity(alloc, ROWS)?,
        })
    }
}

impl CallKind {
    /// Its word.
    pub fn word(self) -> &'static str
        ensures { result.now ≡ call_word self }
    {
        match self {
            CallKind::Transfer => "transfer",
            CallKind::Take => "take",
            CallKind::Swap => "swap",
        }
    }
}
