//! The numbers of a server, each with the name, the kind and the meaning that are shown with it.
ghost use Rattle.std.specs.Prelude.{◌≡◌, drop, map, take};
ghost use Rattle.rv_status.specs.Pages.{is_full};
ghost use Rattle.rv_status.specs.Rows.{first_numbers, kind_word, number_rows, reading_row};

use crate::answers::ANSWERS;

// How many calls there are: count, drain, peek, put, swap, take, transfer.
const CALLS: usize = 7;

/// How often each kind of fault came since the start.
#[derive(Clone, Copy)]
pub struct FaultCounts {
    /// Accepts that failed.
    pub accept: u64,
    /// Looks that found the account's file not in its place, or not as long as what was written to it.
    pub account: u64,
    /// Connections closed because their address had as many as it may have.
    pub address: u64,
    /// Turns in which the clock could not be read, so that time stood still.
    pub clock: u64,
    /// Accepts for which no descriptor was left.
    pub descriptor: u64,
    /// Connections closed because they said nothing and waited for nothing.
    pub idle: u64,
    /// Lines that standard error did not take.
    pub line: u64,
    /// Connections that broke.
    pub link: u64,
    /// Connections that found no memory.
    pub memory: u64,
    /// Connections closed because they held the most bytes when all held too much.
    pub most_held: u64,
    /// Connections closed in the middle of a frame, or because their peer took no answer.
    pub stall: u64,
    /// Turns in which lines of the account found no memory.
    pub unwritten: u64,
}

/// The numbers of a server at one moment.
#[derive(Clone, Copy)]
pub struct StatusNumbers {
    /// Bytes that were written to the account's file; 0 if there is none.
    pub account_bytes: u64,
    /// How many answers of each kind have left: refusals 1 to 12, and then the others by their words.
    pub answers: [u64; ANSWERS],
    /// Bytes that are held for all connections.
    pub buffer_bytes: u64,
    /// Bytes above which the connection that holds most is closed.
    pub buffer_limit: u64,
    /// How many requests of each call were recorded, in the order of the calls' words.
    pub calls: [u64; CALLS],
    /// Clients that said hello in this epoch.
    pub clients: u64,
    /// How many clients an epoch takes.
    pub clients_limit: u64,
    /// Connections that are open.
    pub connections: u64,
    /// How many may be open.
    pub connections_limit: u64,
    /// How many were accepted since the start.
    pub connections_opened: u64,
    /// Entries of the account.
    pub entries: u64,
    /// The epoch.
    pub epoch: u64,
    /// How often each kind of fault came.
    pub faults: FaultCounts,
    /// Items and requests that are open.
    pub open_places: u64,
    /// How many may be open.
    pub open_places_limit: u64,
    /// Requests that wait with no connection of their client.
    pub requests_unheard: u64,
    /// Requests that wait.
    pub requests_waiting: u64,
    /// Connections to the status address.
    pub status_connections: u64,
    /// Seconds since the start.
    pub uptime: u64,
}

impl StatusNumbers {
    /// Those of a server that starts: all are 0 except these limits and faults.
    pub fn new(clients_limit: u64, open_places_limit: u64, faults: FaultCounts) -> StatusNumbers
        ensures { result ≡ first_numbers clients_limit open_places_limit faults }
    {
        StatusNumbers {
            account_bytes: 0,
            answers: [0; ANSWERS],
            buffer_bytes: 0,
            buffer_limit: 0,
            calls: [0; CALLS],
            clients: 0,
            clients_limit,
            connections: 0,
            connections_limit: 0,
            connections_opened: 0,
            entries: 0,
            epoch: 0,
            faults,
            open_places: 0,
            open_places_limit,
            requests_unheard: 0,
            requests_waiting: 0,
            status_connections: 0,
            uptime: 0,
        }
    }

    // Whether new clients, items or connections find no place.
    pub(crate) fn is_full(&self) -> bool
        ensures { result ≡ is_full self.now }
    {
        self.clients >= self.clients_limit
            || self.open_places >= self.open_places_limit
            || self.connections >= self.connections_limit
    }
}

/// How a number changes.
#[derive(Clone, Copy)]
pub(crate) enum MetricKind {
    /// It only grows, until the server ends.
    Counter,
    /// It rises and falls.
    Gauge,
    /// It counts values by bounds.
    Histogram,
}

impl MetricKind {
    // Its word.
    pub(crate) fn word(self) -> &'static str
        ensures { result.now ≡ kind_word self }
    {
        match self {
            MetricKind::Counter => "counter",
            MetricKind::Gauge => "gauge",
            MetricKind::Histogram => "histogram",
        }
    }
}

/// A number as it is shown.
#[derive(Clone, Copy)]
pub(crate) struct StatusReading {
    pub(crate) name: &'static str,
    pub(crate) kind: MetricKind,
    pub(crate) help: &'static str,
    pub(crate) value: u64,
}

// The readings of a table, in each of whose rows are a number's kind, its name, its value and its meaning.
macro_rules! table {
    ($($kind:ident $name:literal = $value:expr, $help:literal;)*) => {
        [$(StatusReading {
            name: $name,
            kind: MetricKind::$kind,
            help: $help,
            value: $value,
        }),*]
    };
}

/// The first numbers, in the byte order of their names: from the account's to the epoch.
pub(crate) fn service_readings(numbers: &StatusNumbers) -> [StatusReading; 17]
    ensures { map reading_row result ≡ take 17 (number_rows numbers.now) }
{
    let calls = numbers.calls;
    table! {
        Counter "rv_account_bytes_total" = numbers.account_bytes,
            "Bytes written to the account file, none without one.";
        Gauge "rv_buffer_bytes" = numbers.buffer_bytes, "Bytes held for all connections.";
        Gauge "rv_buffer_limit_bytes" = numbers.buffer_limit,
            "Bytes above which the connection that holds most is closed.";
        Counter "rv_calls_count_total" = calls[0], "Counts that were recorded, each once.";
        Counter "rv_calls_drain_total" = calls[1], "Drains that were recorded, each once.";
        Counter "rv_calls_peek_total" = calls[2], "Peeks that were recorded, each once.";
        Counter "rv_calls_put_total" = calls[3], "Puts that were recorded, each once.";
        Counter "rv_calls_swap_total" = calls[4], "Swaps that were recorded, each once.";
        Counter "rv_calls_take_total" = calls[5], "Takes that were recorded, each once.";
        Counter "rv_calls_transfer_total" = calls[6], "Transfers that were recorded, each once.";
        Gauge "rv_clients" = numbers.clients, "Clients that said hello in this epoch.";
        Gauge "rv_clients_limit" = numbers.clients_limit, "How many clients an epoch takes.";
        Gauge "rv_connections" = numbers.connections, "Connections that are open.";
        Gauge "rv_connections_limit" = numbers.connections_limit, "How many connections may be open.";
        Counter "rv_connections_opened_total" = numbers.connections_opened, "Connections that were accepted.";
        Counter "rv_entries_total" = numbers.entries,
            "Entries of the account: hellos, requests, cancels, and moments at which waits ended.";
        Gauge "rv_epoch" = numbers.epoch, "The epoch, which is one start of the server.";
    }
}

/// The next ones: faults.
pub(crate) fn fault_readings(numbers: &StatusNumbers) -> [StatusReading; 12]
    ensures { map reading_row result ≡ take 12 (drop 17 (number_rows numbers.now)) }
{
    let faults = numbers.faults;
    table! {
        Counter "rv_fault_accept_total" = faults.accept, "Accepts that failed.";
        Counter "rv_fault_account_total" = faults.account,
            "Looks, one a second, that found the account file removed, renamed or cut.";
        Counter "rv_fault_address_total" = faults.address,
            "Connections closed since their address had as many as it may.";
        Counter "rv_fault_clock_total" = faults.clock,
            "Turns in which the clock could not be read, so that time stood still.";
        Counter "rv_fault_descriptor_total" = faults.descriptor, "Accepts for which no descriptor was left.";
        Counter "rv_fault_idle_total" = faults.idle,
            "Connections closed since they said nothing and waited for nothing.";
        Counter "rv_fault_line_total" = faults.line, "Lines that standard error did not take.";
        Counter "rv_fault_link_total" = faults.link, "Connections that broke.";
        Counter "rv_fault_memory_total" = faults.memory, "Connections that found no memory.";
        Counter "rv_fault_most_held_total" = faults.most_held,
            "Connections closed since they held most when all held too much.";
        Counter "rv_fault_stall_total" = faults.stall,
            "Connections closed in the middle of a frame, or since their peer took no answer.";
        Counter "rv_fault_unwritten_total" = faults.unwritten,
            "Turns in which lines of the account found no memory.";
    }
}

/// The next ones: open places, and refusals that left.
pub(crate) fn refusal_readings(numbers: &StatusNumbers) -> [StatusReading; 14]
    ensures { map reading_row result ≡ take 14 (drop 29 (number_rows numbers.now)) }
{
    let answers = numbers.answers;
    table! {
        Gauge "rv_open_places" = numbers.open_places, "Items and requests that are open.";
        Gauge "rv_open_places_limit" = numbers.open_places_limit, "How many items and requests may be open.";
        Counter "rv_refused_bad_text_total" = answers[0], "Refusals 1 that left: bodies that are no message.";
        Counter "rv_refused_busy_total" = answers[6],
            "Refusals 7 that left: requests while another one of the client waits.";
        Counter "rv_refused_clients_full_total" = answers[8],
            "Refusals 9 that left: hellos of new clients where there are --clients.";
        Counter "rv_refused_epoch_full_total" = answers[9],
            "Refusals 10 that left: requests for which no room is left (--open).";
        Counter "rv_refused_gap_total" = answers[7],
            "Refusals 8 that left: requests and cancels whose number leaves one out.";
        Counter "rv_refused_no_memory_total" = answers[10],
            "Refusals 11 that left: messages for which memory was refused.";
        Counter "rv_refused_no_session_total" = answers[2],
            "Refusals 3 that left: messages of a client with no session.";
        Counter "rv_refused_old_incarnation_total" = answers[3],
            "Refusals 4 that left: messages of an earlier incarnation.";
        Counter "rv_refused_old_number_total" = answers[4],
            "Refusals 5 that left: requests and cancels of an earlier number.";
        Counter "rv_refused_other_call_total" = answers[5],
            "Refusals 6 that left: requests of the last number with another call.";
        Counter "rv_refused_other_epoch_total" = answers[1],
            "Refusals 2 that left: messages of another epoch.";
        Counter "rv_refused_other_version_total" = answers[11],
            "Refusals 12 that left: hellos of another version than the session's.";
    }
}

/// The last ones: requests that wait, other answers that left, and the time since the start.
pub(crate) fn answer_readings(numbers: &StatusNumbers) -> [StatusReading; 16]
    ensures { map reading_row result ≡ take 16 (drop 43 (number_rows numbers.now)) }
{
    let answers = numbers.answers;
    table! {
        Gauge "rv_requests_unheard" = numbers.requests_unheard,
            "Requests that wait with no connection of their client.";
        Gauge "rv_requests_waiting" = numbers.requests_waiting, "Requests that wait.";
        Gauge "rv_status_connections" = numbers.status_connections, "Connections to this page that are open.";
        Counter "rv_told_cancelled_total" = answers[12], "Answers that left: that a request was cancelled.";
        Counter "rv_told_counted_total" = answers[13],
            "Answers that left: how many items and consumers there are.";
        Counter "rv_told_done_total" = answers[14], "Answers that left: that an item was put.";
        Counter "rv_told_drained_total" = answers[15], "Answers that left: items that were drained.";
        Counter "rv_told_empty_total" = answers[16], "Answers that left: that nothing was there.";
        Counter "rv_told_item_total" = answers[17], "Answers that left: an item.";
        Counter "rv_told_nobody_total" = answers[18], "Answers that left: that nobody took an item.";
        Counter "rv_told_peeked_total" = answers[19], "Answers that left: an item that stays.";
        Counter "rv_told_received_total" = answers[20], "Answers that left: that an item was received.";
        Counter "rv_told_swapped_total" = answers[21], "Answers that left: an item that was swapped.";
        Counter "rv_told_timed_out_total" = answers[22], "Answers that left: that a wait timed out.";
        Counter "rv_told_waiting_total" = answers[23], "Answers that left: that a request still waits.";
        Gauge "rv_uptime_seconds" = numbers.uptime, "Seconds since the start.";
    }
}
