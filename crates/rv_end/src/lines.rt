//! The lines that say what came of requests.
ghost use Rattle.std.specs.Prelude.{◌≡◌, IfOk, string_bytes};
ghost use Rattle.rv_end.specs.Lines.{PrintsLine, ending_text, key_text, line_text, place_text};
ghost use Rattle.rv_end.specs.Lines.{seconds_alone};

use crate::ending::Ending;
use rv_frame::Sink;
use rv_run::{OutputFault, RunFault};
use rv_status::WaitingRow;
use rv_text::NoMemory;
use std::alloc::Global;
use std::io::Write;

/// Prints the line of a request, in one write: client, incarnation, number, call, the number of its queue or
/// exchanger, for how many seconds it had no connection, on a server that is `uptime` seconds old, and what
/// came of it.
///
/// If the write failed, a part of the line may have gone out; if memory was refused, nothing did.
pub fn tell_ending<O: Write>(
    alloc: Global,
    out: &mut Sink<O>,
    row: &WaitingRow,
    uptime: u64,
    ending: Ending,
) -> Result<(), RunFault>
    ensures { PrintsLine O.contents (line_text row.now uptime ending) out.old out.new result }
{
    let line = line(alloc, row, uptime, ending)?;
    match out.write_all(line.as_bytes()) {
        Ok(()) => Ok(()),
        Err(fault) => Err(RunFault::WriteFault(OutputFault {
            sent: fault.sent as u128,
        })),
    }
}

// The line, with its LF.
fn line(alloc: Global, row: &WaitingRow, uptime: u64, ending: Ending) -> Result<String, NoMemory>
    ensures { IfOk result (λ text. string_bytes text ≡ line_text row.now uptime ending) }
{
    let key = key_text(alloc, row)?;
    let place = place_text(alloc, row, uptime)?;
    let what = ending_text(alloc, ending)?;
    format!(in alloc; "{key} {place} {what}\n")
}

// The key of a request.
fn key_text(alloc: Global, row: &WaitingRow) -> Result<String, NoMemory>
    ensures { IfOk result (λ text. string_bytes text ≡ key_text row.now) }
{
    let (client, incarnation, number) = (row.client, row.incarnation, row.number);
    format!(in alloc; "{client} {incarnation} {number}")
}

// Where a request waits, and for how long alone.
fn place_text(alloc: Global, row: &WaitingRow, uptime: u64) -> Result<String, NoMemory>
    ensures { IfOk result (λ text. string_bytes text ≡ place_text row.now uptime) }
{
    let (call, at) = (row.call.word(), row.at);
    let seconds = seconds_alone(row, uptime);
    format!(in alloc; "{call} {at} {seconds}")
}

// What came of it.
fn ending_text(alloc: Global, ending: Ending) -> Result<String, NoMemory>
    ensures { IfOk result (λ text. string_bytes text ≡ ending_text ending) }
{
    match ending {
        Ending::Ended => String::from_str(alloc, "ended"),
        Ending::Replaced(current) => format!(in alloc; "replaced {current}"),
        Ending::Refused(refusal) => format!(in alloc; "refused {}", refusal.code()),
        Ending::Kept => String::from_str(alloc, "kept"),
        Ending::NoAnswer => String::from_str(alloc, "no answer"),
    }
}

// For how many seconds a request had no connection.
fn seconds_alone(row: &WaitingRow, uptime: u64) -> u64
    ensures { result ≡ seconds_alone row.now.unheard uptime }
{
    match row.unheard {
        Some(since) => uptime.saturating_sub(since / 1_000),
        None => 0,
    }
}
