//! The status as JSON: an object of the numbers by their names, and lists of rows.
ghost use Rattle.std.specs.Prelude.{◌≡◌, [], ◌∷◌, ◌++◌, codes, flat_map, IfOk, map, OnOk};
ghost use Rattle.json.specs.Token.{key};
ghost use Rattle.serde_json.specs.Written.{compact_text};
ghost use Rattle.rv_status.specs.Rows.{number_rows, reading_row};
ghost use Rattle.rv_status.specs.Values.{
  cell_token,
  list_tokens,
  number_tokens,
  numbers_value,
  queue_value,
  request_cells,
  sample_value,
  status_value,
  tokens_of,
  version_tokens,
  waiting_value,
};

use crate::numbers::{
    StatusNumbers, StatusReading, answer_readings, fault_readings, refusal_readings,
    service_readings,
};
use crate::status::{HostStatus, QueueRow, StatusSample, WaitingRow};
use json::Writer;
use std::alloc::{AllocError, Global};

// The room that a text begins with: most need no more.
const ROOM: usize = 16_384;

/// The text of the status, with no white space. Fails only if memory was refused.
pub fn status_json(alloc: Global, status: &HostStatus) -> Result<Vec<u8>, AllocError>
    ensures { IfOk result (λ text. text.items ≡ compact_text (status_value status.now)) }
{
    let mut writer = Writer::new(Vec::with_capacity(alloc, ROOM)?);
    put_status(&mut writer, status)?;
    Ok(writer.into_inner())
}

// The whole object.
fn put_status(writer: &mut Writer, status: &HostStatus) -> Result<(), AllocError>
    ensures tokens { OnOk result (writer.new.tokens
        ≡ writer.old.tokens ++ tokens_of (status_value status.now)) }
    ensures before { writer.new.before ≡ writer.old.before }
{
    writer.begin_object()?;
    put_history(writer, status.history.as_slice())?;
    put_numbers(writer, &status.numbers)?;
    put_queues(writer, status.queues.as_slice())?;
    put_requests(writer, "unheard", status.unheard.as_slice())?;
    put_version(writer, status.version)?;
    put_requests(writer, "waiting", status.waiting.as_slice())?;
    writer.end_object()
}

// The member of the version.
fn put_version(writer: &mut Writer, version: &str) -> Result<(), AllocError>
    ensures tokens { OnOk result (writer.new.tokens ≡ writer.old.tokens ++ version_tokens version.now) }
    ensures before { writer.new.before ≡ writer.old.before }
{
    writer.key("version")?;
    writer.string(version)
}

// The member of the samples.
fn put_history(writer: &mut Writer, rows: &[StatusSample]) -> Result<(), AllocError>
    ensures tokens { OnOk result (writer.new.tokens
        ≡ writer.old.tokens ++ list_tokens (codes "history") (map sample_value rows.now)) }
    ensures before { writer.new.before ≡ writer.old.before }
{
    writer.key("history")?;
    writer.begin_array()?;
    put_samples(writer, rows)?;
    writer.end_array()
}

fn put_samples(writer: &mut Writer, rows: &[StatusSample]) -> Result<(), AllocError>
    ensures tokens { OnOk result (writer.new.tokens
        ≡ writer.old.tokens ++ flat_map (λ row. tokens_of (sample_value row)) rows.now) }
    ensures before { writer.new.before ≡ writer.old.before }
{
    for row in rows {
        put_sample(writer, row)?;
    }
    Ok(())
}

fn put_sample(writer: &mut Writer, row: &StatusSample) -> Result<(), AllocError>
    ensures tokens { OnOk result (writer.new.tokens
        ≡ writer.old.tokens ++ tokens_of (sample_value row.now)) }
    ensures before { writer.new.before ≡ writer.old.before }
{
    writer.begin_array()?;
    put_cells(writer, &[row.second, row.entries, row.places, row.account])?;
    writer.end_array()
}

// The member of the numbers.
fn put_numbers(writer: &mut Writer, numbers: &StatusNumbers) -> Result<(), AllocError>
    ensures tokens { OnOk result (writer.new.tokens ≡ writer.old.tokens
        ++ key (codes "numbers") ∷ tokens_of (numbers_value (number_rows numbers.now))) }
    ensures before { writer.new.before ≡ writer.old.before }
{
    writer.key("numbers")?;
    writer.begin_object()?;
    put_each_number(writer, numbers)?;
    writer.end_object()
}

fn put_each_number(writer: &mut Writer, numbers: &StatusNumbers) -> Result<(), AllocError>
    ensures tokens { OnOk result (writer.new.tokens
        ≡ writer.old.tokens ++ flat_map number_tokens (number_rows numbers.now)) }
    ensures before { writer.new.before ≡ writer.old.before }
{
    put_readings(writer, &service_readings(numbers))?;
    put_readings(writer, &fault_readings(numbers))?;
    put_readings(writer, &refusal_readings(numbers))?;
    put_readings(writer, &answer_readings(numbers))
}

fn put_readings(writer: &mut Writer, readings: &[StatusReading]) -> Result<(), AllocError>
    ensures tokens { OnOk result (writer.new.tokens
        ≡ writer.old.tokens ++ flat_map (λ r. number_tokens (reading_row r)) readings.now) }
    ensures before { writer.new.before ≡ writer.old.before }
{
    for reading in readings {
        put_reading(writer, reading)?;
    }
    Ok(())
}

fn put_reading(writer: &mut Writer, reading: &StatusReading) -> Result<(), AllocError>
    ensures tokens { OnOk result (writer.new.tokens
        ≡ writer.old.tokens ++ number_tokens (reading_row reading.now)) }
    ensures before { writer.new.before ≡ writer.old.before }
{
    writer.key(reading.name)?;
    writer.u64(reading.value)
}

// The member of the queues.
fn put_queues(writer: &mut Writer, rows: &[QueueRow]) -> Result<(), AllocError>
    ensures tokens { OnOk result (writer.new.tokens
        ≡ writer.old.tokens ++ list_tokens (codes "queues") (map queue_value rows.now)) }
    ensures before { writer.new.before ≡ writer.old.before }
{
    writer.key("queues")?;
    writer.begin_array()?;
    put_each_queue(writer, rows)?;
    writer.end_array()
}

fn put_each_queue(writer: &mut Writer, rows: &[QueueRow]) -> Result<(), AllocError>
    ensures tokens { OnOk result (writer.new.tokens
        ≡ writer.old.tokens ++ flat_map (λ row. tokens_of (queue_value row)) rows.now) }
    ensures before { writer.new.before ≡ writer.old.before }
{
    for row in rows {
        put_queue(writer, row)?;
    }
    Ok(())
}

fn put_queue(writer: &mut Writer, row: &QueueRow) -> Result<(), AllocError>
    ensures tokens { OnOk result (writer.new.tokens
        ≡ writer.old.tokens ++ tokens_of (queue_value row.now)) }
    ensures before { writer.new.before ≡ writer.old.before }
{
    writer.begin_array()?;
    put_cells(writer, &[row.queue, row.items, row.consumers])?;
    writer.end_array()
}

// The member of requests that wait.
fn put_requests(writer: &mut Writer, name: &str, rows: &[WaitingRow]) -> Result<(), AllocError>
    ensures tokens { OnOk result (writer.new.tokens
        ≡ writer.old.tokens ++ list_tokens name.now (map waiting_value rows.now)) }
    ensures before { writer.new.before ≡ writer.old.before }
{
    writer.key(name)?;
    writer.begin_array()?;
    put_each_request(writer, rows)?;
    writer.end_array()
}

fn put_each_request(writer: &mut Writer, rows: &[WaitingRow]) -> Result<(), AllocError>
    ensures tokens { OnOk result (writer.new.tokens
        ≡ writer.old.tokens ++ flat_map (λ row. tokens_of (waiting_value row)) rows.now) }
    ensures before { writer.new.before ≡ writer.old.before }
{
    for row in rows {
        put_request(writer, row)?;
    }
    Ok(())
}

fn put_request(writer: &mut Writer, row: &WaitingRow) -> Result<(), AllocError>
    ensures tokens { OnOk result (writer.new.tokens
        ≡ writer.old.tokens ++ tokens_of (waiting_value row.now)) }
    ensures before { writer.new.before ≡ writer.old.before }
{
    writer.begin_array()?;
    writer.string(row.call.word())?;
    put_request_cells(writer, row)?;
    writer.end_array()
}

// The numbers of a request's row.
fn put_request_cells(writer: &mut Writer, row: &WaitingRow) -> Result<(), AllocError>
    ensures tokens { OnOk result (writer.new.tokens
        ≡ writer.old.tokens ++ map cell_token (request_cells row.now)) }
    ensures before { writer.new.before ≡ writer.old.before }
{
    put_cells(
        writer,
        &[row.at, row.since, row.client, row.incarnation, row.number],
    )?;
    put_cells(writer, row.unheard.as_slice())
}

// Numbers of a row.
fn put_cells(writer: &mut Writer, cells: &[u64]) -> Result<(), AllocError>
    ensures tokens { OnOk result (writer.new.tokens ≡ writer.old.tokens ++ map cell_token cells.now) }
    ensures before { writer.new.before ≡ writer.old.before }
{
    for cell in cells {
        writer.u64(*cell)?;
    }
    Ok(())
}
