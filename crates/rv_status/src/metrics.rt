//! The numbers as Prometheus reads them: for each one, a line with its meaning, its kind and its value.
ghost use Rattle.std.specs.Prelude.{◌≡◌, ◌++◌, flat_map, IfOk, OnOk, string_bytes};
ghost use Rattle.rv_status.specs.Histograms.{bucket_text, digits_text, part_text, seconds_text, totals_text};
ghost use Rattle.rv_status.specs.Histograms.{values_text};
ghost use Rattle.rv_status.specs.Rows.{number_rows, reading_row};
ghost use Rattle.rv_status.specs.Texts.{
  build_text,
  families_text,
  family_text,
  family_head,
  histogram_text,
  labelled_text,
  metrics_text,
  others_text,
  row_text,
  side_help,
  side_name,
  times_text,
  value_on,
  version_text,
};

use crate::histogram::{Bucket, Histogram};
use crate::numbers::{
    MetricKind, StatusNumbers, StatusReading, answer_readings, fault_readings, refusal_readings,
    service_readings,
};
use crate::status::{HostStatus, QueueRow, StatusTimes};
use std::alloc::{AllocError, Global};

// The room that a text begins with: most need no more.
const ROOM: usize = 16_384;

const BUILD: &str = "rv_build_info";

/// The sides of a queue.
#[derive(Clone, Copy)]
pub(crate) enum QueueSide {
    /// Its items.
    Items,
    /// Its consumers.
    Consumers,
}

impl QueueSide {
    // The name of its values.
    fn name(self) -> &'static str
        ensures { result.now ≡ side_name self }
    {
        match self {
            QueueSide::Items => "rv_queue_items",
            QueueSide::Consumers => "rv_queue_consumers",
        }
    }

    // What they mean.
    fn help(self) -> &'static str
        ensures { result.now ≡ side_help self }
    {
        match self {
            QueueSide::Items => "Items that wait.",
            QueueSide::Consumers => "Consumers that wait.",
        }
    }

    // How many wait on it.
    fn value(self, row: &QueueRow) -> u64
        ensures { result ≡ value_on self row.now }
    {
        match self {
            QueueSide::Items => row.items,
            QueueSide::Consumers => row.consumers,
        }
    }
}

/// The text of the metrics. Fails only if memory was refused.
pub fn metrics_of(alloc: Global, status: &HostStatus) -> Result<Vec<u8>, AllocError>
    ensures { IfOk result (λ text. text.items ≡ metrics_text status.now) }
{
    let mut text = String::with_capacity(alloc, ROOM)?;
    put_all(&mut text, status)?;
    put_others(&mut text, status)?;
    Ok(text.into_bytes())
}

// How long turns and answers took, and the build.
fn put_others(text: &mut String, status: &HostStatus) -> Result<(), AllocError>
    ensures { OnOk result (string_bytes text.new ≡ string_bytes text.old ++ others_text status.now) }
{
    put_times(text, &status.times)?;
    put_build(text, status.version)
}

// The version of the build, as a label.
fn put_build(text: &mut String, version: &str) -> Result<(), AllocError>
    ensures { OnOk result (string_bytes text.new ≡ string_bytes text.old ++ build_text version.now) }
{
    put_head(text, BUILD, "The version of this build.", MetricKind::Gauge)?;
    put_version(text, version)
}

// The line of the version.
fn put_version(text: &mut String, version: &str) -> Result<(), AllocError>
    ensures { OnOk result (string_bytes text.new ≡ string_bytes text.old ++ version_text version.now) }
{
    write!(text, "{BUILD}{{version=\"{version}\"}} 1\n")
}

// All numbers, and the values of both sides of each queue.
fn put_all(text: &mut String, status: &HostStatus) -> Result<(), AllocError>
    ensures { OnOk result (string_bytes text.new ≡ string_bytes text.old ++ families_text status.now) }
{
    put_numbers(text, &status.numbers)?;
    put_family(text, QueueSide::Items, status.queues.as_slice())?;
    put_family(text, QueueSide::Consumers, status.queues.as_slice())
}

// The lines of all numbers.
fn put_numbers(text: &mut String, numbers: &StatusNumbers) -> Result<(), AllocError>
    ensures { OnOk result (string_bytes text.new
        ≡ string_bytes text.old ++ flat_map row_text (number_rows numbers.now)) }
{
    put_readings(text, &service_readings(numbers))?;
    put_readings(text, &fault_readings(numbers))?;
    put_readings(text, &refusal_readings(numbers))?;
    put_readings(text, &answer_readings(numbers))
}

// The lines of each reading.
fn put_readings(text: &mut String, readings: &[StatusReading]) -> Result<(), AllocError>
    ensures { OnOk result (string_bytes text.new
        ≡ string_bytes text.old ++ flat_map (λ r. row_text (reading_row r)) readings.now) }
{
    for reading in readings {
        put_reading(text, reading)?;
    }
    Ok(())
}

// Its meaning, its kind and its value.
fn put_reading(text: &mut String, reading: &StatusReading) -> Result<(), AllocError>
    ensures { OnOk result (string_bytes text.new
        ≡ string_bytes text.old ++ row_text (reading_row reading.now)) }
{
    put_head(text, reading.name, reading.help, reading.kind)?;
    let (name, value) = (reading.name, reading.value);
    write!(text, "{name} {value}\n")
}

// What a name means, and its kind.
fn put_head(text: &mut String, name: &str, help: &str, kind: MetricKind) -> Result<(), AllocError>
    ensures { OnOk result (string_bytes text.new
        ≡ string_bytes text.old ++ family_head name.now help.now kind) }
{
    let word = kind.word();
    write!(text, "# HELP {name} {help}\n# TYPE {name} {word}\n")
}

// The values of one side of the queues.
fn put_family(text: &mut String, side: QueueSide, rows: &[QueueRow]) -> Result<(), AllocError>
    ensures { OnOk result (string_bytes text.new ≡ string_bytes text.old ++ family_text side rows.now) }
{
    put_head(text, side.name(), side.help(), MetricKind::Gauge)?;
    put_values(text, side, rows)
}

fn put_values(text: &mut String, side: QueueSide, rows: &[QueueRow]) -> Result<(), AllocError>
    ensures { OnOk result (string_bytes text.new
        ≡ string_bytes text.old ++ flat_map (labelled_text side) rows.now) }
{
    for row in rows {
        put_value(text, side, row)?;
    }
    Ok(())
}

// One of them.
fn put_value(text: &mut String, side: QueueSide, row: &QueueRow) -> Result<(), AllocError>
    ensures { OnOk result (string_bytes text.new ≡ string_bytes text.old ++ labelled_text side row.now) }
{
    let (name, queue, value) = (side.name(), row.queue, side.value(row));
    write!(text, "{name}{{queue=\"{queue}\"}} {value}\n")
}

// The lines of both histograms.
fn put_times(text: &mut String, times: &StatusTimes) -> Result<(), AllocError>
    ensures { OnOk result (string_bytes text.new ≡ string_bytes text.old ++ times_text times.now) }
{
    put_histogram(
        text,
        "rv_turn_seconds",
        "How long turns took, from the end of their poll to their end.",
        &times.turns,
    )?;
    put_histogram(
        text,
        "rv_answer_seconds",
        "How long requests stood first of their connection until their answer left.",
        &times.answers,
    )
}

// Those of one: its meaning and its kind, and its values.
fn put_histogram(
    text: &mut String,
    name: &str,
    help: &str,
    histogram: &Histogram,
) -> Result<(), AllocError>
    ensures { OnOk result (string_bytes text.new
        ≡ string_bytes text.old ++ histogram_text name.now help.now histogram.now) }
{
    put_head(text, name, help, MetricKind::Histogram)?;
    put_observed(text, name, histogram)
}

// How many values are at most each bound, and all of them.
fn put_observed(text: &mut String, name: &str, histogram: &Histogram) -> Result<(), AllocError>
    ensures { OnOk result (string_bytes text.new
        ≡ string_bytes text.old ++ values_text name.now histogram.now) }
{
    put_buckets(text, name, &histogram.buckets)?;
    put_totals(text, name, histogram)
}

fn put_buckets(text: &mut String, name: &str, buckets: &[Bucket]) -> Result<(), AllocError>
    ensures { OnOk result (string_bytes text.new
        ≡ string_bytes text.old ++ flat_map (bucket_text name.now) buckets.now) }
{
    for bucket in buckets {
        put_bucket(text, name, bucket)?;
    }
    Ok(())
}

// How many are at most one bound.
fn put_bucket(text: &mut String, name: &str, bucket: &Bucket) -> Result<(), AllocError>
    ensures { OnOk result (string_bytes text.new
        ≡ string_bytes text.old ++ bucket_text name.now bucket.now) }
{
    write!(text, "{name}_bucket{{le=\"")?;
    put_seconds(text, bucket.bound)?;
    let count = bucket.count;
    write!(text, "\"}} {count}\n")
}

// How many there are, and their sum.
fn put_totals(text: &mut String, name: &str, histogram: &Histogram) -> Result<(), AllocError>
    ensures { OnOk result (string_bytes text.new
        ≡ string_bytes text.old ++ totals_text name.now histogram.now) }
{
    let count = histogram.count;
    write!(text, "{name}_bucket{{le=\"+Inf\"}} {count}\n{name}_sum ")?;
    put_seconds(text, histogram.sum)?;
    write!(text, "\n{name}_count {count}\n")
}

// Microseconds, as seconds.
fn put_seconds(text: &mut String, micros: u64) -> Result<(), AllocError>
    ensures { OnOk result (string_bytes text.new ≡ string_bytes text.old ++ seconds_text micros) }
{
    let whole = micros / 1_000_000;
    write!(text, "{whole}")?;
    put_part(text, micros % 1_000_000)
}

// The part of a second that follows its point, if there is one.
fn put_part(text: &mut String, rest: u64) -> Result<(), AllocError>
    ensures { OnOk result (string_bytes text.new ≡ string_bytes text.old ++ part_text rest) }
{
    if rest == 0 {
        return Ok(());
    }
    write!(text, ".")?;
    put_digits(text, 6, rest)
}

// Its digits, of so many places at most.
fn put_digits(text: &mut String, places: u32, rest: u64) -> Result<(), AllocError>
    ensures { OnOk result (string_bytes text.new ≡ string_bytes text.old ++ digits_text places rest) }
{
    if places == 0 || rest == 0 {
        return Ok(());
    }
    let digit = rest / 100_000;
    write!(text, "{digit}")?;
    put_digits(text, places - 1, rest % 100_000 * 10)
}
