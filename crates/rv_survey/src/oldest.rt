//! The oldest of all requests, with one row for each client.
ghost use Rattle.std.specs.Prelude.{◌≡◌, ◌<◌, ◌≤◌, IfSome, OnErr, OnOk, length, position, unwrap_or};
ghost use Rattle.rv_survey.specs.Oldest.{is_later, renewed, with_row, without_client};

use rv_status::WaitingRow;
use std::alloc::AllocError;

// A list has so many rows at most.
const MOST: usize = 100;

/// Replaces a client's rows in a list with the row that it has now, if any, after all that are as old or
/// older. The first 100 are kept. If memory is refused, the client has no row. It is never refused once the
/// list had room for 101 rows.
pub fn renew(
    rows: &mut Vec<WaitingRow>,
    client: u64,
    row: Option<WaitingRow>,
) -> Result<(), AllocError>
    ensures renewed { OnOk result (rows.new.items ≡ renewed client row rows.old.items) }
    ensures refused { OnErr result (rows.new.items ≡ without_client client rows.old.items) }
{
    forget(rows, client);
    match row {
        Some(row) => keep(rows, row),
        None => Ok(()),
    }
}

// Takes out the rows of a client.
fn forget(rows: &mut Vec<WaitingRow>, client: u64)
    ensures { rows.new.items ≡ without_client client rows.old.items }
{
    rows.retain(|other| other.client != client);
}

// Inserts a row, and keeps the first 100.
fn keep(rows: &mut Vec<WaitingRow>, row: WaitingRow) -> Result<(), AllocError>
    ensures kept { OnOk result (rows.new.items ≡ with_row row rows.old.items) }
    ensures refused { OnErr result (rows.new.items ≡ rows.old.items) }
{
    rows.insert(place_for(rows, row.since), row)?;
    rows.truncate(MOST);
    Ok(())
}

// In front of the first that is later, or after all.
fn place_for(rows: &[WaitingRow], since: u64) -> usize
    ensures place { result ≡ unwrap_or (position (is_later since) rows.now) (length rows.now) }
    ensures within { result ≤ length rows.now }
{
    match first_later(rows, since) {
        Some(place) => place,
        None => rows.len(),
    }
}

// The first that is later.
fn first_later(rows: &[WaitingRow], since: u64) -> Option<usize>
    ensures first { result ≡ position (is_later since) rows.now }
    ensures within { IfSome result (λ place. place < length rows.now) }
{
    rows.iter().position(|other| since < other.since)
}
