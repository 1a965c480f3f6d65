//! What a server's status says of the requests that wait with no connection.
ghost use Rattle.std.specs.Prelude.{◌≡◌, ◌++◌, ◌∷◌, [], ℕ, codes, None, Err, IfOk, IfSome, List, map, OnOk};
ghost use Rattle.std.specs.Prelude.{option_and_then, option_map, Some};
ghost use Rattle.std.specs.List.{All};
ghost use Rattle.rv_text.specs.Limits.{FitsIdentifier};
ghost use Rattle.rv_json.specs.Bodies.{IsNotJson, Reads};
ghost use Rattle.serde_json.specs.Find.{as_array, as_number, as_str, as_u64, get};
ghost use Rattle.serde_json.specs.View.{items_view, view};
ghost use Rattle.rv_status.specs.Values.{call_word};
ghost use Rattle.rv_status.specs.declared.status.CallKind.{CallKind};
ghost use Rattle.rv_status.specs.declared.status.WaitingRow.{WaitingRow};
ghost use Rattle.rv_end.specs.Told.{AreRows, GivesStatus, IsRow, IsStatusText, Tells, told_number};
ghost use Rattle.rv_end.specs.declared.fault.StatusFault.TheVariants.{NoMemory, NotUnderstood};

use crate::fault::StatusFault;
use rv_status::{CallKind, WaitingRow};
use rv_text::MAX_IDENTIFIER;
use serde_json::Value;
use std::alloc::{AllocError, Global};

/// What a server's status says, as far as it matters for ending requests.
#[derive(Drop)]
pub struct StatusTold {
    /// The seconds since its start.
    pub uptime: u64,
    /// How many clients said hello in its epoch.
    pub clients: u64,
    /// Requests that wait with no connection, the oldest first. Each says since when it was found so, and its
    /// client and incarnation are from 1 to 2^53 - 1.
    pub unheard: Vec<WaitingRow>,
}

/// Reads the text of a status.
pub(crate) fn read_told(alloc: Global, text: &[u8]) -> Result<StatusTold, StatusFault>
    ensures { GivesStatus (IsStatusText text.now) result }
{
    let value = value_of(alloc, text)?;
    told_in(alloc, &value)
}

// The JSON value of a text.
fn value_of(alloc: Global, text: &[u8]) -> Result<Value, StatusFault>
    ensures value { IfOk result (λ value. Reads text.now (view value)) }
    ensures not_json { result ≡ Err NotUnderstood → IsNotJson text.now }
    ensures sure { (fault : _) → result ≡ Err fault → ¬ (fault ≡ NotUnderstood) → fault ≡ NoMemory }
{
    match Value::from_slice(alloc, text) {
        Ok(value) => Ok(value),
        Err(error) if error.is_memory() => Err(StatusFault::NoMemory),
        Err(_) => Err(StatusFault::NotUnderstood),
    }
}

// What the value says.
fn told_in(alloc: Global, value: &Value) -> Result<StatusTold, StatusFault>
    ensures { GivesStatus (Tells (view value.now)) result }
{
    let (Some(uptime), Some(clients), Some(rows)) = (
        number_at(value, "rv_uptime_seconds"),
        number_at(value, "rv_clients"),
        rows_at(value),
    ) else {
        return Err(StatusFault::NotUnderstood);
    };
    match read_rows(alloc, rows) {
        Ok(unheard) => Ok(StatusTold {
            uptime,
            clients,
            unheard,
        }),
        Err(fault) => Err(fault),
    }
}

// The number of this name.
fn number_at(value: &Value, name: &str) -> Option<u64>
    ensures { result ≡ told_number name.now (view value.now) }
{
    value.get("numbers")?.get(name)?.as_u64()
}

// The list of the requests that wait with no connection.
fn rows_at(value: &Value) -> Option<&[Value]>
    ensures { option_map (λ values. items_view values.now) result
        ≡ option_and_then as_array (get (codes "unheard") (view value.now)) }
{
    Some(value.get("unheard")?.as_array()?.as_slice())
}

// The rows that the values are.
fn read_rows(alloc: Global, values: &[Value]) -> Result<Vec<WaitingRow>, StatusFault>
    ensures rows { IfOk result (λ rows. AreRows (map view values.now) rows.items) }
    ensures other { result ≡ Err NotUnderstood → (rows : List WaitingRow)
        → ¬ AreRows (map view values.now) rows }
    ensures sure { (fault : _) → result ≡ Err fault → ¬ (fault ≡ NotUnderstood) → fault ≡ NoMemory }
{
    let mut rows = Vec::new(alloc);
    for value in values {
        let Some(row) = read_row(value) else {
            return Err(StatusFault::NotUnderstood);
        };
        put(&mut rows, row)?;
    }
    Ok(rows)
}

// Puts a row after the others.
fn put(rows: &mut Vec<WaitingRow>, row: WaitingRow) -> Result<(), AllocError>
    ensures { OnOk result (rows.new.items ≡ rows.old.items ++ row ∷ []) }
{
    rows.push(row)?;
    Ok(())
}

// The row that a value is.
fn read_row(value: &Value) -> Option<WaitingRow>
    ensures some { IfSome result (IsRow (view value.now)) }
    ensures none { result ≡ None → (row : WaitingRow) → ¬ IsRow (view value.now) row }
{
    match value.as_array()?.as_slice() {
        [call, at, since, client, incarnation, number, unheard] => Some(WaitingRow {
            call: call_of(call)?,
            at: at.as_u64()?,
            since: since.as_u64()?,
            client: identifier_of(client)?,
            incarnation: identifier_of(incarnation)?,
            number: number.as_u64()?,
            unheard: Some(unheard.as_u64()?),
        }),
        _ => None,
    }
}

// The call whose word a value is.
fn call_of(value: &Value) -> Option<CallKind>
    ensures some { IfSome result (λ call. as_str (view value.now) ≡ Some (call_word call)) }
    ensures none { result ≡ None → (call : CallKind) → ¬ (as_str (view value.now) ≡ Some (call_word call)) }
{
    let word = value.as_str()?;
    [CallKind::Transfer, CallKind::Take, CallKind::Swap]
        .into_iter()
        .find(|call| call.word() == word)
}

// The identifier that a value is.
fn identifier_of(value: &Value) -> Option<u64>
    ensures some { IfSome result (λ n. (option_and_then as_u64 (as_number (view value.now)) ≡ Some n)
        × FitsIdentifier n) }
    ensures none { result ≡ None → (n : ℕ) → option_and_then as_u64 (as_number (view value.now)) ≡ Some n
        → ¬ FitsIdentifier n }
{
    let n = value.as_u64()?;
    if 1 <= n && n <= MAX_IDENTIFIER {
        Some(n)
    } else {
        None
    }
}
