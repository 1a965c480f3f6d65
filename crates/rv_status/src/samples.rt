//! Samples of the last ten minutes.
ghost use Rattle.std.specs.Prelude.{◌≡◌, ◌↔◌, ◌≤◌, IsTrue, OnErr, OnOk, vec_capacity, vec_len};
ghost use Rattle.rv_status.specs.Samples.{IsSampleDue, Samples, kept_samples};

use crate::status::StatusSample;
use std::alloc::AllocError;

// The seconds between two samples, and how many are kept.
const PAUSE: u64 = 10;

const MOST: usize = 61;

/// Adds a sample after the others, if ten seconds have passed since the last one, and keeps the last 61.
/// Fails only if memory was refused, and never where the list has room for one more.
pub fn take_sample(history: &mut Vec<StatusSample>, sample: StatusSample) -> Result<(), AllocError>
    ensures taken { OnOk result (Samples history.old.items sample history.new.items) }
    ensures refused { OnErr result (history.new.items ≡ history.old.items) }
    ensures full { OnErr result (vec_capacity history.old ≤ vec_len history.old) }
{
    if !is_due(history.as_slice(), sample.second) {
        return Ok(());
    }
    history.push(sample)?;
    forget_oldest(history);
    Ok(())
}

// Forgets the oldest, if there are more than are kept.
fn forget_oldest(history: &mut Vec<StatusSample>)
    ensures { history.new.items ≡ kept_samples history.old.items }
{
    if history.len() > MOST {
        history.remove(0);
    }
}

// Whether a sample is to be taken at a moment.
fn is_due(history: &[StatusSample], second: u64) -> bool
    ensures { IsTrue result ↔ IsSampleDue history.now second }
{
    match history.last() {
        Some(last) => second.saturating_sub(last.second) >= PAUSE,
        None => true,
    }
}
