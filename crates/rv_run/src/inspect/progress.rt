//! The line that says how far a reading is.
ghost use Rattle.std.specs.Prelude.{◌≡◌, ◌≢◌, IfOk, string_bytes};
ghost use Rattle.rv_run.specs.inspect.Progress.{read_of_text, read_text, seconds_left};

use rv_text::NoMemory;
use std::alloc::Global;

// How many bytes a megabyte has.
const MEGABYTE: u64 = 1_000_000;

/// How many lines and how many bytes were read. If the size isn't 0, also how many bytes there are in all,
/// and about how many seconds the rest takes, if each byte takes as long as those before.
pub fn progress_text(
    alloc: Global,
    lines: u64,
    bytes: u64,
    size: u64,
    seconds: u64,
) -> Result<String, NoMemory>
    ensures unknown { size ≡ 0 → IfOk result (λ s. string_bytes s ≡ read_text lines bytes) }
    ensures known { size ≢ 0 →
        IfOk result (λ s. string_bytes s ≡ read_of_text lines bytes size seconds) }
{
    let read = bytes / MEGABYTE;
    if size == 0 {
        return format!(in alloc; "{lines} lines, {read} MB");
    }
    let (all, left) = (size / MEGABYTE, seconds_left(bytes, size, seconds));
    format!(in alloc; "{lines} lines, {read} of {all} MB, about {left} s still")
}

// About how many seconds the rest of so many bytes takes, if the first took so many.
fn seconds_left(bytes: u64, size: u64, seconds: u64) -> u128
    ensures { result ≡ seconds_left bytes size seconds }
{
    if bytes == 0 {
        return 0;
    }
    let rest = size.saturating_sub(bytes) as u128;
    rest * seconds as u128 / bytes as u128
}
