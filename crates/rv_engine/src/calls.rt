//! How many requests of each call were recorded.
ghost use Rattle.std.specs.Prelude.{◌≡◌, ◌<◌, ◌∷◌, []};
ghost use Rattle.rv_engine.specs.Calls.{CountsMore, call_place, counted_at};

use rv_account::{Act, Entry};
use rv_text::Call;

/// How many kinds of calls there are.
pub const CALLS: usize = 7;

/// How many requests of each call were recorded, in the byte order of the calls' words: count, drain, peek,
/// put, swap, take, transfer. None is counted past 2^64 - 1.
pub type CallCounts = [u64; CALLS];

// Where a call is counted.
fn place_of(call: &Call) -> usize
    ensures place { result ≡ call_place call.now }
    ensures within { result < 7 }
{
    match call {
        Call::Count { .. } => 0,
        Call::Drain { .. } => 1,
        Call::Peek { .. } => 2,
        Call::Put { .. } => 3,
        Call::Swap { .. } => 4,
        Call::Take { .. } => 5,
        Call::Transfer { .. } => 6,
    }
}

// One more is counted at a place.
fn add_one(counts: &mut CallCounts, place: usize)
    requires { place < 7 }
    ensures { counts.new ≡ counted_at counts.old place }
{
    counts[place] = counts[place].saturating_add(1);
}

// An entry is counted, if it is a request that arrived.
fn note_entry(counts: &mut CallCounts, entry: &Entry)
    ensures { CountsMore counts.old (entry.now ∷ []) counts.new }
{
    match &entry.act {
        Act::Arrive { call, .. } => add_one(counts, place_of(call)),
        Act::Hello { .. } => {}
        Act::Cancel { .. } => {}
        Act::Tick => {}
    }
}

/// Counts each of these entries that is the arrival of a request.
pub(crate) fn note_arrivals(counts: &mut CallCounts, entries: &[Entry])
    ensures { CountsMore counts.old entries.now counts.new }
{
    for entry in entries {
        note_entry(counts, entry);
    }
}
