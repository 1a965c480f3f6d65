//! Which requests are to be ended, and when to look for no more.
ghost use Rattle.std.specs.Prelude.{◌≡◌, ◌↔◌, ◌≤◌, filter, IsTrue};
ghost use Rattle.std.specs.List.{All};
ghost use Rattle.rv_end.specs.Chosen.{IsLookedThrough, is_due, is_old, is_same, was_tried};
ghost use Rattle.rv_end.specs.Told.{IsKeyed};

use rv_status::WaitingRow;

// A server looks at so many clients in the time between two looks at its status.
const CLIENTS_A_LOOK: u64 = 2_560;

/// Keeps the rows of a look whose requests are to be ended, in their order. These have had no connection for
/// `older` milliseconds, on a server that is `uptime` seconds old, and weren't tried before.
pub fn keep_due(rows: &mut Vec<WaitingRow>, uptime: u64, older: u64, tried: &[WaitingRow])
    ensures kept { rows.new.items ≡ filter (is_due uptime older tried.now) rows.old.items }
    ensures keyed { All IsKeyed rows.old.items → All IsKeyed rows.new.items }
{
    rows.retain(|row| is_old(row, uptime, older) && !was_tried(row, tried));
}

// Whether a request has had no connection for so long.
fn is_old(row: &WaitingRow, uptime: u64, older: u64) -> bool
    ensures { result ≡ is_old uptime older row.now }
{
    match row.unheard {
        Some(since) => since as u128 + older as u128 <= uptime as u128 * 1_000,
        None => false,
    }
}

// Whether a request is among those that were tried.
fn was_tried(row: &WaitingRow, tried: &[WaitingRow]) -> bool
    ensures { result ≡ was_tried tried.now row.now }
{
    tried.iter().any(|other| is_same(other, row))
}

// Whether two rows are of the same request.
fn is_same(one: &WaitingRow, other: &WaitingRow) -> bool
    ensures { result ≡ is_same one.now other.now }
{
    one.client == other.client && one.incarnation == other.incarnation && one.number == other.number
}

/// Whether a server with this many clients has been looked through: a look found nothing to end, and nothing
/// was tried before; or more looks found nothing than it takes to look at each of its clients. A look shows
/// 100 rows, and a request that was ended stands among them until the server has looked at its client again.
pub fn is_looked_through(tried: usize, looks_in_vain: u64, clients: u64) -> bool
    ensures { IsTrue result ↔ IsLookedThrough tried looks_in_vain clients }
{
    looks_in_vain > 0 && (tried == 0 || looks_in_vain > clients / CLIENTS_A_LOOK + 1)
}
