//! Gathers the lines of entries.
ghost use Rattle.std.specs.Prelude.{◌≡◌, ◌≤◌, ◌++◌, [], ◌∷◌, drop, false, length, string_bytes, take};
ghost use Rattle.std.specs.Prelude.{OnErr, OnOk};
ghost use Rattle.rv_book.specs.lines.Written.{entry_text};
ghost use Rattle.rv_engine.specs.Handing.{GathersFront, entries_kept, entry_lines};

use rv_account::Entry;
use rv_book::lines::entry_line;
use rv_text::NoMemory;
use std::alloc::Global;

// Adds the line of an entry. If memory is refused nothing is added.
fn add_line(lines: &mut String, alloc: Global, entry: &Entry) -> Result<(), NoMemory>
    ensures added { OnOk result (string_bytes lines.new
        ≡ string_bytes lines.old ++ (entry_text entry.now ++ 10 ∷ [])) }
    ensures same { OnErr result (string_bytes lines.new ≡ string_bytes lines.old) }
{
    let mut line = entry_line(alloc, entry)?;
    line.push('\n')?;
    lines.push_str(&line)
}

/// Adds the lines of entries, in order, until memory is refused, and gives how many entries' lines it added.
pub(crate) fn gather(lines: &mut String, alloc: Global, entries: &[Entry]) -> usize
    ensures within { result ≤ length entries.now }
    ensures lines { string_bytes lines.new
        ≡ string_bytes lines.old ++ entry_lines (take result entries.now) }
{
    let mut count = 0;
    for entry in entries {
        match add_line(lines, alloc, entry) {
            Ok(()) => count += 1,
            Err(_) => return count,
        }
    }
    count
}

/// The same if an account is kept; else nothing is added, and no entry is left.
pub(crate) fn gather_kept(
    lines: &mut String,
    alloc: Global,
    has_account: bool,
    made: &[Entry],
) -> usize
    ensures within { result ≤ length made.now }
    ensures gathers { GathersFront (entries_kept has_account made.now) (string_bytes lines.old)
        (drop result made.now) (string_bytes lines.new) }
    ensures none_left { has_account ≡ false → drop result made.now ≡ [] }
    ensures same { has_account ≡ false → string_bytes lines.new ≡ string_bytes lines.old }
{
    if has_account {
        return gather(lines, alloc, made);
    }
    made.len()
}
