//! Writes an account as lines.
ghost use Rattle.std.specs.Prelude.{◌≡◌, [], IfErr, OnOk};
ghost use Rattle.rv_book.specs.lines.Written.{head_text};
ghost use Rattle.rv_app.specs.Accounts.{StopsWriting, WritesAll};
ghost use Rattle.rv_run.specs.Output.{IsShort, gathered_bytes, taken_in};

use rv_book::Account;
use rv_book::lines::{entry_line, head_line};
use rv_frame::Sink;
use rv_run::{Output, RunFault};
use std::alloc::Global;
use std::io::Write;

/// Writes the lines of an account, legal or not: `epoch E opened T`, and a line for each entry, each with LF
/// after it, whatever the numbers and however long the account. By a law of rv_book, lines within the limits
/// are read as that account.
///
/// Its only faults are `WriteFault`, after the bytes that the fault counts, and `NoMemory`, after some whole
/// lines or none.
pub fn write_account<W: Write>(
    alloc: Global,
    account: &Account,
    sink: &mut Sink<W>,
) -> Result<(), RunFault>
    // The sink took exactly the account's lines.
    ensures written { OnOk result (WritesAll W.contents account.now.account sink.old sink.new) }

    // It took exactly a front of them: of so many bytes, or some whole lines.
    ensures stopped { IfErr result (StopsWriting W.contents account.now.account sink.old sink.new) }
{
    let mut output = Output::new(alloc)?;
    let head = head_line(alloc, account.epoch(), account.opened())?;
    write_lines(alloc, account, head.as_bytes(), &mut output, sink)
}

// Writes the first line and those of the entries, and sends all that was gathered.
fn write_lines<W: Write>(
    alloc: Global,
    account: &Account,
    head: &[u8],
    output: &mut Output,
    sink: &mut Sink<W>,
) -> Result<(), RunFault>
    requires head { head.now ≡ head_text account.now.account.epoch account.now.account.opened }
    requires short { IsShort head.now }
    requires nothing_gathered { gathered_bytes output.old ≡ [] }
    requires nothing_sent { taken_in output.old ≡ 0 }
    ensures all { OnOk result (WritesAll W.contents account.now.account sink.old sink.new) }
    ensures part { IfErr result (StopsWriting W.contents account.now.account sink.old sink.new) }
{
    let count = account.len();
    output.line(sink, head)?;
    let mut place = 0;
    while let Some(entry) = account.entry(place) {
        let Ok(text) = entry_line(alloc, entry) else {
            output.flush(sink)?;
            return Err(RunFault::NoMemory);
        };
        output.line(sink, text.as_bytes())?;
        prove!(place < count);
        place += 1;
    }
    Ok(output.flush(sink)?)
}
