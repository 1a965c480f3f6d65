//! What a line after the first says.
ghost use Rattle.std.specs.Prelude.{◌≡◌, Err, IfErr, IfOk, Ok};
ghost use Rattle.rv_checkpoint.specs.Saying.{SaysFields, SaysOneLine};
ghost use Rattle.rv_checkpoint.specs.declared.line.StateLine as lines;
ghost use Rattle.rv_checkpoint.specs.declared.line.StateLine.TheVariants as said;

use crate::client::{read_asking, read_fresh, read_replied, read_unseen};
use crate::head::read_end;
use crate::kind::{LineKind, cut_kind};
use crate::open::{read_lying, read_waiting};
use rv_book::lines::LineFault;
use rv_session::{ClientState, OpenPlace};
use std::alloc::Global;

/// What a line of a checkpoint says, after the first.
#[derive(Drop)]
pub(crate) enum StateLine {
    /// What stands at an open place.
    Open(OpenPlace),
    /// A client's number, and its session.
    Client(u64, ClientState),
    /// The checkpoint ends here.
    End {
        /// How many open places it says.
        opens: u64,
        /// How many clients.
        clients: u64,
    },
}

// What a line says by which an open place was read.
fn said_open(read: Result<OpenPlace, LineFault>) -> Result<StateLine, LineFault>
    ensures said { IfOk read (λ there. result ≡ Ok (said.Open there)) }
    ensures fault { IfErr read (λ why. result ≡ Err why) }
{
    match read {
        Ok(there) => Ok(StateLine::Open(there)),
        Err(why) => Err(why),
    }
}

// What a line says by which a client's session was read.
fn said_client(read: Result<(u64, ClientState), LineFault>) -> Result<StateLine, LineFault>
    ensures said { IfOk read (λ known. result ≡ Ok (said.Client known.0 known.1)) }
    ensures fault { IfErr read (λ why. result ≡ Err why) }
{
    match read {
        Ok((client, session)) => Ok(StateLine::Client(client, session)),
        Err(why) => Err(why),
    }
}

// What the fields of a line of this kind say.
fn read_fields(
    alloc: Global,
    epoch: u64,
    kind: LineKind,
    fields: &[u8],
) -> Result<StateLine, LineFault>
    ensures reads { IfOk result (SaysFields epoch kind fields.now) }
    ensures bad { result ≡ Err LineFault.Bad
        → (line : lines.StateLine) → ¬ SaysFields epoch kind fields.now line }
{
    match kind {
        LineKind::Lies => said_open(read_lying(alloc, fields)),
        LineKind::Waits => said_open(read_waiting(alloc, epoch, fields)),
        LineKind::Fresh => said_client(read_fresh(alloc, fields)),
        LineKind::Asks => said_client(read_asking(alloc, epoch, fields)),
        LineKind::Replied => said_client(read_replied(alloc, epoch, fields)),
        LineKind::Unseen => said_client(read_unseen(alloc, epoch, fields)),
        LineKind::End => match read_end(fields) {
            Some((opens, clients)) => Ok(StateLine::End { opens, clients }),
            None => Err(LineFault::Bad),
        },
    }
}

/// What a line after the first says in a checkpoint of this epoch. [`LineFault::Bad`] comes only where it
/// says nothing.
pub(crate) fn read_line(alloc: Global, epoch: u64, line: &[u8]) -> Result<StateLine, LineFault>
    ensures reads { IfOk result (SaysOneLine epoch line.now) }
    ensures bad { result ≡ Err LineFault.Bad → (says : lines.StateLine) → ¬ SaysOneLine epoch line.now says }
{
    let (kind, fields) = cut_kind(line).ok_or(LineFault::Bad)?;
    read_fields(alloc, epoch, kind, fields)
}
