//! The first line of a checkpoint, and its last one.
ghost use Rattle.std.specs.Prelude.{◌≡◌, ℕ, None, IfOk, IfSome, string_bytes};
ghost use Rattle.rv_checkpoint.specs.Saying.{SaysTotals, SaysHead};
ghost use Rattle.rv_checkpoint.specs.Written.{end_text, head_text_of};
ghost use Rattle.rv_checkpoint.specs.declared.head.StateHead as heads;

use crate::field::{MAX_FIELD, cut_number};
use rv_book::lines::after_text;
use rv_text::{NoMemory, read_plain};
use std::alloc::Global;

/// What a checkpoint's first line says.
#[derive(Clone, Copy)]
pub(crate) struct StateHead {
    /// The account's epoch.
    pub(crate) epoch: u64,
    /// Its last moment, in milliseconds.
    pub(crate) moment: u64,
    /// How many entries it has.
    pub(crate) length: u64,
}

// What a first line says: `state 1`, the epoch, the last moment and the number of entries.
pub(crate) fn read_head(line: &[u8]) -> Option<StateHead>
    ensures some { IfSome result (SaysHead line.now) }
    ensures none { result ≡ None → (head : heads.StateHead) → ¬ SaysHead line.now head }
{
    let fields = after_text(b"state 1 ", line)?;
    let (epoch, fields) = cut_number(fields)?;
    let (moment, field) = cut_number(fields)?;
    let length = read_plain(field, MAX_FIELD)?;
    Some(StateHead {
        epoch,
        moment,
        length,
    })
}

// How many open places and clients a last line says.
pub(crate) fn read_end(fields: &[u8]) -> Option<(u64, u64)>
    ensures some { IfSome result (λ p. SaysTotals fields.now p.0 p.1) }
    ensures none { result ≡ None → (opens clients : ℕ) → ¬ SaysTotals fields.now opens clients }
{
    let (opens, field) = cut_number(fields)?;
    let clients = read_plain(field, MAX_FIELD)?;
    Some((opens, clients))
}

/// The first line of a checkpoint, with no LF: `state 1`, the epoch, the last moment and the number of
/// entries. Fails only if memory was refused.
pub(crate) fn head_line(alloc: Global, head: StateHead) -> Result<String, NoMemory>
    ensures { IfOk result (λ s. string_bytes s ≡ head_text_of head) }
{
    let (epoch, moment, length) = (head.epoch, head.moment, head.length);
    format!(in alloc; "state 1 {epoch} {moment} {length}")
}

/// Its last line, with no LF: `end`, and how many open places and how many clients it says. Fails only if
/// memory was refused.
pub(crate) fn end_line(alloc: Global, opens: usize, clients: usize) -> Result<String, NoMemory>
    ensures { IfOk result (λ s. string_bytes s ≡ end_text opens clients) }
{
    format!(in alloc; "end {opens} {clients}")
}
