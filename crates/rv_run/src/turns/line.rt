//! Reads the moment and the message that a line of the book's input says.
ghost use Rattle.std.specs.Prelude.{◌≡◌, ◌∷◌, ◌++◌, ℕ, List, None, IfSome, IfOk, Err};
ghost use Rattle.rv_run.specs.turns.Lines.{HasForm, IsBadLine, ReadsLine};
ghost use Rattle.rv_text.specs.Number.{WritesNumber};

use rv_book::lines::{LineFault, cut_at};
use rv_text::{Message, decode_message, read_number};
use std::alloc::Global;

/// The moment and the message that a line says: 1 to 19 digits, one space and the message's body.
pub(crate) fn read_line(alloc: Global, line: &[u8]) -> Result<(u64, Message), LineFault>
    ensures reads { IfOk result (λ p. ReadsLine line.now p.0 p.1) }
    ensures bad { result ≡ Err LineFault.Bad → IsBadLine line.now }
    ensures no_memory { result ≡ Err LineFault.NoMemory → HasForm line.now }
{
    let (moment, body) = moment_and_body(line).ok_or(LineFault::Bad)?;
    Ok((moment, decode_message(alloc, body)?))
}

// The moment of a line, and the bytes that follow the one space after it, whatever they are.
fn moment_and_body(line: &[u8]) -> Option<(u64, &[u8])>
    ensures some { IfSome result (λ p. (digits : List ℕ) × (line.now ≡ digits ++ 32 ∷ p.1.now)
        × WritesNumber digits p.0) }
    ensures none { result ≡ None → (digits body : List ℕ) (moment : ℕ)
        → line.now ≡ digits ++ 32 ∷ body → ¬ WritesNumber digits moment }
{
    let (digits, body) = cut_at(b' ', line)?;
    Some((read_number(digits)?, body))
}
