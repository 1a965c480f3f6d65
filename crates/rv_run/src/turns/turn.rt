//! The turn of one line: its step of the book, and the body that answers it.
ghost use Rattle.std.specs.Prelude.{◌≡◌, string_bytes, IfOk};
ghost use Rattle.rv_text.specs.Bodies.{HasBodyLength, answer_text};
ghost use Rattle.rv_book.specs.Verdicts.{WasGiven};
ghost use Rattle.rv_text.specs.Limits.{FitsAnswer, FitsMessage};
ghost use Rattle.rv_run.specs.turns.Body.{HasTextOfBody, body_text};
ghost use Rattle.rv_run.specs.turns.Run.{AnswersLine, AnswersMessage};

use crate::turns::line::read_line;
use rv_book::lines::LineFault;
use rv_book::{Book, Verdict};
use rv_text::{Message, NoMemory, bad_text_body, encode_answer, no_memory_body};
use std::alloc::Global;

// The body that answers a line.
#[derive(Drop)]
pub(crate) enum LineBody {
    // That of a line that says no message.
    BadText,
    // That of a line for which memory was refused.
    NoMemory,
    // The text of the book's answer.
    Text(String),
}

impl LineBody {
    /// The bytes of the body.
    pub(crate) fn as_bytes(&self) -> &[u8]
        requires { HasTextOfBody self.now }
        ensures text { result.now ≡ body_text self.now }
        ensures of_body { HasBodyLength result.now }
    {
        match self {
            LineBody::BadText => bad_text_body(),
            LineBody::NoMemory => no_memory_body(),
            LineBody::Text(text) => text.as_bytes(),
        }
    }
}

/// Answers a line: its message is handed to the book at its moment. If memory is refused, the book may have
/// taken the message's step or not.
pub(crate) fn answer_line(alloc: Global, book: &mut Book, line: &[u8]) -> LineBody
    ensures answers { AnswersLine line.now book.old book.new (body_text result) }
    ensures of_body { HasTextOfBody result }
{
    match read_line(alloc, line) {
        Ok((moment, message)) => answer_message(alloc, book, moment, message),
        Err(LineFault::Bad) => LineBody::BadText,
        Err(LineFault::NoMemory) => LineBody::NoMemory,
    }
}

// Hands the message to the book.
fn answer_message(alloc: Global, book: &mut Book, moment: u64, message: Message) -> LineBody
    requires { FitsMessage message }
    ensures says { AnswersMessage moment message book.old book.new (body_text result) }
    ensures of_body { HasTextOfBody result }
{
    let verdict = book.handle(moment, message);
    match verdict_text(alloc, book, &verdict) {
        Ok(text) => LineBody::Text(text),
        Err(_) => LineBody::NoMemory,
    }
}

// The text of the answer that the verdict stands for.
fn verdict_text(alloc: Global, book: &Book, verdict: &Verdict) -> Result<String, NoMemory>
    requires given { WasGiven book.now verdict.now }
    requires fits { FitsAnswer verdict.now.said }
    ensures text { IfOk result (λ s. string_bytes s ≡ answer_text verdict.now.said) }
    ensures of_body { IfOk result (λ s. HasBodyLength (string_bytes s)) }
{
    let answer = book.answer(alloc, verdict)?;
    encode_answer(alloc, &answer)
}
