//! The client of a run of calls: it says hello, and makes the call that a line says.
ghost use Rattle.std.specs.Prelude.{◌≡◌, IfErr, IfOk, IfSome, IsSome, Ok, string_bytes};
ghost use Rattle.rv_text.specs.Bodies.{HasBodyLength, IsCallBody, answer_text};
ghost use Rattle.rv_text.specs.Limits.{FitsAnswer, FitsIdentifier, FitsKey};
ghost use Rattle.rv_client.specs.Link.{link};
ghost use Rattle.rv_client.specs.Process.{PassesBy, key_after};
ghost use Rattle.rv_run.specs.calls.Calling.{HaltsAt, HaltsReading, HelloEnds, IsHelloInVain, SettlesLine};
ghost use Rattle.rv_run.specs.calls.Calling.{AnswerEnds, WelcomesOrNot};
ghost use Rattle.rv_run.specs.calls.Records.{IsRequestBody};

use crate::calls::end_word::EndWord;
use rv_client::{CallOutcome, Idle, New, WelcomeOutcome, ask, call};
use rv_frame::{Sink, Source};
use rv_text::{
    Answer, Call, Key, NoMemory, Reply, TextFault, decode_call, encode_answer, encode_request,
};
use std::alloc::{AllocError, Global};
use std::io::{Read, Write};

// The reason why a line has no text.
#[derive(Clone, Copy)]
pub(crate) enum Halt {
    // The run ends with this word.
    Word(EndWord),
    // Memory was refused.
    NoMemory,
}

impl From<AllocError> for Halt {
    ghost use Rattle.rv_run.specs.declared.calls.client.Halt.TheVariants.{NoMemory};

    ghost from_gives = { λ _ halt. halt ≡ NoMemory };

    fn from(_error: AllocError) -> Halt {
        Halt::NoMemory
    }
}

/// The caller of a run: the memory for its requests, and how often at most each is asked.
#[derive(Clone, Copy)]
pub(crate) struct Caller {
    pub(crate) alloc: Global,
    pub(crate) tries: u32,
}

impl Caller {
    /// Says hello until the client is idle. It gives up if a hello is refused, if the link fails, and if
    /// `tries` answers have said nothing to the client.
    pub(crate) fn say_hello<R: Read, W: Write>(
        self,
        new: New,
        from: &mut Source<R>,
        to: &mut Sink<W>,
    ) -> Result<Idle, EndWord>
        requires client { FitsIdentifier new.client }
        requires incarnation { FitsIdentifier new.incarnation }
        ensures { WelcomesOrNot R.remaining W.contents new self.tries
            (link from.old to.old) (link from.new to.new) result }
    {
        let mut new = new;
        for _tried in 0..self.tries {
            match try_hello(self.alloc, new, from, to) {
                Ok(same) => new = same,
                Err(ended) => return ended,
            }
        }
        Err(EndWord::NotWelcome)
    }

    /// Makes the call that a line says: the client that is idle again, and the text of the reply's answer. If
    /// the line says no call, nothing goes out.
    pub(crate) fn call_line<R: Read, W: Write>(
        self,
        idle: Idle,
        line: &[u8],
        from: &mut Source<R>,
        to: &mut Sink<W>,
    ) -> Result<(Idle, String), Halt>
        requires next { IsSome idle }
        requires key { IfSome idle FitsKey }
        ensures next { IfOk result (λ p. IfSome idle (λ key. p.0 ≡ key_after key)) }
        ensures settled { IfOk result (λ p. IfSome idle (λ key. SettlesLine R.remaining W.contents self.tries
            key line.now (string_bytes p.1) (link from.old to.old) (link from.new to.new))) }
        ensures short { IfOk result (λ p. HasBodyLength (string_bytes p.1)) }
        ensures halted { IfErr result (λ halt. IfSome idle (λ key. HaltsAt R.remaining W.contents self.tries
            key line.now halt (link from.old to.old) (link from.new to.new))) }
    {
        let key = idle.next_key().unwrap();
        let asked = read_call(self.alloc, line)?;
        match call(self.alloc, idle, from, to, asked, self.tries) {
            CallOutcome::Settled(next, reply) => Ok((next, reply_text(self.alloc, key, reply)?)),
            CallOutcome::Unsettled(outstanding, _) => {
                let number = outstanding.abandon().number;
                Err(Halt::Word(EndWord::Unsettled(number)))
            }
            CallOutcome::EpochEnded(_, current) => Err(Halt::Word(EndWord::EpochEnded(current))),
            CallOutcome::Replaced(_, current) => Err(Halt::Word(EndWord::Replaced(current))),
        }
    }

    /// Makes the call that a line says, as `call_line` does, and returns the body of its request too, before
    /// the text of the reply's answer.
    pub(crate) fn ask_line<R: Read, W: Write>(
        self,
        idle: Idle,
        line: &[u8],
        from: &mut Source<R>,
        to: &mut Sink<W>,
    ) -> Result<(Idle, String, String), Halt>
        requires next { IsSome idle }
        requires key { IfSome idle FitsKey }
        ensures next { IfOk result (λ p. IfSome idle (λ key. p.0 ≡ key_after key)) }
        ensures asked { IfOk result (λ p.
            IfSome idle (λ key. IsRequestBody key line.now (string_bytes p.1))) }
        ensures settled { IfOk result (λ p. IfSome idle (λ key. SettlesLine R.remaining W.contents self.tries
            key line.now (string_bytes p.2) (link from.old to.old) (link from.new to.new))) }
        ensures short { IfOk result (λ p. HasBodyLength (string_bytes p.2)) }
        ensures halted { IfErr result (λ halt. IfSome idle (λ key. HaltsAt R.remaining W.contents self.tries
            key line.now halt (link from.old to.old) (link from.new to.new))) }
    {
        let key = idle.next_key().unwrap();
        let asked = request_text(self.alloc, key, line)?;
        let (next, told) = self.call_line(idle, line, from, to)?;
        Ok((next, asked, told))
    }
}

// The text of the answer that a reply to this key is.
fn reply_text(alloc: Global, key: Key, reply: Reply) -> Result<String, NoMemory>
    ensures text { IfOk result (λ text. string_bytes text ≡ answer_text (Answer.Replied key reply)) }
    ensures short { FitsAnswer (Answer.Replied key reply)
        → IfOk result (λ text. HasBodyLength (string_bytes text)) }
{
    let answer = Answer::Replied { key, reply };
    encode_answer(alloc, &answer)
}

// Says hello once. The client comes back if the answer says nothing to it.
fn try_hello<R: Read, W: Write>(
    alloc: Global,
    new: New,
    from: &mut Source<R>,
    to: &mut Sink<W>,
) -> Result<New, Result<Idle, EndWord>>
    requires client { FitsIdentifier new.client }
    requires incarnation { FitsIdentifier new.incarnation }
    ensures again { IfOk result (λ same. (same ≡ new)
        × IsHelloInVain R.remaining W.contents new (link from.old to.old) (link from.new to.new)) }
    ensures ended { IfErr result (HelloEnds R.remaining W.contents new
        (link from.old to.old) (link from.new to.new)) }
{
    let hello = new.message();
    match ask(alloc, from, to, &hello) {
        Ok(answer) => hear_hello(new, &answer),
        Err(_) => Err(Err(EndWord::NotWelcome)),
    }
}

// Hears the answer to a hello. The client comes back if it says nothing to it.
fn hear_hello(new: New, answer: &Answer) -> Result<New, Result<Idle, EndWord>>
    ensures again { IfOk result (λ same. (same ≡ new) × PassesBy new answer.now) }
    ensures ended { IfErr result (AnswerEnds new answer.now) }
{
    match new.welcome(answer) {
        WelcomeOutcome::Idle(idle) => Err(Ok(idle)),
        WelcomeOutcome::Again(same) => Ok(same),
        WelcomeOutcome::Refused(_, refusal) => Err(Err(EndWord::Refused(refusal))),
    }
}

// The body of the request of this key with the call that a line says.
fn request_text(alloc: Global, key: Key, line: &[u8]) -> Result<String, Halt>
    ensures asked { IfOk result (λ body. IsRequestBody key line.now (string_bytes body)) }
    ensures halted { IfErr result (HaltsReading line.now) }
{
    let call = read_call(alloc, line)?;
    Ok(encode_request(alloc, &key, &call)?)
}

// The call that a line says.
fn read_call(alloc: Global, line: &[u8]) -> Result<Call, Halt>
    ensures says { IfOk result (IsCallBody line.now) }
    ensures halted { IfErr result (HaltsReading line.now) }
{
    match decode_call(alloc, line) {
        Ok(call) => Ok(call),
        Err(TextFault::NotJson) => Err(Halt::Word(EndWord::BadLine)),
        Err(TextFault::NotMessage) => Err(Halt::Word(EndWord::BadLine)),
        Err(TextFault::NoMemory) => Err(Halt::NoMemory),
    }
}
