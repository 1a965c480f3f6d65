//! Ends a request with a hello of its client in a greater incarnation.
ghost use Rattle.std.specs.Prelude.{◌≡◌, IfErr, IfOk, IfSome};
ghost use Rattle.rv_text.specs.Limits.{FitsIdentifier};
ghost use Rattle.rv_client.specs.Link.{link};
ghost use Rattle.rv_end.specs.Ending.{AnswerGives, EndsRequest, HelloGives, HelloLacksMemory, EndLacksMemory};
ghost use Rattle.rv_end.specs.Ending.{ending_of, greater_incarnation, is_done, starting};

use rv_client::{LinkFault, New, WelcomeOutcome, ask};
use rv_frame::{Sink, Source};
use rv_run::RunFault;
use rv_status::WaitingRow;
use rv_text::{Answer, MAX_IDENTIFIER, Refusal, Version};
use std::alloc::Global;
use std::io::{Read, Write};

/// What came of a request that was to be ended.
#[derive(Clone, Copy, Debug, PartialEq, Eq)]
pub enum Ending {
    /// Its client was welcome in a greater incarnation, and so it has ended.
    Ended,
    /// Its client has this incarnation, which is greater than that of the hello, and so it had ended already.
    Replaced(u64),
    /// The hello was refused for another reason, this one.
    Refused(Refusal),
    /// No incarnation is greater than its client's. Nothing was said.
    Kept,
    /// No answer to the hello came.
    NoAnswer,
}

impl Ending {
    /// Whether the request has ended.
    pub fn is_done(self) -> bool
        ensures { result ≡ is_done self }
    {
        match self {
            Ending::Ended => true,
            Ending::Replaced(_) => true,
            Ending::Refused(_) => false,
            Ending::Kept => false,
            Ending::NoAnswer => false,
        }
    }
}

/// Says hello once, for the client of a row, in version 2. The incarnation is the wall clock's microseconds
/// since 1970, as a process that starts now would take it, or the one after the row's, if that is greater. So
/// a request of the row's incarnation, or of any other before the hello's, is ended.
///
/// After [`Ending::NoAnswer`] the link is good for no other hello. If memory is refused, the hello may have
/// been answered.
pub fn end_request<R: Read, W: Write>(
    alloc: Global,
    row: &WaitingRow,
    micros: u64,
    from: &mut Source<R>,
    to: &mut Sink<W>,
) -> Result<Ending, RunFault>
    requires client { FitsIdentifier row.now.client }
    requires incarnation { FitsIdentifier row.now.incarnation }
    ensures ended { IfOk result (EndsRequest R.remaining W.contents row.now micros
        (link from.old to.old) (link from.new to.new)) }
    ensures fault { IfErr result (EndLacksMemory R.remaining W.contents row.now micros
        (link from.old to.old) (link from.new to.new)) }
{
    match greater_incarnation(row.incarnation, micros) {
        Some(incarnation) => say_hello(alloc, row.client, incarnation, from, to),
        None => Ok(Ending::Kept),
    }
}

// The incarnation of the hello that ends requests of this one.
fn greater_incarnation(incarnation: u64, micros: u64) -> Option<u64>
    requires { FitsIdentifier incarnation }
    ensures greater { result ≡ greater_incarnation micros incarnation }
    ensures fits { IfSome result FitsIdentifier }
{
    let greater = micros.max(incarnation + 1);
    if greater <= MAX_IDENTIFIER {
        Some(greater)
    } else {
        None
    }
}

// Says hello once, and returns what came of it.
fn say_hello<R: Read, W: Write>(
    alloc: Global,
    client: u64,
    incarnation: u64,
    from: &mut Source<R>,
    to: &mut Sink<W>,
) -> Result<Ending, RunFault>
    requires client { FitsIdentifier client }
    requires incarnation { FitsIdentifier incarnation }
    ensures told { IfOk result (HelloGives R.remaining W.contents (starting client incarnation)
        (link from.old to.old) (link from.new to.new)) }
    ensures fault { IfErr result (HelloLacksMemory R.remaining W.contents (starting client incarnation)
        (link from.old to.old) (link from.new to.new)) }
{
    let new = New::start(client, incarnation, Version::Two);
    match ask(alloc, from, to, &new.message()) {
        Ok(answer) => Ok(ending_by(new, &answer)),
        Err(LinkFault::NoMemory) => Err(RunFault::NoMemory),
        Err(_) => Ok(Ending::NoAnswer),
    }
}

// What an answer to the hello says.
fn ending_by(new: New, answer: &Answer) -> Ending
    ensures { AnswerGives new answer.now result }
{
    match new.welcome(answer) {
        WelcomeOutcome::Idle(_) => Ending::Ended,
        WelcomeOutcome::Again(_) => Ending::NoAnswer,
        WelcomeOutcome::Refused(_, refusal) => ending_of(refusal),
    }
}

// What a refusal of the hello says.
fn ending_of(refusal: Refusal) -> Ending
    ensures { result ≡ ending_of refusal }
{
    match refusal {
        Refusal::OldIncarnation(current) => Ending::Replaced(current),
        other => Ending::Refused(other),
    }
}
