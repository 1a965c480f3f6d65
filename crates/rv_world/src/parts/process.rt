//! A process as it is kept between events, its messages about a request, and the results of answers for it.
ghost use Rattle.std.specs.Prelude.{◌≡◌, IfOk, OnErr};
ghost use Rattle.rv_client.specs.Process as process;
ghost use Rattle.rv_world.specs.parts.Processes.{HearsAs, said_by};
ghost use Rattle.rv_world.specs.declared.parts.process.Saying.TheVariants as sayings;

use crate::parts::seen::Seen;
use rv_client::{HearOutcome, Idle, New, Outstanding, Resting, WelcomeOutcome};
use rv_text::{Answer, Key, Message, NoMemory, Reply};
use std::alloc::Global;

/// A process that runs, as it is kept between events.
#[derive(Drop)]
pub(crate) enum Running {
    New(New),
    Idle(Idle),
    Outstanding(Resting),
}

/// A message about the request that a process has begun.
#[derive(Clone, Copy)]
pub enum Saying {
    /// The request itself.
    Request,
    /// Its cancel.
    Cancel,
}

/// The result of an answer for a process.
#[derive(Drop)]
pub(crate) struct HeardAnswer {
    // The process that then runs, if it has not ended.
    pub(crate) process: Option<Running>,
    // The key and the reply that it took as final.
    pub(crate) held: Option<(Key, Reply)>,
    pub(crate) seen: Seen,
}

impl Running {
    ghost use Rattle.rv_world.specs.parts.Events.{IsAsking};
    ghost use Rattle.rv_world.specs.parts.Processes.{IsIdle, process_in};

    // Hears an answer.
    pub(crate) fn hear(self, answer: Answer) -> HeardAnswer
        ensures { HearsAs (process_in self) answer result }
    {
        match self {
            Running::New(new) => welcome(new, &answer),
            Running::Idle(idle) => HeardAnswer::of(Some(Running::Idle(idle)), Seen::Ignored),
            Running::Outstanding(resting) => settle(resting.wake(), answer),
        }
    }

    // The idle client that it is.
    pub(crate) fn idle(self) -> Idle
        requires { IsIdle (process_in self) }
        ensures { process_in self ≡ process.Idle result }
    {
        match self {
            Running::Idle(idle) => idle,
            Running::New(_) => unreachable!(),
            Running::Outstanding(_) => unreachable!(),
        }
    }

    // The request that it has begun.
    pub(crate) fn outstanding(self) -> Outstanding
        requires { IsAsking (process_in self) }
        ensures { process_in self ≡ process.Outstanding result }
    {
        match self {
            Running::Outstanding(resting) => resting.wake(),
            Running::New(_) => unreachable!(),
            Running::Idle(_) => unreachable!(),
        }
    }
}

impl HeardAnswer {
    ghost use Rattle.std.specs.Prelude.{None};

    // The same, with no reply that is held.
    fn of(process: Option<Running>, seen: Seen) -> HeardAnswer
        ensures { result ≡ record { process = process; held = None; seen = seen } }
    {
        let held = None;
        HeardAnswer {
            process,
            held,
            seen,
        }
    }
}

// The result of an answer for a new process.
fn welcome(new: New, answer: &Answer) -> HeardAnswer
    ensures { HearsAs (process.New new) answer.now result }
{
    match new.welcome(answer) {
        WelcomeOutcome::Idle(idle) => HeardAnswer::of(Some(Running::Idle(idle)), Seen::Welcomed),
        WelcomeOutcome::Again(same) => HeardAnswer::of(Some(Running::New(same)), Seen::Ignored),
        WelcomeOutcome::Refused(same, refusal) => {
            HeardAnswer::of(Some(Running::New(same)), Seen::TurnedAway(refusal))
        }
    }
}

// The result of an answer for an outstanding process.
fn settle(outstanding: Outstanding, answer: Answer) -> HeardAnswer
    ensures { HearsAs (process.Outstanding outstanding) answer result }
{
    let key = outstanding.key();
    match outstanding.hear(answer) {
        HearOutcome::Settled(idle, reply) => HeardAnswer {
            process: Some(Running::Idle(idle)),
            held: Some((key, reply)),
            seen: Seen::Settled(key),
        },
        HearOutcome::Still(same) => {
            HeardAnswer::of(Some(Running::Outstanding(same.park())), Seen::Ignored)
        }
        HearOutcome::EpochEnded(_, current) => HeardAnswer::of(None, Seen::Ended(current)),
        HearOutcome::Replaced(_, current) => HeardAnswer::of(None, Seen::Replaced(current)),
    }
}

// The message that an outstanding process sends. Fails only if memory for a request was refused.
pub(crate) fn said_by(
    alloc: Global,
    outstanding: &Outstanding,
    saying: Saying,
) -> Result<Message, NoMemory>
    ensures said { IfOk result (λ message. message ≡ said_by saying outstanding.now) }
    ensures sure { OnErr result (saying ≡ sayings.Request) }
{
    match saying {
        Saying::Request => outstanding.message(alloc),
        Saying::Cancel => Ok(outstanding.cancel_message()),
    }
}
