//! Steps: a machine opens; each step is a tick at a moment that is handed in, and then a message is heard.
ghost use Rattle.std.specs.Prelude.{◌≡◌, ◌≤◌, None, IfErr, IfOk, []};
ghost use Rattle.rv_text.specs.Limits.{FitsMessage};
ghost use Rattle.rv_account.specs.rules.Steps.{capped_moment, max_moment};
ghost use Rattle.rv_account.specs.state.State.{opening};
ghost use Rattle.rv_account.specs.state.Moves.{state_moment};
ghost use Rattle.rv_machine.specs.declared.machine.Said.TheVariants.{Refused};
ghost use Rattle.rv_machine.specs.Machines.{IsWhole, SameListRoom, state_in};
ghost use Rattle.rv_machine.specs.Numbering.{AreNumbered};
ghost use Rattle.rv_machine.specs.Stepping.{IsHearing, IsNoRequest, MadeNothing, IsTick};

use crate::machine::{Machine, Said};
use crate::open_places::OpenTable;
use crate::tables::Holdings;
use rv_account::Entry;
use rv_account::rules::{Limits, MOST_KNOWN};
use rv_session::Clients;
use rv_text::{Message, NoMemory, Refusal};
use std::alloc::Global;

// The greatest moment, 2^62.
const MAX_MOMENT: u64 = 4_611_686_018_427_387_904;

/// What the tick of a step made.
#[derive(Drop)]
pub struct TickMade {
    /// The moment of the step.
    pub moment: u64,
    /// The tick's entry, if something was due.
    pub entry: Option<Entry>,
}

/// What came of a message.
#[derive(Drop)]
pub struct Heard {
    /// The entry of the message, if it made one.
    pub entry: Option<Entry>,
    /// What is said of it.
    pub said: Said,
}

// The entry that a message made and what is said, or its refusal.
fn outcome(made: Result<Option<Entry>, Refusal>, said: Said) -> Heard
    ensures ok { IfOk made (λ entry. result ≡ record { entry = entry; said = said }) }
    ensures err { IfErr made (λ refusal. result ≡ record { entry = None; said = Refused refusal }) }
{
    match made {
        Ok(entry) => Heard { entry, said },
        Err(refusal) => Heard {
            entry: None,
            said: Said::Refused(refusal),
        },
    }
}

impl Holdings {
    // The tables of an empty account, which settled nothing yet. Fails only if memory was refused.
    fn open(alloc: Global, epoch: u64, now: u64) -> Result<Holdings, NoMemory>
        ensures state { IfOk result (λ m. state_in m ≡ opening epoch (capped_moment now)) }
        ensures ready { IfOk result IsWhole }
        ensures numbered { IfOk result (λ m. AreNumbered (state_in m)) }
        ensures settled { IfOk result (λ m. m.settled.items ≡ []) }
    {
        Ok(Holdings {
            moment: now.min(MAX_MOMENT),
            length: 0,
            table: OpenTable::empty(alloc)?,
            clients: Clients::open(alloc, epoch, MOST_KNOWN),
            settled: Vec::new(alloc),
        })
    }

    // The first half of a step, of the tables.
    pub(crate) fn elapse(&mut self, now: u64) -> TickMade
        requires ready { IsWhole self.old }
        requires numbered { AreNumbered (state_in self.old) }
        ensures ready { IsWhole self.new }
        ensures numbered { AreNumbered (state_in self.new) }
        ensures exact { result.moment ≡ state_moment (state_in self.old) now }
        ensures later { self.new.moment ≤ result.moment }
        ensures time { result.moment ≤ max_moment }
        ensures ticks { IsTick self.old self.new result }
        ensures room { SameListRoom self.old self.new }
    {
        let moment = self.moment.max(now.min(MAX_MOMENT));
        self.settled.clear();
        let entry = self.time_out(moment);
        TickMade { moment, entry }
    }

    // The second half of a step, of the tables.
    pub(crate) fn hear(&mut self, limits: &Limits, moment: u64, message: Message) -> Heard
        requires ready { IsWhole self.old }
        requires numbered { AreNumbered (state_in self.old) }
        requires later { self.old.moment ≤ moment }
        requires time { moment ≤ max_moment }
        requires fits { FitsMessage message }
        ensures ready { IsWhole self.new }
        ensures numbered { AreNumbered (state_in self.new) }
        ensures hears { IsHearing limits.now self.old self.new moment message result }
        ensures room { IsNoRequest message → SameListRoom self.old self.new }
        ensures quiet { MadeNothing result → SameListRoom self.old self.new }
    {
        self.settled.clear();
        match message {
            Message::Hello {
                client,
                incarnation,
                version,
            } => {
                let said = Said::Welcome(self.clients.epoch(), client, incarnation, version);
                outcome(
                    self.greet(limits, moment, client, incarnation, version),
                    said,
                )
            }
            Message::Request { key, call } => {
                outcome(self.request(limits, moment, key, call), Said::Told(key))
            }
            Message::Cancel { key } => outcome(self.cancel(limits, moment, key), Said::Told(key)),
        }
    }
}

impl Machine {
    /// The machine of an empty account, which has settled nothing yet. Fails only if memory was refused.
    pub fn open(alloc: Global, epoch: u64, now: u64) -> Result<Machine, NoMemory>
        ensures state { IfOk result (λ m. state_in m ≡ opening epoch (capped_moment now)) }
        ensures settled { IfOk result (λ m. m.settled.items ≡ []) }
    {
        let tables = Holdings::open(alloc, epoch, now)?;
        Ok(Machine { tables })
    }

    /// The first half of a step, or time that passes alone: all that is due at its moment is ended, and the
    /// keys are listed; if nothing is due, the state stays. The moment is the one handed in, at most 2^62, or
    /// the last one if that is later. It takes no memory.
    pub fn elapse(&mut self, now: u64) -> TickMade
        ensures exact { result.moment ≡ state_moment (state_in self.old) now }
        ensures later { self.new.moment ≤ result.moment }
        ensures time { result.moment ≤ max_moment }
        ensures ticks { IsTick self.old self.new result }
        ensures room { SameListRoom self.old self.new }
    {
        self.tables.elapse(now)
    }

    /// The second half of a step: a message is heard at its moment under limits, and the keys that it settles
    /// are listed. Limits only refuse: a machine works under any.
    pub fn hear(&mut self, limits: &Limits, moment: u64, message: Message) -> Heard
        requires later { self.old.moment ≤ moment }
        requires time { moment ≤ max_moment }
        requires fits { FitsMessage message }
        ensures hears { IsHearing limits.now self.old self.new moment message result }
        ensures room { IsNoRequest message → SameListRoom self.old self.new }
        ensures quiet { MadeNothing result → SameListRoom self.old self.new }
    {
        self.tables.hear(limits, moment, message)
    }
}
