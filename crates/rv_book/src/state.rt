//! The account, the machine that holds its state, and what is kept of replies: the steps that change them.
ghost use Rattle.std.specs.Prelude.{◌≡◌, ◌<◌, [], None, Some, IfOk, IsSome, OnErr, OnOk};
ghost use Rattle.std.specs.FinMap.{get, insert};
ghost use Rattle.rv_text.specs.Limits.{FitsIdentifier, FitsMessage};
ghost use Rattle.rv_account.specs.state.State.{client_at};
ghost use Rattle.rv_book.specs.reply_cache.Keeping.{client_of, front_of};
ghost use Rattle.rv_account.specs.Limits.{FitsAct};
ghost use Rattle.rv_machine.specs.Machines.{state_in};
ghost use Rattle.rv_book.specs.Operations.{AreKnown, MayKeep, kept_after, kept_in, keeping_all};

use crate::reply_cache::{KeptReplies, kept_again, source};
use crate::verdict::KeptAnswer;
use rv_account::rules::Limits;
use rv_account::{Account, Act, Entry};
use rv_machine::{Heard, Machine, Said, TickMade, message_need};
use rv_session::Place;
use rv_text::{Message, NoMemory, Refusal, Side};
use std::alloc::Global;

/// The most entries of an epoch.
pub const MAX_ENTRIES: usize = 100_000;

/// The greatest moment, in milliseconds: 2^62. A greater one counts as this one.
pub const MAX_MOMENT: u64 = 4_611_686_018_427_387_904;

#[derive(Drop)]
pub(crate) struct BookState {
    account: Account,
    // The account's state.
    machine: Machine,
    // The reply of each client's last request, by places of the account.
    kept: KeptReplies,
}

// Keeps the reply of a client's last request, whose text or consumer is at a place.
fn keep(machine: &Machine, kept: &mut KeptReplies, client: u64, place: Place)
    requires known { IsSome (client_at (state_in machine.now) client) }
    requires room { get kept.old.replies client ≡ None → 0 < kept.old.room }
    ensures keeps { kept.new.replies
        ≡ insert kept.old.replies client (kept_in (state_in machine.now) place client) }
    ensures room { IsSome (get kept.old.replies client) → kept.new.room ≡ kept.old.room }
{
    let session = machine.client(client).unwrap();
    kept.keep(client, kept_again(&session.request, place));
}

// Keeps the replies of the requests that the entry at a place settled.
fn keep_settled(machine: &Machine, kept: &mut KeptReplies, place: Place)
    requires { AreKnown (state_in machine.now) kept.old.replies machine.now.settled.items }
    ensures keeps { kept.new.replies
        ≡ keeping_all (state_in machine.now) place kept.old.replies machine.now.settled.items }
    ensures room { kept.new.room ≡ kept.old.room }
{
    for key in machine.settled() {
        keep(machine, kept, key.client, place);
    }
}

// The client of an act, if it has one.
fn client_of(act: &Act) -> Option<u64>
    ensures { result ≡ client_of act.now }
{
    match act {
        Act::Hello { client, .. } => Some(*client),
        Act::Arrive { key, .. } => Some(key.client),
        Act::Cancel { key } => Some(key.client),
        Act::Tick => None,
    }
}

// The place of the oldest item of the queue at which an arrival looks.
fn front(machine: &Machine, act: &Act) -> Option<Place>
    requires { FitsAct act.now }
    ensures { result ≡ front_of (state_in machine.now) act.now }
{
    match act {
        Act::Arrive { call, .. } => match call.side() {
            Side::Looks(queue) => machine.front(queue),
            Side::Gives(_) => None,
            Side::Takes(_) => None,
            Side::Exchanges(_) => None,
        },
        Act::Hello { .. } => None,
        Act::Cancel { .. } => None,
        Act::Tick => None,
    }
}

// Keeps the replies of an entry at a place: those of the requests that it settled, and that of its own
// client.
fn keep_told(machine: &Machine, kept: &mut KeptReplies, entry: &Entry, place: Place)
    requires { MayKeep machine.now kept.old entry.now }
    ensures { kept.new.replies
        ≡ kept_after (state_in machine.now) place entry.now machine.now.settled.items kept.old.replies }
{
    keep_settled(machine, kept, place);
    match client_of(&entry.act) {
        Some(client) => {
            let own = source(entry, place, front(machine, &entry.act));
            keep(machine, kept, client, own);
        }
        None => {}
    }
}

impl BookState {
    ghost use Rattle.std.specs.Prelude.{◌^◌, ◌+◌, min, true};
    ghost use Rattle.rv_account.specs.state.State.{waiting_count};
    ghost use Rattle.rv_text.specs.declared.answer.Answer.{Answer};
    ghost use Rattle.rv_account.specs.Account.{with_entry};
    ghost use Rattle.rv_account.specs.rules.StepLimits.{book_limits};
    ghost use Rattle.rv_machine.specs.Machines.{Says};
    ghost use Rattle.rv_machine.specs.Needing.{MayLackMemory, message_need};
    ghost use Rattle.rv_book.specs.Operations.{Becomes, BecomesAfterTicks, HasRoomFor, IsAhead, IsQuiet};
    ghost use Rattle.rv_book.specs.Operations.{IsSame};
    ghost use Rattle.rv_book.specs.Saying.{answer_of};
    ghost use Rattle.rv_book.specs.Steps.{Ticks, step_moment};
    ghost use Rattle.rv_book.specs.Tables.{IsSound, account_of, state_of_machine};

    /// An empty account of an epoch, opened at a moment, which counts as at most 2^62.
    pub(crate) fn open(alloc: Global, epoch: u64, now: u64) -> Result<BookState, NoMemory>
        requires { FitsIdentifier epoch }
        ensures sound { IfOk result IsSound }
        ensures account { IfOk result (λ book. account_of book
            ≡ record { epoch = epoch; opened = min now (2 ^ 62); entries = [] }) }
    {
        Ok(BookState {
            account: Account::empty(alloc, epoch, now.min(MAX_MOMENT)),
            machine: Machine::open(alloc, epoch, now)?,
            kept: KeptReplies::new(alloc),
        })
    }

    /// The account, as it stands.
    pub(crate) fn account(&self) -> &Account
        ensures { result.now ≡ self.now.account }
    {
        &self.account
    }

    /// Times out what is due, takes a step with a message that came at a moment, and says what became of it.
    pub(crate) fn step(&mut self, now: u64, message: Message) -> KeptAnswer
        requires sound { IsSound self.old }
        requires fits { FitsMessage message }
        ensures sound { IsSound self.new }
        ensures step { BecomesAfterTicks (account_of self.old) now message (account_of self.new) result }
    {
        let moment = self.time_out(now);
        self.answer(moment, message)
    }

    // Times out all that is due by one tick, in room that it has, and gives the step's moment.
    fn time_out(&mut self, now: u64) -> u64
        requires { IsSound self.old }
        ensures exact { result ≡ step_moment (account_of self.old) now }
        ensures quiet { IsQuiet self.new result }
        ensures ticks { Ticks (account_of self.old) result (account_of self.new) }
    {
        let TickMade { moment, entry } = self.machine.elapse(now);
        match entry {
            Some(entry) => {
                self.record(entry);
                moment
            }
            None => moment,
        }
    }

    // Takes the message's own step at a moment at which nothing is due, and says what became of it.
    fn answer(&mut self, moment: u64, message: Message) -> KeptAnswer
        requires quiet { IsQuiet self.old moment }
        requires fits { FitsMessage message }
        ensures sound { IsSound self.new }
        ensures step { Becomes (account_of self.old) moment message (account_of self.new) result }
    {
        match self.make_room(&message) {
            Ok(()) => self.hear(moment, message),
            Err(_) => KeptAnswer::Refused(Refusal::NoMemory),
        }
    }

    // The same, where there is room for whatever the message makes.
    fn hear(&mut self, moment: u64, message: Message) -> KeptAnswer
        requires quiet { IsQuiet self.old moment }
        requires fits { FitsMessage message }
        requires room { HasRoomFor self.old message }
        ensures sound { IsSound self.new }
        ensures step { Becomes (account_of self.old) moment message (account_of self.new) result }
    {
        let limits = Limits::book();
        let Heard { entry, said } = self.machine.hear(&limits, moment, message);
        match entry {
            Some(entry) => {
                self.record(entry);
                self.say(said)
            }
            None => self.say(said),
        }
    }

    // How many entries there must be room for where a message enters one: with those of all that waits then.
    fn entries_needed(&self, message: &Message) -> usize
        requires { IsSound self.now }
        ensures { result ≡ waiting_count (state_of_machine self.now) + message_need message.now }
    {
        self.machine.waiting() + message_need(message)
    }

    // Whether there is room for a message, if it is no hello.
    fn has_room(&self, message: &Message) -> bool
        requires { IsSound self.now }
        ensures { result ≡ true → HasRoomFor self.now message.now }
    {
        match message {
            Message::Hello { .. } => false,
            Message::Request { .. } => self.entries_needed(message) <= self.account.room(),
            Message::Cancel { .. } => self.entries_needed(message) <= self.account.room(),
        }
    }

    // Makes room for the entry of a message, and for what is kept of a new client.
    fn grow(&mut self, message: &Message) -> Result<(), NoMemory>
        requires { IsSound self.old }
        ensures same { IsSame self.old self.new }
        ensures sound { IsSound self.new }
        ensures room { OnOk result (HasRoomFor self.new message.now) }
    {
        let more = self.entries_needed(message);
        self.account.reserve(more)?;
        match message {
            Message::Hello { .. } => self.kept.reserve(),
            Message::Request { .. } => Ok(()),
            Message::Cancel { .. } => Ok(()),
        }
    }

    // Makes room for a message that will enter an entry and lacks it. Only this can fail, and only room
    // changes.
    fn make_room(&mut self, message: &Message) -> Result<(), NoMemory>
        requires sound { IsSound self.old }
        requires fits { FitsMessage message.now }
        ensures same { IsSame self.old self.new }
        ensures sound { IsSound self.new }
        ensures room { OnOk result (HasRoomFor self.new message.now) }
        ensures lacks { OnErr result (MayLackMemory book_limits (state_of_machine self.old) message.now) }
    {
        if self.has_room(message) {
            return Ok(());
        }
        if !self.machine.enters(&Limits::book(), message) {
            return Ok(());
        }
        self.grow(message)
    }

    // Records an entry that the machine made, and keeps its replies. There must be room for it.
    fn record(&mut self, entry: Entry)
        requires { IsAhead self.old entry }
        ensures sound { IsSound self.new }
        ensures recorded { account_of self.new ≡ with_entry (account_of self.old) entry }
        ensures machine { self.new.machine ≡ self.old.machine }
    {
        keep_told(&self.machine, &mut self.kept, &entry, self.account.len());
        self.account.push(entry);
    }

    // What is said of a message, by places.
    fn say(&self, said: Said) -> KeptAnswer
        requires { IsSound self.now }
        ensures { (a : Answer) → Says (state_of_machine self.now) said a
            → answer_of (account_of self.now).entries result ≡ Some a }
    {
        match said {
            Said::Welcome(epoch, client, incarnation, version) => {
                KeptAnswer::Welcome(epoch, client, incarnation, version)
            }
            Said::Told(key) => KeptAnswer::of(key, self.kept.get(key.client)),
            Said::Refused(refusal) => KeptAnswer::Refused(refusal),
        }
    }
}
