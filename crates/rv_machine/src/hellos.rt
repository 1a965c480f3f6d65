//! Hellos: the first one of a client, and those of a later incarnation.
ghost use Rattle.std.specs.Prelude.{◌≡◌, ◌≤◌, ◌<◌, ◌+◌, [], None, IfOk, IfErr, option_to_list};
ghost use Rattle.std.specs.FinMap.{get};
ghost use Rattle.rv_machine.specs.open_places.OpenMap.{count_waiting, most_counted};
ghost use Rattle.rv_text.specs.declared.message.Message.TheVariants.{Hello};
ghost use Rattle.rv_account.specs.Account.{entry};
ghost use Rattle.rv_account.specs.declared.entry.Act.TheVariants as act;
ghost use Rattle.rv_account.specs.rules.Steps.{max_moment};
ghost use Rattle.rv_session.specs.ClientMeanings.{HasLowerState};
ghost use Rattle.rv_session.specs.Clients.{fresh_state};
ghost use Rattle.rv_account.specs.state.After.{advanced, with_client};
ghost use Rattle.rv_machine.specs.declared.machine.Said.TheVariants as said;
ghost use Rattle.rv_machine.specs.Ending.{counted};
ghost use Rattle.rv_machine.specs.Entering.{CanReopen};
ghost use Rattle.rv_machine.specs.Machines.{WasHeard, IsWhole, SameListRoom, WasRefused, state_in};
ghost use Rattle.rv_machine.specs.Numbering.{AreNumbered};

use crate::tables::Holdings;
use rv_account::rules::Limits;
use rv_account::{Act, Entry, Partners};
use rv_session::{Greeting, Place};
use rv_text::{Refusal, Reply, Version};

impl Holdings {
    /// A hello: it opens a session of a new incarnation, and what waits of an earlier one is cancelled. A
    /// repeat makes no entry.
    pub(crate) fn greet(
        &mut self,
        limits: &Limits,
        moment: u64,
        client: u64,
        incarnation: u64,
        version: Version,
    ) -> Result<Option<Entry>, Refusal>
        requires ready { IsWhole self.old }
        requires numbered { AreNumbered (state_in self.old) }
        requires time { moment ≤ max_moment }
        ensures ready { IsWhole self.new }
        ensures numbered { AreNumbered (state_in self.new) }
        ensures ok { IfOk result (WasHeard limits.now self.old self.new moment
            (Hello client incarnation version)
            (said.Welcome self.old.clients.epoch client incarnation version)) }
        ensures err { IfErr result (WasRefused limits.now self.old self.new moment
            (Hello client incarnation version)) }
        ensures room { SameListRoom self.old self.new }
    {
        match self.clients.greet(client, incarnation, version) {
            Greeting::Again => Ok(None),
            Greeting::Older(current) => Err(Refusal::OldIncarnation(current)),
            Greeting::OtherVersion(current) => Err(Refusal::OtherVersion(current)),
            Greeting::Unknown | Greeting::Full => self.admit(
                limits,
                moment,
                client,
                incarnation,
                version,
            ),
            Greeting::Newer { waiting } => self.renew(
                limits,
                moment,
                client,
                incarnation,
                version,
                waiting,
            ),
        }
    }

    // The first hello of a client. All that can fail comes first.
    fn admit(
        &mut self,
        limits: &Limits,
        moment: u64,
        client: u64,
        incarnation: u64,
        version: Version,
    ) -> Result<Option<Entry>, Refusal>
        requires ready { IsWhole self.old }
        requires numbered { AreNumbered (state_in self.old) }
        requires time { moment ≤ max_moment }
        requires unknown { get self.old.clients.clients client ≡ None }
        ensures ready { IsWhole self.new }
        ensures numbered { AreNumbered (state_in self.new) }
        ensures ok { IfOk result (WasHeard limits.now self.old self.new moment
            (Hello client incarnation version)
            (said.Welcome self.old.clients.epoch client incarnation version)) }
        ensures err { IfErr result (WasRefused limits.now self.old self.new moment
            (Hello client incarnation version)) }
        ensures room { SameListRoom self.old self.new }
    {
        if self.clients.len() >= limits.clients() {
            return Err(Refusal::ClientsFull);
        }
        if self.is_full(limits, 1) {
            return Err(Refusal::EpochFull);
        }
        match self.clients.admit(client, incarnation, version) {
            Ok(()) => Ok(Some(self.welcome(moment, client, incarnation, version))),
            Err(_) => Err(Refusal::NoMemory),
        }
    }

    // A hello of a later incarnation of a client, whose last request waits at a place if there is one.
    fn renew(
        &mut self,
        limits: &Limits,
        moment: u64,
        client: u64,
        incarnation: u64,
        version: Version,
        waiting: Option<Place>,
    ) -> Result<Option<Entry>, Refusal>
        requires ready { IsWhole self.old }
        requires numbered { AreNumbered (state_in self.old) }
        requires time { moment ≤ max_moment }
        requires lower { HasLowerState self.old.clients client incarnation waiting }
        ensures ready { IsWhole self.new }
        ensures numbered { AreNumbered (state_in self.new) }
        ensures ok { IfOk result (WasHeard limits.now self.old self.new moment
            (Hello client incarnation version)
            (said.Welcome self.old.clients.epoch client incarnation version)) }
        ensures err { IfErr result (WasRefused limits.now self.old self.new moment
            (Hello client incarnation version)) }
        ensures room { SameListRoom self.old self.new }
    {
        if self.is_full(limits, 1) {
            return Err(Refusal::EpochFull);
        }
        match waiting {
            Some(place) => {
                self.end(place, Reply::Cancelled);
                Ok(Some(self.reopen(moment, client, incarnation, version)))
            }
            None => Ok(Some(self.reopen(moment, client, incarnation, version))),
        }
    }

    // Opens a session of a client that is known, in which nothing was asked yet, and counts its entry.
    fn reopen(&mut self, moment: u64, client: u64, incarnation: u64, version: Version) -> Entry
        requires ready { IsWhole self.old }
        requires numbered { AreNumbered (state_in self.old) }
        requires time { moment ≤ max_moment }
        requires reopens { CanReopen self.old client }
        requires space { self.old.length + count_waiting self.old.table < most_counted }
        ensures ready { IsWhole self.new }
        ensures numbered { AreNumbered (state_in self.new) }
        ensures entry { result ≡ entry moment (act.Hello client incarnation version) [] }
        ensures after { state_in self.new ≡ advanced (with_client (state_in self.old) client
            (fresh_state incarnation version)) moment }
        ensures settles { self.new.settled ≡ self.old.settled }
    {
        self.clients.renew(client, incarnation, version);
        self.welcome(moment, client, incarnation, version)
    }

    // Counts the entry of a hello, and gives it. What is whole stays so if there is space for it.
    fn welcome(&mut self, moment: u64, client: u64, incarnation: u64, version: Version) -> Entry
        requires { self.old.length < most_counted }
        ensures entry { result ≡ entry moment (act.Hello client incarnation version) [] }
        ensures ready { IsWhole self.old → moment ≤ max_moment
            → self.old.length + count_waiting self.old.table < most_counted → IsWhole self.new }
        ensures counted { self.new ≡ counted self.old moment }
    {
        let partners = Partners::none(self.allocator());
        let hello = Act::Hello {
            client,
            incarnation,
            version,
        };
        self.record(moment, hello, partners)
    }
}
