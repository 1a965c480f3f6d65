//! Redoes what an entry did that was written before.
ghost use Rattle.std.specs.Prelude.{◌≡◌, ◌≤◌, [], true, false};
ghost use Rattle.rv_text.specs.Limits.{FitsMessage};
ghost use Rattle.rv_account.specs.Limits.{FitsAct};
ghost use Rattle.rv_account.specs.rules.Steps.{max_moment};
ghost use Rattle.rv_machine.specs.Machines.{IsWhole, state_in};
ghost use Rattle.rv_machine.specs.Needing.{act_of};
ghost use Rattle.rv_machine.specs.Numbering.{AreNumbered};
ghost use Rattle.rv_machine.specs.Redoing.{MayRedo, IsRedone, NeedsNoMemory};

use crate::machine::{Machine, Said};
use crate::tables::Holdings;
use rv_account::Act;
use rv_account::rules::Limits;
use rv_text::Message;

impl Holdings {
    // Does again what an entry did, of the tables.
    fn redo(&mut self, moment: u64, act: Act) -> bool
        requires ready { IsWhole self.old }
        requires numbered { AreNumbered (state_in self.old) }
        requires time { moment ≤ max_moment }
        requires fits { FitsAct act }
        requires goes_on { MayRedo (state_in self.old) moment act }
        ensures ready { IsWhole self.new }
        ensures numbered { AreNumbered (state_in self.new) }
        ensures done { result ≡ true → IsRedone self.old self.new moment act }
        ensures stays { result ≡ false → state_in self.new ≡ state_in self.old }
        ensures none { result ≡ false → self.new.settled.items ≡ [] }
        ensures spare { NeedsNoMemory (state_in self.old) act → result ≡ true }
    {
        match act {
            Act::Tick => {
                self.elapse(moment);
                true
            }
            Act::Hello {
                client,
                incarnation,
                version,
            } => {
                let hello = Message::Hello {
                    client,
                    incarnation,
                    version,
                };
                self.redo_message(moment, hello)
            }
            Act::Arrive { key, call } => self.redo_message(moment, Message::Request { key, call }),
            Act::Cancel { key } => self.redo_message(moment, Message::Cancel { key }),
        }
    }

    // The same of the entry that a message made.
    fn redo_message(&mut self, moment: u64, message: Message) -> bool
        requires ready { IsWhole self.old }
        requires numbered { AreNumbered (state_in self.old) }
        requires time { moment ≤ max_moment }
        requires fits { FitsMessage message }
        requires goes_on { MayRedo (state_in self.old) moment (act_of message) }
        ensures ready { IsWhole self.new }
        ensures numbered { AreNumbered (state_in self.new) }
        ensures done { result ≡ true → IsRedone self.old self.new moment (act_of message) }
        ensures stays { result ≡ false → state_in self.new ≡ state_in self.old }
        ensures none { result ≡ false → self.new.settled.items ≡ [] }
        ensures spare { NeedsNoMemory (state_in self.old) (act_of message) → result ≡ true }
    {
        let heard = self.hear(&Limits::widest(), moment, message);
        drop(heard.entry);
        match heard.said {
            Said::Refused(_) => false,
            Said::Welcome(..) => true,
            Said::Told(_) => true,
        }
    }
}

impl Machine {
    /// Redoes what an entry with this moment and act did that was written before, whatever the limits of its
    /// step, and lists the keys that it settles. Says whether it was done: it fails only if memory was
    /// refused, and then the state stays and no key is listed. A tick, and a cancel of what waits, take no
    /// memory.
    pub fn redo(&mut self, moment: u64, act: Act) -> bool
        requires time { moment ≤ max_moment }
        requires fits { FitsAct act }
        requires goes_on { MayRedo (state_in self.old) moment act }
        ensures done { result ≡ true → IsRedone self.old self.new moment act }
        ensures stays { result ≡ false → state_in self.new ≡ state_in self.old }
        ensures none { result ≡ false → self.new.settled.items ≡ [] }
        ensures spare { NeedsNoMemory (state_in self.old) act → result ≡ true }
    {
        self.tables.redo(moment, act)
    }
}
