//! The space among an epoch's entries: whether there is some, and which messages need it.
ghost use Rattle.std.specs.Prelude.{◌≡◌, ◌↔◌, ◌≤◌, ◌<◌, ◌+◌, true, false, IsTrue};
ghost use Rattle.rv_account.specs.rules.Steps.{max_entries};
ghost use Rattle.rv_text.specs.Limits.{FitsCall, FitsMessage};
ghost use Rattle.rv_machine.specs.open_places.OpenMap.{count_waiting, most_counted};
ghost use Rattle.rv_machine.specs.Entering.{HasSpaceFor};
ghost use Rattle.rv_machine.specs.Limiting.{LacksPlace, LacksPlaceFor};
ghost use Rattle.rv_machine.specs.Machines.{IsWhole, state_in};
ghost use Rattle.rv_machine.specs.Needing.{EntersWithSpace, MayLackMemory, NeedsNoRoom, message_need};
ghost use Rattle.rv_machine.specs.Numbering.{AreNumbered};

use crate::machine::Machine;
use crate::requests::stays;
use crate::tables::Holdings;
use rv_account::need_of;
use rv_account::rules::Limits;
use rv_session::{Greeting, KeyStanding};
use rv_text::{Call, Message};

/// How many entries a message may need: its own, and for a request that waits one that ends its wait.
pub fn message_need(message: &Message) -> usize
    ensures exact { result ≡ message_need message.now }
    ensures small { result ≤ 2 }
{
    match message {
        Message::Request { call, .. } => need_of(call),
        Message::Hello { .. } => 1,
        Message::Cancel { .. } => 1,
    }
}

impl Holdings {
    /// Whether there is no space for so many more entries, besides those that what waits may need.
    pub(crate) fn is_full(&self, limits: &Limits, need: usize) -> bool
        requires ready { IsWhole self.now }
        requires small { need ≤ max_entries }
        ensures full { result ≡ true
            → limits.now.entries < self.now.length + count_waiting self.now.table + need }
        ensures space { result ≡ false → HasSpaceFor limits.now self.now need }
        ensures counts { result ≡ false
            → self.now.length + count_waiting self.now.table + need ≤ most_counted }
    {
        self.length + self.table.waiting() + need > limits.entries()
    }

    /// Whether an arrival with this call would stay although no more places may stand open.
    pub(crate) fn lacks_place(&self, limits: &Limits, call: &Call) -> bool
        requires fits { FitsCall call.now }
        ensures { IsTrue result ↔ LacksPlace limits.now.open_places (state_in self.now) call.now }
    {
        match limits.open_places() {
            Some(most) => {
                self.table.len() >= most && stays(call) && self.table.opposed(call.side()) == 0
            }
            None => false,
        }
    }

    // Whether a message would arrive where it lacks a place.
    fn lacks_place_for(&self, limits: &Limits, message: &Message) -> bool
        requires fits { FitsMessage message.now }
        ensures { IsTrue result ↔ LacksPlaceFor limits.now.open_places (state_in self.now) message.now }
    {
        match message {
            Message::Request { call, .. } => self.lacks_place(limits, call),
            Message::Hello { .. } => false,
            Message::Cancel { .. } => false,
        }
    }

    // Whether the message would get such an entry, heard now under limits.
    fn enters(&self, limits: &Limits, message: &Message) -> bool
        requires ready { IsWhole self.now }
        requires numbered { AreNumbered (state_in self.now) }
        requires fits { FitsMessage message.now }
        ensures yes { result ≡ true → MayLackMemory limits.now (state_in self.now) message.now }
        ensures no { result ≡ false → NeedsNoRoom limits.now (state_in self.now) message.now }
    {
        if self.is_full(limits, message_need(message)) || self.lacks_place_for(limits, message) {
            return false;
        }
        self.is_next(limits, message)
    }

    // Whether the message would get such an entry if there is space for it.
    fn is_next(&self, limits: &Limits, message: &Message) -> bool
        requires ready { IsWhole self.now }
        requires numbered { AreNumbered (state_in self.now) }
        ensures yes { result ≡ true → EntersWithSpace limits.now (state_in self.now) message.now }
        ensures no { result ≡ false → NeedsNoRoom limits.now (state_in self.now) message.now }
    {
        match message {
            Message::Hello {
                client,
                incarnation,
                version,
            } => match self.clients.greet(*client, *incarnation, *version) {
                Greeting::Unknown | Greeting::Full => self.clients.len() < limits.clients(),
                Greeting::Newer { .. } => true,
                _ => false,
            },
            Message::Request { key, .. } => matches!(self.clients.look(key), KeyStanding::Next),
            Message::Cancel { key } => matches!(self.clients.look(key), KeyStanding::Next),
        }
    }
}

impl Machine {
    /// Whether the message, heard now under limits, would get an entry of its own for which room must be
    /// made: no earlier line of the step applies, and it is no cancel of what waits.
    pub fn enters(&self, limits: &Limits, message: &Message) -> bool
        requires fits { FitsMessage message.now }
        ensures yes { result ≡ true → MayLackMemory limits.now (state_in self.now) message.now }
        ensures no { result ≡ false → NeedsNoRoom limits.now (state_in self.now) message.now }
    {
        self.tables.enters(limits, message)
    }
}
