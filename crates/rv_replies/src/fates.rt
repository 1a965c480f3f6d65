//! What became of the requests that were asked about, noted as an account passes.
ghost use Rattle.std.specs.Prelude.{◌≡◌, ◌↔◌, [], IsTrue, None, OnOk, is_some, option_map};
ghost use Rattle.rv_account.specs.Account.{Account, with_entry};
ghost use Rattle.rv_machine.specs.Machines.{state_in};
ghost use Rattle.rv_text.specs.declared.message.Key as message;
ghost use Rattle.rv_replies.specs.Ending.{changed, ended_by, own_fate, told_last_by, told_now};

use crate::changes::{Change, own_fate, turn};
use crate::findings::{Fate, Name};
use crate::telling::{told_last_by, told_now};
use indexmap::IndexMap;
use rv_account::{Act, Entry};
use rv_machine::Machine;
use rv_text::{Call, Key, NoMemory};
use std::alloc::Global;

/// What became of the requests with some keys.
///
/// A call looks one key up in a hash table; `pass` looks up the entry's key and those that it settles. Only
/// keys that are known take more work than that.
#[derive(Drop)]
pub(crate) struct Fates {
    fates: IndexMap<Name, Fate>,
}

impl Fates {
    ghost use Rattle.rv_replies.specs.Known.{AsksAbout, HasPassedBy, IsAbout, KnowsSame, fate_in};
    ghost use Rattle.rv_replies.specs.Noting.{Changes, EndsEach, NotesOwn};

    /// No key is known. It takes no memory yet.
    pub(crate) fn new(alloc: Global) -> Fates
        ensures { (key : message.Key) → fate_in result key ≡ None }
    {
        let fates = IndexMap::new(alloc);
        Fates { fates }
    }

    /// Whether no key is known.
    pub(crate) fn is_empty(&self) -> bool
        ensures { IsTrue result ↔ (self.now.fates.entries ≡ []) }
    {
        self.fates.is_empty()
    }

    /// What became of the key's request, if the key is known.
    pub(crate) fn get(&self, key: &Key) -> Option<&Fate>
        ensures { option_map (λ fate. fate.now) result ≡ fate_in self.now key.now }
    {
        self.fates.get(&Name::of(key))
    }

    fn knows(&self, key: &Key) -> bool
        ensures { result ≡ is_some (fate_in self.now key.now) }
    {
        self.get(key).is_some()
    }

    /// The key is known from now on: as one that nothing names, if it wasn't known before. Fails only if
    /// memory was refused.
    pub(crate) fn ask(&mut self, key: &Key) -> Result<(), NoMemory>
        ensures { OnOk result (AsksAbout self.old self.new key.now) }
    {
        if !self.knows(key) {
            self.fates.insert(Name::of(key), Fate::Unnamed)?;
        }
        Ok(())
    }

    // Changes what became of the key's request, if the key is known.
    fn change(&mut self, key: &Key, change: Change)
        ensures { Changes self.old self.new key.now (changed change) }
    {
        if let Some(fate) = self.fates.get_mut(&Name::of(key)) {
            turn(fate, change);
        }
    }

    // Notes the reply of a request that waited until an act, if its key is known.
    fn tell(
        &mut self,
        alloc: Global,
        machine: &Machine,
        act: &Act,
        key: &Key,
    ) -> Result<(), NoMemory>
        ensures { OnOk result (Changes self.old self.new key.now
            (ended_by (told_now (state_in machine.now) act.now key.now))) }
    {
        if !self.knows(key) {
            return Ok(());
        }
        if let Some(reply) = told_now(alloc, machine, act, key)? {
            self.change(key, Change::Ends(reply));
        }
        Ok(())
    }

    // Notes the replies to the requests that the act settled.
    fn tell_each(&mut self, alloc: Global, machine: &Machine, act: &Act) -> Result<(), NoMemory>
        ensures { OnOk result (EndsEach self.old self.new machine.now.settled.items
            (told_now (state_in machine.now) act.now)) }
    {
        for key in machine.settled() {
            self.tell(alloc, machine, act, key)?;
        }
        Ok(())
    }

    // Notes the call of a request that came, and its reply if it has one, if its key is known.
    fn come(
        &mut self,
        alloc: Global,
        machine: &Machine,
        key: &Key,
        call: &Call,
    ) -> Result<(), NoMemory>
        ensures { OnOk result (Changes self.old self.new key.now
            (λ fate. own_fate call.now (told_last_by (state_in machine.now) key.now))) }
    {
        if !self.knows(key) {
            return Ok(());
        }
        let fate = own_fate(call.copy(alloc)?, told_last_by(alloc, machine, key)?);
        self.change(key, Change::Becomes(fate));
        Ok(())
    }

    // Notes what became of the act's own key, if that is known.
    fn note_own(&mut self, alloc: Global, machine: &Machine, act: &Act) -> Result<(), NoMemory>
        ensures { OnOk result (NotesOwn self.old self.new (state_in machine.now) act.now) }
    {
        match act {
            Act::Hello { .. } => Ok(()),
            Act::Arrive { key, call } => self.come(alloc, machine, key, call),
            Act::Cancel { key } => {
                self.change(key, Change::Cancels);
                Ok(())
            }
            Act::Tick => Ok(()),
        }
    }

    /// Notes what an entry says of the keys that are known, by the machine that has followed it. Fails only
    /// if memory was refused; then it is of no further use.
    pub(crate) fn pass(
        &mut self,
        alloc: Global,
        machine: &Machine,
        entry: &Entry,
    ) -> Result<(), NoMemory>
        ensures about { OnOk result ((a : Account) → HasPassedBy machine.now a entry.now → IsAbout self.old a
            → IsAbout self.new (with_entry a entry.now)) }
        ensures known { OnOk result (KnowsSame self.old self.new) }
    {
        self.tell_each(alloc, machine, &entry.act)?;
        self.note_own(alloc, machine, &entry.act)
    }
}
