//! The numbers of connections that changed, each once.
ghost use Rattle.std.specs.Prelude.{◌≡◌, ◌<◌, ◌≤◌, ℕ, [], Contains, length, vec_capacity, OnOk};
ghost use Rattle.rv_server_connections.specs.Connections.{ListsAll, ListsOne};
ghost use Rattle.rv_server_connections.specs.Noting.{IsChanges};

use crate::connection::NoMemory;
use crate::subscribers::ConnectionNumber;
use std::alloc::Global;

// The numbers that are listed, with room for all that have a flag.
#[derive(Drop)]
pub(crate) struct ChangeList {
    pub(crate) numbers: Vec<ConnectionNumber>,
    // Whether each number is listed.
    pub(crate) flags: Vec<bool>,
}

impl ChangeList {
    pub(crate) fn empty(alloc: Global) -> ChangeList
        ensures sound { IsChanges result }
        ensures none { result.numbers.items ≡ [] }
        ensures flags { result.flags.items ≡ [] }
    {
        ChangeList {
            numbers: Vec::new(alloc),
            flags: Vec::new(alloc),
        }
    }

    // Gives each number below this one a flag.
    fn add_flags(&mut self, room: usize)
        requires sound { IsChanges self.old }
        requires numbers { room ≤ vec_capacity self.old.numbers }
        requires flags { room ≤ vec_capacity self.old.flags }
        ensures sound { IsChanges self.new }
        ensures same { self.new.numbers ≡ self.old.numbers }
        ensures grows { length self.old.flags.items ≤ length self.new.flags.items }
        ensures room { room ≤ length self.new.flags.items }
    {
        while self.flags.len() < room {
            self.flags.push_reserved(false);
        }
    }

    // Makes room for the numbers below this one.
    pub(crate) fn make_room(&mut self, room: usize) -> Result<(), NoMemory>
        requires { IsChanges self.old }
        ensures sound { IsChanges self.new }
        ensures same { self.new.numbers.items ≡ self.old.numbers.items }
        ensures grows { length self.old.flags.items ≤ length self.new.flags.items }
        ensures room { OnOk result (room ≤ length self.new.flags.items) }
    {
        self.numbers.reserve(room)?;
        self.flags.reserve(room)?;
        self.add_flags(room);
        Ok(())
    }

    // A number is listed, if it isn't yet.
    pub(crate) fn mark(&mut self, number: ConnectionNumber)
        requires sound { IsChanges self.old }
        requires room { number < length self.old.flags.items }
        ensures sound { IsChanges self.new }
        ensures listed { ListsOne self.old.numbers.items number self.new.numbers.items }
        ensures room { length self.new.flags.items ≡ length self.old.flags.items }
    {
        if self.flags[number] {
            return;
        }
        self.flags[number] = true;
        self.numbers.push_reserved(number);
    }

    pub(crate) fn mark_all(&mut self, numbers: &[ConnectionNumber])
        requires sound { IsChanges self.old }
        requires room { (number : ℕ) → Contains numbers.now number → number < length self.old.flags.items }
        ensures sound { IsChanges self.new }
        ensures listed { ListsAll self.old.numbers.items numbers.now self.new.numbers.items }
        ensures room { length self.new.flags.items ≡ length self.old.flags.items }
    {
        for number in numbers {
            self.mark(*number);
        }
    }

    pub(crate) fn clear(&mut self)
        requires { IsChanges self.old }
        ensures sound { IsChanges self.new }
        ensures none { self.new.numbers.items ≡ [] }
        ensures room { length self.new.flags.items ≡ length self.old.flags.items }
    {
        while let Some(number) = self.numbers.pop() {
            self.flags[number] = false;
        }
    }
}
