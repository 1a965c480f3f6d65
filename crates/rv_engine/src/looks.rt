//! Numbers of connections, each at most once, in room that was made before.
ghost use Rattle.std.specs.Prelude.{IsTrue, ◌↔◌};
ghost use Rattle.std.specs.Prelude.{◌≡◌, ◌≤◌, ◌<◌, ◌++◌, ◌∷◌, [], length, vec_capacity, IfOk, IfNone, IfSome};
ghost use Rattle.rv_server_connections.specs.Connections.{ListsOne};
ghost use Rattle.rv_engine.specs.Engines.{IsLooks};
ghost use Rattle.rv_engine.specs.Handing.{AddsLooks};

use rv_server_connections::subscribers::ConnectionNumber;
use std::alloc::{AllocError, Global};

/// The numbers that are listed, with room for all that have a flag.
pub struct LookList {
    pub(crate) numbers: Vec<ConnectionNumber>,
    // Whether each number is listed.
    pub(crate) flags: Vec<bool>,
}

// Whoever owns one drops it in one step.
impl Drop for LookList {
    fn drop(self) {
        let LookList {
            numbers: _,
            flags: _,
        } = self;
    }
}

impl LookList {
    /// An empty list, which has room for all numbers below this one.
    pub fn new(alloc: Global, most: usize) -> Result<LookList, AllocError>
        ensures sound { IfOk result IsLooks }
        ensures none { IfOk result (λ list. list.numbers.items ≡ []) }
        ensures room { IfOk result (λ list. length list.flags.items ≡ most) }
    {
        let mut list = LookList {
            numbers: Vec::with_capacity(alloc, most)?,
            flags: Vec::with_capacity(alloc, most)?,
        };
        list.add_flags(most);
        Ok(list)
    }

    /// Two empty lists, each with room for all numbers below this one.
    pub(crate) fn pair(alloc: Global, most: usize) -> Result<(LookList, LookList), AllocError>
        ensures sound { IfOk result (λ lists. IsLooks lists.0 × IsLooks lists.1) }
        ensures none { IfOk result (λ lists. (lists.0.numbers.items ≡ []) × (lists.1.numbers.items ≡ [])) }
        ensures room { IfOk result (λ lists. (length lists.0.flags.items ≡ most)
            × (length lists.1.flags.items ≡ most)) }
    {
        let one = LookList::new(alloc, most)?;
        let other = LookList::new(alloc, most)?;
        Ok((one, other))
    }

    /// Whether no number is listed.
    pub fn is_empty(&self) -> bool
        ensures { IsTrue result ↔ (self.now.numbers.items ≡ []) }
    {
        self.numbers.is_empty()
    }

    // Gives each number below this one a flag.
    fn add_flags(&mut self, most: usize)
        requires sound { IsLooks self.old }
        requires none { self.old.flags.items ≡ [] }
        requires numbers { most ≤ vec_capacity self.old.numbers }
        requires flags { most ≤ vec_capacity self.old.flags }
        ensures sound { IsLooks self.new }
        ensures same { self.new.numbers ≡ self.old.numbers }
        ensures room { length self.new.flags.items ≡ most }
    {
        while self.flags.len() < most {
            self.flags.push_reserved(false);
        }
    }

    // A number that has a flag is listed, if it isn't yet.
    fn mark(&mut self, number: ConnectionNumber)
        requires sound { IsLooks self.old }
        requires room { number < length self.old.flags.items }
        ensures sound { IsLooks self.new }
        ensures listed { ListsOne self.old.numbers.items number self.new.numbers.items }
        ensures room { length self.new.flags.items ≡ length self.old.flags.items }
    {
        if self.flags[number] {
            return;
        }
        self.flags[number] = true;
        self.numbers.push_reserved(number);
    }

    /// Lists a number, if it has room and isn't listed yet.
    pub fn add(&mut self, number: ConnectionNumber)
        requires { IsLooks self.old }
        ensures sound { IsLooks self.new }
        ensures adds { AddsLooks (length self.old.flags.items) self.old.numbers.items (number ∷ [])
            self.new.numbers.items }
        ensures room { length self.new.flags.items ≡ length self.old.flags.items }
    {
        if number < self.flags.len() {
            self.mark(number);
        }
    }

    /// Lists these numbers likewise.
    pub(crate) fn add_all(&mut self, numbers: &[ConnectionNumber])
        requires { IsLooks self.old }
        ensures sound { IsLooks self.new }
        ensures adds { AddsLooks (length self.old.flags.items) self.old.numbers.items numbers.now
            self.new.numbers.items }
        ensures room { length self.new.flags.items ≡ length self.old.flags.items }
    {
        for number in numbers {
            self.add(*number);
        }
    }

    /// Takes the last number off the list.
    pub fn pop(&mut self) -> Option<ConnectionNumber>
        requires { IsLooks self.old }
        ensures sound { IsLooks self.new }
        ensures some { IfSome result (λ number. self.old.numbers.items
            ≡ self.new.numbers.items ++ number ∷ []) }
        ensures none { IfNone result (self.old.numbers.items ≡ []) }
        ensures none_same { IfNone result (self.new.numbers.items ≡ []) }
        ensures room { length self.new.flags.items ≡ length self.old.flags.items }
    {
        let number = self.numbers.pop()?;
        self.flags[number] = false;
        Some(number)
    }
}
