//! The first line of each key.
ghost use Rattle.std.specs.Prelude.{◌≡◌, None, OnOk, is_some};
ghost use Rattle.rv_text.specs.declared.message.Key as message;

use crate::findings::Name;
use indexmap::IndexMap;
use rv_text::{Key, NoMemory};
use std::alloc::Global;

/// The first line of each key that lines name.
#[derive(Drop)]
pub(crate) struct Firsts {
    firsts: IndexMap<Name, usize>,
}

impl Firsts {
    ghost use Rattle.rv_replies.specs.Firsts.{NotesFirst, first_in};

    /// No line. It takes no memory yet.
    pub(crate) fn new(alloc: Global) -> Firsts
        ensures { (key : message.Key) → first_in result key ≡ None }
    {
        let firsts = IndexMap::new(alloc);
        Firsts { firsts }
    }

    /// The first line of the key.
    pub(crate) fn get(&self, key: &Key) -> Option<usize>
        ensures { result ≡ first_in self.now key.now }
    {
        self.firsts.get(&Name::of(key)).copied()
    }

    fn knows(&self, key: &Key) -> bool
        ensures { result ≡ is_some (first_in self.now key.now) }
    {
        self.get(key).is_some()
    }

    /// Notes a line of the key, after all others. Fails only if memory was refused.
    pub(crate) fn note(&mut self, key: &Key, line: usize) -> Result<(), NoMemory>
        ensures { OnOk result (NotesFirst self.old self.new key.now line) }
    {
        if !self.knows(key) {
            self.firsts.insert(Name::of(key), line)?;
        }
        Ok(())
    }
}
