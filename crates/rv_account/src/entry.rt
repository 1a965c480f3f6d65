//! Entries: hellos, requests, cancels and ticks as they are recorded.
ghost use Rattle.std.specs.Prelude.{◌≡◌, ◌↔◌, IfOk, IsTrue};
ghost use Rattle.rv_account.specs.Limits.{FitsAct, FitsEntry};

use crate::partners::Partners;
use rv_text::{Call, Key, NoMemory, Version, fits_identifier};
use std::alloc::Global;

// The greatest moment, 2^62.
const MAX_MOMENT: u64 = 4_611_686_018_427_387_904;

/// What an entry records.
#[derive(PartialEq, Eq, Drop)]
pub enum Act {
    /// A client opened a session of this version.
    Hello {
        client: u64,
        incarnation: u64,
        version: Version,
    },
    /// A request came for the first time.
    Arrive {
        key: Key,
        call: Call,
    },
    /// A request was cancelled: while it waited, or before it came.
    Cancel {
        key: Key,
    },
    /// The wait of each request whose limit had come ended.
    Tick,
}

/// One line of an account.
#[derive(PartialEq, Eq, Drop)]
pub struct Entry {
    /// When it was recorded, in milliseconds; in a book's account at most 2^62.
    pub moment: u64,
    /// What it records.
    pub act: Act,
    /// The places of the earlier arrivals that it met: in a legal account these rise, and only the later
    /// arrival of a pair or swap has some.
    pub partners: Partners,
}

impl Act {
    ghost use Rattle.rv_account.specs.Account.{key_in};

    // The key that it names, if it names one.
    pub(crate) fn key(&self) -> Option<Key>
        ensures { result ≡ key_in self.now }
    {
        match self {
            Act::Arrive { key, .. } => Some(*key),
            Act::Cancel { key } => Some(*key),
            Act::Hello { .. } | Act::Tick => None,
        }
    }

    /// Whether every number and the item are within their limits, and the wait of a swap is not `Now`.
    pub fn fits(&self) -> bool
        ensures { IsTrue result ↔ FitsAct self.now }
    {
        match self {
            Act::Hello {
                client,
                incarnation,
                ..
            } => { fits_identifier(*client) && fits_identifier(*incarnation) }
            Act::Arrive { key, call } => key.fits() && call.fits(),
            Act::Cancel { key } => key.fits(),
            Act::Tick => true,
        }
    }

    // A copy. Fails only if memory for the item of its call was refused.
    fn copy(&self, alloc: Global) -> Result<Act, NoMemory>
        ensures { IfOk result (λ act. act ≡ self.now) }
    {
        match self {
            Act::Hello {
                client,
                incarnation,
                version,
            } => Ok(Act::Hello {
                client: *client,
                incarnation: *incarnation,
                version: *version,
            }),
            Act::Arrive { key, call } => Ok(Act::Arrive {
                key: *key,
                call: call.copy(alloc)?,
            }),
            Act::Cancel { key } => Ok(Act::Cancel { key: *key }),
            Act::Tick => Ok(Act::Tick),
        }
    }
}

impl Entry {
    /// Whether its moment is at most 2^62, and its act is within its limits.
    pub fn fits(&self) -> bool
        ensures { IsTrue result ↔ FitsEntry self.now }
    {
        self.moment <= MAX_MOMENT && self.act.fits()
    }

    // A copy. Fails only if memory was refused.
    pub(crate) fn copy(&self, alloc: Global) -> Result<Entry, NoMemory>
        ensures { IfOk result (λ entry. entry ≡ self.now) }
    {
        Ok(Entry {
            moment: self.moment,
            act: self.act.copy(alloc)?,
            partners: self.partners.copy(alloc)?,
        })
    }
}
