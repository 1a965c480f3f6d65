//! What a request asks for: its call, and what a call is.
ghost use Rattle.std.specs.Prelude.{◌≡◌, ◌↔◌, IfOk, IsTrue, option_map};
ghost use Rattle.rv_text.specs.Limits.{FitsMax};

use self::Side::{Exchanges, Gives, Looks, Takes};
use rv_json::{Item, MAX_DRAIN, NoMemory};
use std::alloc::Global;

/// The greatest number of a queue; the least is 0.
pub const MAX_QUEUE: u64 = 63;

/// The greatest number of an exchanger; the least is 0.
pub const MAX_EXCHANGER: u64 = 63;

/// The most milliseconds that a wait may have: a day.
pub const MAX_WAIT: u64 = 86_400_000;

/// How long a request may wait for its partner.
#[derive(Clone, Copy, PartialEq, Eq)]
pub enum Wait {
    /// Not at all, as Java's untimed `poll`.
    Now,
    /// At most so many milliseconds, 0 to 86,400,000, as Java's timed `poll`.
    Millis(u64),
    /// Until it is met or cancelled, or its client says hello with a greater incarnation, as Java's `take`.
    Forever,
}

/// What a request asks of a queue or of an exchanger, each 0 to 63. A call has the item that it hands over,
/// if any, and says how long it waits for a partner, if it may wait.
#[derive(Clone, PartialEq, Eq, Drop)]
pub enum Call {
    /// Appends the item at the queue's tail and never waits (Java's `TransferQueue.put`).
    Put {
        queue: u64,
        item: Item,
    },
    /// Hands the item over to a consumer, and may wait for one (Java's `transfer` and `tryTransfer`).
    Transfer {
        queue: u64,
        item: Item,
        wait: Wait,
    },
    /// Takes the queue's oldest item, and may wait for one (Java's `take` and `poll`).
    Take {
        queue: u64,
        wait: Wait,
    },
    /// Swaps the item for that of another request, and waits for one at least 0 milliseconds: `Now` is no
    /// wait of a swap (Java's `Exchanger.exchange`).
    Swap {
        exchanger: u64,
        item: Item,
        wait: Wait,
    },
    /// Counts the items and the consumers that are there.
    Count {
        queue: u64,
    },
    /// Shows the oldest item and removes nothing.
    Peek {
        queue: u64,
    },
    /// Takes up to `max` of the oldest items in one step, 1 to 16, and never waits (Java's `drainTo`).
    Drain {
        queue: u64,
        max: u64,
    },
}

// What a call is: its word in a body, its side, its wait, how many items it drains, and its item.
#[derive(Clone, Copy)]
pub(crate) struct Nature<'a> {
    pub(crate) word: &'static str,
    pub(crate) side: Side,
    pub(crate) wait: Option<Wait>,
    pub(crate) drains: Option<u64>,
    pub(crate) item: Option<&'a Item>,
}

/// The queue or exchanger of a call, and the call's side of it, which decides what calls it may meet.
#[derive(Clone, Copy, PartialEq, Eq)]
pub enum Side {
    /// It gives an item to this queue, and meets calls that take from it.
    Gives(u64),
    /// It takes an item from this queue, and meets calls that give to it.
    Takes(u64),
    /// It looks at this queue, and meets no call.
    Looks(u64),
    /// It swaps items at this exchanger, and meets calls that swap there too.
    Exchanges(u64),
}

impl<'a> Nature<'a> {
    ghost use Rattle.std.specs.Prelude.{None};

    // That of a call that drains nothing.
    fn of(word: &'static str, side: Side, wait: Option<Wait>, item: Option<&'a Item>) -> Nature<'a>
        ensures word { result.word.now ≡ word.now }
        ensures side { result.side ≡ side }
        ensures wait { result.wait ≡ wait }
        ensures drains { result.drains ≡ None }
        ensures item { option_map (λ i. i.now) result.item ≡ option_map (λ i. i.now) item.entry }
    {
        let drains = None;
        Nature {
            word,
            side,
            wait,
            drains,
            item,
        }
    }
}

impl Wait {
    ghost use Rattle.rv_text.specs.Limits.{FitsWait};

    // Whether its milliseconds, if it has some, are at most 86,400,000.
    fn fits(self) -> bool
        ensures { IsTrue result ↔ FitsWait self }
    {
        match self {
            Wait::Millis(millis) => millis <= MAX_WAIT,
            Wait::Now | Wait::Forever => true,
        }
    }
}

impl Side {
    ghost use Rattle.rv_text.specs.Calls.{MayWait};
    ghost use Rattle.rv_text.specs.Limits.{FitsSide};

    // Whether the number of its queue or exchanger is 0 to 63.
    fn fits(self) -> bool
        ensures { IsTrue result ↔ FitsSide self }
    {
        match self {
            Side::Gives(queue) | Side::Takes(queue) | Side::Looks(queue) => queue <= MAX_QUEUE,
            Side::Exchanges(exchanger) => exchanger <= MAX_EXCHANGER,
        }
    }

    // Whether a call of this side may have this wait.
    fn may_wait(self, wait: Option<Wait>) -> bool
        ensures { IsTrue result ↔ MayWait self wait }
    {
        match self {
            Side::Exchanges(_) => wait != Some(Wait::Now),
            Side::Gives(_) | Side::Takes(_) | Side::Looks(_) => true,
        }
    }
}

impl Call {
    ghost use Rattle.rv_text.specs.Calls.{nature_of, side_of, wait_of, drains_of, item_of};
    ghost use Rattle.rv_text.specs.Limits.{FitsCall};

    // What the call is, one row a call.
    pub(crate) fn nature(&self) -> Nature<'_>
        ensures word { result.word.now ≡ (nature_of self.now).word }
        ensures side { result.side ≡ side_of self.now }
        ensures wait { result.wait ≡ wait_of self.now }
        ensures drains { result.drains ≡ drains_of self.now }
        ensures item { option_map (λ i. i.now) result.item ≡ item_of self.now }
    {
        match self {
            Call::Put { queue, item } => Nature::of("put", Gives(*queue), None, Some(item)),
            Call::Transfer { queue, item, wait } => {
                Nature::of("transfer", Gives(*queue), Some(*wait), Some(item))
            }
            Call::Take { queue, wait } => Nature::of("take", Takes(*queue), Some(*wait), None),
            Call::Swap {
                exchanger,
                item,
                wait,
            } => Nature::of("swap", Exchanges(*exchanger), Some(*wait), Some(item)),
            Call::Count { queue } => Nature::of("count", Looks(*queue), None, None),
            Call::Peek { queue } => Nature::of("peek", Looks(*queue), None, None),
            Call::Drain { queue, max } => Nature {
                drains: Some(*max),
                ..Nature::of("drain", Takes(*queue), Some(Wait::Now), None)
            },
        }
    }

    /// The call's side.
    pub fn side(&self) -> Side
        ensures { result ≡ side_of self.now }
    {
        self.nature().side
    }

    /// How long the call may wait: none for a put, a count and a peek, and now for a drain.
    pub fn wait(&self) -> Option<Wait>
        ensures { result ≡ wait_of self.now }
    {
        self.nature().wait
    }

    /// How many items the call takes at most in one step; none if it meets one partner at most.
    pub fn drains(&self) -> Option<u64>
        ensures { result ≡ drains_of self.now }
    {
        self.nature().drains
    }

    /// The item that the call hands over, if it does.
    pub fn item(&self) -> Option<&Item>
        ensures { option_map (λ i. i.now) result ≡ item_of self.now }
    {
        self.nature().item
    }

    /// Whether the calls are of one kind and have the same members.
    pub fn is_same(&self, other: &Call) -> bool
        ensures { IsTrue result ↔ (self.now ≡ other.now) }
    {
        self == other
    }

    /// A copy of the call. Fails only if memory for its item was refused.
    pub fn copy(&self, _alloc: Global) -> Result<Call, NoMemory>
        ensures same { IfOk result (λ call. call ≡ self.now) }
    {
        self.clone()
    }

    /// Whether the queue or exchanger is 0 to 63, the wait is at most 86,400,000 milliseconds (and not `Now`
    /// for a swap), the most that a drain takes is 1 to 16, and the item has at most 512 bytes.
    pub fn fits(&self) -> bool
        ensures { IsTrue result ↔ FitsCall self.now }
    {
        self.side().fits()
            && self.wait().is_none_or(Wait::fits)
            && self.drains().is_none_or(fits_max)
            && self.item().is_none_or(Item::fits)
            && self.side().may_wait(self.wait())
    }
}

// Whether a drain may take so many items at most.
fn fits_max(max: u64) -> bool
    ensures { IsTrue result ↔ FitsMax max }
{
    (1..=MAX_DRAIN).contains(&max)
}
