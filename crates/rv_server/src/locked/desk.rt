//! The parts that a server is given: a desk that handles messages, a clock, and a gate for pauses.
ghost use Rattle.std.specs.Prelude.{◌≡◌, ◌≤◌, ℕ, IfOk};
ghost use Rattle.rv_text.specs.declared.message.Message.{Message};
ghost use Rattle.rv_text.specs.Limits.{FitsAnswer, FitsMessage};
ghost use Rattle.rv_server.specs.locked.Stamps.{Stamped};

use rv_text::{Answer, Message, NoMemory};
use std::alloc::Global;

/// A desk handles messages, one at a time, and keeps entries. `rv_book`'s `Book` is one.
pub trait Desk: Drop {
    /// The result of `handle`, which nothing else makes. Contracts see in it the message that was handled,
    /// its answer, and the number of entries before and after.
    type Stamp: Drop;

    // The stamp as contracts see it.
    ghost stamped: { Self.Stamp → Stamped };

    // How many entries the desk has.
    ghost count: { Self → ℕ };

    // A message that came at a moment leads from one desk to another, with this stamp.
    ghost steps: { Self → ℕ → Message → Self → Self.Stamp → Type 0 };

    // The stamp was given by this desk.
    ghost gave: { Self → Self.Stamp → Type 0 };

    /// Handles a message that keeps its limits and came at a moment in milliseconds. It never lowers the
    /// number of entries.
    fn handle(&mut self, now: u64, message: Message) -> Self::Stamp
        requires { FitsMessage message }
        ensures step { steps self.old now message self.new result }
        ensures gave { gave self.new result }
        ensures asked { (stamped result).asked ≡ message }
        ensures fits { FitsAnswer (stamped result).said }
        ensures before { (stamped result).before ≡ count self.old }
        ensures length { (stamped result).length ≡ count self.new }
        ensures never_lower { count self.old ≤ count self.new };

    /// The answer for which a stamp of this desk stands. Fails only if memory for a text was refused.
    fn answer(&self, alloc: Global, stamp: &Self::Stamp) -> Result<Answer, NoMemory>
        requires { gave self.now stamp.now }
        ensures { IfOk result (λ answer. answer ≡ (stamped stamp.now).said) };

    /// The number of the desk's entries.
    fn entries(&self) -> u64
        ensures { result ≡ count self.now };
}

/// A clock in whole milliseconds.
pub trait Clock {
    /// The present moment.
    fn now(&self) -> u64;
}

/// A worker's pause while the request that it asked for waits.
pub trait Gate {
    /// Returns after some time. It is called with the lock free.
    fn pause(&self);
}
