//! Replies as they are kept: with places of the account where a reply has a text or a key.
ghost use Rattle.std.specs.Prelude.{◌≡◌};
ghost use Rattle.rv_session.specs.Kept.{told_in};

use rv_text::Version;

/// An entry's index in the account.
pub type Place = usize;

/// The reply that is kept for a session's last request. It takes no memory: a text is named by the place
/// of the arrival that brought it, the texts of a drain by the drain's own place, and a consumer's key by the
/// place where it arrived.
#[derive(Clone, Copy)]
pub enum Kept {
    /// A put was accepted.
    Done,
    /// A transfer's item was assigned to a consumer.
    Received,
    /// A transfer's item was assigned to the consumer that arrived at this place.
    ReceivedBy(Place),
    /// A transfer that doesn't wait found no consumer.
    Nobody,
    /// A take got the item that arrived at this place.
    Item(Place),
    /// A take that doesn't wait, or a peek, found no item.
    Empty,
    /// A swap got the item that arrived at this place.
    Swapped(Place),
    /// The request's wait ended, and it had met nobody.
    TimedOut,
    /// The request was cancelled.
    Cancelled,
    /// How many items and consumers wait.
    Counted { items: usize, consumers: usize },
    /// A peek saw the item that arrived at this place.
    Peeked(Place),
    /// A drain took items in one step. The place is the drain's own: its entry names those that brought them.
    Drained(Place),
}

impl Kept {
    /// The reply as a session of this version gets it: version 1 doesn't say which consumer received an item.
    pub fn told_in(self, version: Version) -> Kept
        ensures { result ≡ told_in version self }
    {
        match (self, version) {
            (Kept::ReceivedBy(_), Version::One) => Kept::Received,
            _ => self,
        }
    }
}
