//! Findings on an account, and on a reply that a client got, by what became of its request.
ghost use Rattle.std.specs.Prelude.{◌≡◌, ◌↔◌, IsTrue};
ghost use Rattle.rv_account.specs.Account.{Account};
ghost use Rattle.rv_account.specs.rules.Legal.{Legal};
ghost use Rattle.rv_text.specs.declared.answer.Reply.TheVariants.{Counted, Drained};
ghost use Rattle.rv_replies.specs.findings.Fates.{IsFateOf};
ghost use Rattle.rv_replies.specs.findings.Judging.{IsByCall, SaidInstead, TellsSame, kept_by};
ghost use Rattle.rv_replies.specs.findings.Findings.{IsFinding, IsKeptFinding};

mod ending;
mod fate;
pub mod laws;
mod name;
mod status;
mod suits;
mod tally;
mod verdict;

use crate::findings::suits::may_tell;
pub use ending::told_by;
pub use fate::Fate;
pub use name::Name;
use rv_text::{Call, Items, Key, Reply};
pub use status::status_of;
pub use tally::{are_kept, count_of};
pub use verdict::{AccountFinding, AccountVerdict};

/// A reply that a client got.
#[derive(Drop)]
pub struct Told {
    /// The key of its request.
    pub key: Key,
    /// The call that the request made.
    pub call: Call,
    /// The reply itself.
    pub reply: Reply,
}

/// What an account says of such a reply.
#[derive(Clone, Copy, PartialEq, Eq)]
pub enum Finding {
    /// The account gives the key that reply, and its request came with that call.
    Kept,
    /// The account gives the key that reply, by a cancel that came before its request. With which call the
    /// request would have come, the account doesn't say.
    KeptUnseen,
    /// The key is of another epoch.
    OtherEpoch,
    /// No request with that call ever gets that reply.
    Impossible,
    /// The account gives the key another reply.
    OtherReply,
    /// The key's request came with another call.
    OtherCall,
    /// The key's request came with that call, and waits.
    Waiting,
    /// The account names the key nowhere.
    NoRequest,
    /// The line isn't a record of a reply.
    NoRecord,
}

impl Finding {
    /// Whether the account gives the reply.
    pub fn is_kept(self) -> bool
        ensures { IsTrue result ↔ IsKeptFinding self }
    {
        matches!(self, Finding::Kept | Finding::KeptUnseen)
    }
}

/// Whether the reply is this one.
pub fn is_same_reply(reply: &Reply, other: &Reply) -> bool
    ensures { IsTrue result ↔ (reply.now ≡ other.now) }
{
    match reply {
        Reply::Done => matches!(other, Reply::Done),
        Reply::Received => matches!(other, Reply::Received),
        Reply::ReceivedBy(taker) => matches!(other, Reply::ReceivedBy(own) if own == taker),
        Reply::Nobody => matches!(other, Reply::Nobody),
        Reply::Item(item) => matches!(other, Reply::Item(own) if own == item),
        Reply::Empty => matches!(other, Reply::Empty),
        Reply::Swapped(item) => matches!(other, Reply::Swapped(own) if own == item),
        Reply::TimedOut => matches!(other, Reply::TimedOut),
        Reply::Cancelled => matches!(other, Reply::Cancelled),
        Reply::Counted { items, consumers } => is_counted(other, *items, *consumers),
        Reply::Peeked(item) => matches!(other, Reply::Peeked(own) if own == item),
        Reply::Drained(items) => is_drained(other, items),
    }
}

fn is_same_items(items: &Items, other: &Items) -> bool
    ensures { IsTrue result ↔ (items.now ≡ other.now) }
{
    items == other
}

fn is_drained(reply: &Reply, items: &Items) -> bool
    ensures { IsTrue result ↔ (Drained items.now ≡ reply.now) }
{
    match reply {
        Reply::Drained(own) => is_same_items(own, items),
        _ => false,
    }
}

fn is_counted(reply: &Reply, items: u64, consumers: u64) -> bool
    ensures { IsTrue result ↔ (Counted items consumers ≡ reply.now) }
{
    match reply {
        Reply::Counted {
            items: own,
            consumers: takers,
        } => *own == items && *takers == consumers,
        _ => false,
    }
}

// Whether a request with this call and this reply is the one of that record.
fn is_told(told: &Told, call: &Call, reply: &Reply) -> bool
    ensures { IsTrue result ↔ (call.now ≡ told.now.call) × (reply.now ≡ told.now.reply) }
{
    call.is_same(&told.call) && is_same_reply(reply, &told.reply)
}

// Whether a request of which this became got that reply, with that call.
fn tells_same(told: &Told, fate: &Fate) -> bool
    ensures { IsTrue result ↔ TellsSame told.now fate.now }
{
    match fate {
        Fate::Unnamed => false,
        Fate::Waits { .. } => false,
        Fate::RepliedTo { call, reply } => is_told(told, call, reply),
        Fate::CancelledUnseen => matches!(told.reply, Reply::Cancelled),
    }
}

// The finding on a reply that is kept, by what became of its request.
fn kept_by(fate: &Fate) -> Finding
    ensures { result ≡ kept_by fate.now }
{
    match fate {
        Fate::Unnamed => Finding::Kept,
        Fate::Waits { .. } => Finding::Kept,
        Fate::RepliedTo { .. } => Finding::Kept,
        Fate::CancelledUnseen => Finding::KeptUnseen,
    }
}

// This, if the call that came is the one that was asked.
fn by_call(told: &Told, call: &Call, same: Finding) -> Finding
    ensures { IsByCall told.now call.now same result }
{
    if call.is_same(&told.call) {
        same
    } else {
        Finding::OtherCall
    }
}

// The finding by what became of the request, if it didn't get that reply.
fn instead(told: &Told, fate: &Fate) -> Finding
    ensures { SaidInstead told.now fate.now result }
{
    match fate {
        Fate::Unnamed => Finding::NoRequest,
        Fate::Waits { call } => by_call(told, call, Finding::Waiting),
        Fate::RepliedTo { call, .. } => by_call(told, call, Finding::OtherReply),
        Fate::CancelledUnseen => Finding::OtherReply,
    }
}

/// What an account says of the reply, by its epoch and by what became of the key's request in it.
pub fn judge(told: &Told, epoch: u64, fate: &Fate) -> Finding
    ensures { (a : Account) → Legal a → a.epoch ≡ epoch → IsFateOf a.entries told.now.key fate.now
        → IsFinding a told.now result }
{
    if tells_same(told, fate) {
        return kept_by(fate);
    }
    if told.key.epoch != epoch {
        return Finding::OtherEpoch;
    }
    if !may_tell(&told.call, &told.reply) {
        return Finding::Impossible;
    }
    instead(told, fate)
}
