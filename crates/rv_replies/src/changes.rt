//! How an entry changes what became of a request.
ghost use Rattle.std.specs.Prelude.{◌≡◌};
ghost use Rattle.rv_replies.specs.Ending.{buried, changed, ended, own_fate};

use crate::findings::Fate;
use rv_text::{Call, Reply};
use std::mem;

// What an entry does to the request with a key.
#[derive(Drop)]
pub(crate) enum Change {
    // If it waited, it has this reply now.
    Ends(Reply),
    // Its key was cancelled: if nothing named it, that was before it came.
    Cancels,
    // This became of it, whatever it was.
    Becomes(Fate),
}

/// What became of a request that came with this call, and has this reply or waits.
pub(crate) fn own_fate(call: Call, reply: Option<Reply>) -> Fate
    ensures { result ≡ own_fate call reply }
{
    match reply {
        Some(reply) => Fate::RepliedTo { call, reply },
        None => Fate::Waits { call },
    }
}

// The same request with this reply, if it waited.
fn ended(fate: Fate, reply: Reply) -> Fate
    ensures { result ≡ ended reply fate }
{
    match fate {
        Fate::Unnamed => Fate::Unnamed,
        Fate::Waits { call } => Fate::RepliedTo { call, reply },
        Fate::RepliedTo { call, reply } => Fate::RepliedTo { call, reply },
        Fate::CancelledUnseen => Fate::CancelledUnseen,
    }
}

// The same of a key that was cancelled.
fn buried(fate: Fate) -> Fate
    ensures { result ≡ buried fate }
{
    match fate {
        Fate::Unnamed => Fate::CancelledUnseen,
        Fate::Waits { call } => Fate::Waits { call },
        Fate::RepliedTo { call, reply } => Fate::RepliedTo { call, reply },
        Fate::CancelledUnseen => Fate::CancelledUnseen,
    }
}

// What a change makes of it.
fn changed(fate: Fate, change: Change) -> Fate
    ensures { result ≡ changed change fate }
{
    match change {
        Change::Ends(reply) => ended(fate, reply),
        Change::Cancels => buried(fate),
        Change::Becomes(other) => other,
    }
}

/// Changes it.
pub(crate) fn turn(fate: &mut Fate, change: Change)
    ensures { fate.new ≡ changed change fate.old }
{
    let old = mem::replace(fate, Fate::Unnamed);
    *fate = changed(old, change);
}
