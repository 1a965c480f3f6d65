//! One call over a link: a hello, and then its request.
ghost use Rattle.std.specs.Prelude.{◌≡◌, IfErr, IfOk, IfSome, None, Some};
ghost use Rattle.rv_text.specs.Limits.{FitsCall, FitsIdentifier, FitsKey};
ghost use Rattle.rv_client.specs.Link.{Asks, link, message_frame};
ghost use Rattle.rv_client.specs.Process.{first_key, request_of};
ghost use Rattle.rv_commands.specs.Asking.{EndsAsking, EndsCall, EndsHello, GetsWelcome, TellsOfRequest};
ghost use Rattle.rv_commands.specs.Asking.{refusal_in};

use rv_client::{HearOutcome, Idle, LinkFault, New, Outstanding, WelcomeOutcome, ask};
use rv_frame::{Sink, Source};
use rv_text::{Answer, Call, Key, Refusal, Reply};
use std::alloc::Global;
use std::io::{Read, Write};

/// What came of a call over one link.
#[derive(Drop)]
pub enum CallEnd {
    /// The request of this key has this reply.
    Replied(Key, Reply),
    /// The request of this key was refused, for a reason that leaves it open.
    Refused(Key, Refusal),
    /// Nothing final was heard of the request of this key, because of this fault of the link or, without one,
    /// of another answer. It may have been carried out, or may be later.
    Unsettled(Key, Option<LinkFault>),
    /// The request of this key ended without a reply: the server has this later epoch.
    EpochEnded(Key, u64),
    /// The request of this key ended without a reply: its client has this later incarnation.
    Replaced(Key, u64),
    /// The request of this key, which was asked before, wasn't asked again: the server has this other epoch.
    Moved(Key, u64),
    /// The hello was refused, for this reason, and nothing was asked.
    Unwelcome(Refusal),
    /// The client wasn't welcome, because of this fault of the link or, without one, of another answer.
    /// Nothing was asked.
    Unheard(Option<LinkFault>),
}

/// Says hello once over a link and, if the client is welcome, asks the call once, under its first number.
///
/// Each goes out as one frame, and one frame is read after it. After a fault of the link the same client asks
/// again over another one, with the key that its request had `earlier`: hello and request are then the same,
/// and in another epoch, in which the call would be carried out once more, nothing is asked.
pub fn ask_call<R: Read, W: Write>(
    alloc: Global,
    new: New,
    call: Call,
    earlier: Option<Key>,
    from: &mut Source<R>,
    to: &mut Sink<W>,
) -> CallEnd
    requires client { FitsIdentifier new.client }
    requires incarnation { FitsIdentifier new.incarnation }
    requires call { FitsCall call }
    ensures { EndsCall R.remaining W.contents new call earlier
        (link from.old to.old) (link from.new to.new) result }
{
    let idle = match say_hello(alloc, new, from, to) {
        Ok(idle) => idle,
        Err(end) => return end,
    };
    let outstanding = idle.begin(call);
    let key = outstanding.key();
    match moved_from(earlier, key) {
        Some(before) => {
            outstanding.abandon();
            CallEnd::Moved(before, key.epoch)
        }
        None => ask_once(alloc, outstanding, from, to),
    }
}

// The earlier key, if there is one and it isn't this one.
fn moved_from(earlier: Option<Key>, key: Key) -> Option<Key>
    ensures some { IfSome result (λ before. (earlier ≡ Some before) × ¬ (before ≡ key)) }
    ensures none { result ≡ None → IfSome earlier (λ before. before ≡ key) }
{
    let before = earlier?;
    if before == key { None } else { Some(before) }
}

// Says hello once.
fn say_hello<R: Read, W: Write>(
    alloc: Global,
    new: New,
    from: &mut Source<R>,
    to: &mut Sink<W>,
) -> Result<Idle, CallEnd>
    requires client { FitsIdentifier new.client }
    requires incarnation { FitsIdentifier new.incarnation }
    ensures welcome { IfOk result (GetsWelcome R.remaining W.contents new
        (link from.old to.old) (link from.new to.new)) }
    ensures ended { IfErr result (EndsHello R.remaining W.contents new
        (link from.old to.old) (link from.new to.new)) }
{
    let hello = new.message();
    let answer = match ask(alloc, from, to, &hello) {
        Ok(answer) => answer,
        Err(fault) => return Err(CallEnd::Unheard(Some(fault))),
    };
    match new.welcome(&answer) {
        WelcomeOutcome::Idle(idle) => Ok(idle),
        WelcomeOutcome::Again(_) => Err(CallEnd::Unheard(None)),
        WelcomeOutcome::Refused(_, refusal) => Err(CallEnd::Unwelcome(refusal)),
    }
}

// Asks a request once.
fn ask_once<R: Read, W: Write>(
    alloc: Global,
    outstanding: Outstanding,
    from: &mut Source<R>,
    to: &mut Sink<W>,
) -> CallEnd
    requires key { FitsKey outstanding.key }
    requires call { FitsCall outstanding.call }
    ensures { EndsAsking R.remaining W.contents outstanding
        (link from.old to.old) (link from.new to.new) result }
{
    let Ok(request) = outstanding.message(alloc) else {
        return CallEnd::Unsettled(outstanding.abandon(), Some(LinkFault::NoMemory));
    };
    match ask(alloc, from, to, &request) {
        Ok(answer) => hear(outstanding, answer),
        Err(fault) => CallEnd::Unsettled(outstanding.abandon(), Some(fault)),
    }
}

// Hears the answer to a request.
fn hear(outstanding: Outstanding, answer: Answer) -> CallEnd
    ensures { TellsOfRequest outstanding answer result }
{
    let key = outstanding.key();
    let refusal = refusal_of(&answer);
    match outstanding.hear(answer) {
        HearOutcome::Settled(_, reply) => CallEnd::Replied(key, reply),
        HearOutcome::EpochEnded(key, current) => CallEnd::EpochEnded(key, current),
        HearOutcome::Replaced(key, current) => CallEnd::Replaced(key, current),
        HearOutcome::Still(same) => match refusal {
            Some(refusal) => CallEnd::Refused(same.abandon(), refusal),
            None => CallEnd::Unsettled(same.abandon(), None),
        },
    }
}

// The refusal that an answer is, if it is one.
fn refusal_of(answer: &Answer) -> Option<Refusal>
    ensures { result ≡ refusal_in answer.now }
{
    match answer {
        Answer::Refused(refusal) => Some(*refusal),
        _ => None,
    }
}
