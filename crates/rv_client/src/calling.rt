//! A call: its request is sent again until a final answer comes.
ghost use Rattle.std.specs.Prelude.{◌≡◌, IfErr, IfOk, IfSome, IsSome};
ghost use Rattle.rv_text.specs.Limits.{FitsCall, FitsKey};
ghost use Rattle.rv_client.specs.Calls.{Calls, Decides, EndsBy};
ghost use Rattle.rv_client.specs.Link.{Asks, link, message_frame};
ghost use Rattle.rv_client.specs.Process as process;

use crate::fault::LinkFault;
use crate::link::exchange;
use crate::request::{HearOutcome, Idle, Outstanding};
use rv_frame::{Sink, Source};
use rv_text::{Answer, Call, Key, Reply};
use std::alloc::Global;
use std::io::{Read, Write};

/// The result of a call.
pub enum CallOutcome {
    /// The request has this reply, and the client is idle at the next number.
    Settled(Idle, Reply),
    /// No final answer came. The last try met this fault, or all tries were made without one.
    Unsettled(Outstanding, Option<LinkFault>),
    /// The request of this key ended without a reply: the server has a later epoch, which is given.
    EpochEnded(Key, u64),
    /// The request of this key ended without a reply: its client has a later incarnation, which is given.
    Replaced(Key, u64),
}

/// Begins a call, and sends its request until an answer is final for it, a fault comes, or `tries` answers
/// were not final. Only frames of this one request go out, and one frame is read after each of them. With 0
/// tries nothing is written or read.
///
/// The client must have a next key, and that key and the call must keep their limits.
pub fn call<R: Read, W: Write>(
    alloc: Global,
    idle: Idle,
    source: &mut Source<R>,
    sink: &mut Sink<W>,
    call: Call,
    tries: u32,
) -> CallOutcome
    requires next { IsSome idle }
    requires key { IfSome idle FitsKey }
    requires call { FitsCall call }
    ensures { IfSome idle (λ key. Calls R.remaining W.contents (record { key = key; call = call }) tries
        (link source.old sink.old) (link source.new sink.new) result) }
{
    let mut outstanding = idle.begin(call);
    for _tried in 0..tries {
        match try_once(alloc, outstanding, source, sink) {
            Ok(same) => outstanding = same,
            Err(called) => return called,
        }
    }
    CallOutcome::Unsettled(outstanding, None)
}

// Sends the request once. It comes back if the answer is not final for it.
fn try_once<R: Read, W: Write>(
    alloc: Global,
    outstanding: Outstanding,
    source: &mut Source<R>,
    sink: &mut Sink<W>,
) -> Result<Outstanding, CallOutcome>
    requires key { FitsKey outstanding.key }
    requires call { FitsCall outstanding.call }
    ensures still { IfOk result (λ same. (same ≡ outstanding) × Decides R.remaining W.contents outstanding
        (link source.old sink.old) (link source.new sink.new)
        (process.Ignored (process.Outstanding outstanding))) }
    ensures ended { IfErr result (EndsBy R.remaining W.contents outstanding
        (link source.old sink.old) (link source.new sink.new)) }
{
    match ask_for(alloc, &outstanding, source, sink) {
        Ok(answer) => match outstanding.hear(answer) {
            HearOutcome::Settled(idle, reply) => Err(CallOutcome::Settled(idle, reply)),
            HearOutcome::Still(same) => Ok(same),
            HearOutcome::EpochEnded(key, current) => Err(CallOutcome::EpochEnded(key, current)),
            HearOutcome::Replaced(key, current) => Err(CallOutcome::Replaced(key, current)),
        },
        Err(fault) => Err(CallOutcome::Unsettled(outstanding, Some(fault))),
    }
}

// The answer to the request, which is sent once.
fn ask_for<R: Read, W: Write>(
    alloc: Global,
    outstanding: &Outstanding,
    source: &mut Source<R>,
    sink: &mut Sink<W>,
) -> Result<Answer, LinkFault>
    requires key { FitsKey outstanding.now.key }
    requires call { FitsCall outstanding.now.call }
    ensures { Asks R.remaining W.contents (message_frame (process.request_of outstanding.now))
        (link source.old sink.old) (link source.new sink.new) result }
{
    let request = outstanding.text(alloc)?;
    exchange(alloc, source, sink, request.as_bytes())
}
