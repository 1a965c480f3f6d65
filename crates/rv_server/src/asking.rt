//! Asks the desk for one frame, until the answer says something else than that the request waits.
ghost use Rattle.std.specs.Prelude.{◌≡◌, ◌<◌, [], ℕ, List, false, true, vec_len, IfErr, IfOk, IsOkAnd};
ghost use Rattle.std.specs.Prelude.{IsTrue, OnErr};
ghost use Rattle.std.specs.Vec.{vec_capacity};
ghost use Rattle.rv_text.specs.Bodies.{IsMessageBody};
ghost use Rattle.rv_text.specs.Limits.{FitsMessage};
ghost use Rattle.rv_frame.specs.Sink.{SinkTakes, sink_failed};
ghost use Rattle.rv_server.specs.locked.Asking.{GetsTold};
ghost use Rattle.rv_server.specs.locked.Stamps.{shown_stamps};
ghost use Rattle.rv_server.specs.Asking.{StopsAsking, Waits};
ghost use Rattle.rv_server.specs.declared.fault.WorkFault.TheVariants.{NoMemory, WriteFault};

use crate::context::WorkerContext;
use crate::fault::WorkFault;
use crate::locked::{Clock, Desk, FrameAnswer, Gate, Seat, read_body};
use rv_frame::Sink;
use rv_text::{Answer, Message};
use std::io::Write;
use std::sync::Wait;
use std::sync::ledger::Ledger;

/// The most pauses for one frame whose request waits.
pub(crate) const MAX_PAUSES: usize = 200;

// Whether there is an answer, and it says that the request waits.
fn waits(asked: &Result<FrameAnswer, WorkFault>) -> bool
    ensures { IsTrue result → IsOkAnd asked.now Waits }
{
    match asked {
        Ok(FrameAnswer::Said(Answer::Waiting { .. })) => true,
        _ => false,
    }
}

// Pauses. Over a sink that has failed it never does.
fn pause<G: Gate, W>(gate: &G, _sink: &Sink<W>)
    requires { sink_failed _sink.now ≡ false }
{
    gate.pause();
}

// Flushes the sink, so that no answer is held back, and then pauses.
fn flush_and_pause<G: Gate, W: Write>(gate: &G, sink: &mut Sink<W>) -> Result<(), WorkFault>
    ensures bytes { SinkTakes W.contents sink.old sink.new [] }
    ensures fault { IfErr result (λ fault. fault ≡ WriteFault 0) }
    ensures failed { OnErr result (sink_failed sink.new ≡ true) }
{
    sink.flush()?;
    pause(gate, sink);
    Ok(())
}

impl<'a, T: Wait, D: Desk, L: Ledger, C: Clock, G: Gate> WorkerContext<'a, T, D, L, C, G> {
    // Has the desk handle a message once, under the lock, at the clock's present moment, and lists the stamp
    // for the frame of this number. Room for it is there.
    fn ask_message(
        &self,
        seat: &mut Seat<L>,
        stamps: &mut Vec<(u32, D::Stamp)>,
        number: u32,
        message: Message,
    ) -> FrameAnswer
        requires fits { FitsMessage message }
        requires room { vec_len stamps.old < vec_capacity stamps.old }
        // What is told of each frame whose body this message has.
        ensures { (body : List ℕ) → IsMessageBody body message → GetsTold number body
            seat.old (shown_stamps D.stamped stamps.old.items)
            seat.new (shown_stamps D.stamped stamps.new.items) result }
    {
        let now = self.clock.now();
        let (stamp, told) = self.shared.ask(self.rt, self.alloc, seat, now, message);
        stamps.push_reserved((number, stamp));
        told
    }

    // Asks the desk once for the frame of this number and body. Room for the stamp is made before the desk
    // is asked; if that is refused, nothing is asked, and it is an error. A body that isn't a message is
    // answered without the desk.
    fn ask_once(
        &self,
        seat: &mut Seat<L>,
        stamps: &mut Vec<(u32, D::Stamp)>,
        number: u32,
        body: &[u8],
    ) -> Result<FrameAnswer, WorkFault>
        ensures told { IfOk result (GetsTold number body.now seat.old
            (shown_stamps D.stamped stamps.old.items) seat.new (shown_stamps D.stamped stamps.new.items)) }
        ensures fault { IfErr result (λ fault. fault ≡ NoMemory) }
        ensures refused { OnErr result ((seat.new ≡ seat.old) × (stamps.new.items ≡ stamps.old.items)) }
    {
        stamps.reserve(1)?;
        match read_body(self.alloc, body) {
            Ok(message) => Ok(self.ask_message(seat, stamps, number, message)),
            Err(told) => Ok(told),
        }
    }

    /// Asks the desk for the frame of this number and body. While its request waits, it flushes the sink,
    /// pauses, and asks again: at most 200 pauses, and then the last answer stands. A flush that fails ends
    /// it.
    pub(crate) fn ask<W: Write>(
        &self,
        seat: &mut Seat<L>,
        sink: &mut Sink<W>,
        stamps: &mut Vec<(u32, D::Stamp)>,
        number: u32,
        body: &[u8],
    ) -> Result<FrameAnswer, WorkFault>
        ensures told { IfOk result (GetsTold number body.now seat.old
            (shown_stamps D.stamped stamps.old.items) seat.new (shown_stamps D.stamped stamps.new.items)) }
        ensures stopped { IfErr result (StopsAsking number body.now seat.old
            (shown_stamps D.stamped stamps.old.items) seat.new (shown_stamps D.stamped stamps.new.items)
            (sink_failed sink.new)) }
        ensures none_written { SinkTakes W.contents sink.old sink.new [] }
    {
        for _paused in 0..MAX_PAUSES {
            let asked = self.ask_once(seat, stamps, number, body);
            if !waits(&asked) {
                return asked;
            }
            flush_and_pause(self.gate, sink)?;
        }
        self.ask_once(seat, stamps, number, body)
    }
}
