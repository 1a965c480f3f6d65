//! Answers the frames of a connection, one by one, until it ends.
ghost use Rattle.std.specs.Prelude.{◌≡◌, None, Some, IfErr, IfOk, OnOk};
ghost use Rattle.rv_server.specs.Works.{Works, connection, listing_of, nothing};
ghost use Rattle.rv_server.specs.Progress.{AnswersFrame, StopsAtFrame, out};

use crate::context::WorkerContext;
use crate::fault::WorkFault;
use crate::inlet::Inlet;
use crate::locked::{Clock, Desk, Gate, Seat, Shared, write_told};
use crate::served::Served;
use rv_frame::{Sink, Source};
use std::alloc::Global;
use std::io::{Read, Write};
use std::sync::Wait;
use std::sync::ledger::Ledger;

/// The most frames of a connection.
pub const MAX_FRAMES: u32 = 65_536;

impl<'a, T: Wait, D: Desk, L: Ledger, C: Clock, G: Gate> WorkerContext<'a, T, D, L, C, G> {
    // Answers one frame. Room for its item is made first.
    fn serve_frame<W: Write>(
        &self,
        seat: &mut Seat<L>,
        sink: &mut Sink<W>,
        served: &mut Served<D>,
        number: u32,
        body: &[u8],
    ) -> Result<(), WorkFault>
        ensures ok { OnOk result (AnswersFrame W.contents number body.now (out sink.old seat.old)
            (out sink.new seat.new) (listing_of D.stamped served.old) (listing_of D.stamped served.new)) }
        ensures fault { IfErr result (StopsAtFrame W.contents number body.now (out sink.old seat.old)
            (out sink.new seat.new) (listing_of D.stamped served.old) (listing_of D.stamped served.new)) }
    {
        served.items.reserve(1)?;
        let told = self.ask(seat, sink, &mut served.stamps, number, body)?;
        let item = write_told(self.alloc, sink, &told)?;
        served.items.push_reserved(item);
        Ok(())
    }

    // Answers frames until the source ends.
    fn serve_frames<R: Read, W: Write>(
        &self,
        seat: &mut Seat<L>,
        source: &mut Source<R>,
        sink: &mut Sink<W>,
        served: &mut Served<D>,
    ) -> Result<(), WorkFault>
        requires { listing_of D.stamped served.old ≡ nothing }
        ensures ok { OnOk result (Works R.remaining W.contents (connection source.old sink.old seat.old)
            (connection source.new sink.new seat.new) (listing_of D.stamped served.new) None) }
        ensures fault { IfErr result (λ fault. Works R.remaining W.contents
            (connection source.old sink.old seat.old) (connection source.new sink.new seat.new)
            (listing_of D.stamped served.new) (Some fault)) }
    {
        let mut inlet = Inlet::new(self.alloc);
        for number in 0..MAX_FRAMES {
            match inlet.next_frame(source, sink) {
                Ok(Some(body)) => self.serve_frame(seat, sink, served, number, body.as_slice())?,
                Ok(None) => return Ok(()),
                Err(fault) => return Err(fault),
            }
        }
        inlet.expect_end(source, sink)
    }
}

/// Answers the frames of a connection, in order, one frame for each, until its source ends or a fault comes.
/// It reads pieces of up to 4,096 bytes, and a further one only when all frames that it read are answered.
/// The sink is flushed before each read and before each pause, so that no answer is held back while the
/// worker waits for its peer or for others. A last flush is left to the caller.
///
/// A frame whose body isn't a message is answered with [`BAD_TEXT_BODY`]. Otherwise the message is handed to
/// the desk, under the lock. If the answer is that the request waits, the worker pauses with the lock free,
/// decodes the body anew and asks again. It pauses at most 200 times, and then the last answer stands. If
/// memory was refused for the message or for the answer's text, [`NO_MEMORY_BODY`] is the answer.
///
/// At most 65,536 frames are answered. The seat's share rises by what the messages of the stamps added. A
/// [`WorkFault`] comes with the report on all that was done before it. After a write fault each earlier
/// answer was written whole, and as many bytes of the next one as the fault counts: none if a flush failed.
/// After a failed write or flush nothing more is asked.
///
/// It waits for the lock and the gate, and wherever the source or the sink does.
pub fn work<T: Wait, D: Desk, L: Ledger, C: Clock, G: Gate, R: Read, W: Write>(
    rt: &T,
    alloc: Global,
    shared: &Shared<D, L>,
    seat: &mut Seat<L>,
    clock: &C,
    gate: &G,
    source: &mut Source<R>,
    sink: &mut Sink<W>,
) -> Result<Served<D>, (Served<D>, WorkFault)>
    ensures ended { IfOk result (λ served. Works R.remaining W.contents
        (connection source.old sink.old seat.old) (connection source.new sink.new seat.new)
        (listing_of D.stamped served) None) }
    ensures stopped { IfErr result (λ stopped. Works R.remaining W.contents
        (connection source.old sink.old seat.old) (connection source.new sink.new seat.new)
        (listing_of D.stamped stopped.0) (Some stopped.1)) }
{
    let context = WorkerContext {
        rt,
        alloc,
        shared,
        clock,
        gate,
    };
    let mut served = Served::nothing(alloc);
    match context.serve_frames(seat, source, sink, &mut served) {
        Ok(()) => Ok(served),
        Err(fault) => Err((served, fault)),
    }
}
