//! Answers a connection through bytes that are held back, so that its answers go out together.
ghost use Rattle.std.specs.Prelude.{◌≡◌, [], IfOk, None, OnErr};
ghost use Rattle.std.specs.Io.Buffered.{writer_contents};
ghost use Rattle.std.specs.Io.KnownBytes.{Keeps};
ghost use Rattle.rv_frame.specs.Sink.{sink_contents};
ghost use Rattle.rv_server.specs.Sending.{IsFirstFault, WorksThrough, held_behind};
ghost use Rattle.rv_server.specs.Works.{listing_of};

use crate::context::WorkerContext;
use crate::fault::WorkFault;
use crate::locked::{Clock, Desk, Gate, Seat};
use crate::served::Served;
use crate::worker::work;
use rv_frame::{Sink, Source};
use std::alloc::Global;
use std::io;
use std::io::{BufWriter, Read, Write};
use std::sync::Wait;
use std::sync::ledger::Ledger;

// The most bytes of answers that are held back.
const HELD_BYTES: usize = 16_384;

// The outcome of a connection: the report on its frames, the fault that ended it, if one did, and its writer,
// with the bytes of answers that it did not take.
#[derive(Drop)]
pub(crate) struct Passed<D: Desk, W> {
    pub(crate) served: Served<D>,
    pub(crate) fault: Option<WorkFault>,
    pub(crate) writer: W,
    pub(crate) held: Vec<u8>,
}

// The sink's writer, to which all that was held back is written, and the bytes that it did not take. A sink
// that has failed gives it nothing more.
fn parted<W: Write + Drop>(alloc: Global, sink: Sink<BufWriter<W>>) -> (W, Vec<u8>)
    ensures { Keeps (sink_contents (writer_contents W.contents) sink)
        (held_behind (W.contents result.0) result.1.items) }
{
    let failed = sink.failed();
    let buffered = sink.into_inner();
    if failed {
        return buffered.into_parts();
    }
    match buffered.into_inner() {
        Ok(writer) => (writer, Vec::new(alloc)),
        Err(error) => error.into_inner().into_parts(),
    }
}

// Sends the bytes that a worker left held back. If not all can be sent, that is a fault, unless there is one.
fn closed<D: Desk, W: Write + Drop>(
    alloc: Global,
    served: Served<D>,
    fault: Option<WorkFault>,
    sink: Sink<BufWriter<W>>,
) -> Passed<D, W>
    ensures served { result.served ≡ served }
    ensures fault { IsFirstFault fault result.fault result.held.items }
    ensures sent { Keeps (sink_contents (writer_contents W.contents) sink)
        (held_behind (W.contents result.writer) result.held.items) }
{
    let (writer, held) = parted(alloc, sink);
    let fault = told(fault, &held);
    Passed {
        served,
        fault,
        writer,
        held,
    }
}

// The first fault: the worker's, or that not all was sent.
fn told(fault: Option<WorkFault>, held: &[u8]) -> Option<WorkFault>
    ensures { IsFirstFault fault result held.now }
{
    match fault {
        Some(fault) => Some(fault),
        None => if held.is_empty() {
            None
        } else {
            Some(WorkFault::WriteFault(0))
        },
    }
}

impl<'a, T: Wait, D: Desk, L: Ledger, C: Clock, G: Gate> WorkerContext<'a, T, D, L, C, G> {
    // Answers the frames of a connection as `work` does, over a writer with at most 16,384 bytes of answers
    // held back in front of it. They go to the writer before each read, before each pause, and at the end.
    pub(crate) fn answer_through<R: Read, W: Write + Drop>(
        &self,
        seat: &mut Seat<L>,
        source: &mut Source<R>,
        writer: W,
    ) -> io::Result<Passed<D, W>>
        // The promise of `work` holds for the bytes that the writer took, followed by those that it did not.
        ensures worked { IfOk result (λ passed. WorksThrough R.remaining W.contents
            source.old source.new writer passed.writer passed.held.items seat.old seat.new
            (listing_of D.stamped passed.served) passed.fault) }
        ensures all_sent { IfOk result (λ passed. passed.fault ≡ None → passed.held.items ≡ []) }
        ensures no_memory { OnErr result ((source.new ≡ source.old) × (seat.new ≡ seat.old)) }
    {
        let mut sink = Sink::new(BufWriter::with_capacity(self.alloc, HELD_BYTES, writer)?);
        let ended = work(
            self.rt,
            self.alloc,
            self.shared,
            seat,
            self.clock,
            self.gate,
            source,
            &mut sink,
        );
        match ended {
            Ok(served) => Ok(closed(self.alloc, served, None, sink)),
            Err((served, fault)) => Ok(closed(self.alloc, served, Some(fault), sink)),
        }
    }
}
