//! The frames of a connection, read from its source.
ghost use Rattle.rv_frame.specs.Sink.{SinkTakes, sink_failed};
ghost use Rattle.rv_server.specs.Reading.{FailsAtSink, MeetsNoEnd, ReadsPiece, TakesFrame, TakesWhole};

use crate::fault::WorkFault;
use rv_frame::{FrameFault, Frames, Sink, Source};
use std::alloc::Global;
use std::io::{Read, Write};
use std::marker::Model;

// The most bytes that are read at once.
const PIECE_BYTES: usize = 4_096;

// The bytes that were read and not taken yet, and the bad length that was met among them.
pub(crate) struct Inlet {
    frames: Frames,
    bad: Option<u16>,
}

// Whoever owns one drops it in one step.
impl Drop for Inlet {
    fn drop(self) {
        let Inlet { frames: _, bad: _ } = self;
    }
}

impl Model for Inlet {
    ghost use Rattle.rv_frame.specs.Stream.{Stream};
    ghost use Rattle.rv_server.specs.Reading.{FollowBytes, IsBadOf};

    ghost Value = { Stream };

    ghost view = { λ inlet. inlet.frames };

    ghost invariant = { λ inlet. IsBadOf inlet.bad inlet.frames.end × FollowBytes inlet.frames.end };
}

impl Inlet {
    ghost use Rattle.std.specs.Prelude.{◌≡◌, ◌<◌, ◌≤◌, [], IfErr, IfOk, None, Ok, OnErr, OnOk, take};
    ghost use Rattle.rv_frame.specs.Cut.{Open};
    ghost use Rattle.rv_frame.specs.Stream.{Feeds, HasFed, IsOpen, rest_length};
    ghost use Rattle.rv_server.specs.Works.{IsCut};
    ghost use Rattle.rv_server.specs.declared.fault.WorkFault.TheVariants.{CutFrame, NoMemory};

    /// An inlet to which nothing was read yet.
    pub(crate) fn new(alloc: Global) -> Inlet
        ensures frames { result.frames ≡ [] }
        ensures end { result.end ≡ Open [] }
        ensures fed { HasFed [] [] result }
    {
        Inlet {
            frames: Frames::new(alloc),
            bad: None,
        }
    }

    /// The body of the next whole frame; `None` if the source ended after the last one. It reads only
    /// while no whole frame is there, and flushes the sink before each read. Each read gives at least one
    /// byte or is the last, so there are at most 65,537.
    pub(crate) fn next_frame<R: Read, W: Write>(
        &mut self,
        source: &mut Source<R>,
        sink: &mut Sink<W>,
    ) -> Result<Option<Vec<u8>>, WorkFault>
        ensures taken { TakesFrame R.remaining source.old source.new self.old self.new result }
        ensures none_written { SinkTakes W.contents sink.old sink.new [] }
        ensures failed { IfErr result (FailsAtSink (sink_failed sink.new)) }
    {
        loop {
            if let Some(body) = self.whole_frame()? {
                return Ok(Some(body));
            }
            sink.flush()?;
            if !self.read_on(source)? {
                return self.at_end();
            }
        }
    }

    /// Reads to the end of the source, where no frame may follow: one that does is a fault.
    pub(crate) fn expect_end<R: Read, W: Write>(
        &mut self,
        source: &mut Source<R>,
        sink: &mut Sink<W>,
    ) -> Result<(), WorkFault>
        ensures ended { OnOk result (TakesFrame R.remaining source.old source.new self.old self.new
            (Ok None)) }
        ensures stopped { IfErr result (MeetsNoEnd R.remaining source.old source.new self.old self.new) }
        ensures none_written { SinkTakes W.contents sink.old sink.new [] }
        ensures failed { IfErr result (FailsAtSink (sink_failed sink.new)) }
    {
        match self.next_frame(source, sink) {
            Ok(Some(_)) => Err(WorkFault::TooLong),
            Ok(None) => Ok(()),
            Err(fault) => Err(fault),
        }
    }

    // Takes the oldest whole frame; `None` if there is none, and no bad length was met.
    fn whole_frame(&mut self) -> Result<Option<Vec<u8>>, WorkFault>
        ensures { TakesWhole self.old self.new result }
    {
        if let Some(body) = self.frames.next()? {
            return Ok(Some(body));
        }
        match self.bad {
            Some(n) => Err(WorkFault::BadLength(n)),
            None => Ok(None),
        }
    }

    // Reads a piece and takes it in; false at the end of the source.
    fn read_on<R: Read>(&mut self, source: &mut Source<R>) -> Result<bool, WorkFault>
        ensures { ReadsPiece R.remaining source.old source.new self.old self.new result }
    {
        let mut buffer = [0u8; PIECE_BYTES];
        let count = source.read(&mut buffer)?;
        if count == 0 {
            return Ok(false);
        }
        self.feed(&buffer, count)?;
        Ok(true)
    }

    // Takes in so many bytes of the buffer. What follows the whole frames is then shorter than the longest
    // frame.
    fn feed(&mut self, buffer: &[u8; PIECE_BYTES], count: usize) -> Result<(), WorkFault>
        requires { count ≤ 4096 }
        ensures fed { OnOk result (Feeds self.old (take count buffer.now) self.new) }
        ensures short { OnOk result (rest_length self.new.end < 65537) }
        ensures refused { OnErr result (self.new ≡ self.old) }
        ensures fault { IfErr result (λ fault. fault ≡ NoMemory) }
    {
        match self.frames.feed(&buffer[..count]) {
            Ok(()) => Ok(()),
            Err(FrameFault::BadLength(n)) => {
                self.bad = Some(n);
                Ok(())
            }
            Err(FrameFault::NoMemory) => Err(WorkFault::NoMemory),
        }
    }

    // The end of the source after all whole frames: there is no frame, or one that is cut.
    fn at_end(&self) -> Result<Option<Vec<u8>>, WorkFault>
        requires { IsOpen self.now.end }
        ensures none { IfOk result (λ body. (body ≡ None) × (self.now.end ≡ Open [])) }
        ensures cut { IfErr result (λ fault. (fault ≡ CutFrame) × IsCut self.now.end) }
    {
        if self.frames.rest() == 0 {
            Ok(None)
        } else {
            Err(WorkFault::CutFrame)
        }
    }
}
