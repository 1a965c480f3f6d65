//! Gathers printed lines, and sends them in large pieces.
ghost use Rattle.std.specs.Prelude.{◌≡◌, ◌∷◌, ◌++◌, ◌+◌, ◌^◌, ◌<◌, ◌≤◌, [], length, IfOk, IfErr, OnErr, OnOk};
ghost use Rattle.std.specs.Io.KnownBytes.{Appends};
ghost use Rattle.std.specs.Vec.{vec_capacity};
ghost use Rattle.rv_frame.specs.Sink.{FailsWithSink, SinkTakes, sink_contents};

use rv_frame::Sink;
use std::alloc::{AllocError, Global};
use std::io::Write;
use thiserror::Error;

/// A write of the output failed. At the first fault, `sent` counts the bytes that went out. These are the
/// first of all that the output had taken in and of the line that it was to take in then, but not all. A
/// later fault doesn't count the bytes that went out at the first.
#[derive(Clone, Copy, Debug, Error)]
#[error("a write failed after {sent} bytes")]
pub struct OutputFault {
    /// The number of bytes that went out.
    pub sent: u128,
}

// The most bytes that are gathered.
const ROOM: usize = 131_072;

/// Lines on their way to a sink, gathered into pieces of at most 131,072 bytes. Its room is made once, in
/// `new`, so a line needs no memory.
pub struct Output {
    gathered: Vec<u8>,
    sent: u128,
    ghost has_room: { 131072 ≤ vec_capacity gathered },
}

// Whoever owns one drops it in one step.
impl Drop for Output {
    fn drop(self) {
        let Output {
            gathered: _,
            sent: _,
        } = self;
    }
}

impl Output {
    ghost use Rattle.rv_run.specs.Output.{KeepsOrSends, StopsAfter, gathered_bytes, promised_contents};
    ghost use Rattle.rv_run.specs.Output.{sent_before, taken_in};

    /// An output that has taken nothing in.
    pub fn new(alloc: Global) -> Result<Output, AllocError>
        ensures gathered { IfOk result (λ output. gathered_bytes output ≡ []) }
        ensures sent { IfOk result (λ output. taken_in output ≡ 0) }
    {
        Ok(Output {
            gathered: Vec::with_capacity(alloc, ROOM)?,
            sent: 0,
        })
    }

    /// Takes in a text of any length, and LF after it. If no room is left for both, the gathered bytes are
    /// sent first; otherwise the sink isn't asked. Only a text of at least 131,072 bytes is sent by itself,
    /// and so only such a text can be cut. At a fault the text is not taken in: the bytes gathered before it
    /// still wait, or all of them went out.
    pub fn line<W: Write>(&mut self, sink: &mut Sink<W>, text: &[u8]) -> Result<(), OutputFault>
        requires { taken_in self.old + length text.now + 1 < 2 ^ 128 }
        ensures ok { OnOk result (Appends (promised_contents (sink_contents W.contents sink.old) self.old)
            (promised_contents (sink_contents W.contents sink.new) self.new) (text.now ++ 10 ∷ [])) }
        ensures count { OnOk result (taken_in self.new ≡ taken_in self.old + length text.now + 1) }
        ensures fault { IfErr result (λ fault. StopsAfter W.contents
            (gathered_bytes self.old ++ (text.now ++ 10 ∷ [])) (sent_before self.old)
            sink.old sink.new fault.sent) }
        ensures cut_before { length text.now < 131072 → IfErr result (λ fault. StopsAfter W.contents
            (gathered_bytes self.old) (sent_before self.old) sink.old sink.new fault.sent) }
        ensures kept { IfErr result (λ fault. KeepsOrSends self.old self.new fault.sent) }
        ensures told { FailsWithSink result sink.old sink.new }
        ensures gathers { length (gathered_bytes self.old) + length text.now + 1 ≤ 131072
            → sink.new ≡ sink.old }
    {
        if text.len() >= ROOM {
            self.flush(sink)?;
            self.sent = Output::send(sink, self.sent, text)?;
        } else {
            if self.gathered.len() >= ROOM - text.len() {
                self.flush(sink)?;
            }
            self.gather(text);
        }
        self.gather(b"\n");
        Ok(())
    }

    /// Sends the gathered bytes. If there are none, the sink is not asked. A fault leaves the output as it
    /// was, and counts the bytes that went out.
    pub fn flush<W: Write>(&mut self, sink: &mut Sink<W>) -> Result<(), OutputFault>
        requires { taken_in self.old < 2 ^ 128 }
        ensures empty { OnOk result (gathered_bytes self.new ≡ []) }
        ensures ok { OnOk result (SinkTakes W.contents sink.old sink.new (gathered_bytes self.old)) }
        ensures count { OnOk result (taken_in self.new ≡ taken_in self.old) }
        ensures fault { IfErr result (λ fault. StopsAfter W.contents (gathered_bytes self.old)
            (sent_before self.old) sink.old sink.new fault.sent) }
        ensures kept { OnErr result (self.new ≡ self.old) }
        ensures told { FailsWithSink result sink.old sink.new }
        ensures idle { gathered_bytes self.old ≡ [] → sink.new ≡ sink.old }
    {
        if self.gathered.is_empty() {
            return Ok(());
        }
        self.sent = Output::send(sink, self.sent, &self.gathered)?;
        self.gathered.clear();
        Ok(())
    }

    // Sends bytes, at least one, after so many that went out, and returns how many have gone out then.
    fn send<W: Write>(sink: &mut Sink<W>, sent: u128, bytes: &[u8]) -> Result<u128, OutputFault>
        requires some { 0 < length bytes.now }
        requires countable { sent + length bytes.now < 2 ^ 128 }
        ensures ok { OnOk result (SinkTakes W.contents sink.old sink.new bytes.now) }
        ensures count { IfOk result (λ count. count ≡ sent + length bytes.now) }
        ensures fault { IfErr result (λ fault.
            StopsAfter W.contents bytes.now sent sink.old sink.new fault.sent) }
        ensures told { FailsWithSink result sink.old sink.new }
    {
        match sink.write_all(bytes) {
            Ok(()) => Ok(sent + bytes.len() as u128),
            Err(fault) => Err(OutputFault {
                sent: sent + fault.sent as u128,
            }),
        }
    }

    // Takes bytes in that there is room for.
    fn gather(&mut self, bytes: &[u8])
        requires { length (gathered_bytes self.old) + length bytes.now ≤ 131072 }
        ensures bytes { gathered_bytes self.new ≡ gathered_bytes self.old ++ bytes.now }
        ensures sent { self.new.sent ≡ self.old.sent }
    {
        self.gathered.extend_from_slice(bytes).unwrap();
    }
}
