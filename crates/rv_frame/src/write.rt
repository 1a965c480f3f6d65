//! Writes frames to a sink.
ghost use Rattle.std.specs.Prelude.{◌≡◌, ◌≤◌, ◌<◌, ◌+◌, ◌++◌, true, false, take, drop, length};
ghost use Rattle.std.specs.Prelude.{IfErr, IsErrOf, OnErr, OnOk};
ghost use Rattle.rv_frame.specs.Cut.{IsFrameBody, frame_bytes};
ghost use Rattle.rv_frame.specs.Sink.{SinkTakes, sink_failed};

use crate::sink::{Sink, WriteFault};
use std::io::Write;

// How many bytes of a frame go to the device together: those of its length, and the first of its body. A
// longer frame takes a second write, for the rest of its body.
const FRONT_BYTES: usize = 4_098;

/// Writes the frame of a body of 1 to 65,535 bytes: its two length bytes, the greater part first, and
/// the body. The device is never flushed. A device that takes all that it is given is written to once, or
/// twice if the body has more than 4,096 bytes.
///
/// `WriteFault` counts the bytes of the frame that went out, those of the length too, and never all of
/// them. The sink has then failed, as [`Sink::write_all`] says.
pub fn write_frame<W: Write>(sink: &mut Sink<W>, body: &[u8]) -> Result<(), WriteFault>
    requires { IsFrameBody body.now }
    ensures frame { OnOk result (SinkTakes W.contents sink.old sink.new (frame_bytes body.now)) }
    ensures sent { IfErr result (λ fault.
        SinkTakes W.contents sink.old sink.new (take fault.sent (frame_bytes body.now))) }
    ensures not_all { IfErr result (λ fault. fault.sent < length (frame_bytes body.now)) }

    // All goes out only to a sink that has not failed, and a fault comes only with a failure.
    ensures ok { OnOk result ((sink_failed sink.old ≡ false) × (sink_failed sink.new ≡ false)) }
    ensures fault { OnErr result (sink_failed sink.new ≡ true) }

    // A sink that has failed gives its device nothing.
    ensures refused { sink_failed sink.old ≡ true → IsErrOf result (record { sent = 0 }) }
    ensures kept { sink_failed sink.old ≡ true → sink.new ≡ sink.old }
{
    let mut front = [0u8; FRONT_BYTES];
    let count = put_front(&mut front, body);
    write_parts(sink, &front[..count + 2], &body[count..])
}

// Puts the length bytes and the first of the body into the buffer, and gives how many of the body these are.
fn put_front(front: &mut [u8; FRONT_BYTES], body: &[u8]) -> usize
    requires { IsFrameBody body.now }
    ensures within { result ≤ length body.now }
    ensures room { result + 2 ≤ 4098 }
    ensures frame { take (result + 2) front.new ++ drop result body.now ≡ frame_bytes body.now }
{
    let count = body.len().min(FRONT_BYTES - 2);
    front[..2].copy_from_slice(&[(body.len() / 256) as u8, (body.len() % 256) as u8]);
    front[2..count + 2].copy_from_slice(&body[..count]);
    count
}

// Writes bytes that are not none, and those that follow them.
fn write_parts<W: Write>(sink: &mut Sink<W>, front: &[u8], rest: &[u8]) -> Result<(), WriteFault>
    requires { 0 < length front.now }
    ensures all { OnOk result (SinkTakes W.contents sink.old sink.new (front.now ++ rest.now)) }
    ensures sent { IfErr result (λ fault.
        SinkTakes W.contents sink.old sink.new (take fault.sent (front.now ++ rest.now))) }
    ensures not_all { IfErr result (λ fault. fault.sent < length (front.now ++ rest.now)) }
    ensures ok { OnOk result ((sink_failed sink.old ≡ false) × (sink_failed sink.new ≡ false)) }
    ensures fault { OnErr result (sink_failed sink.new ≡ true) }
    ensures refused { sink_failed sink.old ≡ true → IsErrOf result (record { sent = 0 }) }
    ensures kept { sink_failed sink.old ≡ true → sink.new ≡ sink.old }
{
    sink.write_all(front)?;
    match sink.write_all(rest) {
        Ok(()) => Ok(()),
        Err(fault) => Err(WriteFault {
            sent: front.len() + fault.sent,
        }),
    }
}
