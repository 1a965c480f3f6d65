//! One request and one answer over a source and a sink.
ghost use Rattle.std.specs.Prelude.{◌≡◌, ◌<◌, ◌≤◌, [], false, length, IfErr, OnOk};
ghost use Rattle.std.specs.Vec.{vec_capacity};
ghost use Rattle.rv_text.specs.Limits.{FitsMessage};
ghost use Rattle.rv_frame.specs.Cut.{IsFrameBody, frame_bytes, length_bytes};
ghost use Rattle.rv_frame.specs.Source.{SourceGives, source_failed};
ghost use Rattle.rv_client.specs.Link.{Asks, link, message_frame};
ghost use Rattle.rv_client.specs.Reading.{BreaksOff, FallsShort, ReadsFrame};

use crate::fault::LinkFault;
use rv_frame::{Sink, Source, write_frame};
use rv_text::{Answer, MAX_BODY_BYTES, Message, decode_answer, encode_message};
use std::alloc::Global;
use std::io::{Read, Write};

// Fills the buffer with the source's next bytes.
fn fill<R: Read>(source: &mut Source<R>, buffer: &mut [u8]) -> Result<(), LinkFault>
    requires { 0 < length buffer.old }
    ensures bytes { OnOk result (SourceGives R.remaining source.old source.new buffer.new) }
    ensures ok { OnOk result ((source_failed source.old ≡ false) × (source_failed source.new ≡ false)) }
    ensures fault { IfErr result (FallsShort R.remaining source.old source.new (length buffer.old)) }
{
    let mut filled = 0;
    while filled < buffer.len() {
        let count = source.read(&mut buffer[filled..])?;
        if count == 0 {
            return Err(LinkFault::Closed);
        }
        filled += count;
    }
    Ok(())
}

// The length that these two bytes say.
fn length_of(head: &[u8; 2]) -> u16
    ensures { length_bytes result ≡ head.now }
{
    256 * head[0] as u16 + head[1] as u16
}

// Fills a body, which is empty and has the room, with this many of the source's next bytes.
fn fill_body<R: Read>(
    source: &mut Source<R>,
    body: &mut Vec<u8>,
    size: usize,
) -> Result<(), LinkFault>
    requires some { 0 < size }
    requires empty { body.old.items ≡ [] }
    requires room { size ≤ vec_capacity body.old }
    ensures bytes { OnOk result (SourceGives R.remaining source.old source.new body.new.items) }
    ensures long { OnOk result (length body.new.items ≡ size) }
    ensures ok { OnOk result ((source_failed source.old ≡ false) × (source_failed source.new ≡ false)) }
    ensures fault { IfErr result (FallsShort R.remaining source.old source.new size) }
{
    body.resize(size, 0).unwrap();
    fill(source, body.as_mut_slice())
}

// Reads one frame, and puts its body into the buffer, which is empty and has room for the longest.
fn read_frame<R: Read>(source: &mut Source<R>, body: &mut Vec<u8>) -> Result<(), LinkFault>
    requires empty { body.old.items ≡ [] }
    requires room { 65535 ≤ vec_capacity body.old }
    ensures { ReadsFrame R.remaining source.old source.new body.new.items result }
{
    let mut head = [0u8; 2];
    fill(source, &mut head)?;
    let length = usize::from(length_of(&head));
    if length == 0 {
        return Err(LinkFault::BadFrame);
    }
    fill_body(source, body, length)
}

/// Sends a message, which must keep its limits, as one frame, and reads the frame of its answer. It reads
/// exactly the bytes of that frame, in at most 65,537 reads. Memory for the longest answer is taken before a
/// byte goes out.
///
/// Each [`LinkFault`] says how much went out and was read. A read fault comes only if the source has failed,
/// and a write fault only if the sink has. After a read fault, a closed link or a bad frame, the next bytes
/// of the source need not begin a frame.
pub fn ask<R: Read, W: Write>(
    alloc: Global,
    source: &mut Source<R>,
    sink: &mut Sink<W>,
    message: &Message,
) -> Result<Answer, LinkFault>
    requires { FitsMessage message.now }
    ensures { Asks R.remaining W.contents (message_frame message.now)
        (link source.old sink.old) (link source.new sink.new) result }
{
    let request = encode_message(alloc, message)?;
    exchange(alloc, source, sink, request.as_bytes())
}

/// Sends the body of a request as one frame, and reads the frame of its answer, as [`ask`] does.
pub(crate) fn exchange<R: Read, W: Write>(
    alloc: Global,
    source: &mut Source<R>,
    sink: &mut Sink<W>,
    request: &[u8],
) -> Result<Answer, LinkFault>
    requires { IsFrameBody request.now }
    ensures { Asks R.remaining W.contents (frame_bytes request.now)
        (link source.old sink.old) (link source.new sink.new) result }
{
    let mut body = Vec::with_capacity(alloc, MAX_BODY_BYTES)?;
    write_frame(sink, request)?;
    read_frame(source, &mut body)?;
    Ok(decode_answer(alloc, body.as_slice())?)
}
