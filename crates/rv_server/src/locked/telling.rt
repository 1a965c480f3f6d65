//! Writes the frame that answers another.
ghost use Rattle.std.specs.Prelude.{◌≡◌, ◌<◌, IfErr, IfOk, OnErr, OnOk, length, take, true};
ghost use Rattle.rv_text.specs.Bodies.{HasBodyLength};
ghost use Rattle.rv_frame.specs.Cut.{frame_bytes};
ghost use Rattle.rv_frame.specs.Sink.{SinkTakes, sink_failed};
ghost use Rattle.rv_server.specs.locked.Writing.{FitsTold, WritesAnswer, WritesPart};

use crate::locked::asking::FrameAnswer;
use crate::locked::item::Item;
use rv_frame::{Sink, WriteFault, write_frame};
use rv_text::{bad_text_body, encode_answer, no_memory_body};
use std::alloc::Global;
use std::io::Write;

// Writes the frame of this body, for which this item stands.
fn write_item<W: Write>(sink: &mut Sink<W>, item: Item, body: &[u8]) -> Result<Item, WriteFault>
    requires { HasBodyLength body.now }
    ensures item { IfOk result (λ written. written ≡ item) }
    ensures frame { OnOk result (SinkTakes W.contents sink.old sink.new (frame_bytes body.now)) }
    ensures sent { IfErr result (λ fault.
        SinkTakes W.contents sink.old sink.new (take fault.sent (frame_bytes body.now))) }
    ensures part { IfErr result (λ fault. fault.sent < length (frame_bytes body.now)) }
    ensures failed { OnErr result (sink_failed sink.new ≡ true) }
{
    write_frame(sink, body)?;
    Ok(item)
}

/// Writes the frame that answers, and returns the item that stands for it. If memory for an answer's text
/// was refused, the answer of refusal 11 takes its place. A fault says how many bytes of the frame went out.
pub fn write_told<W: Write>(
    alloc: Global,
    sink: &mut Sink<W>,
    told: &FrameAnswer,
) -> Result<Item, WriteFault>
    requires { FitsTold told.now }
    ensures whole { IfOk result (WritesAnswer W.contents sink.old sink.new told.now) }
    ensures part { IfErr result (λ fault. WritesPart W.contents sink.old sink.new told.now fault.sent) }
{
    match told {
        FrameAnswer::BadText => write_item(sink, Item::BadText, bad_text_body()),
        FrameAnswer::NoMemory => write_item(sink, Item::NoMemory, no_memory_body()),
        FrameAnswer::Said(answer) => match encode_answer(alloc, answer) {
            Ok(text) => write_item(sink, Item::Said, text.as_bytes()),
            Err(_) => write_item(sink, Item::NoMemory, no_memory_body()),
        },
    }
}
