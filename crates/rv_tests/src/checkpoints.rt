//! A test of a checkpoint's lines: an example of each is read, and written again as it was.
ghost use Rattle.rv_checkpoint.specs.Giving.{CanGive};

use crate::expect::holds;
use rv_checkpoint::{CheckpointReader, CheckpointWriter};
use std::alloc::Global;
use std::process::Abort;

const HEAD: &str = "state 1 7 5000 9";

const LIES: &str = "lies 3 {\"call\":\"put\",\"item\":\"a b\",\"queue\":2}";

const WAITS: &str =
    "waits 6 4000 {\"call\":\"transfer\",\"client\":1,\"epoch\":7,\"incarnation\":1,\"item\":\"b\",\
    \"kind\":\"request\",\"number\":2,\"queue\":5,\"wait\":2500}";

const ASKS: &str =
    "asks 1 6 {\"call\":\"transfer\",\"client\":1,\"epoch\":7,\"incarnation\":1,\"item\":\"b\",\
    \"kind\":\"request\",\"number\":2,\"queue\":5,\"wait\":2500}";

const FRESH: &str = "fresh {\"client\":2,\"incarnation\":1,\"kind\":\"hello\",\"version\":2}";

const REPLIED: &str =
    "replied 2 26 {\"call\":\"count\",\"queue\":1}{\"client\":3,\"consumers\":0,\"epoch\":7,\
    \"incarnation\":4,\"items\":0,\"kind\":\"reply\",\"number\":1,\"reply\":\"counted\"}";

const UNSEEN: &str =
    "unseen 1 {\"client\":4,\"epoch\":7,\"incarnation\":1,\"kind\":\"cancel\",\"number\":1}";

const END: &str = "end 2 4";

fn take(rt: &impl Abort, reader: &mut CheckpointReader, line: &'static str) {
    holds(rt, reader.take(line.as_bytes()).is_ok(), line);
}

fn give(rt: &impl Abort, alloc: Global, writer: &mut CheckpointWriter, line: &'static str)
    requires { CanGive writer.old }
    ensures { CanGive writer.new }
{
    let next = writer.next_line(alloc).expect(rt, "no memory");
    holds(rt, next.is_some_and(|next| next.as_str() == line), line);
}

#[test]
fn each_line_is_written_as_it_was_read(rt: HostRuntime) {
    let mut reader = CheckpointReader::new(rt.alloc());
    for line in [HEAD, LIES, WAITS, ASKS, FRESH, REPLIED, UNSEEN, END] {
        take(&rt, &mut reader, line);
    }
    let state = reader.finish().expect(&rt, "the lines say a state");
    assert!(&rt; state.can_resume());
    let mut writer = CheckpointWriter::new(state);
    give(&rt, rt.alloc(), &mut writer, HEAD);
    give(&rt, rt.alloc(), &mut writer, LIES);
    give(&rt, rt.alloc(), &mut writer, WAITS);
    give(&rt, rt.alloc(), &mut writer, ASKS);
    give(&rt, rt.alloc(), &mut writer, FRESH);
    give(&rt, rt.alloc(), &mut writer, REPLIED);
    give(&rt, rt.alloc(), &mut writer, UNSEEN);
    give(&rt, rt.alloc(), &mut writer, END);
    let past = writer.next_line(rt.alloc()).expect(&rt, "no memory");
    holds(&rt, past.is_none(), "nothing comes after the end");
}
