//! The lines of an input, which are put as items one after another: each is settled before the next is read.
ghost use Rattle.std.specs.Prelude.{◌≡◌, IfSome, None};
ghost use Rattle.rv_text.specs.Limits.{FitsIdentifier};
ghost use Rattle.rv_client.specs.Link.{link};
ghost use Rattle.rv_commands.specs.Lines.{IsNewPut, IsNoPut, KeepsOpen, TakesOpen, TakesStep};
ghost use Rattle.rv_commands.specs.Lines.{key_open, unread};

mod input;

use crate::asking::CallEnd;
use crate::lines::input::LineInput;
use crate::open::OpenCall;
use rv_client::New;
use rv_frame::{Sink, Source};
use rv_text::{Call, Item, Key, Reply};
use std::alloc::Global;
use std::io::{BufRead, Read, Write};

/// What came of the next line.
#[derive(Drop)]
pub enum LineEnd {
    /// There is none, and each one was settled.
    Over,
    /// The put of its item was settled: the request of this key has this reply.
    Settled(Call, Key, Reply),
    /// Its put came to this end, which is no reply. It stays open: it is asked again next.
    Open(CallEnd),
    /// It is no item, but longer or no UTF-8, or the queue is above 63. Of this line, counted from 1, nothing
    /// was asked.
    NoItem(u64),
    /// The input can't be read on. Nothing was asked.
    ReadFault,
}

/// The lines of an input, whose items are put into a queue in their order. A line ends before an LF, which is
/// dropped, or with the input.
#[derive(Drop)]
pub struct LinePuts<B> {
    input: LineInput<B>,
    queue: u64,
    // The put of the last line that was read, if it isn't settled.
    open_put: Option<OpenCall>,
}

impl<B: BufRead> LinePuts<B>
where
    B: Drop,
{
    /// The lines that the input has. None is read yet.
    pub fn new(alloc: Global, input: B, queue: u64) -> LinePuts<B>
        ensures whole { unread B.remaining result.input ≡ B.remaining input }
        ensures queue { result.queue ≡ queue }
        ensures none_read { result.input.read ≡ 0 }
        ensures none_open { result.open_put ≡ None }
    {
        LinePuts {
            input: LineInput::new(alloc, input),
            queue,
            open_put: None,
        }
    }

    /// The key of the request that is open, if there is one and it was asked.
    pub fn asked(&self) -> Option<Key>
        ensures { result ≡ key_open self.now.open_put }
    {
        match &self.open_put {
            Some(put) => put.asked(),
            None => None,
        }
    }

    /// Asks the put that is open once more, by the same request, or else that of the next line, by a new one,
    /// as [`OpenCall::ask_again`] does. No line is read while a put is open.
    pub fn put_next<R: Read, W: Write>(
        &mut self,
        alloc: Global,
        new: New,
        from: &mut Source<R>,
        to: &mut Sink<W>,
    ) -> LineEnd
        requires client { FitsIdentifier new.client }
        requires incarnation { FitsIdentifier new.incarnation }
        ensures queue { self.new.queue ≡ self.old.queue }
        ensures step { TakesStep B.remaining R.remaining W.contents new self.old self.new
            (link from.old to.old) (link from.new to.new) result }
    {
        let mut put = match self.take_open() {
            Ok(put) => put,
            Err(end) => return end,
        };
        let end = put.ask_again(alloc, new, from, to);
        self.settle(put, end)
    }

    // The put that is open, or else the next line's. None is open then.
    fn take_open(&mut self) -> Result<OpenCall, LineEnd>
        ensures { TakesOpen B.remaining self.old self.new result }
    {
        match self.open_put.take() {
            Some(put) => Ok(put),
            None => self.read_put(),
        }
    }

    // The put of the next line.
    fn read_put(&mut self) -> Result<OpenCall, LineEnd>
        requires none_open { self.old.open_put ≡ None }
        ensures { TakesOpen B.remaining self.old self.new result }
    {
        let line = match self.input.next() {
            None => return Err(LineEnd::Over),
            Some(Ok(line)) => line,
            Some(Err(_)) => return Err(LineEnd::ReadFault),
        };
        match put_of(self.queue, line) {
            Some(put) => Ok(put),
            None => Err(LineEnd::NoItem(self.input.count())),
        }
    }

    // Keeps the put open, unless it has a reply.
    fn settle(&mut self, put: OpenCall, end: CallEnd) -> LineEnd
        requires none_open { self.old.open_put ≡ None }
        ensures open_put { KeepsOpen put end self.new.open_put result }
        ensures queue { self.new.queue ≡ self.old.queue }
        ensures input { self.new.input ≡ self.old.input }
    {
        match end {
            CallEnd::Replied(key, reply) => LineEnd::Settled(put.into_call(), key, reply),
            other => {
                self.open_put = Some(put);
                LineEnd::Open(other)
            }
        }
    }
}

// The put of the item whose bytes a line has, if it is one.
fn put_of(queue: u64, line: Vec<u8>) -> Option<OpenCall>
    ensures some { IfSome result (λ put. IsNewPut queue line.items put) }
    ensures none { result ≡ None → IsNoPut queue line.items }
{
    let Ok(text) = String::from_utf8(line) else {
        return None;
    };
    let item = Item::from_text(text);
    OpenCall::new(Call::Put { queue, item })
}
