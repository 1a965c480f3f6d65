//! The lines of standard input, each of which is put, after the one before it was settled.
ghost use Rattle.rv_text.specs.Limits.{FitsIdentifier};

use crate::lines::{LineEnd, LinePuts};
use crate::run::client::{Asked, OpenRequest, ShellClient};
use crate::run::end::ShellEnd;
use crate::run::printing::{SettledCall, Teller};
use rv_client::New;
use rv_frame::{Sink, Source};
use rv_text::{Call, Key};
use std::alloc::Global;
use std::io::BufRead;
use std::net::TcpStream;

// Lines, and the call of the last one that was settled.
#[derive(Drop)]
struct Lines<B> {
    puts: LinePuts<B>,
    settled: Option<Call>,
}

impl<B: BufRead> OpenRequest for Lines<B>
where
    B: Drop,
{
    fn asked(&self) -> Option<Key> {
        self.puts.asked()
    }

    fn ask_once(
        &mut self,
        alloc: Global,
        new: New,
        from: &mut Source<&TcpStream>,
        to: &mut Sink<&TcpStream>,
    ) -> Result<Asked, ShellEnd> {
        match self.puts.put_next(alloc, new, from, to) {
            LineEnd::Over => Ok(Asked::Over),
            LineEnd::Settled(call, key, reply) => {
                self.settled = Some(call);
                Ok(Asked::Replied(key, reply))
            }
            LineEnd::Open(end) => Ok(Asked::Ended(end)),
            LineEnd::NoItem(line) => Err(ShellEnd::NoItem(line)),
            LineEnd::ReadFault => Err(ShellEnd::Unread),
        }
    }
}

/// Puts each line of standard input into the queue, and tells its reply.
pub(crate) fn put_lines(
    client: &mut ShellClient,
    teller: &mut Teller,
    queue: u64,
) -> Result<u8, ShellEnd> {
    let rt = client.rt();
    let mut lines = Lines {
        puts: LinePuts::new(rt.alloc(), rt.stdin().lock(), queue),
        settled: None,
    };
    for _ in 0..u64::MAX {
        let Some((key, reply)) = client.settle(&mut lines)? else {
            return Ok(0);
        };
        if let Some(call) = lines.settled.take() {
            teller.tell(&SettledCall { call, key, reply })?;
        }
    }
    Err(ShellEnd::NoMemory)
}
