//! A test of how many of its connections a server counts as served, and how many as faults, on a real socket.
ghost use Rattle.std.specs.Prelude.{◌≡◌};

use crate::expect::same;
use crate::still::{Closed, HELLO, Still};
use rv_book::Book;
use rv_server::{Shared, serve};
use std::alloc::AllocGlobal;
use std::io::{Read, Write};
use std::marker::Brand;
use std::net::{Net, SocketAddr, TcpListener, TcpStream};
use std::process::Abort;
use std::sync::Wait;
use std::sync::ledger::{Blank, Ledger};
use std::thread;
use std::thread::Threads;
use std::time::Duration;

// The length of a frame that can't be.
const NO_LENGTH: &[u8] = b"\x00\x00";

// The bytes of a welcome.
const WELCOME_BYTES: usize = 57;

// A client sends these bytes, reads the answer if they are a hello, for 20 seconds at most, and closes.
fn comes<R: Net<Stream = TcpStream> + Abort>(rt: &R, address: SocketAddr, sent: &[u8]) {
    let stream = TcpStream::connect(rt, address).expect(rt, "no connection");
    let patience = Some(Duration::from_secs(20));
    same(rt, stream.set_read_timeout(patience).is_ok(), true);
    let mut link = &stream;
    same(rt, link.write_all(sent).is_ok(), true);
    if sent == HELLO {
        let mut welcome = [0u8; WELCOME_BYTES];
        same(rt, link.read_exact(&mut welcome).is_ok(), true);
    }
}

// A server of one worker serves two connections that come to their end, and one that is cut short: how many
// it counts as served, and how many as faults.
fn counted<L, R>(rt: &R, blank: Blank) -> Option<(u32, u32)>
where
    L: Ledger + Send + Sync,
    R: Wait
        + Threads
        + Net<Stream = TcpStream, Listener = TcpListener>
        + Abort
        + AllocGlobal
        + Sync,
    requires name { blank.name ≡ L.name }
    requires parts { blank.parts ≡ L.parts }
    requires made { blank.parts ≡ 1 }
{
    let alloc = rt.alloc();
    let desk = Book::open(alloc, 1, 0).expect(rt, "no memory");
    let opened = Shared::<Book, L>::open(alloc, blank, desk, 1);
    let (shared, seats) = opened.expect(rt, "no memory");
    let listener = TcpListener::bind(rt, "127.0.0.1:0").expect(rt, "no listener");
    let address = listener.local_addr().expect(rt, "no address");
    let (ended, ()) = thread::join(
        rt,
        || serve(rt, alloc, &shared, seats, &Still, &Closed, listener, 3),
        || {
            for sent in [HELLO, NO_LENGTH, HELLO] {
                comes(rt, address, sent);
            }
        },
    );
    match ended {
        Ok(report) => Some((report.served, report.faults)),
        Err((_, _)) => None,
    }
}

#[test]
fn a_connection_that_is_cut_short_is_a_fault(rt: HostRuntime) {
    let found = counted::<Brand, HostRuntime>(&rt, Blank::new(1));
    same(&rt, found, Some((2, 1)));
}
