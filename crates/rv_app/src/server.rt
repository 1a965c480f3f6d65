//! Serves the book of an epoch over the connections of a listener, from its opening to its account.
ghost use Rattle.std.specs.Prelude.{◌≡◌, ◌≤◌, ◌^◌, Err, IfErr, IfOk, IsOk, OnErr, OnOk};
ghost use Rattle.rv_app.specs.Accounts.{EndsWithAccount};
ghost use Rattle.rv_app.specs.declared.fault.ProgramFault.TheVariants as program;
ghost use Rattle.rv_text.specs.Limits.{FitsIdentifier};

use crate::account::write_account;
use crate::fault::ProgramFault;
use crate::opened::{OpenedBook, Opening};
use rv_frame::Sink;
use rv_run::RunFault;
use rv_server::{Clock, Closing, Gate, ServeFault, Shared, finish, serve};
use rv_text::NoMemory;
use std::alloc::Global;
use std::io::Write;
use std::marker::Brand;
use std::net::TcpListener;
use std::sync::Wait;
use std::sync::ledger::{Blank, Ledger};
use std::thread::Threads;
use std::time::{Duration, Instant};
use std::{thread, time};

// The milliseconds that a worker waits before it asks a waiting request again.
const PAUSE_MILLIS: u64 = 5;

// The machine's clock, in whole milliseconds since the server's start. A reading that fails counts as 0.
#[derive(Drop)]
struct SinceStart<'a, R> {
    rt: &'a R,
    start: Option<Instant>,
}

impl<'a, R: time::Clock> SinceStart<'a, R> {
    fn new(rt: &'a R) -> SinceStart<'a, R> {
        let start = Instant::now(rt).ok();
        SinceStart { rt, start }
    }
}

impl<'a, R: time::Clock> Clock for SinceStart<'a, R> {
    fn now(&self) -> u64 {
        let Some(start) = self.start else {
            return 0;
        };
        match start.elapsed(self.rt) {
            Ok(since) => u64::try_from(since.as_millis()).unwrap_or(u64::MAX),
            Err(_) => 0,
        }
    }
}

// A gate that sleeps for a pause.
#[derive(Drop)]
struct Sleeping<'a, R> {
    rt: &'a R,
}

impl<'a, R: time::Clock> Gate for Sleeping<'a, R> {
    fn pause(&self) {
        thread::sleep(self.rt, Duration::from_millis(PAUSE_MILLIS));
    }
}

/// How a server whose book was opened ended, and how the writing of the book's account did.
#[derive(Clone, Copy)]
pub(crate) struct ServerEnd {
    ended: Result<(), ServeFault>,
    written: Result<(), RunFault>,
}

impl ServerEnd {
    /// The fault of the server, or else that of the writing.
    pub(crate) fn told(&self) -> Result<(), ProgramFault>
        ensures server { IfErr self.now.ended (λ fault. result ≡ Err (program.Serve fault)) }
        ensures writing { OnOk self.now.ended
            (IfErr self.now.written (λ fault. result ≡ Err (program.Run fault))) }
        ensures whole { OnOk self.now.ended (OnOk self.now.written (IsOk result)) }
    {
        match self.ended {
            Err(fault) => Err(ProgramFault::Serve(fault)),
            Ok(()) => match self.written {
                Err(fault) => Err(ProgramFault::Run(fault)),
                Ok(()) => Ok(()),
            },
        }
    }
}

/// The task of a server: the epoch of its book, the number of its workers, and the number of connections that
/// they serve before it ends.
#[derive(Clone, Copy)]
pub(crate) struct ServerPlan {
    pub(crate) epoch: u64,
    pub(crate) workers: usize,
    pub(crate) connections: u32,
}

/// Opens the book of the plan's epoch at moment 0, and serves the plan's connections. When all were served,
/// and after a fault of the server too, it writes the book's account: one of this epoch, opened at moment 0.
/// If memory for the book, its lock or its seats is refused, nothing is served or written.
pub(crate) fn serve_epoch<R: Threads + Wait + AllocGlobal + time::Clock + Sync, W: Write>(
    rt: &R,
    listener: TcpListener,
    plan: ServerPlan,
    sink: &mut Sink<W>,
) -> Result<ServerEnd, NoMemory>
    requires epoch { FitsIdentifier plan.epoch }
    requires some { 1 ≤ plan.workers }
    requires most { plan.workers ≤ 64 }
    ensures account { IfOk result (λ end.
        EndsWithAccount W.contents plan.epoch 0 sink.old sink.new end.written) }
    ensures nothing { OnErr result (sink.new ≡ sink.old) }
{
    let blank = Blank::new(plan.workers as u64);
    serve_book::<Brand, Brand, R, W>(rt, blank, listener, plan, 0, sink)
}

// The whole life of a server, under the name of its ledger and the opening of its book.
fn serve_book<L, O, R, W>(
    rt: &R,
    blank: Blank,
    listener: TcpListener,
    plan: ServerPlan,
    moment: u64,
    sink: &mut Sink<W>,
) -> Result<ServerEnd, NoMemory>
where
    L: Ledger + Send + Sync,
    O: Opening + Send,
    R: Threads + Wait + AllocGlobal + time::Clock + Sync,
    W: Write,
    requires name { blank.name ≡ L.name }
    requires parts { blank.parts ≡ L.parts }
    requires made { blank.parts ≡ plan.workers }
    requires epoch { FitsIdentifier plan.epoch }
    requires small { moment ≤ 2 ^ 62 }
    requires of_epoch { plan.epoch ≡ O.epoch }
    requires at_moment { moment ≡ O.moment }
    requires some { 1 ≤ plan.workers }
    requires most { plan.workers ≤ 64 }
    ensures account { IfOk result (λ end.
        EndsWithAccount W.contents O.epoch O.moment sink.old sink.new end.written) }
    ensures nothing { OnErr result (sink.new ≡ sink.old) }
{
    let alloc = rt.alloc();
    let clock = SinceStart::new(rt);
    let gate = Sleeping { rt };
    let book = OpenedBook::<O>::open(alloc, plan.epoch, moment)?;
    let (shared, seats) = Shared::<OpenedBook<O>, L>::open(alloc, blank, book, plan.workers)?;
    let (seats, ended) = match serve(
        rt,
        alloc,
        &shared,
        seats,
        &clock,
        &gate,
        listener,
        plan.connections,
    ) {
        Ok(report) => (report.seats, Ok(())),
        Err((report, fault)) => (report.seats, Err(fault)),
    };
    let Closing { desk, total: _ } = finish(shared, seats).unwrap();
    let written = write_book(alloc, &desk, sink);
    Ok(ServerEnd { ended, written })
}

// Writes the account of a book.
fn write_book<O: Opening, W: Write>(
    alloc: Global,
    opened: &OpenedBook<O>,
    sink: &mut Sink<W>,
) -> Result<(), RunFault>
    ensures { EndsWithAccount W.contents O.epoch O.moment sink.old sink.new result }
{
    write_account(alloc, opened.book().account(), sink)
}
