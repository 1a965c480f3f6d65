//! Serves the connections of a listener, with one thread for each seat.
ghost use Rattle.std.specs.Prelude.{◌≡◌, ◌<◌, ◌≤◌, ◌+◌, length, vec_len, Err, IfErr, IfOk, OnErr, OnOk};
ghost use Rattle.std.specs.Vec.{vec_capacity};
ghost use Rattle.rv_server.specs.declared.sockets.ServeFault.TheVariants.{NoMemory, NoWorker};

use crate::context::WorkerContext;
use crate::locked::{Clock, Desk, Gate, Seat, Shared};
use crossbeam_channel::{Receiver, Sender};
use rv_frame::Source;
use std::alloc::{AllocError, Global};
use std::net::{TcpListener, TcpStream};
use std::sync::Wait;
use std::sync::ledger::Ledger;
use std::thread::Threads;
use std::time::Duration;
use std::{io, thread};
use thiserror::Error;

/// The outcome of serving a listener's connections, with the seats of the workers.
#[derive(Drop)]
pub struct Report<L: Ledger> {
    /// All the seats that were handed in.
    pub seats: Vec<Seat<L>>,
    /// The number of connections that were answered to their end, with all answers sent.
    pub served: u32,
    /// The number of all others: a worker stopped by a [`WorkFault`](crate::WorkFault), an answer could not
    /// be sent, a connection was not accepted, its time could not be limited, or memory was refused.
    pub faults: u32,
}

/// The reason why no connection was accepted. A peer that had connected finds its connection closed.
#[derive(Clone, Copy, Debug, Error)]
#[error("serve fault {}", self.number())]
pub enum ServeFault {
    /// 1: there was no seat, or no thread could be started.
    NoWorker,
    /// 2: a growth of memory was refused, before the first thread was started.
    NoMemory,
}

impl ServeFault {
    ghost use Rattle.rv_server.specs.Serving.{serve_fault_number};

    /// The fault's number, as the program prints it.
    pub fn number(&self) -> u8
        ensures { result ≡ serve_fault_number self.now }
    {
        match self {
            ServeFault::NoWorker => 1,
            ServeFault::NoMemory => 2,
        }
    }
}

impl From<AllocError> for ServeFault {
    ghost from_gives = { λ _ fault. fault ≡ NoMemory };

    fn from(_refused: AllocError) -> ServeFault {
        ServeFault::NoMemory
    }
}

// A worker while it serves: its seat, and how many connections it answered to their end.
#[derive(Drop)]
struct Worker<L: Ledger> {
    seat: Seat<L>,
    served: u32,
}

// Gives each seat to a worker. If memory is refused, the seats stay.
fn seated<L: Ledger>(alloc: Global, seats: &mut Vec<Seat<L>>) -> Result<Vec<Worker<L>>, AllocError>
    ensures all { IfOk result (λ workers. vec_len workers ≡ vec_len seats.old) }
    ensures taken { OnOk result (vec_len seats.new ≡ 0) }
    ensures room { vec_capacity seats.new ≡ vec_capacity seats.old }
    ensures refused { OnErr result (vec_len seats.new ≡ vec_len seats.old) }
{
    let mut workers = Vec::with_capacity(alloc, seats.len())?;
    while let Some(seat) = seats.pop() {
        workers.push_reserved(Worker { seat, served: 0 });
    }
    Ok(workers)
}

// Takes the seats back, and counts the connections that came to their end.
fn unseated<L: Ledger>(workers: Vec<Worker<L>>, seats: &mut Vec<Seat<L>>) -> u32
    requires { vec_len seats.old + vec_len workers ≤ vec_capacity seats.old }
    ensures { vec_len seats.new ≡ vec_len seats.old + vec_len workers }
{
    let mut workers = workers;
    let mut all = 0u32;
    while let Some(Worker { seat, served }) = workers.pop() {
        seats.push_reserved(seat);
        all = all.saturating_add(served);
    }
    all
}

// The seconds after which a read of a connection fails if its peer says nothing.
const READ_SECONDS: u64 = 600;

// The seconds after which a write to a connection fails if its peer takes nothing.
const WRITE_SECONDS: u64 = 60;

// Sets how long a connection is waited for.
fn limit(stream: &TcpStream) -> io::Result<()> {
    stream.set_read_timeout(Some(Duration::from_secs(READ_SECONDS)))?;
    stream.set_write_timeout(Some(Duration::from_secs(WRITE_SECONDS)))
}

// Makes a connection ready to be served, and returns whether it can be: its time has to be limited.
fn is_ready(stream: &TcpStream) -> bool {
    if limit(stream).is_err() {
        return false;
    }
    // A connection that won't send at once is served all the same.
    let _ = stream.set_nodelay(true);
    true
}

impl<'a, T: Wait, D: Desk, L: Ledger, C: Clock, G: Gate> WorkerContext<'a, T, D, L, C, G> {
    // Accepts this many connections, and hands each to the next worker that is free. Then the listener is
    // closed, so that later peers are refused, and the workers learn that no more will come.
    fn accept_all(&self, listener: TcpListener, to: Sender<TcpStream>, connections: u32) {
        for _ in 0..connections {
            match listener.accept() {
                Ok((stream, _)) => {
                    // If this finds no memory, the connection is closed.
                    let _ = to.send(self.rt, stream);
                }
                Err(_) => self.gate.pause(),
            }
        }
    }

    // Answers the frames of a connection. Returns whether it came to its end and all answers were sent.
    fn serve_connection(&self, seat: &mut Seat<L>, stream: &TcpStream) -> bool {
        if !is_ready(stream) {
            return false;
        }
        let mut source = Source::new(stream);
        match self.answer_through(seat, &mut source, stream) {
            Ok(passed) => passed.fault.is_none(),
            Err(_) => false,
        }
    }

    // Serves what is handed over, one connection after the other, until no more can come.
    fn serve_handed(&self, worker: &mut Worker<L>, handed: &Receiver<TcpStream>) {
        for _ in self.rt.forever() {
            let Ok(stream) = handed.recv(self.rt) else {
                break;
            };
            if self.serve_connection(&mut worker.seat, &stream) {
                worker.served = worker.served.saturating_add(1);
            }
        }
    }
}

impl<'a, T, D, L, C, G> WorkerContext<'a, T, D, L, C, G>
where
    T: Threads + Wait + Sync,
    D: Desk + Send,
    D::Stamp: Send,
    L: Ledger + Send + Sync,
    C: Clock + Sync,
    G: Gate + Sync,
{
    // Starts a thread for each worker, accepts this many connections, and returns when all of them were
    // served. If no thread can be started, none is accepted.
    fn run(
        &self,
        workers: &mut [Worker<L>],
        listener: TcpListener,
        connections: u32,
    ) -> Result<(), ServeFault>
        ensures { length workers.new ≡ length workers.old }
    {
        let (to, handed) = crossbeam_channel::bounded(self.alloc, workers.len())?;
        let handed = &handed;
        let started = thread::scope(thread::scope_env(), self.rt, move |scope| {
            let mut started = false;
            for worker in workers.iter_mut() {
                started |= scope
                    .spawn(move || self.serve_handed(worker, handed))
                    .is_ok();
            }
            let most = if started { connections } else { 0 };
            self.accept_all(listener, to, most);
            started
        });
        if started {
            Ok(())
        } else {
            Err(ServeFault::NoWorker)
        }
    }

    // Serves this many connections, and counts those that came to their end. The seats come back either way.
    fn serve_all(
        &self,
        seats: &mut Vec<Seat<L>>,
        listener: TcpListener,
        connections: u32,
    ) -> Result<u32, ServeFault>
        ensures seats { vec_len seats.new ≡ vec_len seats.old }
        ensures none { vec_len seats.old ≡ 0 → result ≡ Err NoWorker }
    {
        if seats.is_empty() {
            return Err(ServeFault::NoWorker);
        }
        let mut workers = seated(self.alloc, seats)?;
        let ran = self.run(workers.as_mut_slice(), listener, connections);
        let served = unseated(workers, seats);
        ran.map(|()| served)
    }
}

/// Serves this many connections of the listener, with one thread for each seat, and ends when all of them
/// were served. A worker answers a connection as [`work`] does until it ends, and then takes the next one.
/// It sends all its answers at once, before each read of the connection, before each pause and at the end,
/// and earlier if they have more than 16,384 bytes. While all workers are busy, an accepted connection
/// waits. Once as many wait as there are workers, one more is accepted and waits too, and then no further
/// one.
///
/// A connection ends with a read fault if its peer says nothing for 10 minutes while the worker reads, and
/// with a write fault if its peer takes nothing for 60 seconds. A failed send ends a connection at once: the
/// desk is asked for no further frame of it, and answers that were not sent are lost.
///
/// A thread that can't be started is left out, and its seat stays. A failed accept counts as a connection,
/// and the gate's pause comes before the next one. After the last accept the listener is closed, so that
/// later peers are refused.
///
/// The report has as many seats as were handed in, on a fault too. Each connection counts once: as served
/// if its frames were answered to its end and all answers were sent, else as a fault. A [`ServeFault`]
/// comes only before the first accept. It waits for connections, for their bytes, for the lock and for the
/// gate.
pub fn serve<T, D, L, C, G>(
    rt: &T,
    alloc: Global,
    shared: &Shared<D, L>,
    seats: Vec<Seat<L>>,
    clock: &C,
    gate: &G,
    listener: TcpListener,
    connections: u32,
) -> Result<Report<L>, (Report<L>, ServeFault)>
where
    T: Threads + Wait + Sync,
    D: Desk + Send,
    D::Stamp: Send,
    L: Ledger + Send + Sync,
    C: Clock + Sync,
    G: Gate + Sync,
    ensures seats { IfOk result (λ report. vec_len report.seats ≡ vec_len seats) }
    ensures counts { IfOk result (λ report. report.served + report.faults ≡ connections) }
    ensures some_seat { OnOk result (0 < vec_len seats) }
    ensures seats_back { IfErr result (λ stopped. vec_len stopped.0.seats ≡ vec_len seats) }
    ensures none_served { IfErr result (λ stopped. stopped.0.served ≡ 0) }
    ensures none_failed { IfErr result (λ stopped. stopped.0.faults ≡ 0) }
    ensures no_seat { vec_len seats ≡ 0 → IfErr result (λ stopped. stopped.1 ≡ NoWorker) }
{
    let context = WorkerContext {
        rt,
        alloc,
        shared,
        clock,
        gate,
    };
    let mut seats = seats;
    match context.serve_all(&mut seats, listener, connections) {
        Ok(ended) => {
            // no more than were accepted came to their end
            let served = ended.min(connections);
            let faults = connections - served;
            Ok(Report {
                seats,
                served,
                faults,
            })
        }
        Err(fault) => {
            let report = Report {
                seats,
                served: 0,
                faults: 0,
            };
            Err((report, fault))
        }
    }
}
