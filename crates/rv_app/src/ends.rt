//! `rv end`: ends the requests that have had no connection for so long.
ghost use Rattle.std.specs.Prelude.{IfOk};
ghost use Rattle.std.specs.List.{All};
ghost use Rattle.rv_end.specs.Told.{IsKeyed};

use crate::fault::ProgramFault;
use crate::linked;
use rv_end::{
    Ending, StatusTold, ask_status, end_request, is_looked_through, keep_due, tell_ending,
};
use rv_frame::{Sink, Source};
use rv_run::RunFault;
use rv_status::WaitingRow;
use std::net::TcpStream;
use std::process::ExitCode;
use std::thread;
use std::time::{Clock, Duration};

// The most looks at the status.
const LOOKS: usize = 1_800;

// The seconds between two looks.
const PAUSE_SECONDS: u64 = 2;

/// Looks at the status of a server until it has been looked through, and ends the requests that have had no
/// connection for `older` milliseconds. Each gets a line that says what came of it. The exit status is 0 if
/// all of them have ended.
pub(crate) fn run_end(
    rt: &HostRuntime,
    status: &str,
    connect: &str,
    older: u64,
) -> Result<ExitCode, ProgramFault> {
    let mut run = EndingRun::new(rt, connect);
    let mut in_vain: u64 = 0;
    for _ in 0..LOOKS {
        let told = look(rt, status)?;
        let clients = told.clients;
        let is_vain = !run.end_due(told, older)?;
        in_vain = if is_vain {
            in_vain.saturating_add(1)
        } else {
            0
        };
        if is_looked_through(run.tried.len(), in_vain, clients) {
            return Ok(run.status());
        }
        thread::sleep(rt, Duration::from_secs(PAUSE_SECONDS));
    }
    Err(ProgramFault::MoreLeft)
}

// Asks for the status, over a connection of its own.
fn look(rt: &HostRuntime, status: &str) -> Result<StatusTold, ProgramFault>
    ensures { IfOk result (λ told. All IsKeyed told.unheard.items) }
{
    let stream = linked(rt, status)?;
    let mut from = Source::new(&stream);
    let mut to = Sink::new(&stream);
    Ok(ask_status(rt.alloc(), status, &mut from, &mut to)?)
}

// The microseconds since 1970; 0 if the clock can't be read.
fn micros(rt: &HostRuntime) -> u64 {
    match rt.since_1970() {
        Ok(since) => u64::try_from(since.as_micros()).unwrap_or(0),
        Err(_) => 0,
    }
}

// The requests that were to be ended so far.
#[derive(Drop)]
struct EndingRun<'a> {
    rt: &'a HostRuntime,
    // Where hellos are said, and the connection for that, once there is one, until it breaks.
    connect: &'a str,
    link: Option<TcpStream>,
    tried: Vec<WaitingRow>,
    // Whether each has ended.
    is_done: bool,
}

impl<'a> EndingRun<'a> {
    fn new(rt: &'a HostRuntime, connect: &'a str) -> EndingRun<'a> {
        EndingRun {
            rt,
            connect,
            link: None,
            tried: Vec::new(rt.alloc()),
            is_done: true,
        }
    }

    // The exit status.
    fn status(&self) -> ExitCode {
        if self.is_done {
            ExitCode::SUCCESS
        } else {
            ExitCode::from(1)
        }
    }

    // Ends the requests of a look that are due, and returns whether there were any.
    fn end_due(&mut self, told: StatusTold, older: u64) -> Result<bool, ProgramFault>
        requires { All IsKeyed told.unheard.items }
    {
        let StatusTold {
            uptime,
            clients: _,
            unheard,
        } = told;
        let mut rows = unheard;
        keep_due(&mut rows, uptime, older, &self.tried);
        self.end_all(&rows, uptime)?;
        Ok(!rows.is_empty())
    }

    // Ends these, one after another.
    fn end_all(&mut self, rows: &[WaitingRow], uptime: u64) -> Result<(), ProgramFault>
        requires { All IsKeyed rows.now }
    {
        for row in rows {
            self.end(row, uptime)?;
        }
        Ok(())
    }

    // Ends one, and prints its line.
    fn end(&mut self, row: &WaitingRow, uptime: u64) -> Result<(), ProgramFault>
        requires { IsKeyed row.now }
    {
        if self.tried.push(*row).is_err() {
            return Err(ProgramFault::Run(RunFault::NoMemory));
        }
        let ending = self.say_hello(row)?;
        self.is_done = self.is_done && ending.is_done();
        let mut out = Sink::new(self.rt.stdout());
        Ok(tell_ending(self.rt.alloc(), &mut out, row, uptime, ending)?)
    }

    // Says hello over the connection that is there, or over a new one.
    fn say_hello(&mut self, row: &WaitingRow) -> Result<Ending, ProgramFault>
        requires { IsKeyed row.now }
    {
        let stream = match self.link.take() {
            Some(stream) => stream,
            None => linked(self.rt, self.connect)?,
        };
        let ending = hello_over(self.rt, &stream, row)?;
        if ending != Ending::NoAnswer {
            self.link = Some(stream);
        }
        Ok(ending)
    }
}

// Says hello over a connection.
fn hello_over(rt: &HostRuntime, stream: &TcpStream, row: &WaitingRow) -> Result<Ending, RunFault>
    requires { IsKeyed row.now }
{
    let mut from = Source::new(stream);
    let mut to = Sink::new(stream);
    end_request(rt.alloc(), row, micros(rt), &mut from, &mut to)
}
