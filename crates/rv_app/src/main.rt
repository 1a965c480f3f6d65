//! The program `rv`, which reads its command line and runs the command that it names.
//!
//! ```sh
//! $ rv audit < account.txt
//! legal
//! ```
#![tactic(auto)]

ghost use Rattle.std.specs.Prelude.{◌≤◌};
ghost use Rattle.rv_text.specs.Limits.{FitsIdentifier};

mod account;
mod again;
mod audit;
mod checkpoints;
mod compact;
mod ends;
mod fault;
mod growing;
mod journal;
pub mod laws;
mod opened;
mod server;
mod verify;
mod watch;

pub use account::write_account;
pub use audit::{AuditSaid, audit_run};
use compact::run_compact;
use ends::run_end;
use fault::ProgramFault;
use rv_commands::{connected, run_shell};
use rv_frame::{Sink, Source};
use rv_host::run_host;
pub use rv_run::calls::{CallSaid, RecordFault, RecordingFault, call_run, record_run};
pub use rv_run::play::play_run;
pub use rv_run::turns::book_run;
pub use rv_run::{OutputFault, RunFault};
use rv_server::ServeFault;
use rv_text::Version;
pub use rv_words::command::{Command, CommandFault, read_command};
use rv_words::{HelpAnswer, asks_version, read_help, version_text, words_of_host};
pub use rv_words::{read_compact, read_record, read_verify};
use server::{ServerPlan, serve_epoch};
use std::alloc::Global;
use std::fmt::Display;
use std::fs::OpenOptions;
use std::io::ErrorKind;
use std::net::{TcpListener, TcpStream};
use std::process::ExitCode;
use std::sync::Wait;
use std::thread::Threads;
use std::{env, time};
use thiserror::Error;
use verify::run_verify;

// If standard error takes nothing, only the status shows the fault.
fn main(rt: HostRuntime) -> ExitCode {
    match run_program(&rt, &rt) {
        Ok(code) => code,
        Err(fault) => {
            let _ = eprintln!(rt; "{fault}");
            ExitCode::from(fault.status())
        }
    }
}

// The permission to start threads and to wait is handed in separately.
fn run_program<T: Threads + Wait + AllocGlobal + time::Clock + Sync>(
    rt: &HostRuntime,
    threads: &T,
) -> Result<ExitCode, ProgramFault> {
    let words = words_of(rt)?;
    let words = borrowed(rt.alloc(), &words)?;
    run_words(rt, threads, &words)
}

// Runs the command that the words name.
fn run_words<T: Threads + Wait + AllocGlobal + time::Clock + Sync>(
    rt: &HostRuntime,
    threads: &T,
    words: &[&str],
) -> Result<ExitCode, ProgramFault> {
    if let Some(own) = words_of_host(words) {
        return Ok(ExitCode::from(run_host(rt, own)));
    }
    if asks_version(words) {
        return tell_version(rt);
    }
    if let Some(code) = run_help(rt, words)? {
        return Ok(code);
    }
    if let Some(status) = run_shell(rt, words) {
        return Ok(ExitCode::from(status));
    }
    if let Some((file, call)) = read_record(rt.alloc(), words)? {
        return run_recorded(rt, file, &call);
    }
    if let Some(verify) = read_verify(rt.alloc(), words)? {
        return run_verify(rt, threads, &verify);
    }
    if let Some(folder) = read_compact(rt.alloc(), words)? {
        return Ok(run_compact(rt, folder)?);
    }
    run_command(rt, threads, words)
}

// Runs one of the other commands.
fn run_command<T: Threads + Wait + AllocGlobal + time::Clock + Sync>(
    rt: &HostRuntime,
    threads: &T,
    words: &[&str],
) -> Result<ExitCode, ProgramFault> {
    match read_command(rt.alloc(), words)? {
        Command::Book(epoch) => run_book(rt, epoch)?,
        Command::Play => run_play(rt)?,
        Command::Audit => return run_audit(rt),
        Command::Serve {
            listen,
            epoch,
            workers,
            connections,
        } => {
            let plan = ServerPlan {
                epoch,
                workers,
                connections,
            };
            run_serve(rt, threads, listen, plan)?;
        }
        Command::Call {
            connect,
            client,
            incarnation,
            tries,
            speak,
        } => return run_call(rt, connect, client, incarnation, speak, tries),
        Command::End {
            status,
            connect,
            older,
        } => return run_end(rt, status, connect, older),
    }
    Ok(ExitCode::SUCCESS)
}

/// `rv version`: prints the version of this build.
fn tell_version(rt: &HostRuntime) -> Result<ExitCode, ProgramFault> {
    let text = match version_text(rt.alloc()) {
        Ok(text) => text,
        Err(_) => return Err(ProgramFault::Command(CommandFault::NoMemory)),
    };
    let _ = println!(rt; "{text}");
    Ok(ExitCode::SUCCESS)
}

// Prints help, if the words ask for it, and returns the status.
fn run_help(rt: &HostRuntime, words: &[&str]) -> Result<Option<ExitCode>, CommandFault> {
    match read_help(rt.alloc(), words)? {
        Some(help) => Ok(Some(tell_help(rt, &help))),
        None => Ok(None),
    }
}

// Prints the help that was asked for, or why there is none.
fn tell_help(rt: &HostRuntime, help: &HelpAnswer) -> ExitCode {
    let status = help.status();
    let _ = if status == 0 {
        print!(rt; "{help}")
    } else {
        eprint!(rt; "{help}")
    };
    ExitCode::from(status)
}

// The words of the command line. Words that aren't UTF-8 name no command.
fn words_of(rt: &HostRuntime) -> Result<Vec<String>, CommandFault> {
    match env::args(rt) {
        Ok(words) => Ok(words.collect(rt.alloc())?),
        Err(error) if error.kind() == ErrorKind::OutOfMemory => Err(CommandFault::NoMemory),
        Err(_) => Err(CommandFault::Bad),
    }
}

// The words, lent as `read_command` takes them.
fn borrowed(alloc: Global, words: &[String]) -> Result<Vec<&str>, CommandFault> {
    Ok(words.iter().map(|word| word.as_str()).collect(alloc)?)
}

fn run_book(rt: &HostRuntime, epoch: u64) -> Result<(), RunFault>
    requires { FitsIdentifier epoch }
{
    let mut source = Source::new(rt.stdin());
    let mut sink = Sink::new(rt.stdout());
    book_run(rt.alloc(), &mut source, &mut sink, epoch)
}

fn run_play(rt: &HostRuntime) -> Result<(), RunFault> {
    let mut source = Source::new(rt.stdin());
    let mut sink = Sink::new(rt.stdout());
    play_run(rt.alloc(), &mut source, &mut sink)
}

// Listens, serves the connections that come, and writes the account.
fn run_serve<T: Threads + Wait + AllocGlobal + time::Clock + Sync>(
    rt: &HostRuntime,
    threads: &T,
    listen: &str,
    plan: ServerPlan,
) -> Result<(), ProgramFault>
    requires epoch { FitsIdentifier plan.epoch }
    requires some { 1 ≤ plan.workers }
    requires most { plan.workers ≤ 64 }
{
    let Ok(listener) = TcpListener::bind(rt, listen) else {
        return Err(ProgramFault::Address);
    };
    let mut sink = Sink::new(rt.stdout());
    match serve_epoch(threads, listener, plan, &mut sink) {
        Ok(end) => end.told(),
        Err(_) => Err(ProgramFault::Serve(ServeFault::NoMemory)),
    }
}

// The status says whether the account is legal.
fn run_audit(rt: &HostRuntime) -> Result<ExitCode, ProgramFault> {
    let mut source = Source::new(rt.stdin());
    let mut sink = Sink::new(rt.stdout());
    match audit_run(rt.alloc(), &mut source, &mut sink)? {
        AuditSaid::Legal => Ok(ExitCode::SUCCESS),
        AuditSaid::Fault | AuditSaid::BadLine => Ok(ExitCode::from(1)),
    }
}

// A link to a server.
fn linked(rt: &HostRuntime, address: &str) -> Result<TcpStream, ProgramFault> {
    match connected(rt, address) {
        Ok(stream) => Ok(stream),
        Err(_) => Err(ProgramFault::Address),
    }
}

// Connects first, and then reads the lines.
fn run_call(
    rt: &HostRuntime,
    connect: &str,
    client: u64,
    incarnation: u64,
    version: Version,
    tries: u32,
) -> Result<ExitCode, ProgramFault>
    requires client { FitsIdentifier client }
    requires incarnation { FitsIdentifier incarnation }
{
    let stream = linked(rt, connect)?;
    let mut lines = Source::new(rt.stdin());
    let mut out = Sink::new(rt.stdout());
    let mut from = Source::new(&stream);
    let mut to = Sink::new(&stream);
    let alloc = rt.alloc();
    let said = call_run(
        alloc,
        &mut lines,
        &mut out,
        &mut from,
        &mut to,
        client,
        incarnation,
        version,
        tries,
    )?;
    Ok(status_of(said))
}

// Runs the call that these words name, and keeps its record in a file.
fn run_recorded(rt: &HostRuntime, file: &str, call: &[&str]) -> Result<ExitCode, ProgramFault> {
    match read_command(rt.alloc(), call)? {
        Command::Call {
            connect,
            client,
            incarnation,
            tries,
            speak,
        } => run_record(rt, file, connect, client, incarnation, speak, tries),
        _ => Err(ProgramFault::Command(CommandFault::Bad)),
    }
}

// Opens the record, connects, and then reads the lines.
fn run_record(
    rt: &HostRuntime,
    path: &str,
    connect: &str,
    client: u64,
    incarnation: u64,
    version: Version,
    tries: u32,
) -> Result<ExitCode, ProgramFault>
    requires client { FitsIdentifier client }
    requires incarnation { FitsIdentifier incarnation }
{
    let file = match OpenOptions::new().append(true).create(true).open(rt, path) {
        Ok(file) => file,
        Err(error) => return Ok(unrecorded(rt, path, &error)),
    };
    let stream = linked(rt, connect)?;
    let mut lines = Source::new(rt.stdin());
    let mut out = Sink::new(rt.stdout());
    let mut from = Source::new(&stream);
    let mut to = Sink::new(&stream);
    let mut file = Sink::new(file);
    let alloc = rt.alloc();
    match record_run(
        alloc,
        &mut lines,
        &mut out,
        &mut from,
        &mut to,
        &mut file,
        client,
        incarnation,
        version,
        tries,
    ) {
        Ok(said) => Ok(status_of(said)),
        Err(RecordingFault::Run(fault)) => Err(ProgramFault::Run(fault)),
        Err(RecordingFault::Record(fault)) => Ok(unrecorded(rt, path, &fault)),
    }
}

// The status of a run of calls.
fn status_of(said: CallSaid) -> ExitCode {
    match said {
        CallSaid::Whole => ExitCode::SUCCESS,
        CallSaid::Stopped => ExitCode::from(1),
    }
}

// Says which record lacks what it was to get, and why.
fn unrecorded<E: Display>(rt: &HostRuntime, path: &str, why: &E) -> ExitCode {
    let _ = eprintln!(rt; "record {path}: {why}");
    ExitCode::from(1)
}
