//! A program for tests, which runs steps of a machine or events of a hub, reads JSON and bodies, and adds to
//! a journal.
//!
//! ```sh
//! $ printf '0 {"a":1, "b":[]}\n' | rv_steps json
//! {"a":1,"b":[]}
//! ```
//!
//! Its first word says what it does:
//!
//! `machine ENTRIES CLIENTS OPEN|none [anew | turns COUNT]`: a machine of epoch 1 makes the step of each line
//! of standard input under these limits, and its answer is printed. With `anew`, each line is heard by a
//! machine that was made anew; with `turns`, the machine takes so many turns of the program's own, and no
//! line.
//!
//! `hub ENTRIES CLIENTS OPEN|none PATIENCE journal|none`: a hub over such a machine is handed the event of
//! each line, and what came of it is printed.
//!
//! `json`: the JSON of each line is written back.
//!
//! `bodies`: for each line's body, in hexadecimal digits, or a lone `-` for none, it prints what the body is
//! read as: the message, the answer and the call, with a tab between them, each written again, or the number
//! of its fault. A call is written as the request whose key has 1 for each number.
//!
//! `journal FILE`: the file is opened as a journal, or made where there is none, and its lines are printed,
//! and an empty one. Then each line of standard input is added, and printed once it is stored.
//!
//! `store FOLDER EPOCH`: the store of the folder goes on with the account of this epoch, or begins it, and
//! how
//! many entries it has is printed. Then each line of standard input is added as an entry's, and printed once
//! it
//! is stored.
#![tactic(auto)]

ghost use Rattle.rv_account.specs.rules.StepLimits.{AreStepLimits};

mod anew;
mod answers;
mod bodies;
mod driver;
mod events;
mod hexes;
mod journals;
mod json;
mod steps;
mod stores;
mod telling;
mod turns;
mod words;

use bodies::read_bodies;
use driver::{Driver, answer, begin};
use journals::add_lines;
use json::rewrite_lines;
use rv_account::rules::Limits;
use rv_book::lines::first_line;
use rv_frame::Source;
use rv_machine::Machine;
use rv_run::read_input;
use std::alloc::Global;
use std::env;
use std::io::{BufWriter, Write};
use std::process::ExitCode;
use stores::add_entries;
use turns::take_turns;
use words::{Beginning, Task, Work, is_bodies, is_json, journal_of, store_of, work_of};

// The epoch of the machine.
const EPOCH: u64 = 1;

const USAGE: &str = "usage: rv_steps machine ENTRIES CLIENTS OPEN|none [anew | turns COUNT]
       rv_steps hub ENTRIES CLIENTS OPEN|none PATIENCE journal|none
       rv_steps json
       rv_steps bodies
       rv_steps journal FILE
with limits that a step may have";

// Words that name no task, or limits that no step may have, get the usage on standard error.
fn main(rt: HostRuntime) -> anyhow::Result<ExitCode> {
    let words: Vec<String> = env::args(&rt)?.collect(rt.alloc())?;
    if is_json(&words) {
        return rewrite_lines(&rt);
    }
    if is_bodies(&words) {
        return read_bodies(&rt);
    }
    if let Some((path, epoch)) = store_of(&words) {
        return add_entries(&rt, path, epoch);
    }
    if let Some(path) = journal_of(&words) {
        return add_lines(&rt, path);
    }
    match work_of(&words) {
        Some(work) => run(&rt, work),
        None => {
            eprintln!(rt; "{USAGE}")?;
            Ok(ExitCode::from(2))
        }
    }
}

// Does what the words name.
fn run(rt: &HostRuntime, work: Work) -> anyhow::Result<ExitCode>
    requires { AreStepLimits work.limits }
{
    let Work { limits, task } = work;
    match task {
        Task::Lines(beginning) => run_lines(rt, limits, beginning),
        Task::Turns(turns) => run_turns(rt, &limits, turns),
    }
}

// Begins what is to hear lines, and hands it those of standard input.
fn run_lines(rt: &HostRuntime, limits: Limits, beginning: Beginning) -> anyhow::Result<ExitCode>
    requires { AreStepLimits limits }
{
    let input = read_input(rt.alloc(), &mut Source::new(rt.stdin()))?;
    let mut driver = begin(rt.alloc(), limits, beginning)?;
    answer_all(rt, &mut driver, &input)
}

// Does what each line says, and prints what came of it. If a line ends the run, standard error says why.
fn answer_all(rt: &HostRuntime, driver: &mut Driver, input: &[u8]) -> anyhow::Result<ExitCode> {
    let mut output = BufWriter::new(rt.alloc(), rt.stdout())?;
    let mut rest = input;
    while let Some((line, after)) = first_line(rest) {
        if !print_answer(rt.alloc(), &mut output, driver, line)? {
            return tell_ended(rt, driver);
        }
        rest = after;
    }
    output.flush()?;
    Ok(ExitCode::SUCCESS)
}

// Does what a line says, and prints what came of it. False if it ends the run.
fn print_answer<W: Write>(
    alloc: Global,
    output: &mut W,
    driver: &mut Driver,
    line: &[u8],
) -> anyhow::Result<bool> {
    let mut text = Vec::new(alloc);
    let goes_on = answer(alloc, driver, &mut text, line)?;
    output.write_all(&text)?;
    Ok(goes_on)
}

// Tells why a line ended the run.
fn tell_ended(rt: &HostRuntime, driver: &Driver) -> anyhow::Result<ExitCode> {
    let (why, status) = driver.ended();
    eprintln!(rt; "{why}")?;
    Ok(ExitCode::from(status))
}

// Opens a machine at moment 0, and takes turns in it.
fn run_turns(rt: &HostRuntime, limits: &Limits, turns: u64) -> anyhow::Result<ExitCode> {
    let mut machine = Machine::open(rt.alloc(), EPOCH, 0)?;
    let heard = take_turns(rt.alloc(), limits, &mut machine, turns)?;
    tell_turns(rt, turns, heard)
}

// Tells whether all turns were heard.
fn tell_turns(rt: &HostRuntime, turns: u64, heard: bool) -> anyhow::Result<ExitCode> {
    if heard {
        println!(rt; "{turns} turns")?;
        return Ok(ExitCode::SUCCESS);
    }
    eprintln!(rt; "a turn was refused")?;
    Ok(ExitCode::FAILURE)
}
