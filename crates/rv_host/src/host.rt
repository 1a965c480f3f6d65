//! The life of a server: from its words to its end.
ghost use Rattle.std.specs.Prelude.{◌≡◌};
ghost use Rattle.clap.specs.Walk.{texts};
ghost use Rattle.rv_words.specs.options.Faults.{status_of};
ghost use Rattle.rv_words.specs.options.Options.{FitOptions, NamesOptions};
ghost use Rattle.rv_words.specs.declared.options.HostOptions.{HostOptions as Options};
ghost use Rattle.rv_host.specs.Statuses.{RefusesWords};

use crate::fault::HostEnd;
use crate::report::HostReport;
use crate::shell::Shell;
use crate::start::{begin, begin_in_store};
use rv_store::keeping::Keeper;
use rv_words::options::{HostFault, HostOptions, read_host};
use std::io::Write;

/// `rv host` with its options, the word `host` first: serves until it is killed or can't go on, and returns
/// the exit status: 0 if help was asked for, 2 for bad options, else 1. Standard error says why.
pub fn run_host(rt: &HostRuntime, words: &[&str]) -> u8
    ensures refused { ((options : Options) → ¬ NamesOptions (texts words.entry.now) options)
        → RefusesWords (texts words.entry.now) result }
{
    match read_host(rt.alloc(), words) {
        Ok(options) => serve(rt, &options),
        Err(fault) => tell_fault(rt, &fault),
    }
}

// Says what is wrong with the words, or the help that they ask for.
fn tell_fault(rt: &HostRuntime, fault: &HostFault<'_>) -> u8
    ensures { result ≡ status_of fault.now }
{
    let status = fault.status();
    // What `clap` says ends with LF.
    let end = match fault {
        HostFault::Refused(_) => "",
        _ => "\n",
    };
    let _ = if status == 0 {
        print!(rt; "{fault}{end}")
    } else {
        eprint!(rt; "{fault}{end}")
    };
    status
}

// Starts a server, and serves.
fn serve(rt: &HostRuntime, options: &HostOptions<'_>) -> u8
    requires { FitOptions options.now }
{
    let report = HostReport::new(rt, options.quiet);
    let is_there = report.is_there();
    match options.store {
        Some(folder) => run(rt, is_there, begin_in_store(rt, options, folder, report)),
        None => run(rt, is_there, begin(rt, options, report)),
    }
}

// Serves, if it started.
fn run<K: Keeper + Drop>(rt: &HostRuntime, is_there: bool, begun: Result<Shell<K>, HostEnd>) -> u8 {
    match begun {
        Ok(mut shell) => go_on(rt, &mut shell),
        Err(end) => {
            if is_there {
                let _ = eprintln!(rt; "{end}");
            }
            1
        }
    }
}

// Serves to the end, and says why it ended.
fn go_on<K: Keeper + Drop>(rt: &HostRuntime, shell: &mut Shell<K>) -> u8 {
    match shell.serve(rt) {
        Ok(()) => 0,
        Err(end) => {
            tell_end(rt, &shell.account, &shell.tally.report, &end);
            1
        }
    }
}

// Says why a server ends.
fn tell_end<K: Keeper>(rt: &HostRuntime, account: &Option<K>, report: &HostReport, end: &HostEnd) {
    let text = match (end, account) {
        (HostEnd::Account(fault), Some(account)) => {
            let why = account.cause();
            let name = account.name();
            format!(in rt.alloc(); "rv host ends: {name}: {fault}: {why}")
        }
        (HostEnd::TooLong, Some(account)) => {
            let name = account.name();
            format!(in rt.alloc(); "rv host ends: {name}: {end}")
        }
        _ => format!(in rt.alloc(); "rv host ends: {end}"),
    };
    match text {
        Ok(text) => report.end(rt, &text),
        Err(_) => report.end(rt, "rv host ends: no memory"),
    }
}
