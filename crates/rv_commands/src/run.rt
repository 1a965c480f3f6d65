//! Runs `rv put`, `rv take` and the other commands of a shell: one call each, or one for each line of
//! standard input, over several connections if need be.
ghost use Rattle.std.specs.Prelude.{◌≡◌, IfSome, None};
ghost use Rattle.clap.specs.Walk.{texts};
ghost use Rattle.rv_commands.specs.Statuses.{RefusesCommand};
ghost use Rattle.rv_words.specs.Beginning.{BeginWithout};
ghost use Rattle.rv_words.specs.shell.Calls.{NamesCall};
ghost use Rattle.rv_words.specs.shell.Faults.{shell_status};
ghost use Rattle.rv_words.specs.shell.Words.{shell_word};
ghost use Rattle.rv_words.specs.declared.shell.ShellCall.{ShellCall as Call};
ghost use Rattle.rv_words.specs.declared.shell.word.ShellWord.{ShellWord as Word};

mod address;
mod bench;
mod client;
mod end;
mod leased;
mod lines;
mod link;
mod printing;
mod record;
mod session;
mod waiting;

use crate::run::bench::run_bench;
use crate::run::client::ShellClient;
use crate::run::end::ShellEnd;
use crate::run::lines::put_lines;
use crate::run::printing::Teller;
use crate::run::session::{ShellSession, address_of};
use crate::run::waiting::settled_in_pieces;
pub use link::connected;
use rv_words::shell::{ShellCall, ShellFault, ShellWord, read_shell};

/// Runs the shell's command that the words say, the program's name first, and returns the status: that of
/// its reply, or of what came instead. `None` if the word after the name is none of these commands. The
/// reply goes to standard output; what is wrong, and that a call waits, to standard error.
pub fn run_shell(rt: &HostRuntime, words: &[&str]) -> Option<u8>
    ensures other { result ≡ None → (word : Word) → BeginWithout (shell_word word) (texts words.entry.now) }
    ensures refused { ((call : Call) → ¬ NamesCall (texts words.entry.now) call)
        → IfSome result (RefusesCommand (texts words.entry.now)) }
{
    match read_shell(rt.alloc(), words) {
        Ok(None) => None,
        Ok(Some(asked)) => Some(run_asked(rt, &asked)),
        Err(fault) => Some(tell_fault(rt, &fault)),
    }
}

// Tells what is wrong with the words, or the help that they ask for.
fn tell_fault(rt: &HostRuntime, fault: &ShellFault) -> u8
    ensures { result ≡ shell_status fault.now }
{
    let status = fault.status();
    let _ = if status == 0 {
        print!(rt; "{fault}")
    } else {
        eprintln!(rt; "{fault}")
    };
    status
}

// Does what the words ask for, and tells what came of it.
fn run_asked(rt: &HostRuntime, asked: &ShellCall) -> u8 {
    match status_after(rt, asked) {
        Ok(status) => status,
        Err(end) => {
            let _ = eprintln!(rt; "{end}");
            end.status()
        }
    }
}

// The status of what the words ask for.
fn status_after(rt: &HostRuntime, asked: &ShellCall) -> Result<u8, ShellEnd> {
    let text = address_of(rt, asked.connect)?;
    let session = ShellSession::open(rt, text.as_str())?;
    let mut client = ShellClient::new(rt, &session);
    let mut teller = Teller::open(rt, asked, session.record())?;
    if let Some(queue) = asked.puts_lines() {
        return put_lines(&mut client, &mut teller, queue);
    }
    let settled = settled_in_pieces(&mut client, &mut teller, &asked.call)?;
    if matches!(asked.word, ShellWord::Bench) {
        run_bench(rt, &session, &settled)
    } else {
        teller.tell(&settled)
    }
}
