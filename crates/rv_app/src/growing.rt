//! Audits an account as its file grows.
ghost use Rattle.std.specs.Prelude.{◌≡◌, ◌↔◌, false, IfOk, IfSome, IsTrue};
ghost use Rattle.rv_app.specs.Progress.{IsProgressDue};
ghost use Rattle.rv_app.specs.Verifying.{EndsAtFault};
ghost use Rattle.rv_verify.specs.Stages.{AreNew};

use crate::verify::{buffered, run_fault};
use rv_replies::Records;
use rv_replies::findings::AccountFinding;
use rv_run::RunFault;
use rv_verify::{OngoingAudit, Pause};
use std::io::Read;
use std::sync::Wait;
use std::time::{Duration, Instant};
use std::{thread, time};

// The milliseconds that pass before a file is asked again.
const PAUSE_MILLIS: u64 = 200;

// How many seconds pass at least before it says again how far it is.
const TELL_SECONDS: u64 = 60;

/// Reads an account as its file grows, until a rule is broken, a line is bad, or its state has no room. It
/// judges only whole lines, so no end is torn. On standard error it says at most once a minute how many
/// entries there were.
pub(crate) fn follow<T: Wait + time::Clock, F: Read + Drop>(
    rt: &HostRuntime,
    waits: &T,
    file: F,
    records: &mut Records,
) -> Result<AccountFinding, RunFault>
    requires { AreNew records.old }
    ensures first { IfSome (F.remaining file) (λ bytes. IfOk result (EndsAtFault bytes records.new)) }
    ensures whole { IfOk result (λ found. found.torn ≡ false) }
    ensures lines { records.new.lines ≡ records.old.lines }
{
    let alloc = rt.alloc();
    let mut reader = buffered(alloc, file)?;
    let mut audit = OngoingAudit::new(alloc);
    let mut told = HowFar::new();
    for _ in waits.forever() {
        match audit.read_on(alloc, &mut reader, records) {
            Ok(Pause::Fault) => return Ok(audit.break_off()),
            Ok(Pause::End) => told.tell(rt, audit.entries()),
            Err(fault) => return Err(run_fault(fault)),
        }
        thread::sleep(waits, Duration::from_millis(PAUSE_MILLIS));
    }
    unreachable!()
}

// Whether to say how far it is: nothing was said yet, or another number of entries was, so many seconds ago.
fn is_due(told: Option<u64>, entries: u64, seconds: u64) -> bool
    ensures { IsTrue result ↔ IsProgressDue told entries seconds }
{
    match told {
        None => true,
        Some(before) => before != entries && seconds >= TELL_SECONDS,
    }
}

// How many entries were reported last, if any were, and when.
#[derive(Drop)]
struct HowFar {
    told: Option<u64>,
    at: Option<Instant>,
}

impl HowFar {
    fn new() -> HowFar {
        HowFar {
            told: None,
            at: None,
        }
    }

    // Says how many entries there were, if that is due.
    fn tell(&mut self, rt: &HostRuntime, entries: u64) {
        if !is_due(self.told, entries, self.seconds(rt)) {
            return;
        }
        let _ = eprintln!(rt; "{entries} entries so far");
        self.told = Some(entries);
        self.at = Instant::now(rt).ok();
    }

    // How many seconds ago they were reported, or 0 if the clock can't be read.
    fn seconds(&self, rt: &HostRuntime) -> u64 {
        match self.at {
            None => 0,
            Some(at) => at.elapsed(rt).map_or(0, |since| since.as_secs()),
        }
    }
}
