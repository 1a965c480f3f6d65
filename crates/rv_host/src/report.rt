//! What a server says of itself on standard error, without ever waiting for whoever reads it.
use httpdate::HttpDate;
use libc::net::{POLLERR, POLLHUP, POLLNVAL, POLLOUT, poll};
use libc::types::pollfd;
pub(crate) use rv_survey::log::FaultKind;
use rv_survey::log::{FaultTally, fault_text, line};
use std::env;
use std::env::VarError;
use std::io::Write;
use std::time::Clock;

const STANDARD_ERROR: i32 = 2;

// What the poll reports for a descriptor that takes no lines.
const GONE: i16 = POLLERR | POLLHUP | POLLNVAL;

/// How often each kind of fault came, and how lines are written.
#[derive(Drop)]
pub(crate) struct HostReport {
    tallies: [FaultTally; 14],
    // How often each kind came since the start.
    counts: [u64; 14],
    is_quiet: bool,
    has_times: bool,
    // Whether standard error was open at the start.
    is_there: bool,
}

// What the poll reports for standard error: if it takes a line at once, that bit is set.
fn told_of_standard_error() -> i16 {
    let mut asked = [pollfd {
        fd: STANDARD_ERROR,
        events: POLLOUT,
        revents: 0,
    }];
    let _ = poll(&mut asked, 0);
    asked[0].revents
}

// Whether standard error takes a line at once.
fn is_taking() -> bool {
    let told = told_of_standard_error();
    told & POLLOUT != 0 && told & GONE == 0
}

// Whether standard error is closed: a file that is opened later may get its number.
fn is_closed() -> bool {
    told_of_standard_error() & POLLNVAL != 0
}

// Whether the environment has a variable of this name.
fn is_set(rt: &HostRuntime, name: &str) -> bool {
    match env::var(rt, name) {
        Ok(_) => true,
        Err(why) => !matches!(why, VarError::NotPresent),
    }
}

// The time of a line, by the wall clock.
fn date(rt: &HostRuntime) -> Option<HttpDate> {
    let since = rt.since_1970().ok()?;
    HttpDate::from_unix_secs(since.as_secs()).ok()
}

impl HostReport {
    /// Nothing is counted yet. If it is to be quiet, it says nothing except why a server ends, and nothing at
    /// all if standard error is closed. Under systemd, which adds the times, lines have none.
    pub(crate) fn new(rt: &HostRuntime, is_quiet: bool) -> HostReport {
        let is_journal = is_set(rt, "JOURNAL_STREAM") || is_set(rt, "INVOCATION_ID");
        HostReport {
            tallies: [FaultTally::new(); 14],
            counts: [0; 14],
            is_quiet,
            has_times: !is_journal,
            is_there: !is_closed(),
        }
    }

    /// Whether there is a standard error.
    pub(crate) fn is_there(&self) -> bool {
        self.is_there
    }

    /// A fault of this kind came.
    pub(crate) fn note(&mut self, kind: FaultKind) {
        if let Some(tally) = self.tallies.get_mut(kind as usize) {
            tally.note();
        }
        if let Some(count) = self.counts.get_mut(kind as usize) {
            *count = count.saturating_add(1);
        }
    }

    /// How often a kind came since the start.
    pub(crate) fn count(&self, kind: FaultKind) -> u64 {
        self.counts.get(kind as usize).copied().unwrap_or(0)
    }

    /// This many faults of this kind came.
    pub(crate) fn note_all(&mut self, kind: FaultKind, count: usize) {
        for _ in 0..count {
            self.note(kind);
        }
    }

    /// Whether a fault came that wasn't reported.
    pub(crate) fn has_untold(&self) -> bool {
        !self.is_quiet && self.tallies.iter().any(|tally| !tally.is_told())
    }

    /// Says a line, unless it is quiet. One that standard error doesn't take is counted.
    pub(crate) fn say(&mut self, rt: &HostRuntime, text: &str) {
        if !self.is_quiet && !self.write(rt, text) {
            self.note(FaultKind::Dropped);
        }
    }

    /// Says why the server ends, also if it is quiet.
    pub(crate) fn end(&self, rt: &HostRuntime, text: &str) {
        let _ = self.write(rt, text);
    }

    // Writes a line, if standard error takes it at once. Returns whether it did.
    fn write(&self, rt: &HostRuntime, text: &str) -> bool {
        if !self.is_there || !is_taking() {
            return false;
        }
        let at = if self.has_times { date(rt) } else { None };
        match line(rt.alloc(), at, text) {
            Ok(bytes) => rt.stderr().write(bytes.as_slice()).is_ok(),
            Err(_) => false,
        }
    }

    /// Reports each kind of fault that came, at most once a minute. While standard error takes no lines,
    /// faults are still counted.
    pub(crate) fn tell(&mut self, rt: &HostRuntime, now: u64) {
        for kind in FaultKind::ALL {
            if !self.is_quiet && is_taking() {
                self.tell_kind(rt, now, kind);
            }
        }
    }

    // Reports one kind.
    fn tell_kind(&mut self, rt: &HostRuntime, now: u64, kind: FaultKind) {
        let Some(count) = self.take(now, kind) else {
            return;
        };
        match fault_text(rt.alloc(), kind, count) {
            Ok(text) => self.say(rt, &text),
            Err(_) => self.note(FaultKind::Dropped),
        }
    }

    // How often a kind came, if it is to be reported.
    fn take(&mut self, now: u64, kind: FaultKind) -> Option<u64> {
        self.tallies.get_mut(kind as usize)?.take(now)
    }
}
