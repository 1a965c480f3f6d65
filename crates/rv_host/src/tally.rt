//! What a server counts for its status and its report.
use crate::report::{FaultKind, HostReport};
use rv_status::AnswerTally;
use rv_traffic::ReadFaults;

// Refusals, by their numbers less one, and the kind of fault as which each is reported.
const REFUSALS: [(usize, FaultKind); 3] = [
    (8, FaultKind::ClientsFull),
    (9, FaultKind::BookFull),
    (10, FaultKind::NoMemory),
];

/// The answers that left, how many connections were accepted, and the faults.
#[derive(Drop)]
pub(crate) struct HostTally {
    pub(crate) answers: AnswerTally,
    pub(crate) opened: u64,
    pub(crate) report: HostReport,
}

impl HostTally {
    /// Connections were given up while all were read.
    pub(crate) fn note_read(&mut self, faults: &ReadFaults) {
        self.report.note_all(FaultKind::Link, faults.broken);
        self.report.note_all(FaultKind::NotOpened, faults.no_memory);
    }

    /// Refusals for lack of room are reported as faults are.
    pub(crate) fn note_refusals(&mut self) {
        for (place, kind) in REFUSALS {
            let count = self.answers.fresh(place);
            self.report
                .note_all(kind, usize::try_from(count).unwrap_or(usize::MAX));
        }
    }
}
