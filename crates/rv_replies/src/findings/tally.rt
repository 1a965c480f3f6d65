//! How many lines have each finding.
ghost use Rattle.std.specs.Prelude.{◌≡◌, ◌↔◌, IsTrue, filter, length};
ghost use Rattle.std.specs.List.{All};
ghost use Rattle.rv_replies.specs.findings.Tallies.{is_finding, words_of};
ghost use Rattle.rv_replies.specs.findings.Findings.{IsKeptFinding};

use crate::findings::Finding;

/// How many of the findings are this one.
pub fn count_of(findings: &[Finding], finding: Finding) -> usize
    ensures { result ≡ length (filter (is_finding finding) findings.now) }
{
    findings.iter().filter(|own| **own == finding).count()
}

/// Whether all are kept.
pub fn are_kept(findings: &[Finding]) -> bool
    ensures { IsTrue result ↔ All IsKeptFinding findings.now }
{
    findings.iter().all(|finding| finding.is_kept())
}

impl Finding {
    /// Its words, as they are printed.
    pub fn words(self) -> &'static str
        ensures { result.now ≡ words_of self }
    {
        match self {
            Finding::Kept => "kept",
            Finding::KeptUnseen => "kept, as a cancel tells it",
            Finding::OtherReply => "another reply",
            Finding::OtherCall => "another call",
            Finding::NoRequest => "no such request",
            Finding::Waiting => "still waiting",
            Finding::OtherEpoch => "another epoch",
            Finding::Impossible => "a reply that this call can't have",
            Finding::NoRecord => "no record",
        }
    }
}
