//! The exit status of the program.
ghost use Rattle.std.specs.Prelude.{◌≡◌};
ghost use Rattle.rv_replies.specs.findings.Statuses.{closed_status, legal_status, status_by, torn_or};

use crate::findings::verdict::{AccountFinding, AccountVerdict};
use rv_audit::Rule;

// The status of an account in which a rule is broken, or that has a bad line.
const BROKEN: u8 = 1;

// The status for a torn end, and the one for an account whose state has no room after some place.
const TORN: u8 = 3;

const BEYOND: u8 = 4;

// The status for an entry that breaks P1, P2 or S1, if the entries before it can't be read again.
const UNTOLD: u8 = 5;

// The status for a record with a line that a legal account doesn't keep, or with two lines that differ.
const UNKEPT: u8 = 6;

// The status for a torn end, or else this one.
fn torn_or(torn: bool, own: u8) -> u8
    ensures { result ≡ torn_or torn own }
{
    if torn { TORN } else { own }
}

// That of an entry that names a closed place, by the rule if that is known.
fn closed_status(rule: Option<Rule>) -> u8
    ensures { result ≡ closed_status rule }
{
    match rule {
        Some(_) => BROKEN,
        None => UNTOLD,
    }
}

// That of a legal account, by whether all of a record is kept.
fn legal_status(torn: bool, kept: bool) -> u8
    ensures { result ≡ legal_status torn kept }
{
    if kept { torn_or(torn, 0) } else { UNKEPT }
}

/// The exit status for what was found of an account, the rule that is broken at a closed place, if it is
/// known, and whether all of a record is kept.
pub fn status_of(found: &AccountFinding, rule: Option<Rule>, kept: bool) -> u8
    ensures { result ≡ status_by found.now.verdict rule found.now.torn kept }
{
    match &found.verdict {
        AccountVerdict::Legal => legal_status(found.torn, kept),
        AccountVerdict::Fault { .. } => torn_or(found.torn, BROKEN),
        AccountVerdict::NotOpen { .. } => torn_or(found.torn, closed_status(rule)),
        AccountVerdict::BadLine(_) => torn_or(found.torn, BROKEN),
        AccountVerdict::BeyondLimits(_) => torn_or(found.torn, BEYOND),
    }
}
