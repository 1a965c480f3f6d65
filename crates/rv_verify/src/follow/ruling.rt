//! What a machine's state says of an entry before anything is done: that it follows, or which rule it breaks
//! first.
ghost use Rattle.std.specs.Prelude.{◌≡◌, ◌↔◌, IfNone, IfSome, IsTrue};
ghost use Rattle.rv_account.specs.Limits.{FitsEntry};
ghost use Rattle.rv_audit.specs.AccountRules.{rank_of};
ghost use Rattle.rv_audit.specs.declared.rule.Rule.{Rule};
ghost use Rattle.rv_audit.specs.declared.rule.Rule.TheVariants.{P2};
ghost use Rattle.rv_machine.specs.Machines.{state_in};
ghost use Rattle.rv_account.specs.state.resume.Resuming.{CanResume};
ghost use Rattle.rv_account.specs.state.Kept.{NamesOpen};
ghost use Rattle.rv_verify.specs.follow.state_rules.Ruling.{IsFirstBroken, KeepsUpTo, KeepsRule};
ghost use Rattle.rv_verify.specs.follow.Told.{IsRulingOf};

use crate::follow::state_rules::{keeps, names_open};
use rv_account::Entry;
use rv_audit::Rule;
use rv_machine::Machine;

/// What the state that a machine holds says of an entry.
#[derive(Clone, Copy)]
pub(crate) enum Ruling {
    /// It follows.
    Follows,
    /// It breaks this rule first.
    Breaks(Rule),
    /// It names well, except for a place where nothing is open.
    NotOpen,
}

// The first rule up to P1 that the entry breaks.
fn first_broken(machine: &Machine, entry: &Entry) -> Option<Rule>
    requires resumes { CanResume (state_in machine.now) }
    requires fits { FitsEntry entry.now }
    ensures some { IfSome result (IsFirstBroken (state_in machine.now) entry.now) }
    ensures none { IfNone result (KeepsUpTo (rank_of P2) (state_in machine.now) entry.now) }
{
    let rules = [
        Rule::M1,
        Rule::M2,
        Rule::M3,
        Rule::N1,
        Rule::N2,
        Rule::N3,
        Rule::P1,
    ];
    for rule in &rules {
        if !keeps(machine, *rule, entry) {
            return Some(*rule);
        }
    }
    None
}

// The first rule after P1 that the entry breaks, if each place that it names is open.
fn first_misnamed(machine: &Machine, entry: &Entry) -> Option<Rule>
    requires resumes { CanResume (state_in machine.now) }
    requires fits { FitsEntry entry.now }
    requires kept { KeepsUpTo (rank_of P2) (state_in machine.now) entry.now }
    requires named_open { NamesOpen (state_in machine.now) entry.now }
    ensures some { IfSome result (IsFirstBroken (state_in machine.now) entry.now) }
    ensures none { IfNone result ((rule : Rule) → KeepsRule rule (state_in machine.now) entry.now) }
{
    let rules = [Rule::P2, Rule::P3, Rule::P4, Rule::S1, Rule::S2];
    for rule in &rules {
        if !keeps(machine, *rule, entry) {
            return Some(*rule);
        }
    }
    None
}

/// What the state says of an entry.
pub(crate) fn rule_on(machine: &Machine, entry: &Entry) -> Ruling
    requires resumes { CanResume (state_in machine.now) }
    requires fits { FitsEntry entry.now }
    ensures { IsRulingOf (state_in machine.now) entry.now result }
{
    match first_broken(machine, entry) {
        Some(rule) => Ruling::Breaks(rule),
        None => {
            if names_open(machine, entry.partners.as_slice()) {
                rule_on_named(machine, entry)
            } else {
                Ruling::NotOpen
            }
        }
    }
}

// The same of one that keeps the rules up to P1 and names only what is open.
fn rule_on_named(machine: &Machine, entry: &Entry) -> Ruling
    requires resumes { CanResume (state_in machine.now) }
    requires fits { FitsEntry entry.now }
    requires kept { KeepsUpTo (rank_of P2) (state_in machine.now) entry.now }
    requires named_open { NamesOpen (state_in machine.now) entry.now }
    ensures { IsRulingOf (state_in machine.now) entry.now result }
{
    match first_misnamed(machine, entry) {
        Some(rule) => Ruling::Breaks(rule),
        None => Ruling::Follows,
    }
}
