//! Whether an entry keeps a rule.
ghost use Rattle.std.specs.Prelude.{◌↔◌, IsTrue};
ghost use Rattle.rv_account.specs.Limits.{FitsEntry};
ghost use Rattle.rv_audit.specs.AccountRules.{rank_of};
ghost use Rattle.rv_machine.specs.Machines.{state_in};
ghost use Rattle.rv_account.specs.state.resume.Resuming.{CanResume};
ghost use Rattle.rv_verify.specs.follow.state_rules.Ruling.{KeepsRule, KeepsUpTo};

use crate::follow::state_rules::moments::{keeps_limits, keeps_time, ticks_rightly};
use crate::follow::state_rules::numbers::{hello_rises, in_session, in_turn};
use crate::follow::state_rules::partners::{
    names_well, pairs_all, pairs_oldest, pairs_opposites, swaps_all, swaps_opposites,
};
use rv_account::Entry;
use rv_audit::Rule;
use rv_machine::Machine;

/// Whether the entry keeps the rule, if it keeps those before it.
pub fn keeps(machine: &Machine, rule: Rule, entry: &Entry) -> bool
    requires resumes { CanResume (state_in machine.now) }
    requires fits { FitsEntry entry.now }
    requires before { KeepsUpTo (rank_of rule) (state_in machine.now) entry.now }
    ensures { IsTrue result ↔ KeepsRule rule (state_in machine.now) entry.now }
{
    match rule {
        Rule::M1 => keeps_time(machine, entry),
        Rule::M2 => keeps_limits(machine, entry),
        Rule::M3 => ticks_rightly(machine, entry),
        Rule::N1 => hello_rises(machine, &entry.act),
        Rule::N2 => in_session(machine, &entry.act),
        Rule::N3 => in_turn(machine, &entry.act),
        Rule::P1 => names_well(machine, entry),
        Rule::P2 => pairs_opposites(machine, entry),
        Rule::P3 => pairs_oldest(machine, entry),
        Rule::P4 => pairs_all(machine, entry),
        Rule::S1 => swaps_opposites(machine, entry),
        Rule::S2 => swaps_all(machine, entry),
    }
}
