//! Whether an entry keeps the rules on moments.
ghost use Rattle.std.specs.Prelude.{◌≡◌, ◌≢◌, ◌↔◌, [], IsTrue};
ghost use Rattle.rv_account.specs.state.After.{due_at};
ghost use Rattle.rv_machine.specs.Machines.{state_in};
ghost use Rattle.rv_verify.specs.follow.state_rules.Ruling.{KeepsRule};
ghost use Rattle.rv_audit.specs.declared.rule.Rule.TheVariants.{M1, M2, M3};

use rv_account::{Act, Entry};
use rv_machine::Machine;

// Whether something is due at a moment.
fn has_due(machine: &Machine, moment: u64) -> bool
    ensures { IsTrue result ↔ due_at (state_in machine.now) moment ≢ [] }
{
    match machine.next_limit() {
        Some(limit) => limit <= moment,
        None => false,
    }
}

/// Whether time doesn't fall.
pub(crate) fn keeps_time(machine: &Machine, entry: &Entry) -> bool
    ensures { IsTrue result ↔ KeepsRule M1 (state_in machine.now) entry.now }
{
    machine.moment() <= entry.moment
}

/// Whether the entry, if it isn't a tick, passes no limit of what waits.
pub(crate) fn keeps_limits(machine: &Machine, entry: &Entry) -> bool
    ensures { IsTrue result ↔ KeepsRule M2 (state_in machine.now) entry.now }
{
    match &entry.act {
        Act::Tick => true,
        Act::Hello { .. } => !has_due(machine, entry.moment),
        Act::Arrive { .. } => !has_due(machine, entry.moment),
        Act::Cancel { .. } => !has_due(machine, entry.moment),
    }
}

/// Whether something is due at a tick.
pub(crate) fn ticks_rightly(machine: &Machine, entry: &Entry) -> bool
    ensures { IsTrue result ↔ KeepsRule M3 (state_in machine.now) entry.now }
{
    match &entry.act {
        Act::Tick => has_due(machine, entry.moment),
        Act::Hello { .. } => true,
        Act::Arrive { .. } => true,
        Act::Cancel { .. } => true,
    }
}
