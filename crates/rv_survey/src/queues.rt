//! What waits in each queue.
ghost use Rattle.std.specs.Prelude.{◌≡◌, OnOk};
ghost use Rattle.rv_text.specs.Limits.{FitsQueue};
ghost use Rattle.rv_machine.specs.Machines.{state_in};
ghost use Rattle.rv_survey.specs.Queues.{AreQueues, row_of_queue};

use rv_machine::Machine;
use rv_status::QueueRow;
use std::alloc::AllocError;

// How many queues there are.
const QUEUES: u64 = 64;

/// Lists what waits in each queue, in place of what the list held. Fails only if memory was refused, and
/// never once the list had room for 64 rows.
pub fn list_queues(machine: &Machine, rows: &mut Vec<QueueRow>) -> Result<(), AllocError>
    ensures { OnOk result (AreQueues 64 (state_in machine.now) rows.new.items) }
{
    rows.clear();
    for queue in 0..QUEUES {
        rows.push(queue_row(machine, queue))?;
    }
    Ok(())
}

// What waits in one queue.
fn queue_row(machine: &Machine, queue: u64) -> QueueRow
    requires { FitsQueue queue }
    ensures { result ≡ row_of_queue (state_in machine.now) queue }
{
    let (items, consumers) = machine.count(queue);
    QueueRow {
        queue,
        items: items as u64,
        consumers: consumers as u64,
    }
}
