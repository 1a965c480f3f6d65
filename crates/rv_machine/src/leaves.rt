//! Arrivals that find nobody and don't stay.
ghost use Rattle.std.specs.Prelude.{◌≡◌, [], None, Some, IfOk, IsSome, OnErr, option_map};
ghost use Rattle.rv_text.specs.Calls.{side_of, wait_of};
ghost use Rattle.rv_text.specs.Limits.{FitsCall, FitsQueue};
ghost use Rattle.rv_text.specs.declared.answer.Reply.TheVariants as reply;
ghost use Rattle.rv_text.specs.declared.call.Call.TheVariants as call;
ghost use Rattle.rv_account.specs.Calls.{Lasts};
ghost use Rattle.rv_model_queues.specs.Meeting.{StaysBy};
ghost use Rattle.rv_account.specs.state.After.{told_alone, told_front, told_unmet};
ghost use Rattle.rv_account.specs.state.State.{line};
ghost use Rattle.rv_text.specs.declared.call.Side.TheVariants.{Gives};
ghost use Rattle.rv_machine.specs.Arriving.{Arrives, IsAsBefore, MayArrive};
ghost use Rattle.rv_machine.specs.Machines.{IsWhole, state_in};
ghost use Rattle.rv_machine.specs.open_places.OpenMap.{opposed_in};

use crate::tables::Holdings;
use rv_account::{Act, Entry, Partners};
use rv_session::OpenPlace;
use rv_text::{Call, Items, Key, NoMemory, Reply, Wait};
use std::alloc::Global;

// The reply of a request that meets nobody and doesn't wait, if this one says that nobody was there.
fn unmet(wait: Wait, nobody: Reply) -> Reply
    requires { ¬ Lasts (Some wait) }
    ensures { told_unmet wait nobody ≡ Some result }
{
    match wait {
        Wait::Now => nobody,
        Wait::Millis(_) => Reply::TimedOut,
        Wait::Forever => unreachable!(),
    }
}

// The reply of a peek, by a queue's oldest item.
fn peeked(front: &OpenPlace, alloc: Global) -> Result<Reply, NoMemory>
    requires { IsSome front.now.item }
    ensures { IfOk result (λ told. option_map (λ item. reply.Peeked item) front.now.item ≡ Some told) }
{
    Ok(Reply::Peeked(front.item.as_ref().unwrap().copy(alloc)?))
}

impl Holdings {
    /// Records an arrival that finds nobody and doesn't stay, and gives its entry: its request has its reply
    /// at once. Fails only if memory was refused, and then nothing changes.
    pub(crate) fn leave(&mut self, moment: u64, key: Key, call: Call) -> Result<Entry, NoMemory>
        requires may { MayArrive self.old moment key call }
        requires alone { opposed_in self.old.table (side_of call) ≡ [] }
        requires leaves { ¬ StaysBy (side_of call) (wait_of call) }
        ensures arrives { IfOk result (λ made. Arrives self.old self.new moment key call made) }
        ensures same { OnErr result (IsAsBefore self.old self.new) }
        ensures ready { IsWhole self.new }
    {
        let alloc = self.allocator();
        let (copy, reply) = self.told_alone(&call, alloc)?;
        self.clients.conclude(&key, call, reply);
        let act = Act::Arrive { key, call: copy };
        Ok(self.record(moment, act, Partners::none(alloc)))
    }

    // A copy of the call of a request that finds nobody and doesn't stay, and its reply.
    fn told_alone(&self, call: &Call, alloc: Global) -> Result<(Call, Reply), NoMemory>
        requires ready { IsWhole self.now }
        requires fits { FitsCall call.now }
        requires leaves { ¬ StaysBy (side_of call.now) (wait_of call.now) }
        ensures copy { IfOk result (λ made. made.0 ≡ call.now) }
        ensures reply { IfOk result (λ made. told_alone (state_in self.now) call.now ≡ Some made.1) }
    {
        let reply = self.reply_alone(call, alloc)?;
        Ok((call.copy(alloc)?, reply))
    }

    // The reply of a request that finds nobody and doesn't stay.
    fn reply_alone(&self, call: &Call, alloc: Global) -> Result<Reply, NoMemory>
        requires ready { IsWhole self.now }
        requires fits { FitsCall call.now }
        requires leaves { ¬ StaysBy (side_of call.now) (wait_of call.now) }
        ensures { IfOk result (λ told. told_alone (state_in self.now) call.now ≡ Some told) }
    {
        match call {
            Call::Put { .. } => Ok(Reply::Done),
            Call::Transfer { wait, .. } => Ok(unmet(*wait, Reply::Nobody)),
            Call::Take { wait, .. } => Ok(unmet(*wait, Reply::Empty)),
            Call::Swap { wait, .. } => Ok(unmet(*wait, Reply::TimedOut)),
            Call::Count { queue } => Ok(self.counted(*queue)),
            Call::Peek { queue } => self.peek(*queue, alloc),
            Call::Drain { .. } => Ok(Reply::Drained(Items::new(alloc))),
        }
    }

    // How many items and how many consumers wait in a queue.
    fn counted(&self, queue: u64) -> Reply
        requires { FitsQueue queue }
        ensures { told_alone (state_in self.now) (call.Count queue) ≡ Some result }
    {
        let (items, consumers) = self.table.count(queue);
        Reply::Counted {
            items: items as u64,
            consumers: consumers as u64,
        }
    }

    // The reply of a peek at a queue.
    fn peek(&self, queue: u64, alloc: Global) -> Result<Reply, NoMemory>
        requires ready { IsWhole self.now }
        requires fits { FitsQueue queue }
        ensures { IfOk result (λ told. told_front (line (state_in self.now) (Gives queue)) ≡ Some told) }
    {
        match self.table.front(queue) {
            Some(front) => peeked(front, alloc),
            None => Ok(Reply::Empty),
        }
    }
}
