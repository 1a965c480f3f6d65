//! The state of a machine as such: a copy of it, and a machine that goes on from one.
ghost use Rattle.std.specs.Prelude.{◌≡◌, IfErr, IfOk, []};
ghost use Rattle.rv_account.specs.state.resume.Resuming.{CanResume};
ghost use Rattle.rv_machine.specs.Machines.{IsWhole, state_in};
ghost use Rattle.rv_machine.specs.Numbering.{AreNumbered};
ghost use Rattle.rv_machine.specs.Remaking.{IsWhyNot};

use crate::machine::Machine;
use crate::open_places::OpenTable;
use crate::tables::Holdings;
use rv_account::rules::MOST_KNOWN;
use rv_account::state::resume::Snapshot;
use rv_session::ReturnedClients;
use rv_text::NoMemory;
use std::alloc::Global;

/// Why no machine was made of a state.
#[derive(Clone, Copy)]
pub enum NoMachine {
    /// The state lacks something that a state to resume from has.
    Unfit,
    /// Memory was refused.
    NoMemory,
}

impl Machine {
    /// A copy of the state. Fails only if memory was refused.
    pub fn state(&self) -> Result<Snapshot, NoMemory>
        ensures { IfOk result (λ s. s ≡ state_in self.now) }
    {
        let alloc = self.tables.allocator();
        let places = self.tables.table.places(alloc)?;
        let clients = self.tables.clients.states(alloc)?;
        let (epoch, length) = (self.tables.clients.epoch(), self.tables.length as u64);
        Ok(Snapshot::from_parts(epoch, self.tables.moment, length, places, clients).unwrap())
    }

    /// The machine of a state to resume from, whatever account led to it. It goes on as a machine that came
    /// to this state does, and has settled nothing yet. It takes time as [`Snapshot::can_resume`] does.
    pub fn resume(alloc: Global, state: Snapshot) -> Result<Machine, NoMachine>
        ensures state { IfOk result (λ m. state_in m ≡ state) }
        ensures settled { IfOk result (λ m. m.settled.items ≡ []) }
        ensures fits { IfOk result (λ _. CanResume state) }
        ensures err { IfErr result (IsWhyNot state) }
    {
        if !state.can_resume() {
            return Err(NoMachine::Unfit);
        }
        match Holdings::holding(alloc, state) {
            Ok(tables) => Ok(Machine { tables }),
            Err(_) => Err(NoMachine::NoMemory),
        }
    }
}

impl Holdings {
    // The tables that hold a state to resume from. Fails only if memory was refused.
    fn holding(alloc: Global, state: Snapshot) -> Result<Holdings, NoMemory>
        requires { CanResume state }
        ensures state { IfOk result (λ m. state_in m ≡ state) }
        ensures ready { IfOk result IsWhole }
        ensures numbered { IfOk result (λ m. AreNumbered (state_in m)) }
        ensures settled { IfOk result (λ m. m.settled.items ≡ []) }
    {
        let (epoch, moment, length, places, clients) = state.into_parts();
        let clients = ReturnedClients::from_states(alloc, epoch, MOST_KNOWN, clients)?;
        let opened = OpenTable::resume(alloc, clients, places)?;
        let (table, clients) = opened;
        let settled = Vec::with_capacity(alloc, table.waiting())?;
        Ok(Holdings {
            moment,
            length: length as usize,
            table,
            clients,
            settled,
        })
    }
}
