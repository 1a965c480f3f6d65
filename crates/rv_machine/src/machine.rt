//! The machine of a book: the state of an account, in tables that always keep what its steps rest on.
use crate::tables::Holdings;
use rv_text::{Key, Refusal, Version};
use std::marker::Model;

/// What is said of a step. An answer is made of it, and of the state after the step.
#[derive(Clone, Copy)]
pub enum Said {
    /// A welcome: the epoch, the client, its incarnation and its version.
    Welcome(u64, u64, u64, Version),
    /// The request of this key has the reply that its session keeps, or waits.
    Told(Key),
    /// The message was refused.
    Refused(Refusal),
}

/// The machine: the state of an account, without its entries. Each step is handed its limits. Contracts see
/// its tables. They always fit each other and a state, and there is always room to list all that wait.
pub struct Machine {
    pub(crate) tables: Holdings,
}

impl Drop for Machine {
    fn drop(self) {
        let Machine { tables: _ } = self;
    }
}

impl Model for Machine {
    ghost use Rattle.rv_machine.specs.declared.tables.Holdings.{Holdings};
    ghost use Rattle.rv_machine.specs.contracts.tables.Holdings as row;

    ghost Value = { Holdings };

    ghost coded = { row.the_row.coded };

    ghost use Rattle.rv_machine.specs.Owning.{IsMachine};

    ghost view = { λ m. m.tables };

    ghost invariant = { λ m. IsMachine m.tables };
}
