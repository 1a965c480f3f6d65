//! What is read off a verifier.
ghost use Rattle.std.specs.Prelude.{◌≡◌, ◌↔◌, IsSome, IsTrue};
ghost use Rattle.rv_verify.specs.Standing.{entries_read, machine_of, stop_of};

use crate::verifier::Verifier;
use rv_machine::Machine;

impl Verifier {
    /// How many entries were read.
    pub(crate) fn entries(&self) -> u64
        ensures { result ≡ entries_read self.now }
    {
        self.entries
    }

    /// The machine, which holds the state of the entries that passed.
    pub(crate) fn machine(&self) -> &Machine
        ensures { result.now ≡ machine_of self.now }
    {
        &self.machine
    }

    /// Whether an entry stopped the verifier.
    pub(crate) fn stopped(&self) -> bool
        ensures { IsTrue result ↔ IsSome (stop_of self.now) }
    {
        self.stop.is_some()
    }
}
