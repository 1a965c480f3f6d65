//! A descriptor that is held back for a request to the status address, in case no other is left.
use std::fs::File;

// What is held open: nothing is read of it.
const HELD: &str = "/dev/null";

/// A descriptor that can be let go, and held again once one is free.
#[derive(Drop)]
pub(crate) struct Reserve {
    held: Option<File>,
}

impl Reserve {
    /// Holds one, if the system has one.
    pub(crate) fn new(rt: &HostRuntime) -> Reserve {
        Reserve {
            held: File::open(rt, HELD).ok(),
        }
    }

    /// Holds one again, if it was let go and the system has one.
    pub(crate) fn hold(&mut self, rt: &HostRuntime) {
        if self.held.is_none() {
            self.held = File::open(rt, HELD).ok();
        }
    }

    /// Lets go of it, and returns whether there was one.
    pub(crate) fn let_go(&mut self) -> bool {
        self.held.take().is_some()
    }
}
