//! What holds of the lines of checkpoints as such: each contract is a law, and the bodies do nothing.
ghost use Rattle.rv_checkpoint.specs.Laws.{OneState, WrittenState};

/// Lines say one state at most.
pub fn one_state()
    ensures { OneState }
{}

/// What is written for a state from which a machine can resume is read as that state.
pub fn written_state()
    ensures { WrittenState }
{}
