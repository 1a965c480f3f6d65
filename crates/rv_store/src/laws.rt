//! Laws of what is found after a crash: each contract is one, and no body does anything.
ghost use Rattle.rv_store.specs.Found.{ToldIsFound};
ghost use Rattle.rv_store.specs.Resumed.{CheckpointsStand};

/// At whatever moment of an engine's run a crash comes, its journal is read as the account of all entries
/// that the hub was told are written, and a front of those after them; and a machine goes on from that.
pub fn told_is_found()
    ensures { ToldIsFound }
{}

/// A checkpoint that was written of a machine which holds the account of a journal's first lines is one that
/// a start can go on from: the machine that is made of it stands on that journal.
pub fn checkpoints_stand()
    ensures { CheckpointsStand }
{}
