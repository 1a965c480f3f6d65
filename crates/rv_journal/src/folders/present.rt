//! Which epoch's account is the present one.
ghost use Rattle.std.specs.Prelude.{IfOk};
ghost use Rattle.rv_journal.specs.folders.Folder.{HasCauseIn, KeepsNames, WhereNamed};
ghost use Rattle.rv_journal.specs.folders.Present.{IsPresent};

use crate::DeviceFault;
use crate::folders::folder::Folder;
use std::alloc::Global;

/// The present epoch: the greatest one whose account has a file, if there is one.
pub fn present_epoch<F: Folder>(alloc: Global, folder: &mut F) -> Result<Option<u64>, DeviceFault>
    ensures present { IfOk result (λ present. WhereNamed F.directory folder.old
        (IsPresent (F.directory.seen folder.old) present)) }
    ensures kept { KeepsNames F.directory folder.old folder.new }
    ensures cause { HasCauseIn F.directory folder.old folder.new result }
{
    let epochs = folder.epochs(alloc)?;
    Ok(epochs.iter().copied().max())
}
