//! The store of a folder, to whose present account lines are added until the program is killed.
use crate::journals::{TakesLines, add_each};
use anyhow::bail;
use rv_frame::Lasting;
use rv_journal::folders::{SystemFolder, SystemFolderFault};
use rv_journal::{OpenFault, SystemFile};
use rv_store::{
    AccountJournal, PresentFault, RecoveryFault, StoredAccount, begin_account, open_present,
};
use std::io::Write;
use std::process::ExitCode;

/// Opens the store of a folder, which is made where there is none. It goes on with the present account if
/// that is of this epoch, or else begins it at moment 0, and prints how many entries it has. Then each line
/// of standard input is added, as an entry's, and printed once it is stored.
pub(crate) fn add_entries(rt: &HostRuntime, path: &str, epoch: u64) -> anyhow::Result<ExitCode> {
    let mut folder = match SystemFolder::open(rt, path, u64::MAX) {
        Ok(folder) => folder,
        Err(SystemFolderFault::Locked) => bail!("another server has {path}"),
        Err(SystemFolderFault::Io(why)) => bail!("{path}: {why}"),
    };
    let (mut journal, entries) = go_on_or_begin(rt, &mut folder, epoch)?;
    let mut output = rt.stdout();
    writeln!(output, "entries {entries}")?;
    output.flush()?;
    add_each(rt, &mut journal, &mut output)
}

// The journal of this epoch's account, and how many entries it has.
fn go_on_or_begin(
    rt: &HostRuntime,
    folder: &mut SystemFolder<'_>,
    epoch: u64,
) -> anyhow::Result<(AccountJournal<SystemFile>, usize)> {
    match open_present(rt.alloc(), folder) {
        Ok(Some(StoredAccount { journal, machine })) if machine.epoch() == epoch => {
            Ok((journal, machine.length()))
        }
        Ok(_) => begin(rt, folder, epoch),
        Err(PresentFault::Folder(_)) => bail!("the store's folder failed"),
        Err(PresentFault::Account(other, fault)) => bail!("epoch {other}: {}", told(&fault)),
    }
}

// The journal of an account that is begun.
fn begin(
    rt: &HostRuntime,
    folder: &mut SystemFolder<'_>,
    epoch: u64,
) -> anyhow::Result<(AccountJournal<SystemFile>, usize)> {
    match begin_account(rt.alloc(), folder, epoch, 0) {
        Ok(journal) => Ok((journal, 0)),
        Err(fault) => bail!("{fault}"),
    }
}

// Why a file isn't the journal of an account.
fn told(fault: &OpenFault<RecoveryFault>) -> &'static str {
    match fault {
        OpenFault::NotFilled => "no zero stands in the file",
        OpenFault::Device(_) => "the file failed",
        OpenFault::Refused(RecoveryFault::OtherVersion(_)) => "another version of the format",
        OpenFault::Refused(RecoveryFault::NoJournal) => "no journal",
        OpenFault::Refused(RecoveryFault::NoLines) => "no whole line",
        OpenFault::Refused(RecoveryFault::OtherEpoch(_)) => "an account of another epoch",
        OpenFault::Refused(RecoveryFault::NoAccount(_)) => "no legal account",
        OpenFault::Refused(RecoveryFault::TooFew) => "fewer entries than a checkpoint has",
        OpenFault::Refused(RecoveryFault::NoMemory) => "no memory",
    }
}

impl TakesLines for AccountJournal<SystemFile> {
    fn take_line(&mut self, line: &[u8]) -> anyhow::Result<()> {
        if self.store(line).is_err() {
            bail!("a line wasn't stored");
        }
        Ok(())
    }
}
