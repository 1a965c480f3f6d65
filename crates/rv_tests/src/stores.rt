//! Tests of a store over a folder in memory: its epochs begin one after the other, and a file that is no
//! account's is told as what it is.
use crate::expect::{holds, same};
use rv_frame::Lasting;
use rv_journal::folders::testing::MemoryFolder;
use rv_journal::folders::{BeginFault, FileName, Folder, present_epoch};
use rv_journal::testing::Memory;
use rv_journal::{Device, OpenFault};
use rv_store::{AccountJournal, PresentFault, RecoveryFault, begin_account, open_present};
use std::alloc::Global;
use std::process::Abort;

// A folder with the file of an epoch's account.
fn folder(rt: &impl Abort, alloc: Global, epoch: u64, bytes: &[u8]) -> MemoryFolder {
    let mut folder = MemoryFolder::new(alloc);
    let bytes = bytes.to_vec(alloc).expect(rt, "no memory");
    folder.add_account(epoch, bytes).expect(rt, "no memory");
    folder
}

// Begins an epoch of a folder, and tells what its journal then has.
fn begins(rt: &impl Abort, alloc: Global, folder: &mut MemoryFolder, epoch: u64, want: &[u8]) {
    match begin_account(alloc, folder, epoch, 5) {
        Ok(mut journal) => {
            same(rt, journal.store(b"6 - tick\n"), Ok(()));
            has_text(rt, journal, want);
        }
        Err(fault) => holds(rt, false, fault),
    }
}

// Tells the text of a journal: what its file has before the first zero.
fn has_text(rt: &impl Abort, journal: AccountJournal<Memory>, want: &[u8]) {
    holds(rt, journal.fault().is_none(), "a fault");
    let file = journal.into_device();
    holds(rt, file.bytes().starts_with(want), "another text");
    holds(rt, file.bytes().get(want.len()) == Some(&0), "more text");
}

#[test]
fn epochs_begin_one_after_the_other(rt: HostRuntime) {
    let alloc = rt.alloc();
    let mut folder = MemoryFolder::new(alloc);
    same(&rt, present_epoch(alloc, &mut folder), Ok(None));
    begins(
        &rt,
        alloc,
        &mut folder,
        7,
        b"journal 1 epoch 7 opened 5\n6 - tick\n",
    );
    same(&rt, present_epoch(alloc, &mut folder), Ok(Some(7)));
    for epoch in [3, 7] {
        match begin_account(alloc, &mut folder, epoch, 5) {
            Ok(_) => holds(&rt, false, epoch),
            Err(fault) => same(&rt, fault, BeginFault::NotGreater(7)),
        }
    }
    begins(
        &rt,
        alloc,
        &mut folder,
        8,
        b"journal 1 epoch 8 opened 5\n6 - tick\n",
    );
    same(&rt, present_epoch(alloc, &mut folder), Ok(Some(8)));
}

#[test]
fn the_present_account_is_opened(rt: HostRuntime) {
    let alloc = rt.alloc();
    match open_present(alloc, &mut MemoryFolder::new(alloc)) {
        Ok(found) => holds(&rt, found.is_none(), "an empty folder"),
        Err(_) => holds(&rt, false, "an empty folder"),
    }
    let mut folder = folder(&rt, alloc, 7, b"journal 1 epoch 7 opened 5\nlost\0");
    match open_present(alloc, &mut folder) {
        Ok(Some(stored)) => {
            same(&rt, stored.machine.epoch(), 7);
            same(&rt, stored.machine.moment(), 5);
            same(&rt, stored.machine.length(), 0);
            has_text(&rt, stored.journal, b"journal 1 epoch 7 opened 5\n");
        }
        Ok(None) => holds(&rt, false, "no account"),
        Err(_) => holds(&rt, false, "a fault"),
    }
}

// Tells why the account of epoch 7 isn't opened that has these bytes.
fn refused(rt: &impl Abort, alloc: Global, bytes: &[u8]) -> Option<RecoveryFault> {
    let mut folder = folder(rt, alloc, 7, bytes);
    match open_present(alloc, &mut folder) {
        Err(PresentFault::Account(7, OpenFault::Refused(why))) => Some(why),
        _ => None,
    }
}

#[test]
fn a_file_that_is_no_account_is_told_as_what_it_is(rt: HostRuntime) {
    let alloc = rt.alloc();
    let why = refused(&rt, alloc, b"journal 2 epoch 7 opened 5\n\0");
    holds(
        &rt,
        matches!(why, Some(RecoveryFault::OtherVersion(2))),
        "another version",
    );
    let why = refused(&rt, alloc, b"epoch 7 opened 5\n\0");
    holds(
        &rt,
        matches!(why, Some(RecoveryFault::NoJournal)),
        "no format",
    );
    let why = refused(&rt, alloc, b"journal 1 epoch 7 opened 5\0");
    holds(
        &rt,
        matches!(why, Some(RecoveryFault::NoLines)),
        "no whole line",
    );
    let why = refused(&rt, alloc, b"journal 1 epoch 8 opened 5\n\0");
    holds(
        &rt,
        matches!(why, Some(RecoveryFault::OtherEpoch(8))),
        "another epoch",
    );
    let why = refused(&rt, alloc, b"journal 1 epoch 7 opened 5\nnone\n\0");
    holds(
        &rt,
        matches!(why, Some(RecoveryFault::NoAccount(_))),
        "no account",
    );
}

#[test]
fn a_folder_in_memory_gives_names(rt: HostRuntime) {
    let mut folder = folder(&rt, rt.alloc(), 7, b"A");
    let file = folder.open_file(FileName::Unready).expect(&rt, "no memory");
    same(&rt, file.number(), 1);
    same(&rt, file.moment(), 0);
    same(
        &rt,
        folder.rename(&file, FileName::Unready, FileName::Account(9)),
        Ok(()),
    );
    same(&rt, folder.sync(), Ok(()));
    let epochs = folder.epochs(rt.alloc()).expect(&rt, "no memory");
    same(&rt, epochs.as_slice(), &[7, 9]);
    let again = folder
        .open_file(FileName::Account(7))
        .expect(&rt, "no memory");
    same(&rt, again.bytes(), b"A");
    same(&rt, again.number(), 0);
}
