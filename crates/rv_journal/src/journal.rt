//! The journal: its text is stored, and a crash at any moment leaves it, with a front of the piece that was
//! being added.
ghost use Rattle.std.specs.Prelude.{◌≡◌, ◌+◌, ◌≤◌, ◌<◌, ◌^◌, true, false, length};
ghost use Rattle.std.specs.Prelude.{IfErr, IfOk, IsErrOf, IsTrue, OnErr, OnOk};
ghost use Rattle.std.specs.Prelude.{◌↔◌};
ghost use Rattle.std.specs.List.{All};
ghost use Rattle.rv_journal.specs.Created.{IsLeftLong, MayBegin};
ghost use Rattle.rv_journal.specs.Device.{LeavesOnly, WhereTold};
ghost use Rattle.rv_journal.specs.Filled.{ahead};
ghost use Rattle.rv_journal.specs.Text.{HasFront, HasZero};
ghost use Rattle.rv_journal.specs.Opened.{HasLines, HasLinesOf, IsLeftRefused, IsLeftUnfilled};
ghost use Rattle.rv_journal.specs.Opened.{MakesOf, file_lines};
ghost use Rattle.rv_journal.specs.Journal.{IsDurable, IsLive, KeepsText, Stores};
ghost use Rattle.rv_journal.specs.Journal.{journal_text, journal_state};
ghost use Rattle.rv_journal.specs.System.{does_sync};
ghost use Rattle.rv_journal.specs.Faults.{IfRefused, append_failed, create_failed, ends_journal, open_failed};
ghost use Rattle.rv_journal.specs.declared.fault.CreateFault.TheVariants as OfCreate;
ghost use Rattle.rv_journal.specs.declared.fault.OpenFault.TheVariants.{NotFilled};
ghost use Rattle.rv_journal.specs.declared.fault.JournalFault.TheVariants.{NotText, Full, Failed};

use crate::creating::begin;
use crate::device::{Device, DeviceFault};
use crate::fault::{CreateFault, JournalFault, OpenFault};
use crate::filled::{AHEAD, FilledFile, StoreFault, zeros};
use crate::opening::reopen;
use crate::reader::JournalReader;
use crate::system::SystemFile;
use std::alloc::Global;
use std::marker::Model;

/// A journal over a device.
///
/// Contracts see its device, where its text ends there, and whether it has failed. A piece that was added is
/// stored: each crash leaves a file that has it. Adding one costs a write and a sync of the device, and for
/// each MiB one more of each, which put zeros ahead.
#[derive(Drop)]
pub struct DiskJournal<D: Device> {
    parts: Parts<D>,
}

// A journal's file, and whether its device failed.
#[derive(Drop)]
struct Parts<D: Device> {
    file: FilledFile<D>,
    failed: bool,
}

impl<D: Device> Model for DiskJournal<D> {
    ghost use Rattle.rv_journal.specs.Journal.{IsLive, JournalState, journal_state};

    ghost Value = { JournalState D };

    ghost view = { λ j. journal_state j.parts };

    ghost invariant = { λ j. IsLive D.disk j.parts };
}

impl<D: Device> DiskJournal<D> {
    /// The journal of a file that a crash may have left, and what a reader makes of its lines. It takes them
    /// some at a time: those before the first zero, up to the last line feed. Once it has made something of
    /// all of them, what stands after them is cleared. It may crash too.
    ///
    /// The file is read once, in memory for about 1 MiB and its longest line. At `Err` the device is handed
    /// back with the same lines; [`OpenFault`] says what changed in the file.
    pub fn open<R: JournalReader>(
        alloc: Global,
        device: D,
        reader: R,
    ) -> Result<(DiskJournal<D>, R::Made), (OpenFault<R::Fault>, D)>
        ensures lines { IfOk result (λ opened. WhereTold D.disk device
            (MakesOf R.takes R.makes reader (file_lines D.disk device) opened.1)) }
        ensures maker { IfOk result (λ opened. (last : R) × R.makes last opened.1) }
        ensures filled { OnOk result (WhereTold D.disk device (HasZero (D.disk.seen device))) }
        ensures text { IfOk result (λ opened. WhereTold D.disk device
            (journal_text D.disk opened.0 ≡ file_lines D.disk device)) }
        ensures lines_err { IfErr result (λ failed. WhereTold D.disk device
            (HasLines (file_lines D.disk device) (D.disk.seen failed.1))) }
        ensures tells { IfOk result (λ opened. D.disk.tells opened.0.device ≡ D.disk.tells device) }
        ensures tells_err { IfErr result (λ failed. D.disk.tells failed.1 ≡ D.disk.tells device) }
        ensures works { IfOk result (λ opened. opened.0.failed ≡ false) }
        ensures durable { IfOk result (λ opened. WhereTold D.disk device (IsDurable D.disk opened.0)) }
        ensures any_moment { IfOk result (λ opened. WhereTold D.disk device
            (LeavesOnly D.disk device opened.0.device (HasLinesOf D.disk device))) }
        ensures any_moment_err { IfErr result (λ failed. WhereTold D.disk device
            (LeavesOnly D.disk device failed.1 (HasLinesOf D.disk device))) }
        ensures not_filled { IfErr result (λ failed. failed.0 ≡ NotFilled →
            IsLeftUnfilled D.disk device failed.1) }
        ensures refused { IfErr result (λ failed. IfRefused failed.0 (λ why.
            IsLeftRefused D.disk R.takes R.refuses R.lacks device failed.1 reader why)) }
        ensures cause { IfErr result (λ failed. failed.0 ≡ open_failed →
            D.disk.failed failed.1 ≡ true) }
    {
        let mut device = device;
        let zeros = match zeros(alloc, AHEAD) {
            Ok(zeros) => zeros,
            Err(_) => return Err((OpenFault::Device(DeviceFault::NoMemory), device)),
        };
        match reopen(alloc, &mut device, &zeros, reader) {
            Ok((ends, made)) => {
                let file = FilledFile::new(device, zeros, ends.lines, ends.file);
                let failed = false;
                let parts = Parts { file, failed };
                Ok((DiskJournal { parts }, made))
            }
            Err(fault) => Err((fault, device)),
        }
    }

    /// A new journal whose text is this piece: bytes without zero. What the device had is lost. Once it has
    /// returned, the piece is stored.
    ///
    /// At `Err` the device is handed back; [`CreateFault`] says what stands in it. A crash leaves each byte
    /// as it was or zero, and any past its end, or a file of a front of the piece. So it is made under a name
    /// that no one opens, and renamed.
    pub fn create(
        alloc: Global,
        device: D,
        first: &[u8],
    ) -> Result<DiskJournal<D>, (CreateFault, D)>
        ensures text { IfOk result (λ made. WhereTold D.disk device
            (journal_text D.disk made ≡ first.now)) }
        ensures tells { IfOk result (λ made. D.disk.tells made.device ≡ D.disk.tells device) }
        ensures tells_err { IfErr result (λ failed. D.disk.tells failed.1 ≡ D.disk.tells device) }
        ensures short { OnOk result (WhereTold D.disk device (length (D.disk.seen device) ≤ ahead)) }
        ensures works { IfOk result (λ made. made.failed ≡ false) }
        ensures durable { IfOk result (λ made. WhereTold D.disk device (IsDurable D.disk made)) }
        ensures any_moment { IfOk result (λ made. WhereTold D.disk device
            (LeavesOnly D.disk device made.device (MayBegin D.disk ahead device first.now))) }
        ensures any_moment_err { IfErr result (λ failed. WhereTold D.disk device
            (LeavesOnly D.disk device failed.1 (MayBegin D.disk ahead device first.now))) }
        ensures not_text { IfErr result (λ failed. failed.0 ≡ OfCreate.NotText →
            All (λ byte. 0 < byte) first.now → ⊥) }
        ensures same { IfErr result (λ failed. failed.0 ≡ OfCreate.NotText → failed.1 ≡ device) }
        ensures long { IfErr result (λ failed. failed.0 ≡ OfCreate.TooLong →
            IsLeftLong D.disk ahead device failed.1) }
        ensures full { IfErr result (λ failed. failed.0 ≡ OfCreate.Full → 2 ^ 50 ≤ length first.now) }
        ensures cause { IfErr result (λ failed. failed.0 ≡ create_failed →
            D.disk.failed failed.1 ≡ true) }
    {
        if !is_text(first) {
            return Err((CreateFault::NotText, device));
        }
        match begin(alloc, device, first) {
            Ok(file) => {
                let failed = false;
                let parts = Parts { file, failed };
                Ok(DiskJournal { parts })
            }
            Err(failed) => Err(failed),
        }
    }

    /// Adds a piece: bytes without zero. Once it has returned, the piece is stored. One of no bytes asks
    /// nothing of the device.
    ///
    /// [`JournalFault`] says why it is refused, and whether the journal goes on; its text is as it was. A
    /// crash at any moment of the call leaves the text and a front of the piece.
    pub fn append(&mut self, piece: &[u8]) -> Result<(), JournalFault>
        ensures tells { D.disk.tells self.new.device ≡ D.disk.tells self.old.device }
        ensures stored { OnOk result (Stores D.disk piece.now self.old self.new) }
        ensures kept { OnErr result (KeepsText D.disk self.old self.new) }
        ensures any_moment { self.old.failed ≡ false → WhereTold D.disk self.old.device
            (LeavesOnly D.disk self.old.device self.new.device
            (HasFront (journal_text D.disk self.old) piece.now)) }
        ensures full { IsErrOf result Full → 2 ^ 50 ≤ self.old.end + length piece.now }
        ensures refused { IsErrOf result Failed ↔ self.old.failed ≡ true }
        ensures ends { IfErr result (λ fault. self.new.failed ≡ ends_journal fault) }
        ensures same { self.old.failed ≡ true → self.new ≡ self.old }
        ensures not_text { IsErrOf result NotText → All (λ byte. 0 < byte) piece.now → ⊥ }
        ensures cause { IsErrOf result append_failed → D.disk.failed self.new.device ≡ true }
    {
        self.parts.add(piece)
    }

    /// How many bytes its text has.
    pub fn length(&self) -> usize
        ensures { result ≡ self.now.end }
    {
        self.parts.file.end()
    }

    /// Its device, to be looked at.
    pub fn device(&self) -> &D
        ensures { result.now ≡ self.now.device }
    {
        self.parts.file.device()
    }

    /// Its device, as the last call left it.
    pub fn into_device(self) -> D
        ensures { result ≡ self.device }
    {
        self.parts.file.into_device()
    }
}

impl DiskJournal<SystemFile> {
    /// A piece that is added from now on is with the system, and not stored: it outlives the process, and a
    /// machine that dies may lose it, or bytes of it.
    pub fn stop_syncing(&mut self)
        ensures stopped { does_sync self.new.device ≡ false }
        ensures fault { self.new.device.fault ≡ self.old.device.fault }
        ensures end { self.new.end ≡ self.old.end }
        ensures failed { self.new.failed ≡ self.old.failed }
    {
        self.parts.file.stop_syncing();
    }
}

// Whether these bytes can be added: none of them is zero.
fn is_text(bytes: &[u8]) -> bool
    ensures { IsTrue result ↔ All (λ byte. 0 < byte) bytes.now }
{
    bytes.iter().all(|byte| *byte > 0)
}

impl<D: Device> Parts<D> {
    // Adds a piece. After a fault of the device the journal has failed.
    fn add(&mut self, piece: &[u8]) -> Result<(), JournalFault>
        requires { IsLive D.disk self.old }
        ensures live { IsLive D.disk self.new }
        ensures tells { D.disk.tells self.new.file.device ≡ D.disk.tells self.old.file.device }
        ensures stored { OnOk result (Stores D.disk piece.now (journal_state self.old)
            (journal_state self.new)) }
        ensures kept { OnErr result (KeepsText D.disk (journal_state self.old) (journal_state self.new)) }
        ensures any_moment { self.old.failed ≡ false → WhereTold D.disk self.old.file.device
            (LeavesOnly D.disk self.old.file.device self.new.file.device
            (HasFront (journal_text D.disk (journal_state self.old)) piece.now)) }
        ensures full { IsErrOf result Full → 2 ^ 50 ≤ self.old.file.end + length piece.now }
        ensures refused { IsErrOf result Failed ↔ self.old.failed ≡ true }
        ensures ends { IfErr result (λ fault. self.new.failed ≡ ends_journal fault) }
        ensures same { self.old.failed ≡ true → journal_state self.new ≡ journal_state self.old }
        ensures not_text { IsErrOf result NotText → All (λ byte. 0 < byte) piece.now → ⊥ }
        ensures cause { IsErrOf result append_failed → D.disk.failed self.new.file.device ≡ true }
    {
        if self.failed {
            return Err(JournalFault::Failed);
        }
        if !is_text(piece) {
            return Err(JournalFault::NotText);
        }
        if piece.is_empty() {
            return Ok(());
        }
        match self.file.store(piece) {
            Ok(()) => Ok(()),
            Err(StoreFault::Full) => Err(JournalFault::Full),
            Err(StoreFault::Device(fault)) => {
                self.failed = true;
                Err(JournalFault::Device(fault))
            }
        }
    }
}
