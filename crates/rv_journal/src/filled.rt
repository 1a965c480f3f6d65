//! A file that is filled with zeros after its text: a piece is written over zeros that are stored, so one
//! sync stores it.
ghost use Rattle.std.specs.Prelude.{◌≡◌, ◌+◌, ◌<◌, ◌≤◌, ◌^◌, ◌++◌, length, OnOk, OnErr};
ghost use Rattle.std.specs.List.{All};
ghost use Rattle.rv_journal.specs.Device.{HasCause, WhereTold};
ghost use Rattle.std.specs.Prelude.{IfOk, IsErrOf, false, replicate, true};
ghost use Rattle.rv_journal.specs.Filled.{AddsPiece, OnlyFills, KeepsFront, TakesPieces, ahead, file_text};
ghost use Rattle.rv_journal.specs.declared.filled.StoreFault.TheVariants as OfStore;
ghost use Rattle.rv_journal.specs.Faults.{store_failed};
ghost use Rattle.rv_journal.specs.System.{does_sync};

use crate::device::{Device, DeviceFault};
use crate::rewriting::rewrite;
use crate::system::SystemFile;
use std::alloc::{AllocError, Global};

// How many zeros are put ahead at once.
pub(crate) const AHEAD: usize = 1 << 20;

// From how many bytes on a file gets no more zeros.
const MOST: usize = 1 << 50;

// So many zeros.
pub(crate) fn zeros(alloc: Global, count: usize) -> Result<Vec<u8>, AllocError>
    ensures items { IfOk result (λ zeros. zeros.items ≡ replicate count 0) }
    ensures blank { IfOk result (λ zeros. zeros.items ≡ replicate (length zeros.items) 0) }
    ensures size { IfOk result (λ zeros. length zeros.items ≡ count) }
{
    Ok(vec![in alloc; 0u8; count]?)
}

// Why a piece was not stored.
#[derive(Clone, Copy)]
pub(crate) enum StoreFault {
    // The file would have more bytes than it may have. It can take a shorter piece.
    Full,
    Device(DeviceFault),
}

impl From<DeviceFault> for StoreFault {
    ghost from_gives = { λ fault store. store ≡ OfStore.Device fault };

    fn from(fault: DeviceFault) -> StoreFault {
        StoreFault::Device(fault)
    }
}

/// A file with a text, and zeros after it.
#[derive(Drop)]
pub(crate) struct FilledFile<D: Device> {
    device: D,
    zeros: Vec<u8>,
    end: usize,
    filled: usize,
}

impl<D: Device> FilledFile<D> {
    // A file with these zeros to put ahead, whose text ends here.
    pub(crate) fn new(device: D, zeros: Vec<u8>, end: usize, filled: usize) -> FilledFile<D>
        ensures device { result.device ≡ device }
        ensures zeros { result.zeros.items ≡ zeros.items }
        ensures end { result.end ≡ end }
        ensures filled { result.filled ≡ filled }
    {
        FilledFile {
            device,
            zeros,
            end,
            filled,
        }
    }

    // Its device, to be looked at.
    pub(crate) fn device(&self) -> &D
        ensures { result.now ≡ self.now.device }
    {
        &self.device
    }

    // Where its text ends.
    pub(crate) fn end(&self) -> usize
        ensures { result ≡ self.now.end }
    {
        self.end
    }

    // Its device.
    pub(crate) fn into_device(self) -> D
        ensures { result ≡ self.device }
    {
        let FilledFile {
            device,
            zeros: _,
            end: _,
            filled: _,
        } = self;
        device
    }

    // Adds a piece for which there is room. Once it has returned, each crash leaves a file that has it.
    fn write_piece(&mut self, piece: &[u8]) -> Result<(), DeviceFault>
        requires ready { TakesPieces D.disk self.old }
        requires text { All (λ byte. 0 < byte) piece.now }
        requires room { self.old.end + length piece.now < self.old.filled }
        ensures ready { OnOk result (TakesPieces D.disk self.new) }
        ensures stored { OnOk result (WhereTold D.disk self.old.device
            (file_text D.disk self.new ≡ file_text D.disk self.old ++ piece.now)) }
        ensures end { OnErr result (self.new.end ≡ self.old.end) }
        ensures front { KeepsFront D.disk self.old self.new }
        ensures adds { AddsPiece D.disk piece.now self.old self.new }
        ensures cause { HasCause D.disk self.old.device self.new.device result }
    {
        rewrite(&mut self.device, self.end, piece)?;
        self.end += piece.len();
        Ok(())
    }

    // Puts more zeros at the file's end, and stores them.
    fn fill(&mut self) -> Result<(), DeviceFault>
        requires ready { TakesPieces D.disk self.old }
        requires fits { self.old.filled + ahead < 2 ^ 63 }
        ensures ready { OnOk result (TakesPieces D.disk self.new) }
        ensures filled { OnOk result (self.new.filled ≡ self.old.filled + ahead) }
        ensures text { OnlyFills D.disk self.old self.new }
        ensures cause { HasCause D.disk self.old.device self.new.device result }
    {
        rewrite(&mut self.device, self.filled, &self.zeros)?;
        self.filled += self.zeros.len();
        Ok(())
    }

    // Makes room for a piece of this length, and for a zero after it.
    fn make_room(&mut self, length: usize) -> Result<(), StoreFault>
        requires ready { TakesPieces D.disk self.old }
        ensures ready { OnOk result (TakesPieces D.disk self.new) }
        ensures room { OnOk result (self.new.end + length < self.new.filled) }
        ensures text { OnlyFills D.disk self.old self.new }
        ensures full { IsErrOf result OfStore.Full → 2 ^ 50 ≤ self.old.end + length }
        ensures goes_on { IsErrOf result OfStore.Full → TakesPieces D.disk self.new }
        ensures cause { IsErrOf result store_failed → D.disk.failed self.new.device ≡ true }
    {
        while self.filled - self.end <= length {
            if self.filled >= MOST {
                return Err(StoreFault::Full);
            }
            self.fill()?;
        }
        Ok(())
    }

    // Adds a piece, with more zeros ahead where it needs them. Once it has returned, each crash leaves a file
    // that has it.
    pub(crate) fn store(&mut self, piece: &[u8]) -> Result<(), StoreFault>
        requires ready { TakesPieces D.disk self.old }
        requires text { All (λ byte. 0 < byte) piece.now }
        ensures ready { OnOk result (TakesPieces D.disk self.new) }
        ensures stored { OnOk result (WhereTold D.disk self.old.device
            (file_text D.disk self.new ≡ file_text D.disk self.old ++ piece.now)) }
        ensures end { OnErr result (self.new.end ≡ self.old.end) }
        ensures front { KeepsFront D.disk self.old self.new }
        ensures adds { AddsPiece D.disk piece.now self.old self.new }
        ensures full { IsErrOf result OfStore.Full → 2 ^ 50 ≤ self.old.end + length piece.now }
        ensures goes_on { IsErrOf result OfStore.Full → TakesPieces D.disk self.new }
        ensures cause { IsErrOf result store_failed → D.disk.failed self.new.device ≡ true }
    {
        self.make_room(piece.len())?;
        self.write_piece(piece)?;
        Ok(())
    }
}

impl FilledFile<SystemFile> {
    // Its pieces are with the system, and not stored.
    pub(crate) fn stop_syncing(&mut self)
        ensures stopped { does_sync self.new.device ≡ false }
        ensures fault { self.new.device.fault ≡ self.old.device.fault }
        ensures zeros { self.new.zeros ≡ self.old.zeros }
        ensures end { self.new.end ≡ self.old.end }
        ensures filled { self.new.filled ≡ self.old.filled }
    {
        self.device.stop_syncing();
    }
}
