//! Makes a filled file of a device whose bytes need not be kept.
ghost use Rattle.std.specs.Prelude.{◌≡◌, ◌<◌, ◌≤◌, ◌^◌, ◌↔◌, [], length, replicate, IfErr, IfOk, IsTrue};
ghost use Rattle.std.specs.Prelude.{OnOk, true, false};
ghost use Rattle.std.specs.List.{All};
ghost use Rattle.rv_journal.specs.Created.{IsLeftLong, IsZeroed, MayBegin, MayZero};
ghost use Rattle.rv_journal.specs.Device.{HasCause, KeepsFile, LeavesOnly, WhereTold};
ghost use Rattle.rv_journal.specs.Faults.{create_failed};
ghost use Rattle.rv_journal.specs.Filled.{TakesPieces, ahead, file_text};
ghost use Rattle.rv_journal.specs.Text.{HasFront};
ghost use Rattle.rv_journal.specs.declared.fault.CreateFault.TheVariants.{NotText, TooLong, Full};

use crate::device::{Device, DeviceFault};
use crate::fault::CreateFault;
use crate::filled::{AHEAD, FilledFile, StoreFault, zeros};
use crate::rewriting::rewrite;
use std::alloc::Global;

// Whether the file has a byte at this offset.
fn is_longer<D: Device>(device: &mut D, size: usize) -> Result<bool, DeviceFault>
    ensures longer { IfOk result (λ longer. WhereTold D.disk device.old
        (IsTrue longer ↔ (size < length (D.disk.seen device.old)))) }
    ensures kept { KeepsFile D.disk device.old device.new }
    ensures cause { HasCause D.disk device.old device.new result }
{
    let mut room = [0u8; 1];
    let count = device.read_at(size, &mut room)?;
    Ok(count > 0)
}

// Puts zeros over all that the file has, and stores them. It says whether it did: if the file is longer,
// nothing is done.
fn put_zeros<D: Device>(device: &mut D, zeros: &[u8]) -> Result<bool, DeviceFault>
    requires { zeros.now ≡ replicate (length zeros.now) 0 }
    ensures tells { D.disk.tells device.new ≡ D.disk.tells device.old }
    ensures zeroed { IfOk result (λ done. done ≡ true →
        WhereTold D.disk device.old (IsZeroed D.disk (length zeros.now) device.new)) }
    ensures short { IfOk result (λ done. done ≡ true →
        WhereTold D.disk device.old (length (D.disk.seen device.old) ≤ length zeros.now)) }
    ensures long { IfOk result (λ done. done ≡ false →
        IsLeftLong D.disk (length zeros.now) device.old device.new) }
    ensures any_moment { WhereTold D.disk device.old
        (LeavesOnly D.disk device.old device.new (MayZero D.disk (length zeros.now) device.old)) }
    ensures cause { HasCause D.disk device.old device.new result }
{
    if is_longer(device, zeros.len())? {
        return Ok(false);
    }
    rewrite(device, 0, zeros)?;
    Ok(true)
}

// Stores the first text of a file that has none.
fn store_first<D: Device>(
    file: FilledFile<D>,
    text: &[u8],
) -> Result<FilledFile<D>, (CreateFault, D)>
    requires ready { TakesPieces D.disk file }
    requires empty { file.end ≡ 0 }
    requires text { All (λ byte. 0 < byte) text.now }
    ensures ready { IfOk result (λ stored. TakesPieces D.disk stored) }
    ensures stored { IfOk result (λ stored. WhereTold D.disk file.device
        (file_text D.disk stored ≡ text.now)) }
    ensures tells { IfOk result (λ stored. D.disk.tells stored.device ≡ D.disk.tells file.device) }
    ensures tells_err { IfErr result (λ failed. D.disk.tells failed.1 ≡ D.disk.tells file.device) }
    ensures any_moment { IfOk result (λ stored. WhereTold D.disk file.device
        (LeavesOnly D.disk file.device stored.device (HasFront [] text.now))) }
    ensures any_moment_err { IfErr result (λ failed. WhereTold D.disk file.device
        (LeavesOnly D.disk file.device failed.1 (HasFront [] text.now))) }
    ensures text_err { IfErr result (λ failed. failed.0 ≡ NotText → ⊥) }
    ensures long { IfErr result (λ failed. failed.0 ≡ TooLong → ⊥) }
    ensures full { IfErr result (λ failed. failed.0 ≡ Full → 2 ^ 50 ≤ length text.now) }
    ensures cause { IfErr result (λ failed. failed.0 ≡ create_failed → D.disk.failed failed.1 ≡ true) }
{
    let mut file = file;
    match file.store(text) {
        Ok(()) => Ok(file),
        Err(StoreFault::Full) => Err((CreateFault::Full, file.into_device())),
        Err(StoreFault::Device(fault)) => Err((CreateFault::Device(fault), file.into_device())),
    }
}

// A file of this text alone, all of it stored.
pub(crate) fn begin<D: Device>(
    alloc: Global,
    device: D,
    text: &[u8],
) -> Result<FilledFile<D>, (CreateFault, D)>
    requires { All (λ byte. 0 < byte) text.now }
    ensures ready { IfOk result (λ file. TakesPieces D.disk file) }
    ensures text { IfOk result (λ file. WhereTold D.disk device (file_text D.disk file ≡ text.now)) }
    ensures short { OnOk result (WhereTold D.disk device (length (D.disk.seen device) ≤ ahead)) }
    ensures tells { IfOk result (λ file. D.disk.tells file.device ≡ D.disk.tells device) }
    ensures tells_err { IfErr result (λ failed. D.disk.tells failed.1 ≡ D.disk.tells device) }
    ensures any_moment { IfOk result (λ file. WhereTold D.disk device
        (LeavesOnly D.disk device file.device (MayBegin D.disk ahead device text.now))) }
    ensures any_moment_err { IfErr result (λ failed. WhereTold D.disk device
        (LeavesOnly D.disk device failed.1 (MayBegin D.disk ahead device text.now))) }
    ensures text_err { IfErr result (λ failed. failed.0 ≡ NotText → ⊥) }
    ensures long { IfErr result (λ failed. failed.0 ≡ TooLong → IsLeftLong D.disk ahead device failed.1) }
    ensures full { IfErr result (λ failed. failed.0 ≡ Full → 2 ^ 50 ≤ length text.now) }
    ensures cause { IfErr result (λ failed. failed.0 ≡ create_failed → D.disk.failed failed.1 ≡ true) }
{
    let mut device = device;
    let zeros = match zeros(alloc, AHEAD) {
        Ok(zeros) => zeros,
        Err(_) => return Err((CreateFault::Device(DeviceFault::NoMemory), device)),
    };
    match put_zeros(&mut device, &zeros) {
        Ok(true) => store_first(FilledFile::new(device, zeros, 0, AHEAD), text),
        Ok(false) => Err((CreateFault::TooLong, device)),
        Err(fault) => Err((CreateFault::Device(fault), device)),
    }
}
