//! Reads the lines of a file that a crash may have left, and clears what stands after them.
ghost use Rattle.std.specs.Prelude.{◌≡◌, ◌<◌, ◌≤◌, length, replicate, IfErr, IfOk, OnOk, IsErrOf, true};
ghost use Rattle.rv_journal.specs.Device.{HasCause, LeavesOnly, WhereTold};
ghost use Rattle.rv_journal.specs.Faults.{IfRefused, open_failed};
ghost use Rattle.rv_journal.specs.Opened.{HasLines, HasLinesOf, IsCleared, IsClearedTo, IsLeftRefused};
ghost use Rattle.rv_journal.specs.Opened.{IsLeftUnfilled, KeepsLines, MakesOf, file_lines};
ghost use Rattle.rv_journal.specs.Text.{HasZero};
ghost use Rattle.rv_journal.specs.declared.fault.OpenFault.TheVariants.{NotFilled};

use crate::device::{Device, DeviceFault};
use crate::fault::OpenFault;
use crate::reader::JournalReader;
use crate::reading::{FileEnds, read_lines};
use crate::rewriting::rewrite;
use std::alloc::Global;

// Puts zeros on from this offset, as many as there are, but none past the file's end, and stores them. It
// says how far they stand now.
fn clear_piece<D: Device>(
    device: &mut D,
    zeros: &[u8],
    end: usize,
    at: usize,
    filled: usize,
) -> Result<usize, DeviceFault>
    requires zeros { zeros.now ≡ replicate (length zeros.now) 0 }
    requires some { 0 < length zeros.now }
    requires after { end ≤ at }
    requires before { at < filled }
    requires cleared { WhereTold D.disk device.old (IsClearedTo D.disk end at filled device.old) }
    ensures kept { KeepsLines D.disk device.old device.new }
    ensures cleared { IfOk result (λ next. WhereTold D.disk device.old
        (IsClearedTo D.disk end next filled device.new)) }
    ensures further { IfOk result (λ next. at < next) }
    ensures within { IfOk result (λ next. next ≤ filled) }
    ensures cause { HasCause D.disk device.old device.new result }
{
    let count = zeros.len().min(filled - at);
    rewrite(device, at, &zeros[..count])?;
    Ok(at + count)
}

// Puts zeros after the lines as far as the file goes, and stores them.
fn clear_after<D: Device>(
    device: &mut D,
    zeros: &[u8],
    end: usize,
    filled: usize,
) -> Result<(), DeviceFault>
    requires zeros { zeros.now ≡ replicate (length zeros.now) 0 }
    requires some { 0 < length zeros.now }
    requires before { end < filled }
    requires cleared { WhereTold D.disk device.old (IsClearedTo D.disk end end filled device.old) }
    ensures kept { KeepsLines D.disk device.old device.new }
    ensures cleared { OnOk result (WhereTold D.disk device.old
        (IsCleared D.disk (file_lines D.disk device.old) filled device.new)) }
    ensures cause { HasCause D.disk device.old device.new result }
{
    let mut at = end;
    while at < filled {
        at = clear_piece(device, zeros, end, at, filled)?;
    }
    Ok(())
}

// Hands on the lines of a file, and clears it after them once a reader has made something of them.
pub(crate) fn reopen<D: Device, R: JournalReader>(
    alloc: Global,
    device: &mut D,
    zeros: &[u8],
    reader: R,
) -> Result<(FileEnds, R::Made), OpenFault<R::Fault>>
    requires zeros { zeros.now ≡ replicate (length zeros.now) 0 }
    requires some { 0 < length zeros.now }
    ensures tells { D.disk.tells device.new ≡ D.disk.tells device.old }
    ensures made { IfOk result (λ opened. WhereTold D.disk device.old
        (MakesOf R.takes R.makes reader (file_lines D.disk device.old) opened.1)) }
    ensures maker { IfOk result (λ opened. (last : R) × R.makes last opened.1) }
    ensures end { IfOk result (λ opened. WhereTold D.disk device.old
        (opened.0.lines ≡ length (file_lines D.disk device.old))) }
    ensures room { IfOk result (λ opened. opened.0.lines < opened.0.file) }
    ensures cleared { IfOk result (λ opened. WhereTold D.disk device.old
        (IsCleared D.disk (file_lines D.disk device.old) opened.0.file device.new)) }
    ensures lines { WhereTold D.disk device.old
        (HasLines (file_lines D.disk device.old) (D.disk.seen device.new)) }
    ensures any_moment { WhereTold D.disk device.old
        (LeavesOnly D.disk device.old device.new (HasLinesOf D.disk device.old)) }
    ensures filled { OnOk result (WhereTold D.disk device.old (HasZero (D.disk.seen device.old))) }
    ensures not_filled { IsErrOf result NotFilled → IsLeftUnfilled D.disk device.old device.new }
    ensures refused { IfErr result (λ fault. IfRefused fault (λ why.
        IsLeftRefused D.disk R.takes R.refuses R.lacks device.old device.new reader why)) }
    ensures cause { IsErrOf result open_failed → D.disk.failed device.new ≡ true }
{
    let mut reader = reader;
    let ends = read_lines(alloc, device, &mut reader)?;
    if !ends.has_zero {
        return Err(OpenFault::NotFilled);
    }
    let made = match reader.finish() {
        Ok(made) => made,
        Err(why) => return Err(OpenFault::Refused(why)),
    };
    clear_after(device, zeros, ends.lines, ends.file)?;
    Ok((ends, made))
}
