//! Reads a file in pieces, and hands its lines on.
ghost use Rattle.std.specs.Prelude.{◌≡◌, ◌+◌, ◌<◌, ◌≤◌, ◌^◌, length, take, IfErr, IfOk, OnOk, IsErrOf, true};
ghost use Rattle.rv_journal.specs.Cutter.{HasCut, HasTakenLines, RefusesFront};
ghost use Rattle.rv_journal.specs.Device.{KeepsFile, Only, WhereTold};
ghost use Rattle.rv_journal.specs.Faults.{IfRefused, open_failed};
ghost use Rattle.rv_journal.specs.declared.fault.OpenFault.TheVariants.{NotFilled};
ghost use Rattle.rv_journal.specs.Opened.{file_lines};
ghost use Rattle.rv_journal.specs.Read.{ReadsLines};

use crate::cutter::LineCutter;
use crate::device::Device;
use crate::fault::OpenFault;
use crate::filled::zeros;
use crate::reader::JournalReader;
use std::alloc::Global;

// How many bytes are read at once.
const PIECE: usize = 1 << 16;

// Where the lines of a file end, where the file does, and whether a zero stands in it.
#[derive(Clone, Copy)]
pub(crate) struct FileEnds {
    pub(crate) lines: usize,
    pub(crate) file: usize,
    pub(crate) has_zero: bool,
}

// Reads from this offset on, cuts what was read, and says how much it was: 0 at the file's end.
fn read_piece<D: Device, R: JournalReader>(
    device: &mut D,
    at: usize,
    room: &mut [u8],
    cutter: &mut LineCutter,
    reader: &mut R,
) -> Result<usize, OpenFault<R::Fault>>
    requires cut { HasCut at cutter.old }
    requires below { at < 2 ^ 63 }
    requires room { 0 < length room.old }
    ensures cut { IfOk result (λ count. HasCut (at + count) cutter.new) }
    ensures below { IfOk result (λ count. at + count < 2 ^ 63) }
    ensures inside { IfOk result (λ count. WhereTold D.disk device.old
        (0 < count → at + count ≤ length (D.disk.seen device.old))) }
    ensures end { IfOk result (λ count. count ≡ 0 → WhereTold D.disk device.old
        (length (D.disk.seen device.old) ≤ at)) }
    ensures taken { IfOk result (λ count. WhereTold D.disk device.old ((first : R)
        → HasTakenLines R.takes first (take at (D.disk.seen device.old)) cutter.old reader.old
        → HasTakenLines R.takes first (take (at + count) (D.disk.seen device.old)) cutter.new reader.new)) }
    ensures refused { IfErr result (λ fault. IfRefused fault (λ why. WhereTold D.disk device.old ((first : R)
        → HasTakenLines R.takes first (take at (D.disk.seen device.old)) cutter.old reader.old
        → RefusesFront R.refuses first (file_lines D.disk device.old) why))) }
    ensures kept { KeepsFile D.disk device.old device.new }
    ensures cause { IsErrOf result open_failed → D.disk.failed device.new ≡ true }
    ensures filled { IsErrOf result NotFilled → ⊥ }
{
    let count = device.read_at(at, room)?;
    cutter.take_piece(&room[..count], reader)?;
    Ok(count)
}

// Reads a file whose bytes are stored, and says what of it are lines.
fn read_pieces<D: Device, R: JournalReader>(
    alloc: Global,
    device: &mut D,
    room: &mut [u8],
    reader: &mut R,
) -> Result<FileEnds, OpenFault<R::Fault>>
    requires { 0 < length room.old }
    ensures { ReadsLines D.disk R.takes R.refuses device.old device.new reader.old reader.new result }
{
    let mut cutter = LineCutter::new(alloc);
    let mut at = 0;
    loop {
        let count = read_piece(device, at, room, &mut cutter, reader)?;
        if count == 0 {
            return Ok(FileEnds {
                lines: cutter.end,
                file: at,
                has_zero: cutter.ended,
            });
        }
        at += count;
    }
}

// Hands on the lines of a file, and says what of it they are. What is read is stored, and stays
// as it is.
pub(crate) fn read_lines<D: Device, R: JournalReader>(
    alloc: Global,
    device: &mut D,
    reader: &mut R,
) -> Result<FileEnds, OpenFault<R::Fault>>
    ensures reads { ReadsLines D.disk R.takes R.refuses device.old device.new reader.old reader.new result }
    ensures durable { OnOk result (WhereTold D.disk device.old
        (Only (D.disk.seen device.old) (D.disk.may_leave device.new))) }
{
    device.sync()?;
    let mut room = zeros(alloc, PIECE)?;
    read_pieces(alloc, device, &mut room, reader)
}
