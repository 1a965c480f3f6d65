//! Begins an account in a file of its own.
ghost use Rattle.std.specs.Prelude.{◌≡◌, ◌≤◌, false, IfOk};
ghost use Rattle.rv_frame.specs.Sink.{sink_failed};
ghost use Rattle.rv_store.specs.keeping.Kept.{file_of};

use crate::keeping::account_file::AccountFile;
use crate::keeping::fault::{KeepFault, named};
use crate::keeping::place::{AccountPlace, OpenAccount};
use os::errno;
use rv_book::lines::head_line;
use rv_frame::{Sink, WriteFault};
use std::alloc::{AllocError, Global};
use std::fs::File;
use std::io;
use std::io::Write;

// The system's error of a file that is too long.
const EFBIG: i32 = 27;

// Why an account was not begun.
enum HeadFault {
    NotWritten(WriteFault),
    TooLong,
    NoMemory,
}

impl From<AllocError> for HeadFault {
    fn from(_error: AllocError) -> HeadFault {
        HeadFault::NoMemory
    }
}

// An account whose first line was written, and how many bytes that has.
#[derive(Drop)]
struct BegunAccount<W> {
    file: Sink<W>,
    bytes: u64,
}

// Begins the account of an epoch in a file, which may have at most `most` bytes.
fn write_head<W: Write + Drop>(
    alloc: Global,
    file: W,
    epoch: u64,
    most: u64,
) -> Result<BegunAccount<W>, HeadFault>
    ensures works { IfOk result (λ begun. sink_failed begun.file ≡ false) }
    ensures fits { IfOk result (λ begun. begun.bytes ≤ most) }
{
    let mut line = head_line(alloc, epoch, 0)?;
    line.push('\n')?;
    if line.len() as u64 > most {
        return Err(HeadFault::TooLong);
    }
    let mut sink = Sink::new(file);
    match sink.write_all(line.as_bytes()) {
        Ok(()) => Ok(BegunAccount {
            file: sink,
            bytes: line.len() as u64,
        }),
        Err(fault) => Err(HeadFault::NotWritten(fault)),
    }
}

/// The account of an epoch, begun at moment 0 in a new file of this name, or in an empty one that is there,
/// which may have at most `most` bytes. No other server may take it then. If that fails, the file is as it
/// was before.
pub fn begin_file(
    rt: &HostRuntime,
    name: &str,
    epoch: u64,
    most: u64,
) -> Result<AccountFile<File>, KeepFault>
    ensures { IfOk result (λ account. sink_failed (file_of account) ≡ false) }
{
    let own = String::from_str(rt.alloc(), name)?;
    let OpenAccount { file, place } = match AccountPlace::open(rt, own) {
        Ok(open) => open,
        Err(error) => return Err(named(rt.alloc(), name, error)),
    };
    let end = match write_head(rt.alloc(), file, epoch, most) {
        Ok(begun) => return Ok(AccountFile::new(begun.file, begun.bytes, most, place)),
        // the system's error number still says why a write failed
        Err(HeadFault::NotWritten(_)) => named(
            rt.alloc(),
            name,
            io::Error::from_raw_os_error(errno()),
        ),
        Err(HeadFault::TooLong) => named(rt.alloc(), name, io::Error::from_raw_os_error(EFBIG)),
        Err(HeadFault::NoMemory) => KeepFault::NoMemory,
    };
    place.leave(rt);
    Err(end)
}
