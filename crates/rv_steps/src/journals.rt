//! A journal on a file of the system, to which lines are added until the program is killed.
use anyhow::bail;
use rv_journal::{DiskJournal, SystemFile};
use std::alloc::Global;
use std::fs::{self, File, OpenOptions};
use std::io::{self, BufRead, BufReader, ErrorKind, Write};
use std::process::ExitCode;

/// Opens the journal of a file, or makes one where there is no file, and prints its lines and an empty one.
/// Then each line of standard input is added, and printed once it is stored.
pub(crate) fn add_lines(rt: &HostRuntime, path: &str) -> anyhow::Result<ExitCode> {
    let (mut journal, lines) = open_or_make(rt, path)?;
    let mut output = rt.stdout();
    output.write_all(&lines)?;
    output.write_all(b"\n")?;
    output.flush()?;
    add_each(rt, &mut journal, &mut output)
}

/// What takes lines, each of which is stored once it was taken.
pub(crate) trait TakesLines {
    /// Takes a line.
    fn take_line(&mut self, line: &[u8]) -> anyhow::Result<()>;
}

impl TakesLines for DiskJournal<SystemFile> {
    fn take_line(&mut self, line: &[u8]) -> anyhow::Result<()> {
        self.write_all(line)?;
        Ok(())
    }
}

/// Adds each line of standard input, and prints it.
pub(crate) fn add_each<J: TakesLines, W: Write>(
    rt: &HostRuntime,
    journal: &mut J,
    output: &mut W,
) -> anyhow::Result<ExitCode> {
    let mut input = BufReader::new(rt.alloc(), rt.stdin())?;
    let mut line = Vec::new(rt.alloc());
    for _line in 0..u64::MAX {
        if input.read_until(b'\n', &mut line)? == 0 {
            break;
        }
        journal.take_line(&line)?;
        output.write_all(&line)?;
        output.flush()?;
        line.clear();
    }
    Ok(ExitCode::SUCCESS)
}

// Opens the journal of a file, with its lines; or makes one where there is no file.
fn open_or_make(
    rt: &HostRuntime,
    path: &str,
) -> anyhow::Result<(DiskJournal<SystemFile>, Vec<u8>)> {
    match OpenOptions::new().read(true).write(true).open(rt, path) {
        Ok(file) => open(rt.alloc(), file),
        Err(error) if error.kind() == ErrorKind::NotFound => make(rt, path),
        Err(error) => Err(error.into()),
    }
}

fn open(alloc: Global, file: File) -> anyhow::Result<(DiskJournal<SystemFile>, Vec<u8>)> {
    match DiskJournal::open(alloc, SystemFile::new(file, u64::MAX), Vec::new(alloc)) {
        Ok(opened) => Ok(opened),
        Err((fault, _file)) => bail!("{fault}"),
    }
}

// Makes a journal without a line under another name, and renames it.
fn make(rt: &HostRuntime, path: &str) -> anyhow::Result<(DiskJournal<SystemFile>, Vec<u8>)> {
    let name = format!(in rt.alloc(); "{path}.new")?;
    let file = OpenOptions::new()
        .read(true)
        .write(true)
        .create(true)
        .open(rt, name.as_str())?;
    match DiskJournal::create(rt.alloc(), SystemFile::new(file, u64::MAX), b"") {
        Ok(journal) => {
            fs::rename(rt, name.as_str(), path)?;
            Ok((journal, Vec::new(rt.alloc())))
        }
        Err((fault, _file)) => bail!("{fault}"),
    }
}
