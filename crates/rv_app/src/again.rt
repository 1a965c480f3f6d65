//! The bytes of an account that may be read once more.
ghost use Rattle.std.specs.Prelude.{◌≡◌, ℕ, IfOk, List, Option};

use std::fs::File;
use std::io;
use std::io::Read;

/// Bytes that may be read once more.
pub(crate) trait Again {
    /// What reads them.
    type Input: Read + Drop;

    ghost bytes: { Self → Option (List ℕ) };

    /// Opens them once more.
    fn open(&self, rt: &HostRuntime) -> io::Result<Self::Input>
        ensures { IfOk result (λ input. Self.Input.remaining input ≡ bytes self.now) };

    /// How many there are, or 0 if that isn't known.
    fn size(&self, input: &Self::Input) -> u64;
}

/// The path of a regular file. Another kind of file may not give its bytes twice, and a named pipe waits for
/// a writer.
#[derive(Clone, Copy, Drop)]
pub(crate) struct RegularFile<'a> {
    path: &'a str,
}

impl<'a> RegularFile<'a> {
    /// The path, if the file there is known to be a regular one.
    pub(crate) fn at(path: &'a str, file: &File) -> Option<RegularFile<'a>> {
        match file.metadata() {
            Ok(about) if about.is_file() => Some(RegularFile { path }),
            _ => None,
        }
    }
}

impl Again for RegularFile<'_> {
    ghost use Rattle.std.specs.Prelude.{None};

    type Input = File;

    ghost bytes = { λ _. None };

    fn open(&self, rt: &HostRuntime) -> io::Result<File> {
        File::open(rt, self.path)
    }

    fn size(&self, input: &File) -> u64 {
        size_of(input)
    }
}

/// Whether a file that was opened is a folder.
pub(crate) fn is_folder(file: &File) -> bool {
    file.metadata().is_ok_and(|about| about.is_dir())
}

/// How many bytes a file has, or 0 if that isn't known.
pub(crate) fn size_of(file: &File) -> u64 {
    file.metadata().map_or(0, |about| about.len())
}
