//! The record of a command: a file that gets a line for each reply before it is printed.
use crate::record::record_line;
use crate::run::end::ShellEnd;
use crate::run::printing::SettledCall;
use rv_frame::Sink;
use std::alloc::Global;
use std::fs::{File, OpenOptions};

/// A record, or none.
#[derive(Drop)]
pub(crate) struct Record<'a> {
    path: &'a str,
    file: Option<Sink<File>>,
}

impl<'a> Record<'a> {
    /// Opens the file of this path, if there is one, and makes it if it isn't there.
    pub(crate) fn open(rt: &HostRuntime, path: Option<&'a str>) -> Result<Record<'a>, ShellEnd> {
        let Some(path) = path else {
            return Ok(Record {
                path: "",
                file: None,
            });
        };
        match OpenOptions::new().append(true).create(true).open(rt, path) {
            Ok(file) => Ok(Record {
                path,
                file: Some(Sink::new(file)),
            }),
            Err(error) => Err(ShellEnd::Unopened(String::from_str(rt.alloc(), path)?, error)),
        }
    }

    /// Appends the line of a reply, in one write.
    pub(crate) fn append(&mut self, alloc: Global, settled: &SettledCall) -> Result<(), ShellEnd> {
        let path = self.path;
        let Some(file) = &mut self.file else {
            return Ok(());
        };
        let line = record_line(alloc, &settled.key, &settled.call, &settled.reply)?;
        match file.write_all(line.as_bytes()) {
            Ok(()) => Ok(()),
            Err(fault) => Err(ShellEnd::Unrecorded(String::from_str(alloc, path)?, fault)),
        }
    }
}
