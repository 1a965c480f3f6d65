//! A plain loop for measurements: it reads the JSON of each line of standard input, and writes it back.
use anyhow::Context;
use serde_json::Value;
use std::io::{self, BufWriter, Write};
use std::process::ExitCode;

/// Writes back the JSON that follows the first space of each line.
pub(crate) fn rewrite_lines(rt: &HostRuntime) -> anyhow::Result<ExitCode> {
    let alloc = rt.alloc();
    let input = io::read_to_string(alloc, rt.stdin())?;
    let mut output = BufWriter::new(alloc, rt.stdout())?;
    for line in input.as_str().lines() {
        let (_, body) = line.split_once(' ').context("a line has no space")?;
        let value = Value::from_slice(alloc, body.as_bytes())?;
        output.write_all(value.to_string(alloc)?.as_bytes())?;
        output.write_all(b"\n")?;
    }
    output.flush()?;
    Ok(ExitCode::SUCCESS)
}
