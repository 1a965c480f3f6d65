//! What bodies are read as: each as a message, as an answer and as a call.
use crate::hexes::read_hex;
use anyhow::Context;
use rv_text::{
    Key, Message, NoMemory, TextFault, decode_answer, decode_call, decode_message, encode_answer,
    encode_message,
};
use std::alloc::Global;
use std::io::{self, BufWriter, Write};
use std::process::ExitCode;

// The key of the request by which a call is written.
const KEY: Key = Key {
    epoch: 1,
    client: 1,
    incarnation: 1,
    number: 1,
};

/// Prints what the body of each line, in hexadecimal digits, is read as.
pub(crate) fn read_bodies(rt: &HostRuntime) -> anyhow::Result<ExitCode> {
    let alloc = rt.alloc();
    let input = io::read_to_string(alloc, rt.stdin())?;
    let mut output = BufWriter::new(alloc, rt.stdout())?;
    for line in input.as_str().lines() {
        let body = read_hex(alloc, line.as_bytes())?.context("a line is no body")?;
        output.write_all(readings_of(alloc, &body)?.as_bytes())?;
    }
    output.flush()?;
    Ok(ExitCode::SUCCESS)
}

// The line that says what bytes are read as.
fn readings_of(alloc: Global, body: &[u8]) -> Result<String, NoMemory> {
    let message = message_of(alloc, body)?;
    let answer = answer_of(alloc, body)?;
    let call = call_of(alloc, body)?;
    format!(in alloc; "{message}\t{answer}\t{call}\n")
}

// The message whose body the bytes are, written again, or the fault.
fn message_of(alloc: Global, body: &[u8]) -> Result<String, NoMemory> {
    match decode_message(alloc, body) {
        Ok(message) => encode_message(alloc, &message),
        Err(fault) => fault_text(alloc, fault),
    }
}

// The answer whose body the bytes are, written again, or the fault.
fn answer_of(alloc: Global, body: &[u8]) -> Result<String, NoMemory> {
    match decode_answer(alloc, body) {
        Ok(answer) => encode_answer(alloc, &answer),
        Err(fault) => fault_text(alloc, fault),
    }
}

// The request of the call whose text the bytes are, under one key, or the fault.
fn call_of(alloc: Global, body: &[u8]) -> Result<String, NoMemory> {
    match decode_call(alloc, body) {
        Ok(call) => encode_message(alloc, &Message::Request { key: KEY, call }),
        Err(fault) => fault_text(alloc, fault),
    }
}

// The number of a fault.
fn fault_text(alloc: Global, fault: TextFault) -> Result<String, NoMemory> {
    let number = match fault {
        TextFault::NotJson => 1u8,
        TextFault::NotMessage => 2,
        TextFault::NoMemory => 3,
    };
    format!(in alloc; "{number}")
}
