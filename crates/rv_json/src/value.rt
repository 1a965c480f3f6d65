//! The JSON value whose text a body's bytes are.
ghost use Rattle.std.specs.Prelude.{◌↔◌, IsTrue, IfOk, IfErr};
ghost use Rattle.serde_json.specs.View.{view};
ghost use Rattle.rv_json.specs.Bodies.{HasBodyLength, Reads, Unread};

use crate::fault::TextFault;
use serde_json::Value;
use std::alloc::Global;

/// The most bytes that a body has; the least is 1.
pub const MAX_BODY_BYTES: usize = 65_535;

/// The JSON value (RFC 8259) of bytes that have a body's length. The length is checked first, without memory:
/// [`TextFault::NotMessage`] comes only if it is outside 1 to 65,535 bytes, [`TextFault::NotJson`] only if
/// the bytes have no reading, and [`TextFault::NoMemory`] only if a growth was refused.
pub fn read_value(alloc: Global, bytes: &[u8]) -> Result<Value, TextFault>
    ensures value { IfOk result (λ value. HasBodyLength bytes.now × Reads bytes.now (view value)) }
    ensures fault { IfErr result (Unread bytes.now) }
{
    if !has_body_length(bytes) {
        return Err(TextFault::NotMessage);
    }
    match Value::from_slice(alloc, bytes) {
        Ok(value) => Ok(value),
        Err(error) if error.is_memory() => Err(TextFault::NoMemory),
        Err(_) => Err(TextFault::NotJson),
    }
}

pub(crate) fn has_body_length(bytes: &[u8]) -> bool
    ensures { IsTrue result ↔ HasBodyLength bytes.now }
{
    (1..=MAX_BODY_BYTES).contains(&bytes.len())
}
