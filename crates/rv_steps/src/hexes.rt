//! Bytes as hexadecimal digits, a lone `-` for none; or as their count and sum.
ghost use Rattle.std.specs.Prelude.{◌<◌, IfSome};

use rv_text::NoMemory;
use std::alloc::Global;

// The greatest prime number below 2^16.
const ADLER: u32 = 65_521;

const DIGITS: &[u8; 16] = b"0123456789abcdef";

// The value of a digit.
fn value_of(digit: u8) -> Option<u8>
    ensures { IfSome result (λ value. value < 16) }
{
    match digit {
        b'0'..=b'9' => Some(digit - b'0'),
        b'a'..=b'f' => Some(digit - b'a' + 10),
        _ => None,
    }
}

// The byte of two digits.
fn byte_of(pair: &[u8]) -> Option<u8> {
    let [high, low] = pair else {
        return None;
    };
    Some(16 * value_of(*high)? + value_of(*low)?)
}

/// The bytes whose digits a text has, if it has such digits.
pub(crate) fn read_hex(alloc: Global, text: &[u8]) -> Result<Option<Vec<u8>>, NoMemory> {
    let mut bytes = Vec::new(alloc);
    if text == b"-".as_slice() {
        return Ok(Some(bytes));
    }
    for pair in text.chunks(2) {
        match byte_of(pair) {
            Some(byte) => bytes.push(byte)?,
            None => return Ok(None),
        }
    }
    Ok(Some(bytes))
}

/// The digits of bytes.
pub(crate) fn written_hex(alloc: Global, bytes: &[u8]) -> Result<Vec<u8>, NoMemory> {
    let mut text = Vec::new(alloc);
    if bytes.is_empty() {
        text.push(b'-')?;
    }
    for byte in bytes {
        text.push(DIGITS[(*byte / 16) as usize])?;
        text.push(DIGITS[(*byte % 16) as usize])?;
    }
    Ok(text)
}

/// How many bytes there are, and the two halves of their Adler-32 sum.
pub(crate) fn written_sum(alloc: Global, bytes: &[u8]) -> Result<String, NoMemory> {
    let (mut low, mut high) = (1u32, 0u32);
    for byte in bytes {
        low = low.wrapping_add(*byte as u32) % ADLER;
        high = high.wrapping_add(low) % ADLER;
    }
    let count = bytes.len();
    format!(in alloc; "{count}:{high}.{low}")
}
