//! The bytes of a line.
ghost use Rattle.std.specs.Prelude.{◌≡◌, ◌≤◌, ◌++◌, ◌∷◌, [], IfOk, length, take};
ghost use Rattle.rv_survey.specs.log.Lines.{IsLogLine, stamp_bytes};

use httpdate::HttpDate;
use std::alloc::{AllocError, Global};

// The most bytes of a line without its LF: with it a pipe takes so many whole or not at all.
const MOST: usize = 4_095;

/// The line of a text: its time first, if there is one, and LF last. It has at most 4,096 bytes, for which
/// the text is cut after a whole character.
pub fn line(alloc: Global, at: Option<HttpDate>, text: &str) -> Result<Vec<u8>, AllocError>
    ensures exact { IfOk result (λ bytes. IsLogLine at text.now bytes.items) }
    ensures short { IfOk result (λ bytes. length bytes.items ≤ 4096) }
{
    let mut bytes = stamp(alloc, at)?;
    let count = text.floor_char_boundary(MOST - bytes.len());
    bytes.extend_from_slice(&text.as_bytes()[..count])?;
    bytes.push(b'\n')?;
    Ok(bytes)
}

// What stands in front of a text.
fn stamp(alloc: Global, at: Option<HttpDate>) -> Result<Vec<u8>, AllocError>
    ensures bytes { IfOk result (λ bytes. bytes.items ≡ stamp_bytes at) }
    ensures short { IfOk result (λ bytes. length bytes.items ≤ 30) }
{
    let mut bytes = Vec::new(alloc);
    if let Some(date) = at {
        bytes.extend_from_slice(&date.to_bytes())?;
        bytes.push(b' ')?;
    }
    Ok(bytes)
}
