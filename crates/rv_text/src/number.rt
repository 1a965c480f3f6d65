//! Reads a number that is written in decimal digits.
ghost use Rattle.std.specs.Prelude.{IfSome, IsSome, None, ℕ, ◌↔◌, ◌≡◌};
ghost use Rattle.rv_text.specs.Number.{IsDigits, WritesBetween, WritesIdentifier, WritesUpTo};
ghost use Rattle.rv_text.specs.Number.{value_of_digits};

use crate::message::MAX_IDENTIFIER;

// The most digits of a number. Every number of so many digits fits a `u64`.
const MOST_DIGITS: usize = 19;

/// The number that `text` writes in decimal: 1 to 19 ASCII digits, leading zeros allowed, and nothing else.
/// Every other text has none, such as one with a sign or a space.
pub fn read_number(text: &[u8]) -> Option<u64>
    ensures some { IsSome result ↔ IsDigits text.now }
    ensures value { IfSome result (λ n. n ≡ value_of_digits text.now) }
{
    if text.is_empty() || text.len() > MOST_DIGITS {
        return None;
    }
    let mut value = 0;
    for digit in text {
        if !digit.is_ascii_digit() {
            return None;
        }
        value = 10 * value + (*digit - b'0') as u64;
    }
    Some(value)
}

/// The identifier that `text` writes: an epoch, a client and the like, 1 to 9,007,199,254,740,991.
pub fn read_identifier(text: &[u8]) -> Option<u64>
    ensures some { IfSome result (WritesIdentifier text.now) }
    ensures none { result ≡ None → (n : ℕ) → ¬ WritesIdentifier text.now n }
{
    read_between(text, 1, MAX_IDENTIFIER)
}

/// The number that `text` writes, if it is at least `least` and at most `most`.
pub fn read_between(text: &[u8], least: u64, most: u64) -> Option<u64>
    ensures some { IfSome result (WritesBetween least most text.now) }
    ensures none { result ≡ None → (n : ℕ) → ¬ WritesBetween least most text.now n }
{
    let n = read_number(text)?;
    if least <= n && n <= most {
        Some(n)
    } else {
        None
    }
}

/// The number that `text` writes with no leading zero, if it is at most `most`. `0` alone is a number too.
pub fn read_plain(text: &[u8], most: u64) -> Option<u64>
    ensures some { IfSome result (WritesUpTo most text.now) }
    ensures none { result ≡ None → (n : ℕ) → ¬ WritesUpTo most text.now n }
{
    if text.len() > 1 && text[0] == b'0' {
        return None;
    }
    let n = read_number(text)?;
    if n <= most { Some(n) } else { None }
}
