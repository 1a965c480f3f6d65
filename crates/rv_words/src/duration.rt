//! Reads a span of time.
ghost use Rattle.std.specs.Prelude.{◌≡◌, ◌<◌, ℕ, IfSome, None, length, position};
ghost use Rattle.rv_words.specs.Durations.{WritesDuration, is_no_digit, unit_millis, unit_word};

use rv_text::read_number;

// The longest span: a day, in milliseconds.
const MAX_MILLIS: u64 = 86_400_000;

/// A unit of time.
#[derive(Clone, Copy)]
pub(crate) enum TimeUnit {
    /// A thousandth of a second.
    Millisecond,
    /// 1,000 milliseconds.
    Second,
    /// 60,000 milliseconds.
    Minute,
    /// 3,600,000 milliseconds.
    Hour,
}

/// The span that a text writes, in milliseconds, if it is a day at most: 1 to 19 digits, then `ms`, `s`, `m`
/// or `h`.
pub fn read_duration(text: &str) -> Option<u64>
    ensures some { IfSome result (WritesDuration text.now) }
    ensures none { result ≡ None → (n : ℕ) → ¬ WritesDuration text.now n }
{
    let bytes = text.as_bytes();
    let place = first_letter(bytes)?;
    let count = read_number(&bytes[..place])?;
    let unit = TimeUnit::of_word(&bytes[place..])?;
    let millis = count.checked_mul(unit.millis())?;
    if millis <= MAX_MILLIS {
        Some(millis)
    } else {
        None
    }
}

// Where the first byte is that is no digit.
fn first_letter(text: &[u8]) -> Option<usize>
    ensures first { result ≡ position is_no_digit text.now }
    ensures within { IfSome result (λ place. place < length text.now) }
{
    text.iter().position(|byte| !byte.is_ascii_digit())
}

impl TimeUnit {
    // The unit that this word names.
    fn of_word(word: &[u8]) -> Option<TimeUnit>
        ensures some { IfSome result (λ unit. word.now ≡ unit_word unit) }
        ensures none { result ≡ None → (unit : TimeUnit) → ¬ (word.now ≡ unit_word unit) }
    {
        match word {
            [b'm', b's'] => Some(TimeUnit::Millisecond),
            [b's'] => Some(TimeUnit::Second),
            [b'm'] => Some(TimeUnit::Minute),
            [b'h'] => Some(TimeUnit::Hour),
            _ => None,
        }
    }

    // How many milliseconds it has.
    fn millis(self) -> u64
        ensures { result ≡ unit_millis self }
    {
        match self {
            TimeUnit::Millisecond => 1,
            TimeUnit::Second => 1_000,
            TimeUnit::Minute => 60_000,
            TimeUnit::Hour => 3_600_000,
        }
    }
}
