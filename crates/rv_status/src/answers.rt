//! Which answers leave over a connection: their frames are looked at as they go by.
ghost use Rattle.std.specs.Prelude.{◌≡◌, ◌≤◌, ◌-◌};

/// How many kinds of answers are counted: refusals 1 to 12, and all others except welcomes.
pub const ANSWERS: usize = 24;

// How many of them are refusals.
const REFUSALS: usize = 12;

// How the bodies of the others end, in the order of their words; that of a request that waits has its number
// last.
const ENDS: [&[u8]; 11] = [
    b"\"cancelled\"}",
    b"\"counted\"}",
    b"\"done\"}",
    b"]}",
    b"\"empty\"}",
    b"\"item\"}",
    b"\"nobody\"}",
    b"\"peeked\"}",
    b"\"received\"}",
    b"\"swapped\"}",
    b"\"timedout\"}",
];

// The place of a request that waits.
const WAITING: usize = 23;

/// How many answers of each kind have left: refusals 1 to 12, and then the others by their words.
pub type AnswerCounts = [u64; ANSWERS];

/// How much is left of the answer that is leaving over a connection.
#[derive(Clone, Copy)]
pub struct AnswerMeter {
    // So many bytes at the front of those that are ready are of an answer that was counted.
    owed: usize,
}

impl AnswerMeter {
    /// Nothing has left.
    pub fn new() -> AnswerMeter
        ensures { result.owed ≡ 0 }
    {
        AnswerMeter { owed: 0 }
    }

    /// The first `count` of the bytes that are ready have left. What is ready is the rest of the frame that
    /// was leaving, and then other frames. Each frame is counted once, as soon as a byte of it left. Returns
    /// how many frames this call counted, welcomes included.
    pub fn pass(&mut self, ready: &[u8], count: usize, counts: &mut AnswerCounts) -> usize
        ensures owed { count ≤ self.old.owed → self.new.owed ≡ self.old.owed - count }
        ensures counted { count ≤ self.old.owed → counts.new ≡ counts.old }
        ensures none { count ≤ self.old.owed → result ≡ 0 }
    {
        if count <= self.owed {
            self.owed -= count;
            return 0;
        }
        self.pass_on(ready, count, counts)
    }

    // The same, where more has left than is owed.
    fn pass_on(&mut self, ready: &[u8], count: usize, counts: &mut AnswerCounts) -> usize {
        let mut begun = 0usize;
        let mut at = self.owed;
        for _ in 0..count {
            if at >= count || at >= ready.len() {
                break;
            }
            let body = body_of(&ready[at..]);
            note(body, counts);
            begun = begun.saturating_add(1);
            at = at.saturating_add(body.len()).saturating_add(2);
        }
        self.owed = at.saturating_sub(count);
        begun
    }
}

// The body of a frame, or as much of it as is there.
fn body_of(frame: &[u8]) -> &[u8] {
    if frame.len() < 2 {
        return &[];
    }
    let length = frame[0] as usize * 256 + frame[1] as usize;
    let body = &frame[2..];
    if length < body.len() {
        &body[..length]
    } else {
        body
    }
}

// One more answer of this body left.
fn note(body: &[u8], counts: &mut AnswerCounts) {
    let Some(place) = place_of(body) else {
        return;
    };
    if let Some(count) = counts.get_mut(place) {
        *count = count.saturating_add(1);
    }
}

// Where an answer of this body is counted, if it is.
fn place_of(body: &[u8]) -> Option<usize> {
    if body.starts_with(b"{\"code\":") {
        return code_of(&body[8..]).checked_sub(1);
    }
    for place in 0..ENDS.len() {
        if body.ends_with(ENDS[place]) {
            return Some(place + REFUSALS);
        }
    }
    waits(body).then_some(WAITING)
}

// Whether a body says that a request waits: the last of its members is the number.
fn waits(body: &[u8]) -> bool {
    match body.iter().rposition(|byte| *byte == b':') {
        Some(at) => body[..at].ends_with(b"\"number\""),
        None => false,
    }
}

// The number of a refusal, which stands in front; else 0.
fn code_of(digits: &[u8]) -> usize {
    match digits {
        [first, second, ..] if second.is_ascii_digit() => digit(*first) * 10 + digit(*second),
        [first, ..] => digit(*first),
        [] => 0,
    }
}

// The value of a digit; 0 of another byte.
fn digit(byte: u8) -> usize
    ensures { result ≤ 9 }
{
    if byte.is_ascii_digit() {
        (byte - b'0') as usize
    } else {
        0
    }
}
