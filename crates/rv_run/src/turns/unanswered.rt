//! An input whose lines are answered one after another: what was answered is freed.
ghost use Rattle.std.specs.Prelude.{◌≡◌, ◌≤◌, ◌-◌, drop, length};

// The least number of answered bytes that are freed at once.
const LEAST: usize = 65_536;

/// The bytes of an input, the first of which are answered. At most half of what it keeps is answered, or at
/// most 65,535 bytes. No more bytes are moved in all than the input has.
pub(crate) struct Unanswered {
    bytes: Vec<u8>,
    answered: usize,
    ghost within: { answered ≤ length bytes.items },
}

// Whoever owns one drops it in one step.
impl Drop for Unanswered {
    fn drop(self) {
        let Unanswered {
            bytes: _,
            answered: _,
        } = self;
    }
}

impl Unanswered {
    ghost use Rattle.rv_run.specs.turns.Unanswered.{unanswered};

    /// An input none of which is answered yet.
    pub(crate) fn new(bytes: Vec<u8>) -> Unanswered
        ensures { unanswered result ≡ bytes.items }
    {
        Unanswered { bytes, answered: 0 }
    }

    /// The bytes that aren't answered.
    pub(crate) fn rest(&self) -> &[u8]
        ensures { result.now ≡ unanswered self.now }
    {
        &self.bytes[self.answered..]
    }

    /// Keeps only so many bytes at the end as unanswered: those before them are answered.
    pub(crate) fn keep_last(&mut self, left: usize)
        requires { left ≤ length (unanswered self.old) }
        ensures { unanswered self.new ≡ drop (length (unanswered self.old) - left) (unanswered self.old) }
    {
        self.answered = self.bytes.len() - left;
        if self.answered >= LEAST && self.answered >= left {
            self.let_go();
        }
    }

    // Frees the bytes that are answered.
    fn let_go(&mut self)
        ensures { unanswered self.new ≡ unanswered self.old }
    {
        let left = self.bytes.len() - self.answered;
        self.bytes.copy_within(self.answered.., 0);
        self.bytes.truncate(left);
        self.bytes.shrink_to_fit();
        self.answered = 0;
    }
}
