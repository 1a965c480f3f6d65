//! How long the first unanswered frame of a connection stands first.
ghost use Rattle.std.specs.Prelude.{ℕ, ◌≡◌, ◌≤◌, ◌<◌, ◌+◌, ◌^◌, ◌-◌, ◌∷◌, [], ◌++◌, List, None, Some};
ghost use Rattle.std.specs.Prelude.{length, max, replicate};
ghost use Rattle.std.specs.List.{All};
ghost use Rattle.rv_status.specs.Standing.{LineStands};

/// How many frames of a connection are unanswered, and since when the first of them has stood first. A frame
/// is answered when its answer leaves. Moments are in any unit, and don't go back.
#[derive(Clone, Copy)]
pub struct FrameLine {
    count: u64,
    since: u64,
}

impl FrameLine {
    /// No frame was read.
    pub fn new() -> FrameLine
        ensures { LineStands [] 0 result }
    {
        FrameLine { count: 0, since: 0 }
    }

    /// The last bytes of so many frames were read at a moment.
    pub fn came(&mut self, frames: usize, now: u64)
        ensures { (read : List ℕ) (left : ℕ) → LineStands read left self.old → left ≤ now
            → length read + frames < 2 ^ 64 → LineStands (read ++ replicate frames now) left self.new }
    {
        if self.count == 0 && frames > 0 {
            self.since = now;
        }
        self.count = self.count.saturating_add(frames as u64);
    }

    /// An answer left at a moment. Returns how long its frame stood first, or `None` if there is no frame.
    pub fn left(&mut self, now: u64) -> Option<u64>
        ensures stood { (first : ℕ) (others : List ℕ) (left : ℕ) → LineStands (first ∷ others) left self.old
            → All (λ moment. moment ≤ now) others
            → (result ≡ Some (now - max first left)) × LineStands others now self.new }
        ensures none { (left : ℕ) → LineStands [] left self.old → (result ≡ None) × (self.new ≡ self.old) }
    {
        if self.count == 0 {
            return None;
        }
        let stood = now.saturating_sub(self.since);
        self.count -= 1;
        self.since = now;
        Some(stood)
    }
}
