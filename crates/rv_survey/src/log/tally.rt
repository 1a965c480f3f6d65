//! How often something came, which is reported at most once a minute.
ghost use Rattle.std.specs.Prelude.{◌≡◌, ◌↔◌, ◌+◌, ◌<◌, ℕ, IfNone, IfSome, IsTrue, None, min};
ghost use Rattle.std.specs.Bool.{OnFalse, OnTrue};
ghost use Rattle.rv_survey.specs.log.Tallies.{IsToBeTold, IsUntold, greatest_count, nothing_counted, told_at};

// It is reported at most once in so many milliseconds.
const PAUSE: u64 = 60_000;

/// How often something came since it was last reported, and the moment of that report.
#[derive(Clone, Copy)]
pub struct FaultTally {
    pub(crate) count: u64,
    pub(crate) told: Option<u64>,
}

impl FaultTally {
    /// Nothing came, and nothing was reported.
    pub fn new() -> FaultTally
        ensures { result ≡ nothing_counted }
    {
        FaultTally {
            count: 0,
            told: None,
        }
    }

    /// It came once more. The count stops at the greatest number of 64 bits.
    pub fn note(&mut self)
        ensures { self.new ≡ record self.old { count = min greatest_count (self.old.count + 1) } }
    {
        self.count = self.count.saturating_add(1);
    }

    /// Whether nothing came since it was last reported.
    pub fn is_told(&self) -> bool
        ensures { IsTrue result ↔ (self.now.count ≡ 0) }
    {
        self.count == 0
    }

    // Whether a minute has passed since it was last reported.
    fn may_tell(&self, now: u64) -> bool
        ensures yes { OnTrue result (IsUntold self.now.told now) }
        ensures no { OnFalse result (¬ IsUntold self.now.told now) }
    {
        match self.told {
            Some(told) => now.saturating_sub(told) >= PAUSE,
            None => true,
        }
    }

    /// How often it came, if it is to be reported at this moment in milliseconds: it came, and wasn't
    /// reported in the last minute. It then counts as reported.
    pub fn take(&mut self, now: u64) -> Option<u64>
        ensures told { IfSome result (λ count. IsToBeTold self.old now × (count ≡ self.old.count)
            × (self.new ≡ told_at now)) }
        ensures none { IfNone result ((¬ IsToBeTold self.old now) × (self.new ≡ self.old)) }
    {
        if self.count == 0 {
            return None;
        }
        if !self.may_tell(now) {
            return None;
        }
        let count = self.count;
        *self = FaultTally {
            count: 0,
            told: Some(now),
        };
        Some(count)
    }
}
