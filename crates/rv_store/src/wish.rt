//! Which epoch a start gets: the present one of a store, or a new one.
ghost use Rattle.std.specs.Prelude.{◌≡◌, ℕ, IfSome, None};
ghost use Rattle.std.specs.Bool.{OnFalse, OnTrue};
ghost use Rattle.rv_store.specs.Epochs.{HasNoChoice, IsChoice, IsLeastNew, IsNearest, MayBeNew, MayGoOn};

/// The epochs that a start allows.
#[derive(Clone, Copy, Debug, PartialEq, Eq)]
pub struct EpochWish {
    /// The least.
    pub least: u64,
    /// The greatest.
    pub most: u64,
    /// Whether a new one begins even where the present one is allowed.
    pub is_new: bool,
}

/// The epoch of a start.
#[derive(Clone, Copy, Debug, PartialEq, Eq)]
pub enum EpochChoice {
    /// The present one goes on.
    GoesOn(u64),
    /// This one begins.
    Begins(u64),
}

impl EpochWish {
    /// Whether an epoch is allowed, and may go on.
    pub(crate) fn lets_go_on(self, epoch: u64) -> bool
        ensures yes { OnTrue result (MayGoOn self epoch) }
        ensures no { OnFalse result (MayGoOn self epoch → ⊥) }
    {
        !self.is_new && self.least <= epoch && epoch <= self.most
    }

    // The least of those that are allowed and greater than the present one, but for the greatest.
    fn least_new(self, present: Option<u64>) -> Option<u64>
        ensures some { IfSome result (IsLeastNew self present) }
        ensures none { result ≡ None → (epoch : ℕ) → MayBeNew self present epoch → ⊥ }
    {
        match present {
            Some(present) => Some(self.least.max(present.checked_add(1)?)),
            None => Some(self.least),
        }
    }

    // The epoch of an account that is begun.
    fn begin(self, present: Option<u64>, now: u64) -> Option<u64>
        ensures some { IfSome result (IsNearest self present now) }
        ensures none { result ≡ None → (epoch : ℕ) → MayBeNew self present epoch → ⊥ }
    {
        let least = self.least_new(present)?;
        if least > self.most {
            return None;
        }
        Some(now.max(least).min(self.most))
    }

    /// The present epoch, if it may go on. Else a new one, among those that are allowed and greater than the
    /// present one: the clock's milliseconds `now`, or the nearest to them; `None` where there is no such
    /// epoch.
    pub fn choose(self, present: Option<u64>, now: u64) -> Option<EpochChoice>
        ensures some { IfSome result (IsChoice self present now) }
        ensures none { result ≡ None → HasNoChoice self present }
    {
        if let Some(epoch) = present {
            if self.lets_go_on(epoch) {
                return Some(EpochChoice::GoesOn(epoch));
            }
        }
        Some(EpochChoice::Begins(self.begin(present, now)?))
    }
}
