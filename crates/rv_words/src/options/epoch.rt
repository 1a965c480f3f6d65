//! How a server chooses its epoch.
ghost use Rattle.std.specs.Prelude.{◌≡◌, ◌<◌, ◌≤◌, suc, ℕ};
ghost use Rattle.std.specs.Int.{IsInRange};
ghost use Rattle.rv_words.specs.options.Numbers.{Fits};
ghost use Rattle.rv_words.specs.declared.options.number.HostNumber.TheVariants as number;
ghost use Rattle.rv_words.specs.options.Epochs.{FitsRule, least_epoch, most_epoch};
ghost use Rattle.rv_words.specs.declared.options.epoch.EpochRule.TheVariants.{Above, Clock, Exactly};

// The greatest epoch.
const MAX_EPOCH: u64 = 9_007_199_254_740_991;

/// How a server chooses the epoch of its book.
#[derive(Clone, Copy)]
pub enum EpochRule {
    /// The wall clock's milliseconds at the start.
    Clock,
    /// This epoch.
    Exactly(u64),
    /// The wall clock's milliseconds, but above this number, for a clock that may go back.
    Above(u64),
}

impl EpochRule {
    /// The epoch of a server that starts at `now` by the wall clock, in milliseconds: `now` itself, if that
    /// is an epoch and the rule allows it.
    pub fn epoch(self, now: u64) -> u64
        requires { FitsRule self }
        ensures allowed { IsInRange (least_epoch self) (most_epoch self) result }
        ensures fits { Fits number.Epoch result }
        ensures exactly { (e : ℕ) → self ≡ Exactly e → result ≡ e }
        ensures above { (n : ℕ) → self ≡ Above n → n < result }
        ensures by_clock { self ≡ Clock → Fits number.Epoch now → result ≡ now }
        ensures by_clock_above { (n : ℕ) → self ≡ Above n → n < now → Fits number.Epoch now
            → result ≡ now }
        ensures clock_behind { (n : ℕ) → self ≡ Above n → now ≤ n → result ≡ suc n }
    {
        now.clamp(self.least(), self.most())
    }

    /// The least epoch that it allows.
    pub fn least(self) -> u64
        requires { FitsRule self }
        ensures { result ≡ least_epoch self }
    {
        match self {
            EpochRule::Clock => 1,
            EpochRule::Exactly(epoch) => epoch,
            EpochRule::Above(number) => number + 1,
        }
    }

    /// The greatest epoch that it allows.
    pub fn most(self) -> u64
        ensures { result ≡ most_epoch self }
    {
        match self {
            EpochRule::Clock => MAX_EPOCH,
            EpochRule::Exactly(epoch) => epoch,
            EpochRule::Above(_) => MAX_EPOCH,
        }
    }
}
