//! Histograms: how many of the values that were observed are at most each bound.
ghost use Rattle.std.specs.Prelude.{ℕ, ◌≡◌, ◌∷◌, [], List, map};
ghost use Rattle.rv_status.specs.Histograms.{answer_bounds, histogram_of, observed, turn_bounds};

// How many bounds a histogram has.
const BOUNDS: usize = 14;

/// How many of the values are at most a bound.
#[derive(Clone, Copy)]
pub struct Bucket {
    pub(crate) bound: u64,
    pub(crate) count: u64,
}

/// Values in microseconds, counted by bounds. No count and no sum goes past 2^64 - 1.
#[derive(Clone, Copy)]
pub struct Histogram {
    pub(crate) buckets: [Bucket; BOUNDS],
    pub(crate) count: u64,
    pub(crate) sum: u64,
}

impl Bucket {
    // One more value was observed.
    fn observe(&mut self, value: u64)
        ensures { self.new ≡ observed value self.old }
    {
        if value <= self.bound {
            self.count = self.count.saturating_add(1);
        }
    }
}

// One more value was observed, in each bucket.
fn observe_each(buckets: &mut [Bucket], value: u64)
    ensures { buckets.new ≡ map (observed value) buckets.old }
{
    for bucket in buckets.iter_mut() {
        bucket.observe(value);
    }
}

// No value was observed; these are the bounds.
macro_rules! histogram {
    ($($bound:literal),*) => {
        Histogram {
            buckets: [$(Bucket { bound: $bound, count: 0 }),*],
            count: 0,
            sum: 0,
        }
    };
}

impl Histogram {
    /// A histogram of no turns, with bounds from half a millisecond to ten seconds.
    pub fn of_turns() -> Histogram
        ensures { result ≡ histogram_of turn_bounds [] }
    {
        histogram![
            500, 1_000, 2_500, 5_000, 10_000, 25_000, 50_000, 100_000, 250_000, 500_000, 1_000_000,
            2_500_000, 5_000_000, 10_000_000
        ]
    }

    /// A histogram of no answers, with bounds from a millisecond to a day.
    pub fn of_answers() -> Histogram
        ensures { result ≡ histogram_of answer_bounds [] }
    {
        histogram![
            1_000,
            5_000,
            10_000,
            50_000,
            100_000,
            250_000,
            500_000,
            1_000_000,
            5_000_000,
            10_000_000,
            30_000_000,
            300_000_000,
            3_600_000_000,
            86_400_000_000
        ]
    }

    /// One more value was observed.
    pub fn observe(&mut self, value: u64)
        ensures { (bounds seen : List ℕ) → self.old ≡ histogram_of bounds seen
            → self.new ≡ histogram_of bounds (value ∷ seen) }
    {
        observe_each(&mut self.buckets, value);
        self.count = self.count.saturating_add(1);
        self.sum = self.sum.saturating_add(value);
    }
}
