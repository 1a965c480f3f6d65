//! The numbers that options give, with the word and the limits of each.
ghost use Rattle.std.specs.Prelude.{◌≡◌, IfSome, None, ℕ};
ghost use Rattle.rv_words.specs.options.Numbers.{WritesWithin, least_of, most_of, option_word};

/// A number that an option gives.
#[derive(Clone, Copy)]
pub enum HostNumber {
    /// `--epoch`: the epoch, 1 to 9,007,199,254,740,991.
    Epoch,
    /// `--epoch-above`: a number that the epoch is above, 1 to 9,007,199,254,740,990.
    EpochAbove,
    /// `--clients`: the most clients that the book takes, 1 to 65,536.
    Clients,
    /// `--open`: the most items and requests that are open, 1 to 100,000.
    Open,
    /// `--connections`: the most connections that are open at once, 1 to 1,000,000.
    Connections,
    /// `--connections-from`: the most of them that may come from one address, 1 to 1,000,000.
    ConnectionsFrom,
    /// `--memory`: the most MiB that all buffers take, 1 to 1,048,576.
    Memory,
    /// `--idle`: after how many seconds a connection is closed that says nothing and waits for nothing,
    /// 1 to 31,536,000.
    Idle,
    /// `--stall`: after how many seconds one is closed that is in the middle of a frame, or whose peer takes
    /// no answer, 1 to 31,536,000.
    Stall,
}

impl HostNumber {
    /// The name of its option, without the two dashes.
    pub fn word(self) -> &'static str
        ensures { result.now ≡ option_word self }
    {
        match self {
            HostNumber::Epoch => "epoch",
            HostNumber::EpochAbove => "epoch-above",
            HostNumber::Clients => "clients",
            HostNumber::Open => "open",
            HostNumber::Connections => "connections",
            HostNumber::ConnectionsFrom => "connections-from",
            HostNumber::Memory => "memory",
            HostNumber::Idle => "idle",
            HostNumber::Stall => "stall",
        }
    }

    /// The least that it may be.
    pub fn least(self) -> u64
        ensures { result ≡ least_of self }
    {
        1
    }

    /// The greatest that it may be.
    pub fn most(self) -> u64
        ensures { result ≡ most_of self }
    {
        match self {
            HostNumber::Epoch => 9_007_199_254_740_991,
            HostNumber::EpochAbove => 9_007_199_254_740_990,
            HostNumber::Clients => 65_536,
            HostNumber::Open => 100_000,
            HostNumber::Connections => 1_000_000,
            HostNumber::ConnectionsFrom => 1_000_000,
            HostNumber::Memory => 1_048_576,
            HostNumber::Idle => 31_536_000,
            HostNumber::Stall => 31_536_000,
        }
    }

    /// The number that a text writes, if it is within the limits.
    pub fn read(self, text: &str) -> Option<u64>
        ensures some { IfSome result (WritesWithin self text.now) }
        ensures none { result ≡ None → (n : ℕ) → ¬ WritesWithin self text.now n }
    {
        let number = text.parse::<u64>().ok()?;
        if self.least() <= number && number <= self.most() {
            Some(number)
        } else {
            None
        }
    }
}
