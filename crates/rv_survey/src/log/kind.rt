//! The kinds of fault that a server reports, each at most once a minute.
ghost use Rattle.std.specs.Prelude.{◌≡◌};
ghost use Rattle.rv_survey.specs.log.Texts.{kind_words};

/// A kind of fault.
#[derive(Clone, Copy)]
pub enum FaultKind {
    /// A connection that was accepted found no memory or no place in the poll.
    NotOpened,
    /// The system had no descriptor for a connection.
    NoDescriptor,
    /// An accept failed.
    NotAccepted,
    /// A connection's read or write failed.
    Link,
    /// A connection said nothing for too long.
    Idle,
    /// A connection stopped in the middle of a frame, or took no answer.
    Stall,
    /// Lines of the account found no memory.
    Behind,
    /// A connection held the most bytes when all held too much.
    MostHeld,
    /// Standard error didn't take a line.
    Dropped,
    /// A connection was closed because its address had as many as it may have.
    TooManyFrom,
    /// The account's file wasn't in its place, or not as long as what was written to it.
    AccountFile,
    /// A hello of a new client was refused 9.
    ClientsFull,
    /// A request was refused 10.
    BookFull,
    /// A message was refused 11.
    NoMemory,
}

impl FaultKind {
    /// All kinds, in the order in which they are reported.
    pub const ALL: [FaultKind; 14] = [
        FaultKind::NotOpened,
        FaultKind::NoDescriptor,
        FaultKind::NotAccepted,
        FaultKind::Link,
        FaultKind::Idle,
        FaultKind::Stall,
        FaultKind::Behind,
        FaultKind::MostHeld,
        FaultKind::Dropped,
        FaultKind::TooManyFrom,
        FaultKind::AccountFile,
        FaultKind::ClientsFull,
        FaultKind::BookFull,
        FaultKind::NoMemory,
    ];

    /// What is counted, in words.
    pub fn words(self) -> &'static str
        ensures { result.now ≡ kind_words self }
    {
        match self {
            FaultKind::NotOpened => "connections that found no memory",
            FaultKind::NoDescriptor => "accepts without a descriptor (ulimit -n)",
            FaultKind::NotAccepted => "accepts that failed",
            FaultKind::Link => "links that broke",
            FaultKind::Idle => "idle connections closed (--idle)",
            FaultKind::Stall => "stalled connections closed (--stall)",
            FaultKind::Behind => "turns in which lines of the account found no memory",
            FaultKind::MostHeld => "connections closed that held most (--memory)",
            FaultKind::Dropped => "lines that standard error didn't take",
            FaultKind::TooManyFrom => "connections closed of one address (--connections-from)",
            FaultKind::AccountFile => "looks that found the account removed, renamed or cut",
            FaultKind::ClientsFull => "hellos of new clients refused 9 (--clients)",
            FaultKind::BookFull => "requests refused 10 (--open)",
            FaultKind::NoMemory => "messages refused 11: no memory",
        }
    }
}
