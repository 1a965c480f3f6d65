//! What is found of an account.
use rv_account::{Entry, Place};
use rv_audit::Rule;

/// The verdict on the lines of an account.
#[derive(Drop)]
pub enum AccountVerdict {
    /// They are read as a legal account.
    Legal,
    /// They are read as an account in which a rule is broken.
    Fault {
        /// The first place at which a rule is broken.
        place: Place,
        /// The first rule that is broken there, in the order of an audit.
        rule: Rule,
    },
    /// They are read as an account in which P1, P2 or S1 is the first rule that is broken. Which of the three
    /// it is depends on the entries before the place.
    NotOpen {
        /// The first place at which a rule is broken.
        place: Place,
        /// The entry there.
        entry: Entry,
    },
    /// They aren't read as an account: the first line that has another form, counted from 1.
    BadLine(u64),
    /// They are read as an account that is legal up to this place, after which its state has no room.
    BeyondLimits(Place),
}

/// What was found of the bytes of an account.
#[derive(Drop)]
pub struct AccountFinding {
    /// The epoch that the first line says, unless that is bad or torn.
    pub epoch: Option<u64>,
    /// The verdict on the lines; if the end is torn, on those before the torn piece.
    pub verdict: AccountVerdict,
    /// Whether the bytes end in a piece that lacks its LF, and that would be the first line or isn't an
    /// entry.
    pub torn: bool,
}
