//! The rules of an account.
ghost use Rattle.std.specs.Prelude.{◌≡◌};
ghost use Rattle.rv_audit.specs.AccountRules.{name_of};

/// A rule of accounts. Whether an entry keeps it depends on that entry and on those before it. At one place
/// an audit checks the rules in this order.
#[derive(Clone, Copy)]
pub enum Rule {
    /// Time never falls: an entry's moment is at least that of the entry before it, and the first entry's at
    /// least the opening moment.
    M1,
    /// Nothing waits past its limit: once the limit of a waiting request has come, only a tick may be next.
    M2,
    /// A tick has a cause: the limit of a waiting request has come.
    M3,
    /// A client starts again only in a greater incarnation.
    N1,
    /// The key of a request or a cancel has this epoch and its client's present incarnation.
    N2,
    /// A session numbers its requests one by one, and at most one of them waits. A cancel is for that one, or
    /// for the next.
    N3,
    /// Only an arrival that gives, takes or exchanges has partners. They are earlier places that were not
    /// named and name none, they rise, and they are no more than its call may name.
    P1,
    /// An arrival that gives is paired with one that takes of the same queue, or the other way round, while
    /// the partner is open.
    P2,
    /// The oldest is paired first: an arrival that is open on a partner's side, and came before that partner,
    /// is a partner too.
    P3,
    /// An arrival that gives or takes, and names fewer partners than it may, names all that are open on the
    /// other side.
    P4,
    /// An arrival that exchanges swaps with one at the same exchanger, while the partner is open.
    S1,
    /// An arrival that exchanges, and names nobody, finds nobody open at its exchanger.
    S2,
}

impl Rule {
    /// The rule's name, as an audit prints it.
    pub fn name(self) -> &'static str
        ensures { result.now ≡ name_of self }
    {
        match self {
            Rule::M1 => "M1",
            Rule::M2 => "M2",
            Rule::M3 => "M3",
            Rule::N1 => "N1",
            Rule::N2 => "N2",
            Rule::N3 => "N3",
            Rule::P1 => "P1",
            Rule::P2 => "P2",
            Rule::P3 => "P3",
            Rule::P4 => "P4",
            Rule::S1 => "S1",
            Rule::S2 => "S2",
        }
    }
}
