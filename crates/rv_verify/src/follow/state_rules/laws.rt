//! Laws of entries that follow a state: each function is its contract, over the definitions alone.
ghost use Rattle.rv_verify.specs.follow.state_rules.Laws.{ClosedBreaks, FollowsLegally, RulesBreak};

/// An entry follows the state of a legal account exactly if the account with that entry is legal.
pub fn follows_legally()
    ensures { FollowsLegally }
{}

/// By the state of a legal account, a rule is the first that an entry breaks exactly if it is the first fault
/// of the account with that entry. The exception is an entry that names a place where nothing is open, and
/// breaks no earlier rule.
pub fn rules_break()
    ensures { RulesBreak }
{}

/// After such an entry the account isn't legal, and its first fault is of a rule on which places an entry
/// names.
pub fn closed_breaks()
    ensures { ClosedBreaks }
{}
