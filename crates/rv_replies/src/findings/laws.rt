//! Laws of findings: each function is its contract, over the definitions alone.
ghost use Rattle.rv_replies.specs.findings.Laws.{GivenMayBeTold, KeptIsTold, OneFinding, OneKept};

/// A reply is kept exactly if it is its key's reply in a legal account, and its request came with that call,
/// or was cancelled before it came.
pub fn kept_is_told()
    ensures { KeptIsTold }
{}

/// In a legal account a key has one kept reply.
pub fn one_kept()
    ensures { OneKept }
{}

/// A legal account has one finding on a reply.
pub fn one_finding()
    ensures { OneFinding }
{}

/// A reply that a legal account gives is one that its request may get.
pub fn given_may_be_told()
    ensures { GivenMayBeTold }
{}
