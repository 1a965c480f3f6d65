//! Laws of audits: each function is its contract, over the definitions alone.
ghost use Rattle.rv_audit.specs.Laws.{LegalByRules, OneAudit};

/// An account is legal exactly where no rule of an audit is broken at any place.
pub fn legal_by_rules()
    ensures { LegalByRules }
{}

/// An audit has one result for each account: that it is legal, or one place and one rule.
pub fn one_audit()
    ensures { OneAudit }
{}
