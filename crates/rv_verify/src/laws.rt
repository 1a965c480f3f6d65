//! Laws of verdicts on an account: each function is its contract, over the definitions alone.
ghost use Rattle.rv_verify.specs.Laws.{LegalHadRoom, LegalIsNoted, VerdictsAgree};

/// On lines that an audit reads as an account, the verdict says what the audit says.
pub fn verdicts_agree()
    ensures { VerdictsAgree }
{}

/// In an account that an audit reads as legal, the state has had room after each entry.
pub fn legal_had_room()
    ensures { LegalHadRoom }
{}

/// If lines are read as a legal account whose state had room after each entry, the findings on a record are
/// on that account.
pub fn legal_is_noted()
    ensures { LegalIsNoted }
{}
