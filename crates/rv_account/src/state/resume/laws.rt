//! Laws of states to resume from: each function is its contract, over the definitions alone.
ghost use Rattle.rv_account.specs.state.resume.Laws.{AccountsResume, EntriesResume, FittingResume};
ghost use Rattle.rv_account.specs.state.resume.Laws.{OpeningsResume};
ghost use Rattle.rv_account.specs.state.resume.Laws.{StepsResume};

/// The state after an entry of a state to resume from is one too, if it has room.
pub fn entries_resume()
    ensures { EntriesResume }
{}

/// The state of an empty account is one to resume from.
pub fn openings_resume()
    ensures { OpeningsResume }
{}

/// Under limits that a step may have, each move of a state to resume from leads to one.
pub fn steps_resume()
    ensures { StepsResume }
{}

/// The state of a legal account within its limits, if it had room after each of its entries, is one to resume
/// from.
pub fn accounts_resume()
    ensures { AccountsResume }
{}

/// The state of a legal account that a book may have is one to resume from.
pub fn fitting_resume()
    ensures { FittingResume }
{}
