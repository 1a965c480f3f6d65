//! Laws of states: each function is its contract, over the definitions alone.
ghost use Rattle.rv_account.specs.rules.StepLimits.{AreStepLimits, StepLimits, book_limits};
ghost use Rattle.rv_account.specs.state.Laws.{LimitsHold, LimitsOnlyRefuse, MovesExist, MovesExistUnder};
ghost use Rattle.rv_account.specs.state.Laws.{MovesStep, MovesStepUnder, OneFuture};
ghost use Rattle.rv_account.specs.state.Laws.{StatesAgree, StatesFollow, StatesKeepRules, StatesSettle};
ghost use Rattle.rv_account.specs.state.Laws.{StatesTellWaiting, StepsAlike, StepsAlikeUnder, StepsMove};
ghost use Rattle.rv_account.specs.state.Laws.{StepsMoveUnder, TicksMove, TicksStep};
ghost use Rattle.rv_account.specs.state.StepLaws.{CancelsCanEnterUnder, HellosCanEnterUnder, OneNextUnder};
ghost use Rattle.rv_account.specs.state.StepLaws.{OneTicked, RequestsCanEnterUnder, StepsExtendUnder};
ghost use Rattle.rv_account.specs.state.StepLaws.{TicksExtend};

/// Each part of the state of a legal account says what the formulas over its places say.
pub fn states_agree()
    ensures { StatesAgree }
{}

/// The state of a legal account gives the line of each side, which open places wait, for which clients, what
/// is due, and how many wait or said hello.
pub fn states_tell_waiting()
    ensures { StatesTellWaiting }
{}

/// An entry may follow a legal account exactly where it may follow its state.
pub fn states_follow()
    ensures { StatesFollow }
{}

/// A rule of a legal account is kept exactly if it is kept by the state, as long as those before it are; the
/// rule of free partners, where what is named is open.
pub fn states_keep_rules()
    ensures { StatesKeepRules }
{}

/// The state after an entry, which requests it settles in which order, and its own request's reply are read
/// off the state before it.
pub fn states_settle()
    ensures { StatesSettle }
{}

/// Each step of a legal account is a move of its state, with the same entries, answer, settled requests and
/// state after.
pub fn steps_move()
    ensures { StepsMove }
{}

/// Each move of the state of a legal account is a step of the account: the state gives what can come next.
pub fn moves_step()
    ensures { MovesStep }
{}

/// What may follow one of two legal accounts with one state may follow the other.
pub fn one_future()
    ensures { OneFuture }
{}

/// Each step of one of two legal accounts with one state is a step of the other, with the same answer,
/// entries, settled requests and state after.
pub fn steps_alike()
    ensures { StepsAlike }
{}

/// Whatever the state, there is a move for each moment and message that isn't for want of memory.
pub fn moves_exist()
    ensures { MovesExist }
{}

/// Under any limits, each step of a legal account is a move of its state, with the same entries, answer,
/// settled requests and state after.
pub fn steps_move_under()
    ensures { (limits : StepLimits) → StepsMoveUnder limits }
{}

/// Under any limits, each move of the state of a legal account is a step of the account.
pub fn moves_step_under()
    ensures { (limits : StepLimits) → MovesStepUnder limits }
{}

/// Under any limits, each step of one of two legal accounts with one state is a step of the other, with the
/// same answer, entries, settled requests and state after.
pub fn steps_alike_under()
    ensures { (limits : StepLimits) → StepsAlikeUnder limits }
{}

/// Whatever the limits and the state, there is a move for each moment and message that isn't for want of
/// memory.
pub fn moves_exist_under()
    ensures { (limits : StepLimits) → MovesExistUnder limits }
{}

/// The time-outs of a legal account, at its own moment or later, are those of its state, with the same
/// entries, settled requests and state after.
pub fn ticks_move()
    ensures { TicksMove }
{}

/// The time-outs of the state of a legal account, at its own moment or later, are time-outs of the account.
pub fn ticks_step()
    ensures { TicksStep }
{}

/// A book's limits are limits that a step may have.
pub fn book_limits_fit()
    ensures { AreStepLimits book_limits }
{}

/// A step that isn't refused for lack of room for clients or entries is one under any limits no lower.
pub fn limits_only_refuse()
    ensures { LimitsOnlyRefuse }
{}

/// After a step what limits bound is at most its limit, or at most what it was before.
pub fn limits_hold()
    ensures { LimitsHold }
{}

/// Under any limits, a step only adds to the account.
pub fn steps_extend_under()
    ensures { (limits : StepLimits) → StepsExtendUnder limits }
{}

/// Time-outs only add to the account.
pub fn ticks_extend()
    ensures { TicksExtend }
{}

/// Under any limits, a step of a moment and message leads to one account and one answer, want of memory
/// aside.
pub fn one_next_under()
    ensures { (limits : StepLimits) → OneNextUnder limits }
{}

/// The time-outs of an account at a moment lead to one account.
pub fn one_ticked()
    ensures { OneTicked }
{}

/// Under any limits, after a step's time-outs a request for which no refusal is due has its answer here or in
/// a next account.
pub fn requests_can_enter_under()
    ensures { (limits : StepLimits) → RequestsCanEnterUnder limits }
{}

/// Under any limits, after a step's time-outs a cancel for which no refusal is due has its reply here or in a
/// next account.
pub fn cancels_can_enter_under()
    ensures { (limits : StepLimits) → CancelsCanEnterUnder limits }
{}

/// Under any limits, after a step's time-outs a hello that is no repeat can enter, if no refusal of it is
/// due.
pub fn hellos_can_enter_under()
    ensures { (limits : StepLimits) → HellosCanEnterUnder limits }
{}
