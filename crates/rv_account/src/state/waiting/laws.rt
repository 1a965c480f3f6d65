//! Laws of what waits in a state to resume from: each function is its contract, over the definitions alone.
ghost use Rattle.rv_account.specs.state.waiting.Laws.{MovesAnswer, MovesLast, OldFits, TicksLast, ToldFits};
ghost use Rattle.rv_account.specs.state.waiting.Laws.{WaitingFits};

/// The time-outs of a moment lead to a state to resume from, in which nothing is due then; of the requests
/// that waited, exactly those that they settle wait no longer.
pub fn ticks_last()
    ensures { TicksLast }
{}

/// So does each move at a moment at which nothing is due.
pub fn moves_last()
    ensures { MovesLast }
{}

/// Its answer is within the limits, and if it says that a request waits, the request does.
pub fn moves_answer()
    ensures { MovesAnswer }
{}

/// The answer to a repeat of a session's last request is within the limits.
pub fn told_fits()
    ensures { ToldFits }
{}

/// So is the refusal that names the session's greater incarnation.
pub fn old_fits()
    ensures { OldFits }
{}

/// And so is the key of each request that waits.
pub fn waiting_fits()
    ensures { WaitingFits }
{}
