//! The reply to a request whose wait an act ended.
ghost use Rattle.std.specs.Prelude.{◌≡◌};
ghost use Rattle.rv_account.specs.rules.Replies.{told_by};

use rv_account::Act;
use rv_text::Reply;

/// The reply to a request whose wait this act ended. No arrival ends one.
pub fn told_by(act: &Act) -> Reply
    ensures { result ≡ told_by act.now }
{
    match act {
        Act::Hello { .. } => Reply::Cancelled,
        Act::Arrive { .. } => Reply::Cancelled,
        Act::Cancel { .. } => Reply::Cancelled,
        Act::Tick => Reply::TimedOut,
    }
}
