//! Whether a call may have a reply at all.
ghost use Rattle.std.specs.Prelude.{◌≡◌, ◌↔◌, IsTrue};
ghost use Rattle.rv_text.specs.declared.answer.Reply.TheVariants.{Cancelled};
ghost use Rattle.rv_replies.specs.findings.Findings.{MayBeTold};

use rv_account::state::resume::suits_call;
use rv_text::{Call, Reply, Version};

fn is_cancelled(reply: &Reply) -> bool
    ensures { IsTrue result ↔ (reply.now ≡ Cancelled) }
{
    matches!(reply, Reply::Cancelled)
}

/// Whether a request with this call may get this reply, or get it if it was cancelled before it came.
pub(crate) fn may_tell(call: &Call, reply: &Reply) -> bool
    ensures { IsTrue result ↔ MayBeTold call.now reply.now }
{
    is_cancelled(reply)
        || suits_call(Version::One, call, reply)
        || suits_call(Version::Two, call, reply)
}
