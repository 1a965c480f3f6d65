//! A call that isn't settled, which is asked again as the same request.
ghost use Rattle.std.specs.Prelude.{◌≡◌, IfSome, None};
ghost use Rattle.rv_text.specs.Limits.{FitsCall, FitsIdentifier};
ghost use Rattle.rv_client.specs.Link.{link};
ghost use Rattle.rv_commands.specs.Asking.{EndsCall, key_asked};

use crate::asking::{CallEnd, ask_call};
use rv_client::{LinkFault, New};
use rv_frame::{Sink, Source};
use rv_text::{Call, Key};
use std::alloc::Global;
use std::io::{Read, Write};

/// A call that isn't settled, with the key of its request, if that was asked.
#[derive(Drop)]
pub struct OpenCall {
    call: Call,
    asked: Option<Key>,
}

impl OpenCall {
    /// A call that wasn't asked yet, if it keeps its limits.
    pub fn new(call: Call) -> Option<OpenCall>
        ensures some { IfSome result (λ new. (new.call ≡ call) × (new.asked ≡ None) × FitsCall call) }
        ensures none { result ≡ None → ¬ FitsCall call }
    {
        if call.fits() {
            Some(OpenCall { call, asked: None })
        } else {
            None
        }
    }

    /// The key of its request, if that was asked.
    pub fn asked(&self) -> Option<Key>
        ensures { result ≡ self.now.asked }
    {
        let OpenCall { call: _, asked } = self;
        *asked
    }

    /// The call.
    pub fn into_call(self) -> Call
        ensures { result ≡ self.call }
    {
        let OpenCall { call, asked: _ } = self;
        call
    }

    /// Says hello and asks once, as [`ask_call`] does, with the key that its request had earlier. Where
    /// memory for that is refused, nothing goes out.
    pub fn ask_again<R: Read, W: Write>(
        &mut self,
        alloc: Global,
        new: New,
        from: &mut Source<R>,
        to: &mut Sink<W>,
    ) -> CallEnd
        requires client { FitsIdentifier new.client }
        requires incarnation { FitsIdentifier new.incarnation }
        ensures ends { EndsCall R.remaining W.contents new self.old.call self.old.asked
            (link from.old to.old) (link from.new to.new) result }
        ensures call { self.new.call ≡ self.old.call }
        ensures asked { self.new.asked ≡ key_asked result self.old.asked }
    {
        let Some(call) = self.copy_of_call(alloc) else {
            return CallEnd::Unheard(Some(LinkFault::NoMemory));
        };
        let end = ask_call(alloc, new, call, self.asked, from, to);
        self.asked = key_after(&end, self.asked);
        end
    }

    // A copy of the call, if there was memory for it. It keeps its limits, as a new one was seen to do.
    fn copy_of_call(&self, alloc: Global) -> Option<Call>
        ensures { IfSome result (λ copy. (copy ≡ self.now.call) × FitsCall copy) }
    {
        let copy = self.call.copy(alloc).ok()?;
        if copy.fits() { Some(copy) } else { None }
    }
}

// The key of a request after this end of its call.
fn key_after(end: &CallEnd, earlier: Option<Key>) -> Option<Key>
    ensures { result ≡ key_asked end.now earlier }
{
    match end {
        CallEnd::Unwelcome(_) | CallEnd::Unheard(_) => earlier,
        CallEnd::Replied(key, _)
        | CallEnd::Refused(key, _)
        | CallEnd::Unsettled(key, _)
        | CallEnd::EpochEnded(key, _)
        | CallEnd::Replaced(key, _)
        | CallEnd::Moved(key, _) => Some(*key),
    }
}
