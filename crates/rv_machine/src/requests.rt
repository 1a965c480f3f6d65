//! Requests: repeats of the last one, and those of a session's next number, which arrive.
ghost use Rattle.std.specs.Prelude.{◌≡◌, ◌≢◌, ◌↔◌, ◌≤◌, [], None, Ok, IfOk, IfErr, OnErr, IsTrue};
ghost use Rattle.rv_text.specs.declared.message.Message.TheVariants.{Request};
ghost use Rattle.rv_text.specs.declared.answer.Refusal.TheVariants.{NoMemory, OtherCall};
ghost use Rattle.rv_text.specs.Calls.{side_of, wait_of};
ghost use Rattle.rv_text.specs.Limits.{FitsCall};
ghost use Rattle.rv_account.specs.rules.Steps.{max_moment};
ghost use Rattle.rv_session.specs.ClientMeanings.{AsksNext};
ghost use Rattle.rv_model_queues.specs.Meeting.{StaysBy};
ghost use Rattle.rv_machine.specs.Arriving.{Arrives, IsAsBefore, MayArrive};
ghost use Rattle.rv_machine.specs.declared.machine.Said.TheVariants as said;
ghost use Rattle.rv_machine.specs.Machines.{WasHeard, IsWhole, SameListRoom, WasRefused, state_in};
ghost use Rattle.rv_machine.specs.Numbering.{AreNumbered};

use crate::tables::Holdings;
use rv_account::rules::Limits;
use rv_account::{Entry, lasts, need_of};
use rv_session::KeyStanding;
use rv_text::{Call, Key, NoMemory, Refusal, Side};

/// Whether a call that finds nobody stays.
pub(crate) fn stays(call: &Call) -> bool
    ensures { IsTrue result ↔ StaysBy (side_of call.now) (wait_of call.now) }
{
    match call.side() {
        Side::Looks(_) => false,
        _ => call.wait().is_none_or(|wait| lasts(wait)),
    }
}

// No entry for a request of the last number, which came with this call; with another it is refused.
fn repeat(asked: &Call, call: &Call) -> Result<Option<Entry>, Refusal>
    ensures ok { IfOk result (λ made. (made ≡ None) × (asked.now ≡ call.now)) }
    ensures err { IfErr result (λ refusal. (refusal ≡ OtherCall) × (asked.now ≢ call.now)) }
{
    if asked.is_same(call) {
        return Ok(None);
    }
    Err(Refusal::OtherCall)
}

impl Holdings {
    /// A request: it arrives if it has its session's next number. A repeat of the last one makes no entry.
    pub(crate) fn request(
        &mut self,
        limits: &Limits,
        moment: u64,
        key: Key,
        call: Call,
    ) -> Result<Option<Entry>, Refusal>
        requires ready { IsWhole self.old }
        requires numbered { AreNumbered (state_in self.old) }
        requires later { self.old.moment ≤ moment }
        requires time { moment ≤ max_moment }
        requires fits { FitsCall call }
        ensures ready { IsWhole self.new }
        ensures numbered { AreNumbered (state_in self.new) }
        ensures ok { IfOk result (WasHeard limits.now self.old self.new moment (Request key call)
            (said.Told key)) }
        ensures err { IfErr result (WasRefused limits.now self.old self.new moment (Request key call)) }
        ensures none { result ≡ Ok None → SameListRoom self.old self.new }
        ensures refused { IfErr result (λ refusal. refusal ≢ NoMemory → SameListRoom self.old self.new) }
    {
        match self.clients.look(&key) {
            KeyStanding::Refused(refusal) => Err(refusal),
            KeyStanding::Waits(_, asked) => repeat(asked, &call),
            KeyStanding::Replied(asked, _) => repeat(asked, &call),
            KeyStanding::CancelledUnseen => Ok(None),
            KeyStanding::Next => self.arrive(limits, moment, key, call),
        }
    }

    // A request of its session's next number arrives, if there is space for its entries and, where it
    // would stay, for its place.
    fn arrive(
        &mut self,
        limits: &Limits,
        moment: u64,
        key: Key,
        call: Call,
    ) -> Result<Option<Entry>, Refusal>
        requires ready { IsWhole self.old }
        requires numbered { AreNumbered (state_in self.old) }
        requires later { self.old.moment ≤ moment }
        requires time { moment ≤ max_moment }
        requires fits { FitsCall call }
        requires next { AsksNext self.old.clients key }
        ensures ready { IsWhole self.new }
        ensures numbered { AreNumbered (state_in self.new) }
        ensures ok { IfOk result (WasHeard limits.now self.old self.new moment (Request key call)
            (said.Told key)) }
        ensures err { IfErr result (WasRefused limits.now self.old self.new moment (Request key call)) }
        ensures none { result ≡ Ok None → SameListRoom self.old self.new }
        ensures refused { IfErr result (λ refusal. refusal ≢ NoMemory → SameListRoom self.old self.new) }
    {
        if self.is_full(limits, need_of(&call)) || self.lacks_place(limits, &call) {
            return Err(Refusal::EpochFull);
        }
        match self.join(moment, key, call) {
            Ok(entry) => Ok(Some(entry)),
            Err(_) => Err(Refusal::NoMemory),
        }
    }

    // It meets those that it can meet; if there is nobody, it stays or leaves. Fails only if memory was
    // refused, and then the state stays.
    fn join(&mut self, moment: u64, key: Key, call: Call) -> Result<Entry, NoMemory>
        requires may { MayArrive self.old moment key call }
        ensures ready { IsWhole self.new }
        ensures ok { IfOk result (Arrives self.old self.new moment key call) }
        ensures err { OnErr result (IsAsBefore self.old self.new) }
    {
        if let Some(max) = call.drains() {
            return self.drain(moment, key, call, max);
        }
        if self.table.opposed(call.side()) > 0 {
            return self.meet(moment, key, call);
        }
        if stays(&call) {
            return self.stay(moment, key, call);
        }
        self.leave(moment, key, call)
    }
}
