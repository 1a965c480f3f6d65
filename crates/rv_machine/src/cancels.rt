//! Cancels: of a request that waits, and of one that did not come yet.
ghost use Rattle.std.specs.Prelude.{◌≤◌, [], ◌∷◌, IfOk, IfErr, option_to_list};
ghost use Rattle.rv_text.specs.declared.message.Message.TheVariants.{Cancel};
ghost use Rattle.rv_account.specs.rules.StepLimits.{StepLimits};
ghost use Rattle.rv_account.specs.rules.Steps.{max_moment};
ghost use Rattle.rv_session.specs.ClientMeanings.{AsksNext};
ghost use Rattle.rv_machine.specs.declared.machine.Said.TheVariants as said;
ghost use Rattle.rv_machine.specs.Entering.{LastWaits};
ghost use Rattle.rv_machine.specs.Machines.{WasHeard, IsWhole, SameListRoom, MovesBy, WasRefused, state_in};
ghost use Rattle.rv_machine.specs.Numbering.{AreNumbered};

use crate::tables::Holdings;
use rv_account::rules::Limits;
use rv_account::{Act, Entry, Partners};
use rv_session::{KeyStanding, Place};
use rv_text::{Key, Refusal, Reply};

impl Holdings {
    /// A cancel: it ends what waits, repeats the reply of what is settled, and settles what did not come yet.
    pub(crate) fn cancel(
        &mut self,
        limits: &Limits,
        moment: u64,
        key: Key,
    ) -> Result<Option<Entry>, Refusal>
        requires ready { IsWhole self.old }
        requires numbered { AreNumbered (state_in self.old) }
        requires time { moment ≤ max_moment }
        ensures ready { IsWhole self.new }
        ensures numbered { AreNumbered (state_in self.new) }
        ensures ok { IfOk result (WasHeard limits.now self.old self.new moment (Cancel key) (said.Told key)) }
        ensures err { IfErr result (WasRefused limits.now self.old self.new moment (Cancel key)) }
        ensures room { SameListRoom self.old self.new }
    {
        match self.clients.look(&key) {
            KeyStanding::Refused(refusal) => Err(refusal),
            KeyStanding::Waits(place, _) => Ok(Some(self.end_wait(moment, key, place))),
            KeyStanding::Replied(..) => Ok(None),
            KeyStanding::CancelledUnseen => Ok(None),
            KeyStanding::Next => self.bury(limits, moment, key),
        }
    }

    // Cancels the request that waits at a place. There is always space for that.
    fn end_wait(&mut self, moment: u64, key: Key, place: Place) -> Entry
        requires ready { IsWhole self.old }
        requires numbered { AreNumbered (state_in self.old) }
        requires time { moment ≤ max_moment }
        requires waits { LastWaits self.old key place }
        ensures ready { IsWhole self.new }
        ensures numbered { AreNumbered (state_in self.new) }
        ensures moves { (limits : StepLimits)
            → MovesBy limits self.old self.new moment (Cancel key) (result ∷ []) (said.Told key) }
        ensures room { SameListRoom self.old self.new }
    {
        self.end(place, Reply::Cancelled);
        let partners = Partners::none(self.allocator());
        self.record(moment, Act::Cancel { key }, partners)
    }

    // Cancels a request before it comes: its session's next number is the last, and cancelled.
    fn bury(&mut self, limits: &Limits, moment: u64, key: Key) -> Result<Option<Entry>, Refusal>
        requires ready { IsWhole self.old }
        requires numbered { AreNumbered (state_in self.old) }
        requires time { moment ≤ max_moment }
        requires next { AsksNext self.old.clients key }
        ensures ready { IsWhole self.new }
        ensures numbered { AreNumbered (state_in self.new) }
        ensures ok { IfOk result (WasHeard limits.now self.old self.new moment (Cancel key) (said.Told key)) }
        ensures err { IfErr result (WasRefused limits.now self.old self.new moment (Cancel key)) }
        ensures room { SameListRoom self.old self.new }
    {
        if self.is_full(limits, 1) {
            return Err(Refusal::EpochFull);
        }
        self.clients.bury(&key);
        let partners = Partners::none(self.allocator());
        Ok(Some(self.record(moment, Act::Cancel { key }, partners)))
    }
}
