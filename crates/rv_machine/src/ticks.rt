//! Time-outs: all that is due is ended, by one tick.
ghost use Rattle.std.specs.Prelude.{◌≡◌, ◌≤◌, [], true, false, option_to_list};
ghost use Rattle.rv_account.specs.rules.Steps.{max_moment};
ghost use Rattle.rv_machine.specs.Machines.{IsWhole, SameListRoom, state_in};
ghost use Rattle.rv_machine.specs.Numbering.{AreNumbered};
ghost use Rattle.rv_machine.specs.open_places.OpenMap.{due_in};
ghost use Rattle.rv_machine.specs.Ticking.{EndsFirst, EndsNext, TimesOut};

use crate::tables::Holdings;
use rv_account::{Act, Entry, Partners};
use rv_text::Reply;

impl Holdings {
    /// Ends all that is due at a moment, by one tick, and gives its entry if something was due.
    pub(crate) fn time_out(&mut self, moment: u64) -> Option<Entry>
        requires ready { IsWhole self.old }
        requires numbered { AreNumbered (state_in self.old) }
        requires time { moment ≤ max_moment }
        ensures ready { IsWhole self.new }
        ensures numbered { AreNumbered (state_in self.new) }
        ensures ticks { TimesOut self.old self.new moment (option_to_list result) }
        ensures room { SameListRoom self.old self.new }
    {
        if !self.end_next(moment) {
            return None;
        }
        self.end_due(moment);
        let partners = Partners::none(self.allocator());
        Some(self.record(moment, Act::Tick, partners))
    }

    // Ends all that is due at a moment, one a pass, the least limit first.
    fn end_due(&mut self, moment: u64)
        requires ready { IsWhole self.old }
        requires numbered { AreNumbered (state_in self.old) }
        ensures ready { IsWhole self.new }
        ensures numbered { AreNumbered (state_in self.new) }
        ensures ends { EndsFirst self.old self.new moment }
        ensures room { SameListRoom self.old self.new }
        ensures none_due { due_in self.new.table moment ≡ [] }
    {
        while self.end_next(moment) {}
    }

    // Ends the wait whose limit comes first, if it is due at a moment, and tells whether one was.
    fn end_next(&mut self, moment: u64) -> bool
        requires ready { IsWhole self.old }
        requires numbered { AreNumbered (state_in self.old) }
        ensures ready { IsWhole self.new }
        ensures numbered { AreNumbered (state_in self.new) }
        ensures one { result ≡ true → EndsNext self.old self.new moment }
        ensures none { result ≡ false → due_in self.old.table moment ≡ [] }
        ensures stays { result ≡ false → self.new ≡ self.old }
        ensures room { SameListRoom self.old self.new }
    {
        match self.table.close_due(moment) {
            Some((there, duty)) => {
                self.settled.push_reserved(there.waiter.unwrap().key);
                self.clients.settle(duty, Reply::TimedOut);
                true
            }
            None => false,
        }
    }
}
