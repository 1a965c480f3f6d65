//! Time goes on.
ghost use Rattle.std.specs.Prelude.{◌≡◌, [], vec_len};
ghost use Rattle.rv_hub.specs.dispatcher.Fields.{IsDispatcherReady, IsDispatcherSound, IsSteady};
ghost use Rattle.rv_hub.specs.dispatcher.Fields.{dispatcher_state, dispatcher_terms};
ghost use Rattle.rv_hub.specs.dispatcher.Going.{ElapsesIt, PassesIt, StillGoes};

use crate::dispatcher::Dispatcher;
use rv_machine::TickMade;

impl Dispatcher {
    // All that is due by a moment is ended, in room for the entry of that.
    fn elapse(&mut self, now: u64)
        requires ready { IsDispatcherReady self.old }
        requires room { self.old.entries.items ≡ [] }
        ensures sound { IsDispatcherSound self.new }
        ensures elapses { ElapsesIt self.old now self.new }
        ensures still { StillGoes self.old self.new }
    {
        let TickMade { moment, entry } = self.machine.elapse(now.max(self.latest));
        self.latest = moment;
        match entry {
            Some(entry) => self.entries.push_reserved(entry),
            None => {}
        }
    }

    /// Time goes on to a moment: those whose requests that ends are told, and then those that have waited as
    /// long as they may.
    pub fn pass(&mut self, now: u64)
        requires ready { IsDispatcherReady self.old }
        requires begun { self.old.entries.items ≡ [] }
        ensures steady { IsSteady self.new }
        ensures passes { PassesIt self.old now self.new }
    {
        self.elapse(now);
        self.tell_settled();
        self.tell_overdue();
    }
}
