//! Laws of a hub that is a server that crashes and goes on: each function is its contract, over the
//! definitions alone.
ghost use Rattle.rv_store.specs.servers.Laws.{HubsAreServers, HubsBegin, HubsGoOn, LacksMemory};
ghost use Rattle.rv_store.specs.servers.Laws.{SentMayLeave};
ghost use Rattle.rv_store.specs.servers.Room.{EffectsKeepRoom, EventsKeepRoom, FrontsGoOn};

/// A hub's account had room after each of its entries, and still has it after those that its effects add. So
/// a machine can be made of whatever a crash leaves of it.
pub fn accounts_go_on()
    ensures effects { EffectsKeepRoom }
    ensures events { EventsKeepRoom }
    ensures fronts { FrontsGoOn }
{}

/// The events of a hub are effects of a server that crashes and goes on: steps under its limits, time alone,
/// and entries that are stored. Each answer that a connection was given is held back for the sender of its
/// frame's message, with the number of entries that it rests on. The answer that memory was refused may be
/// held back too, for any message.
pub fn hubs_are_servers()
    ensures events { HubsAreServers }
    ensures lacks { LacksMemory }
{
    crate::servers::crashes::laws::effects_keep_servers();
}

/// No byte of an answer leaves before the server may send that answer.
pub fn sent_may_leave()
    ensures { SentMayLeave }
{}

/// A new hub is such a server in an epoch in which nothing happened, and so is one that goes on, after a
/// crash, from all that the crash left.
pub fn hubs_go_on()
    ensures begins { HubsBegin }
    ensures goes_on { HubsGoOn }
{
    crate::servers::crashes::laws::servers_begin();
    crate::servers::crashes::laws::effects_keep_servers();
}
