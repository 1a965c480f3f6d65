//! The tables, and the clients for whose requests some connection waits.
ghost use Rattle.std.specs.Prelude.{◌≡◌, ◌+◌, ◌↔◌, IsTrue, None, Some, OnErr, OnOk, if◌then◌else◌, is_ok};
ghost use Rattle.std.specs.Prelude.{is_some};
ghost use Rattle.std.specs.BTreeMap.{btree_map_len};
ghost use Rattle.rv_server_connections.specs.subscribers.Subscription.{CountsHeard, HasSubscriber};
ghost use Rattle.rv_server_connections.specs.subscribers.Subscription.{SetsSubscription, nobody};
ghost use Rattle.rv_server_connections.specs.subscribers.Indexed.{IsCounted, who_hears};

use crate::subscribers::tables::{ConnectionNumber, Subscription, Tables};
use indexmap::IndexSet;
use rv_text::NoMemory;
use std::alloc::Global;

// The waits of connections, and the clients for whose requests they wait, which are looked up by their hash.
#[derive(Drop)]
pub(crate) struct Counted {
    pub(crate) tables: Tables,
    pub(crate) heard: IndexSet<u64>,
}

impl Counted {
    pub(crate) fn empty(alloc: Global) -> Counted
        ensures counted { IsCounted result }
        ensures nobody { who_hears result.tables ≡ nobody }
        ensures count { btree_map_len result.tables.subscriptions ≡ 0 }
    {
        Counted {
            tables: Tables::empty(alloc),
            heard: IndexSet::new(alloc),
        }
    }

    pub(crate) fn add(
        &mut self,
        connection: ConnectionNumber,
        subscription: Subscription,
    ) -> Result<(), NoMemory>
        requires counted { IsCounted self.old }
        requires free { who_hears self.old.tables connection ≡ None }
        ensures counted { IsCounted self.new }
        ensures added { OnOk result (SetsSubscription (who_hears self.old.tables) connection
            (Some subscription)
            (who_hears self.new.tables)) }
        ensures refused { OnErr result (who_hears self.new.tables ≡ who_hears self.old.tables) }
        ensures count { btree_map_len self.new.tables.subscriptions
            ≡ btree_map_len self.old.tables.subscriptions + (if is_ok result then 1 else 0) }
    {
        self.heard.reserve(1)?;
        self.tables.add(connection, subscription)?;
        self.heard.insert(subscription.key.client).unwrap();
        Ok(())
    }

    pub(crate) fn remove(&mut self, connection: ConnectionNumber) -> Option<Subscription>
        requires { IsCounted self.old }
        ensures counted { IsCounted self.new }
        ensures was { result ≡ who_hears self.old.tables connection }
        ensures removed { SetsSubscription (who_hears self.old.tables) connection None
            (who_hears self.new.tables) }
        ensures count { btree_map_len self.new.tables.subscriptions + (if is_some result then 1 else 0)
            ≡ btree_map_len self.old.tables.subscriptions }
    {
        let subscription = self.tables.remove(connection)?;
        if self.tables.first_of(subscription.key.client).is_some() {
            return Some(subscription);
        }
        self.heard.swap_remove(&subscription.key.client);
        Some(subscription)
    }

    // Whether some connection waits for a request of the client.
    pub(crate) fn is_heard(&self, client: u64) -> bool
        requires { IsCounted self.now }
        ensures { IsTrue result ↔ HasSubscriber (who_hears self.now.tables) client }
    {
        self.heard.contains(&client)
    }

    // How many clients have a request for which some connection waits.
    pub(crate) fn heard(&self) -> usize
        requires { IsCounted self.now }
        ensures { CountsHeard (who_hears self.now.tables) result }
    {
        self.heard.len()
    }
}
