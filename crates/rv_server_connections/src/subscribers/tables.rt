//! The tables by which a connection that waits is found.
ghost use Rattle.std.specs.Prelude.{◌≡◌, ◌+◌, ◌<◌, ◌^◌, ℕ, None, Some, false, true, IfNone, IfSome};
ghost use Rattle.std.specs.Prelude.{OnErr, OnOk, if◌then◌else◌, is_ok, is_some};
ghost use Rattle.std.specs.BTreeMap.{IsOrdered, btree_map_len};
ghost use Rattle.std.specs.Ordering.{nat_cmp};
ghost use Rattle.rv_server_connections.specs.subscribers.Subscription.{SubscribesTo, IsFirstSubscriber};
ghost use Rattle.rv_server_connections.specs.subscribers.Subscription.{IsNextUntil, SetsSubscription, nobody};
ghost use Rattle.rv_server_connections.specs.subscribers.Indexed.{IsIndexed, SameTables, StandsAs, who_hears};
ghost use Rattle.rv_server_connections.specs.subscribers.Pairs.{stands_under};

use crate::subscribers::pairs::Pairs;
use rv_text::{Key, NoMemory};
use std::alloc::Global;
use std::collections::BTreeMap;

/// The number of a connection.
pub type ConnectionNumber = usize;

/// A connection's wait for the reply of a request.
#[derive(Clone, Copy)]
pub struct Subscription {
    /// The request's key.
    pub key: Key,
    /// The moment, in milliseconds, up to which it waits.
    pub until: u64,
}

// The waits of connections, and where they are found by their client and by their moment.
#[derive(Drop)]
pub(crate) struct Tables {
    pub(crate) subscriptions: BTreeMap<ConnectionNumber, Subscription>,
    pub(crate) clients: Pairs,
    pub(crate) moments: Pairs,
}

impl Tables {
    pub(crate) fn empty(alloc: Global) -> Tables
        ensures indexed { IsIndexed result }
        ensures nobody { who_hears result ≡ nobody }
        ensures count { btree_map_len result.subscriptions ≡ 0 }
    {
        Tables {
            subscriptions: BTreeMap::new(alloc),
            clients: Pairs::empty(alloc),
            moments: Pairs::empty(alloc),
        }
    }

    // A connection stands under its client and its moment from now on. If memory is refused it stands under
    // neither.
    fn enter(
        &mut self,
        connection: ConnectionNumber,
        subscription: &Subscription,
    ) -> Result<(), NoMemory>
        requires { stands_under self.old.clients subscription.now.key.client connection ≡ false }
        ensures subscriptions { self.new.subscriptions ≡ self.old.subscriptions }
        ensures entered { OnOk result (StandsAs true self.old connection subscription.now self.new) }
        ensures refused { OnErr result (SameTables self.old self.new) }
    {
        self.clients.add(subscription.key.client, connection)?;
        if let Err(refused) = self.moments.add(subscription.until, connection) {
            self.clients.remove(subscription.key.client, connection);
            return Err(refused);
        }
        Ok(())
    }

    // A connection stands under its client and its moment no longer.
    fn leave(&mut self, connection: ConnectionNumber, subscription: &Subscription)
        ensures subscriptions { self.new.subscriptions ≡ self.old.subscriptions }
        ensures left { StandsAs false self.old connection subscription.now self.new }
    {
        self.clients.remove(subscription.key.client, connection);
        self.moments.remove(subscription.until, connection);
    }

    pub(crate) fn add(
        &mut self,
        connection: ConnectionNumber,
        subscription: Subscription,
    ) -> Result<(), NoMemory>
        requires indexed { IsIndexed self.old }
        requires free { who_hears self.old connection ≡ None }
        ensures indexed { IsIndexed self.new }
        ensures added { OnOk result (SetsSubscription (who_hears self.old) connection (Some subscription)
            (who_hears self.new)) }
        ensures refused { OnErr result (who_hears self.new ≡ who_hears self.old) }
        ensures count { btree_map_len self.new.subscriptions
            ≡ btree_map_len self.old.subscriptions + (if is_ok result then 1 else 0) }
    {
        self.enter(connection, &subscription)?;
        if let Err(refused) = self.subscriptions.insert(connection, subscription) {
            self.leave(connection, &subscription);
            return Err(refused.into());
        }
        Ok(())
    }

    pub(crate) fn remove(&mut self, connection: ConnectionNumber) -> Option<Subscription>
        requires { IsIndexed self.old }
        ensures indexed { IsIndexed self.new }
        ensures was { result ≡ who_hears self.old connection }
        ensures removed { SetsSubscription (who_hears self.old) connection None (who_hears self.new) }
        ensures count { btree_map_len self.new.subscriptions + (if is_some result then 1 else 0)
            ≡ btree_map_len self.old.subscriptions }
    {
        let subscription = self.subscriptions.remove(&connection)?;
        self.leave(connection, &subscription);
        Some(subscription)
    }

    // How many connections wait.
    pub(crate) fn count(&self) -> usize
        ensures count { result ≡ btree_map_len self.now.subscriptions }
        ensures small { result < 2 ^ 63 }
        ensures ordered { IsOrdered nat_cmp self.now.subscriptions }
    {
        self.subscriptions.len()
    }

    pub(crate) fn get(&self, connection: ConnectionNumber) -> Option<Subscription>
        ensures { result ≡ who_hears self.now connection }
    {
        self.subscriptions.get(&connection).copied()
    }

    pub(crate) fn first_of(&self, client: u64) -> Option<ConnectionNumber>
        requires { IsIndexed self.now }
        ensures first { IfSome result (IsFirstSubscriber (who_hears self.now) client) }
        ensures none { IfNone result ((connection : ℕ) → ¬ SubscribesTo (who_hears self.now) client
            connection) }
    {
        self.clients.lowest(client)
    }

    pub(crate) fn next_until(&self) -> Option<(u64, ConnectionNumber)>
        requires { IsIndexed self.now }
        ensures next { IfSome result (λ next. IsNextUntil (who_hears self.now) next.0 next.1) }
        ensures none { IfNone result ((connection : ℕ) → who_hears self.now connection ≡ None) }
    {
        self.moments.least()
    }
}
