//! The connections that wait to hear of a request, found by connection, by the request's client, and by the
//! moment up to which they wait.
ghost use Rattle.rv_server_connections.specs.subscribers.Indexed.{IsCounted};

mod counted;
mod pairs;
mod tables;

use crate::subscribers::counted::Counted;
pub use pairs::Pairs;
use rv_text::NoMemory;
use std::alloc::Global;
pub use tables::{ConnectionNumber, Subscription};

/// The connections that wait for the reply of a request, each up to a moment. Several may wait for one
/// request.
///
/// Contracts see a function from the numbers of connections to what they wait for, if they wait. `is_heard`
/// and `clients_heard` take constant time, on average; each other call takes time logarithmic in the number
/// of those that wait.
#[derive(Drop)]
pub struct Subscribers {
    counted: Counted,
    ghost whole: { IsCounted counted },
}

impl Subscribers {
    ghost use Rattle.std.specs.Prelude.{◌≡◌, ◌+◌, ℕ, None, Some, IfNone, IfSome, OnErr, OnOk};
    ghost use Rattle.std.specs.Prelude.{◌↔◌, IsTrue, if◌then◌else◌, is_ok, is_some};
    ghost use Rattle.rv_server_connections.specs.subscribers.Subscription.{CountsHeard, HasSubscriber};
    ghost use Rattle.rv_server_connections.specs.subscribers.Subscription.{SubscribesTo, IsFirstSubscriber};
    ghost use Rattle.rv_server_connections.specs.subscribers.Subscription.{IsNextUntil, SetsSubscription};
    ghost use Rattle.rv_server_connections.specs.subscribers.Subscription.{nobody};
    ghost use Rattle.rv_server_connections.specs.subscribers.Subscribers.{subscribers_count, subscribers_of};

    /// No connection waits. It takes no memory yet.
    pub fn new(alloc: Global) -> Subscribers
        ensures nobody { subscribers_of result ≡ nobody }
        ensures count { subscribers_count result ≡ 0 }
    {
        Subscribers {
            counted: Counted::empty(alloc),
        }
    }

    /// A connection waits from now on. If memory is refused nothing changes.
    pub fn add(
        &mut self,
        connection: ConnectionNumber,
        subscription: Subscription,
    ) -> Result<(), NoMemory>
        requires { subscribers_of self.old connection ≡ None }
        ensures added { OnOk result (SetsSubscription (subscribers_of self.old) connection (Some subscription)
            (subscribers_of self.new)) }
        ensures refused { OnErr result (subscribers_of self.new ≡ subscribers_of self.old) }
        ensures count { subscribers_count self.new ≡ subscribers_count self.old + (if is_ok result then 1
            else 0) }
    {
        self.counted.add(connection, subscription)
    }

    /// A connection no longer waits. Gives what it waited for, if it waited.
    pub fn remove(&mut self, connection: ConnectionNumber) -> Option<Subscription>
        ensures was { result ≡ subscribers_of self.old connection }
        ensures removed { SetsSubscription (subscribers_of self.old) connection None (subscribers_of
            self.new) }
        ensures count { subscribers_count self.new + (if is_some result then 1 else 0) ≡ subscribers_count
            self.old }
    {
        self.counted.remove(connection)
    }

    /// What a connection waits for, if it waits.
    pub fn get(&self, connection: ConnectionNumber) -> Option<Subscription>
        ensures { result ≡ subscribers_of self.now connection }
    {
        self.counted.tables.get(connection)
    }

    /// The lowest connection that waits for a request of this client.
    pub fn first_of(&self, client: u64) -> Option<ConnectionNumber>
        ensures first { IfSome result (IsFirstSubscriber (subscribers_of self.now) client) }
        ensures none { IfNone result ((connection : ℕ) → ¬ SubscribesTo (subscribers_of self.now) client
            connection) }
    {
        self.counted.tables.first_of(client)
    }

    /// The earliest moment up to which a connection waits, with the lowest connection that waits up to it.
    pub fn next_until(&self) -> Option<(u64, ConnectionNumber)>
        ensures next { IfSome result (λ next. IsNextUntil (subscribers_of self.now) next.0 next.1) }
        ensures none { IfNone result ((connection : ℕ) → subscribers_of self.now connection ≡ None) }
    {
        self.counted.tables.next_until()
    }

    /// Whether some connection waits for a request of the client.
    pub fn is_heard(&self, client: u64) -> bool
        ensures { IsTrue result ↔ HasSubscriber (subscribers_of self.now) client }
    {
        self.counted.is_heard(client)
    }

    /// How many clients have a request for which some connection waits.
    pub fn clients_heard(&self) -> usize
        ensures { CountsHeard (subscribers_of self.now) result }
    {
        self.counted.heard()
    }
}
