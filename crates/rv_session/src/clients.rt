//! The table of clients: for each its session, its last number, and the texts of its last request.
ghost use Rattle.std.specs.Prelude.{◌≡◌, ◌<◌, ◌≤◌, ◌++◌, ◌∷◌, [], ℕ, Some, None, IfOk, IsSome, OnErr, OnOk};
ghost use Rattle.std.specs.Prelude.{length};
ghost use Rattle.std.specs.FinMap.{entries, get, insert, len};
ghost use Rattle.std.specs.Ordering.{nat_cmp};
ghost use Rattle.std.specs.BTreeMap.Range.{range_contains};
ghost use Rattle.std.specs.declared.ops.Bound.TheVariants.{Unbounded};
ghost use Rattle.rv_session.specs.ClientOrder.{is_above};

use crate::client::{ClientState, LastRequest};
use crate::duty::Duty;
use crate::kept::Place;
use crate::standing::{Greeting, KeyStanding};
use rv_text::{Call, Key, NoMemory, Refusal, Reply, Version};
use std::alloc::Global;
use std::collections::BTreeMap;
use std::marker::Model;
use std::ops::Bound;

/// The clients of an epoch, which contracts see as a map from clients to their [`ClientState`]s, and the most
/// that there can be.
///
/// Only [`admit`](Clients::admit), [`states`](Clients::states) and
/// [`from_states`](crate::ReturnedClients::from_states) take memory, and what a call replaces is freed.
/// `states` and `from_states` read all clients. Each other call takes time at most logarithmic in the number
/// of clients, whatever numbers they have.
#[derive(Drop)]
pub struct Clients {
    epoch: u64,
    // The most clients that there can be.
    most: usize,
    // The state of each client.
    clients: BTreeMap<u64, ClientState>,
}

impl Model for Clients {
    ghost use Rattle.rv_session.specs.Entries.{map_of, IsOrderedTable};
    ghost use Rattle.rv_session.specs.Clients.{ClientStates, clients_code};
    ghost use Rattle.rv_session.specs.contracts.client.ClientState as state;

    ghost Value = { ClientStates };

    ghost coded = { clients_code state.the_row.coded };

    ghost view = { λ c. record {
      epoch = c.epoch;
      most = c.most;
      clients = map_of c.clients.entries;
    } };

    ghost invariant = { λ c. IsOrderedTable c.most c.clients.entries };
}

// Where the numbers above another begin; each is above none.
fn bound_above(after: Option<u64>) -> Bound<u64>
    ensures { (client : ℕ) → range_contains nat_cmp result Unbounded client ≡ is_above after client }
{
    match after {
        Some(client) => Bound::Excluded(client),
        None => Bound::Unbounded,
    }
}

// Adds a client with a copy of its state.
fn push_copy(
    alloc: Global,
    states: &mut Vec<(u64, ClientState)>,
    client: u64,
    state: &ClientState,
) -> Result<(), NoMemory>
    ensures { OnOk result (states.new.items ≡ states.old.items ++ (client, state.now) ∷ []) }
{
    Ok(states.push((client, state.copy(alloc)?))?)
}

impl Clients {
    ghost use Rattle.std.specs.Prelude.{option_map};
    ghost use Rattle.std.specs.FinMap.{empty};
    ghost use Rattle.rv_session.specs.declared.client.LastRequest.TheVariants as requests;
    ghost use Rattle.rv_session.specs.Clients.{clients_asked, fresh_state, clients_told, place_awaited};
    ghost use Rattle.rv_session.specs.Clients.{client_version, with_clients};
    ghost use Rattle.rv_session.specs.ClientStandings.{hello_greeting, key_standing, stands_as};
    ghost use Rattle.rv_session.specs.ClientMeanings.{GreetingSays, StandingSays};
    ghost use Rattle.rv_session.specs.ClientOrder.{ClientsRise, next_client};
    ghost use Rattle.rv_session.specs.Entries.{map_of};

    /// The table of an epoch of any number, with no client, for at most so many clients. It takes no memory
    /// yet.
    pub fn open(alloc: Global, epoch: u64, most: usize) -> Clients
        ensures epoch { result.epoch ≡ epoch }
        ensures most { result.most ≡ most }
        ensures clients { result.clients ≡ empty }
    {
        let clients = BTreeMap::new(alloc);
        Clients {
            epoch,
            most,
            clients,
        }
    }

    // The table of an epoch, for at most so many clients, with these, which must stand in the order of their
    // numbers. It fails only if memory was refused.
    pub(crate) fn from_states(
        alloc: Global,
        epoch: u64,
        most: usize,
        states: Vec<(u64, ClientState)>,
    ) -> Result<Clients, NoMemory>
        requires rise { ClientsRise states.items }
        requires most { length states.items ≤ most }
        ensures { IfOk result
            (λ t. t ≡ record { epoch = epoch; most = most; clients = map_of states.items }) }
    {
        let clients: BTreeMap<u64, ClientState> = states.into_iter().collect(alloc)?;
        Ok(Clients {
            epoch,
            most,
            clients,
        })
    }

    /// The epoch.
    pub fn epoch(&self) -> u64
        ensures { result ≡ self.now.epoch }
    {
        self.epoch
    }

    /// How many clients there are.
    #[tactic(auto, using(crate::proofs::OrderedMap::len_tree))]
    pub fn len(&self) -> usize
        ensures length { result ≡ len self.now.clients }
        ensures bounded { len self.now.clients ≤ self.now.most }
    {
        self.clients.len()
    }

    /// The client's state, if it said hello.
    pub fn get(&self, client: u64) -> Option<&ClientState>
        ensures { option_map (λ c. c.now) result ≡ get self.now.clients client }
    {
        self.clients.get(&client)
    }

    /// The client with the least number above `after`, or with the least of all, and its state. So a caller
    /// can read all clients, in the order of their numbers.
    pub fn next(&self, after: Option<u64>) -> Option<(u64, &ClientState)>
        ensures { option_map (λ p. (p.0, p.1.now)) result ≡ next_client self.now.clients after }
    {
        let numbers = (bound_above(after), Bound::Unbounded);
        let (client, state) = self.clients.range(numbers).next()?;
        Some((*client, state))
    }

    /// A copy of all clients with their states, in the order of their numbers. It fails only if memory was
    /// refused.
    pub fn states(&self, alloc: Global) -> Result<Vec<(u64, ClientState)>, NoMemory>
        ensures states { IfOk result (λ states. states.items ≡ entries self.now.clients) }
        ensures rise { IfOk result (λ states. ClientsRise states.items) }
        ensures same { IfOk result (λ states. map_of states.items ≡ self.now.clients) }
    {
        let mut states = Vec::with_capacity(alloc, self.clients.len())?;
        for (client, state) in &self.clients {
            push_copy(alloc, &mut states, *client, state)?;
        }
        Ok(states)
    }

    /// What a client's hello with an incarnation and a version means to the table.
    pub fn greet(&self, client: u64, incarnation: u64, version: Version) -> Greeting
        ensures greeting { result ≡ hello_greeting self.now client incarnation version }
        ensures means { GreetingSays self.now client incarnation version result }
        ensures bounded { len self.now.clients ≤ self.now.most }
    {
        let has_room = self.len() < self.most;
        match self.get(client) {
            Some(state) => state.greeting(incarnation, version),
            None if has_room => Greeting::Unknown,
            None => Greeting::Full,
        }
    }

    /// What a key means to the table: why it is refused, what became of its session's last number, or that it
    /// is the next one. It copies nothing.
    #[tactic(auto, using(crate::proofs::KeyMeaning::client_standing_says))]
    pub fn look(&self, key: &Key) -> KeyStanding<'_>
        ensures standing { stands_as result ≡ key_standing self.now key.now }
        ensures means { StandingSays self.now key.now (stands_as result) }
    {
        if key.epoch != self.epoch {
            return KeyStanding::Refused(Refusal::OtherEpoch(self.epoch));
        }
        match self.get(key.client) {
            Some(state) => state.standing(key),
            None => KeyStanding::Refused(Refusal::NoSession),
        }
    }

    /// Opens a session with this incarnation and version, in which nothing was asked yet, for a client that
    /// isn't known. There must be fewer clients than there can be. It fails only if memory was refused, and
    /// then nothing changes.
    pub fn admit(&mut self, client: u64, incarnation: u64, version: Version) -> Result<(), NoMemory>
        requires unknown { get self.old.clients client ≡ None }
        requires most { len self.old.clients < self.old.most }
        ensures ok { OnOk result (self.new ≡ with_clients self.old
            (insert self.old.clients client (fresh_state incarnation version))) }
        ensures err { OnErr result (self.new ≡ self.old) }
    {
        self.clients
            .insert(client, ClientState::fresh(incarnation, version))?;
        Ok(())
    }

    /// Opens a session with this incarnation and version, in which nothing was asked yet, for a client that
    /// is known. It replaces the session that the client has. It takes no memory.
    pub fn renew(&mut self, client: u64, incarnation: u64, version: Version)
        requires known { IsSome (get self.old.clients client) }
        ensures { self.new ≡ with_clients self.old
            (insert self.old.clients client (fresh_state incarnation version)) }
    {
        self.clients
            .get_mut(&client)
            .unwrap()
            .replace(ClientState::fresh(incarnation, version));
    }

    // Makes a key's number the last of its client, with what became of its request, and gives the session's
    // version.
    fn advance(&mut self, key: &Key, request: LastRequest) -> Version
        requires { IsSome (get self.old.clients key.now.client) }
        ensures asked { self.new ≡ with_clients self.old (clients_asked self.old.clients key.now request) }
        ensures version { client_version self.old.clients key.now.client ≡ Some result }
    {
        self.clients
            .get_mut(&key.client)
            .unwrap()
            .advance(key.number, request)
    }

    // Gives the last request of a client that is known this reply, if it waits.
    fn tell(&mut self, client: u64, reply: Reply)
        requires { IsSome (get self.old.clients client) }
        ensures { self.new ≡ with_clients self.old (clients_told self.old.clients client reply) }
    {
        self.clients.get_mut(&client).unwrap().answer(reply);
    }

    /// Makes a key's number the last of its client. Its request arrived at a place with this call and waits
    /// there. Returns the duty to settle it, and the version of its session. The client must be known. All
    /// else stays.
    pub fn begin(&mut self, key: &Key, place: Place, call: Call) -> (Duty, Version)
        requires { IsSome (get self.old.clients key.now.client) }
        ensures duty { result.0 ≡ record { place = place; client = key.now.client } }
        ensures version { client_version self.old.clients key.now.client ≡ Some result.1 }
        ensures waits { self.new ≡ with_clients self.old
            (clients_asked self.old.clients key.now (requests.Waits place call)) }
    {
        let version = self.advance(key, LastRequest::Waits { place, call });
        (Duty::new(place, key.client), version)
    }

    /// Settles the request that a duty is for: from now on it has this reply. The duty's client must wait at
    /// the duty's place. All else stays.
    pub fn settle(&mut self, duty: Duty, reply: Reply)
        requires { place_awaited self.old.clients duty.client ≡ Some duty.place }
        ensures { self.new ≡ with_clients self.old (clients_told self.old.clients duty.client reply) }
    {
        let (_, client) = duty.spend();
        self.tell(client, reply);
    }

    /// Makes a key's number the last of its client: it was cancelled before a request came with it. The
    /// client must be known. All else stays.
    pub fn bury(&mut self, key: &Key)
        requires { IsSome (get self.old.clients key.now.client) }
        ensures { self.new ≡ with_clients self.old
            (clients_asked self.old.clients key.now requests.CancelledUnseen) }
    {
        self.advance(key, LastRequest::CancelledUnseen);
    }

    /// Makes a key's number the last of its client. Its request came with this call and was answered at once.
    /// The client must be known. All else stays.
    pub fn conclude(&mut self, key: &Key, call: Call, reply: Reply)
        requires { IsSome (get self.old.clients key.now.client) }
        ensures { self.new ≡ with_clients self.old
            (clients_asked self.old.clients key.now (requests.RepliedTo call reply)) }
    {
        self.advance(key, LastRequest::RepliedTo { call, reply });
    }
}
