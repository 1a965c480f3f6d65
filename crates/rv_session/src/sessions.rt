//! The table of sessions: for each client its incarnation, version, last number and what became of that.
ghost use Rattle.std.specs.Prelude.{◌≡◌, ◌<◌, Some, None, IsSome, OnOk, OnErr};
ghost use Rattle.rv_session.specs.Table.{fresh};

use crate::duty::Duty;
use crate::kept::{Kept, Place};
use crate::session::{RequestState, Session};
use crate::standing::{Greeting, Standing};
use indexmap::IndexMap;
use rv_text::{Key, NoMemory, Refusal, Version};
use std::alloc::Global;
use std::marker::Model;

/// The most clients of an epoch.
pub const MAX_CLIENTS: usize = 1_024;

/// The sessions of an epoch, which contracts see as a map from clients to their [`Session`]s. There are
/// at most 1,024.
///
/// Each call but `open` looks a client up in a hash table, once or twice, and searches nothing else: it takes
/// constant time on average.
#[derive(Drop)]
pub struct Sessions {
    epoch: u64,
    // The session of each client.
    sessions: IndexMap<u64, Session>,
}

impl Model for Sessions {
    ghost use Rattle.indexmap.specs.IndexMap.{spare};
    ghost use Rattle.rv_session.specs.Entries.{map_of, IsTable};
    ghost use Rattle.rv_session.specs.Table.{Table, table_code};
    ghost use Rattle.rv_session.specs.contracts.session.Session as session;

    ghost Value = { Table };

    ghost coded = { table_code session.the_row.coded };

    ghost view = { λ s. record {
      epoch = s.epoch;
      sessions = map_of s.sessions.entries;
      room = spare s.sessions;
    } };

    ghost invariant = { λ s. IsTable 1024 s.sessions.entries };
}

impl Sessions {
    ghost use Rattle.std.specs.Prelude.{IsOk, ◌≤◌};
    ghost use Rattle.rv_session.specs.declared.session.RequestState.TheVariants.{Settled, Waits};
    ghost use Rattle.rv_session.specs.declared.kept.Kept.TheVariants.{Cancelled};
    ghost use Rattle.rv_session.specs.declared.standing.Standing.TheVariants.{Next};
    ghost use Rattle.rv_session.specs.Table.{IsOpened, OnlyAdvances, OnlySets, OnlySettles, SameSessions};
    ghost use Rattle.rv_session.specs.Table.{session_of, session_count, version_in, waiting_of};
    ghost use Rattle.rv_session.specs.Meanings.{GreetingMeans, StandingMeans};
    ghost use Rattle.rv_session.specs.Standings.{MayEnter, greeting_of, max_clients, standing_of};

    /// The table of an epoch of any number, with no session. It takes no memory yet.
    pub fn open(alloc: Global, epoch: u64) -> Sessions
        ensures { IsOpened result epoch }
    {
        let sessions = IndexMap::new(alloc);
        Sessions { epoch, sessions }
    }

    // The client's session.
    fn session_of(&self, client: u64) -> Option<Session>
        ensures { result ≡ session_of self.now client }
    {
        self.sessions.get(&client).copied()
    }

    // Replaces the session of a client that has one, and takes no memory.
    fn set(&mut self, client: u64, session: Session)
        requires { IsSome (session_of self.old client) }
        ensures { OnlySets self.old self.new client session }
    {
        *self.sessions.get_mut(&client).unwrap() = session;
    }

    // Gives a client without a session this one, if there is room for it.
    fn add(&mut self, client: u64, session: Session) -> Result<(), NoMemory>
        requires room { session_count self.old < max_clients }
        requires none { session_of self.old client ≡ None }
        ensures ok { OnOk result (OnlySets self.old self.new client session) }
        ensures err { OnErr result (SameSessions self.old self.new) }
        ensures room { 0 < self.old.room → IsOk result }
    {
        self.sessions.insert(client, session)?;
        Ok(())
    }

    // Gives a client this session, if it has one or there is room for it. Only a new client takes memory.
    fn put(&mut self, client: u64, session: Session) -> Result<(), NoMemory>
        requires { session_of self.old client ≡ None → session_count self.old < max_clients }
        ensures ok { OnOk result (OnlySets self.old self.new client session) }
        ensures err { OnErr result (SameSessions self.old self.new) }
        ensures known { IsSome (session_of self.old client) → IsOk result }
        ensures room { 0 < self.old.room → IsOk result }
    {
        match self.session_of(client) {
            Some(_) => {
                self.set(client, session);
                Ok(())
            }
            None => self.add(client, session),
        }
    }

    /// What a client's hello with an incarnation and a version means to the table.
    pub fn greet(&self, client: u64, incarnation: u64, version: Version) -> Greeting
        ensures greeting { result ≡ greeting_of self.now client incarnation version }
        ensures means { GreetingMeans self.now client incarnation version result }
        ensures bounded { session_count self.now ≤ max_clients }
    {
        let has_room = self.sessions.len() < MAX_CLIENTS;
        match self.session_of(client) {
            Some(session) => session.greeting(incarnation, version),
            None if has_room => Greeting::Unknown,
            None => Greeting::Full,
        }
    }

    /// Opens a client's session with this incarnation and version, in which nothing was asked yet. The
    /// client's [`greet`](Sessions::greet) must give `Unknown`, or `Newer` with nothing that waits. For a
    /// client that has a session it takes no memory and succeeds, as it does if there is room for one more.
    /// Otherwise it fails only if memory was refused, and then all sessions stay.
    pub fn enter(&mut self, client: u64, incarnation: u64, version: Version) -> Result<(), NoMemory>
        requires { MayEnter self.old client incarnation version }
        ensures ok { OnOk result (OnlySets self.old self.new client (fresh incarnation version)) }
        ensures err { OnErr result (SameSessions self.old self.new) }
        ensures known { IsSome (session_of self.old client) → IsOk result }
        ensures room { 0 < self.old.room → IsOk result }
    {
        self.put(client, Session::fresh(incarnation, version))
    }

    /// What a key means to the table: why it is refused, what became of its session's last number, or that it
    /// is the next one.
    #[tactic(auto, using(crate::proofs::Meaning::standing_in_means))]
    pub fn look(&self, key: &Key) -> Standing
        ensures standing { result ≡ standing_of self.now key.now }
        ensures means { StandingMeans self.now key.now result }
    {
        if key.epoch != self.epoch {
            return Standing::Refused(Refusal::OtherEpoch(self.epoch));
        }
        match self.session_of(key.client) {
            Some(session) => session.standing(key),
            None => Standing::Refused(Refusal::NoSession),
        }
    }

    // Makes a next number its session's last, of which this stands.
    fn advance(&mut self, key: &Key, state: RequestState)
        requires { standing_of self.old key.now ≡ Next }
        ensures { OnlyAdvances self.old self.new key.now state }
    {
        let session = self.session_of(key.client).unwrap();
        self.set(key.client, Session::of(key, session.version, state));
    }

    /// Makes the next number of a key's session its last. Its request arrived at a place and waits there.
    /// Returns the duty to settle it. The key's [`look`](Sessions::look) must give `Next`.
    pub fn begin(&mut self, key: &Key, place: Place) -> Duty
        requires { standing_of self.old key.now ≡ Next }
        ensures duty { result ≡ record { place = place; client = key.now.client } }
        ensures waits { OnlyAdvances self.old self.new key.now (Waits place) }
    {
        self.advance(key, RequestState::Waits(place));
        Duty::new(place, key.client)
    }

    /// The version of the session that a duty is for. The session must wait at the duty's place.
    pub fn version(&self, duty: &Duty) -> Version
        requires { waiting_of self.now duty.now.client ≡ Some duty.now.place }
        ensures { version_in self.now duty.now.client ≡ Some result }
    {
        self.session_of(duty.client()).unwrap().version
    }

    /// Settles the request that a duty is for: from now on the reply that is kept for it stands. The duty's
    /// session must wait at the duty's place.
    pub fn settle(&mut self, duty: Duty, kept: Kept)
        requires { waiting_of self.old duty.client ≡ Some duty.place }
        ensures { OnlySettles self.old self.new duty.client duty.place kept }
    {
        let (place, client) = duty.spend();
        let session = self.session_of(client).unwrap();
        self.set(client, session.settled(Some(place), kept));
    }

    /// Makes the next number of a key's session its last, and settles it as cancelled: no request arrived
    /// with it. The key's [`look`](Sessions::look) must give `Next`.
    pub fn bury(&mut self, key: &Key)
        requires { standing_of self.old key.now ≡ Next }
        ensures { OnlyAdvances self.old self.new key.now (Settled None Cancelled) }
    {
        let cancelled = RequestState::Settled {
            place: None,
            kept: Kept::Cancelled,
        };
        self.advance(key, cancelled);
    }
}
