//! The state of each session: a client's incarnation, its last number, and its request that may wait.
ghost use Rattle.std.specs.Prelude.{◌≡◌, ℕ, None, OnOk};
ghost use Rattle.rv_audit.specs.Sessions.{EntersIf};

use rv_account::Place;
use rv_text::NoMemory;
use std::alloc::{AllocError, Global};
use std::collections::BTreeMap;

// The session of a client.
#[derive(Clone, Copy)]
pub(crate) struct AuditSession {
    pub(crate) incarnation: u64,
    // The greatest number of the incarnation, or 0 where it has none.
    pub(crate) last: u64,
    // The place of its last request, if it had one. That waits if a request is open there.
    pub(crate) request: Option<Place>,
}

// The sessions of all clients that said a hello.
#[derive(Drop)]
pub(crate) struct AuditSessions {
    sessions: BTreeMap<u64, AuditSession>,
}

impl AuditSessions {
    ghost use Rattle.rv_audit.specs.Sessions.{EntersSession, session_in};

    // No client said a hello. It takes no memory yet.
    pub(crate) fn empty(alloc: Global) -> AuditSessions
        ensures { (client : ℕ) → session_in result client ≡ None }
    {
        AuditSessions {
            sessions: BTreeMap::new(alloc),
        }
    }

    // The client's session, if it said a hello.
    pub(crate) fn of(&self, client: u64) -> Option<AuditSession>
        ensures { result ≡ session_in self.now client }
    {
        self.sessions.get(&client).copied()
    }

    // The client's session is this one.
    pub(crate) fn enter(&mut self, client: u64, session: AuditSession) -> Result<(), NoMemory>
        ensures { OnOk result (EntersSession self.old self.new client session) }
    {
        match self.sessions.insert(client, session) {
            Ok(_) => Ok(()),
            Err(refused) => Err(AllocError::from(refused)),
        }
    }
}

// The client's session is this one, if one is given.
pub(crate) fn enter_session(
    sessions: &mut AuditSessions,
    entry: Option<(u64, AuditSession)>,
) -> Result<(), NoMemory>
    ensures { OnOk result (EntersIf sessions.old sessions.new entry) }
{
    match entry {
        Some((client, session)) => sessions.enter(client, session),
        None => Ok(()),
    }
}
