//! What an epoch keeps of a client: its session, its last number, and what became of that request.
ghost use Rattle.std.specs.Prelude.{◌≡◌, IfOk};

use crate::kept::Place;
use crate::standing::{Greeting, KeyStanding};
use rv_text::{Call, Key, NoMemory, Refusal, Reply, Version};
use std::alloc::Global;
use std::mem;

/// What became of the last request of a session.
#[derive(Drop)]
pub enum LastRequest {
    /// There is none yet.
    Fresh,
    /// It waits at this place, with this call.
    Waits { place: Place, call: Call },
    /// It came with this call and has this reply. The call stays, since a request of that number with another
    /// call is refused.
    RepliedTo { call: Call, reply: Reply },
    /// It was cancelled before it came, so its call isn't known.
    CancelledUnseen,
}

/// A client's session, as the state of an account has it.
#[derive(Drop)]
pub struct ClientState {
    /// The incarnation of the client's last hello.
    pub incarnation: u64,
    /// The version of that hello.
    pub version: Version,
    /// The last number; 0 before the first.
    pub last: u64,
    /// What became of the request with that number.
    pub request: LastRequest,
}

impl LastRequest {
    ghost use Rattle.rv_session.specs.Clients.{answered, place_waiting};
    ghost use Rattle.rv_session.specs.ClientStandings.{last_standing, stands_as};

    // Where the request waits, if it does.
    fn waiting(&self) -> Option<Place>
        ensures { result ≡ place_waiting self.now }
    {
        match self {
            LastRequest::Fresh => None,
            LastRequest::Waits { place, .. } => Some(*place),
            LastRequest::RepliedTo { .. } => None,
            LastRequest::CancelledUnseen => None,
        }
    }

    // The same request with this reply, if it waited.
    fn answered(self, reply: Reply) -> LastRequest
        ensures { result ≡ answered reply self }
    {
        match self {
            LastRequest::Waits { call, .. } => LastRequest::RepliedTo { call, reply },
            request => request,
        }
    }

    // A copy. Fails only if memory for its texts was refused.
    fn copy(&self, alloc: Global) -> Result<LastRequest, NoMemory>
        ensures { IfOk result (λ request. request ≡ self.now) }
    {
        match self {
            LastRequest::Fresh => Ok(LastRequest::Fresh),
            LastRequest::Waits { place, call } => Ok(LastRequest::Waits {
                place: *place,
                call: call.copy(alloc)?,
            }),
            LastRequest::RepliedTo { call, reply } => Ok(LastRequest::RepliedTo {
                call: call.copy(alloc)?,
                reply: reply.copy(alloc)?,
            }),
            LastRequest::CancelledUnseen => Ok(LastRequest::CancelledUnseen),
        }
    }

    // What stands of the last number. No request has the number 0 of a fresh session.
    fn standing(&self, last: u64) -> KeyStanding<'_>
        ensures { stands_as result ≡ last_standing last self.now }
    {
        match self {
            LastRequest::Fresh => KeyStanding::Refused(Refusal::OldNumber(last)),
            LastRequest::Waits { place, call } => KeyStanding::Waits(*place, call),
            LastRequest::RepliedTo { call, reply } => KeyStanding::Replied(call, reply),
            LastRequest::CancelledUnseen => KeyStanding::CancelledUnseen,
        }
    }
}

impl ClientState {
    ghost use Rattle.rv_session.specs.Clients.{answered, fresh_state, place_waiting};
    ghost use Rattle.rv_session.specs.Clients.{with_last_number, with_request};
    ghost use Rattle.rv_session.specs.ClientStandings.{client_greeting, client_standing, stands_as};

    // A session in which nothing was asked yet.
    pub(crate) fn fresh(incarnation: u64, version: Version) -> ClientState
        ensures { result ≡ fresh_state incarnation version }
    {
        ClientState {
            incarnation,
            version,
            last: 0,
            request: LastRequest::Fresh,
        }
    }

    // A copy. Fails only if memory for its texts was refused.
    pub(crate) fn copy(&self, alloc: Global) -> Result<ClientState, NoMemory>
        ensures { IfOk result (λ state. state ≡ self.now) }
    {
        Ok(ClientState {
            incarnation: self.incarnation,
            version: self.version,
            last: self.last,
            request: self.request.copy(alloc)?,
        })
    }

    // Replaces the state.
    pub(crate) fn replace(&mut self, state: ClientState)
        ensures { self.new ≡ state }
    {
        *self = state;
    }

    // Makes a number the last, says what became of its request, and gives the session's version.
    pub(crate) fn advance(&mut self, number: u64, request: LastRequest) -> Version
        ensures asked { self.new ≡ with_last_number self.old number request }
        ensures version { result ≡ self.old.version }
    {
        self.last = number;
        self.request = request;
        self.version
    }

    // Gives the last request this reply, if it waits.
    pub(crate) fn answer(&mut self, reply: Reply)
        ensures { self.new ≡ with_request self.old (answered reply self.old.request) }
    {
        let request = mem::replace(&mut self.request, LastRequest::Fresh);
        self.request = request.answered(reply);
    }

    // Where the last request waits, if it does.
    pub(crate) fn waiting(&self) -> Option<Place>
        ensures { result ≡ place_waiting self.now.request }
    {
        self.request.waiting()
    }

    // What a hello of an incarnation and a version is to the state.
    pub(crate) fn greeting(&self, incarnation: u64, version: Version) -> Greeting
        ensures { result ≡ client_greeting self.now incarnation version }
    {
        if incarnation < self.incarnation {
            return Greeting::Older(self.incarnation);
        }
        if incarnation > self.incarnation {
            return Greeting::Newer {
                waiting: self.request.waiting(),
            };
        }
        if version != self.version {
            return Greeting::OtherVersion(self.version);
        }
        Greeting::Again
    }

    // What stands of a key of the client.
    pub(crate) fn standing(&self, key: &Key) -> KeyStanding<'_>
        ensures { stands_as result ≡ client_standing self.now key.now }
    {
        if self.incarnation < key.incarnation {
            return KeyStanding::Refused(Refusal::NoSession);
        }
        if key.incarnation < self.incarnation {
            return KeyStanding::Refused(Refusal::OldIncarnation(self.incarnation));
        }
        if key.number < self.last {
            return KeyStanding::Refused(Refusal::OldNumber(self.last));
        }
        if key.number == self.last {
            return self.request.standing(self.last);
        }
        if self.request.waiting().is_some() {
            return KeyStanding::Refused(Refusal::Busy(self.last));
        }
        if key.number - self.last > 1 {
            return KeyStanding::Refused(Refusal::Gap(self.last));
        }
        KeyStanding::Next
    }
}
