//! The tables in which an audit keeps the entries that it has read so far.
ghost use Rattle.std.specs.Prelude.{◌≡◌, ◌↔◌, ◌∷◌, [], ℕ};
ghost use Rattle.std.specs.Prelude.{option_and_then, length, IfNone, IfSome, IsTrue, OnOk};
ghost use Rattle.rv_audit.specs.Words.{ClientWaitsAt, ClosesEach, ClosesGone, Flags, HasPassed};
ghost use Rattle.rv_audit.specs.Words.{HasWaiting, Hello, IsFront, IsNoFreePlace, IsNotNext};
ghost use Rattle.rv_audit.specs.Words.{IsOfSessionOf, IsOldestOpposite, IsReadyFor, MayFollow, MayPass};
ghost use Rattle.rv_audit.specs.Words.{OpenAt, SameRest, SetsFlags, SideAt, Side, SomethingDue};
ghost use Rattle.rv_audit.specs.Words.{StartsNoNewer, Version, WaitsUnder, client_waits, just_open};
ghost use Rattle.rv_audit.specs.Words.{own_moment, passed_account, passed_state, place_list};
ghost use Rattle.rv_audit.specs.Words.{session_in};

use crate::brings::{opening, opposite, session_after};
use crate::opens::Opens;
use crate::sessions::{AuditSessions, enter_session};
use rv_account::{Account, Act, Entry, Place};
use rv_text::{Call, Key, NoMemory, Side};
use std::alloc::{AllocError, Global};

/// The entries that an audit has passed so far: a legal account.
#[derive(Drop)]
pub struct Front<'a> {
    account: &'a Account,
    // The moment of the last entry, or the opening moment.
    moment: u64,
    // Whether the entry at each place was named as a partner or names one.
    taken: Vec<bool>,
    opens: Opens,
    sessions: AuditSessions,
}

// Sets the flag of a place, if it has one.
fn set_flag(taken: &mut Vec<bool>, place: Place)
    ensures { SetsFlags taken.old.items taken.new.items (place ∷ []) }
{
    if place < taken.len() {
        taken[place] = true;
    }
}

// Sets the flags of these places.
fn set_flags(taken: &mut Vec<bool>, places: &[Place])
    ensures { SetsFlags taken.old.items taken.new.items places.now }
{
    for place in places {
        set_flag(taken, *place);
    }
}

// Flags the partners, and the entry that names them, if there are any.
fn flag(taken: &mut Vec<bool>, partners: &[Place]) -> Result<(), NoMemory>
    ensures { OnOk result (Flags taken.old.items taken.new.items partners.now) }
{
    set_flags(taken, partners);
    taken.push(!partners.is_empty()).map_err(AllocError::from)
}

impl<'a> Front<'a> {
    /// A front that has passed no entry. It takes no memory yet.
    pub fn empty(alloc: Global, account: &'a Account) -> Front<'a>
        ensures account { result.account.now ≡ account.now }
        ensures front { IsFront result }
    {
        Front {
            account,
            moment: account.opened(),
            taken: Vec::new(alloc),
            opens: Opens::empty(alloc),
            sessions: AuditSessions::empty(alloc),
        }
    }

    /// How many entries were passed.
    pub fn len(&self) -> usize
        ensures { result ≡ length self.now.taken.items }
    {
        self.taken.len()
    }

    // The moment of the last entry, or the opening moment.
    pub(crate) fn moment(&self) -> u64
        requires { IsFront self.now }
        ensures { result ≡ own_moment (passed_account self.now) }
    {
        self.moment
    }

    // Whether a waiting request has a limit at or below the moment.
    pub(crate) fn has_due(&self, moment: u64) -> bool
        requires { IsFront self.now }
        ensures { IsTrue result ↔ SomethingDue (passed_account self.now).entries moment }
    {
        self.opens.due(moment).is_some()
    }

    // Whether no entry was passed at the place, or it was named as a partner or names one.
    pub(crate) fn is_taken(&self, place: Place) -> bool
        requires { IsFront self.now }
        ensures { IsTrue result ↔ IsNoFreePlace (passed_account self.now).entries place }
    {
        match self.taken.get(place) {
            Some(taken) => *taken,
            None => true,
        }
    }

    // Whether an open arrival of the side stands at the place.
    pub(crate) fn is_open(&self, side: Side, place: Place) -> bool
        requires { IsFront self.now }
        ensures { IsTrue result ↔ OpenAt (passed_account self.now).entries side place }
    {
        self.opens.has(side, place)
    }

    // Where the last request of the client arrived, if it had one.
    fn request(&self, client: u64) -> Option<Place>
        ensures { result ≡ option_and_then (λ s. s.request) (session_in self.now.sessions client) }
    {
        self.sessions.of(client)?.request
    }

    // Where the request of the client waits, if one does.
    pub(crate) fn waiting(&self, client: u64) -> Option<Place>
        requires { IsFront self.now }
        ensures some { IfSome result (ClientWaitsAt (passed_account self.now).entries client) }
        ensures none { IfNone result (¬ HasWaiting (passed_account self.now).entries client) }
    {
        let place = self.request(client)?;
        (self.opens.client(place) == Some(client)).then_some(place)
    }

    // Whether the client said a hello of this incarnation or a greater one.
    pub(crate) fn reaches(&self, client: u64, incarnation: u64) -> bool
        requires { IsFront self.now }
        ensures { (version : Version) → IsTrue result
            ↔ StartsNoNewer (passed_account self.now).entries (Hello client incarnation version) }
    {
        match self.sessions.of(client) {
            Some(session) => incarnation <= session.incarnation,
            None => false,
        }
    }

    // Whether the key has the account's epoch and its client's incarnation.
    pub(crate) fn has_session(&self, key: &Key) -> bool
        requires { IsFront self.now }
        ensures { IsTrue result ↔ IsOfSessionOf (passed_account self.now) key.now }
    {
        match self.sessions.of(key.client) {
            Some(session) => key.epoch == self.account.epoch()
                && key.incarnation == session.incarnation,
            None => false,
        }
    }

    // Whether the key's number isn't its session's last plus one.
    pub(crate) fn is_not_next(&self, key: &Key) -> bool
        requires front { IsFront self.now }
        requires session { IsOfSessionOf (passed_account self.now) key.now }
        ensures { IsTrue result ↔ IsNotNext (passed_account self.now).entries key.now }
    {
        match self.sessions.of(key.client) {
            Some(session) => key.number <= session.last || key.number - session.last != 1,
            None => false,
        }
    }

    // Whether the key isn't that of the request which waits in its session.
    pub(crate) fn waits_otherwise(&self, key: &Key) -> bool
        requires front { IsFront self.now }
        requires session { IsOfSessionOf (passed_account self.now) key.now }
        requires waits { HasWaiting (passed_account self.now).entries key.now.client }
        ensures { IsTrue result ↔ (¬ WaitsUnder (passed_account self.now).entries key.now) }
    {
        match self.sessions.of(key.client) {
            Some(session) => key.number != session.last,
            None => false,
        }
    }

    // The oldest that is open, none of these, and one that the call might meet.
    pub(crate) fn oldest_opposite(&self, call: &Call, places: &[Place]) -> Option<Place>
        requires { IsFront self.now }
        ensures { IsOldestOpposite (passed_account self.now).entries call.now places.now result }
    {
        self.opens.oldest_beside(opposite(call.side())?, places)
    }

    // Closes the place at which the request of the client waits, if one does.
    fn close_waiting(&mut self, client: u64)
        requires { IsFront self.old }
        ensures rest { SameRest self.old self.new }
        ensures closes { ClosesEach self.old.opens self.new.opens
            (place_list (just_open (client_waits (passed_state self.old) client))) }
    {
        if let Some(place) = self.waiting(client) {
            self.opens.close(place);
        }
    }

    // Closes what an entry names or stops.
    fn close_gone(&mut self, entry: &Entry)
        requires front { IsFront self.old }
        requires follows { MayFollow (passed_account self.old) entry.now }
        ensures rest { SameRest self.old self.new }
        ensures closes { ClosesGone self.old self.new entry.now }
    {
        match &entry.act {
            Act::Tick => self.opens.close_due(entry.moment),
            Act::Arrive { .. } => self.opens.close_each(entry.partners.as_slice()),
            Act::Hello { client, .. } => self.close_waiting(*client),
            Act::Cancel { key } => self.close_waiting(key.client),
        }
    }

    // Records what an entry brings. It alone may want memory.
    fn join(&mut self, entry: &Entry) -> Result<(), NoMemory>
        requires { IsReadyFor self.old entry.now }
        ensures { OnOk result (HasPassed self.old self.new) }
    {
        let place = self.taken.len();
        flag(&mut self.taken, entry.partners.as_slice())?;
        self.opens.open_if(place, opening(entry))?;
        let session = session_after(&self.sessions, &entry.act, place);
        enter_session(&mut self.sessions, session)?;
        self.moment = entry.moment;
        Ok(())
    }

    /// Passes the next entry, which breaks no rule. If memory is refused, the front is of no further use.
    pub fn pass(&mut self, entry: &Entry) -> Result<(), NoMemory>
        requires front { IsFront self.old }
        requires may { MayPass self.old entry.now }
        ensures { OnOk result (HasPassed self.old self.new) }
    {
        self.close_gone(entry);
        self.join(entry)
    }
}
