//! The effects of an entry that breaks no rule: what it opens, and its client's session.
ghost use Rattle.std.specs.Prelude.{◌≡◌, ◌&&◌, is_some, option_map};
ghost use Rattle.rv_text.specs.Calls.{side_of, wait_of};
ghost use Rattle.rv_account.specs.Calls.{limit_of, opposite};
ghost use Rattle.rv_account.specs.state.After.{lasts_by};
ghost use Rattle.rv_audit.specs.Passed.{fitting, opening_by, opening_of_call, session_after};

use crate::opens::AuditOpen;
use crate::sessions::{AuditSession, AuditSessions};
use rv_account::{Act, Entry, Place};
use rv_text::{Call, Key, Side, Wait};

// The limit of a call that arrives at a moment, if it has one that fits a moment.
fn limit_of(moment: u64, call: &Call) -> Option<u64>
    ensures { result ≡ fitting (limit_of moment call.now) }
{
    match call.wait() {
        Some(Wait::Millis(millis)) => moment.checked_add(millis),
        Some(Wait::Now | Wait::Forever) | None => None,
    }
}

// Whether a wait goes on past the moment of arrival. A call that has no wait stays.
fn lasts(wait: Option<Wait>) -> bool
    ensures { result ≡ lasts_by wait }
{
    match wait {
        Some(Wait::Now) => false,
        Some(Wait::Millis(millis)) => millis > 0,
        Some(Wait::Forever) | None => true,
    }
}

// The side whose arrivals one of this side meets.
pub(crate) fn opposite(side: Side) -> Option<Side>
    ensures { result ≡ opposite side }
{
    match side {
        Side::Gives(queue) => Some(Side::Takes(queue)),
        Side::Takes(queue) => Some(Side::Gives(queue)),
        Side::Looks(_) => None,
        Side::Exchanges(exchanger) => Some(Side::Exchanges(exchanger)),
    }
}

// Whether a call stays if it meets nobody.
fn stays(call: &Call) -> bool
    ensures { result ≡ (is_some (opposite (side_of call.now)) && lasts_by (wait_of call.now)) }
{
    opposite(call.side()).is_some() && lasts(call.wait())
}

// The client whose request waits if this call stays, if the call waits at all.
fn waiting_client(key: &Key, call: &Call) -> Option<u64>
    ensures { result ≡ option_map (λ wait. key.now.client) (wait_of call.now) }
{
    match call.wait() {
        Some(_) => Some(key.client),
        None => None,
    }
}

// What an arrival at a moment opens, if it names nobody.
fn opening_at(moment: u64, key: &Key, call: &Call) -> Option<AuditOpen>
    ensures { result ≡ opening_of_call moment key.now call.now }
{
    if stays(call) {
        Some(AuditOpen {
            side: call.side(),
            limit: limit_of(moment, call),
            client: waiting_client(key, call),
        })
    } else {
        None
    }
}

// What an entry opens, if it does.
pub(crate) fn opening(entry: &Entry) -> Option<AuditOpen>
    ensures { result ≡ opening_by entry.now }
{
    if !entry.partners.as_slice().is_empty() {
        return None;
    }
    match &entry.act {
        Act::Arrive { key, call } => opening_at(entry.moment, key, call),
        Act::Hello { .. } | Act::Cancel { .. } | Act::Tick => None,
    }
}

// The session that an act at a place gives its client, if it changes that.
pub(crate) fn session_after(
    sessions: &AuditSessions,
    act: &Act,
    place: Place,
) -> Option<(u64, AuditSession)>
    ensures { result ≡ session_after sessions.now act.now place }
{
    match act {
        Act::Hello {
            client,
            incarnation,
            ..
        } => Some((
            *client,
            AuditSession {
                incarnation: *incarnation,
                last: 0,
                request: None,
            },
        )),
        Act::Arrive { key, .. } => Some((
            key.client,
            AuditSession {
                incarnation: key.incarnation,
                last: key.number,
                request: Some(place),
            },
        )),
        Act::Cancel { key } => {
            let session = sessions.of(key.client)?;
            Some((
                key.client,
                AuditSession {
                    incarnation: session.incarnation,
                    last: key.number,
                    request: session.request,
                },
            ))
        }
        Act::Tick => None,
    }
}
