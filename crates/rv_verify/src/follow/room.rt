//! Whether the state after an entry that follows has room, checked before anything is done.
ghost use Rattle.std.specs.Prelude.{◌≡◌, ◌↔◌, ◌⊎◌, ◌<◌, ◌≤◌, [], ℕ, IfNone, IfSome};
ghost use Rattle.std.specs.Prelude.{IsTrue, None, Some, length};
ghost use Rattle.std.specs.Prelude.{true, false};
ghost use Rattle.std.specs.FinMap.{len};
ghost use Rattle.rv_text.specs.Limits.{FitsCall};
ghost use Rattle.rv_text.specs.declared.version.Version.{Version};
ghost use Rattle.rv_account.specs.declared.entry.Act.TheVariants.{Arrive, Cancel, Hello};
ghost use Rattle.rv_account.specs.Account.{Among};
ghost use Rattle.rv_account.specs.Limits.{FitsEntry, max_moment};
ghost use Rattle.rv_machine.specs.Machines.{state_in};
ghost use Rattle.rv_account.specs.state.resume.Resuming.{CanResume, StaysInRoom};
ghost use Rattle.rv_account.specs.state.After.{following, met_by, state_after, stays_open};
ghost use Rattle.rv_account.specs.state.Follows.{FollowsState};
ghost use Rattle.rv_account.specs.state.State.{client_at, place_list};
ghost use Rattle.rv_verify.specs.follow.state_rules.Rooming.{AwaitsNothing, HasAwaiting, HasSpace};
ghost use Rattle.rv_verify.specs.follow.state_rules.Rooming.{IsWaitedFor};
ghost use Rattle.rv_verify.specs.follow.state_rules.Rooming.{IsUnawaited};
ghost use Rattle.rv_verify.specs.follow.state_rules.Walking.{HoldsOfAll};

use crate::follow::state_rules::{is_waiting, opposite};
use rv_account::{Act, Entry, Place, lasts, need_of};
use rv_machine::Machine;
use rv_text::{Call, Key};

// The most entries, with those that may end what waits: 2^53 - 1.
const MOST_ENTRIES: usize = 9_007_199_254_740_991;

// The most clients.
const MOST_CLIENTS: usize = 100_000;

// The most open places.
const MOST_OPEN_PLACES: usize = 100_000;

// Whether there is space for so many more entries.
fn has_space(machine: &Machine, need: usize) -> bool
    requires resumes { CanResume (state_in machine.now) }
    requires small { need ≤ 2 }
    ensures { IsTrue result ↔ HasSpace (state_in machine.now) need }
{
    machine.length() + machine.waiting() + need <= MOST_ENTRIES
}

// Whether a request of the client waits.
fn awaits(machine: &Machine, client: u64) -> bool
    ensures yes { result ≡ true → HasAwaiting (state_in machine.now) client }
    ensures no { result ≡ false → AwaitsNothing (state_in machine.now) client }
{
    match machine.client(client) {
        Some(session) => is_waiting(&session.request),
        None => false,
    }
}

// Whether the client is known, or there is room for one more.
fn has_client(machine: &Machine, client: u64) -> bool
    ensures { IsTrue result ↔ (client_at (state_in machine.now) client ≡ None
        → len (state_in machine.now).clients < 100000) }
{
    match machine.client(client) {
        Some(_) => true,
        None => machine.clients() < MOST_CLIENTS,
    }
}

// The first of these places at which a request waits.
fn first_awaited(machine: &Machine, places: &[Place]) -> Option<Place>
    ensures some { IfSome result (λ p. Among places.now p × IsWaitedFor (state_in machine.now) p) }
    ensures none { IfNone result (HoldsOfAll (IsUnawaited (state_in machine.now)) places.now) }
{
    for place in places {
        if is_awaited(machine, *place) {
            return Some(*place);
        }
    }
    None
}

// Whether a request waits at a place.
fn is_awaited(machine: &Machine, place: Place) -> bool
    ensures yes { result ≡ true → IsWaitedFor (state_in machine.now) place }
    ensures no { result ≡ false → IsUnawaited (state_in machine.now) place }
{
    match machine.open_at(place) {
        Some(there) => there.waiter.is_some(),
        None => false,
    }
}

// Whether an arrival with this call stays, if it meets nobody.
fn stays(call: &Call) -> bool
    ensures { result ≡ stays_open call.now [] }
{
    match opposite(call.side()) {
        Some(_) => match call.wait() {
            Some(wait) => lasts(wait),
            None => true,
        },
        None => false,
    }
}

// Whether there is space for one entry more, or one that waits of the client makes place for it.
fn has_place(machine: &Machine, client: u64) -> bool
    requires { CanResume (state_in machine.now) }
    ensures yes { result ≡ true
        → HasSpace (state_in machine.now) 1 ⊎ HasAwaiting (state_in machine.now) client }
    ensures space { result ≡ false → ¬ HasSpace (state_in machine.now) 1 }
    ensures idle { result ≡ false → AwaitsNothing (state_in machine.now) client }
{
    if has_space(machine, 1) {
        return true;
    }
    awaits(machine, client)
}

// Whether a hello leaves room.
fn hello_fits(machine: &Machine, client: u64) -> bool
    requires { CanResume (state_in machine.now) }
    ensures { (moment incarnation : ℕ) (version : Version) → moment ≤ max_moment → IsTrue result
        ↔ StaysInRoom (following (state_in machine.now) moment (Hello client incarnation version)).after }
{
    if !has_place(machine, client) {
        return false;
    }
    has_client(machine, client)
}

// Whether a cancel does.
fn cancel_fits(machine: &Machine, key: &Key) -> bool
    requires { CanResume (state_in machine.now) }
    ensures { (moment : ℕ) → moment ≤ max_moment → IsTrue result
        ↔ StaysInRoom (following (state_in machine.now) moment (Cancel key.now)).after }
{
    has_place(machine, key.client)
}

// Whether the state after an arrival that meets nobody has room.
fn alone_fits(machine: &Machine, key: &Key, call: &Call) -> bool
    requires resumes { CanResume (state_in machine.now) }
    requires alone { met_by (state_in machine.now) call.now ≡ [] }
    ensures { (moment : ℕ) → moment ≤ max_moment → IsTrue result
        ↔ StaysInRoom (following (state_in machine.now) moment (Arrive key.now call.now)).after }
{
    if !has_space(machine, need_of(call)) {
        return false;
    }
    if stays(call) {
        return machine.open_places() < MOST_OPEN_PLACES;
    }
    true
}

// Whether an arrival that meets these does.
fn meeting_fits(machine: &Machine, key: &Key, call: &Call, partners: &[Place]) -> bool
    requires resumes { CanResume (state_in machine.now) }
    requires met { place_list (met_by (state_in machine.now) call.now) ≡ partners.now }
    requires some { 0 < length partners.now }
    ensures { (moment : ℕ) → moment ≤ max_moment → IsTrue result
        ↔ StaysInRoom (following (state_in machine.now) moment (Arrive key.now call.now)).after }
{
    if has_space(machine, 1) {
        return true;
    }
    match first_awaited(machine, partners) {
        Some(_) => true,
        None => false,
    }
}

/// Whether the state after an entry that follows has room.
pub(crate) fn has_room(machine: &Machine, entry: &Entry) -> bool
    requires resumes { CanResume (state_in machine.now) }
    requires fits { FitsEntry entry.now }
    requires follows { FollowsState (state_in machine.now) entry.now }
    ensures { IsTrue result ↔ StaysInRoom (state_after (state_in machine.now) entry.now) }
{
    let partners = entry.partners.as_slice();
    match &entry.act {
        Act::Tick => true,
        Act::Hello { client, .. } => hello_fits(machine, *client),
        Act::Cancel { key } => cancel_fits(machine, key),
        Act::Arrive { key, call } => {
            if partners.is_empty() {
                alone_fits(machine, key, call)
            } else {
                meeting_fits(machine, key, call, partners)
            }
        }
    }
}
