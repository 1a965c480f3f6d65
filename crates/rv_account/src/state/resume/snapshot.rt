//! A state in memory, to resume from.
ghost use Rattle.std.specs.Prelude.{◌≡◌, ◌↔◌, IfNone, IfSome, IsTrue};
ghost use Rattle.rv_session.specs.ClientOrder.{ClientsRise};
ghost use Rattle.rv_account.specs.state.resume.Checking.{PassesAll, state_by};
ghost use Rattle.rv_account.specs.state.resume.Resuming.{CanResume};

use crate::state::resume::finding::{clients_rise, opens_rise};
use crate::state::resume::parts::{all_settled, all_stand, has_room_in};
use crate::state::resume::sides::{exchangers_are_calm, queues_are_calm};
use rv_session::{ClientState, OpenPlace};
use rv_text::fits_identifier;
use std::marker::Model;

// Whether these parts have all that is asked of them.
fn passes_all(
    epoch: u64,
    moment: u64,
    length: u64,
    opens: &[OpenPlace],
    clients: &[(u64, ClientState)],
) -> bool
    requires { ClientsRise clients.now }
    ensures { IsTrue result ↔ PassesAll epoch moment length opens.now clients.now }
{
    has_room_in(moment, length, opens, clients)
        && fits_identifier(epoch)
        && opens_rise(opens)
        && all_stand(epoch, moment, length, clients, opens)
        && all_settled(epoch, opens, clients)
        && queues_are_calm(opens)
        && exchangers_are_calm(opens)
}

// Whether a machine can resume from the state of these parts.
fn parts_resume(
    epoch: u64,
    moment: u64,
    length: u64,
    opens: &[OpenPlace],
    clients: &[(u64, ClientState)],
) -> bool
    requires { ClientsRise clients.now }
    ensures { IsTrue result ↔ CanResume (state_by epoch moment length opens.now clients.now) }
{
    passes_all(epoch, moment, length, opens, clients)
}

/// A state, which contracts see as that: the epoch, the last moment, how many entries there are, what
/// is open, and the clients in the order of their numbers.
#[derive(Drop)]
pub struct Snapshot {
    epoch: u64,
    moment: u64,
    length: u64,
    open_places: Vec<OpenPlace>,
    clients: Vec<(u64, ClientState)>,
}

impl Model for Snapshot {
    ghost use Rattle.rv_account.specs.state.State.{State};
    ghost use Rattle.rv_session.specs.ClientOrder.{ClientsRise};
    ghost use Rattle.rv_account.specs.state.resume.Checking.{state_by, state_code};
    ghost use Rattle.rv_session.specs.contracts.open.OpenPlace as opened;
    ghost use Rattle.rv_session.specs.contracts.client.ClientState as known;

    ghost Value = { State };

    ghost coded = { state_code opened.the_row.coded known.the_row.coded };

    ghost view = { λ s. state_by s.epoch s.moment s.length s.open_places.items s.clients.items };

    ghost invariant = { λ s. ClientsRise s.clients.items };
}

impl Snapshot {
    /// The state with these parts; none exactly if the clients aren't in the order of their numbers, each
    /// once.
    pub fn from_parts(
        epoch: u64,
        moment: u64,
        length: u64,
        open_places: Vec<OpenPlace>,
        clients: Vec<(u64, ClientState)>,
    ) -> Option<Snapshot>
        ensures some { IfSome result (λ s. s ≡ state_by epoch moment length open_places.items clients.items) }
        ensures none { IfNone result (ClientsRise clients.items → ⊥) }
    {
        if !clients_rise(&clients) {
            return None;
        }
        Some(Snapshot {
            epoch,
            moment,
            length,
            open_places,
            clients,
        })
    }

    /// Its parts: the epoch, the last moment, how many entries there are, what is open, and the clients in
    /// the order of their numbers.
    pub fn into_parts(self) -> (u64, u64, u64, Vec<OpenPlace>, Vec<(u64, ClientState)>)
        ensures parts { self ≡ state_by result.0 result.1 result.2 result.3.items result.4.items }
        ensures clients { ClientsRise result.4.items }
    {
        (
            self.epoch,
            self.moment,
            self.length,
            self.open_places,
            self.clients,
        )
    }

    /// Whether a machine can resume from it.
    ///
    /// It takes no memory. Its time is linear in the numbers of open places and clients, apart from a binary
    /// search for each in the other list.
    pub fn can_resume(&self) -> bool
        ensures { IsTrue result ↔ CanResume self.now }
    {
        let (opens, clients) = (&self.open_places, &self.clients);
        parts_resume(self.epoch, self.moment, self.length, opens, clients)
    }
}
