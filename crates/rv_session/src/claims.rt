//! Clients that came back from their states: each duty that they are owed is made once.
ghost use Rattle.std.specs.Prelude.{◌≡◌, ◌≤◌, IfOk, None, length, option_map};
ghost use Rattle.std.specs.Option.{option_or};
ghost use Rattle.rv_session.specs.ClientOrder.{ClientsRise, is_above};
ghost use Rattle.rv_session.specs.Claims.{place_unclaimed};
ghost use Rattle.rv_session.specs.Entries.{map_of};

use crate::client::ClientState;
use crate::clients::Clients;
use crate::duty::Duty;
use crate::kept::Place;
use rv_text::NoMemory;
use std::alloc::Global;
use std::marker::Model;

/// The clients of an epoch that came back from their states, with none of their duties made yet. Contracts
/// see the table.
#[derive(Drop)]
pub struct ReturnedClients {
    clients: Clients,
}

impl Model for ReturnedClients {
    ghost use Rattle.rv_session.specs.Clients.{ClientStates, clients_code};
    ghost use Rattle.rv_session.specs.contracts.client.ClientState as state;

    ghost Value = { ClientStates };

    ghost coded = { clients_code state.the_row.coded };

    ghost view = { λ r. r.clients };
}

/// The same clients while the duties that they are owed are made, in the order of the places at which their
/// requests wait. So each is made at most once: once a duty is made, none at its place or at one before is
/// made again.
#[derive(Drop)]
pub struct Claims {
    clients: Clients,
    // The place of the last duty that was made.
    last: Option<Place>,
}

impl Model for Claims {
    ghost use Rattle.rv_session.specs.Claims.{Claiming, claiming_code};
    ghost use Rattle.rv_session.specs.contracts.client.ClientState as state;

    ghost Value = { Claiming };

    ghost coded = { claiming_code state.the_row.coded };

    ghost view = { λ c. record { table = c.clients; last = c.last } };
}

// Whether a place is above another; each is above none.
fn is_behind(place: Place, last: Option<Place>) -> bool
    ensures { result ≡ is_above last place }
{
    match last {
        Some(other) => other < place,
        None => true,
    }
}

impl ReturnedClients {
    /// The table of an epoch, for at most so many clients, with these, which must stand in the order of their
    /// numbers. It fails only if memory was refused.
    pub fn from_states(
        alloc: Global,
        epoch: u64,
        most: usize,
        states: Vec<(u64, ClientState)>,
    ) -> Result<ReturnedClients, NoMemory>
        requires rise { ClientsRise states.items }
        requires most { length states.items ≤ most }
        ensures { IfOk result
            (λ t. t ≡ record { epoch = epoch; most = most; clients = map_of states.items }) }
    {
        let clients = Clients::from_states(alloc, epoch, most, states)?;
        Ok(ReturnedClients { clients })
    }

    /// From now on their duties are made.
    pub fn claims(self) -> Claims
        ensures { result ≡ record { table = self; last = None } }
    {
        let ReturnedClients { clients } = self;
        Claims {
            clients,
            last: None,
        }
    }
}

impl Claims {
    // Where the client's request waits, if its duty can still be made.
    fn unclaimed(&self, client: u64) -> Option<Place>
        ensures { result ≡ place_unclaimed self.now client }
    {
        let place = self.clients.get(client)?.waiting()?;
        if is_behind(place, self.last) {
            Some(place)
        } else {
            None
        }
    }

    /// The duty to settle the client's request, if it waits at a place above that of each duty that was made
    /// before. Nothing else changes.
    pub fn claim(&mut self, client: u64) -> Option<Duty>
        ensures duty { result ≡ option_map (λ place. record { place = place; client = client })
            (place_unclaimed self.old client) }
        ensures last { self.new.last ≡ option_or (place_unclaimed self.old client) self.old.last }
        ensures table { self.new.table ≡ self.old.table }
    {
        match self.unclaimed(client) {
            Some(place) => {
                self.last = Some(place);
                Some(Duty::new(place, client))
            }
            None => None,
        }
    }

    /// The table. It makes no more of the duties that were owed, only those of later requests.
    pub fn done(self) -> Clients
        ensures { result ≡ self.table }
    {
        let Claims { clients, last: _ } = self;
        clients
    }
}
