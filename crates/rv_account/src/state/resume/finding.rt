//! What is found in the parts of a state, which rise.
ghost use Rattle.std.specs.Prelude.{◌↔◌, IsTrue};
ghost use Rattle.rv_session.specs.ClientOrder.{ClientsRise};
ghost use Rattle.rv_account.specs.state.resume.Checking.{IsFoundAt, OpensRise};

use rv_session::{ClientState, OpenPlace, Place};

// Whether the open places rise.
pub(crate) fn opens_rise(opens: &[OpenPlace]) -> bool
    ensures { IsTrue result ↔ OpensRise opens.now }
{
    opens.is_sorted_by(|one, other| one.place < other.place)
}

// Whether the clients rise.
pub(crate) fn clients_rise(clients: &[(u64, ClientState)]) -> bool
    ensures { IsTrue result ↔ ClientsRise clients.now }
{
    clients.is_sorted_by(|one, other| one.0 < other.0)
}

// The index of an open place.
pub(crate) fn open_index(opens: &[OpenPlace], place: Place) -> Option<usize>
    requires { OpensRise opens.now }
    ensures { IsFoundAt (λ o. o.place) opens.now place result }
{
    opens.binary_search_by_key(&place, |there| there.place).ok()
}

// The index of a client.
pub(crate) fn client_index(clients: &[(u64, ClientState)], client: u64) -> Option<usize>
    requires { ClientsRise clients.now }
    ensures { IsFoundAt (λ c. c.0) clients.now client result }
{
    clients.binary_search_by_key(&client, |known| known.0).ok()
}
