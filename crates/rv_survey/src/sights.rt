//! Since when each request has been found with no connection.
ghost use Rattle.std.specs.Prelude.{◌≡◌, ℕ, IsSome, None, OnErr, OnOk, Some, option_map};
ghost use Rattle.rv_survey.specs.Sights.{ChangesOnly, last_sight, sight_after, with_moment};

use rv_status::WaitingRow;
use std::alloc::{AllocError, Global};
use std::collections::BTreeMap;

/// A request that looks found with no connection.
#[derive(Clone, Copy)]
pub struct Sight {
    /// Its client's incarnation.
    pub incarnation: u64,
    /// Its number.
    pub number: u64,
    /// The moment of the first of these looks, in milliseconds since the start.
    pub moment: u64,
}

/// What a look at a client gives.
#[derive(Drop)]
pub struct Look {
    /// The row of its request, with the moment since which every look has found that request so.
    pub row: Option<WaitingRow>,
    /// Whether the look was noted. `AllocError`: memory for that was refused; the next look is a first one.
    pub noted: Result<(), AllocError>,
}

/// For each client, the request that the last look at it found with no connection, if it found one. A look
/// takes time logarithmic in the number of these clients, whatever numbers they have.
#[derive(Drop)]
pub struct Sights {
    sights: BTreeMap<u64, Sight>,
}

impl Sights {
    /// Nobody was looked at yet. It takes no memory.
    pub fn new(alloc: Global) -> Sights
        ensures { (client : ℕ) → last_sight result client ≡ None }
    {
        Sights {
            sights: BTreeMap::new(alloc),
        }
    }

    /// Notes what a look at a client found at a moment: the row of its request, if that waits with no
    /// connection. The moment starts anew where a look in between found it with a connection, and for another
    /// request. Memory is taken only where the last look at the client found nothing; if it is refused, the
    /// row is given all the same, and what is known stays.
    pub fn look(&mut self, client: u64, found: Option<WaitingRow>, now: u64) -> Look
        ensures told { result.row
            ≡ option_map (with_moment (last_sight self.old client) now) found }
        ensures taken_in { OnOk result.noted (last_sight self.new client
            ≡ option_map (sight_after (last_sight self.old client) now) found) }
        ensures refused { OnErr result.noted (last_sight self.new client ≡ None) }
        ensures fresh { OnErr result.noted ((last_sight self.old client ≡ None) × IsSome found) }
        ensures others { ChangesOnly client self.old self.new }
    {
        match found {
            Some(row) => {
                let sight = sight_at(self.last(client), &row, now);
                let noted = self.note(client, sight);
                Look {
                    row: Some(told(row, sight.moment)),
                    noted,
                }
            }
            None => {
                self.forget(client);
                Look {
                    row: None,
                    noted: Ok(()),
                }
            }
        }
    }

    // The last sight of a client.
    fn last(&self, client: u64) -> Option<Sight>
        ensures { result ≡ last_sight self.now client }
    {
        self.sights.get(&client).copied()
    }

    // Notes a sight. If memory for it is refused, what is known stays.
    fn note(&mut self, client: u64, sight: Sight) -> Result<(), AllocError>
        ensures noted { OnOk result (last_sight self.new client ≡ Some sight) }
        ensures refused { OnErr result (last_sight self.new client ≡ None) }
        ensures fresh { OnErr result (last_sight self.old client ≡ None) }
        ensures others { ChangesOnly client self.old self.new }
    {
        match self.sights.insert(client, sight) {
            Ok(_) => Ok(()),
            Err(refused) => Err(AllocError::from(refused)),
        }
    }

    // Forgets the last sight of a client.
    fn forget(&mut self, client: u64)
        ensures forgotten { last_sight self.new client ≡ None }
        ensures others { ChangesOnly client self.old self.new }
    {
        self.sights.remove(&client);
    }
}

// The sight of a request at a moment, after the last one of its client.
fn sight_at(last: Option<Sight>, row: &WaitingRow, now: u64) -> Sight
    ensures { result ≡ sight_after last now row.now }
{
    let moment = match last {
        Some(sight) if sight.incarnation == row.incarnation && sight.number == row.number => {
            sight.moment
        }
        _ => now,
    };
    Sight {
        incarnation: row.incarnation,
        number: row.number,
        moment,
    }
}

// The row with a moment.
fn told(row: WaitingRow, moment: u64) -> WaitingRow
    ensures { result ≡ record row { unheard = Some moment } }
{
    WaitingRow {
        unheard: Some(moment),
        ..row
    }
}
