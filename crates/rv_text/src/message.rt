//! What clients send: hellos, requests with their keys, and cancels.
ghost use Rattle.std.specs.Prelude.{IsTrue, ◌↔◌};
ghost use Rattle.rv_text.specs.Limits.{FitsIdentifier};

use crate::call::Call;
use crate::version::Version;

/// The greatest epoch, client, incarnation and request number: 2^53 - 1.
pub const MAX_IDENTIFIER: u64 = 9_007_199_254_740_991;

/// What names a request. Any numbers make a key; [`Key::fits`] checks that they are within their limits, 1 to
/// 2^53 - 1 each. That no two requests of an epoch have the same key is the book's promise.
#[derive(Clone, Copy, PartialEq, Eq)]
pub struct Key {
    /// The server's epoch.
    pub epoch: u64,
    /// The client's number.
    pub client: u64,
    /// Which of the client's incarnations asks.
    pub incarnation: u64,
    /// The request's number in its session, from 1 on.
    pub number: u64,
}

/// A message from a client.
#[derive(Drop)]
pub enum Message {
    /// Opens a session of this version, and ends the client's session of a lower incarnation, if it has one.
    /// A repeat is welcomed again.
    Hello {
        /// The client that says hello.
        client: u64,
        /// Which incarnation of the client this is: a number greater than all before it.
        incarnation: u64,
        /// The version that the session is to have.
        version: Version,
    },
    /// Asks for a call; the same key with the same call is a repeat.
    Request {
        /// The request's key.
        key: Key,
        /// The call that it asks for.
        call: Call,
    },
    /// Ends the request of this key if it waits. A cancel may also come before its request.
    Cancel {
        /// The key of the request that is to end.
        key: Key,
    },
}

impl Key {
    ghost use Rattle.rv_text.specs.Limits.{FitsKey};

    /// Whether each of the four numbers is 1 to 2^53 - 1.
    pub fn fits(&self) -> bool
        ensures { IsTrue result ↔ FitsKey self.now }
    {
        [self.epoch, self.client, self.incarnation, self.number]
            .iter()
            .all(|number| fits_identifier(*number))
    }
}

impl Message {
    ghost use Rattle.rv_text.specs.Limits.{FitsMessage};

    /// Whether every number and the item are within their limits, and the wait of a swap is not `Now`.
    pub fn fits(&self) -> bool
        ensures { IsTrue result ↔ FitsMessage self.now }
    {
        match self {
            Message::Hello {
                client,
                incarnation,
                ..
            } => { fits_identifier(*client) && fits_identifier(*incarnation) }
            Message::Request { key, call } => key.fits() && call.fits(),
            Message::Cancel { key } => key.fits(),
        }
    }
}

/// Whether an epoch, a client, an incarnation or a number is within its limits: 1 to 2^53 - 1.
pub fn fits_identifier(number: u64) -> bool
    ensures { IsTrue result ↔ FitsIdentifier number }
{
    (1..=MAX_IDENTIFIER).contains(&number)
}
