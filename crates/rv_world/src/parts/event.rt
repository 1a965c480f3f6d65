//! The events of the world.
ghost use Rattle.std.specs.Prelude.{◌↔◌, IsTrue};
ghost use Rattle.rv_world.specs.parts.Limits.{FitsEvent};

use rv_text::{Call, Version, fits_identifier};

/// One event. The packets of each direction are numbered from 0. Each may be delivered never, once or many
/// times, in any order.
#[derive(Drop)]
pub enum Event {
    /// A client starts in an incarnation, and asks for a version. Its running process, if it has one, ends.
    Start(u64, u64, Version),
    /// A client begins a call.
    Begin(u64, Call),
    /// A client sends its request again.
    Resend(u64),
    /// A client sends the cancel of its request.
    CancelSent(u64),
    /// A client's process ends.
    Crash(u64),
    /// The message of this number comes to the server, at a moment in milliseconds.
    ToServer(usize, u64),
    /// The answer of this number comes to its client.
    ToClient(usize),
    /// A server starts in an epoch.
    NewEpoch(u64),
}

impl Event {
    /// Whether its numbers and its call are within their limits.
    pub fn fits(&self) -> bool
        ensures { IsTrue result ↔ FitsEvent self.now }
    {
        match self {
            Event::Start(client, incarnation, _) => {
                fits_identifier(*client) && fits_identifier(*incarnation)
            }
            Event::Begin(client, call) => fits_identifier(*client) && call.fits(),
            Event::Resend(number)
            | Event::CancelSent(number)
            | Event::Crash(number)
            | Event::NewEpoch(number) => fits_identifier(*number),
            Event::ToServer(..) | Event::ToClient(_) => true,
        }
    }
}
