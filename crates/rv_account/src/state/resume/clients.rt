//! What is kept of a client in a state to resume from.
ghost use Rattle.std.specs.Prelude.{◌≡◌, ◌↔◌, IsTrue};
ghost use Rattle.rv_text.specs.Limits.{IsOfEpoch};
ghost use Rattle.rv_session.specs.declared.client.LastRequest.TheVariants.{Fresh};
ghost use Rattle.rv_account.specs.state.resume.Resuming.{FitsLastRequest, FitsSession};

use crate::state::resume::suits::suits_call;
use rv_session::{ClientState, LastRequest};
use rv_text::{MAX_IDENTIFIER, Reply, Version, fits_identifier};

// Whether the consumer that a reply names, if it names one, is of this epoch.
fn is_of_epoch(epoch: u64, reply: &Reply) -> bool
    ensures { IsTrue result ↔ IsOfEpoch epoch reply.now }
{
    match reply {
        Reply::ReceivedBy(taker) => taker.epoch == epoch,
        _ => true,
    }
}

// Whether the last request of a session of this version is within its limits.
fn fits_last_request(epoch: u64, version: Version, request: &LastRequest) -> bool
    ensures { IsTrue result ↔ FitsLastRequest epoch version request.now }
{
    match request {
        LastRequest::Fresh | LastRequest::CancelledUnseen => true,
        LastRequest::Waits { call, .. } => call.fits(),
        LastRequest::RepliedTo { call, reply } => {
            call.fits()
                && reply.fits()
                && is_of_epoch(epoch, reply)
                && suits_call(version, call, reply)
        }
    }
}

// Whether there is no last request yet.
fn is_fresh(request: &LastRequest) -> bool
    ensures { IsTrue result ↔ (request.now ≡ Fresh) }
{
    matches!(request, LastRequest::Fresh)
}

// Whether a client's session is within its limits.
pub(crate) fn fits_session(epoch: u64, client: u64, session: &ClientState) -> bool
    ensures { IsTrue result ↔ FitsSession epoch client session.now }
{
    fits_identifier(client)
        && fits_identifier(session.incarnation)
        && session.last <= MAX_IDENTIFIER
        && fits_last_request(epoch, session.version, &session.request)
        && (session.last == 0) == is_fresh(&session.request)
}
