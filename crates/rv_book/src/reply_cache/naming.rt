//! What is kept of a reply with its texts, by the place where they stand.
ghost use Rattle.std.specs.Prelude.{◌≡◌};
ghost use Rattle.rv_book.specs.reply_cache.Keeping.{kept_again, kept_from, first_source, source_named};
ghost use Rattle.rv_book.specs.reply_cache.Keeping.{source_of};

use rv_account::{Act, Entry};
use rv_session::{Kept, LastRequest, Place};
use rv_text::Reply;

// What is kept of a reply, of which this place has the text, the texts or the consumer.
fn kept_from(reply: &Reply, place: Place) -> Kept
    ensures { result ≡ kept_from place reply.now }
{
    match reply {
        Reply::Done => Kept::Done,
        Reply::Received => Kept::Received,
        Reply::ReceivedBy(_) => Kept::ReceivedBy(place),
        Reply::Nobody => Kept::Nobody,
        Reply::Item(_) => Kept::Item(place),
        Reply::Empty => Kept::Empty,
        Reply::Swapped(_) => Kept::Swapped(place),
        Reply::Cancelled => Kept::Cancelled,
        Reply::TimedOut => Kept::TimedOut,
        Reply::Counted { items, consumers } => Kept::Counted {
            items: *items as usize,
            consumers: *consumers as usize,
        },
        Reply::Peeked(_) => Kept::Peeked(place),
        Reply::Drained(_) => Kept::Drained(place),
    }
}

/// What is kept of a last request's reply, for a repeat: its text, texts or consumer are at this place.
/// Nothing is kept of a request without a reply.
pub fn kept_again(request: &LastRequest, place: Place) -> Option<Kept>
    ensures { result ≡ kept_again place request.now }
{
    match request {
        LastRequest::Fresh => None,
        LastRequest::Waits { .. } => None,
        LastRequest::RepliedTo { reply, .. } => Some(kept_from(reply, place)),
        LastRequest::CancelledUnseen => Some(Kept::Cancelled),
    }
}

// The first of these places; else the front, or else the place itself.
fn first_source(partners: &[Place], place: Place, front: Option<Place>) -> Place
    ensures { result ≡ first_source place front partners.now }
{
    match partners.first() {
        Some(partner) => *partner,
        None => front.unwrap_or(place),
    }
}

// The place itself for a drain; else the first of those that are named, the front, or the place.
fn source_named(
    drains: Option<u64>,
    partners: &[Place],
    place: Place,
    front: Option<Place>,
) -> Place
    ensures { result ≡ source_named place front partners.now drains }
{
    match drains {
        Some(_) => place,
        None => first_source(partners, place, front),
    }
}

/// Where the text, the texts or the consumer of an entry's own reply stand, by the entry's place and the
/// place of the front item of the queue that it looks at, if it looks at one: at its own place for a drain;
/// else at the first place that it names, or else at that front.
pub fn source(entry: &Entry, place: Place, front: Option<Place>) -> Place
    ensures { result ≡ source_of place front entry.now }
{
    match &entry.act {
        Act::Hello { .. } => place,
        Act::Arrive { key: _, call } => {
            let partners = entry.partners.as_slice();
            source_named(call.drains(), partners, place, front)
        }
        Act::Cancel { .. } => place,
        Act::Tick => place,
    }
}
