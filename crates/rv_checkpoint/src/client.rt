//! The line of a client's session.
ghost use Rattle.std.specs.Prelude.{◌≡◌, ℕ, None, Err, IfOk, IfSome, string_bytes};
ghost use Rattle.rv_checkpoint.specs.Saying.{BeginsFresh, SaysAsking, SaysFresh, SaysReplied};
ghost use Rattle.rv_checkpoint.specs.Saying.{SaysUnseen, session_by};
ghost use Rattle.rv_checkpoint.specs.Written.{asking_text, client_text, fresh_text, replied_text};
ghost use Rattle.rv_checkpoint.specs.Written.{unseen_text};
ghost use Rattle.rv_session.specs.declared.client.ClientState as sessions;

use crate::field::{cut_number, cut_texts, cut_version, read_cancel, read_reply, read_request};
use rv_book::lines::LineFault;
use rv_session::{ClientState, LastRequest, Place};
use rv_text::{
    Call, Key, Message, NoMemory, Reply, Version, decode_call, decode_message, encode_call,
    encode_message, encode_reply_in, encode_request,
};
use std::alloc::Global;

// The session of a key's client whose last request has this key.
fn session_of(key: Key, version: Version, request: LastRequest) -> (u64, ClientState)
    ensures client { result.0 ≡ key.client }
    ensures session { result.1 ≡ session_by key version request }
{
    let session = ClientState {
        incarnation: key.incarnation,
        version,
        last: key.number,
        request,
    };
    (key.client, session)
}

// The client of a message that is a hello, and the session that it begins.
fn fresh_by(message: Message) -> Option<(u64, ClientState)>
    ensures some { IfSome result (λ p. BeginsFresh message p.0 p.1) }
    ensures none { result ≡ None → (client : ℕ) (session : sessions.ClientState)
        → ¬ BeginsFresh message client session }
{
    match message {
        Message::Hello {
            client,
            incarnation,
            version,
        } => Some((
            client,
            ClientState {
                incarnation,
                version,
                last: 0,
                request: LastRequest::Fresh,
            },
        )),
        Message::Request { .. } => None,
        Message::Cancel { .. } => None,
    }
}

// A session in which nothing was asked, by its hello.
pub(crate) fn read_fresh(alloc: Global, body: &[u8]) -> Result<(u64, ClientState), LineFault>
    ensures reads { IfOk result (λ p. SaysFresh body.now p.0 p.1) }
    ensures bad { result ≡ Err LineFault.Bad → (client : ℕ) (session : sessions.ClientState)
        → ¬ SaysFresh body.now client session }
{
    let message = decode_message(alloc, body)?;
    fresh_by(message).ok_or(LineFault::Bad)
}

// One whose last request waits, by its version, the place and the request.
pub(crate) fn read_asking(
    alloc: Global,
    epoch: u64,
    fields: &[u8],
) -> Result<(u64, ClientState), LineFault>
    ensures reads { IfOk result (λ p. SaysAsking epoch fields.now p.0 p.1) }
    ensures bad { result ≡ Err LineFault.Bad → (client : ℕ) (session : sessions.ClientState)
        → ¬ SaysAsking epoch fields.now client session }
{
    let (version, fields) = cut_version(fields).ok_or(LineFault::Bad)?;
    let (place, body) = cut_number(fields).ok_or(LineFault::Bad)?;
    let (key, call) = read_request(alloc, epoch, body)?;
    let place = place as usize;
    Ok(session_of(key, version, LastRequest::Waits { place, call }))
}

// One whose last request has its reply: by its version, the length of the call's text, that text, and the
// reply.
pub(crate) fn read_replied(
    alloc: Global,
    epoch: u64,
    fields: &[u8],
) -> Result<(u64, ClientState), LineFault>
    ensures reads { IfOk result (λ p. SaysReplied epoch fields.now p.0 p.1) }
    ensures bad { result ≡ Err LineFault.Bad → (client : ℕ) (session : sessions.ClientState)
        → ¬ SaysReplied epoch fields.now client session }
{
    let (version, fields) = cut_version(fields).ok_or(LineFault::Bad)?;
    let (text, body) = cut_texts(fields).ok_or(LineFault::Bad)?;
    let call = decode_call(alloc, text)?;
    let (key, reply) = read_reply(alloc, epoch, body)?;
    Ok(session_of(key, version, LastRequest::RepliedTo { call, reply }))
}

// One whose last request was cancelled before it came, by its version and the cancel.
pub(crate) fn read_unseen(
    alloc: Global,
    epoch: u64,
    fields: &[u8],
) -> Result<(u64, ClientState), LineFault>
    ensures reads { IfOk result (λ p. SaysUnseen epoch fields.now p.0 p.1) }
    ensures bad { result ≡ Err LineFault.Bad → (client : ℕ) (session : sessions.ClientState)
        → ¬ SaysUnseen epoch fields.now client session }
{
    let (version, body) = cut_version(fields).ok_or(LineFault::Bad)?;
    let key = read_cancel(alloc, epoch, body)?;
    Ok(session_of(key, version, LastRequest::CancelledUnseen))
}

// The line of a session in which nothing was asked.
fn fresh_line(
    alloc: Global,
    client: u64,
    incarnation: u64,
    version: Version,
) -> Result<String, NoMemory>
    ensures { IfOk result (λ s. string_bytes s ≡ fresh_text client incarnation version) }
{
    let hello = Message::Hello {
        client,
        incarnation,
        version,
    };
    let body = encode_message(alloc, &hello)?;
    format!(in alloc; "fresh {body}")
}

// The line of one whose last request waits.
fn asking_line(
    alloc: Global,
    version: Version,
    place: Place,
    key: &Key,
    call: &Call,
) -> Result<String, NoMemory>
    ensures { IfOk result (λ s. string_bytes s ≡ asking_text version place key.now call.now) }
{
    let body = encode_request(alloc, key, call)?;
    let version = version.number();
    format!(in alloc; "asks {version} {place} {body}")
}

// The line of one whose last request has its reply.
fn replied_line(
    alloc: Global,
    version: Version,
    key: &Key,
    call: &Call,
    reply: &Reply,
) -> Result<String, NoMemory>
    ensures { IfOk result (λ s. string_bytes s ≡ replied_text version key.now call.now reply.now) }
{
    let text = encode_call(alloc, call)?;
    let body = encode_reply_in(Vec::new(alloc), key, reply)?;
    let version = version.number();
    let length = text.len();
    format!(in alloc; "replied {version} {length} {text}{body}")
}

// The line of one whose last request was cancelled before it came.
fn unseen_line(alloc: Global, version: Version, key: &Key) -> Result<String, NoMemory>
    ensures { IfOk result (λ s. string_bytes s ≡ unseen_text version key.now) }
{
    let body = encode_message(alloc, &Message::Cancel { key: *key })?;
    let version = version.number();
    format!(in alloc; "unseen {version} {body}")
}

/// The line of a client's session in this epoch, with no LF. It says what became of its last request: `fresh`
/// and the hello's body; `asks`, the version, the place at which it waits and its body; `replied`, the
/// version, the length of the call's text in bytes, that text and the reply's body; or `unseen`, the version
/// and the cancel's body. Fails only if memory was refused.
pub(crate) fn client_line(
    alloc: Global,
    epoch: u64,
    client: u64,
    session: &ClientState,
) -> Result<String, NoMemory>
    ensures { IfOk result (λ s. string_bytes s ≡ client_text epoch client session.now) }
{
    let key = Key {
        epoch,
        client,
        incarnation: session.incarnation,
        number: session.last,
    };
    let version = session.version;
    match &session.request {
        LastRequest::Fresh => fresh_line(alloc, client, session.incarnation, version),
        LastRequest::Waits { place, call } => asking_line(alloc, version, *place, &key, call),
        LastRequest::RepliedTo { call, reply } => replied_line(alloc, version, &key, call, reply),
        LastRequest::CancelledUnseen => unseen_line(alloc, version, &key),
    }
}
