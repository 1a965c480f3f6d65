//! A client that has a session: between its requests, and with one that it has begun.
ghost use Rattle.std.specs.Prelude.{◌≡◌, IfOk, IsSome, Some, string_bytes};
ghost use Rattle.rv_text.specs.Bodies.{message_text};
ghost use Rattle.rv_text.specs.Limits.{FitsCall, FitsKey};
ghost use Rattle.rv_frame.specs.Cut.{IsFrameBody};

use rv_text::{
    Answer, Call, Key, MAX_IDENTIFIER, Message, NoMemory, Refusal, Reply, encode_request,
};
use std::alloc::Global;
use std::marker::Model;

/// A client that was welcomed and waits for no answer. Contracts see the key of its next request, or none
/// once the greatest number was used.
#[derive(Drop)]
pub struct Idle {
    next: Option<Key>,
}

impl Model for Idle {
    ghost use Rattle.std.specs.Prelude.{Option};
    ghost use Rattle.rv_text.specs.declared.message.Key.{Key};

    ghost Value = { Option Key };

    ghost view = { λ i. i.next };
}

/// A client with a request that it has begun. It can be neither copied nor dropped: only [`Idle::begin`]
/// makes one, a final answer or [`abandon`](Outstanding::abandon) ends it, and [`park`](Outstanding::park)
/// lays it aside until [`Resting::wake`]. Contracts see the request's key and call.
///
/// It may send its [`message`](Outstanding::message), which is always the same request, and its
/// [`cancel_message`](Outstanding::cancel_message), as often as it likes.
pub struct Outstanding {
    key: Key,
    call: Call,
}

impl Model for Outstanding {
    ghost use Rattle.rv_client.specs.Process.{Asking};

    ghost Value = { Asking };

    ghost view = { λ o. record { key = o.key; call = o.call } };
}

/// A request that was begun and is laid aside until it is woken: plain data, which a list or a table can
/// hold. Only [`Outstanding::park`] makes one. It can't be copied, and dropping it gives the request up.
/// Contracts see the request's key and call.
#[derive(Drop)]
pub struct Resting {
    key: Key,
    call: Call,
}

impl Model for Resting {
    ghost use Rattle.rv_client.specs.Process.{Asking};

    ghost Value = { Asking };

    ghost view = { λ r. record { key = r.key; call = r.call } };
}

/// The result of an answer to a request that was begun.
pub enum HearOutcome {
    /// The request has this reply, and the client is idle at the next number.
    Settled(Idle, Reply),
    /// The answer is not final for the request.
    Still(Outstanding),
    /// The request of this key ended without a reply: the server has a later epoch, which is given.
    EpochEnded(Key, u64),
    /// The request of this key ended without a reply: its client has a later incarnation, which is given.
    Replaced(Key, u64),
}

impl Idle {
    ghost use Rattle.rv_client.specs.Process.{key_after};

    // A client that was just welcomed.
    pub(crate) fn first(epoch: u64, client: u64, incarnation: u64) -> Idle
        ensures { result ≡ Some (record {
          epoch = epoch;
          client = client;
          incarnation = incarnation;
          number = 1;
        }) }
    {
        let number = 1;
        let key = Key {
            epoch,
            client,
            incarnation,
            number,
        };
        Idle { next: Some(key) }
    }

    // A client whose request of this key was settled.
    fn after(key: Key) -> Idle
        ensures { result ≡ key_after key }
    {
        if key.number >= MAX_IDENTIFIER {
            return Idle { next: None };
        }
        let number = key.number + 1;
        Idle {
            next: Some(Key { number, ..key }),
        }
    }

    /// The key of its next request, or none once the greatest number was used.
    pub fn next_key(&self) -> Option<Key>
        ensures { result ≡ self.now }
    {
        self.next
    }

    /// Begins a call with the next key, which must be there.
    pub fn begin(self, call: Call) -> Outstanding
        requires { IsSome self }
        ensures key { self ≡ Some result.key }
        ensures call { result.call ≡ call }
    {
        Outstanding {
            key: self.next.unwrap(),
            call,
        }
    }
}

impl Outstanding {
    ghost use Rattle.rv_client.specs.Process as process;
    ghost use Rattle.rv_client.specs.Outcomes.{heard_as};

    /// The request's key.
    pub fn key(&self) -> Key
        ensures { result ≡ self.now.key }
    {
        self.key
    }

    /// The request, with a copy of its call. Fails only if memory for that copy was refused.
    pub fn message(&self, alloc: Global) -> Result<Message, NoMemory>
        ensures { IfOk result (λ message. message ≡ process.request_of self.now) }
    {
        let call = self.call.copy(alloc)?;
        Ok(Message::Request {
            key: self.key,
            call,
        })
    }

    /// The body of the request, of which no copy is made. Fails only if memory was refused.
    pub(crate) fn text(&self, alloc: Global) -> Result<String, NoMemory>
        requires key { FitsKey self.now.key }
        requires call { FitsCall self.now.call }
        ensures text { IfOk result (λ s. string_bytes s ≡ message_text (process.request_of self.now)) }
        ensures of_body { IfOk result (λ s. IsFrameBody (string_bytes s)) }
    {
        encode_request(alloc, &self.key, &self.call)
    }

    /// The cancel of the request.
    pub fn cancel_message(&self) -> Message
        ensures { result ≡ process.cancel_of self.now }
    {
        Message::Cancel { key: self.key }
    }

    /// Hears an answer. A reply to its own key settles the request. The refusal *other epoch* ends it if that
    /// epoch is above its key's, and *old incarnation* if that incarnation is. Any other answer is ignored,
    /// such as a reply to another key, a stale refusal or a welcome.
    pub fn hear(self, answer: Answer) -> HearOutcome
        ensures { process.Hears (process.Outstanding self) answer (heard_as result) }
    {
        match answer {
            Answer::Replied { key, reply } => {
                if key == self.key {
                    HearOutcome::Settled(Idle::after(self.abandon()), reply)
                } else {
                    HearOutcome::Still(self)
                }
            }
            Answer::Refused(refusal) => self.hear_refusal(refusal),
            _ => HearOutcome::Still(self),
        }
    }

    // Hears a refusal.
    fn hear_refusal(self, refusal: Refusal) -> HearOutcome
        ensures { process.Hears (process.Outstanding self) (Answer.Refused refusal) (heard_as result) }
    {
        match refusal {
            Refusal::OtherEpoch(current) => {
                if current > self.key.epoch {
                    HearOutcome::EpochEnded(self.abandon(), current)
                } else {
                    HearOutcome::Still(self)
                }
            }
            Refusal::OldIncarnation(current) => {
                if current > self.key.incarnation {
                    HearOutcome::Replaced(self.abandon(), current)
                } else {
                    HearOutcome::Still(self)
                }
            }
            _ => HearOutcome::Still(self),
        }
    }

    /// Gives the request up, and returns its key. The server may still carry it out.
    pub fn abandon(self) -> Key
        ensures { result ≡ self.key }
    {
        let Outstanding { key, call: _ } = self;
        key
    }

    /// Lays the request aside, with its key and its call. Takes no memory.
    pub fn park(self) -> Resting
        ensures { result ≡ self }
    {
        let Outstanding { key, call } = self;
        Resting { key, call }
    }
}

impl Resting {
    /// The request again, with the same key and call. Takes no memory.
    pub fn wake(self) -> Outstanding
        ensures { result ≡ self }
    {
        let Resting { key, call } = self;
        Outstanding { key, call }
    }
}
