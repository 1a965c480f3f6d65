//! A client that has no session yet.
ghost use Rattle.std.specs.Prelude.{◌≡◌};
ghost use Rattle.rv_text.specs.Limits.{FitsIdentifier};

use crate::request::Idle;
use rv_text::{Answer, Message, Refusal, Version};
use std::marker::Model;

/// A client that has started in an incarnation and asks for a version, and is not welcome yet. Contracts see
/// its number, its incarnation and its version.
///
/// It sends its [`message`](New::message), the hello, and hears the answers that come to it by
/// [`welcome`](New::welcome).
#[derive(Drop)]
pub struct New {
    client: u64,
    incarnation: u64,
    version: Version,
}

impl Model for New {
    ghost use Rattle.rv_client.specs.Process.{Starting};

    ghost Value = { Starting };

    ghost view = { λ n. record { client = n.client; incarnation = n.incarnation; version = n.version } };
}

/// The result of an answer to a client that is not welcome yet.
#[derive(Drop)]
pub enum WelcomeOutcome {
    /// The client is welcome, and idle.
    Idle(Idle),
    /// The answer is neither its welcome nor a refusal. The client is as before.
    Again(New),
    /// The client was refused, for this reason. It is as before, and may still be welcomed.
    Refused(New, Refusal),
}

impl New {
    ghost use Rattle.rv_client.specs.Process as process;
    ghost use Rattle.rv_client.specs.Outcomes.{greeted_as};

    /// Starts a client, which asks for this version, in an incarnation that none of its processes had before.
    /// Both numbers are from 1 to 2^53 - 1.
    pub fn start(client: u64, incarnation: u64, version: Version) -> New
        requires client { FitsIdentifier client }
        requires incarnation { FitsIdentifier incarnation }
        ensures { result ≡ record { client = client; incarnation = incarnation; version = version } }
    {
        New {
            client,
            incarnation,
            version,
        }
    }

    /// The hello that it sends.
    pub fn message(&self) -> Message
        ensures { result ≡ process.hello_of self.now }
    {
        Message::Hello {
            client: self.client,
            incarnation: self.incarnation,
            version: self.version,
        }
    }

    /// Hears an answer. A welcome of its client, incarnation and version makes it idle, at number 1 in the
    /// welcome's epoch. A refusal is returned, even if it refuses an earlier request of the client. After a
    /// refusal and after any other answer, the client is as before.
    pub fn welcome(self, answer: &Answer) -> WelcomeOutcome
        ensures { process.Hears (process.New self) answer.now (greeted_as result) }
    {
        match answer {
            Answer::Welcome {
                epoch,
                client,
                incarnation,
                version,
            } => {
                if *client == self.client
                    && *incarnation == self.incarnation
                    && *version == self.version
                {
                    WelcomeOutcome::Idle(Idle::first(*epoch, *client, *incarnation))
                } else {
                    WelcomeOutcome::Again(self)
                }
            }
            Answer::Refused(refusal) => WelcomeOutcome::Refused(self, *refusal),
            _ => WelcomeOutcome::Again(self),
        }
    }
}
