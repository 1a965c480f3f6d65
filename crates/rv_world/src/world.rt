//! The world: every server, client and packet, and one event at a time.
ghost use Rattle.std.specs.Prelude.{◌≡◌, IfOk, IfSome, IfNone, option_map, slice_get, ℕ};
ghost use Rattle.rv_text.specs.Limits.{FitsAnswer, FitsIdentifier};
ghost use Rattle.rv_world.specs.parts.World.{IsAccountOf, first_world};
ghost use Rattle.rv_world.specs.parts.Limits.{FitsEvent};
ghost use Rattle.rv_world.specs.parts.Events.{EventComesTo};
ghost use Rattle.rv_world.specs.parts.Parts.{IsBookOf, IsSoundState, KnowsNewest, world_of};

use crate::parts::{Event, Saying, Seen, WorldRefusal, WorldState};
use rv_book::{Account, Book};
use rv_text::{Answer, Call, Key, NoMemory, Reply};
use std::alloc::Global;
use std::marker::Model;

/// Servers, clients, and a link that loses, repeats and reorders what was sent.
///
/// An event looks a client up at most three times. A delivery to the server also copies the message, and
/// costs as much as the book's step and its answer. A delivery to a client copies the answer. A call is
/// copied three times when it is begun, and once each time that it is sent again. A new epoch opens a book,
/// with 64 queues and 64 exchangers. All that was sent, asked, held or started is kept, and so are all books.
/// Nothing else is kept of a process that ended.
pub struct World {
    state: WorldState,
}

// Whoever owns one drops it in one step.
impl Drop for World {
    fn drop(self) {
        let World { state: _ } = self;
    }
}

// The number of the first of these books whose account is of this epoch.
fn index_of(books: &[Book], epoch: u64) -> Option<usize>
    ensures found { IfSome result (IsBookOf books.now epoch) }
    ensures none { IfNone result ((i : ℕ) → ¬ IsBookOf books.now epoch i) }
{
    books
        .iter()
        .position(|book| book.account().epoch() == epoch)
}

// Takes one event.
fn take(state: &mut WorldState, event: &Event) -> Result<Seen, WorldRefusal>
    requires sound { IsSoundState state.old }
    requires fits { FitsEvent event.now }
    ensures comes { EventComesTo (world_of state.old) event.now (world_of state.new) result }
    ensures newest { KnowsNewest state.new }
{
    let alloc = *state.asked.allocator();
    match event {
        Event::Start(client, incarnation, version) => {
            state.start(*client, *incarnation, *version)
        }
        Event::Begin(client, call) => state.begin(alloc, *client, call),
        Event::Resend(client) => state.say(alloc, *client, Saying::Request),
        Event::CancelSent(client) => state.say(alloc, *client, Saying::Cancel),
        Event::Crash(client) => state.crash(*client),
        Event::ToServer(packet, moment) => state.deliver_message(alloc, *packet, *moment),
        Event::ToClient(packet) => state.deliver_answer(alloc, *packet),
        Event::NewEpoch(epoch) => state.new_epoch(alloc, *epoch),
    }
}

impl Model for World {
    ghost use Rattle.rv_world.specs.parts.World.{World};
    ghost use Rattle.rv_world.specs.parts.Parts.{IsSoundState, world_of};

    ghost Value = { World };

    ghost view = { λ w. world_of w.state };

    ghost invariant = { λ w. IsSoundState w.state };
}

impl World {
    ghost use Rattle.rv_world.specs.parts.Headline.{Headline, OnlyGrows};

    /// The world that begins in an epoch, from 1 to 2^53 - 1: a server with an empty account, opened at
    /// moment 0, and nothing else. Fails only if memory was refused.
    pub fn open(alloc: Global, epoch: u64) -> Result<World, NoMemory>
        requires { FitsIdentifier epoch }
        ensures { IfOk result (λ world. world ≡ first_world epoch) }
    {
        let state = WorldState::open(alloc, epoch)?;
        Ok(World { state })
    }

    /// Takes one event, which must keep its limits, and gives what is seen of it. A refused event changes
    /// nothing. `NoMemory` comes only if no other refusal is due, and never for a crash or for an answer
    /// whose client has no process. If the server itself lacks memory, the event isn't refused, and the
    /// answer that is sent says so.
    pub fn step(&mut self, event: &Event) -> Result<Seen, WorldRefusal>
        requires { FitsEvent event.now }
        ensures comes { EventComesTo self.old event.now self.new result }
        ensures headline { Headline self.new }
        ensures only_growth { OnlyGrows self.old self.new }
    {
        take(&mut self.state, event)
    }

    /// The replies that clients took as final, with their keys.
    pub fn held(&self) -> &[(Key, Reply)]
        ensures { result.now ≡ self.now.held }
    {
        &self.state.held
    }

    /// The calls that clients began, with their keys.
    pub fn asked(&self) -> &[(Key, Call)]
        ensures { result.now ≡ self.now.asked }
    {
        &self.state.asked
    }

    /// The account of an epoch, if that epoch was opened. An earlier one than the present is looked for among
    /// all earlier books, from the first on.
    pub fn account(&self, epoch: u64) -> Option<&Account>
        ensures found { IfSome result (λ account. IsAccountOf self.now epoch account.now.account) }
        ensures none { IfNone result ((a : _) → ¬ IsAccountOf self.now epoch a) }
    {
        let present = self.state.present.account();
        if present.epoch() == epoch {
            return Some(present);
        }
        let index = index_of(&self.state.earlier, epoch)?;
        Some(self.state.earlier[index].account())
    }

    /// The answer that was sent as the packet of this number, if there is one.
    pub fn answer_packet(&self, packet: usize) -> Option<&Answer>
        ensures told { option_map (λ answer. answer.now) result
            ≡ option_map (λ packet. packet.answer) (slice_get self.now.to_client packet) }
        ensures fits { IfSome result (λ answer. FitsAnswer answer.now) }
    {
        Some(&self.state.to_client.get(packet)?.answer)
    }
}
