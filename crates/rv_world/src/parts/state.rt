//! The parts of a world, and the work of each event on them. What can fail comes before the first change.
ghost use Rattle.std.specs.Prelude.{◌≡◌, ◌<◌, ◌++◌, ◌∷◌, [], IfErr, IfOk, Some, length, vec_len};
ghost use Rattle.std.specs.Vec.{vec_capacity};
ghost use Rattle.rv_world.specs.declared.parts.seen.Seen.TheVariants as sees;

use crate::parts::clients::Clients;
use crate::parts::event::Event;
use crate::parts::packet::{Packet, copy_answer, copy_message, sender};
use crate::parts::process::{HeardAnswer, Running, Saying};
use crate::parts::seen::{Seen, WorldRefusal};
use rv_book::Book;
use rv_client::New;
use rv_text::{Answer, Call, Key, Message, NoMemory, Refusal, Reply, Version};
use std::alloc::Global;
use std::mem;

/// The parts of a world.
#[derive(Drop)]
pub struct WorldState {
    /// The books of the epochs before the present one, in the order in which they were opened.
    pub earlier: Vec<Book>,
    /// The book of the present epoch.
    pub present: Book,
    /// The clients that were started.
    pub clients: Clients,
    /// Each call that was begun, with its key.
    pub asked: Vec<(Key, Call)>,
    /// Each reply that a client took as final, with its key.
    pub held: Vec<(Key, Reply)>,
    /// The messages that were sent.
    pub to_server: Vec<Message>,
    /// The answers that were sent.
    pub to_client: Vec<Packet>,
}

// Sends a message, for which there is room.
fn send(to_server: &mut Vec<Message>, message: Message) -> Seen
    requires { vec_len to_server.old < vec_capacity to_server.old }
    ensures sent { to_server.new.items ≡ to_server.old.items ++ message ∷ [] }
    ensures seen { result ≡ sees.Sent (length to_server.old.items) }
{
    let number = to_server.len();
    to_server.push_reserved(message);
    Seen::Sent(number)
}

// Sends an answer to a client, for which there is room.
fn send_answer(to_client: &mut Vec<Packet>, packet: Packet) -> Seen
    requires { vec_len to_client.old < vec_capacity to_client.old }
    ensures sent { to_client.new.items ≡ to_client.old.items ++ packet ∷ [] }
    ensures seen { result ≡ sees.Answered (length to_client.old.items) }
{
    let number = to_client.len();
    to_client.push_reserved(packet);
    Seen::Answered(number)
}

impl WorldState {
    ghost use Rattle.std.specs.Prelude.{◌⊎◌, IsSome, OnOk};
    ghost use Rattle.rv_text.specs.Limits.{FitsCall, FitsIdentifier};
    ghost use Rattle.rv_client.specs.Process as process;
    ghost use Rattle.rv_world.specs.parts.World.{first_world, process_of};
    ghost use Rattle.rv_world.specs.parts.Events.{EventComesTo, IsAsking, IsHeard, IsNewest, IsReady};
    ghost use Rattle.rv_world.specs.parts.Events.{RunsBut, RunsNone, WasStarted};
    ghost use Rattle.rv_world.specs.parts.Processes.{event_saying, process_in};
    ghost use Rattle.rv_world.specs.parts.Parts.{IsSoundState, KnowsNewest, world_of};
    ghost use Rattle.rv_world.specs.declared.parts.event.Event.TheVariants as event;
    ghost use Rattle.rv_world.specs.declared.parts.seen.WorldRefusal.TheVariants as refuses;

    /// The state of a world that begins in an epoch. Fails only if memory was refused.
    pub fn open(alloc: Global, epoch: u64) -> Result<WorldState, NoMemory>
        requires { FitsIdentifier epoch }
        ensures world { IfOk result (λ state. world_of state ≡ first_world epoch) }
        ensures newest { IfOk result KnowsNewest }
    {
        Ok(WorldState {
            earlier: Vec::new(alloc),
            present: Book::open(alloc, epoch, 0)?,
            clients: Clients::empty(alloc),
            asked: Vec::new(alloc),
            held: Vec::new(alloc),
            to_server: Vec::new(alloc),
            to_client: Vec::new(alloc),
        })
    }

    /// A client starts in an incarnation, and asks for a version.
    pub fn start(
        &mut self,
        client: u64,
        incarnation: u64,
        version: Version,
    ) -> Result<Seen, WorldRefusal>
        requires sound { IsSoundState self.old }
        requires client { FitsIdentifier client }
        requires incarnation { FitsIdentifier incarnation }
        ensures comes { EventComesTo (world_of self.old) (event.Start client incarnation version)
            (world_of self.new) result }
        ensures newest { KnowsNewest self.new }
    {
        self.must_be_newest(client, incarnation)?;
        self.to_server.reserve(1)?;
        let new = New::start(client, incarnation, version);
        let hello = new.message();
        self.clients.enter(client, incarnation, Running::New(new))?;
        Ok(send(&mut self.to_server, hello))
    }

    // Fails if a client was started in this incarnation or a greater one.
    fn must_be_newest(&self, client: u64, incarnation: u64) -> Result<(), WorldRefusal>
        requires { KnowsNewest self.now }
        ensures ok { OnOk result (IsNewest (world_of self.now) client incarnation) }
        ensures err { IfErr result (λ refusal. WasStarted (world_of self.now) client incarnation
            × (refusal ≡ refuses.IncarnationNotGreater)) }
    {
        match self.clients.newest(client) {
            Some(newest) if incarnation <= newest => Err(WorldRefusal::IncarnationNotGreater),
            _ => Ok(()),
        }
    }

    // The process of a client, which is to run.
    fn process(&self, client: u64) -> Result<&Running, WorldRefusal>
        ensures ok { IfOk result (λ running. process_of (world_of self.now) client
            ≡ Some (process_in running.now)) }
        ensures err { IfErr result (RunsNone (world_of self.now) client) }
    {
        self.clients
            .process(client)
            .ok_or(WorldRefusal::NoSuchClient)
    }

    // The key with which an idle process of a client will begin.
    fn next_key(&self, client: u64) -> Result<Key, WorldRefusal>
        ensures ok { IfOk result (λ key. process_of (world_of self.now) client
            ≡ Some (process.Idle (Some key))) }
        ensures err { IfErr result (λ refusal. RunsNone (world_of self.now) client refusal
            ⊎ (RunsBut (world_of self.now) client IsReady × (refusal ≡ refuses.NotIdle))) }
    {
        match self.process(client)? {
            Running::Idle(idle) => idle.next_key().ok_or(WorldRefusal::NotIdle),
            Running::New(_) | Running::Outstanding(_) => Err(WorldRefusal::NotIdle),
        }
    }

    // Fails if no process of a client is outstanding.
    fn must_be_asking(&self, client: u64) -> Result<(), WorldRefusal>
        ensures ok { OnOk result ((asking : process.Asking)
            × (process_of (world_of self.now) client ≡ Some (process.Outstanding asking))) }
        ensures err { IfErr result (λ refusal. RunsNone (world_of self.now) client refusal
            ⊎ (RunsBut (world_of self.now) client IsAsking × (refusal ≡ refuses.NotOutstanding))) }
    {
        match self.process(client)? {
            Running::Outstanding(_) => Ok(()),
            Running::New(_) | Running::Idle(_) => Err(WorldRefusal::NotOutstanding),
        }
    }

    /// A client begins a call.
    pub fn begin(&mut self, alloc: Global, client: u64, call: &Call) -> Result<Seen, WorldRefusal>
        requires sound { IsSoundState self.old }
        requires call { FitsCall call.now }
        ensures comes { EventComesTo (world_of self.old) (event.Begin client call.now)
            (world_of self.new) result }
        ensures newest { KnowsNewest self.new }
    {
        let key = self.next_key(client)?;
        self.asked.reserve(1)?;
        self.to_server.reserve(1)?;
        let asked = call.copy(alloc)?;
        let own = call.copy(alloc)?;
        let call = call.copy(alloc)?;
        self.clients.begin(client, own);
        self.asked.push_reserved((key, asked));
        Ok(send(&mut self.to_server, Message::Request { key, call }))
    }

    /// A client sends its request again, or its cancel.
    pub fn say(&mut self, alloc: Global, client: u64, saying: Saying) -> Result<Seen, WorldRefusal>
        requires sound { IsSoundState self.old }
        ensures comes { EventComesTo (world_of self.old) (event_saying saying client)
            (world_of self.new) result }
        ensures newest { KnowsNewest self.new }
    {
        self.must_be_asking(client)?;
        self.to_server.reserve(1)?;
        let said = self.clients.say(alloc, client, saying)?;
        Ok(send(&mut self.to_server, said))
    }

    /// A client's process ends.
    pub fn crash(&mut self, client: u64) -> Result<Seen, WorldRefusal>
        requires sound { IsSoundState self.old }
        ensures comes { EventComesTo (world_of self.old) (event.Crash client) (world_of self.new) result }
        ensures newest { KnowsNewest self.new }
    {
        self.process(client)?;
        self.clients.replace_process(client, None);
        Ok(Seen::Crashed)
    }

    /// A message comes to the server.
    pub fn deliver_message(
        &mut self,
        alloc: Global,
        packet: usize,
        moment: u64,
    ) -> Result<Seen, WorldRefusal>
        requires sound { IsSoundState self.old }
        ensures comes { EventComesTo (world_of self.old) (event.ToServer packet moment)
            (world_of self.new) result }
        ensures newest { KnowsNewest self.new }
    {
        let Some(message) = self.to_server.get(packet) else {
            return Err(WorldRefusal::NoSuchPacket);
        };
        self.to_client.reserve(1)?;
        let message = copy_message(alloc, message)?;
        let client = sender(&message);
        let verdict = self.present.handle(moment, message);
        let answer = match self.present.answer(alloc, &verdict) {
            Ok(answer) => answer,
            Err(_) => Answer::Refused(Refusal::NoMemory),
        };
        Ok(send_answer(&mut self.to_client, Packet { client, answer }))
    }

    /// An answer comes to its client.
    pub fn deliver_answer(&mut self, alloc: Global, packet: usize) -> Result<Seen, WorldRefusal>
        requires sound { IsSoundState self.old }
        ensures comes { EventComesTo (world_of self.old) (event.ToClient packet) (world_of self.new) result }
        ensures newest { KnowsNewest self.new }
    {
        let Some(packet) = self.to_client.get(packet) else {
            return Err(WorldRefusal::NoSuchPacket);
        };
        let client = packet.client;
        if self.clients.process(client).is_none() {
            return Ok(Seen::Ignored);
        }
        self.held.reserve(1)?;
        let answer = copy_answer(alloc, &packet.answer)?;
        Ok(self.hear(client, answer))
    }

    // The running process of a client hears an answer. There is room for a reply that it takes as final.
    fn hear(&mut self, client: u64, answer: Answer) -> Seen
        requires runs { IsSome (process_of (world_of self.old) client) }
        requires room { vec_len self.old.held < vec_capacity self.old.held }
        ensures heard { (running : process.Process) → process_of (world_of self.old) client ≡ Some running
            → IsHeard (world_of self.old) running (record { client = client; answer = answer })
            (world_of self.new) result }
        ensures newest { self.new.clients.newest ≡ self.old.clients.newest }
        ensures sent { self.new.to_server ≡ self.old.to_server }
    {
        let running = self.clients.replace_process(client, None).unwrap();
        let told = running.hear(answer);
        let HeardAnswer {
            process,
            held,
            seen,
        } = told;
        self.clients.replace_process(client, process);
        if let Some(taken) = held {
            self.held.push_reserved(taken);
        }
        seen
    }

    /// A server starts in an epoch.
    pub fn new_epoch(&mut self, alloc: Global, epoch: u64) -> Result<Seen, WorldRefusal>
        requires sound { IsSoundState self.old }
        requires epoch { FitsIdentifier epoch }
        ensures comes { EventComesTo (world_of self.old) (event.NewEpoch epoch) (world_of self.new) result }
        ensures newest { KnowsNewest self.new }
    {
        if epoch <= self.present.account().epoch() {
            return Err(WorldRefusal::EpochNotGreater);
        }
        self.earlier.reserve(1)?;
        let book = Book::open(alloc, epoch, 0)?;
        let ended = mem::replace(&mut self.present, book);
        self.earlier.push_reserved(ended);
        Ok(Seen::Opened(epoch))
    }
}
