//! Those that waited are told.
ghost use Rattle.std.specs.Prelude.{◌≡◌, ◌+◌, ◌≤◌, ℕ, true, length, IfNone, IfOk, IfSome, IsSome, OnErr};
ghost use Rattle.std.specs.Prelude.{OnOk};
ghost use Rattle.std.specs.String.{string_bytes};
ghost use Rattle.rv_json.specs.Bodies.{HasBodyLength};
ghost use Rattle.rv_text.specs.Bodies.{answer_text};
ghost use Rattle.rv_text.specs.Limits.{FitsAnswer};
ghost use Rattle.rv_account.specs.state.resume.Resuming.{CanResume};
ghost use Rattle.rv_account.specs.state.Moves.{answer_told, told_again};
ghost use Rattle.rv_machine.specs.Machines.{state_in};
ghost use Rattle.rv_server_connections.specs.subscribers.Subscribers.{subscribers_of};
ghost use Rattle.rv_hub.specs.dispatcher.Telling.{IsTellable};
ghost use Rattle.rv_hub.specs.dispatcher.Fields.{IsDispatcherSound, dispatcher_state};
ghost use Rattle.rv_hub.specs.dispatcher.Going.{GivesTold, IsNextOverdue, IsSameDispatcher, IsToldText};
ghost use Rattle.rv_hub.specs.dispatcher.Going.{MayGive, TellsIt, TellsIts, TellsLate, TellsThem};
ghost use Rattle.rv_hub.specs.dispatcher.Rest.{SubscribersInTime, SubscribersWait};

use crate::dispatcher::Dispatcher;
use rv_machine::Machine;
use rv_server_connections::connection::AnswerTo;
use rv_server_connections::subscribers::ConnectionNumber;
use rv_session::LastRequest;
use rv_text::{
    Answer, Key, NoMemory, Refusal, Reply, encode_answer, encode_answer_in, encode_reply_in,
};
use std::alloc::Global;

// The body of what a request of a key is answered, by what became of it, in the memory of a buffer.
pub(crate) fn request_text(
    buffer: Vec<u8>,
    key: &Key,
    request: &LastRequest,
) -> Result<String, NoMemory>
    ensures text { IfOk result (λ s. string_bytes s
        ≡ answer_text (answer_told key.now (told_again request.now))) }
    ensures length { FitsAnswer (answer_told key.now (told_again request.now))
        → IfOk result (λ s. HasBodyLength (string_bytes s)) }
{
    match request {
        LastRequest::RepliedTo { reply, .. } => encode_reply_in(buffer, key, reply),
        LastRequest::CancelledUnseen => encode_reply_in(buffer, key, &Reply::Cancelled),
        LastRequest::Waits { .. } => encode_answer_in(buffer, &Answer::Waiting { key: *key }),
        LastRequest::Fresh => encode_answer_in(buffer, &Answer::Waiting { key: *key }),
    }
}

// The body of what a repeat of a request is told, if its session is still there.
fn told_text(alloc: Global, machine: &Machine, key: Key) -> Result<String, NoMemory>
    requires tellable { IsTellable (state_in machine.now) key }
    requires resumes { CanResume (state_in machine.now) }
    ensures { IfOk result (λ text. IsToldText (state_in machine.now) key (string_bytes text)) }
{
    let client = machine.client(key.client).unwrap();
    if client.incarnation == key.incarnation {
        return request_text(Vec::new(alloc), &key, &client.request);
    }
    let refusal = Refusal::OldIncarnation(client.incarnation);
    encode_answer(alloc, &Answer::Refused(refusal))
}

impl Dispatcher {
    // Gives a connection what a repeat of a request is told, which rests on all entries so far, and puts it
    // after those that are free to go on.
    fn give_told(&mut self, connection: ConnectionNumber, key: Key) -> Result<(), NoMemory>
        requires { MayGive self.old connection key }
        ensures given { OnOk result (GivesTold self.old connection key self.new) }
        ensures refused { OnErr result (IsSameDispatcher self.old self.new) }
    {
        self.freed.reserve(1)?;
        let text = told_text(self.alloc, &self.machine, key)?;
        let entries = self.machine.length() as u64;
        self.wires
            .answer(connection, AnswerTo::Taken, entries, text.as_bytes())?;
        self.freed.push_back_reserved(connection);
        Ok(())
    }

    // Tells the connection that waits what its request is told now. If memory is refused, it is closed.
    fn tell(&mut self, connection: ConnectionNumber)
        requires sound { IsDispatcherSound self.old }
        requires waits { IsSome (subscribers_of self.old.subscribers connection) }
        ensures sound { IsDispatcherSound self.new }
        ensures tells { TellsIt self.old connection self.new }
    {
        let subscription = self.subscribers.remove(connection).unwrap();
        match self.give_told(connection, subscription.key) {
            Ok(()) => {}
            Err(_) => self.wires.close(connection),
        }
    }

    // Tells all that wait for a request of the client, by number.
    fn tell_all(&mut self, client: u64)
        requires { IsDispatcherSound self.old }
        ensures sound { IsDispatcherSound self.new }
        ensures tells { TellsIts self.old client self.new }
    {
        while let Some(connection) = self.subscribers.first_of(client) {
            self.tell(connection);
        }
    }

    // Tells all that the last step or time settled, in the order of their requests.
    pub(crate) fn tell_settled(&mut self)
        requires { IsDispatcherSound self.old }
        ensures sound { IsDispatcherSound self.new }
        ensures tells { TellsThem self.old self.old.machine.settled.items self.new }
    {
        for at in 0..self.machine.settled().len() {
            let client = self.machine.settled()[at].client;
            self.tell_all(client);
        }
    }

    // The next that has waited as long as it may.
    fn overdue(&self) -> Option<ConnectionNumber>
        ensures some { IfSome result (IsNextOverdue (dispatcher_state self.now)) }
        ensures none { IfNone result (SubscribersInTime (dispatcher_state self.now)) }
    {
        let (until, connection) = self.subscribers.next_until()?;
        (until <= self.latest).then_some(connection)
    }

    // Tells each whose request has waited as long as it may that it waits.
    pub(crate) fn tell_overdue(&mut self)
        requires sound { IsDispatcherSound self.old }
        requires waits { SubscribersWait (dispatcher_state self.old) }
        ensures sound { IsDispatcherSound self.new }
        ensures tells { TellsLate self.old self.new }
        ensures waits { SubscribersWait (dispatcher_state self.new) }
        ensures in_time { SubscribersInTime (dispatcher_state self.new) }
    {
        while let Some(connection) = self.overdue() {
            self.tell(connection);
        }
    }
}
