//! One frame of a connection: a step of the machine.
ghost use Rattle.std.specs.Prelude.{◌≡◌, ◌<◌, ℕ, List, IfOk, OnErr, string_bytes, vec_capacity};
ghost use Rattle.std.specs.Prelude.{vec_len};
ghost use Rattle.std.specs.Bool.{OnFalse, OnTrue};
ghost use Rattle.rv_json.specs.Bodies.{HasBodyLength};
ghost use Rattle.rv_text.specs.declared.answer.Answer.{Answer as Answered};
ghost use Rattle.rv_text.specs.Bodies.{IsMessageBody, answer_text};
ghost use Rattle.rv_text.specs.Limits.{FitsAnswer, FitsMessage};
ghost use Rattle.rv_machine.specs.Machines.{Says, state_in};
ghost use Rattle.rv_machine.specs.declared.machine.Said.TheVariants as said;
ghost use Rattle.rv_server_connections.specs.connection.Traffic.{IsDue};
ghost use Rattle.rv_server_connections.specs.Connections.{HasWire};
ghost use Rattle.rv_server_connections.specs.Wires.{wires_in};
ghost use Rattle.rv_hub.specs.dispatcher.Effects.{rests_on};
ghost use Rattle.rv_hub.specs.dispatcher.Telling.{WaitsOn};
ghost use Rattle.rv_hub.specs.dispatcher.Rest.{HasComeToStop};
ghost use Rattle.rv_hub.specs.dispatcher.Fields.{IsDispatcherSound, IsSteady, dispatcher_state};
ghost use Rattle.rv_hub.specs.dispatcher.Going.{AnswersIt, Finishes, HasDue, IsFrameDue, IsMessageAt};
ghost use Rattle.rv_hub.specs.dispatcher.Going.{IsTurnStep, IsSameButRoom};
ghost use Rattle.rv_hub.specs.dispatcher.Going.{LacksIt, MaySay, SaysIt, SaysText, StepsIt, StillGoes};
ghost use Rattle.rv_hub.specs.dispatcher.Going.{Strides, WaitsIt, fault_answer};

use crate::dispatcher::telling::request_text;
use crate::dispatcher::{Dispatcher, is_waiting};
use rv_machine::{Heard, Said};
use rv_server_connections::connection::AnswerTo;
use rv_server_connections::subscribers::{ConnectionNumber, Subscription};
use rv_text::{
    Answer, Key, Message, NoMemory, Refusal, TextFault, bad_text_body, decode_message,
    encode_answer_in, no_memory_body,
};

// What is to be done next of a connection.
#[derive(Drop)]
enum TurnStep {
    // The frame that is due is answered, by what it was read as.
    Answer(Result<Message, TextFault>),
    // Nothing is left to do: it is closed.
    Close,
    // It stops.
    Stop,
}

// The body of the answer to a frame of which no message was read.
#[tactic(auto, unfolding(rv_text::specs::Bodies::refused_text))]
fn fault_body(fault: TextFault) -> &'static [u8]
    ensures text { result.now ≡ fault_answer fault }
    ensures length { HasBodyLength result.now }
{
    match fault {
        TextFault::NoMemory => no_memory_body(),
        TextFault::NotJson => bad_text_body(),
        TextFault::NotMessage => bad_text_body(),
    }
}

// How many entries an answer to a step rests on: all, but for want of memory, which rests on none.
fn rests_on(answer: &Answer, entries: u64) -> u64
    ensures { result ≡ rests_on answer.now entries }
{
    match answer {
        Answer::Refused(Refusal::NoMemory) => 0,
        _ => entries,
    }
}

impl Dispatcher {
    // Takes the frame that is due and answers it by a body, which rests on so many entries. If memory is
    // refused the connection is closed.
    fn answer_by(&mut self, connection: ConnectionNumber, entries: u64, body: &[u8])
        requires sound { IsDispatcherSound self.old }
        requires due { HasDue self.old connection }
        requires fits { HasBodyLength body.now }
        ensures sound { IsDispatcherSound self.new }
        ensures answers { AnswersIt self.old connection entries body.now self.new }
    {
        match self
            .wires
            .answer(connection, AnswerTo::Unread, entries, body)
        {
            Ok(()) => {}
            Err(_) => self.wires.close(connection),
        }
    }

    // Takes the frame that is due, and lets its connection wait for the reply of a request. If memory is
    // refused the connection is closed.
    fn wait(&mut self, connection: ConnectionNumber, key: Key)
        requires sound { IsDispatcherSound self.old }
        requires due { HasDue self.old connection }
        requires waits { WaitsOn (state_in self.old.machine) key }
        ensures sound { IsDispatcherSound self.new }
        ensures waits { WaitsIt self.old connection key self.new }
    {
        self.wires.take_frame(connection);
        let until = self.latest + self.patience as u64;
        match self
            .subscribers
            .add(connection, Subscription { key, until })
        {
            Ok(()) => {}
            Err(_) => self.wires.close(connection),
        }
    }

    // Answers the frame that is due that memory was refused. That rests on nothing.
    fn lack(&mut self, connection: ConnectionNumber)
        requires sound { IsDispatcherSound self.old }
        requires due { HasDue self.old connection }
        ensures sound { IsDispatcherSound self.new }
        ensures lacks { LacksIt self.old connection self.new }
    {
        self.answer_by(connection, 0, no_memory_body());
    }

    // The text of an answer, in the room for such texts.
    fn text_of(&mut self, answer: &Answer) -> Result<String, NoMemory>
        requires { FitsAnswer answer.now }
        ensures text { IfOk result (λ s. string_bytes s ≡ answer_text answer.now) }
        ensures length { IfOk result (λ s. HasBodyLength (string_bytes s)) }
        ensures same { IsSameButRoom self.old self.new }
    {
        let room = self.wires.lend_room();
        encode_answer_in(room, answer)
    }

    // The room of a text is there for the next one.
    fn keep_room_of(&mut self, text: String)
        ensures { IsSameButRoom self.old self.new }
    {
        self.wires.keep_room(text.into_bytes());
    }

    // Answers the frame that is due by a text, if that found memory.
    fn answer_with(
        &mut self,
        connection: ConnectionNumber,
        entries: u64,
        text: Result<String, NoMemory>,
    )
        requires sound { IsDispatcherSound self.old }
        requires due { HasDue self.old connection }
        requires fits { IfOk text (λ s. HasBodyLength (string_bytes s)) }
        ensures sound { IsDispatcherSound self.new }
        ensures answers { IfOk text (λ s. AnswersIt self.old connection entries (string_bytes s) self.new) }
        ensures lacks { OnErr text (LacksIt self.old connection self.new) }
    {
        match text {
            Ok(text) => {
                self.answer_by(connection, entries, text.as_bytes());
                self.keep_room_of(text);
            }
            Err(_) => self.lack(connection),
        }
    }

    // Answers the frame that is due by an answer, if that finds memory.
    fn answer(&mut self, connection: ConnectionNumber, answer: &Answer)
        requires sound { IsDispatcherSound self.old }
        requires due { HasDue self.old connection }
        requires fits { FitsAnswer answer.now }
        ensures sound { IsDispatcherSound self.new }
        ensures answers { SaysText self.old connection answer.now self.new }
    {
        let text = self.text_of(answer);
        let entries = rests_on(answer, self.machine.length() as u64);
        self.answer_with(connection, entries, text);
    }

    // Answers the frame that is due by the reply of its request, or lets its connection wait for that.
    fn say_told(&mut self, connection: ConnectionNumber, key: Key)
        requires sound { IsDispatcherSound self.old }
        requires due { HasDue self.old connection }
        requires may_say { (a : Answered) × Says (state_in self.old.machine) (said.Told key) a
            × MaySay self.old a }
        ensures sound { IsDispatcherSound self.new }
        ensures says { (a : Answered) → Says (state_in self.old.machine) (said.Told key) a
            → SaysIt self.old connection a self.new }
    {
        let client = self.machine.client(key.client).unwrap();
        if is_waiting(&client.request) {
            return self.wait(connection, key);
        }
        let text = request_text(self.wires.lend_room(), &key, &client.request);
        let entries = self.machine.length() as u64;
        self.answer_with(connection, entries, text);
    }

    // Answers the frame that is due by what was said of its step, or lets its connection wait.
    fn say(&mut self, connection: ConnectionNumber, said: Said)
        requires sound { IsDispatcherSound self.old }
        requires due { HasDue self.old connection }
        requires may_say { (a : Answered) × Says (state_in self.old.machine) said a × MaySay self.old a }
        ensures sound { IsDispatcherSound self.new }
        ensures says { (a : Answered) → Says (state_in self.old.machine) said a
            → SaysIt self.old connection a self.new }
    {
        match said {
            Said::Told(key) => self.say_told(connection, key),
            Said::Welcome(epoch, client, incarnation, version) => self.answer(
                connection,
                &Answer::Welcome {
                    epoch,
                    client,
                    incarnation,
                    version,
                },
            ),
            Said::Refused(refusal) => self.answer(connection, &Answer::Refused(refusal)),
        }
    }

    // Makes the step of a message, in room for its entry.
    fn step(&mut self, message: Message) -> Said
        requires steady { IsSteady self.old }
        requires fits { FitsMessage message }
        requires room { vec_len self.old.entries < vec_capacity self.old.entries }
        ensures sound { IsDispatcherSound self.new }
        ensures steps { StepsIt self.old message result self.new }
        ensures still { StillGoes self.old self.new }
    {
        let Heard { entry, said } = self.machine.hear(&self.limits, self.latest, message);
        match entry {
            Some(entry) => {
                self.entries.push_reserved(entry);
                said
            }
            None => said,
        }
    }

    // Makes the step of the frame that is due, answers it, and tells all that it settled.
    fn hear(&mut self, connection: ConnectionNumber, message: Message)
        requires steady { IsSteady self.old }
        requires asked { (body : List ℕ) × IsFrameDue self.old connection body × IsMessageBody body message }
        ensures steady { IsSteady self.new }
        ensures strides { Strides self.old connection self.new }
    {
        match self.entries.reserve(1) {
            Ok(()) => self.hear_in_room(connection, message),
            Err(_) => {
                drop(message);
                self.lack(connection);
            }
        }
    }

    // The same, where there is room for an entry.
    fn hear_in_room(&mut self, connection: ConnectionNumber, message: Message)
        requires steady { IsSteady self.old }
        requires asked { (body : List ℕ) × IsFrameDue self.old connection body × IsMessageBody body message }
        requires room { vec_len self.old.entries < vec_capacity self.old.entries }
        ensures steady { IsSteady self.new }
        ensures strides { Strides self.old connection self.new }
    {
        let said = self.step(message);
        self.say(connection, said);
        self.tell_settled();
    }

    // What is to be done next of a connection.
    fn next(&self, connection: ConnectionNumber) -> TurnStep
        ensures { IsTurnStep self.now connection result }
    {
        let Some(wire) = self.wires.get(connection) else {
            return TurnStep::Stop;
        };
        if let Some(body) = wire.next() {
            return TurnStep::Answer(decode_message(self.alloc, body));
        }
        if wire.is_finished() {
            return TurnStep::Close;
        }
        TurnStep::Stop
    }

    // Answers the frame that is due, by what it was read as, and tells all that this settles.
    fn take_up(&mut self, connection: ConnectionNumber, read: Result<Message, TextFault>)
        requires steady { IsSteady self.old }
        requires message { IsMessageAt self.old connection read }
        ensures steady { IsSteady self.new }
        ensures strides { Strides self.old connection self.new }
    {
        match read {
            Ok(message) => self.hear(connection, message),
            Err(fault) => self.answer_by(connection, 0, fault_body(fault)),
        }
    }

    // Answers the frame that is due on a connection, if one is, and tells all that this settles; closes a
    // connection of which nothing is left to do. It gives whether a frame was answered.
    pub(crate) fn go_on(&mut self, connection: ConnectionNumber) -> bool
        requires { IsSteady self.old }
        ensures steady { IsSteady self.new }
        ensures strides { OnTrue result (Strides self.old connection self.new) }
        ensures finishes { OnFalse result (Finishes self.old connection self.new) }
        ensures stopped { OnFalse result (HasComeToStop (dispatcher_state self.new) connection) }
    {
        match self.next(connection) {
            TurnStep::Answer(read) => {
                self.take_up(connection, read);
                true
            }
            TurnStep::Close => {
                self.shut(connection);
                false
            }
            TurnStep::Stop => false,
        }
    }
}
