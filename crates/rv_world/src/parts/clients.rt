//! The table of clients: each one's process, and the greatest incarnation in which it was started.
ghost use Rattle.std.specs.Prelude.{◌≡◌, [], None, Some, IfOk, OnOk, OnErr, option_map};
ghost use Rattle.rv_text.specs.declared.message.Key.{Key};
ghost use Rattle.rv_client.specs.Process as process;
ghost use Rattle.rv_world.specs.parts.Processes.{process_in};

use crate::parts::process::{Running, Saying, said_by};
use indexmap::IndexMap;
use rv_client::Outstanding;
use rv_text::{Call, Message, NoMemory};
use std::alloc::{AllocError, Global};
use std::marker::Model;

#[derive(Drop)]
struct Client {
    // The greatest incarnation that it was started in.
    newest: u64,
    process: Option<Running>,
}

/// All clients that were started. Contracts see each one's process, if one runs, and its greatest
/// incarnation.
#[derive(Drop)]
pub struct Clients {
    clients: IndexMap<u64, Client>,
}

impl Model for Clients {
    ghost use Rattle.rv_world.specs.parts.Table.{ClientTable, newest_in, processes_in};

    ghost Value = { ClientTable };

    ghost view = { λ c. record {
      processes = processes_in c.clients.entries;
      newest = newest_in c.clients.entries;
    } };
}

impl Clients {
    ghost use Rattle.rv_world.specs.parts.Table.{EntersClient, StandsInTable, newest_of, running_of};
    ghost use Rattle.rv_world.specs.parts.Table.{with_process, IsAskingIn, IsReadyIn, SaysIn};
    ghost use Rattle.rv_world.specs.parts.Processes.{request_under, said_by};
    ghost use Rattle.rv_world.specs.declared.parts.process.Saying.TheVariants as sayings;

    // The table with no client. It takes no memory yet.
    pub(crate) fn empty(alloc: Global) -> Clients
        ensures { result ≡ record { processes = []; newest = [] } }
    {
        Clients {
            clients: IndexMap::new(alloc),
        }
    }

    // The greatest incarnation of a client, if it was started.
    pub(crate) fn newest(&self, client: u64) -> Option<u64>
        ensures { result ≡ newest_of self.now client }
    {
        Some(self.clients.get(&client)?.newest)
    }

    // The process of a client, if one runs.
    pub(crate) fn process(&self, client: u64) -> Option<&Running>
        ensures { option_map (λ process. process_in process.now) result ≡ running_of self.now client }
    {
        self.clients.get(&client)?.process.as_ref()
    }

    // Starts a client in an incarnation. Its process, if one ran, ends. If memory is refused, which may be so
    // only for a new client, the table stays.
    pub(crate) fn enter(
        &mut self,
        client: u64,
        newest: u64,
        process: Running,
    ) -> Result<(), NoMemory>
        ensures ok { OnOk result (EntersClient self.old self.new client newest (process_in process)) }
        ensures err { OnErr result (self.new ≡ self.old) }
    {
        let process = Some(process);
        match self.clients.insert(client, Client { newest, process }) {
            Ok(_) => Ok(()),
            Err(refused) => Err(AllocError::from(refused)),
        }
    }

    // Replaces the process of a client that stands in the table, and gives back what ran.
    pub(crate) fn replace_process(
        &mut self,
        client: u64,
        process: Option<Running>,
    ) -> Option<Running>
        requires { StandsInTable self.old client }
        ensures before { option_map process_in result ≡ running_of self.old client }
        ensures after { self.new ≡ with_process self.old client (option_map process_in process) }
    {
        match self.clients.get_mut(&client) {
            Some(entry) => std::mem::replace(&mut entry.process, process),
            None => unreachable!(),
        }
    }

    // Takes out the request of a client whose process is outstanding, until it is laid aside again.
    fn wake(&mut self, client: u64) -> Outstanding
        requires { IsAskingIn self.old client }
        ensures request { running_of self.old client ≡ Some (process.Outstanding result) }
        ensures after { self.new ≡ with_process self.old client None }
    {
        match self.replace_process(client, None) {
            Some(running) => running.outstanding(),
            None => unreachable!(),
        }
    }

    // Lays a request of a client that stands in the table aside.
    fn rest(&mut self, client: u64, outstanding: Outstanding)
        requires { StandsInTable self.old client }
        ensures { self.new ≡ with_process self.old client (Some (process.Outstanding outstanding)) }
    {
        self.replace_process(client, Some(Running::Outstanding(outstanding.park())));
    }

    // The message about its request that a client sends. Fails only if memory for a request was refused.
    pub(crate) fn say(
        &mut self,
        alloc: Global,
        client: u64,
        saying: Saying,
    ) -> Result<Message, NoMemory>
        requires { IsAskingIn self.old client }
        ensures says { IfOk result (SaysIn self.old client (said_by saying)) }
        ensures sure { OnErr result (saying ≡ sayings.Request) }
        ensures stays { self.new ≡ self.old }
    {
        let outstanding = self.wake(client);
        let said = said_by(alloc, &outstanding, saying);
        self.rest(client, outstanding);
        said
    }

    // Begins a call with the next key of a client whose process is idle.
    pub(crate) fn begin(&mut self, client: u64, call: Call)
        requires { IsReadyIn self.old client }
        ensures { (key : Key) → running_of self.old client ≡ Some (process.Idle (Some key))
            → self.new ≡ with_process self.old client (Some (process.Outstanding (request_under key call))) }
    {
        let outstanding = match self.replace_process(client, None) {
            Some(running) => running.idle().begin(call),
            None => unreachable!(),
        };
        self.rest(client, outstanding);
    }
}
