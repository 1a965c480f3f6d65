//! Reads the lines of a checkpoint, one after the other.
ghost use Rattle.std.specs.Prelude.{◌≡◌, ◌↔◌, ◌++◌, ◌∷◌, [], None, Some, Err, IfSome, IsTrue, OnOk};
ghost use Rattle.std.specs.Prelude.{false, length, true};
ghost use Rattle.rv_session.specs.ClientOrder.{ClientsRise};

use crate::head::{StateHead, read_head};
use crate::line::{StateLine, read_line};
use rv_account::state::resume::Snapshot;
use rv_book::lines::LineFault;
use rv_session::{ClientState, OpenPlace};
use rv_text::NoMemory;
use std::alloc::Global;

/// What was read of a checkpoint. It takes the memory of the state, and of no line.
#[derive(Drop)]
pub struct CheckpointReader {
    alloc: Global,
    head: Option<StateHead>,
    opens: Vec<OpenPlace>,
    clients: Vec<(u64, ClientState)>,
    // Whether its last line was read.
    ended: bool,
}

// Adds an open place to those that were read.
fn keep_open(opens: &mut Vec<OpenPlace>, there: OpenPlace) -> Result<(), NoMemory>
    ensures { OnOk result (opens.new.items ≡ opens.old.items ++ there ∷ []) }
{
    Ok(opens.push(there)?)
}

// Adds a client to those that were read.
fn keep_client(
    clients: &mut Vec<(u64, ClientState)>,
    known: (u64, ClientState),
) -> Result<(), NoMemory>
    ensures { OnOk result (clients.new.items ≡ clients.old.items ++ known ∷ []) }
{
    Ok(clients.push(known)?)
}

// Whether clients stand in the order of their numbers, each once.
fn clients_rise(clients: &[(u64, ClientState)]) -> bool
    ensures { IsTrue result ↔ ClientsRise clients.now }
{
    clients.is_sorted_by(|one, other| one.0 < other.0)
}

impl CheckpointReader {
    ghost use Rattle.rv_checkpoint.specs.Reading.{AddsSaid, GivesNoState, GivesState, GoesOnBy, HasBeenTold};
    ghost use Rattle.rv_checkpoint.specs.Reading.{IsNoNextOf, StopsAtNext, said_to};
    ghost use Rattle.rv_checkpoint.specs.declared.line.StateLine.TheVariants as said;

    /// A reader that has read no line. It takes no memory yet.
    pub fn new(alloc: Global) -> CheckpointReader
        ensures { HasBeenTold [] result }
    {
        CheckpointReader {
            alloc,
            head: None,
            opens: Vec::new(alloc),
            clients: Vec::new(alloc),
            ended: false,
        }
    }

    // Reads the first line.
    fn take_head(&mut self, line: &[u8]) -> Result<(), LineFault>
        requires { self.old.head ≡ None }
        ensures taken { OnOk result (GoesOnBy self.old line.now self.new) }
        ensures bad { result ≡ Err LineFault.Bad → StopsAtNext self.old line.now }
    {
        let head = read_head(line).ok_or(LineFault::Bad)?;
        self.head = Some(head);
        Ok(())
    }

    // Adds an open place, before all clients.
    fn add_open(&mut self, there: OpenPlace) -> Result<(), LineFault>
        requires { self.old.ended ≡ false }
        ensures added { OnOk result (AddsSaid self.old self.new (said.Open there)) }
        ensures bad { result ≡ Err LineFault.Bad → IsNoNextOf (said_to self.old) (said.Open there) }
    {
        if !self.clients.is_empty() {
            return Err(LineFault::Bad);
        }
        keep_open(&mut self.opens, there)?;
        Ok(())
    }

    // Adds a client.
    fn add_client(&mut self, client: u64, session: ClientState) -> Result<(), LineFault>
        requires { self.old.ended ≡ false }
        ensures added { OnOk result (AddsSaid self.old self.new (said.Client client session)) }
        ensures bad { ¬ (result ≡ Err LineFault.Bad) }
    {
        keep_client(&mut self.clients, (client, session))?;
        Ok(())
    }

    // Whether so many open places and clients were said.
    fn has_said(&self, opens: u64, clients: u64) -> bool
        ensures { IsTrue result ↔ (opens ≡ length self.now.opens.items)
            × (clients ≡ length self.now.clients.items) }
    {
        opens == self.opens.len() as u64 && clients == self.clients.len() as u64
    }

    // Ends with these numbers.
    fn end(&mut self, opens: u64, clients: u64) -> Result<(), LineFault>
        requires { self.old.ended ≡ false }
        ensures added { OnOk result (AddsSaid self.old self.new (said.End opens clients)) }
        ensures bad { result ≡ Err LineFault.Bad → IsNoNextOf (said_to self.old) (said.End opens clients) }
    {
        if !self.has_said(opens, clients) {
            return Err(LineFault::Bad);
        }
        self.ended = true;
        Ok(())
    }

    // Adds what a line says.
    fn add(&mut self, line: StateLine) -> Result<(), LineFault>
        ensures added { OnOk result (AddsSaid self.old self.new line) }
        ensures bad { result ≡ Err LineFault.Bad → IsNoNextOf (said_to self.old) line }
    {
        if self.ended {
            return Err(LineFault::Bad);
        }
        match line {
            StateLine::Open(there) => self.add_open(there),
            StateLine::Client(client, session) => self.add_client(client, session),
            StateLine::End { opens, clients } => self.end(opens, clients),
        }
    }

    // Reads a line after the first.
    fn take_part(&mut self, head: StateHead, line: &[u8]) -> Result<(), LineFault>
        requires { self.old.head ≡ Some head }
        ensures taken { OnOk result (GoesOnBy self.old line.now self.new) }
        ensures bad { result ≡ Err LineFault.Bad → StopsAtNext self.old line.now }
    {
        let said = read_line(self.alloc, head.epoch, line)?;
        self.add(said)
    }

    /// Reads the next line, without its LF. [`LineFault::Bad`] comes only where no checkpoint's lines go on
    /// so, whatever follows, and [`LineFault::NoMemory`] only where memory was refused. After a fault nothing
    /// is known of what was read.
    pub fn take(&mut self, line: &[u8]) -> Result<(), LineFault>
        ensures taken { OnOk result (GoesOnBy self.old line.now self.new) }
        ensures bad { result ≡ Err LineFault.Bad → StopsAtNext self.old line.now }
    {
        match self.head {
            None => self.take_head(line),
            Some(head) => self.take_part(head, line),
        }
    }

    // Whether all was said, of clients in their order.
    fn is_whole(&self) -> bool
        ensures { IsTrue result ↔ (self.now.ended ≡ true) × ClientsRise self.now.clients.items }
    {
        self.ended && clients_rise(&self.clients)
    }

    /// The state that the lines say; none exactly if they say none, since the first or the last line isn't
    /// there, clients don't stand in the order of their numbers, or no machine can resume from what they say.
    pub fn finish(self) -> Option<Snapshot>
        ensures some { IfSome result (GivesState self) }
        ensures none { result ≡ None → GivesNoState self }
    {
        let head = self.head?;
        if !self.is_whole() {
            return None;
        }
        let state = Snapshot::from_parts(
            head.epoch,
            head.moment,
            head.length,
            self.opens,
            self.clients,
        )?;
        if state.can_resume() {
            Some(state)
        } else {
            None
        }
    }
}
