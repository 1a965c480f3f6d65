//! Gives the lines of a state, one after the other.
ghost use Rattle.std.specs.Prelude.{◌≡◌, ◌≤◌, ◌+◌, ◌++◌, ◌∷◌, [], List, ℕ, None, Ok};
ghost use Rattle.std.specs.Prelude.{IfErr, IfOk, IfSome, length, option_map, slice_get, string_bytes};
ghost use Rattle.rv_account.specs.state.State as states;
ghost use Rattle.rv_account.specs.state.resume.Resuming.{CanResume};
ghost use Rattle.rv_book.specs.lines.Lines.{lines, printed_lines};
ghost use Rattle.rv_checkpoint.specs.Reading.{SaysState};

use crate::client::client_line;
use crate::head::{StateHead, end_line, head_line};
use crate::open::open_line;
use rv_account::state::resume::Snapshot;
use rv_session::{ClientState, OpenPlace};
use rv_text::NoMemory;
use std::alloc::Global;

/// The lines of a state from which a machine can resume, given one by one. It holds the state, and no line
/// that it has given.
#[derive(Drop)]
pub struct CheckpointWriter {
    head: StateHead,
    opens: Vec<OpenPlace>,
    clients: Vec<(u64, ClientState)>,
    // How many lines were given.
    given: usize,
}

impl CheckpointWriter {
    ghost use Rattle.rv_checkpoint.specs.Giving.{CanGive, GivesNext, HasGiven, WritesState, IsTextAt};

    /// Gives the lines of this state from the first on.
    pub fn new(state: Snapshot) -> CheckpointWriter
        requires { CanResume state }
        ensures ready { CanGive result }
        ensures state { WritesState result state }
        ensures given { HasGiven [] result }
    {
        let (epoch, moment, length, opens, clients) = state.into_parts();
        CheckpointWriter {
            head: StateHead {
                epoch,
                moment,
                length,
            },
            opens,
            clients,
            given: 0,
        }
    }

    // The open place at an index.
    fn place_at(&self, index: usize) -> Option<&OpenPlace>
        ensures { option_map (λ o. o.now) result ≡ slice_get self.now.opens.items index }
    {
        self.opens.get(index)
    }

    // The client at an index.
    fn known_at(&self, index: usize) -> Option<&(u64, ClientState)>
        ensures { option_map (λ k. k.now) result ≡ slice_get self.now.clients.items index }
    {
        self.clients.get(index)
    }

    // The line that comes at this index after those of all clients: the last one, or none.
    fn last_line(&self, alloc: Global, index: usize) -> Result<Option<String>, NoMemory>
        requires { length self.now.clients.items ≤ index }
        ensures { IfOk result (IsTextAt self.now (length self.now.opens.items + index)) }
    {
        if index > self.clients.len() {
            return Ok(None);
        }
        Ok(Some(end_line(alloc, self.opens.len(), self.clients.len())?))
    }

    // The line that comes at this index after those of all open places.
    fn later_line(&self, alloc: Global, index: usize) -> Result<Option<String>, NoMemory>
        ensures { IfOk result (IsTextAt self.now (length self.now.opens.items + index)) }
    {
        match self.known_at(index) {
            Some(known) => { Ok(Some(client_line(alloc, self.head.epoch, known.0, &known.1)?)) }
            None => self.last_line(alloc, index),
        }
    }

    // The line that comes at this index after the first; none after the last.
    fn line_at(&self, alloc: Global, index: usize) -> Result<Option<String>, NoMemory>
        requires { CanGive self.now }
        ensures { IfOk result (IsTextAt self.now index) }
    {
        match self.place_at(index) {
            Some(there) => Ok(Some(open_line(alloc, there)?)),
            None => self.later_line(alloc, index - self.opens.len()),
        }
    }

    // The next line.
    fn look(&self, alloc: Global) -> Result<Option<String>, NoMemory>
        requires { CanGive self.now }
        ensures { IfOk result (GivesNext self.now) }
    {
        match self.given {
            0 => Ok(Some(head_line(alloc, self.head)?)),
            given => self.line_at(alloc, given - 1),
        }
    }

    /// The next line, with no LF; `None` once all were given, and from then on. What was given, each line
    /// with LF, is then read as the state. Fails only if memory was refused; the next call then gives this
    /// line.
    pub fn next_line(&mut self, alloc: Global) -> Result<Option<String>, NoMemory>
        requires ready { CanGive self.old }
        ensures ready { CanGive self.new }
        ensures state { (s : states.State) → WritesState self.old s → WritesState self.new s }
        ensures gives { IfOk result (λ next. IfSome next (λ line. (before : List (List ℕ))
            → HasGiven before self.old → HasGiven (before ++ string_bytes line ∷ []) self.new)) }
        ensures ends { result ≡ Ok None → (before : List (List ℕ)) (s : states.State) → WritesState self.old s
            → HasGiven before self.old → SaysState (lines (printed_lines before)) s }
        ensures rests { result ≡ Ok None → self.new ≡ self.old }
        ensures same { IfErr result (λ _. self.new ≡ self.old) }
    {
        match self.look(alloc)? {
            Some(line) => {
                self.given += 1;
                Ok(Some(line))
            }
            None => Ok(None),
        }
    }
}
