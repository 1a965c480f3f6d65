//! A record of replies, line by line, beside what became of their requests.
ghost use Rattle.std.specs.Prelude.{◌≡◌, ◌<◌, ◌++◌, ◌==◌, ◌∷◌, [], ℕ, IfSome, IsSome, OnOk, length};
ghost use Rattle.std.specs.Prelude.{◌↔◌, IsTrue, None, Some, option_map, slice_get};
ghost use Rattle.rv_account.specs.Account.{Account, with_entry};
ghost use Rattle.rv_account.specs.rules.Legal.{Legal};
ghost use Rattle.rv_replies.specs.Firsts.{IsBeside};
ghost use Rattle.rv_replies.specs.declared.findings.Told as replies;

use crate::fates::Fates;
use crate::findings::{Fate, Finding, Told, is_same_reply, judge};
use crate::firsts::Firsts;
use crate::reading::{Flaw, NotRead, read_told};
use rv_account::Entry;
use rv_machine::Machine;
use rv_text::NoMemory;
use std::alloc::{AllocError, Global};

/// A growth of memory was refused.
#[derive(Clone, Copy)]
pub struct OutOfMemory;

impl From<AllocError> for OutOfMemory {
    fn from(_refused: AllocError) -> OutOfMemory {
        OutOfMemory
    }
}

/// A line of a record.
#[derive(Drop)]
pub enum Line {
    /// A reply that a client got.
    Told(Told),
    /// It isn't a record of a reply.
    Flawed(Flaw),
}

/// How a line of a record compares with the first one of its key.
#[derive(Clone, Copy, PartialEq, Eq)]
pub enum Beside {
    /// It has another reply.
    Differs,
    /// It repeats both request and reply.
    Repeats,
}

/// A record of replies, with what became of their requests in an account whose entries pass one by one. It
/// first takes its lines, and then each entry. Memory grows with the record alone.
pub struct Records {
    lines: Vec<Line>,
    fates: Fates,
    firsts: Firsts,
}

// Whoever owns one drops it in one step.
impl Drop for Records {
    fn drop(self) {
        let Records {
            lines: _,
            fates: _,
            firsts: _,
        } = self;
    }
}

impl Records {
    ghost use Rattle.rv_replies.specs.Known.{AsksAbout, HasPassedBy, IsAbout, fate_in};
    ghost use Rattle.rv_replies.specs.Firsts.{NotesFirst, StandsBeside};
    ghost use Rattle.rv_replies.specs.Standing.{AddsLine, AsksNothing, IsLineFinding, HasNoted};
    ghost use Rattle.rv_replies.specs.declared.findings.fate.Fate as fates;
    ghost use Rattle.rv_replies.specs.declared.records.Line.TheVariants as kinds;
    ghost use Rattle.rv_replies.specs.findings.Fates.{IsFateOf};

    /// A record with no lines. It takes no memory yet.
    pub fn new(alloc: Global) -> Records
        ensures lines { result.lines.items ≡ [] }
        ensures stands { (a : Account) → HasNoted result a }
    {
        Records {
            lines: Vec::new(alloc),
            fates: Fates::new(alloc),
            firsts: Firsts::new(alloc),
        }
    }

    /// How many lines it has.
    pub fn len(&self) -> usize
        ensures { result ≡ length self.now.lines.items }
    {
        self.lines.len()
    }

    /// Whether it has no line.
    pub fn is_empty(&self) -> bool
        ensures { result ≡ (length self.now.lines.items == 0) }
    {
        self.lines.is_empty()
    }

    /// Whether no line asks about a request. If so, nothing is noted.
    pub fn asks_nothing(&self) -> bool
        ensures { IsTrue result ↔ AsksNothing self.now }
    {
        self.fates.is_empty()
    }

    // Adds a line.
    fn push(&mut self, line: Line) -> Result<(), OutOfMemory>
        ensures lines { OnOk result (self.new.lines.items ≡ self.old.lines.items ++ line ∷ []) }
        ensures fates { self.new.fates ≡ self.old.fates }
        ensures firsts { self.new.firsts ≡ self.old.firsts }
    {
        match self.lines.push(line) {
            Ok(()) => Ok(()),
            Err(refused) => Err(AllocError::from(refused).into()),
        }
    }

    // Adds a reply.
    fn add(&mut self, told: Told) -> Result<(), OutOfMemory>
        ensures lines { OnOk result
            (self.new.lines.items ≡ self.old.lines.items ++ kinds.Told told ∷ []) }
        ensures asks { OnOk result (AsksAbout self.old.fates self.new.fates told.key) }
        ensures first { OnOk result
            (NotesFirst self.old.firsts self.new.firsts told.key (length self.old.lines.items)) }
    {
        self.fates.ask(&told.key)?;
        self.firsts.note(&told.key, self.lines.len())?;
        self.push(Line::Told(told))
    }

    /// Takes one more line. All must be taken before the first entry passes. Fails only if memory was
    /// refused; then the record is of no further use.
    pub fn take(&mut self, alloc: Global, line: &[u8]) -> Result<(), OutOfMemory>
        ensures adds { OnOk result (AddsLine self.old self.new line.now) }
        ensures stands { OnOk result ((a : Account) → a.entries ≡ [] → HasNoted self.old a
            → HasNoted self.new a) }
    {
        match read_told(alloc, line) {
            Ok(told) => self.add(told),
            Err(NotRead::Flawed(flaw)) => self.push(Line::Flawed(flaw)),
            Err(NotRead::NoMemory) => Err(OutOfMemory),
        }
    }

    /// Notes what an entry says of the requests of its replies, by the machine that has followed it. Fails
    /// only if memory was refused; then the record is of no further use.
    pub fn pass(&mut self, alloc: Global, machine: &Machine, entry: &Entry) -> Result<(), NoMemory>
        ensures lines { self.new.lines ≡ self.old.lines }
        ensures stands { OnOk result ((a : Account) → HasPassedBy machine.now a entry.now
            → HasNoted self.old a → HasNoted self.new (with_entry a entry.now)) }
    {
        self.fates.pass(alloc, machine, entry)
    }

    /// The line with an index.
    pub fn line(&self, index: usize) -> &Line
        requires { index < length self.now.lines.items }
        ensures { slice_get self.now.lines.items index ≡ Some result.now }
    {
        &self.lines[index]
    }

    /// What became of the request of the line with an index, if the line records a reply.
    pub fn fate(&self, index: usize) -> Option<&Fate>
        requires { index < length self.now.lines.items }
        ensures { (a : Account) (told : replies.Told)
            → slice_get self.now.lines.items index ≡ Some (kinds.Told told) → HasNoted self.now a
            → (fate : fates.Fate) × (option_map (λ f. f.now) result ≡ Some fate)
            × IsFateOf a.entries told.key fate }
    {
        match self.line(index) {
            Line::Told(told) => self.fates.get(&told.key),
            Line::Flawed(_) => None,
        }
    }

    /// The first line of the same request as the line with an index, and whether the line with that index has
    /// another reply or repeats the first one.
    pub fn beside_first(&self, index: usize) -> Option<(Beside, usize)>
        requires { index < length self.now.lines.items }
        ensures told { (a : Account) (told : replies.Told)
            → slice_get self.now.lines.items index ≡ Some (kinds.Told told) → HasNoted self.now a
            → StandsBeside self.now.lines.items index told result }
        ensures flawed { (flaw : Flaw) → slice_get self.now.lines.items index ≡ Some (kinds.Flawed flaw)
            → result ≡ None }
    {
        match self.line(index) {
            Line::Told(told) => self.told_beside(told, index),
            Line::Flawed(_) => None,
        }
    }

    // The same for a line that records a reply.
    fn told_beside(&self, told: &Told, index: usize) -> Option<(Beside, usize)>
        ensures { (a : Account) → slice_get self.now.lines.items index ≡ Some (kinds.Told told.now)
            → HasNoted self.now a → StandsBeside self.now.lines.items index told.now result }
    {
        match self.firsts.get(&told.key) {
            Some(first) => self.beside_line(told, index, first),
            None => None,
        }
    }

    // The same beside this line.
    fn beside_line(&self, told: &Told, index: usize, first: usize) -> Option<(Beside, usize)>
        ensures { (own : replies.Told) → slice_get self.now.lines.items first ≡ Some (kinds.Told own)
            → own.key ≡ told.now.key → IsBeside told.now index own first result }
    {
        match self.told_at(first) {
            Some(own) => compared(told, index, own, first),
            None => None,
        }
    }

    // The reply that the line with an index records, if it records one.
    fn told_at(&self, index: usize) -> Option<&Told>
        ensures some { IfSome result
            (λ told. slice_get self.now.lines.items index ≡ Some (kinds.Told told.now)) }
        ensures none { result ≡ None → (told : replies.Told)
            → ¬ (slice_get self.now.lines.items index ≡ Some (kinds.Told told)) }
    {
        match self.lines.get(index)? {
            Line::Told(told) => Some(told),
            Line::Flawed(_) => None,
        }
    }

    // The finding on a line.
    fn on_line(&self, line: &Line, epoch: u64) -> Finding
        ensures { (a : Account) → Legal a → a.epoch ≡ epoch → IsAbout self.now.fates a
            → ((told : replies.Told) → line.now ≡ kinds.Told told → IsSome (fate_in self.now.fates told.key))
            → IsLineFinding a line.now result }
    {
        match line {
            Line::Told(told) => match self.fates.get(&told.key) {
                Some(fate) => judge(told, epoch, fate),
                None => Finding::NoRequest,
            },
            Line::Flawed(_) => Finding::NoRecord,
        }
    }

    /// The finding on the line with an index in the account that has passed, which must be of this epoch.
    pub fn finding(&self, index: usize, epoch: u64) -> Finding
        requires inside { index < length self.now.lines.items }
        ensures { (a : Account) (line : kinds.the_data) → slice_get self.now.lines.items index ≡ Some line
            → Legal a → a.epoch ≡ epoch → HasNoted self.now a → IsLineFinding a line result }
    {
        self.on_line(self.line(index), epoch)
    }
}

// How the line with an index, which records this reply, compares with the first one, which records that.
fn compared(told: &Told, index: usize, own: &Told, first: usize) -> Option<(Beside, usize)>
    ensures { own.now.key ≡ told.now.key → IsBeside told.now index own.now first result }
{
    if !is_same_reply(&own.reply, &told.reply) {
        return Some((Beside::Differs, first));
    }
    if first != index && own.call.is_same(&told.call) {
        return Some((Beside::Repeats, first));
    }
    None
}
