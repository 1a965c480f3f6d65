//! The checkpoints of a store: files of a state each, from which a start goes on.
ghost use Rattle.std.specs.Prelude.{◌≡◌, ◌++◌, ◌∷◌, ◌↔◌, ◌<◌, ◌⊎◌, IfOk, IfSome, IsTrue, OnOk, string_bytes};
ghost use Rattle.std.specs.Prelude.{[], Err, Ok, OnErr, true};
ghost use Rattle.rv_account.specs.state.resume.Resuming.{CanResume};
ghost use Rattle.rv_book.specs.lines.Lines.{lines};
ghost use Rattle.rv_checkpoint.specs.Reading.{SaysState};
ghost use Rattle.rv_frame.specs.Sink.{SinkTakes, sink_failed};
ghost use Rattle.rv_machine.specs.Machines.{state_in};
ghost use Rattle.rv_store.specs.declared.keeping.checkpoint.StateFault.TheVariants as OfState;
ghost use Rattle.rv_store.specs.keeping.Checkpoints.{TakesState, checkpoint_file};

use crate::keeping::fault::{KeepFault, refused, unusable};
use os::errno;
use rv_account::state::resume::Snapshot;
use rv_book::lines::after_text;
use rv_checkpoint::CheckpointWriter;
use rv_frame::{Sink, WriteFault};
use rv_machine::{Machine, NoMachine};
use rv_text::NoMemory;
use rv_verify::{VerifyFault, read_checkpoint};
use std::alloc::{AllocError, Global};
use std::fs::{self, File, TryLockError};
use std::io::{self, BufReader, BufWriter, ErrorKind, Write};

// How often checkpoints are listed again if the last one is gone before it is opened: each time another was
// made meanwhile.
const AGAIN: u32 = 8;

/// Why the lines of a state were not all written.
#[derive(Clone, Copy)]
pub enum StateFault {
    /// A write failed.
    Write,
    /// Memory was refused.
    NoMemory,
}

impl From<WriteFault> for StateFault {
    ghost from_gives = { λ _ told. told ≡ OfState.Write };

    fn from(_fault: WriteFault) -> StateFault {
        StateFault::Write
    }
}

impl From<AllocError> for StateFault {
    ghost from_gives = { λ _ told. told ≡ OfState.NoMemory };

    fn from(_fault: AllocError) -> StateFault {
        StateFault::NoMemory
    }
}

/// A checkpoint's place in the account of a store.
#[derive(Clone, Copy, PartialEq, Eq)]
pub struct CheckpointName {
    /// The account's epoch.
    pub epoch: u64,
    /// How many entries come before it.
    pub entries: u64,
}

impl CheckpointName {
    /// Where its file lies in a folder. Fails only if memory was refused.
    pub fn path(self, alloc: Global, folder: &str) -> Result<String, AllocError>
        ensures { IfOk result (λ path. string_bytes path ≡ folder.now ++ 47 ∷ checkpoint_file self) }
    {
        let file = self.file(alloc)?;
        format!(in alloc; "{folder}/{file}")
    }

    // The name of its file.
    fn file(self, alloc: Global) -> Result<String, AllocError>
        ensures { IfOk result (λ file. string_bytes file ≡ checkpoint_file self) }
    {
        let CheckpointName { epoch, entries } = self;
        format!(in alloc; "epoch-{epoch}-{entries}.state")
    }

    // The checkpoint that a file of this name is, if it is one.
    fn of(alloc: Global, name: &str) -> Result<Option<CheckpointName>, AllocError>
        ensures { IfOk result (λ found. IfSome found (λ own. name.now ≡ checkpoint_file own)) }
    {
        let numbers = name
            .strip_prefix("epoch-")
            .and_then(|rest| rest.strip_suffix(".state"))
            .and_then(|numbers| numbers.split_once('-'));
        let Some((epoch, entries)) = numbers else {
            return Ok(None);
        };
        let (Ok(epoch), Ok(entries)) = (epoch.parse::<u64>(), entries.parse::<u64>()) else {
            return Ok(None);
        };
        let found = CheckpointName { epoch, entries };
        let given = found.file(alloc)?;
        if given.as_str() == name {
            Ok(Some(found))
        } else {
            Ok(None)
        }
    }

    // Whether it is of a later epoch than another, or later in the same.
    fn is_after(self, other: CheckpointName) -> bool
        ensures { IsTrue result ↔ ((other.epoch < self.epoch)
            ⊎ ((other.epoch ≡ self.epoch) × (other.entries < self.entries))) }
    {
        other.epoch < self.epoch || (other.epoch == self.epoch && other.entries < self.entries)
    }
}

/// The checkpoints in a store's folder, in any order. Fails if the system refuses to list it, or memory was
/// refused.
pub fn checkpoints_in(rt: &HostRuntime, folder: &str) -> io::Result<Vec<CheckpointName>> {
    let mut found = Vec::new(rt.alloc());
    for entry in fs::read_dir(rt, folder)? {
        if let Some(name) = CheckpointName::of(rt.alloc(), entry?.file_name())? {
            found.push(name)?;
        }
    }
    Ok(found)
}

// The last of these that is of this epoch, if one is.
fn last_of(names: &[CheckpointName], epoch: u64) -> Option<CheckpointName> {
    let mut last = None;
    for name in names {
        if name.epoch == epoch && is_after_last(*name, last) {
            last = Some(*name);
        }
    }
    last
}

// Whether it is after the last one, if there is one.
fn is_after_last(name: CheckpointName, last: Option<CheckpointName>) -> bool {
    match last {
        Some(last) => name.is_after(last),
        None => true,
    }
}

// The state that a file says, if it says one.
fn state_in_file(rt: &HostRuntime, path: &str) -> io::Result<Option<Snapshot>> {
    let mut reader = BufReader::new(rt.alloc(), File::open(rt, path)?)?;
    match read_checkpoint(rt.alloc(), &mut reader) {
        Ok(found) => Ok(found),
        Err(VerifyFault::NoMemory) => Err(io::Error::from(ErrorKind::OutOfMemory)),
        Err(VerifyFault::ReadFault) => Err(io::Error::from_raw_os_error(errno())),
    }
}

// The machine of a state, if it is the state of this epoch after so many entries.
fn machine_of(alloc: Global, state: Snapshot, name: CheckpointName) -> Result<Machine, NoMachine>
    ensures resumes { IfOk result (λ machine. CanResume (state_in machine)) }
    ensures epoch { IfOk result (λ machine. (state_in machine).epoch ≡ name.epoch) }
    ensures entries { IfOk result (λ machine. (state_in machine).length ≡ name.entries) }
{
    match Machine::resume(alloc, state) {
        Ok(machine) if machine.epoch() != name.epoch => Err(NoMachine::Unfit),
        Ok(machine) if machine.length() as u64 != name.entries => Err(NoMachine::Unfit),
        Ok(machine) => Ok(machine),
        Err(why) => Err(why),
    }
}

// The machine of the checkpoint of this name.
fn read_named(rt: &HostRuntime, path: &str, name: CheckpointName) -> io::Result<Option<Machine>>
    ensures { IfOk result (λ found. IfSome found (λ machine. CanResume (state_in machine))) }
{
    let Some(state) = state_in_file(rt, path)? else {
        return Ok(None);
    };
    match machine_of(rt.alloc(), state, name) {
        Ok(machine) => Ok(Some(machine)),
        Err(NoMachine::Unfit) => Ok(None),
        Err(NoMachine::NoMemory) => Err(io::Error::from(ErrorKind::OutOfMemory)),
    }
}

/// The machine of the last checkpoint of an epoch's account in a store's folder, if there is one.
///
/// One that can't be read isn't passed over, since there may be no earlier one: it is told as unusable. One
/// that is gone since it was listed makes way for a later one.
pub(crate) fn last_checkpoint(
    rt: &HostRuntime,
    folder: &str,
    epoch: u64,
) -> Result<Option<Machine>, KeepFault>
    ensures { IfOk result (λ found. IfSome found (λ machine. CanResume (state_in machine))) }
{
    for _again in 0..AGAIN {
        let found = look(rt, folder, epoch);
        if !is_gone(&found) {
            return found;
        }
    }
    look(rt, folder, epoch)
}

// Whether a file was gone when it was opened.
fn is_gone(found: &Result<Option<Machine>, KeepFault>) -> bool {
    match found {
        Err(KeepFault::Named(_, why)) => why.kind() == ErrorKind::NotFound,
        _ => false,
    }
}

// The same, looked for once.
fn look(rt: &HostRuntime, folder: &str, epoch: u64) -> Result<Option<Machine>, KeepFault>
    ensures { IfOk result (λ found. IfSome found (λ machine. CanResume (state_in machine))) }
{
    let names = match checkpoints_in(rt, folder) {
        Ok(names) => names,
        Err(why) => return Err(refused(rt.alloc(), folder, why)),
    };
    let Some(name) = last_of(&names, epoch) else {
        return Ok(None);
    };
    let path = name.path(rt.alloc(), folder)?;
    match read_named(rt, &path, name) {
        Ok(Some(machine)) => Ok(Some(machine)),
        Ok(None) => {
            let why = String::from_str(rt.alloc(), "no checkpoint");
            Err(unusable(rt.alloc(), &path, why))
        }
        Err(why) => Err(refused(rt.alloc(), &path, why)),
    }
}

// Writes a line, and LF after it.
fn put_line<W: Write>(sink: &mut Sink<W>, line: String) -> Result<(), WriteFault>
    ensures took { OnOk result (SinkTakes W.contents sink.old sink.new (string_bytes line ++ 10 ∷ [])) }
    ensures fault { OnErr result (sink_failed sink.new ≡ true) }
{
    sink.write_all(line.as_bytes())?;
    sink.write_all(b"\n")
}

/// Writes the lines of a state, each with LF after it, as a checkpoint has them. Fails if a write failed or
/// memory was refused, after some of them.
pub fn write_state<W: Write>(
    alloc: Global,
    state: Snapshot,
    sink: &mut Sink<W>,
) -> Result<(), StateFault>
    requires { CanResume state }
    ensures took { OnOk result (TakesState W.contents sink.old sink.new state) }
    ensures fault { result ≡ Err OfState.Write → sink_failed sink.new ≡ true }
{
    let mut writer = CheckpointWriter::new(state);
    for _turn in 0..u64::MAX {
        match writer.next_line(alloc)? {
            Some(line) => put_line(sink, line)?,
            None => return Ok(()),
        }
    }
    Err(StateFault::NoMemory)
}

// What follows a line and its LF, with which these bytes begin, if they do.
fn after_line<'a>(line: &str, bytes: &'a [u8]) -> Option<&'a [u8]>
    ensures { IfSome result (λ rest. bytes.now ≡ (line.now ++ 10 ∷ []) ++ rest.now) }
{
    after_text(b"\n", after_text(line.as_bytes(), bytes)?)
}

/// Whether a text is the checkpoint of a state as [`write_state`] writes it. Fails only if memory was
/// refused.
pub fn is_checkpoint_of(alloc: Global, state: Snapshot, text: &[u8]) -> Result<bool, NoMemory>
    requires { CanResume state }
    ensures { result ≡ Ok true → SaysState (lines text.now) state }
{
    let mut writer = CheckpointWriter::new(state);
    let mut rest = text;
    for _turn in 0..u64::MAX {
        let Some(line) = writer.next_line(alloc)? else {
            return Ok(rest.is_empty());
        };
        let Some(after) = after_line(line.as_str(), rest) else {
            return Ok(false);
        };
        rest = after;
    }
    Ok(false)
}

// Writes the state of a machine into a new file of this path, and stores it.
fn store_state(rt: &HostRuntime, path: &str, machine: &Machine) -> io::Result<()>
    requires { CanResume (state_in machine.now) }
{
    let Ok(state) = machine.state() else {
        return Err(io::Error::from(ErrorKind::OutOfMemory));
    };
    let file = File::create(rt, path)?;
    let mut sink = Sink::new(BufWriter::new(rt.alloc(), &file)?);
    let written = write_state(rt.alloc(), state, &mut sink);
    match written {
        Ok(()) if sink.flush().is_ok() => file.sync_all(),
        Err(StateFault::NoMemory) => Err(io::Error::from(ErrorKind::OutOfMemory)),
        _ => Err(io::Error::from_raw_os_error(errno())),
    }
}

// Makes the file of a machine's checkpoint: under another name, until it is stored.
fn make(rt: &HostRuntime, folder: &str, machine: &Machine, path: &str) -> io::Result<()>
    requires { CanResume (state_in machine.now) }
{
    let unready = format!(in rt.alloc(); "{folder}/unready.state")?;
    if let Err(why) = store_state(rt, &unready, machine) {
        // what a full disk took is given back
        let _ = fs::remove_file(rt, unready.as_str());
        return Err(why);
    }
    fs::rename(rt, unready.as_str(), path)?;
    File::open(rt, folder)?.sync_all()
}

// Removes a file, if it is there.
fn remove(rt: &HostRuntime, path: &str) -> io::Result<()> {
    match fs::remove_file(rt, path) {
        Err(why) if why.kind() != ErrorKind::NotFound => Err(why),
        _ => Ok(()),
    }
}

// Removes the checkpoints before this one.
fn remove_before(rt: &HostRuntime, folder: &str, last: CheckpointName) -> io::Result<()> {
    for name in checkpoints_in(rt, folder)?.iter() {
        if last.is_after(*name) {
            let path = name.path(rt.alloc(), folder)?;
            remove(rt, &path)?;
        }
    }
    Ok(())
}

// Removes the checkpoints of an epoch.
fn remove_of(rt: &HostRuntime, folder: &str, epoch: u64) -> io::Result<()> {
    for name in checkpoints_in(rt, folder)?.iter() {
        if name.epoch == epoch {
            let path = name.path(rt.alloc(), folder)?;
            remove(rt, &path)?;
        }
    }
    File::open(rt, folder)?.sync_all()
}

/// Removes the checkpoints of an epoch whose account was begun: they are of one that was there before.
pub(crate) fn forget(rt: &HostRuntime, folder: &str, epoch: u64) -> Result<(), KeepFault> {
    match remove_of(rt, folder, epoch) {
        Ok(()) => Ok(()),
        Err(why) => Err(refused(rt.alloc(), folder, why)),
    }
}

/// Makes a checkpoint of a machine's state in a store's folder, and removes those before it once it is
/// stored: a crash leaves the last of them, or it. Fails if another `rv compact` does so, or the system
/// refuses it; then there is no other checkpoint than before, or both.
pub fn make_checkpoint(rt: &HostRuntime, folder: &str, machine: &Machine) -> Result<(), KeepFault>
    requires { CanResume (state_in machine.now) }
{
    let place = match File::open(rt, folder) {
        Ok(place) => place,
        Err(why) => return Err(refused(rt.alloc(), folder, why)),
    };
    if let Err(fault) = place.try_lock() {
        return Err(not_locked(rt.alloc(), folder, fault));
    }
    let name = CheckpointName {
        epoch: machine.epoch(),
        entries: machine.length() as u64,
    };
    let path = name.path(rt.alloc(), folder)?;
    match make(rt, folder, machine, &path).and_then(|()| remove_before(rt, folder, name)) {
        Ok(()) => Ok(()),
        Err(why) => Err(refused(rt.alloc(), &path, why)),
    }
}

// Why the checkpoints of a folder aren't this program's to make.
fn not_locked(alloc: Global, folder: &str, fault: TryLockError) -> KeepFault {
    match fault {
        TryLockError::WouldBlock => {
            unusable(
                alloc,
                folder,
                String::from_str(alloc, "another rv compact has it"),
            )
        }
        TryLockError::Error(why) => refused(alloc, folder, why),
    }
}
