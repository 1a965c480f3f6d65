//! A file in memory that keeps its calls: a crash leaves each byte old or written, until a sync.
ghost use Rattle.std.specs.Prelude.{◌≡◌, [], ◌∷◌, ◌++◌, ◌+◌, ◌<◌, ◌≤◌, length, slice_index, IfOk};
ghost use Rattle.std.specs.Prelude.{OnErr, OnOk};
ghost use Rattle.rv_journal.specs.Device.{Holds, Mixed, Only, ReadsAt};
ghost use Rattle.rv_journal.specs.Memory.{IsCalled, IsWritten, LeavesAfter, LeavesOf, after_call};
ghost use Rattle.rv_journal.specs.Memory.{has_bytes, memory_disk, memory_state};
ghost use Rattle.rv_journal.specs.declared.testing.memory.DeviceCall.TheVariants.{Sync};

use crate::device::{Device, DeviceFault};
use std::alloc::{AllocError, Global};
use std::marker::Model;

#[derive(Drop)]
enum DeviceCall {
    Write(usize, Vec<u8>),
    Sync,
}

/// A file in memory, for tests. It never fails but for want of memory.
///
/// It keeps what it had at first and each call, so that contracts can say what a crash at any of its moments
/// might have left.
#[derive(Drop)]
pub struct Memory {
    kept: KeptCalls,
}

// Which file it is, what it had at first, its calls, and what they made of it.
#[derive(Drop)]
struct KeptCalls {
    alloc: Global,
    number: u64,
    first: Vec<u8>,
    bytes: Vec<u8>,
    calls: Vec<DeviceCall>,
}

impl Model for Memory {
    ghost use Rattle.rv_journal.specs.Memory.{MemoryState, has_bytes, memory_state};

    ghost Value = { MemoryState };

    ghost view = { λ m. memory_state m.kept };

    ghost invariant = { λ m. has_bytes m.kept };
}

impl Memory {
    /// A file with these bytes, all of them stored. A folder knows it by the number.
    pub fn new(alloc: Global, number: u64, bytes: Vec<u8>) -> Result<Memory, AllocError>
        ensures number { IfOk result (λ file. memory_disk.number file ≡ number) }
        ensures began { IfOk result (λ file. memory_disk.moment file ≡ 0) }
        ensures bytes { IfOk result (λ file. memory_disk.seen file ≡ bytes.items) }
        ensures stored { IfOk result (λ file. Only bytes.items (memory_disk.may_leave file)) }
    {
        let first = bytes.to_vec(alloc)?;
        let calls = Vec::new(alloc);
        let kept = KeptCalls {
            alloc,
            number,
            first,
            bytes,
            calls,
        };
        Ok(Memory { kept })
    }

    /// Its number.
    pub fn number(&self) -> u64
        ensures { result ≡ memory_disk.number self.now }
    {
        self.kept.number
    }

    /// Its moment: how many calls of it were made.
    pub fn moment(&self) -> usize
        ensures { result ≡ memory_disk.moment self.now }
    {
        self.kept.calls.len()
    }

    /// What a read returns.
    pub fn bytes(&self) -> &[u8]
        ensures { result.now ≡ memory_disk.seen self.now }
    {
        &self.kept.bytes
    }

    /// The file that a crash now leaves, all of it stored: one of those that it may. The bits of `number`,
    /// the lowest first, say of each byte that was written since the last sync whether it is stored; where
    /// they end none is. A byte past the file's end that isn't stored is zero.
    ///
    /// It copies the file twice for each call that was made.
    pub fn after_crash(&self, alloc: Global, number: u64) -> Result<Memory, AllocError>
        ensures same { IfOk result (λ file. memory_disk.number file ≡ memory_disk.number self.now) }
        ensures left { IfOk result (λ file. memory_disk.may_leave self.now (memory_disk.seen file)) }
        ensures stored { IfOk result (λ file. Only (memory_disk.seen file) (memory_disk.may_leave file)) }
    {
        let bytes = self.kept.left(alloc, number)?;
        Memory::new(alloc, self.kept.number, bytes)
    }
}

// These bytes with others over them from this offset on.
fn overwritten(alloc: Global, old: &[u8], at: usize, bytes: &[u8]) -> Result<Vec<u8>, AllocError>
    ensures { IfOk result (λ next. Holds old.now at bytes.now next.items) }
{
    let mut next = old[..old.len().min(at)].to_vec(alloc)?;
    next.extend_from_slice(bytes)?;
    let end = at.saturating_add(bytes.len());
    if end < old.len() {
        next.extend_from_slice(&old[end..])?;
    }
    Ok(next)
}

// A bit of this number, and the number without it.
fn next_bit(number: &mut u64) -> bool {
    let is_set = *number % 2 == 1;
    *number /= 2;
    is_set
}

// What the bytes at this place are where the new one wasn't stored.
fn unstored(old: &[u8], place: usize) -> u8
    ensures { result ≡ slice_index old.now place }
{
    old.get(place).copied().unwrap_or(0)
}

// These bytes with others over them, but for those that the bits say aren't stored.
fn mixed(
    alloc: Global,
    old: &[u8],
    at: usize,
    bytes: &[u8],
    bits: &mut u64,
) -> Result<Vec<u8>, AllocError>
    ensures { IfOk result (λ new. Mixed at bytes.now old.now new.items) }
{
    let mut new = overwritten(alloc, old, at, bytes)?;
    for place in at.min(new.len())..at.saturating_add(bytes.len()).min(new.len()) {
        if !next_bit(bits) {
            new[place] = unstored(old, place);
        }
    }
    Ok(new)
}

// A file that is written anew call by call: what is seen of it, and what a crash leaves by a number's bits.
#[derive(Drop)]
struct Replay {
    seen: Vec<u8>,
    left: Vec<u8>,
    number: u64,
    // those that are left for the bytes since the last sync
    bits: u64,
}

impl Replay {
    // Makes a call. If memory is refused, it is of no further use.
    fn call(&mut self, alloc: Global, call: &DeviceCall) -> Result<(), AllocError>
        ensures seen { OnOk result (self.new.seen.items ≡ after_call self.old.seen.items call.now) }
        ensures left { OnOk result (LeavesAfter (λ c. c ≡ self.old.left.items) self.old.seen.items
            (call.now ∷ []) self.new.left.items) }
    {
        match call {
            DeviceCall::Write(at, bytes) => {
                self.left = mixed(alloc, &self.left, *at, bytes, &mut self.bits)?;
                self.seen = overwritten(alloc, &self.seen, *at, bytes)?;
            }
            DeviceCall::Sync => {
                self.left = self.seen.to_vec(alloc)?;
                self.bits = self.number;
            }
        }
        Ok(())
    }
}

// How many bytes from this offset on were copied to the front of the room: as many as there are, and fit.
fn copied_from(bytes: &[u8], at: usize, room: &mut [u8]) -> usize
    ensures reads { ReadsAt bytes.now at result room.new }
    ensures within { result ≤ length room.new }
    ensures below { 0 < result → at + result ≤ length bytes.now }
{
    if bytes.len() <= at {
        return 0;
    }
    let count = room.len().min(bytes.len() - at);
    room[..count].copy_from_slice(&bytes[at..at + count]);
    count
}

// Keeps a call. If memory is refused nothing changes.
fn record(calls: &mut Vec<DeviceCall>, call: DeviceCall) -> Result<(), AllocError>
    ensures kept { OnOk result (calls.new.items ≡ calls.old.items ++ call ∷ []) }
    ensures refused { OnErr result (calls.new.items ≡ calls.old.items) }
{
    calls.push(call)?;
    Ok(())
}

impl KeptCalls {
    // What a crash leaves of it by the bits of this number.
    fn left(&self, alloc: Global, number: u64) -> Result<Vec<u8>, AllocError>
        ensures { IfOk result (λ left. LeavesOf self.now.first.items self.now.calls.items left.items) }
    {
        let mut replay = Replay {
            seen: self.first.to_vec(alloc)?,
            left: self.first.to_vec(alloc)?,
            number,
            bits: number,
        };
        for call in self.calls.iter() {
            replay.call(alloc, call)?;
        }
        Ok(replay.left)
    }

    // Writes over what it has. If memory is refused nothing changes.
    fn write(&mut self, at: usize, bytes: &[u8]) -> Result<(), AllocError>
        requires bytes { has_bytes self.old }
        requires within { at ≤ length self.old.bytes.items }
        ensures bytes { has_bytes self.new }
        ensures written { OnOk result
            (IsWritten at bytes.now (memory_state self.old) (memory_state self.new)) }
        ensures refused { OnErr result (memory_state self.new ≡ memory_state self.old) }
    {
        let next = overwritten(self.alloc, &self.bytes, at, bytes)?;
        let written = bytes.to_vec(self.alloc)?;
        record(&mut self.calls, DeviceCall::Write(at, written))?;
        self.bytes = next;
        Ok(())
    }

    // Stores what it has. If memory is refused nothing changes.
    fn sync(&mut self) -> Result<(), AllocError>
        requires bytes { has_bytes self.old }
        ensures bytes { has_bytes self.new }
        ensures synced { OnOk result (IsCalled Sync (memory_state self.old) (memory_state self.new)) }
        ensures refused { OnErr result (memory_state self.new ≡ memory_state self.old) }
    {
        record(&mut self.calls, DeviceCall::Sync)
    }
}

impl Device for Memory {
    ghost disk = { memory_disk };

    fn read_at(&mut self, at: usize, room: &mut [u8]) -> Result<usize, DeviceFault> {
        Ok(copied_from(&self.kept.bytes, at, room))
    }

    fn write_at(&mut self, at: usize, bytes: &[u8]) -> Result<(), DeviceFault> {
        Ok(self.kept.write(at, bytes)?)
    }

    fn sync(&mut self) -> Result<(), DeviceFault> {
        Ok(self.kept.sync()?)
    }
}
