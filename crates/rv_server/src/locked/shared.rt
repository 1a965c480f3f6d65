//! The desk behind its lock, and the seats of the workers: their shares in the number of its entries.
ghost use Rattle.std.specs.Prelude.{◌≡◌, ◌≤◌, ◌+◌, ◌-◌, ◌<◌, ◌≢◌, IfOk, IfErr, OnOk, OnErr, sum, vec_len};
ghost use Rattle.rv_text.specs.Limits.{FitsAnswer, FitsMessage};
ghost use Rattle.rv_server.specs.locked.Asking.{IsAsked};
ghost use Rattle.rv_server.specs.locked.Stamps.{added_by};

use crate::locked::asking::FrameAnswer;
use crate::locked::desk::Desk;
use rv_text::{Message, NoMemory};
use std::alloc::Global;
use std::marker::Model;
use std::sync::ledger::{Blank, Book as Tally, Ledger, Share};
use std::sync::{Mutex, MutexGuard, Wait};
use thiserror::Error;

/// The most workers of a server.
pub const MAX_WORKERS: usize = 64;

/// The desk that the lock guards, with the total of its entries. Contracts see it as the desk. The total is
/// always the number of the desk's entries.
#[derive(Drop)]
pub struct Locked<D: Desk, L: Ledger> {
    desk: D,
    total: Tally<L>,
}

impl<D: Desk, L: Ledger> Model for Locked<D, L> {
    ghost use Rattle.std.specs.Prelude.{◌≡◌};

    ghost Value = { D };

    ghost view = { λ locked. locked.desk };

    ghost invariant = { λ locked. D.count locked.desk ≡ locked.total.total };
}

/// One worker's share in the number of entries: those that its own messages added. Contracts see it as that
/// number.
#[derive(Drop)]
pub struct Seat<L: Ledger> {
    share: Share<L>,
}

impl<L: Ledger> Model for Seat<L> {
    ghost use Rattle.std.specs.Prelude.{◌≡◌, ℕ};

    ghost Value = { ℕ };

    ghost view = { λ seat. seat.share.amount };

    ghost invariant = { λ seat. seat.share.parts ≡ 1 };
}

/// A desk behind its lock. Contracts see it as the number of seats that were made for it. Only the type is
/// known of the desk that the lock gives, because other workers may have used it.
#[derive(Drop)]
pub struct Shared<D: Desk, L: Ledger> {
    locked: Mutex<Locked<D, L>>,
    seats: usize,
}

impl<D: Desk, L: Ledger> Model for Shared<D, L> {
    ghost use Rattle.std.specs.Prelude.{◌≡◌, ◌≤◌, ℕ};

    ghost Value = { ℕ };

    ghost view = { λ shared. shared.seats };

    ghost invariant = { λ shared. (1 ≤ shared.seats) × (shared.seats ≡ L.parts) };
}

/// Hands one message that keeps its limits to the desk, under the lock. The entries that it added are
/// counted in the total and in the seat.
pub fn serve_message<D: Desk, L: Ledger>(
    locked: &mut Locked<D, L>,
    seat: &mut Seat<L>,
    now: u64,
    message: Message,
) -> D::Stamp
    requires { FitsMessage message }
    ensures step { D.steps locked.old now message locked.new result }
    ensures gave { D.gave locked.new result }
    ensures asked { (D.stamped result).asked ≡ message }
    ensures fits { FitsAnswer (D.stamped result).said }
    ensures before { (D.stamped result).before ≡ D.count locked.old }
    ensures length { (D.stamped result).length ≡ D.count locked.new }
    ensures share { seat.new ≡ seat.old + added_by (D.stamped result) }
    ensures never_lower { D.count locked.old ≤ D.count locked.new }
    ensures within { seat.new ≤ D.count locked.new }
{
    let Locked { desk, total } = locked;
    let before = desk.entries();
    let stamp = desk.handle(now, message);
    total.add(&mut seat.share, desk.entries() - before);
    total.audit(&mut seat.share);
    stamp
}

impl<D: Desk, L: Ledger> Locked<D, L> {
    // Has the desk handle one message, and makes its answer.
    fn ask(
        &mut self,
        alloc: Global,
        seat: &mut Seat<L>,
        now: u64,
        message: Message,
    ) -> (D::Stamp, FrameAnswer)
        requires { FitsMessage message }
        ensures { IsAsked D.stamped message seat.old seat.new result }
    {
        let stamp = serve_message(self, seat, now, message);
        match self.desk.answer(alloc, &stamp) {
            Ok(answer) => (stamp, FrameAnswer::Said(answer)),
            Err(_) => (stamp, FrameAnswer::NoMemory),
        }
    }
}

/// The end of a server: its desk, and the number of the desk's entries.
#[derive(Drop)]
pub struct Closing<D: Desk> {
    /// The desk, as the last message left it.
    pub desk: D,
    /// The number of its entries.
    pub total: u64,
}

/// The number of seats isn't the number that was made. Nothing has changed.
#[derive(Clone, Copy, Debug, Error)]
#[error("there are not as many seats as were made")]
pub struct ForeignSeat;

impl<D: Desk, L: Ledger> Shared<D, L> {
    ghost use Rattle.std.specs.Prelude.{All};
    ghost use Rattle.rv_server.specs.declared.locked.shared.TheConstants.{MAX_WORKERS};

    /// Puts a desk with no entries behind a lock, and makes one seat with the share 0 for each of 1 to 64
    /// workers. The blank ledger has one part for each. If memory is refused, the desk is dropped.
    pub fn open(
        alloc: Global,
        blank: Blank,
        desk: D,
        workers: usize,
    ) -> Result<(Shared<D, L>, Vec<Seat<L>>), NoMemory>
        requires name { blank.name ≡ L.name }
        requires parts { blank.parts ≡ L.parts }
        requires made { blank.parts ≡ workers }
        requires some { 1 ≤ workers }
        requires most { workers ≤ MAX_WORKERS }
        requires empty { D.count desk ≡ 0 }
        ensures seats { IfOk result (λ opened. opened.0 ≡ workers) }
        ensures made { IfOk result (λ opened. vec_len opened.1 ≡ workers) }
        ensures shares { IfOk result (λ opened. All (λ share. share ≡ 0) opened.1.items) }
    {
        let mut seats = Vec::with_capacity(alloc, workers)?;
        let (total, mut all) = blank.open::<L>();
        while seats.len() + 1 < workers {
            let share = all.split_off(1, 0);
            seats.push_reserved(Seat { share });
        }
        seats.push_reserved(Seat { share: all });
        let locked = Mutex::new(Locked { desk, total });
        let shared = Shared {
            locked,
            seats: workers,
        };
        Ok((shared, seats))
    }

    /// Takes the lock, and holds the desk as long as the guard lives. It waits while another holds it.
    pub fn lock<T: Wait>(&self, rt: &T) -> MutexGuard<'_, Locked<D, L>> {
        self.locked.lock(rt)
    }

    // Has the desk handle one message, and makes its answer, under one hold of the lock.
    pub(crate) fn ask<T: Wait>(
        &self,
        rt: &T,
        alloc: Global,
        seat: &mut Seat<L>,
        now: u64,
        message: Message,
    ) -> (D::Stamp, FrameAnswer)
        requires { FitsMessage message }
        ensures { IsAsked D.stamped message seat.old seat.new result }
    {
        self.lock(rt).ask(alloc, seat, now, message)
    }
}

// All the shares in one, with the sum of their amounts.
fn merged<L: Ledger>(seats: Vec<Seat<L>>) -> Share<L>
    requires { 0 < vec_len seats }
    ensures parts { result.parts ≡ vec_len seats }
    ensures amount { result.amount ≡ sum seats.items }
{
    let mut seats = seats;
    let Seat { share } = seats.pop().unwrap();
    let mut all = share;
    while let Some(Seat { share }) = seats.pop() {
        all.merge(share);
    }
    all
}

/// Takes the desk out again, once all seats are handed in. The total is the number of the desk's entries
/// and the sum of the seats' shares: each entry was added by a message that was counted in one of these
/// seats. If the number of seats is another, everything is handed back. The ledger's type says that the
/// seats are those of this server. It takes no memory.
pub fn finish<D: Desk, L: Ledger>(
    shared: Shared<D, L>,
    seats: Vec<Seat<L>>,
) -> Result<Closing<D>, (Shared<D, L>, Vec<Seat<L>>, ForeignSeat)>
    ensures total { IfOk result (λ closing. closing.total ≡ D.count closing.desk) }
    ensures shares { IfOk result (λ closing. closing.total ≡ sum seats.items) }
    ensures all_there { OnOk result (vec_len seats ≡ shared) }
    ensures foreign { OnErr result (vec_len seats ≢ shared) }
    ensures handed_back { IfErr result (λ back. (back.0 ≡ shared) × (back.1.items ≡ seats.items)) }
{
    if seats.len() != shared.seats {
        return Err((shared, seats, ForeignSeat));
    }
    let mut all = merged(seats);
    let Shared { locked, seats: _ } = shared;
    let Locked { desk, mut total } = locked.into_inner();
    total.audit(&mut all);
    let total = desk.entries();
    Ok(Closing { desk, total })
}
