//! What is open, with the tables by which it is found: what waits on each side, how many wait, and until
//! when.
ghost use Rattle.std.specs.Prelude.{◌≡◌, ◌<◌, [], ◌∷◌, ◌++◌, None, Some, IsSome, IfOk, IfSome, IfNone, OnOk};
ghost use Rattle.std.specs.Prelude.{OnErr, cond, is_some, length, option_map, slice_get};
ghost use Rattle.std.specs.FinMap.{get};
ghost use Rattle.std.specs.Option.{option_or};
ghost use Rattle.rv_account.specs.Calls.{opposite};
ghost use Rattle.rv_text.specs.Calls.{side_of, wait_of};
ghost use Rattle.rv_text.specs.Limits.{FitsQueue, FitsSide};
ghost use Rattle.rv_text.specs.declared.call.Side.TheVariants.{Gives, Takes};
ghost use Rattle.rv_machine.specs.open_places.OpenMap.{StandBelow, due_in, found_at, line_in, opposed_in};
ghost use Rattle.rv_machine.specs.open_places.OpenMap.{count_waiting, IsFirstDue, NeverDue, with_limit};
ghost use Rattle.rv_machine.specs.open_places.OpenMap.{all_but, without_limit, first_behind};
ghost use Rattle.rv_machine.specs.open_places.Indexed.{ClosesPlace, ClosesDue, ClosesFirst, MayPark};
ghost use Rattle.rv_machine.specs.open_places.Indexed.{ParksPlace, WaitsIn};
ghost use Rattle.rv_model_queues.specs.Meeting.{HasRoomOn, MakesRoomFor};
ghost use Rattle.rv_machine.specs.open_places.Reopening.{CanBeClaimed, ClaimsUpTo, MayReopen, MayResume};
ghost use Rattle.rv_machine.specs.open_places.Reopening.{duty_of_waiter};

use crate::open_places::opens::OpenMap;
use rv_due::Due;
use rv_model_queues::{Arrived, WaitQueues};
use rv_session::{Claims, Clients, Duty, OpenPlace, Place, ReturnedClients, Waiter};
use rv_text::{Call, Key, NoMemory, Side};
use std::alloc::Global;
use std::marker::Model;

/// What is open, which contracts see as the list of open places, the oldest first.
#[derive(Drop)]
pub struct OpenTable {
    opens: OpenMap,
    wait_queues: WaitQueues,
    // How many requests wait.
    waiting: usize,
    // The limits of those that have one, with their places.
    due: Due,
}

/// What became of an arrival that met somebody.
pub struct MetPlace {
    /// What stood at the place that it met.
    pub there: OpenPlace,
    /// Its own duty.
    pub own: Duty,
    /// The duty to settle the request that waited there, if one did.
    pub other: Option<Duty>,
}

impl Model for OpenTable {
    ghost use Rattle.std.specs.Prelude.{List};
    ghost use Rattle.rv_account.specs.state.State.{OpenPlace};
    ghost use Rattle.rv_machine.specs.open_places.Indexed.{AreIndexed};

    ghost Value = { List OpenPlace };

    ghost view = { λ t. t.opens };

    ghost invariant = { λ t. AreIndexed t.opens t.wait_queues t.waiting t.due };
}

// Takes the limit of a place out, if it has one.
fn forget(due: &mut Due, limit: Option<u64>, place: Place)
    ensures { due.new ≡ without_limit limit place due.old }
{
    if let Some(limit) = limit {
        due.remove(limit, place);
    }
}

// Lays an open place into the map and its limit among the deadlines. Fails only if memory was refused, and
// then both stay.
fn lay(opens: &mut OpenMap, due: &mut Due, opened: OpenPlace) -> Result<(), NoMemory>
    requires { StandBelow opens.old opened.place }
    ensures opened { OnOk result (opens.new ≡ opens.old ++ opened ∷ []) }
    ensures limit { OnOk result (due.new ≡ with_limit opened.limit opened.place due.old) }
    ensures opens { OnErr result (opens.new ≡ opens.old) }
    ensures due { OnErr result (due.new ≡ due.old) }
{
    let (place, limit) = (opened.place, opened.limit);
    opens.push(opened)?;
    match limit {
        Some(limit) => lay_limit(opens, due, limit, place),
        None => Ok(()),
    }
}

// Lays the limit of the place that was opened last among the deadlines, or else takes that place out again.
fn lay_limit(opens: &mut OpenMap, due: &mut Due, limit: u64, place: Place) -> Result<(), NoMemory>
    ensures opened { OnOk result (opens.new ≡ opens.old) }
    ensures limit { OnOk result (due.new ≡ with_limit (Some limit) place due.old) }
    ensures opens { OnErr result (opens.new ≡ all_but opens.old place) }
    ensures due { OnErr result (due.new ≡ due.old) }
{
    match due.add(limit, place) {
        Ok(()) => Ok(()),
        Err(refused) => {
            drop(opens.take(place));
            Err(refused)
        }
    }
}

// Makes room for an arrival with a call, and lays its open place. Fails only if memory was refused, and then
// all stays but for the room.
fn lay_for(
    wait_queues: &mut WaitQueues,
    opens: &mut OpenMap,
    due: &mut Due,
    opened: OpenPlace,
    call: &Call,
) -> Result<(), NoMemory>
    requires fits { FitsSide (side_of call.now) }
    requires below { StandBelow opens.old opened.place }
    ensures makes { MakesRoomFor wait_queues.old wait_queues.new (side_of call.now) (wait_of call.now) }
    ensures room { OnOk result (HasRoomOn wait_queues.new (side_of call.now) (wait_of call.now)) }
    ensures opened { OnOk result (opens.new ≡ opens.old ++ opened ∷ []) }
    ensures limit { OnOk result (due.new ≡ with_limit opened.limit opened.place due.old) }
    ensures opens { OnErr result (opens.new ≡ opens.old) }
    ensures due { OnErr result (due.new ≡ due.old) }
{
    match wait_queues.reserve(call) {
        Ok(()) => lay(opens, due, opened),
        Err(refused) => {
            drop(opened);
            Err(refused)
        }
    }
}

// How many requests a duty is for, one or none.
fn owing(duty: &Option<Duty>) -> usize
    ensures { result ≡ cond (is_some duty.now) 1 0 }
{
    usize::from(duty.is_some())
}

// The duty that is owed to the request that waits, if one does.
fn owed(claims: &mut Claims, waiter: Option<Waiter>) -> Option<Duty>
    requires { CanBeClaimed claims.old waiter }
    ensures duty { result ≡ duty_of_waiter claims.old.table.clients waiter }
    ensures last { claims.new.last ≡ option_or (option_map (λ d. d.place) result) claims.old.last }
    ensures table { claims.new.table ≡ claims.old.table }
{
    match waiter {
        Some(waiter) => claims.claim(waiter.key.client),
        None => None,
    }
}

// The duty of an arrival that met nobody, if it came back.
fn parked(arrived: Arrived) -> Option<Duty>
    requires { arrived.other ≡ None }
    ensures { result ≡ arrived.own }
{
    let Arrived {
        partner: _,
        own,
        other,
    } = arrived;
    match other {
        None => own,
        Some(_duty) => unreachable!(),
    }
}

impl OpenTable {
    /// Nothing is open.
    pub fn empty(alloc: Global) -> Result<OpenTable, NoMemory>
        ensures { IfOk result (λ table. table ≡ []) }
    {
        Ok(OpenTable {
            opens: OpenMap::new(alloc),
            wait_queues: WaitQueues::empty(alloc)?,
            waiting: 0,
            due: Due::new(alloc),
        })
    }

    /// The tables of what was open before, the oldest first, and of the duties that their clients are owed,
    /// each of which is made once. The clients come out again. Fails only if memory was refused.
    pub fn resume(
        alloc: Global,
        clients: ReturnedClients,
        places: Vec<OpenPlace>,
    ) -> Result<(OpenTable, Clients), NoMemory>
        requires { MayResume places.items clients.clients }
        ensures table { IfOk result (λ made. made.0 ≡ places.items) }
        ensures clients { IfOk result (λ made. made.1 ≡ clients) }
    {
        let mut table = OpenTable::empty(alloc)?;
        let mut claims = clients.claims();
        match table.reopen_all(&mut claims, places) {
            Ok(()) => Ok((table, claims.done())),
            Err(refused) => {
                drop(table);
                Err(refused)
            }
        }
    }

    // All that was open before is open in a table of nothing. Fails only if memory was refused.
    fn reopen_all(&mut self, claims: &mut Claims, places: Vec<OpenPlace>) -> Result<(), NoMemory>
        requires nothing { self.old ≡ [] }
        requires may { MayResume places.items claims.old.table.clients }
        requires unclaimed { claims.old.last ≡ None }
        ensures opened { OnOk result (self.new ≡ places.items) }
        ensures table { claims.new.table ≡ claims.old.table }
    {
        for opened in places {
            self.reopen(claims, opened)?;
        }
        Ok(())
    }

    // One more that was open before is open, after all others. Fails only if memory was refused.
    fn reopen(&mut self, claims: &mut Claims, opened: OpenPlace) -> Result<(), NoMemory>
        requires { MayReopen self.old opened claims.old }
        ensures ok { OnOk result (self.new ≡ self.old ++ opened ∷ []) }
        ensures err { OnErr result (self.new ≡ self.old) }
        ensures last { ClaimsUpTo claims.old.last opened.place claims.new.last }
        ensures table { claims.new.table ≡ claims.old.table }
    {
        let (place, side, waiter) = (opened.place, opened.side, opened.waiter);
        self.wait_queues.reserve_on(side)?;
        lay(&mut self.opens, &mut self.due, opened)?;
        let duty = owed(claims, waiter);
        self.waiting += owing(&duty);
        self.wait_queues.lay(side, place, duty);
        Ok(())
    }

    /// A copy of what is open, the oldest first. Fails only if memory was refused.
    pub fn places(&self, alloc: Global) -> Result<Vec<OpenPlace>, NoMemory>
        ensures { IfOk result (λ places. places.items ≡ self.now) }
    {
        self.opens.copies(alloc)
    }

    /// How many places are open.
    pub fn len(&self) -> usize
        ensures { result ≡ length self.now }
    {
        self.opens.len()
    }

    /// How many requests wait.
    pub fn waiting(&self) -> usize
        ensures { result ≡ count_waiting self.now }
    {
        self.waiting
    }

    /// What is open at a place.
    pub fn get(&self, place: Place) -> Option<&OpenPlace>
        ensures { option_map (λ o. o.now) result ≡ found_at self.now place }
    {
        self.opens.get(place)
    }

    /// Closes the place of a request that waits, and gives what stood there and the duty to settle it.
    pub fn close(&mut self, place: Place) -> (OpenPlace, Duty)
        requires { WaitsIn self.old place }
        ensures { ClosesPlace self.old self.new place result.0 (Some result.1) }
    {
        let there = self.opens.take(place).unwrap();
        let duty = self.wait_queues.withdraw(there.side, place).unwrap();
        forget(&mut self.due, there.limit, place);
        self.waiting -= 1;
        (there, duty)
    }

    /// Closes the place of the request whose limit comes first, if that is at or before a moment. If none is,
    /// nothing changes.
    pub fn close_due(&mut self, moment: u64) -> Option<(OpenPlace, Duty)>
        ensures some { IfSome result (λ out. ClosesDue self.old self.new moment out.0 out.1) }
        ensures none { IfNone result (due_in self.old moment ≡ []) }
        ensures stays { IfNone result (self.new ≡ self.old) }
    {
        let (_, place) = self.due.pop_until(moment)?;
        let there = self.opens.take(place).unwrap();
        let duty = self.wait_queues.withdraw(there.side, place).unwrap();
        self.waiting -= 1;
        Some((there, duty))
    }

    /// The first moment at which something is due, if a request that waits has a limit.
    pub fn next_limit(&self) -> Option<u64>
        ensures some { IfSome result (IsFirstDue self.now) }
        ensures none { IfNone result (NeverDue self.now) }
    {
        Some(self.due.first()?.0)
    }

    /// How many items and how many consumers wait in a queue.
    pub fn count(&self, queue: u64) -> (usize, usize)
        requires { FitsQueue queue }
        ensures items { result.0 ≡ length (line_in self.now (Gives queue)) }
        ensures consumers { result.1 ≡ length (line_in self.now (Takes queue)) }
    {
        self.wait_queues.count(queue)
    }

    /// The oldest item of a queue.
    pub fn front(&self, queue: u64) -> Option<&OpenPlace>
        requires { FitsQueue queue }
        ensures { option_map (λ o. o.now) result ≡ slice_get (line_in self.now (Gives queue)) 0 }
    {
        self.opens.get(self.wait_queues.front(queue)?)
    }

    /// The first of a side's line at a place above another, or the oldest of the line.
    pub fn behind(&self, side: Side, after: Option<Place>) -> Option<&OpenPlace>
        requires { FitsSide side }
        ensures { option_map (λ o. o.now) result ≡ first_behind after (line_in self.now side) }
    {
        self.opens.get(self.wait_queues.behind(side, after)?)
    }

    /// How many wait that an arrival of this side can meet.
    pub fn opposed(&self, side: Side) -> usize
        requires { FitsSide side }
        ensures { result ≡ length (opposed_in self.now side) }
    {
        self.wait_queues.opposed(side)
    }

    /// Closes the place of a queue's oldest item, and gives the duty to settle the request that waited with
    /// it; a put has none. If there is no item, nothing changes.
    pub fn take_front(&mut self, queue: u64) -> Option<(OpenPlace, Option<Duty>)>
        requires { FitsQueue queue }
        ensures some { IfSome result (λ out. ClosesFirst self.old self.new (Some (Gives queue)) out.0 out.1) }
        ensures none { IfNone result (line_in self.old (Gives queue) ≡ []) }
        ensures stays { IfNone result (self.new ≡ self.old) }
    {
        let (duty, place) = self.wait_queues.take_front(Side::Takes(queue))?;
        let there = self.opens.take(place).unwrap();
        forget(&mut self.due, there.limit, place);
        self.waiting -= owing(&duty);
        Some((there, duty))
    }

    /// An arrival with a call meets the oldest that it can meet; there must be one. Its place must be above
    /// all that are open.
    pub fn meet(&mut self, call: &Call, duty: Duty) -> MetPlace
        requires fits { FitsSide (side_of call.now) }
        requires some { 0 < length (opposed_in self.old (side_of call.now)) }
        requires above { StandBelow self.old duty.place }
        ensures own { result.own ≡ duty }
        ensures met { ClosesFirst self.old self.new (opposite (side_of call.now)) result.there result.other }
    {
        let Arrived {
            partner,
            own,
            other,
        } = self.wait_queues.arrive(call, duty);
        let there = self.opens.take(partner.unwrap()).unwrap();
        forget(&mut self.due, there.limit, there.place);
        self.waiting -= owing(&other);
        MetPlace {
            there,
            own: own.unwrap(),
            other,
        }
    }

    /// From now on an arrival that stays is open, after all others: its request is its client's last, and its
    /// duty comes back only for a put. Fails only if memory was refused, and then all stays.
    pub fn park(
        &mut self,
        clients: &mut Clients,
        opened: OpenPlace,
        key: &Key,
        call: Call,
        copy: &Call,
    ) -> Result<Option<Duty>, NoMemory>
        requires copy { copy.now ≡ call }
        requires known { IsSome (get clients.old.clients key.now.client) }
        requires may { MayPark self.old opened key.now call }
        ensures ok { IfOk result
            (λ own. ParksPlace self.old self.new clients.old clients.new opened key.now call own) }
        ensures same { OnErr result (self.new ≡ self.old) }
        ensures clients { OnErr result (clients.new ≡ clients.old) }
    {
        let place = opened.place;
        match lay_for(
            &mut self.wait_queues,
            &mut self.opens,
            &mut self.due,
            opened,
            copy,
        ) {
            Ok(()) => {
                let (duty, _) = clients.begin(key, place, call);
                let own = parked(self.wait_queues.arrive(copy, duty));
                self.waiting += 1 - owing(&own);
                Ok(own)
            }
            Err(refused) => {
                drop(call);
                Err(refused)
            }
        }
    }
}
