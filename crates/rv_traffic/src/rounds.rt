//! Goes over all that are to be looked at.
ghost use Rattle.std.specs.Prelude.{◌≡◌, ◌<◌, ◌+◌, cond};
ghost use Rattle.std.specs.Bool.{OnFalse, OnTrue};
ghost use Rattle.rv_hub.specs.Hubs.{hub_terms};
ghost use Rattle.rv_traffic.specs.Calls.{ReadsOne, WritesOne};
ghost use Rattle.rv_traffic.specs.Rounds.{DoesIfReady, CanDoMore, LooksForMore, ReadsRound, ReadsTurn};
ghost use Rattle.rv_traffic.specs.Rounds.{ComesToRest, WaitsForMore};
ghost use Rattle.rv_traffic.specs.Rounds.{WritesRound, WritesTurn, is_read_broken, is_read_refused};
ghost use Rattle.rv_traffic.specs.Rounds.{is_write_broken};
ghost use Rattle.rv_traffic.specs.Views.{SameTerms, traffic_state};

use crate::asking::{goes_on, has_to_wait, may_have_more};
use crate::outcomes::{ReadFaults, Reading, Writing};
use crate::reading::read_one;
use crate::traffic::Switchboard;
use crate::writing::write_one;
use rv_server_connections::subscribers::ConnectionNumber;
use std::io::{Read, Write};

// With what came of one turn more.
fn count_read(faults: ReadFaults, came: Option<Reading>) -> ReadFaults
    requires broken { faults.broken < usize.MAX }
    requires no_memory { faults.no_memory < usize.MAX }
    ensures broken { result.broken ≡ cond (is_read_broken came) 1 0 + faults.broken }
    ensures no_memory { result.no_memory ≡ cond (is_read_refused came) 1 0 + faults.no_memory }
{
    let ReadFaults { broken, no_memory } = faults;
    match came {
        Some(Reading::Broken) => ReadFaults {
            broken: broken + 1,
            no_memory,
        },
        Some(Reading::NoMemory) => ReadFaults {
            broken,
            no_memory: no_memory + 1,
        },
        Some(Reading::Nothing) => faults,
        Some(Reading::Offered) => faults,
        Some(Reading::Kept) => faults,
        Some(Reading::Ended) => faults,
        None => faults,
    }
}

// The same of writes.
fn count_write(broken: usize, what: Option<Writing>) -> usize
    requires { broken < usize.MAX }
    ensures { result ≡ cond (is_write_broken what) 1 0 + broken }
{
    match what {
        Some(Writing::Broken) => broken + 1,
        Some(Writing::Nothing) => broken,
        Some(Writing::Sent) => broken,
        Some(Writing::Closed) => broken,
        Some(Writing::Gone) => broken,
        None => broken,
    }
}

// Reads once from a connection, unless lines of the account find no memory, since no event would be taken.
fn read_if_ready<S: Read + Drop>(
    traffic: &mut Switchboard<S>,
    room: u128,
    now: u64,
    number: ConnectionNumber,
) -> Option<Reading>
    ensures reads { DoesIfReady (ReadsOne S.remaining room traffic.old.engine.hub.has_journal
        (hub_terms traffic.old.engine.hub) now number) (traffic_state traffic.old) result
        (traffic_state traffic.new) }
    ensures terms { SameTerms traffic.old traffic.new }
{
    if !traffic.engine.catch_up() {
        return None;
    }
    Some(read_one(traffic, room, now, number))
}

// A connection of which bytes are pending that may be offered waits for a share.
fn wait_for_more<S: Drop>(traffic: &mut Switchboard<S>, number: ConnectionNumber)
    ensures waits { WaitsForMore (traffic_state traffic.old) number (traffic_state traffic.new) }
    ensures terms { SameTerms traffic.old traffic.new }
{
    if has_to_wait(&traffic.engine, &traffic.links, number) {
        traffic.waits.add(number);
    }
}

// The same, and it is to be written to.
pub(crate) fn settle<S: Drop>(traffic: &mut Switchboard<S>, number: ConnectionNumber)
    ensures settles { ComesToRest (traffic_state traffic.old) number (traffic_state traffic.new) }
    ensures terms { SameTerms traffic.old traffic.new }
{
    wait_for_more(traffic, number);
    traffic.engine.look_at(number);
}

// Reads once from a connection, which then waits if more is pending, and is to be written to.
fn read_turn<S: Read + Drop>(
    traffic: &mut Switchboard<S>,
    room: u128,
    now: u64,
    number: ConnectionNumber,
) -> Option<Reading>
    ensures reads { ReadsTurn S.remaining room traffic.old.engine.hub.has_journal
        (hub_terms traffic.old.engine.hub) now (traffic_state traffic.old)
        (record { number = number; came = result }) (traffic_state traffic.new) }
    ensures terms { SameTerms traffic.old traffic.new }
{
    let came = read_if_ready(traffic, room, now, number);
    settle(traffic, number);
    came
}

// Reads once from each that is to be looked at, all of which are then to be written to.
pub(crate) fn read_round<S: Read + Drop>(
    traffic: &mut Switchboard<S>,
    room: u128,
    now: u64,
) -> ReadFaults
    ensures reads { ReadsRound S.remaining room traffic.old.engine.hub.has_journal
        (hub_terms traffic.old.engine.hub) now (traffic_state traffic.old) result
        (traffic_state traffic.new) }
    ensures terms { SameTerms traffic.old traffic.new }
{
    traffic.engine.begin_round();
    let mut faults = ReadFaults {
        broken: 0,
        no_memory: 0,
    };
    while let Some(number) = traffic.engine.next_look() {
        let came = read_turn(traffic, room, now, number);
        faults = count_read(faults, came);
    }
    faults
}

// Whether something can be read from a connection or written to it at once.
fn can_do_more<S: Drop>(traffic: &Switchboard<S>, number: ConnectionNumber) -> bool
    ensures yes { OnTrue result (CanDoMore (traffic_state traffic.now) number) }
    ensures no { OnFalse result (¬ CanDoMore (traffic_state traffic.now) number) }
{
    let has_more = may_have_more(&traffic.links, number);
    let is_writable = traffic.links.is_writable(number);
    match traffic.engine.hub().wire(number) {
        Some(wire) => goes_on(wire, has_more, is_writable),
        None => false,
    }
}

// Writes once to a connection, unless lines of the account find no memory.
fn write_if_ready<S: Write + Drop>(
    traffic: &mut Switchboard<S>,
    now: u64,
    number: ConnectionNumber,
) -> Option<Writing>
    ensures writes { DoesIfReady (WritesOne S.contents traffic.old.engine.hub.has_journal
        (hub_terms traffic.old.engine.hub) now number) (traffic_state traffic.old) result
        (traffic_state traffic.new) }
    ensures terms { SameTerms traffic.old traffic.new }
{
    if !traffic.engine.catch_up() {
        return None;
    }
    Some(write_one(traffic, now, number))
}

// A connection is to be looked at again if more of it can be done at once, or if its write had to wait for
// memory for the account's lines.
fn look_for_more<S: Drop>(
    traffic: &mut Switchboard<S>,
    number: ConnectionNumber,
    what: Option<Writing>,
)
    ensures again { LooksForMore what (traffic_state traffic.old) number (traffic_state traffic.new) }
    ensures terms { SameTerms traffic.old traffic.new }
{
    match what {
        None => traffic.engine.look_at(number),
        Some(_) => {
            if can_do_more(traffic, number) {
                traffic.engine.look_at(number);
            }
        }
    }
}

// Writes once to a connection, which then waits if bytes are pending, and is to be looked at again if more
// can be done.
fn write_turn<S: Write + Drop>(
    traffic: &mut Switchboard<S>,
    now: u64,
    number: ConnectionNumber,
) -> Option<Writing>
    ensures writes { WritesTurn S.contents traffic.old.engine.hub.has_journal
        (hub_terms traffic.old.engine.hub) now (traffic_state traffic.old)
        (record { number = number; came = result }) (traffic_state traffic.new) }
    ensures terms { SameTerms traffic.old traffic.new }
{
    let what = write_if_ready(traffic, now, number);
    wait_for_more(traffic, number);
    look_for_more(traffic, number, what);
    what
}

// Writes once to each that is to be looked at.
pub(crate) fn write_round<S: Write + Drop>(traffic: &mut Switchboard<S>, now: u64) -> usize
    ensures writes { WritesRound S.contents traffic.old.engine.hub.has_journal
        (hub_terms traffic.old.engine.hub) now (traffic_state traffic.old) result
        (traffic_state traffic.new) }
    ensures terms { SameTerms traffic.old traffic.new }
{
    traffic.engine.begin_round();
    let mut broken = 0;
    while let Some(number) = traffic.engine.next_look() {
        let what = write_turn(traffic, now, number);
        broken = count_write(broken, what);
    }
    broken
}
