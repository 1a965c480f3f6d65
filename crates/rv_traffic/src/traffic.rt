//! An engine with the sockets of its connections.
ghost use Rattle.std.specs.Prelude.{◌≡◌, [], length, IfErr, IfOk, OnOk};
ghost use Rattle.rv_frame.specs.Lasting.{LeavesHeld, LeavesFront, TakesBytes};
ghost use Rattle.rv_hub.specs.Hubs.{hub_terms};
ghost use Rattle.rv_hub.specs.declared.events.HubEvent.TheVariants as event;
ghost use Rattle.rv_engine.specs.Engines.{engine_state};
ghost use Rattle.rv_engine.specs.Handing.{HandsOn, HasWorked, IsNotTold, IsRefused, TellsWritten, all_gone};
ghost use Rattle.rv_engine.specs.Handing.{unwritten};

use crate::accepting::Opened;
use crate::links::Links;
use crate::outcomes::ReadFaults;
use crate::waiting::WaitingLists;
use crate::{accepting, asking, giving_up, rounds, sharing};
use rv_engine::{Engine, EngineFault, LinkEvent};
use rv_frame::Lasting;
use rv_server_connections::subscribers::ConnectionNumber;
use std::io::{Read, Write};

/// A piece of at most so many bytes is small: it is offered as it comes.
pub const SMALL: usize = 512;

/// A share has at most so many bytes.
pub const SHARE: usize = 4_096;

/// At most so many waiting connections get a share at a time.
pub const SHARES: usize = 4;

/// An engine with the sockets of its connections, each under the number that the hub gave it, and those that
/// wait for a share of input.
#[derive(Drop)]
pub struct Switchboard<S> {
    pub(crate) engine: Engine,
    pub(crate) links: Links<S>,
    pub(crate) waits: WaitingLists,
}

impl<S: Drop> Switchboard<S> {
    ghost use Rattle.std.specs.Prelude.{◌↔◌, IsTrue};
    ghost use Rattle.std.specs.Bool.{OnFalse, OnTrue};
    ghost use Rattle.rv_traffic.specs.Calls.{GivesUp, IsOverfull, HasRoomLeft};
    ghost use Rattle.rv_traffic.specs.CallRuns.{OnlyCalls};
    ghost use Rattle.rv_traffic.specs.Views.{SameTerms, traffic_state};

    /// An engine whose connections have no sockets yet.
    pub fn new(engine: Engine, links: Links<S>, waits: WaitingLists) -> Switchboard<S>
        ensures engine { result.engine ≡ engine }
        ensures links { result.links ≡ links }
        ensures waits { result.waits ≡ waits }
    {
        Switchboard {
            engine,
            links,
            waits,
        }
    }

    /// The engine.
    pub fn engine(&self) -> &Engine
        ensures { result.now ≡ self.now.engine }
    {
        &self.engine
    }

    /// The sockets.
    pub fn links(&self) -> &Links<S>
        ensures { result.now ≡ self.now.links }
    {
        &self.links
    }

    /// Whether no connection waits for a share.
    pub fn has_none_waiting(&self) -> bool
        ensures { IsTrue result ↔ (((traffic_state self.now).waits.due ≡ [])
            × ((traffic_state self.now).waits.next ≡ [])) }
    {
        self.waits.is_empty()
    }

    /// Whether more bytes are held over all connections than there is room for: bytes of answers, of frames
    /// that aren't whole, and pending ones.
    pub fn is_over(&self, room: u128) -> bool
        ensures yes { OnTrue result (IsOverfull (traffic_state self.now) room) }
        ensures no { OnFalse result (HasRoomLeft (traffic_state self.now) room) }
    {
        asking::is_over(self, room)
    }

    /// Lets go of a connection's socket, and tells the hub that its peer is gone. If memory for lines of the
    /// account is refused, the connection is to be looked at.
    pub fn give_up(&mut self, now: u64, number: ConnectionNumber)
        ensures gives_up { GivesUp self.old.engine.hub.has_journal (hub_terms self.old.engine.hub) now number
            (traffic_state self.old) (traffic_state self.new) }
        ensures terms { SameTerms self.old self.new }
        ensures waits { self.new.waits ≡ self.old.waits }
        ensures runs { OnlyCalls self.old self.new }
    {
        giving_up::give_up(self, now, number);
    }
}

impl<S: Drop> Switchboard<S> {
    ghost use Rattle.std.specs.Prelude.{◌<◌, ◌∷◌, ℕ};
    ghost use Rattle.std.specs.Bool.{OnFalse, OnTrue};
    ghost use Rattle.rv_engine.specs.Handing.{Gathers, LooksAt};
    ghost use Rattle.rv_traffic.specs.Calls.{Attaches, GivesUp, Hands};
    ghost use Rattle.std.specs.Option.{option_map};
    ghost use Rattle.rv_traffic.specs.links.Table.{ChangesOne, heeded, link_at};
    ghost use Rattle.rv_traffic.specs.CallRuns.{OnlyCalls, RunsOver};
    ghost use Rattle.rv_traffic.specs.Views.{SameTerms, traffic_state};

    /// Opens a connection at a moment. Gives its number, under which a socket is to be put, or why there is
    /// none.
    pub fn open(&mut self, now: u64) -> Result<Opened, EngineFault>
        ensures opens { IfOk result (λ opened. HandsOn self.old.engine.hub.has_journal
            (hub_terms self.old.engine.hub) (engine_state self.old.engine) now event.Opened
            self.new.engine.hub.dispatcher.entries.items opened.number (engine_state self.new.engine)) }
        ensures refused { IfErr result (λ why. IsRefused (engine_state self.old.engine) event.Opened why
            (engine_state self.new.engine)) }
        ensures links { self.new.links ≡ self.old.links }
        ensures terms { SameTerms self.old self.new }
        ensures waits { self.new.waits ≡ self.old.waits }
        ensures runs { OnlyCalls self.old self.new }
    {
        match self.engine.tell(now, LinkEvent::Opened) {
            Ok(number) => Ok(Opened { number }),
            Err(why) => Err(why),
        }
    }

    /// Puts an accepted socket under the number that the hub gave its connection. Gives whether that number
    /// has room; if not, the connection is given up.
    pub fn attach(&mut self, now: u64, opened: Opened, stream: S) -> bool
        ensures attaches { Attaches self.old.engine.hub.has_journal (hub_terms self.old.engine.hub) now
            opened.number stream (traffic_state self.old) result (traffic_state self.new) }
        ensures terms { SameTerms self.old self.new }
        ensures waits { self.new.waits ≡ self.old.waits }
        ensures runs { OnlyCalls self.old self.new }
    {
        let Opened { number } = opened;
        accepting::attach(self, now, number, stream)
    }

    /// Gives up a connection that was opened and gets no socket.
    pub fn turn_away(&mut self, now: u64, opened: Opened)
        ensures gives_up { GivesUp self.old.engine.hub.has_journal (hub_terms self.old.engine.hub) now
            opened.number (traffic_state self.old) (traffic_state self.new) }
        ensures terms { SameTerms self.old self.new }
        ensures waits { self.new.waits ≡ self.old.waits }
        ensures runs { OnlyCalls self.old self.new }
    {
        let Opened { number } = opened;
        self.give_up(now, number);
    }

    /// A poll reported that a connection's socket may be read, or written, again: it is to be looked at.
    pub fn heed(&mut self, number: ConnectionNumber, is_readable: bool, is_writable: bool)
        ensures heeds { link_at self.new.links.table.items number
            ≡ option_map (λ link. heeded link is_readable is_writable)
            (link_at self.old.links.table.items number) }
        ensures others { ChangesOne self.old.links.table.items number self.new.links.table.items }
        ensures looks { LooksAt (engine_state self.old.engine) (number ∷ []) (engine_state self.new.engine) }
        ensures hub { self.new.engine.hub ≡ self.old.engine.hub }
        ensures lines { (engine_state self.new.engine).lines ≡ (engine_state self.old.engine).lines }
        ensures left { (engine_state self.new.engine).left ≡ (engine_state self.old.engine).left }
        ensures stored { (engine_state self.new.engine).stored ≡ (engine_state self.old.engine).stored }
        ensures waits { self.new.waits ≡ self.old.waits }
        ensures runs { OnlyCalls self.old self.new }
    {
        self.links.heed(number, is_readable, is_writable);
        self.engine.look_at(number);
    }

    /// Time goes on to a moment, while no entry is left: each that has waited as long as it may is told.
    pub fn pass(&mut self, now: u64)
        requires { (engine_state self.old.engine).left ≡ [] }
        ensures passes { (given : ℕ) × Hands self.old.engine.hub.has_journal (hub_terms self.old.engine.hub)
            (engine_state self.old.engine) now event.Passed given (engine_state self.new.engine) }
        ensures links { self.new.links ≡ self.old.links }
        ensures terms { SameTerms self.old self.new }
        ensures waits { self.new.waits ≡ self.old.waits }
        ensures runs { OnlyCalls self.old self.new }
    {
        self.engine.hand(now, LinkEvent::Passed);
    }

    /// Gathers lines of the account for which memory was refused before, and gives whether none is left.
    pub fn catch_up(&mut self) -> bool
        ensures gathers { Gathers (engine_state self.old.engine) (engine_state self.new.engine) }
        ensures hub { self.new.engine.hub ≡ self.old.engine.hub }
        ensures yes { OnTrue result ((engine_state self.new.engine).left ≡ []) }
        ensures no { OnFalse result (0 < length (engine_state self.new.engine).left) }
        ensures links { self.new.links ≡ self.old.links }
        ensures waits { self.new.waits ≡ self.old.waits }
        ensures runs { OnlyCalls self.old self.new }
    {
        self.engine.catch_up()
    }

    /// Writes all lines of the account that aren't written, as the engine does.
    pub fn write_lines<L: Lasting>(
        &mut self,
        now: u64,
        file: &mut L,
    ) -> Result<Option<usize>, EngineFault>
        ensures written { OnOk result (TakesBytes L.lasts file.old file.new
            (unwritten (engine_state self.old.engine))) }
        ensures works { OnOk result (HasWorked L.lasts file.old file.new) }
        ensures tells { IfOk result (λ told. TellsWritten self.old.engine.hub.has_journal
            (hub_terms self.old.engine.hub) (all_gone (engine_state self.old.engine)) now
            self.new.engine.hub.dispatcher.entries.items told (engine_state self.new.engine)) }
        ensures not_told { IfErr result (λ why. IsNotTold L.lasts (engine_state self.old.engine) file.old
            why (engine_state self.new.engine) file.new) }
        ensures links { self.new.links ≡ self.old.links }
        ensures terms { SameTerms self.old self.new }
        ensures waits { self.new.waits ≡ self.old.waits }
        ensures any_moment { LeavesFront L.lasts file.old (unwritten (engine_state self.old.engine))
            file.new }
        ensures durable { OnOk result (LeavesHeld L.lasts file.new) }
        ensures runs { RunsOver L.lasts self.old.engine.hub.has_journal
            (hub_terms self.old.engine.hub) (engine_state self.old.engine) file.old
            (engine_state self.new.engine) file.new }
    {
        self.engine.write_lines(now, file)
    }
}

impl<S: Drop> Switchboard<S> {
    ghost use Rattle.rv_traffic.specs.Rounds.{SharesOut};
    ghost use Rattle.rv_traffic.specs.CallRuns.{OnlyCalls};
    ghost use Rattle.rv_traffic.specs.Views.{SameTerms, traffic_state};

    /// Offers a share of the pending bytes of some waiting connections, at a moment, unless more is held in
    /// all than there is room for. Each of them gets one before any gets another.
    pub fn share_out(&mut self, room: u128, now: u64)
        ensures shares { SharesOut room self.old.engine.hub.has_journal (hub_terms self.old.engine.hub) now
            (traffic_state self.old) (traffic_state self.new) }
        ensures terms { SameTerms self.old self.new }
        ensures runs { OnlyCalls self.old self.new }
    {
        sharing::share_out(self, room, now);
    }
}

impl<S: Read + Drop> Switchboard<S> {
    ghost use Rattle.rv_traffic.specs.Rounds.{ReadsRound};
    ghost use Rattle.rv_traffic.specs.CallRuns.{OnlyCalls};
    ghost use Rattle.rv_traffic.specs.Views.{SameTerms, traffic_state};

    /// Reads once, at a moment, from each connection that is to be looked at, if it may be offered more, none
    /// of its bytes are pending, and no more bytes are held in all than there is room for. After that each is
    /// to be written to. A small piece is offered; a longer one is pending, and waits for its share. Gives
    /// how many failed.
    pub fn read_round(&mut self, room: u128, now: u64) -> ReadFaults
        ensures reads { ReadsRound S.remaining room self.old.engine.hub.has_journal
            (hub_terms self.old.engine.hub) now (traffic_state self.old) result (traffic_state self.new) }
        ensures terms { SameTerms self.old self.new }
        ensures runs { OnlyCalls self.old self.new }
    {
        rounds::read_round(self, room, now)
    }
}

impl<S: Write + Drop> Switchboard<S> {
    ghost use Rattle.rv_traffic.specs.Rounds.{WritesRound};
    ghost use Rattle.rv_traffic.specs.CallRuns.{OnlyCalls};
    ghost use Rattle.rv_traffic.specs.Views.{SameTerms, traffic_state};

    /// Writes once, at a moment, to each connection that is to be looked at. After that only those that can
    /// be read or written again at once are to be looked at. A connection that the hub closed loses its
    /// socket, and the hub is told of one that has none. Gives how many failed.
    pub fn write_round(&mut self, now: u64) -> usize
        ensures writes { WritesRound S.contents self.old.engine.hub.has_journal
            (hub_terms self.old.engine.hub) now (traffic_state self.old) result (traffic_state self.new) }
        ensures terms { SameTerms self.old self.new }
        ensures runs { OnlyCalls self.old self.new }
    {
        rounds::write_round(self, now)
    }
}
