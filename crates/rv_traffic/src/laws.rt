//! Laws of calls: each contract is one, and no body does anything.
ghost use Rattle.rv_traffic.specs.CallRuns.{EndsAreRuns, EventsAreRuns, GatheringsAreRuns, LooksAreRuns};
ghost use Rattle.rv_traffic.specs.CallRuns.{OthersAreOver, OversAreJoined, ReadRoundsAreRuns};
ghost use Rattle.rv_traffic.specs.CallRuns.{RefusalsAreRuns, RunsAreJoined, SharesAreRuns};
ghost use Rattle.rv_traffic.specs.CallRuns.{UnwrittenLinesAreOver};
ghost use Rattle.rv_traffic.specs.CallRuns.{WriteRoundsAreRuns, WrittenLinesAreOver, WrittenLinesAreRuns};

use rv_frame::Lasting;
use std::io::{Read, Write};

/// What each call does to the engine is a run of it, and calls one after another are one run: so a server's
/// whole turn is one.
pub fn calls_are_runs<S: Read + Write>()
    ensures joined { RunsAreJoined }
    ensures events { EventsAreRuns }
    ensures refusals { RefusalsAreRuns }
    ensures looks { LooksAreRuns }
    ensures gatherings { GatheringsAreRuns }
    ensures ends { EndsAreRuns }
    ensures read_rounds { ReadRoundsAreRuns S.remaining }
    ensures shares { SharesAreRuns S }
    ensures write_rounds { WriteRoundsAreRuns S.contents }
    ensures written_lines { WrittenLinesAreRuns }
{}

/// So is a whole turn over one device. The device takes the lines of the account in order, each whole, except
/// for the last if it fails there.
pub fn turns_are_runs<L: Lasting>()
    ensures joined { OversAreJoined L.lasts }
    ensures others { OthersAreOver L.lasts }
    ensures written_lines { WrittenLinesAreOver L.lasts }
    ensures unwritten_lines { UnwrittenLinesAreOver L.lasts }
{}
