//! A call that waits, piece by piece, so that one that is killed leaves a request for a short time only.
use crate::open::OpenCall;
use crate::pieces::{call_for, first_piece};
use crate::run::client::ShellClient;
use crate::run::end::ShellEnd;
use crate::run::printing::{SettledCall, Teller};
use httpdate::HttpDate;
use rv_text::{Call, Reply, Wait};
use std::io::IsTerminal;
use std::time::Clock;

// The most milliseconds of a piece, and of the first one where a terminal is told that the call waits.
const PIECE_MILLIS: u64 = 10_000;

const FIRST_MILLIS: u64 = 1_000;

/// What came of the call, of which each piece is a request of its own. A piece that ended without being met
/// is recorded here, if another follows.
pub(crate) fn settled_in_pieces(
    client: &mut ShellClient,
    teller: &mut Teller,
    asked: &Call,
) -> Result<SettledCall, ShellEnd> {
    let rt = client.rt();
    let mut notice = Notice::new(rt);
    let mut left = asked.wait();
    for _ in 0..u64::MAX {
        let (piece, rest) = match left {
            Some(wait) => first_piece(wait, notice.most()),
            None => (Wait::Now, None),
        };
        let settled = settled_piece(client, call_for(rt.alloc(), asked, piece)?)?;
        match (rest, &settled.reply) {
            (Some(wait), Reply::TimedOut) => left = Some(wait),
            _ => return Ok(settled),
        }
        teller.record(&settled)?;
        client.hang_up();
        notice.tell();
    }
    Err(ShellEnd::NoMemory)
}

// What came of one piece.
fn settled_piece(client: &mut ShellClient, call: Call) -> Result<SettledCall, ShellEnd> {
    let Some(mut piece) = OpenCall::new(call.copy(client.rt().alloc())?) else {
        return Err(ShellEnd::Clock);
    };
    match client.settle(&mut piece)? {
        Some((key, reply)) => Ok(SettledCall { call, key, reply }),
        None => Err(ShellEnd::NoMemory),
    }
}

// Tells a terminal, once, that the call waits.
#[derive(Drop)]
struct Notice<'a> {
    rt: &'a HostRuntime,
    // The seconds since 1970 when the call began, while it is to be told.
    began: Option<u64>,
}

impl<'a> Notice<'a> {
    fn new(rt: &'a HostRuntime) -> Notice<'a> {
        let began = if rt.stderr().is_terminal() {
            rt.since_1970().ok().map(|since| since.as_secs())
        } else {
            None
        };
        Notice { rt, began }
    }

    // The most milliseconds of the next piece.
    fn most(&self) -> u64 {
        if self.began.is_some() {
            FIRST_MILLIS
        } else {
            PIECE_MILLIS
        }
    }

    // Tells that the call waits, since when, unless it was told.
    fn tell(&mut self) {
        let Some(began) = self.began.take() else {
            return;
        };
        if let Ok(date) = HttpDate::from_unix_secs(began) {
            let _ = eprintln!(self.rt; "waiting since {date}");
        }
    }
}
