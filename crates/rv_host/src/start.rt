//! The start of a server: its address, its account, its limits, and the lines that report them.
ghost use Rattle.std.specs.Prelude.{◌≡◌, ◌≤◌, ◌↔◌, IfOk, IsSome, IsTrue, false};
ghost use Rattle.rv_engine.specs.Engines.{engine_state};
ghost use Rattle.rv_engine.specs.EngineRuns.{BeginsStored};
ghost use Rattle.rv_host.specs.Turns.{HasItsAccount};
ghost use Rattle.rv_host.specs.Wishes.{wish_of};
ghost use Rattle.rv_store.specs.Entered.{AreEpochs};
ghost use Rattle.rv_machine.specs.Machines.{state_in};
ghost use Rattle.rv_account.specs.state.resume.Resuming.{CanResume};
ghost use Rattle.rv_words.specs.options.Numbers.{Fits};
ghost use Rattle.rv_words.specs.options.Options.{FitOptions};
ghost use Rattle.rv_words.specs.declared.options.number.HostNumber.TheVariants as number;

use crate::door::Door;
use crate::fault::HostEnd;
use crate::reception::Doors;
use crate::report::HostReport;
use crate::shell::{Shell, ShellParts};
use crate::status::StatusDesk;
use crate::turn_clock::first_moment;
use libc::types::rlimit;
use libc::{RLIMIT_NOFILE, getrlimit};
use mio::net::TcpListener;
use rv_account::rules::Limits;
use rv_engine::Engine;
use rv_hub::DEFAULT_PATIENCE;
use rv_machine::Machine;
use rv_store::keeping::{
    AccountFile, Keeper, StoreAccount, StoreRules, StoreStart, begin_file, enter,
};
use rv_store::{EpochChoice, EpochWish};
use rv_survey::log::{StartSaid, call_text, start_text};
use rv_words::options::{HostOptions, VERSION};
use std::alloc::AllocError;
use std::fs::File;
use std::io;
use std::io::IsTerminal;
use std::net::ToSocketAddrs;
use std::time::Clock;

// The descriptors that a server needs besides its connections, and those of its status address.
const SPARE: u64 = 16;

const STATUS_SPARE: u64 = 33;

// The system's number of the limit of a file's length.
const RLIMIT_FSIZE: i32 = 1;

const MOST_ENTRIES: usize = 9_007_199_254_740_991;

// The epoch of a server, the moment of its start, and its limits.
#[derive(Clone, Copy)]
struct ServerStart {
    epoch: u64,
    first: u64,
    descriptors: Descriptors,
}

/// A server that listens, and has said so.
pub(crate) fn begin(
    rt: &HostRuntime,
    options: &HostOptions<'_>,
    mut report: HostReport,
) -> Result<Shell<AccountFile<File>>, HostEnd>
    requires { FitOptions options.now }
    ensures kept { IfOk result HasItsAccount }
    ensures begins { IfOk result (λ shell. BeginsStored (engine_state shell.traffic.engine)) }
{
    let opening = ServerStart {
        epoch: options.epoch.epoch(wall_clock(rt)),
        first: 0,
        descriptors: descriptors_of(options),
    };
    let engine = engine_of(rt, options, opening)?;
    let ground = ground_of(rt, options)?;
    let account = account_of(rt, options, opening.epoch)?;
    match open_doors(rt, options, &mut report, ground, opening) {
        Ok(parts) => Ok(Shell::new(parts, account, engine, report)),
        Err(end) => {
            if let Some(account) = &account {
                account.leave(rt);
            }
            drop(engine);
            Err(end)
        }
    }
}

/// A server that keeps the store of a folder, listens, and has said so. It starts at the wall clock's moment,
/// or at the last one of the account with which it goes on if that is later.
pub(crate) fn begin_in_store<'a>(
    rt: &'a HostRuntime,
    options: &HostOptions<'_>,
    folder: &str,
    mut report: HostReport,
) -> Result<Shell<StoreAccount<'a>>, HostEnd>
    requires { FitOptions options.now }
    ensures kept { IfOk result HasItsAccount }
    ensures begins { IfOk result (λ shell. BeginsStored (engine_state shell.traffic.engine)) }
    ensures later { IfOk result (λ shell.
        (engine_state shell.traffic.engine).hub.now ≤ shell.clock.first) }
{
    let ground = ground_of(rt, options)?;
    let wall = wall_clock(rt);
    let start = enter(rt, folder, rules_of(options), wall)?;
    let text = store_text(rt, &start)?;
    let descriptors = descriptors_of(options);
    let engine = engine_over(rt, options, start.machine, true, descriptors)?;
    let opening = ServerStart {
        epoch: engine.hub().machine().epoch(),
        first: first_moment(wall, engine.hub().now()),
        descriptors,
    };
    let parts = open_doors(rt, options, &mut report, ground, opening)?;
    report.say(rt, &text);
    Ok(Shell::new(parts, Some(start.account), engine, report))
}

// Says with which account a server starts.
fn store_text(rt: &HostRuntime, start: &StoreStart<'_>) -> Result<String, AllocError> {
    let name = start.account.name();
    let entries = start.machine.length();
    match start.choice {
        EpochChoice::GoesOn(_) => {
            format!(in rt.alloc(); "store: {name} goes on after {entries} entries")
        }
        EpochChoice::Begins(_) => match start.why_new {
            Some(why) => format!(in rt.alloc(); "store: {name} begins: {why}"),
            None => format!(in rt.alloc(); "store: {name} begins"),
        },
    }
}

// Where a server listens.
#[derive(Drop)]
struct Ground {
    listener: TcpListener,
    status: Option<TcpListener>,
}

// The addresses that the words name.
fn ground_of(rt: &HostRuntime, options: &HostOptions<'_>) -> Result<Ground, HostEnd> {
    Ok(Ground {
        listener: listening(rt, options.listen)?,
        status: status_of(rt, options)?,
    })
}

// How many descriptors there may be, and how many connections.
#[derive(Clone, Copy)]
struct Descriptors {
    open_files: u64,
    connections: u64,
}

// What the system's limit leaves of the connections that the words name.
fn descriptors_of(options: &HostOptions<'_>) -> Descriptors {
    let open_files = limit_of(RLIMIT_NOFILE, 1_024);
    Descriptors {
        open_files,
        connections: open_files
            .saturating_sub(spare(options))
            .max(1)
            .min(options.limits.connections),
    }
}

// Says that a server has started, and makes a poll that reports who comes.
fn open_doors(
    rt: &HostRuntime,
    options: &HostOptions<'_>,
    report: &mut HostReport,
    ground: Ground,
    opening: ServerStart,
) -> Result<ShellParts, HostEnd>
    ensures first { IfOk result (λ parts. parts.clock.first ≡ opening.first) }
{
    tell_start(rt, options, report, &ground.listener, opening)?;
    let doors = Doors {
        status: status_desk(rt, options, report, ground.status)?,
        door: Door::new(ground.listener),
    };
    let connections = opening.descriptors.connections as usize;
    ShellParts::new(rt, options, doors, connections, opening.first)
}

// The wall clock's milliseconds.
fn wall_clock(rt: &HostRuntime) -> u64 {
    rt.since_1970()
        .map_or(1, |since| u64::try_from(since.as_millis()).unwrap_or(1))
}

// A listener at the first address of a name that allows one.
fn listening(rt: &HostRuntime, name: &str) -> Result<TcpListener, HostEnd> {
    let addresses = match name.to_socket_addrs(rt) {
        Ok(addresses) => addresses,
        Err(error) => return Err(named(rt, name, error)),
    };
    let mut last = io::Error::from(io::ErrorKind::AddrNotAvailable);
    for address in addresses {
        match TcpListener::bind(rt, address) {
            Ok(listener) => return Ok(listener),
            Err(error) => last = error,
        }
    }
    Err(named(rt, name, last))
}

// A listener at the status address, if one is named.
fn status_of(rt: &HostRuntime, options: &HostOptions<'_>) -> Result<Option<TcpListener>, HostEnd> {
    options.status.map(|name| listening(rt, name)).transpose()
}

// How many descriptors aren't for connections.
fn spare(options: &HostOptions<'_>) -> u64 {
    match options.status {
        Some(_) => SPARE + STATUS_SPARE,
        None => SPARE,
    }
}

// What answers at the status address, if there is one. Standard error says where that is.
fn status_desk(
    rt: &HostRuntime,
    options: &HostOptions<'_>,
    report: &mut HostReport,
    listener: Option<TcpListener>,
) -> Result<Option<StatusDesk>, HostEnd> {
    let Some(listener) = listener else {
        return Ok(None);
    };
    let address = listener.local_addr()?;
    report.say(rt, &format!(in rt.alloc(); "status: http://{address}/")?);
    if !address.ip().is_loopback() {
        report.say(rt, "other machines may ask at the status address who waits");
    }
    Ok(Some(StatusDesk::new(rt, listener, options, report)?))
}

// The account of an epoch, begun in a new file or an empty one, if one is named.
fn account_of(
    rt: &HostRuntime,
    options: &HostOptions<'_>,
    epoch: u64,
) -> Result<Option<AccountFile<File>>, HostEnd>
    ensures account { IfOk result (λ account. IsSome account ↔ IsSome options.now.account) }
{
    let Some(path) = options.account else {
        return Ok(None);
    };
    Ok(Some(begin_file(rt, path, epoch, limit_of(RLIMIT_FSIZE, u64::MAX))?))
}

// How the words want a store to be kept.
fn rules_of<'a>(options: &HostOptions<'a>) -> StoreRules<'a>
    requires { FitOptions options.now }
    ensures wish { result.epochs ≡ wish_of options.now }
    ensures epochs { AreEpochs result.epochs }
    ensures syncs { IsTrue result.syncs ↔ (options.now.no_sync ≡ false) }
    ensures boot { result.boot ≡ options.now.boot }
{
    StoreRules {
        epochs: EpochWish {
            least: options.epoch.least(),
            most: options.epoch.most(),
            is_new: options.new_epoch,
        },
        syncs: !options.no_sync,
        boot: options.boot,
        most: limit_of(RLIMIT_FSIZE, u64::MAX),
    }
}

// The end of a server that finds no such address or file.
fn named(rt: &HostRuntime, name: &str, error: io::Error) -> HostEnd {
    match String::from_str(rt.alloc(), name) {
        Ok(name) => HostEnd::Named(name, error),
        Err(_) => HostEnd::NoMemory,
    }
}

// The engine of a new epoch.
fn engine_of(
    rt: &HostRuntime,
    options: &HostOptions<'_>,
    opening: ServerStart,
) -> Result<Engine, HostEnd>
    requires { Fits number.Epoch opening.epoch }
    ensures journal { IfOk result (λ engine. IsTrue engine.hub.has_journal ↔ IsSome options.now.account) }
    ensures begins { IfOk result (λ engine. BeginsStored (engine_state engine)) }
{
    let machine = Machine::open(rt.alloc(), opening.epoch, opening.first)?;
    let has_account = options.account.is_some();
    engine_over(rt, options, machine, has_account, opening.descriptors)
}

// The engine of this machine, under the limits that the words name.
fn engine_over(
    rt: &HostRuntime,
    options: &HostOptions<'_>,
    machine: Machine,
    has_account: bool,
    descriptors: Descriptors,
) -> Result<Engine, HostEnd>
    requires { CanResume (state_in machine) }
    ensures journal { IfOk result (λ engine. engine.hub.has_journal ≡ has_account) }
    ensures begins { IfOk result (λ engine. BeginsStored (engine_state engine)) }
{
    let Some(limits) = Limits::new(
        MOST_ENTRIES,
        options.limits.clients as usize,
        Some(options.limits.open_places as usize),
    ) else {
        return Err(HostEnd::Limits);
    };
    let engine = Engine::new(
        rt.alloc(),
        machine,
        limits,
        DEFAULT_PATIENCE,
        has_account,
        descriptors.connections as usize,
    )?;
    Ok(engine)
}

// The system's limit, or `usual` if it doesn't say.
fn limit_of(resource: i32, usual: u64) -> u64 {
    let mut limit = rlimit {
        rlim_cur: 0,
        rlim_max: 0,
    };
    if getrlimit(resource, &mut limit) == 0 {
        limit.rlim_cur
    } else {
        usual
    }
}

// Says where a server listens, and its limits; and, if other machines reach it, that nobody is authenticated.
fn tell_start(
    rt: &HostRuntime,
    options: &HostOptions<'_>,
    report: &mut HostReport,
    listener: &TcpListener,
    opening: ServerStart,
) -> Result<(), HostEnd> {
    let address = listener.local_addr()?;
    let name = format!(in rt.alloc(); "{address}")?;
    let said = StartSaid {
        address: &name,
        epoch: opening.epoch,
        connections: opening.descriptors.connections,
        open_files: opening.descriptors.open_files,
        clients: options.limits.clients,
        open_places: options.limits.open_places,
        memory: options.limits.memory,
        version: VERSION,
    };
    report.say(rt, &start_text(rt.alloc(), &said)?);
    if !address.ip().is_loopback() {
        report.say(
            rt,
            "other machines may reach this address: there is no authentication",
        );
    }
    if rt.stderr().is_terminal() {
        greet(rt, report, &name)?;
    }
    Ok(())
}

// The calls of a first consumer, and of a first producer.
const TAKE: &str = "{\"call\":\"take\",\"queue\":1,\"wait\":60000}";

const TRANSFER: &str = "{\"call\":\"transfer\",\"item\":\"a\",\"queue\":1,\"wait\":60000}";

// Says how they connect.
fn greet(rt: &HostRuntime, report: &mut HostReport, address: &str) -> Result<(), HostEnd> {
    report.say(rt, &call_text(rt.alloc(), TAKE, address, 1)?);
    report.say(rt, &call_text(rt.alloc(), TRANSFER, address, 2)?);
    Ok(())
}
