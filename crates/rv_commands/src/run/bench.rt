//! `rv bench`: how many puts, takes and hand-overs a second a server does, at a queue where nothing waits.
use crate::run::client::new_incarnation;
use crate::run::end::ShellEnd;
use crate::run::leased::Lease;
use crate::run::link::connected_to_one;
use crate::run::printing::SettledCall;
use crate::run::session::ShellSession;
use rv_frame::{Frames, Sink, Source, write_frame};
use rv_text::{
    Answer, Call, Item, Key, MAX_BODY_BYTES, Message, Reply, Version, Wait, decode_answer,
    encode_message,
};
use std::net::TcpStream;
use std::time::{Clock, Duration};

// How many requests are under way at once, in the first and in the second column.
const FEW: usize = 1;

const MANY: usize = 16;

// For how many milliseconds puts and takes go on in each column, and hand-overs.
const SPAN_MILLIS: u64 = 500;

// How many milliseconds a take or a transfer waits for the other, at most.
const WAIT_MILLIS: u64 = 10_000;

// The item that is handed over.
const ITEM: &str = "rv bench";

// The bytes that are read at once.
const PIECE: usize = 4_096;

// What one column shows, each a second.
#[derive(Clone, Copy)]
struct Rates {
    puts: u64,
    takes: u64,
    hand_overs: u64,
}

/// Measures, and prints the table, if nothing waits at the queue, as this reply to its count says. Each item
/// that it puts it takes at once.
pub(crate) fn run_bench(
    rt: &HostRuntime,
    session: &ShellSession,
    counted: &SettledCall,
) -> Result<u8, ShellEnd> {
    let Call::Count { queue } = &counted.call else {
        return Err(ShellEnd::NoMemory);
    };
    if !matches!(
        &counted.reply,
        Reply::Counted {
            items: 0,
            consumers: 0
        }
    ) {
        return Err(ShellEnd::Busy(*queue));
    }
    let many = rates_of(rt, session, *queue, MANY)?;
    let few = rates_of(rt, session, *queue, FEW)?;
    print_table(rt, few, many)
}

// Prints the table.
fn print_table(rt: &HostRuntime, few: Rates, many: Rates) -> Result<u8, ShellEnd> {
    let mut out = Sink::new(rt.stdout());
    let mut text = String::new(rt.alloc());
    text.push_str("a second       1 at a time  16 at once\n")?;
    text.push_str(row(rt, "puts", few.puts, many.puts)?.as_str())?;
    text.push_str(row(rt, "takes", few.takes, many.takes)?.as_str())?;
    text.push_str(row(rt, "hand-overs", few.hand_overs, many.hand_overs)?.as_str())?;
    match out.write_all(text.as_bytes()) {
        Ok(()) => Ok(0),
        Err(_) => Err(ShellEnd::Unprinted),
    }
}

// One row of the table.
fn row(rt: &HostRuntime, name: &str, few: u64, many: u64) -> Result<String, ShellEnd> {
    Ok(format!(in rt.alloc(); "{name:<12}{few:>14}{many:>12}\n")?)
}

// The rates with so many requests under way at once, each over a connection of its own.
fn rates_of(
    rt: &HostRuntime,
    session: &ShellSession,
    queue: u64,
    at_once: usize,
) -> Result<Rates, ShellEnd> {
    let mut producers = Peers::open(rt, session, queue, at_once)?;
    let mut consumers = Peers::open(rt, session, queue, at_once)?;
    let (puts, takes) = producers.put_and_take()?;
    let hand_overs = producers.hand_over_to(&mut consumers)?;
    Ok(Rates {
        puts,
        takes,
        hand_overs,
    })
}

// Connections that ask side by side at a queue.
#[derive(Drop)]
struct Peers<'a> {
    rt: &'a HostRuntime,
    queue: u64,
    all: Vec<Peer>,
}

impl<'a> Peers<'a> {
    // So many of them, each welcome.
    fn open(
        rt: &'a HostRuntime,
        session: &ShellSession,
        queue: u64,
        count: usize,
    ) -> Result<Peers<'a>, ShellEnd> {
        let mut all = Vec::new(rt.alloc());
        for _ in 0..count {
            let peer = Peer::open(rt, session, queue)?;
            if all.push(peer).is_err() {
                return Err(ShellEnd::NoMemory);
            }
        }
        Ok(Peers { rt, queue, all })
    }

    // Puts, and then takes what was put, for a while; how many of each a second.
    fn put_and_take(&mut self) -> Result<(u64, u64), ShellEnd> {
        let (mut putting, mut taking) = (Duration::ZERO, Duration::ZERO);
        for round in 0..u64::MAX {
            if putting.saturating_add(taking) >= Duration::from_millis(SPAN_MILLIS) {
                return Ok((self.rate(round, putting), self.rate(round, taking)));
            }
            let began = self.now();
            self.ask_all(&ToDo::Put)?;
            self.hear_all()?;
            let between = self.now();
            self.ask_all(&ToDo::Take)?;
            self.hear_all()?;
            putting = putting.saturating_add(between.saturating_sub(began));
            taking = taking.saturating_add(self.now().saturating_sub(between));
        }
        Err(ShellEnd::Broken(self.queue))
    }

    // Hands items over to the consumers for a while, each of which waits for its own; how many a second.
    fn hand_over_to(&mut self, consumers: &mut Peers) -> Result<u64, ShellEnd> {
        let began = self.now();
        for round in 0..u64::MAX {
            let span = self.now().saturating_sub(began);
            if span >= Duration::from_millis(SPAN_MILLIS) {
                return Ok(self.rate(round, span));
            }
            consumers.ask_all(&ToDo::WaitForItem)?;
            self.ask_all(&ToDo::HandOver)?;
            consumers.hear_all()?;
            self.hear_all()?;
        }
        Err(ShellEnd::Broken(self.queue))
    }

    // Sends a request over each connection.
    fn ask_all(&mut self, to_do: &ToDo) -> Result<(), ShellEnd> {
        for peer in &mut self.all {
            peer.ask(self.rt, to_do.call(self.rt, self.queue)?)?;
        }
        Ok(())
    }

    // Hears the reply of each, whatever those before it were. The first that isn't as it should be is why the
    // bench ends; a further item of somebody else's is told at once.
    fn hear_all(&mut self) -> Result<(), ShellEnd> {
        let mut heard = Ok(());
        for peer in &mut self.all {
            if let Err(end) = peer.hear(self.rt) {
                heard = heard_first(self.rt, heard, end);
            }
        }
        heard
    }

    // This moment.
    fn now(&self) -> Duration {
        self.rt.monotonic().unwrap_or(Duration::MAX)
    }

    // How many calls of so many rounds that is a second.
    fn rate(&self, rounds: u64, span: Duration) -> u64 {
        let calls = u128::saturating_mul(rounds as u128, self.all.len() as u128);
        let nanos = u128::saturating_add(span.as_nanos(), 1);
        u64::try_from(u128::saturating_mul(calls, 1_000_000_000) / nanos).unwrap_or(u64::MAX)
    }
}

// The first reason why a bench ends: the one that it had, or else this one. An item that isn't that reason is
// told here.
fn heard_first(
    rt: &HostRuntime,
    heard: Result<(), ShellEnd>,
    end: ShellEnd,
) -> Result<(), ShellEnd> {
    if heard.is_ok() {
        return Err(end);
    }
    if matches!(end, ShellEnd::NotOwn(_, _)) {
        let _ = eprintln!(rt; "{end}");
    }
    heard
}

// What is done over each connection at once.
#[derive(Drop)]
enum ToDo {
    Put,
    Take,
    HandOver,
    WaitForItem,
}

impl ToDo {
    // The call for it.
    fn call(&self, rt: &HostRuntime, queue: u64) -> Result<Call, ShellEnd> {
        let wait = Wait::Millis(WAIT_MILLIS);
        match self {
            ToDo::Put => Ok(Call::Put {
                queue,
                item: own_item(rt)?,
            }),
            ToDo::Take => Ok(Call::Take {
                queue,
                wait: Wait::Now,
            }),
            ToDo::HandOver => Ok(Call::Transfer {
                queue,
                item: own_item(rt)?,
                wait,
            }),
            ToDo::WaitForItem => Ok(Call::Take { queue, wait }),
        }
    }
}

// The item of the bench.
fn own_item(rt: &HostRuntime) -> Result<Item, ShellEnd> {
    Ok(Item::from_text(String::from_str(rt.alloc(), ITEM)?))
}

// Whether an item of this queue is the bench's.
fn check_item(queue: u64, item: Item) -> Result<(), ShellEnd> {
    if item.as_str() == ITEM {
        Ok(())
    } else {
        Err(ShellEnd::NotOwn(queue, item.into_text()))
    }
}

// One connection, whose client number is leased.
#[derive(Drop)]
struct Peer {
    stream: TcpStream,
    frames: Frames,
    key: Key,
    queue: u64,
    _lease: Lease,
}

impl Peer {
    // A connection whose client is welcome.
    fn open(rt: &HostRuntime, session: &ShellSession, queue: u64) -> Result<Peer, ShellEnd> {
        let lease = session.lease_more(rt)?;
        let Some(stream) = connected_to_one(rt, session.servers()) else {
            return Err(ShellEnd::NoServer);
        };
        let key = Key {
            epoch: 1,
            client: lease.client,
            incarnation: new_incarnation(rt),
            number: 0,
        };
        let mut peer = Peer {
            stream,
            frames: Frames::new(rt.alloc()),
            key,
            queue,
            _lease: lease,
        };
        peer.send(
            rt,
            &Message::Hello {
                client: key.client,
                incarnation: key.incarnation,
                version: session.version(),
            },
        )?;
        match peer.answer(rt)? {
            Answer::Welcome { epoch, .. } => {
                peer.key.epoch = epoch;
                Ok(peer)
            }
            Answer::Refused(refusal) => Err(ShellEnd::Refused(refusal)),
            _ => Err(peer.broken()),
        }
    }

    // Sends the next request.
    fn ask(&mut self, rt: &HostRuntime, call: Call) -> Result<(), ShellEnd> {
        self.key.number = self.key.number.saturating_add(1);
        let key = self.key;
        self.send(rt, &Message::Request { key, call })
    }

    // Hears its reply, which is one that it did what was asked.
    fn hear(&mut self, rt: &HostRuntime) -> Result<(), ShellEnd> {
        let Answer::Replied { key, reply } = self.answer(rt)? else {
            return Err(self.broken());
        };
        if key == self.key {
            self.check(reply)
        } else {
            Err(self.broken())
        }
    }

    // Whether a reply tells that it was done.
    fn check(&self, reply: Reply) -> Result<(), ShellEnd> {
        match reply {
            Reply::Done | Reply::Received | Reply::ReceivedBy(_) => Ok(()),
            Reply::Item(item) => check_item(self.queue, item),
            _ => Err(self.broken()),
        }
    }

    // Sends a message as a frame.
    fn send(&mut self, rt: &HostRuntime, message: &Message) -> Result<(), ShellEnd> {
        let text = encode_message(rt.alloc(), message)?;
        let body = text.as_bytes();
        if body.is_empty() || body.len() > MAX_BODY_BYTES {
            return Err(self.broken());
        }
        let mut to = Sink::new(&self.stream);
        match write_frame(&mut to, body) {
            Ok(()) => Ok(()),
            Err(_) => Err(self.broken()),
        }
    }

    // The next answer.
    fn answer(&mut self, rt: &HostRuntime) -> Result<Answer, ShellEnd> {
        let mut piece = [0; PIECE];
        for _ in 0..u64::MAX {
            if let Some(body) = self.frames.next()? {
                return match decode_answer(rt.alloc(), &body) {
                    Ok(answer) => Ok(answer),
                    Err(_) => Err(self.broken()),
                };
            }
            let count = Source::new(&self.stream).read(&mut piece).unwrap_or(0);
            if count == 0 || self.frames.feed(&piece[..count]).is_err() {
                return Err(self.broken());
            }
        }
        Err(self.broken())
    }

    // The end of a bench whose server was lost, or answered otherwise.
    fn broken(&self) -> ShellEnd {
        ShellEnd::Broken(self.queue)
    }
}
