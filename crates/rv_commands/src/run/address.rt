//! The address of a server: alternatives that are tried in turn, and what it says of a session.
use percent_encoding::percent_decode_str;
use rv_text::{Version, read_between};
use std::alloc::{AllocError, Global};
use std::fmt;
use std::time::Duration;

// The greatest port, and the greatest number of a client.
const MOST_PORT: u64 = 65_535;

const MOST_CLIENT: u64 = 9_007_199_254_740_991;

// What no name of a host has, beside white space.
const NO_NAME: &str = "\0/?#&,:[]@%";

// How many digits are on each side of a span's point, at most.
const DIGITS: usize = 9;

/// What an address names.
#[derive(Drop)]
pub(crate) struct Address<'a> {
    /// Each server's `HOST:PORT`, with commas between them.
    pub(crate) servers: &'a str,
    /// For how long a server that is lost is tried again, if that is said.
    pub(crate) patience: Option<Duration>,
    /// The file of a record, if one is named.
    pub(crate) record: Option<String>,
    /// The client's number, if it is said.
    pub(crate) client: Option<u64>,
    /// The version of its messages, if it is said.
    pub(crate) version: Option<Version>,
}

/// The first fault of an address. Its `Display` is the place that has it.
#[derive(Drop)]
pub(crate) enum AddressFault<'a> {
    /// The server of this place, counted from 1, has no host.
    Host(usize),
    /// It has no port.
    Port(usize),
    /// The option of this place, counted from 1, has no name.
    Empty(usize),
    /// There is no option of this name.
    Unknown(&'a str),
    /// The option of this name is there before.
    Twice(&'a str),
    /// The value of the option of this name is none.
    Value(&'a str),
    /// Memory was refused.
    NoMemory,
}

impl<'a> From<AllocError> for AddressFault<'a> {
    fn from(_error: AllocError) -> AddressFault<'a> {
        AddressFault::NoMemory
    }
}

impl fmt::Display for AddressFault<'_> {
    fn fmt<W: fmt::Write>(&self, f: &mut fmt::Formatter<W>) -> fmt::Result {
        match self {
            AddressFault::Host(place) => write!(f, "host of server {place}"),
            AddressFault::Port(place) => write!(f, "port of server {place}"),
            AddressFault::Empty(place) => write!(f, "option {place} is empty"),
            AddressFault::Unknown(name) => write!(f, "option {name} is unknown"),
            AddressFault::Twice(name) => write!(f, "option {name} twice"),
            AddressFault::Value(name) => write!(f, "option {name}"),
            AddressFault::NoMemory => f.write_str("no memory"),
        }
    }
}

/// What an address names: `HOST:PORT`, or several with commas between them, or the same after `rv://`, with
/// options after a question mark.
pub(crate) fn read_address<'a>(
    alloc: Global,
    text: &'a str,
) -> Result<Address<'a>, AddressFault<'a>> {
    let (servers, options) = match text.strip_prefix("rv://") {
        Some(rest) => match rest.split_once('?') {
            Some((servers, options)) => (servers, Some(options)),
            None => (rest, None),
        },
        None => (text, None),
    };
    check_servers(servers)?;
    let mut address = Address {
        servers,
        patience: None,
        record: None,
        client: None,
        version: None,
    };
    match options {
        Some(options) => address.read_options(alloc, options)?,
        None => {}
    }
    Ok(address)
}

// Each server has a host and a port.
fn check_servers<'a>(servers: &str) -> Result<(), AddressFault<'a>> {
    for (before, server) in servers.split(',').enumerate() {
        let place = before.saturating_add(1);
        let (has_host, port) = parts_of(server);
        if !has_host {
            return Err(AddressFault::Host(place));
        }
        if port.and_then(|port| whole_in(port, MOST_PORT)).is_none() {
            return Err(AddressFault::Port(place));
        }
    }
    Ok(())
}

// Whether a server has a host, and the text of its port, if there is one.
fn parts_of(server: &str) -> (bool, Option<&str>) {
    if let Some(inner) = server.strip_prefix('[') {
        if let Some((host, rest)) = inner.split_once(']') {
            return (is_sixth(host), rest.strip_prefix(':'));
        }
    }
    match server.rsplit_once(':') {
        Some((host, port)) => (is_name(host), Some(port)),
        None => (is_name(server), None),
    }
}

// Whether a text is a host's name, or an address of version 4.
fn is_name(host: &str) -> bool {
    !host.is_empty() && host.chars().all(is_of_name)
}

// Whether a character may stand in a host's name.
fn is_of_name(c: char) -> bool {
    !c.is_whitespace() && !NO_NAME.contains(c)
}

// Whether a text is an address of version 6, which may have a zone.
fn is_sixth(host: &str) -> bool {
    let (address, has_zone) = match host.split_once('%') {
        Some((address, zone)) => (address, is_name(zone)),
        None => (host, true),
    };
    let mut groups = address.splitn(3, ':');
    let is_hex = |c: char| c.is_ascii_hexdigit();
    let (Some(first), Some(second), Some(rest)) = (groups.next(), groups.next(), groups.next())
    else {
        return false;
    };
    has_zone
        && first.chars().all(is_hex)
        && second.chars().all(is_hex)
        && rest.chars().all(|c| is_hex(c) || c == ':' || c == '.')
}

// A whole number from 1 to `most`, with no zero before it.
fn whole_in(text: &str, most: u64) -> Option<u64> {
    if text.starts_with('0') {
        return None;
    }
    read_between(text.as_bytes(), 1, most)
}

impl<'a> Address<'a> {
    // Reads the options, one after another.
    fn read_options(&mut self, alloc: Global, options: &'a str) -> Result<(), AddressFault<'a>> {
        for (before, option) in options.split('&').enumerate() {
            let (name, value) = option.split_once('=').unwrap_or((option, ""));
            if name.is_empty() {
                return Err(AddressFault::Empty(before.saturating_add(1)));
            }
            self.read_option(alloc, name, value)?;
        }
        Ok(())
    }

    // Reads the option of this name.
    fn read_option(
        &mut self,
        alloc: Global,
        name: &'a str,
        value: &str,
    ) -> Result<(), AddressFault<'a>> {
        let value = decoded(alloc, value)?;
        let text = value.as_str();
        match name {
            "patience" => fill(&mut self.patience, name, span_in(text)),
            "client" => fill(&mut self.client, name, whole_in(text, MOST_CLIENT)),
            "version" => fill(&mut self.version, name, version_in(text)),
            "record" => fill(&mut self.record, name, path_in(value)),
            _ => Err(AddressFault::Unknown(name)),
        }
    }
}

// Takes an option's value, if it is one, and no other was there.
fn fill<'a, T: Drop>(
    slot: &mut Option<T>,
    name: &'a str,
    value: Option<T>,
) -> Result<(), AddressFault<'a>> {
    if slot.is_some() {
        return Err(AddressFault::Twice(name));
    }
    if value.is_none() {
        return Err(AddressFault::Value(name));
    }
    *slot = value;
    Ok(())
}

// An option's value without its marks of bytes; empty, as none may be, where those are no UTF-8.
fn decoded(alloc: Global, value: &str) -> Result<String, AllocError> {
    let mut bytes = Vec::new(alloc);
    if value.split('%').skip(1).all(begins_with_byte) {
        percent_decode_str(value).append_to(&mut bytes)?;
    }
    Ok(String::from_utf8(bytes).unwrap_or(String::new(alloc)))
}

// Whether a text begins with two hexadecimal digits.
fn begins_with_byte(text: &str) -> bool {
    match text.as_bytes() {
        [first, second, ..] => first.is_ascii_hexdigit() && second.is_ascii_hexdigit(),
        _ => false,
    }
}

// A span of seconds above 0, with up to nine digits on each side of a point, or one without end.
fn span_in(text: &str) -> Option<Duration> {
    if text == "forever" {
        return Some(Duration::MAX);
    }
    let (whole, part) = text.split_once('.').unwrap_or((text, "0"));
    let seconds = digits_in(whole)?;
    let mut nanos = digits_in(part)?;
    for _ in part.len()..DIGITS {
        nanos = nanos.saturating_mul(10);
    }
    let span = Duration::from_secs(seconds).saturating_add(Duration::from_nanos(nanos));
    if span.is_zero() { None } else { Some(span) }
}

// The number of up to nine digits.
fn digits_in(text: &str) -> Option<u64> {
    if text.len() > DIGITS {
        return None;
    }
    read_between(text.as_bytes(), 0, u64::MAX)
}

// The version that a number is.
fn version_in(text: &str) -> Option<Version> {
    match text {
        "1" => Some(Version::One),
        "2" => Some(Version::Two),
        _ => None,
    }
}

// The path of a file, which isn't empty and has no zero byte.
fn path_in(text: String) -> Option<String> {
    if text.is_empty() || text.contains('\0') {
        None
    } else {
        Some(text)
    }
}
