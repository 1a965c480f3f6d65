//! The session of a command: what its address and the environment say, and a client number that is leased.
use crate::run::address::{Address, AddressFault, read_address};
use crate::run::end::ShellEnd;
use crate::run::leased::{ClientRange, Lease, take_lease};
use rv_text::Version;
use std::env::{self, VarError};
use std::time::Duration;

// The server where none is named.
const LOCAL: &str = "127.0.0.1:7411";

// For how many seconds a lost server is tried again, if nothing else is said.
const PATIENCE_SECONDS: u64 = 60;

/// The text of the address that is named, or else of the environment's, or of the local server's.
pub(crate) fn address_of(rt: &HostRuntime, named: Option<&str>) -> Result<String, ShellEnd> {
    if let Some(address) = named {
        return Ok(String::from_str(rt.alloc(), address)?);
    }
    match variable(rt, "RV_SERVER")? {
        Some(address) if !address.is_empty() => Ok(address),
        _ => Ok(String::from_str(rt.alloc(), LOCAL)?),
    }
}

/// A session, whose client number is its own while this is there.
#[derive(Drop)]
pub(crate) struct ShellSession<'a> {
    address: Address<'a>,
    lease: Lease,
}

impl<'a> ShellSession<'a> {
    /// The session that an address and the environment name.
    pub(crate) fn open(rt: &HostRuntime, text: &'a str) -> Result<ShellSession<'a>, ShellEnd> {
        let mut address = match read_address(rt.alloc(), text) {
            Ok(address) => address,
            Err(AddressFault::NoMemory) => return Err(ShellEnd::NoMemory),
            Err(fault) => {
                return Err(ShellEnd::Words(format!(in rt.alloc(); "address {text}: {fault}")?));
            }
        };
        if address.record.is_none() {
            address.record = variable(rt, "RV_RECORD")?;
        }
        let lease = leased(rt, address.client)?;
        Ok(ShellSession { address, lease })
    }

    /// A further lease, beside the session's own, from the same numbers.
    pub(crate) fn lease_more(&self, rt: &HostRuntime) -> Result<Lease, ShellEnd> {
        leased(rt, None)
    }

    /// Each server's `HOST:PORT`, with commas between them.
    pub(crate) fn servers(&self) -> &str {
        self.address.servers
    }

    /// The client's number.
    pub(crate) fn client(&self) -> u64 {
        self.lease.client
    }

    /// The version of its messages.
    pub(crate) fn version(&self) -> Version {
        self.address.version.unwrap_or(Version::Two)
    }

    /// For how long a lost server is tried again.
    pub(crate) fn patience(&self) -> Duration {
        self.address
            .patience
            .unwrap_or(Duration::from_secs(PATIENCE_SECONDS))
    }

    /// The path of its record, if it keeps one.
    pub(crate) fn record(&self) -> Option<&str> {
        match &self.address.record {
            Some(path) if !path.is_empty() => Some(path.as_str()),
            _ => None,
        }
    }
}

// Leases the number that is said, or else the least of the environment's that is free.
fn leased(rt: &HostRuntime, client: Option<u64>) -> Result<Lease, ShellEnd> {
    let range = match client {
        Some(client) => ClientRange::only(client),
        None => usual_range(rt)?,
    };
    match take_lease(rt, range) {
        Some(lease) => Ok(lease),
        None => Err(ShellEnd::Leased(range)),
    }
}

// The numbers that the environment says, or else the usual ones.
fn usual_range(rt: &HostRuntime) -> Result<ClientRange, ShellEnd> {
    let Some(text) = variable(rt, "RV_CLIENTS")? else {
        return Ok(ClientRange::USUAL);
    };
    match ClientRange::of_text(text.as_str()) {
        Some(range) => Ok(range),
        None => Err(ShellEnd::Words(format!(in rt.alloc();
            "RV_CLIENTS {text}: FIRST-LAST, as 1-512"
        )?)),
    }
}

// A variable of the environment, if it is there.
fn variable(rt: &HostRuntime, name: &str) -> Result<Option<String>, ShellEnd> {
    match env::var(rt, name) {
        Ok(text) => Ok(Some(text)),
        Err(VarError::NotPresent) => Ok(None),
        Err(_) => Err(ShellEnd::Words(format!(in rt.alloc();
            "{name}: no UTF-8, or no memory for it"
        )?)),
    }
}
