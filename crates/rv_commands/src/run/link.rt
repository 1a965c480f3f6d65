//! Connections to servers.
use std::io;
use std::net::TcpStream;
use std::time::Duration;

// The seconds after which a server that says nothing, or takes nothing, is a fault of the link.
const LINK_SECONDS: u64 = 60;

/// A connection to the server at an address, or the system's word why there is none. After a minute in
/// which the server says or takes nothing, reading or writing fails. If the delay of small packets can't be
/// switched off, it goes on, slower.
pub fn connected(rt: &HostRuntime, address: &str) -> io::Result<TcpStream> {
    let stream = TcpStream::connect(rt, address)?;
    stream.set_read_timeout(Some(Duration::from_secs(LINK_SECONDS)))?;
    stream.set_write_timeout(Some(Duration::from_secs(LINK_SECONDS)))?;
    let _ = stream.set_nodelay(true);
    Ok(stream)
}

/// A connection to the first of the servers, which have commas between them, that takes one.
pub(crate) fn connected_to_one(rt: &HostRuntime, servers: &str) -> Option<TcpStream> {
    for server in servers.split(',') {
        if let Ok(stream) = connected(rt, server) {
            return Some(stream);
        }
    }
    None
}
