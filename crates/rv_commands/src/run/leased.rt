//! A client number that no other program of this user has on this host, while its socket is bound.
use crate::lease::{lease_address, lease_at};
use rv_text::read_identifier;
use std::io::ErrorKind;
use std::net::{Ipv4Addr, SocketAddrV4, UdpSocket};

/// The numbers from which one is leased, both ends included.
#[derive(Clone, Copy)]
pub(crate) struct ClientRange {
    pub(crate) first: u64,
    pub(crate) last: u64,
}

impl ClientRange {
    /// The numbers that are leased where nothing else is said.
    pub(crate) const USUAL: ClientRange = ClientRange {
        first: 1,
        last: 1_024,
    };

    /// This number alone.
    pub(crate) fn only(client: u64) -> ClientRange {
        ClientRange {
            first: client,
            last: client,
        }
    }

    /// The numbers that a text `FIRST-LAST` names.
    pub(crate) fn of_text(text: &str) -> Option<ClientRange> {
        let (first, last) = text.split_once('-')?;
        let first = read_identifier(first.as_bytes())?;
        let last = read_identifier(last.as_bytes())?;
        if first <= last {
            Some(ClientRange { first, last })
        } else {
            None
        }
    }
}

/// A lease: it ends with the process, however that ends.
#[derive(Drop)]
pub(crate) struct Lease {
    /// The client number.
    pub(crate) client: u64,
    _socket: UdpSocket,
}

/// Leases the least number that is free, if one is.
pub(crate) fn take_lease(rt: &HostRuntime, range: ClientRange) -> Option<Lease> {
    let user = libc::geteuid();
    for client in range.first..=range.last {
        if let Some(socket) = bound(rt, lease_address(user, client), lease_at(client)) {
            return Some(Lease {
                client,
                _socket: socket,
            });
        }
    }
    None
}

// A socket at this place, or at the same port of the loopback address where the system has no such address.
fn bound(rt: &HostRuntime, address: [u8; 4], port: u16) -> Option<UdpSocket> {
    let place = SocketAddrV4::new(Ipv4Addr::from(address), port);
    match UdpSocket::bind(rt, place) {
        Ok(socket) => Some(socket),
        Err(error) if error.kind() == ErrorKind::AddrNotAvailable => {
            let local = SocketAddrV4::new(Ipv4Addr::from([127, 0, 0, 1]), port);
            UdpSocket::bind(rt, local).ok()
        }
        Err(_) => None,
    }
}
