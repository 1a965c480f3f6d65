//! The address from which each connection comes, and how many may come from one.
ghost use Rattle.std.specs.Prelude.{◌≡◌, ◌↔◌, get_or, replicate, slice_set, IfOk, IsTrue, None, Some};
ghost use Rattle.std.specs.Net.Socket.{socket_ip};
ghost use Rattle.rv_traffic.specs.links.Table.{link_at};
ghost use Rattle.rv_traffic.specs.Origins.{MayCome, address_number, count_from, is_from};

use crate::links::Links;
use rv_server_connections::subscribers::ConnectionNumber;
use std::alloc::{AllocError, Global};
use std::net::{IpAddr, SocketAddr};

/// The number of an address, whatever its port: the 128 bits of an IPv6 address, to which one of IPv4 is
/// mapped first, as `::ffff:a.b.c.d`.
#[tactic(auto, unfolding(std::specs::Net::Addr::ipv6_bits))]
pub fn number_of(address: &SocketAddr) -> u128
    ensures { result ≡ address_number (socket_ip address.now) }
{
    match address.ip() {
        IpAddr::V4(ip) => ip.to_ipv6_mapped().to_bits(),
        IpAddr::V6(ip) => ip.to_bits(),
    }
}

/// For each connection, by its number, the number of the address from which it came; and how many may be
/// open from one address, if that is bounded.
#[derive(Drop)]
pub struct Origins {
    from: Vec<Option<u128>>,
    most: Option<usize>,
}

impl Origins {
    /// None has come, and there is room for all connections' numbers below `room`. From one address at most
    /// `most` may be open, or any number where that is `None`.
    pub fn new(alloc: Global, room: usize, most: Option<usize>) -> Result<Origins, AllocError>
        ensures none { IfOk result (λ origins. origins.from.items ≡ replicate room None) }
        ensures most { IfOk result (λ origins. origins.most ≡ most) }
    {
        Ok(Origins {
            from: Vec::from_elem(alloc, None, room)?,
            most,
        })
    }

    // Whether a connection is open that came from an address.
    fn is_from<S: Drop>(&self, links: &Links<S>, number: usize, address: u128) -> bool
        ensures { result ≡ is_from address (get_or self.now.from.items number None)
            (link_at links.now.table.items number) }
    {
        if !links.is_there(number) {
            return false;
        }
        match self.from.get(number) {
            Some(Some(from)) => *from == address,
            _ => false,
        }
    }

    // How many open connections came from an address.
    fn count<S: Drop>(&self, links: &Links<S>, address: u128) -> usize
        ensures { result ≡ count_from self.now.from.items links.now.table.items address }
    {
        let mut count = 0;
        for number in 0..self.from.len().min(links.room()) {
            if self.is_from(links, number, address) {
                count += 1;
            }
        }
        count
    }

    /// Whether one more connection may come from an address, by how many of those with a socket came from
    /// it. That takes a step for each number for which there is room.
    pub fn takes<S: Drop>(&self, links: &Links<S>, address: u128) -> bool
        ensures { IsTrue result
            ↔ MayCome self.now.most (count_from self.now.from.items links.now.table.items address) }
    {
        match self.most {
            Some(most) => self.count(links, address) < most,
            None => true,
        }
    }

    /// The connection of this number comes from an address. One for whose number there is no room isn't
    /// noted.
    pub fn note(&mut self, number: ConnectionNumber, address: u128)
        ensures from { self.new.from.items ≡ slice_set self.old.from.items number (Some address) }
        ensures most { self.new.most ≡ self.old.most }
    {
        if number < self.from.len() {
            self.from[number] = Some(address);
        }
    }
}
