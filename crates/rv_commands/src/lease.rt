//! The place of a client number's lease: an address and a port that stand for a user and the number.
ghost use Rattle.std.specs.Prelude.{◌≡◌};
ghost use Rattle.rv_commands.specs.Leases.{lease_host, lease_port, octets};

// The ports of leases, from the first on.
const FIRST_PORT: u16 = 61_000;

const PORTS: u64 = 4_096;

// The addresses of leases, from 127.64.0.0 on; users and blocks of numbers are spread over them by an odd
// factor.
const ADDRESSES: u128 = 4_194_304;

const FACTOR: u128 = 2_654_435_761;

/// The address at which a user leases a client number: a program has the number while it keeps a UDP socket
/// bound there.
pub fn lease_address(user: u32, client: u64) -> [u8; 4]
    ensures { result ≡ octets (lease_host user client) }
{
    let block = (client / PORTS) as u128;
    let host = ((user as u128 + FACTOR * block) % ADDRESSES) as u32;
    [
        127,
        (64 + host / 65_536) as u8,
        (host / 256 % 256) as u8,
        (host % 256) as u8,
    ]
}

/// The port of that socket.
pub fn lease_at(client: u64) -> u16
    ensures { result ≡ lease_port client }
{
    FIRST_PORT + (client % PORTS) as u16
}
