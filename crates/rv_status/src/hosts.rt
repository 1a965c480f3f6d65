//! Whose pages a request asks for, by its field `Host`.
ghost use Rattle.std.specs.Prelude.{◌≡◌, ◌≤◌, ◌↔◌, ◌==◌, IsTrue, length, not, string_bytes};
ghost use Rattle.std.specs.List.{list_any, prefix_len};
ghost use Rattle.http1.specs.Text.{eq_ignore_case};
ghost use Rattle.rv_status.specs.Hosts.{IsBracketed, IsIpv4, IsIpv6, IsOwn, IsOwnHost, is_own_name};
ghost use Rattle.rv_status.specs.Hosts.{up_to_byte};

use bytes::Bytes;
use http::Request;
use http1::text::eq_ignore_case;
use std::net::{Ipv4Addr, Ipv6Addr};

// Whether a request asks for pages of a server of these names.
pub(crate) fn is_own(request: &Request<Bytes>, names: &[String]) -> bool
    ensures { IsTrue result ↔ IsOwn names.now request.now }
{
    match request.headers().get("host") {
        Some(host) => is_own_host(host.as_bytes(), names),
        None => true,
    }
}

// Whether a host is named by an address, `localhost` or one of the names.
fn is_own_host(host: &[u8], names: &[String]) -> bool
    ensures { IsTrue result ↔ IsOwnHost names.now host.now }
{
    let name = &host[..front_len(host, b':')];
    is_named(name, names) || is_ipv4(name) || is_bracketed(host)
}

// How many bytes stand in front of the first of these.
fn front_len(text: &[u8], byte: u8) -> usize
    ensures value { result ≡ prefix_len (λ b. not (b == byte)) text.now }
    ensures within { result ≤ length text.now }
{
    text.iter().take_while(|b| **b != byte).count()
}

// Whether a name is `localhost` or one of these.
fn is_named(name: &[u8], names: &[String]) -> bool
    ensures { result ≡ is_own_name names.now name.now }
{
    eq_ignore_case(name, b"localhost") || is_among(name, names)
}

// Whether a name is one of these.
fn is_among(name: &[u8], names: &[String]) -> bool
    ensures { result ≡ list_any (λ own. eq_ignore_case name.now (string_bytes own)) names.now }
{
    names.iter().any(|own| eq_ignore_case(name, own.as_bytes()))
}

// Whether a text is an IPv4 address.
fn is_ipv4(text: &[u8]) -> bool
    ensures { IsTrue result ↔ IsIpv4 text.now }
{
    match Ipv4Addr::parse_ascii(text) {
        Ok(_) => true,
        Err(_) => false,
    }
}

// Whether a text is an IPv6 address.
fn is_ipv6(text: &[u8]) -> bool
    ensures { IsTrue result ↔ IsIpv6 text.now }
{
    match Ipv6Addr::parse_ascii(text) {
        Ok(_) => true,
        Err(_) => false,
    }
}

// Whether a host is an IPv6 address in brackets.
fn is_bracketed(host: &[u8]) -> bool
    ensures { IsTrue result ↔ IsBracketed host.now }
{
    if host.is_empty() || host[0] != b'[' {
        return false;
    }
    is_bracketed_address(&host[1..])
}

// Whether an IPv6 address stands in front of a closing bracket.
fn is_bracketed_address(rest: &[u8]) -> bool
    ensures { IsTrue result ↔ IsIpv6 (up_to_byte 93 rest.now) }
{
    is_ipv6(&rest[..front_len(rest, b']')])
}
