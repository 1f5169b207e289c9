//! Hosts, and the addresses of sockets.

ghost use Rattle.std.specs.Prelude.{◌≡◌};
ghost use Rattle.std.specs.List.{list_all};
ghost use Rattle.file_keys.specs.Hosts as spec;

use std::net::{Ipv6Addr, SocketAddr};
use text_pieces::{cut_last, plain_number_u32};

fn is_name_byte(byte: u8) -> bool
    ensures { result ≡ spec.is_name_byte byte }
{
    byte.is_ascii_alphanumeric() || byte == b'-' || byte == b'.' || byte == b'_'
}

fn are_name_bytes(host: &[u8]) -> bool
    ensures { result ≡ list_all spec.is_name_byte host.now }
{
    host.iter().all(|byte| is_name_byte(*byte))
}

fn is_name(host: &[u8]) -> bool
    ensures { result ≡ spec.is_name host.now }
{
    host.len() >= 1 && are_name_bytes(host)
}

fn is_ipv6(text: &[u8]) -> bool
    ensures { result ≡ spec.is_ipv6 text.now }
{
    Ipv6Addr::parse_ascii(text).is_ok()
}

/// Whether a text is an IPv4 address or an IPv6 address in brackets, and a port.
pub fn is_socket(text: &[u8]) -> bool
    ensures { result ≡ spec.is_socket text.now }
{
    SocketAddr::parse_ascii(text).is_ok()
}

fn is_bracketed(host: &[u8]) -> bool
    ensures { result ≡ spec.is_bracketed host.now }
{
    match host.strip_prefix(b"[") {
        Some(rest) => match rest.strip_suffix(b"]") {
            Some(address) => is_ipv6(address),
            None => false,
        },
        None => false,
    }
}

/// Whether a text is a name, an IPv4 address or an IPv6 address in brackets.
pub fn is_host(host: &[u8]) -> bool
    ensures { result ≡ spec.is_host host.now }
{
    is_name(host) || is_bracketed(host)
}

/// Whether a text is a port: a number from 1 to 65,535, without zeros before it.
pub fn is_port(digits: &[u8]) -> bool
    ensures { result ≡ spec.is_port digits.now }
{
    match plain_number_u32(digits) {
        Some(port) => port >= 1 && port <= 65_535,
        None => false,
    }
}

/// Whether a text has a port after its last colon.
pub fn has_port(text: &[u8]) -> bool
    ensures { result ≡ spec.has_port text.now }
{
    match cut_last(b':', text) {
        Some((_, port)) => is_port(port),
        None => false,
    }
}
