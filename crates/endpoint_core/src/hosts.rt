// Which hosts are known: addresses in digits, this machine's own name, and those that are listed.
ghost use Rattle.std.specs.Prelude.{◌≡◌, ◌==◌, ◌&&◌, ◌+◌, nat_eq, nat_lt, codes, length, take, position};
ghost use Rattle.std.specs.List.{ends_with, list_all, position_or_len, starts_with};
ghost use Rattle.std.specs.Char.{is_ascii_digit};
ghost use Rattle.std.specs.Str.{IsCharBoundary};
ghost use Rattle.endpoint_core.specs.Origins.{between_ends, host_of, is_ipv4, is_ipv6, is_ipv6_byte, is_known, is_known_host, is_octet, is_port, parts_of_address};

use crate::admitted::{Admitted, is_same};
use crate::numbers::number_up_to;

fn mark_in(text: &[u8], mark: u8) -> Option<usize>
    ensures { result ≡ position (λ byte. byte == mark) text.now }
{
    text.iter().position(|byte| *byte == mark)
}

/// The first place of the byte, or the length.
fn place_of(text: &[u8], mark: u8) -> usize
    ensures { result ≡ position_or_len (λ byte. byte == mark) text.now }
{
    mark_in(text, mark).unwrap_or(text.len())
}

fn bracketed_len(text: &str) -> usize
    ensures value { result ≡ length (take (position_or_len (λ byte. byte == 93) text.now + 1) text.now) }
    ensures boundary { IsCharBoundary text.now result }
{
    let end = place_of(text.as_bytes(), b']');
    if end < text.len() { end + 1 } else { end }
}

fn named_len(text: &str) -> usize
    ensures value { result ≡ length (take (position_or_len (λ byte. byte == 58) text.now) text.now) }
    ensures boundary { IsCharBoundary text.now result }
{
    place_of(text.as_bytes(), b':')
}

fn host_len(text: &str) -> usize
    ensures value { result ≡ length (host_of text.now) }
    ensures boundary { IsCharBoundary text.now result }
{
    if text.starts_with("[") {
        bracketed_len(text)
    } else {
        named_len(text)
    }
}

fn is_octet(text: &str) -> bool
    ensures { result ≡ is_octet text.now }
{
    text.len() <= 3 && number_up_to::<255>(text).is_some()
}

fn address_len(host: &str) -> usize
    ensures { result ≡ length (parts_of_address host.now) }
{
    host.split('.').count()
}

fn are_octets(host: &str) -> bool
    ensures { result ≡ list_all is_octet (parts_of_address host.now) }
{
    host.split('.').all(|part| is_octet(part))
}

fn is_ipv4(host: &str) -> bool
    ensures { result ≡ is_ipv4 host.now }
{
    address_len(host) == 4 && are_octets(host)
}

fn is_ipv6_byte(byte: u8) -> bool
    ensures { result ≡ is_ipv6_byte byte }
{
    byte.is_ascii_hexdigit() || byte == b':' || byte == b'.'
}

fn are_ipv6_bytes(text: &[u8]) -> bool
    ensures { result ≡ list_all is_ipv6_byte text.now }
{
    text.iter().all(|byte| is_ipv6_byte(*byte))
}

fn is_in_brackets(host: &str) -> bool
    ensures { result ≡ (starts_with nat_eq host.now (codes "[") && ends_with nat_eq host.now (codes "]")) }
{
    host.starts_with("[") && host.ends_with("]")
}

fn has_ipv6_bytes(host: &str) -> bool
    ensures { result ≡ (nat_lt 2 (length host.now) && list_all is_ipv6_byte (between_ends host.now)) }
{
    if host.len() <= 2 {
        return false;
    }
    are_ipv6_bytes(&host.as_bytes()[1..host.len() - 1])
}

fn is_ipv6(host: &str) -> bool
    ensures { result ≡ is_ipv6 host.now }
{
    is_in_brackets(host) && has_ipv6_bytes(host)
}

fn is_known(admitted: &Admitted, host: &str) -> bool
    ensures { result ≡ is_known admitted.now host.now }
{
    is_ipv4(host) || is_ipv6(host) || is_same("localhost", host) || admitted.lists_host(host)
}

fn are_digits(text: &[u8]) -> bool
    ensures { result ≡ list_all is_ascii_digit text.now }
{
    text.iter().all(|byte| byte.is_ascii_digit())
}

fn is_port(text: &str) -> bool
    ensures { result ≡ is_port text.now }
{
    text.is_empty()
        || text.starts_with(":")
            && text.len() > 1
            && text.len() <= 6
            && are_digits(&text.as_bytes()[1..])
}

fn are_known(admitted: &Admitted, host: &str, port: &str) -> bool
    ensures { result ≡ (is_known admitted.now host.now && is_port port.now) }
{
    is_known(admitted, host) && is_port(port)
}

/// Whether a `Host` names a host that is known, and then a port or nothing.
pub fn is_known_host(admitted: &Admitted, text: &str) -> bool
    ensures { result ≡ is_known_host admitted.now text.now }
{
    let (host, port) = text.split_at(host_len(text));
    are_known(admitted, host, port)
}
