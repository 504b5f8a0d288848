// Where a client is.
ghost use Rattle.std.specs.Prelude.{◌↔◌, IsTrue};
ghost use Rattle.broker_parts.specs.Places.{IsOwn};

use std::fmt;
use std::net::{IpAddr, SocketAddr};

/// Where a client is: at the other end of its connection, or where a proxy says.
#[derive(Clone, Copy, Debug, PartialEq, Eq)]
pub enum Whence {
    Peer(SocketAddr),
    Forwarded(IpAddr),
}

impl fmt::Display for Whence {
    fn fmt<W: fmt::Write>(&self, f: &mut fmt::Formatter<W>) -> fmt::Result {
        match self {
            Whence::Peer(address) => write!(f, "{address}"),
            Whence::Forwarded(address) => write!(f, "{address}"),
        }
    }
}

/// Whether the address is the machine's own. A loopback address of IPv4 may be written as one of IPv6 (RFC 4291, section
/// 2.5.5.2).
pub(crate) fn is_own(address: IpAddr) -> bool
    ensures { IsTrue result ↔ IsOwn address }
{
    address.to_canonical().is_loopback()
}
