// Where a client is: at the other end of its connection, or where a proxy of this machine says.
ghost use Rattle.std.specs.Prelude.{◌≡◌};
ghost use Rattle.std.specs.Net.Socket.{socket_ip};
ghost use Rattle.std.specs.declared.net.ip_addr.IpAddr.{IpAddr};
ghost use Rattle.worker_loops.specs.Addresses.{IsPlainOf};
ghost use Rattle.worker_pool.specs.Callers.{IsPlace};

use broker_parts::{Visitor, Whence};
use socket_conn::Asked;
use std::net::{IpAddr, SocketAddr};

/// What the proxy says that is nearest: the last address, since those before it may be a client's own words.
fn last_said(asked: &Asked) -> Option<IpAddr> {
    match &asked.forwarded_for {
        Some(said) => {
            let last = said.as_str().rsplit(',').next()?;
            last.trim().parse::<IpAddr>().ok()
        }
        None => None,
    }
}

/// Whoever comes from another machine is there, whatever its request says.
fn place_of(peer: SocketAddr, said: Option<IpAddr>) -> Whence
    ensures { (plain : IpAddr) × IsPlainOf (socket_ip peer) plain × IsPlace peer plain said result }
{
    let plain = peer.ip().to_canonical();
    match said {
        Some(said) if plain.is_loopback() => Whence::Forwarded(said),
        _ => Whence::Peer(peer),
    }
}

/// Where the client of a request is whose connection comes from there.
pub(crate) fn whence_of(peer: Option<SocketAddr>, asked: &Asked) -> Option<Whence> {
    match peer {
        Some(peer) => Some(place_of(peer, last_said(asked))),
        None => None,
    }
}

/// The address of the visitor's client, where it is known.
pub(crate) fn address_of(visitor: &Visitor) -> Option<IpAddr> {
    match visitor.whence {
        Some(Whence::Peer(peer)) => Some(peer.ip()),
        Some(Whence::Forwarded(address)) => Some(address),
        None => None,
    }
}
