// How many connections there are of each address, so that one client does not take the place of all others.
ghost use Rattle.std.specs.Prelude.{IfOk, IsSome};
ghost use Rattle.std.specs.declared.net.ip_addr.IpAddr.{IpAddr};
ghost use Rattle.worker_loops.specs.Addresses.{Comes, IsCounted, IsCountedAs, IsPlainOf};

use crate::troubles::Trouble;
use std::alloc::{AllocError, Global};
use std::collections::BTreeMap;
use std::net::{IpAddr, Ipv6Addr};
use std::sync::Arc;
use std::sync::atomic::{AtomicUsize, Ordering};

/// How many addresses are kept before those are forgotten that have no connections any more.
const FEW: usize = 1_024;

/// One of an address's connections, which counts as long as this is kept.
pub(crate) struct Visit {
    count: Arc<AtomicUsize>,
}

impl Drop for Visit {
    fn drop(self) {
        self.count.fetch_sub(1, Ordering::SeqCst);
        let Visit { count: _ } = self;
    }
}

/// The addresses that have connections, of which each may have so many. Those of the machine itself may have any number:
/// behind a proxy all clients have that address.
#[derive(Drop)]
pub(crate) struct Addresses {
    alloc: Global,
    most: Option<u32>,
    counts: BTreeMap<IpAddr, Arc<AtomicUsize>>,
    /// With so many those are forgotten that have no connections any more.
    many: usize,
}

/// What the connections of an address are counted as; nothing, where they need no counting, since it is the machine's own.
pub fn counted(address: IpAddr) -> Option<IpAddr>
    ensures { (plain : IpAddr) × IsPlainOf address plain × IsCounted plain result }
{
    let address = address.to_canonical();
    if address.is_loopback() {
        None
    } else {
        Some(counted_as(address))
    }
}

/// What an address is counted as. Of IPv6 that is the network: whoever has one address of it has them all.
fn counted_as(address: IpAddr) -> IpAddr
    ensures { IsCountedAs address result }
{
    match address {
        IpAddr::V4(_) => address,
        IpAddr::V6(ip) => {
            let [a, b, c, d, _, _, _, _] = ip.segments();
            IpAddr::V6(Ipv6Addr::new(a, b, c, d, 0, 0, 0, 0))
        }
    }
}

impl Addresses {
    pub(crate) fn new(alloc: Global, most: Option<u32>) -> Addresses {
        Addresses {
            alloc,
            most,
            counts: BTreeMap::new(alloc),
            many: FEW,
        }
    }

    /// Counts a connection that comes from the address, or says why it may not come. None where it needs no counting.
    pub(crate) fn come(&mut self, address: IpAddr) -> Result<Option<Visit>, Trouble>
        ensures { (plain : IpAddr) × IsPlainOf address plain × Comes self.old.most plain result }
    {
        match (self.most, counted(address)) {
            (Some(most), Some(address)) => self.count(address, most),
            _ => Ok(None),
        }
    }

    fn count(&mut self, address: IpAddr, most: u32) -> Result<Option<Visit>, Trouble>
        ensures { IfOk result IsSome }
    {
        self.forget_gone();
        let Ok(count) = self.count_of(address) else {
            return Err(Trouble::NotAccepted);
        };
        if count.load(Ordering::SeqCst) >= most as usize {
            return Err(Trouble::ManyOfOne(address));
        }
        count.fetch_add(1, Ordering::SeqCst);
        Ok(Some(Visit { count }))
    }

    /// How many connections the address has.
    fn count_of(&mut self, address: IpAddr) -> Result<Arc<AtomicUsize>, AllocError> {
        if let Some(count) = self.counts.get(&address) {
            return Arc::try_clone(count);
        }
        let count = Arc::new(self.alloc, AtomicUsize::new(0))?;
        let kept = Arc::try_clone(&count)?;
        self.counts.insert(address, kept)?;
        Ok(count)
    }

    /// Forgets those that have no connections any more, each time that there are twice as many as had some.
    fn forget_gone(&mut self) {
        if self.counts.len() < self.many {
            return;
        }
        self.counts
            .retain(|_, count| count.load(Ordering::SeqCst) > 0);
        self.many = self.counts.len().saturating_mul(2).max(FEW);
    }
}
