// A subscription as a store keeps it, and one that goes on from that.
ghost use Rattle.std.specs.Prelude.{◌≡◌, IfOk, length, map};
ghost use Rattle.std.specs.List.Sorted.{IsStrictlySortedBy};
ghost use Rattle.position_core.specs.Position.{position_cmp};
ghost use Rattle.delivery_machine.specs.Places.{AreBelow, kept_in};
ghost use Rattle.delivery_machine.specs.Snapshot.{kept_of, subscription_from};
ghost use Rattle.delivery_machine.specs.WellFormed.{AreCountsOf, AreMessagesOf};

use crate::counts::CountTable;
use crate::pending::PendingTable;
use crate::positions::PositionSet;
use crate::subscription::Subscription;
use delivery_machine::KeptSubscription;
use hash_ranges::SplitTable;
use position_core::Message;
use std::alloc::{AllocError, Global};

impl Subscription {
    /// What a store keeps of it, where the log is its topic's.
    pub fn kept(&self, alloc: Global, log: &[Message]) -> Result<KeptSubscription, AllocError>
        ensures same { IsStrictlySortedBy position_cmp (map (λ e. e.position) log.now) → AreMessagesOf log.now self.now.acknowledged → AreCountsOf log.now self.now.acknowledged self.now.dead self.now.counts → IfOk result (λ kept. kept_in log.now kept ≡ kept_of self.now) }
        ensures within { IfOk result (λ kept. AreBelow (length log.now) kept.acknowledged) }
    {
        let name = self.name.clone()?;
        let acknowledged = self.acknowledged.places(alloc, log)?;
        let counts = self.counts.counts(alloc, log)?;
        let dead = self.dead.clone()?;
        Ok(KeptSubscription {
            name,
            kind: self.kind,
            acknowledged,
            counts,
            dead,
        })
    }

    /// As it was kept over the log, without members.
    pub fn from_kept(
        alloc: Global,
        kept: &KeptSubscription,
        log: &[Message],
    ) -> Result<Self, AllocError>
        ensures { IfOk result (λ sub. sub ≡ subscription_from (kept_in log.now kept.now)) }
    {
        let name = kept.name.clone()?;
        let acknowledged = PositionSet::at_places(alloc, log, &kept.acknowledged)?;
        let counts = CountTable::of(alloc, &kept.counts)?;
        let dead = kept.dead.clone()?;
        let safe = dead.len();
        Ok(Subscription {
            name,
            kind: kept.kind,
            acknowledged,
            pending: PendingTable::new(alloc),
            counts,
            shares: SplitTable::new(alloc),
            last_served: 0,
            dead,
            safe,
        })
    }
}
