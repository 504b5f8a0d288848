// A subscription as a snapshot keeps it.
ghost use Rattle.std.specs.Prelude.{◌≡◌, ◌+◌, ◌<◌, ◌^◌, IfOk};
ghost use Rattle.std.specs.List.{All};
ghost use Rattle.topic_subscriptions.specs.Placed.{kept_of, restored_from};

use crate::closed::Closed;
use crate::subscription::Subscription;
use dead_core::DeadQueue;
use delivery_machine::KeptSubscription;
use hash_ranges::SplitTable;
use pending_core::PendingMap;
use position_core::LogIndex;
use std::alloc::{AllocError, Global};

impl Subscription {
    ghost use Rattle.std.specs.Prelude.{◌≡◌, IfOk};

    /// From what a snapshot keeps, whose dead letters stand at the places. All deaths are stored.
    pub fn restored(
        alloc: Global,
        kept: &KeptSubscription,
        dead: &[LogIndex],
    ) -> Result<Self, AllocError>
        requires { All (λ place. place + 1 < 2 ^ 64) dead.now }
        ensures { IfOk result (λ sub. sub ≡ restored_from kept.now dead.now) }
    {
        let name = kept.name.clone()?;
        let acknowledged = kept.acknowledged.clone()?;
        let closed = Closed::restored(alloc, acknowledged, dead)?;
        let letters = DeadQueue::restored(alloc, &kept.dead)?;
        let pending = PendingMap::counted(alloc, &kept.counts)?;
        Ok(Subscription {
            name,
            kind: kept.kind,
            closed,
            line: Vec::new(alloc),
            pending,
            shares: SplitTable::new(alloc),
            dead: letters,
        })
    }

    /// What a snapshot keeps of it. Takes a step for each range of acknowledged messages, each dead letter and, where a
    /// message was redelivered since the last seek, each message that is pending or counted.
    pub fn kept(&self, alloc: Global) -> Result<KeptSubscription, AllocError>
        ensures { IfOk result (λ kept. kept ≡ kept_of self.now) }
    {
        let name = self.name.clone()?;
        let acknowledged = self.closed.acknowledged(alloc)?;
        let counts = self.pending.counts(alloc)?;
        let dead = self.dead.letters(alloc)?;
        Ok(KeptSubscription {
            name,
            kind: self.kind,
            acknowledged,
            counts,
            dead,
        })
    }
}
