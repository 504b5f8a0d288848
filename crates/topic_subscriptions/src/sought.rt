// What a subscription is to go on with, made beside it, so that it can be taken back.
ghost use Rattle.std.specs.Prelude.{◌≡◌, ◌+◌, ◌<◌, ◌^◌, IfOk};
ghost use Rattle.std.specs.List.{All};
ghost use Rattle.topic_subscriptions.specs.Sought.{going_on, sought_of, with_sought};

use crate::closed::Closed;
use crate::subscription::Subscription;
use ack_ranges::AckSet;
use pending_core::PendingMap;
use position_core::LogIndex;
use std::alloc::{AllocError, Global};
use std::marker::Model;

/// What became of the messages of a subscription that goes on elsewhere.
#[derive(Drop)]
pub struct Sought {
    closed: Closed,
    pending: PendingMap,
}

impl Model for Sought {
    ghost use Rattle.std.specs.Coded.{codes};
    ghost use Rattle.delivery_machine.specs.Codes.{coded_places};
    ghost use Rattle.pending_core.specs.Codes.{coded_pending};
    ghost use Rattle.topic_subscriptions.specs.Sought.{GoesOn};

    ghost Value = { GoesOn };

    ghost coded = { Prim.hlevel (codes, coded_places, coded_pending) };

    ghost view = { λ s. record { places = s.closed.places; buried = s.closed.buried; pending = s.pending } };
}

impl Sought {
    /// After so many messages; of the others those are dead that stand at the places. Nothing is pending.
    pub fn after(alloc: Global, end: LogIndex, dead: &[LogIndex]) -> Result<Self, AllocError>
        requires { All (λ place. place + 1 < 2 ^ 64) dead.now }
        ensures { IfOk result (λ sought. sought ≡ going_on end dead.now) }
    {
        let mut acknowledged = AckSet::new(alloc);
        acknowledged.reset(end);
        match Closed::restored(alloc, acknowledged, dead) {
            Ok(closed) => Ok(Sought {
                closed,
                pending: PendingMap::new(alloc),
            }),
            Err(failed) => Err(failed),
        }
    }
}

impl Subscription {
    ghost use Rattle.std.specs.Prelude.{◌≡◌, OnOk, OnErr};
    ghost use Rattle.topic_subscriptions.specs.Placed.{sought_to};

    /// Goes on with this, and leaves there what it had. Takes no memory.
    pub fn swap(&mut self, sought: &mut Sought)
        ensures subscription { self.new ≡ with_sought sought.old self.old }
        ensures other { sought.new ≡ sought_of self.old }
    {
        std::mem::swap(&mut self.closed, &mut sought.closed);
        std::mem::swap(&mut self.pending, &mut sought.pending);
    }

    /// Goes on after so many messages, and forgets what was sent; of the others those are dead that stand at
    /// the places. Nothing changes where there is no memory.
    pub fn seek(
        &mut self,
        alloc: Global,
        end: LogIndex,
        dead: &[LogIndex],
    ) -> Result<(), AllocError>
        requires { All (λ place. place + 1 < 2 ^ 64) dead.now }
        ensures ok { OnOk result (self.new ≡ sought_to end dead.now self.old) }
        ensures err { OnErr result (self.new ≡ self.old) }
    {
        match Sought::after(alloc, end, dead) {
            Ok(mut sought) => {
                self.swap(&mut sought);
                Ok(())
            }
            Err(failed) => Err(failed),
        }
    }
}
