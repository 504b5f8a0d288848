// The topic's only subscription, as members come and go and messages are sent and acknowledged.
ghost use Rattle.std.specs.Prelude.{◌≡◌, [], None, codes};
ghost use Rattle.delivery_machine.specs.Joining.{joining, leaving, new_subscription};
ghost use Rattle.delivery_machine.specs.Shares.{no_shares};
ghost use Rattle.delivery_machine.specs.declared.event.Initial.TheVariants.{Earliest};

use super::message::position_at;
use crate::list_view::ListView;
use plain_lists::{PositionSet, Subscription};
use position_core::{Held, Kind, Name};
use std::process::Abort;

/// The subscription "s".
#[derive(Drop)]
pub(super) struct Only {
    pub(super) subscription: Subscription,
    ghost named: { subscription.name ≡ codes "s" },
}

pub(super) fn name<R: Abort + AllocGlobal>(rt: &R) -> Name
    ensures { result ≡ codes "s" }
{
    let name = Name::from_text(rt.alloc(), "s");
    name.expect(rt, "no memory").expect(rt, "no name")
}

impl Only {
    /// The subscription once its first member has left.
    pub(super) fn new<R: Abort + AllocGlobal>(rt: &R, kind: Kind) -> Self
        ensures begun { result.subscription ≡ leaving 1 (new_subscription (codes "s") kind None 1 Earliest []) }
        ensures unshared { result.subscription.shares ≡ no_shares }
    {
        let acknowledged = PositionSet::new(rt.alloc());
        let subscription = Subscription::new(rt.alloc(), name(rt), kind, &None, 1, acknowledged);
        let mut only = Only {
            subscription: subscription.expect(rt, "no memory"),
        };
        only.leave(1);
        only
    }

    /// Seen without messages and members.
    pub(super) fn alone(&self) -> ListView<'_>
        ensures subscription { result.subscription.now ≡ self.now.subscription }
        ensures members { result.members.now ≡ [] }
    {
        ListView {
            log: &[],
            durable: 0,
            subscription: &self.subscription,
            members: &[],
        }
    }

    /// A further consumer joins.
    pub(super) fn join<R: Abort>(&mut self, rt: &R, consumer: u64)
        ensures { self.new.subscription ≡ joining self.old.subscription.kind None consumer self.old.subscription }
    {
        let kind = self.subscription.kind();
        let done = self.subscription.join(kind, &None, consumer);
        done.expect(rt, "no memory");
    }

    /// The consumer leaves, and its messages wait again.
    pub(super) fn leave(&mut self, consumer: u64)
        ensures { self.new.subscription ≡ leaving consumer self.old.subscription }
    {
        self.subscription.leave(consumer);
    }

    /// The message is pending at the consumer.
    pub(super) fn hold<R: Abort>(&mut self, rt: &R, index: u64, consumer: u64)
        ensures { (self.new.subscription.kind ≡ self.old.subscription.kind) × (self.new.subscription.shares ≡ self.old.subscription.shares) }
    {
        let held = Held {
            consumer,
            due: None,
        };
        let done = self.subscription.hold(position_at(index), held);
        done.expect(rt, "no memory");
    }

    /// The message, which is pending, waits again.
    pub(super) fn release<R: Abort + AllocGlobal>(&mut self, rt: &R, index: u64) {
        let done = self
            .subscription
            .redeliver(rt.alloc(), &[position_at(index)]);
        done.expect(rt, "no memory");
    }

    /// The message is acknowledged.
    pub(super) fn acknowledge<R: Abort>(&mut self, rt: &R, index: u64)
        ensures { (self.new.subscription.kind ≡ self.old.subscription.kind) × (self.new.subscription.shares ≡ self.old.subscription.shares) }
    {
        let done = self.subscription.acknowledge(&[position_at(index)]);
        done.expect(rt, "no memory");
    }
}
