// How far a subscription is.
use crate::lists::Lists;
use delivery_machine::Reply;
use plain_lists::subscription_at;
use plain_queries::{
    count_at, mark_delete, number_acknowledged, number_live, number_pending, oldest,
};
use position_core::{Fault, SubscriptionName};

impl Lists {
    ghost use Rattle.std.specs.Prelude.{◌≡◌};
    ghost use Rattle.delivery_machine.specs.Run.{Answers};
    ghost use Rattle.delivery_machine.specs.declared.event.Event.TheVariants.{Stats};
    ghost use Rattle.plain_topic.specs.StateOf.{state_of};

    pub(crate) fn stats(&self, name: &SubscriptionName) -> Reply
        ensures { Answers (state_of self.now) (Stats name.now) result (state_of self.now) }
    {
        let Some(subscription) = subscription_at(&self.subscriptions, name) else {
            return Reply::Refused(Fault::NoSuchSubscription);
        };
        Reply::Stats {
            kind: subscription.kind(),
            members: count_at(&self.members, name) as u64,
            mark_delete: mark_delete(&self.log, subscription),
            acknowledged: number_acknowledged(&self.log, subscription) as u64,
            live: number_live(self.visible(), subscription) as u64,
            pending: number_pending(&self.log, subscription) as u64,
            dead: subscription.number_of_dead() as u64,
            gone: self.gone,
            oldest: oldest(&self.log),
        }
    }
}
