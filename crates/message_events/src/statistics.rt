// How far a subscription is.
ghost use Rattle.std.specs.Prelude.{◌≡◌};
ghost use Rattle.delivery_machine.specs.Run.{Answers};
ghost use Rattle.delivery_machine.specs.Statistics.{ShowsStatistics, mark_delete, oldest};
ghost use Rattle.delivery_machine.specs.declared.event.Event.TheVariants.{Stats};
ghost use Rattle.topic_subscriptions.specs.Placed.{IsPlacedIn, sub_in};
ghost use Rattle.topic_parts.specs.Parts.{log_of, state_of};
ghost use Rattle.topic_served.specs.Served.{IsSettled, state_in};

use delivery_machine::Reply;
use position_core::{Fault, Moment, Position, SubscriptionName};
use topic_parts::Parts;
use topic_served::Served;
use topic_subscriptions::Subscription;

/// The position of the last message of those that are acknowledged with all before it.
fn mark_delete(parts: &Parts, subscription: &Subscription) -> Option<Position>
    requires { IsPlacedIn (log_of parts.now) parts.now.members.members subscription.now }
    ensures { result ≡ mark_delete (sub_in (log_of parts.now) subscription.now) (log_of parts.now) }
{
    let _length = parts.log.len();
    let end = subscription.mark_delete_end();
    if end == 0 {
        return None;
    }
    match parts.log.get(end as usize - 1) {
        Some(message) => Some(message.position()),
        None => None,
    }
}

/// When the first message that is kept was published.
fn oldest(parts: &Parts) -> Option<Moment>
    ensures { result ≡ oldest (log_of parts.now) }
{
    match parts.log.get(0) {
        Some(message) => Some(message.entry().time),
        None => None,
    }
}

/// The statistics of one of the topic's subscriptions.
fn shown(parts: &Parts, subscription: &Subscription) -> Reply
    requires { IsPlacedIn (log_of parts.now) parts.now.members.members subscription.now }
    ensures { ShowsStatistics (state_of parts.now) subscription.now.name (sub_in (log_of parts.now) subscription.now) result (state_of parts.now) }
{
    let _length = parts.log.len();
    Reply::Stats {
        kind: subscription.kind(),
        members: subscription.line().len() as u64,
        mark_delete: mark_delete(parts, subscription),
        acknowledged: subscription.number_acknowledged(),
        live: subscription.number_live_below(parts.log.durable() as u64),
        pending: subscription.number_pending() as u64,
        dead: subscription.number_of_dead() as u64,
        gone: parts.log.gone(),
        oldest: oldest(parts),
    }
}

/// The statistics of the subscription.
pub fn stats(served: &Served, name: &SubscriptionName) -> Reply
    requires { IsSettled served.now }
    ensures { Answers (state_in served.now) (Stats name.now) result (state_in served.now) }
{
    let Some(place) = served.parts.place_of(name) else {
        return Reply::Refused(Fault::NoSuchSubscription);
    };
    shown(&served.parts, &served.parts.subscriptions[place])
}
