// A subscription is dropped.
ghost use Rattle.std.specs.Prelude.{◌≡◌, ◌<◌, ◌||◌, nat_lt, length};
ghost use Rattle.std.specs.List.{remove};
ghost use Rattle.delivery_machine.specs.Run.{Answers};
ghost use Rattle.delivery_machine.specs.declared.event.Event.TheVariants.{DropSubscription};
ghost use Rattle.topic_served.specs.Served.{IsBound, IsSettled, state_in};

use delivery_machine::Reply;
use position_core::{Fault, SubscriptionName};
use topic_served::{Dispatch, Served};
use topic_subscriptions::Subscription;

/// Whether it has members, or dead letters that are not moved yet.
fn is_busy(subscription: &Subscription) -> bool
    ensures { result ≡ (nat_lt 0 (length subscription.now.line) || nat_lt 0 (length subscription.now.letters.dead)) }
{
    !subscription.line().is_empty() || subscription.number_of_dead() > 0
}

fn take_subscription(subscriptions: &mut Vec<Subscription>, place: usize)
    requires { place < length subscriptions.old.items }
    ensures { subscriptions.new.items ≡ remove subscriptions.old.items place }
{
    drop(subscriptions.remove(place));
}

fn take_dispatcher(dispatchers: &mut Vec<Dispatch>, place: usize)
    requires { place < length dispatchers.old.items }
    ensures { dispatchers.new.items ≡ remove dispatchers.old.items place }
{
    drop(dispatchers.remove(place));
}

/// Drops the subscription, which has neither members nor dead letters. Takes no memory.
pub fn drop_subscription(served: &mut Served, name: &SubscriptionName) -> Reply
    requires { IsSettled served.old }
    ensures answers { Answers (state_in served.old) (DropSubscription name.now) result (state_in served.new) }
    ensures bound { IsBound served.new }
{
    let Some(place) = served.parts.place_of(name) else {
        return Reply::Refused(Fault::NoSuchSubscription);
    };
    if is_busy(&served.parts.subscriptions[place]) {
        return Reply::Refused(Fault::SubscriptionBusy);
    }
    take_subscription(&mut served.parts.subscriptions, place);
    take_dispatcher(&mut served.dispatchers, place);
    Reply::Done
}
