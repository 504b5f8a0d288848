// Where the order is kept, all that is pending is redelivered.
ghost use Rattle.std.specs.Prelude.{◌≡◌, Some, length};
ghost use Rattle.std.specs.List.{position as place_in};
ghost use Rattle.delivery_machine.specs.Ticking.{redelivered};
ghost use Rattle.delivery_machine.specs.WellFormed.{IsWellFormed};
ghost use Rattle.topic_subscriptions.specs.Placed.{is_placed};
ghost use Rattle.topic_parts.specs.Holding.{IsAt};
ghost use Rattle.topic_parts.specs.Parts.{AreTied, log_of, state_of};
ghost use Rattle.topic_served.specs.Served.{IsBound, state_in};
ghost use Rattle.tick_events.specs.Rewinding.{IsRecounted, pending_at};

use position_core::SubscriptionName;
use topic_parts::Parts;
use topic_served::Served;
use topic_subscriptions::Subscription;

/// All that is pending waits again, counted once more. Takes a step for each message.
fn recount_all(subscription: &mut Subscription)
    ensures { IsRecounted subscription.old subscription.new }
{
    while let Some(position) = subscription.first_pending() {
        subscription.redeliver(position);
    }
}

/// All that is pending in the subscription at the place waits again, counted once more, and its members have
/// nothing left to collect.
fn take_all_back(parts: &mut Parts, name: &SubscriptionName, place: usize)
    requires tied { AreTied parts.old }
    requires well { IsWellFormed (state_of parts.old) }
    requires place { Some place ≡ place_in (is_placed name.now) parts.old.subscriptions.items }
    ensures state { IsAt parts.old place (λ p. state_of parts.new ≡ redelivered (state_of parts.old) name.now (pending_at parts.old p)) }
    ensures tied { AreTied parts.new }
    ensures log { parts.new.log ≡ parts.old.log }
    ensures many { length parts.new.subscriptions.items ≡ length parts.old.subscriptions.items }
{
    recount_all(&mut parts.subscriptions[place]);
    parts.members.empty_those(parts.subscriptions[place].line());
}

/// Redelivers all that is pending in the subscription at the place. How many messages these were.
pub(crate) fn rewind(served: &mut Served, name: &SubscriptionName, place: usize) -> u64
    requires bound { IsBound served.old }
    requires well { IsWellFormed (state_in served.old) }
    requires place { Some place ≡ place_in (is_placed name.now) served.old.parts.subscriptions.items }
    ensures count { IsAt served.old.parts place (λ p. result ≡ length (pending_at served.old.parts p)) }
    ensures state { IsAt served.old.parts place (λ p. state_in served.new ≡ redelivered (state_in served.old) name.now (pending_at served.old.parts p)) }
    ensures bound { IsBound served.new }
{
    let _length = served.parts.log.len();
    let count = served.parts.subscriptions[place].number_pending() as u64;
    take_all_back(&mut served.parts, name, place);
    let view = served.parts.at(place);
    served.dispatchers[place].reset(&view);
    count
}
