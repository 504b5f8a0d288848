// The subscriptions of a topic, in the order of their names: where one of a name stands, and where it would.
ghost use Rattle.std.specs.Prelude.{◌≡◌, ◌≤◌, length};
ghost use Rattle.std.specs.List.{position, position_or_len};
ghost use Rattle.std.specs.Ordering.{is_lt};
ghost use Rattle.position_core.specs.Name.{name_order};
ghost use Rattle.topic_subscriptions.specs.Placed.{is_placed};

use crate::subscription::Subscription;
use position_core::SubscriptionName;

/// Where the subscription of the name stands. There are at most 64.
pub fn place_of_subscription(
    subscriptions: &[Subscription],
    name: &SubscriptionName,
) -> Option<usize>
    ensures { result ≡ position (is_placed name.now) subscriptions.now }
{
    subscriptions
        .iter()
        .position(|subscription| subscription.is_named(name))
}

fn place_after(subscriptions: &[Subscription], name: &SubscriptionName) -> Option<usize>
    ensures { result ≡ position (λ other. is_lt (name_order name.now other.name)) subscriptions.now }
{
    subscriptions
        .iter()
        .position(|other| name.order(other.name()).is_lt())
}

/// Where a new subscription of the name goes: before the first of a greater name.
pub fn place_for(subscriptions: &[Subscription], name: &SubscriptionName) -> usize
    ensures value { result ≡ position_or_len (λ other. is_lt (name_order name.now other.name)) subscriptions.now }
    ensures within { result ≤ length subscriptions.now }
{
    match place_after(subscriptions, name) {
        Some(place) => place,
        None => subscriptions.len(),
    }
}
