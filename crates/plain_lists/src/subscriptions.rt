// The subscriptions of a topic: the one of a name, and what is done with all.
ghost use Rattle.std.specs.Prelude.{◌≡◌, ◌≤◌, length, map};
ghost use Rattle.std.specs.List.{find, position, position_or_len};
ghost use Rattle.std.specs.Option.{option_copied};
ghost use Rattle.std.specs.Ordering.{is_lt};
ghost use Rattle.position_core.specs.Name.{name_order};
ghost use Rattle.delivery_machine.specs.Words.{is_named, removed};
ghost use Rattle.delivery_machine.specs.Producing.{storing, storing_below};

use crate::subscription::Subscription;
use position_core::{Ordinal, SubscriptionName};

/// The subscription of the name.
pub fn subscription_at<'a>(
    subscriptions: &'a [Subscription],
    name: &SubscriptionName,
) -> Option<&'a Subscription>
    ensures { option_copied result ≡ find (is_named name.now) subscriptions.now }
{
    subscriptions
        .iter()
        .find(|subscription| subscription.is_named(name))
}

/// Where the subscription of the name stands.
pub fn place_of_subscription(
    subscriptions: &[Subscription],
    name: &SubscriptionName,
) -> Option<usize>
    ensures { result ≡ position (is_named name.now) subscriptions.now }
{
    subscriptions
        .iter()
        .position(|subscription| subscription.is_named(name))
}

fn place_after(subscriptions: &[Subscription], name: &SubscriptionName) -> Option<usize>
    ensures { result ≡ position (λ other. is_lt (name_order name.now other.name)) subscriptions.now }
{
    subscriptions
        .iter()
        .position(|other| name.order(other.name()).is_lt())
}

/// Where a new subscription of the name goes: before the first of a greater name.
pub fn place_for(subscriptions: &[Subscription], name: &SubscriptionName) -> usize
    ensures value { result ≡ position_or_len (λ other. is_lt (name_order name.now other.name)) subscriptions.now }
    ensures within { result ≤ length subscriptions.now }
{
    match place_after(subscriptions, name) {
        Some(place) => place,
        None => subscriptions.len(),
    }
}

/// All deaths are stored.
pub fn store_all(subscriptions: &mut [Subscription])
    ensures { subscriptions.new ≡ map storing subscriptions.old }
{
    for subscription in subscriptions.iter_mut() {
        subscription.store();
    }
}

/// The deaths below the ordinal are stored, and those that were.
pub fn store_all_to(subscriptions: &mut [Subscription], ordinal: Ordinal)
    ensures { subscriptions.new ≡ map (storing_below ordinal) subscriptions.old }
{
    for subscription in subscriptions.iter_mut() {
        subscription.store_to(ordinal);
    }
}

/// Takes the subscription out.
pub fn drop_subscription(subscriptions: &mut Vec<Subscription>, name: &SubscriptionName)
    ensures { subscriptions.new.items ≡ removed (is_named name.now) subscriptions.old.items }
{
    match place_of_subscription(subscriptions, name) {
        Some(place) => {
            subscriptions.remove(place);
        }
        None => {}
    }
}
