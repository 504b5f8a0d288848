// Of which kind a subscription is.
ghost use Rattle.std.specs.Prelude.{◌≡◌, false};
ghost use Rattle.std.specs.List.{find};
ghost use Rattle.std.specs.Option.{option_map_or};
ghost use Rattle.position_core.specs.Kind.{is_in_order, same_kind};
ghost use Rattle.delivery_machine.specs.Words.{is_named};

use plain_lists::{Subscription, subscription_at};
use position_core::{Kind, SubscriptionName};

/// Whether there is a subscription of the name, and it is of the kind.
pub fn has_kind(subscriptions: &[Subscription], name: &SubscriptionName, kind: Kind) -> bool
    ensures { result ≡ option_map_or (λ sub. same_kind sub.kind kind) (find (is_named name.now) subscriptions.now) false }
{
    match subscription_at(subscriptions, name) {
        Some(subscription) => subscription.kind().is(kind),
        None => false,
    }
}

/// Whether one consumer of the subscription takes its messages in order.
pub fn is_in_order_at(subscriptions: &[Subscription], name: &SubscriptionName) -> bool
    ensures { result ≡ option_map_or (λ sub. is_in_order sub.kind) (find (is_named name.now) subscriptions.now) false }
{
    match subscription_at(subscriptions, name) {
        Some(subscription) => subscription.kind().is_in_order(),
        None => false,
    }
}
