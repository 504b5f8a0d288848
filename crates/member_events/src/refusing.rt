// Why a consumer is turned away.
ghost use Rattle.std.specs.Prelude.{◌≡◌, false, length};
ghost use Rattle.std.specs.List.{find};
ghost use Rattle.std.specs.Option.{option_map_or};
ghost use Rattle.delivery_machine.specs.Words.{has_kind, has_subscription, is_named, members_of};
ghost use Rattle.delivery_machine.specs.Shares.{mixes};
ghost use Rattle.delivery_machine.specs.Refusals.{dies_into_itself, overlaps, subscribing_refused};
ghost use Rattle.topic_served.specs.Served.{IsSettled, state_in};

use position_core::{Fault, Kind, Ranges, RedeliverLimit, SubscriptionName, TopicName};
use topic_served::Served;
use topic_subscriptions::Subscription;

/// How many members the subscription has: none where it is not there.
fn number_at(served: &Served, name: &SubscriptionName) -> usize
    requires { IsSettled served.now }
    ensures { result ≡ length (members_of (state_in served.now) name.now) }
{
    match served.parts.place_of(name) {
        Some(place) => served.parts.subscriptions[place].line().len(),
        None => 0,
    }
}

fn has_kind(served: &Served, name: &SubscriptionName, kind: Kind) -> bool
    ensures { result ≡ has_kind (state_in served.now) name.now kind }
{
    match served.parts.place_of(name) {
        Some(place) => served.parts.subscriptions[place].kind().is(kind),
        None => false,
    }
}

fn is_there(served: &Served, name: &SubscriptionName) -> bool
    ensures { result ≡ has_subscription (state_in served.now) name.now }
{
    match served.parts.place_of(name) {
        Some(_) => true,
        None => false,
    }
}

fn count(subscriptions: &[Subscription]) -> usize
    ensures { result ≡ length subscriptions.now }
{
    subscriptions.len()
}

fn number_of_subscriptions(served: &Served) -> usize
    ensures { result ≡ length (state_in served.now).subscriptions }
{
    count(&served.parts.subscriptions)
}

/// Whether messages of the new member would die into the topic itself.
fn dies_into_itself(
    served: &Served,
    kind: Kind,
    max_redeliver: RedeliverLimit,
    dead_topic: &TopicName,
) -> bool
    ensures { result ≡ dies_into_itself (state_in served.now) kind max_redeliver dead_topic.now }
{
    !kind.is_in_order() && max_redeliver.get() > 0 && dead_topic.is(&served.parts.name)
}

/// Whether the members said which hashes they take where the new one does not, or the other way about.
fn mixes(served: &Served, name: &SubscriptionName, kind: Kind, ranges: &Option<Ranges>) -> bool
    ensures { result ≡ option_map_or (λ sub. mixes kind ranges.now sub.shares) (find (is_named name.now) (state_in served.now).subscriptions) false }
{
    match served.parts.place_of(name) {
        Some(place) => served.parts.subscriptions[place].mixes(kind, ranges),
        None => false,
    }
}

/// Whether a hash that the new member asks for is in another's share.
fn overlaps(served: &Served, name: &SubscriptionName, kind: Kind, ranges: &Option<Ranges>) -> bool
    ensures { result ≡ overlaps (state_in served.now) name.now kind ranges.now }
{
    match served.parts.place_of(name) {
        Some(place) => served.parts.subscriptions[place].asks_taken(kind, ranges),
        None => false,
    }
}

/// Why the consumer is turned away, if it is.
pub(crate) fn subscribing_refused(
    served: &Served,
    name: &SubscriptionName,
    kind: Kind,
    max_redeliver: RedeliverLimit,
    dead_topic: &TopicName,
    ranges: &Option<Ranges>,
) -> Option<Fault>
    requires { IsSettled served.now }
    ensures { result ≡ subscribing_refused (state_in served.now) name.now kind max_redeliver dead_topic.now ranges.now }
{
    let members = number_at(served, name);
    if members > 0 && !has_kind(served, name, kind) {
        return Some(Fault::WrongKind);
    }
    if members > 0 && kind.is(Kind::Exclusive) {
        return Some(Fault::ConsumerBusy);
    }
    if members > 0 && mixes(served, name, kind, ranges) {
        return Some(Fault::MixedPolicy);
    }
    if overlaps(served, name, kind, ranges) {
        return Some(Fault::HashOverlap);
    }
    if members >= 64 {
        return Some(Fault::TooMany);
    }
    if number_of_subscriptions(served) >= 64 && !is_there(served, name) {
        return Some(Fault::TooMany);
    }
    if served.parts.members.next() >= 1 << 63 {
        return Some(Fault::TooMany);
    }
    if dies_into_itself(served, kind, max_redeliver, dead_topic) {
        return Some(Fault::DeadLetterSelf);
    }
    None
}
