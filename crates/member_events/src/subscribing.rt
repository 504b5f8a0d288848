// A consumer joins a subscription, which the first one makes.
ghost use Rattle.std.specs.Prelude.{◌≡◌, ◌<◌, Some, None, IfOk, IfErr, OnOk, OnErr};
ghost use Rattle.std.specs.List.{position as place_in};
ghost use Rattle.position_core.specs.declared.fault.Fault.TheVariants.{NoMemory};
ghost use Rattle.delivery_machine.specs.Joining.{with_member};
ghost use Rattle.delivery_machine.specs.Run.{Answers};
ghost use Rattle.delivery_machine.specs.declared.event.Initial.{Initial};
ghost use Rattle.delivery_machine.specs.declared.event.Event.TheVariants.{Subscribe};
ghost use Rattle.topic_members.specs.Members.{joining};
ghost use Rattle.topic_subscriptions.specs.Placed.{is_placed};
ghost use Rattle.topic_served.specs.Served.{IsBound, IsSettled, state_in};
ghost use Rattle.member_events.specs.Active.{active_in_order};
ghost use Rattle.member_events.specs.Entering.{IsAllowed, IsWelcome};
ghost use Rattle.member_events.specs.Places.{names_of};

use crate::changing_kind::enter_anew;
use crate::entering::enter;
use crate::opening::{close, open};
use crate::refusing::subscribing_refused;
use crate::taking_over::{active_at, take_over};
use delivery_machine::{Initial, Reply};
use position_core::{ConsumerNumber, Fault, Kind, Ranges, SubscriptionName, TopicName};
use topic_members::Terms;
use topic_served::Served;

/// Makes room for one more member.
fn make_room(served: &mut Served) -> Result<(), Fault>
    requires { IsSettled served.old }
    ensures room { OnOk result (0 < served.new.parts.members.room) }
    ensures err { IfErr result (λ fault. fault ≡ NoMemory) }
    ensures same { state_in served.new ≡ state_in served.old }
    ensures settled { IsSettled served.new }
{
    match served.parts.members.reserve() {
        Ok(()) => Ok(()),
        Err(_) => Err(Fault::NoMemory),
    }
}

/// The number of the active member: none where the subscription is not there, or not in order.
fn active_in(served: &Served, name: &SubscriptionName) -> Option<ConsumerNumber>
    requires { IsBound served.now }
    ensures { result ≡ active_in_order (state_in served.now) name.now }
{
    match served.parts.place_of(name) {
        Some(place) => active_at(served, place),
        None => None,
    }
}

/// Lets the next consumer into the subscription at the place, which has its kind or takes it. Nothing changes
/// where there is no memory.
fn enter_as(
    served: &mut Served,
    place: usize,
    kind: Kind,
    name: SubscriptionName,
    terms: Terms,
    dead_topic: TopicName,
    ranges: &Option<Ranges>,
) -> Result<(), Fault>
    requires welcome { IsWelcome served.old name kind terms dead_topic ranges.now }
    requires named { Some place ≡ place_in (is_placed name) served.old.parts.subscriptions.items }
    ensures ok { OnOk result ((initial : Initial) → state_in served.new ≡ with_member (state_in served.old) kind ranges.now initial (joining (state_in served.old).next_consumer name terms dead_topic)) }
    ensures names { names_of served.new.parts.subscriptions.items ≡ names_of served.old.parts.subscriptions.items }
    ensures err { IfErr result (λ fault. fault ≡ NoMemory) }
    ensures same { OnErr result (state_in served.new ≡ state_in served.old) }
    ensures bound { IsBound served.new }
{
    let present = served.parts.subscriptions[place].kind();
    if present.is(kind) {
        return enter(served, place, name, terms, dead_topic, ranges);
    }
    enter_anew(served, place, kind, name, terms, dead_topic, ranges)
}

/// Lets the next consumer into the subscription at the place, and answers the place. Nothing changes where there
/// is no memory.
fn enter_there(
    served: &mut Served,
    place: usize,
    kind: Kind,
    name: SubscriptionName,
    terms: Terms,
    dead_topic: TopicName,
    ranges: &Option<Ranges>,
) -> Result<usize, Fault>
    requires welcome { IsWelcome served.old name kind terms dead_topic ranges.now }
    requires named { Some place ≡ place_in (is_placed name) served.old.parts.subscriptions.items }
    ensures ok { OnOk result ((initial : Initial) → state_in served.new ≡ with_member (state_in served.old) kind ranges.now initial (joining (state_in served.old).next_consumer name terms dead_topic)) }
    ensures place { IfOk result (λ at. Some at ≡ place_in (is_placed name) served.new.parts.subscriptions.items) }
    ensures err { IfErr result (λ fault. fault ≡ NoMemory) }
    ensures same { OnErr result (state_in served.new ≡ state_in served.old) }
    ensures bound { IsBound served.new }
{
    match enter_as(served, place, kind, name, terms, dead_topic, ranges) {
        Ok(()) => Ok(place),
        Err(fault) => Err(fault),
    }
}

/// Makes the subscription, lets the next consumer in, and answers the place. Nothing changes where there is no
/// memory.
fn enter_new(
    served: &mut Served,
    kind: Kind,
    name: SubscriptionName,
    initial: Initial,
    terms: Terms,
    dead_topic: TopicName,
    ranges: &Option<Ranges>,
) -> Result<usize, Fault>
    requires welcome { IsWelcome served.old name kind terms dead_topic ranges.now }
    requires absent { None ≡ place_in (is_placed name) served.old.parts.subscriptions.items }
    ensures ok { OnOk result (state_in served.new ≡ with_member (state_in served.old) kind ranges.now initial (joining (state_in served.old).next_consumer name terms dead_topic)) }
    ensures place { IfOk result (λ at. Some at ≡ place_in (is_placed name) served.new.parts.subscriptions.items) }
    ensures err { IfErr result (λ fault. fault ≡ NoMemory) }
    ensures same { OnErr result (state_in served.new ≡ state_in served.old) }
    ensures bound { IsBound served.new }
{
    let Ok(own) = name.clone() else {
        return Err(Fault::NoMemory);
    };
    let Ok(place) = open(served, name, kind, initial) else {
        return Err(Fault::NoMemory);
    };
    match enter(served, place, own, terms, dead_topic, ranges) {
        Ok(()) => Ok(place),
        Err(fault) => {
            // A subscription without its first member would show.
            close(served, place);
            Err(fault)
        }
    }
}

/// Lets the next consumer, for whom there is room, into the subscription, which is made where it is not there, and
/// answers its place. Nothing changes where there is no memory.
fn enter_named(
    served: &mut Served,
    kind: Kind,
    name: SubscriptionName,
    initial: Initial,
    terms: Terms,
    dead_topic: TopicName,
    ranges: &Option<Ranges>,
) -> Result<usize, Fault>
    requires { IsWelcome served.old name kind terms dead_topic ranges.now }
    ensures ok { OnOk result (state_in served.new ≡ with_member (state_in served.old) kind ranges.now initial (joining (state_in served.old).next_consumer name terms dead_topic)) }
    ensures place { IfOk result (λ at. Some at ≡ place_in (is_placed name) served.new.parts.subscriptions.items) }
    ensures err { IfErr result (λ fault. fault ≡ NoMemory) }
    ensures same { OnErr result (state_in served.new ≡ state_in served.old) }
    ensures bound { IsBound served.new }
{
    match served.parts.place_of(&name) {
        Some(place) => enter_there(served, place, kind, name, terms, dead_topic, ranges),
        None => enter_new(served, kind, name, initial, terms, dead_topic, ranges),
    }
}

/// Makes room for the next consumer and lets it into the subscription, which is made where it is not there, and
/// answers its place. Nothing changes where there is no memory.
fn come_in(
    served: &mut Served,
    name: &SubscriptionName,
    kind: Kind,
    terms: Terms,
    dead_topic: &TopicName,
    initial: Initial,
    ranges: &Option<Ranges>,
) -> Result<usize, Fault>
    requires settled { IsSettled served.old }
    requires allowed { IsAllowed (state_in served.old) name.now kind terms dead_topic.now ranges.now }
    ensures ok { OnOk result (state_in served.new ≡ with_member (state_in served.old) kind ranges.now initial (joining (state_in served.old).next_consumer name.now terms dead_topic.now)) }
    ensures place { IfOk result (λ at. Some at ≡ place_in (is_placed name.now) served.new.parts.subscriptions.items) }
    ensures err { IfErr result (λ fault. fault ≡ NoMemory) }
    ensures same { OnErr result (state_in served.new ≡ state_in served.old) }
    ensures bound { IsBound served.new }
{
    let Ok(own_name) = name.clone() else {
        return Err(Fault::NoMemory);
    };
    let Ok(own_topic) = dead_topic.clone() else {
        drop(own_name);
        return Err(Fault::NoMemory);
    };
    let Ok(()) = make_room(served) else {
        drop(own_name);
        drop(own_topic);
        return Err(Fault::NoMemory);
    };
    enter_named(served, kind, own_name, initial, terms, own_topic, ranges)
}

/// A consumer joins the subscription, which is made where it is not there, and then begins at `initial`; one
/// without members takes the kind. Refused are another kind than its members have (`WrongKind`), a second
/// consumer of an exclusive one (`ConsumerBusy`), in Key_Shared the policy that its members do not have
/// (`MixedPolicy`) and hashes that one of them has (`HashOverlap`), a 65th consumer or subscription and a
/// number past 2^63-1 (`TooMany`), and dead letters that would come back into the topic itself
/// (`DeadLetterSelf`). Nothing changes where the consumer is refused, or there is no memory (`NoMemory`).
pub fn subscribe(
    served: &mut Served,
    subscription: &SubscriptionName,
    kind: Kind,
    terms: Terms,
    dead_topic: &TopicName,
    initial: Initial,
    ranges: &Option<Ranges>,
) -> Reply
    requires { IsSettled served.old }
    ensures answers { Answers (state_in served.old) (Subscribe subscription.now kind terms.level terms.flow terms.ack_timeout terms.nack_delay terms.max_redeliver dead_topic.now initial ranges.now) result (state_in served.new) }
    ensures bound { IsBound served.new }
{
    let _asked = Ranges::number_of(ranges);
    let refused = subscribing_refused(
        served,
        subscription,
        kind,
        terms.max_redeliver,
        dead_topic,
        ranges,
    );
    if let Some(fault) = refused {
        return Reply::Refused(fault);
    }
    // Read before the consumer comes in: a takeover shows by the change.
    let before = active_in(served, subscription);
    let consumer = served.parts.members.next();
    match come_in(
        served,
        subscription,
        kind,
        terms,
        dead_topic,
        initial,
        ranges,
    ) {
        Ok(place) => {
            take_over(served, place, before);
            Reply::Subscribed { consumer }
        }
        Err(fault) => Reply::Refused(fault),
    }
}
