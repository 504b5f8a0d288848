// That names are made, and lists of producers and subscriptions changed, where there is memory.
use super::member::dead_topic;
use super::message::{message_at, position_at};
use super::subscription::name;
use delivery_machine::DeadLetter;
use plain_lists::{
    PositionSet, Producer, Subscription, auto_name, drop_producer, drop_subscription, least_free,
    store_all,
};
use position_core::{Base, Held, Kind, Message, ProducerName};
use std::process::Abort;
use std::sync::ArcStr;

fn producer<R: Abort + AllocGlobal>(rt: &R, text: &str) -> ProducerName {
    let text = ArcStr::from_str(rt.alloc(), text).expect(rt, "no memory");
    ProducerName::new(text).expect(rt, "no name")
}

fn check_name<R: Abort + AllocGlobal>(rt: &R, number: u64, want: &str) {
    let name = auto_name(rt.alloc(), number).expect(rt, "no memory");
    assert_eq!(rt; name.as_str(), want);
    drop(name);
}

#[test]
fn names_are_made_of_numbers(rt: HostRuntime) {
    check_name(&rt, 0, "auto-0");
    check_name(&rt, u64::MAX, "auto-18446744073709551615");
}

/// The least number of a name that none of these is.
fn free_among<R: Abort + AllocGlobal>(rt: &R, names: &[&str]) -> u64 {
    let mut taken = Vec::new(rt.alloc());
    for name in names {
        taken.push(producer(rt, name)).expect(rt, "no memory");
    }
    least_free(rt.alloc(), taken).expect(rt, "no memory")
}

fn check_free<R: Abort + AllocGlobal>(rt: &R, names: &[&str], want: u64) {
    assert!(rt; free_among(rt, names) == want);
}

#[test]
fn the_least_free_number_is_found(rt: HostRuntime) {
    check_free(&rt, &[], 0);
    check_free(&rt, &["auto-1", "auto-00"], 0);
    check_free(&rt, &["auto-1", "auto-3", "auto-0"], 2);
}

/// A subscription in which the first message is pending.
fn holding<R: Abort + AllocGlobal>(rt: &R) -> Subscription {
    let none = PositionSet::new(rt.alloc());
    let made = Subscription::new(rt.alloc(), name(rt), Kind::Shared, &None, 1, none);
    let mut made = made.expect(rt, "no memory");
    let held = Held {
        consumer: 1,
        due: Some(2000),
    };
    made.hold(position_at(0), held).expect(rt, "no memory");
    made
}

/// A subscription in which the first message died.
fn burying<R: Abort + AllocGlobal>(rt: &R) -> Subscription {
    let letter = DeadLetter {
        position: position_at(0),
        target: dead_topic(rt),
        ordinal: 7,
    };
    let mut subscription = holding(rt);
    subscription.bury(letter).expect(rt, "no memory");
    subscription
}

fn check_dead<R: Abort>(rt: &R, subscription: &Subscription, message: &Message) {
    assert!(rt; !subscription.is_pending(message));
    assert!(rt; !subscription.is_live(message));
    assert!(rt; subscription.first_safe().is_none());
    assert!(rt; subscription.number_of_dead() == 1);
}

#[test]
fn a_message_dies(rt: HostRuntime) {
    let message = message_at(&rt, position_at(0), None);
    let subscription = burying(&rt);
    check_dead(&rt, &subscription, &message);
    drop(subscription);
    drop(message);
}

fn move_first<R: Abort>(rt: &R, subscription: &mut Subscription, message: &Message) {
    assert!(rt; subscription.first_safe().is_some());
    subscription.move_first().expect(rt, "no memory");
    assert!(rt; subscription.first_safe().is_none());
    assert!(rt; subscription.is_acknowledged(message));
}

#[test]
fn a_letter_is_moved(rt: HostRuntime) {
    let message = message_at(&rt, position_at(0), None);
    let mut subscriptions = vec![in rt.alloc(); burying(&rt)].expect(&rt, "no memory");
    store_all(&mut subscriptions);
    let subscription = subscriptions.first_mut().expect(&rt, "no subscription");
    move_first(&rt, subscription, &message);
    drop(subscriptions);
    drop(message);
}

fn check_seek<R: Abort + AllocGlobal>(rt: &R, subscription: &mut Subscription, message: &Message) {
    assert!(rt; !subscription.is_waiting(message));
    subscription.seek(rt.alloc(), &[]).expect(rt, "no memory");
    assert!(rt; subscription.is_waiting(message));
}

#[test]
fn a_seek_releases_what_is_pending(rt: HostRuntime) {
    let message = message_at(&rt, position_at(0), None);
    let mut subscription = holding(&rt);
    check_seek(&rt, &mut subscription, &message);
    drop(subscription);
    drop(message);
}

#[test]
fn a_subscription_goes(rt: HostRuntime) {
    let mut subscriptions = vec![in rt.alloc(); holding(&rt)].expect(&rt, "no memory");
    drop_subscription(&mut subscriptions, &name(&rt));
    assert!(rt; subscriptions.len() == 0);
}

#[test]
fn a_producer_goes(rt: HostRuntime) {
    let base = Base::new(-1).expect(&rt, "no base");
    let made = Producer::new(1, producer(&rt, "p"), base);
    let mut producers = vec![in rt.alloc(); made].expect(&rt, "no memory");
    assert!(rt; drop_producer(&mut producers, 1));
    assert!(rt; producers.len() == 0);
}
