// What is known of messages that are gone is kept by a snapshot, and over a restart.
use super::calls::{events_of, tell, topic_name};
use delivery_machine::{Event, KeptMessages, Opened, Retention, Snapshot};
use plain_topic::PlainTopic;
use position_core::LedgerSize;
use std::process::Abort;
use topic_core::TopicCore;

const PRODUCERS: &str = "producer p -\nproducer q -\nproducer - -\n";

/// Of all messages, with which a subscription has done, the first sixty-four go.
const DONE: &str = "stored
subscribe s Exclusive 0 push:10 0 60000 0 - Latest
trim 0 9000 100
";

fn ten_messages() -> Option<Retention> {
    KeptMessages::new(10).map(Retention::Messages)
}

fn set_retention<T: Opened>(topic: &mut T) {
    let event = Event::SetRetention {
        retention: ten_messages(),
    };
    drop(topic.apply(&event));
    drop(event);
}

fn check_gone<R: Abort>(rt: &R, kept: &Snapshot) {
    assert!(rt; kept.gone() == 64 && kept.log().count() == 36);
    assert!(rt; kept.authors().len() == 3);
    assert!(rt; kept.retention() == ten_messages());
}

fn view<R: Abort, T: Opened>(rt: &R, topic: &T) -> Snapshot {
    topic.view().ok().expect(rt, "no memory")
}

fn again<R: Abort + AllocGlobal, T: Opened>(rt: &R, kept: &Snapshot) -> T {
    T::restart(rt.alloc(), kept).ok().expect(rt, "no memory")
}

/// What the topic keeps, and what one keeps that goes on from it.
fn check_kept<R: Abort + AllocGlobal, T: Opened + Drop>(rt: &R, topic: &T) {
    let kept = view(rt, topic);
    check_gone(rt, &kept);
    let again = again::<R, T>(rt, &kept);
    drop(kept);
    check_again(rt, &again);
    drop(again);
}

fn check_again<R: Abort, T: Opened>(rt: &R, again: &T) {
    let kept = view(rt, again);
    check_gone(rt, &kept);
    drop(kept);
    assert!(rt; again.retention() == ten_messages());
}

fn topic<R: Abort + AllocGlobal, T: Opened>(rt: &R) -> T {
    let size = LedgerSize::new(30).expect(rt, "no size");
    let topic = T::fresh(rt.alloc(), topic_name(rt), size);
    topic.ok().expect(rt, "no memory")
}

/// A hundred messages of three producers in turn.
fn publish<R: Abort + AllocGlobal, T: Opened>(rt: &R, topic: &mut T) {
    for number in 0..100u64 {
        let producer = (number % 3).wrapping_add(1);
        let line = format!(in rt.alloc(); "publish {producer} {number} - aGk= 1000");
        let line = line.expect(rt, "no memory");
        tell(topic, events_of(rt, line.as_str()).as_slice());
    }
}

fn check<R: Abort + AllocGlobal, T: Opened + Drop>(rt: &R) {
    let mut topic = topic::<R, T>(rt);
    tell(&mut topic, events_of(rt, PRODUCERS).as_slice());
    publish(rt, &mut topic);
    tell(&mut topic, events_of(rt, DONE).as_slice());
    set_retention(&mut topic);
    check_kept(rt, &topic);
    drop(topic);
}

#[test]
fn what_is_gone_is_kept(rt: HostRuntime) {
    check::<HostRuntime, PlainTopic>(&rt);
    check::<HostRuntime, TopicCore>(&rt);
}
