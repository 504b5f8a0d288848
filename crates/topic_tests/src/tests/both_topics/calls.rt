// Calls that no line makes: a run, storing what a snapshot had, and copies of what was not collected.
use delivery_machine::{Delivery, Event, Reply, Topic, run};
use plain_topic::PlainTopic;
use position_core::{LedgerSize, Position, TopicName};
use replay_lines::{Line, read_line};
use std::io::BufRead;
use std::process::Abort;
use topic_core::TopicCore;
use value_texts::read_topic_name;

pub(super) fn topic_name<R: Abort + AllocGlobal>(rt: &R) -> TopicName {
    let name = read_topic_name(rt.alloc(), "persistent://public/default/t");
    name.expect(rt, "no memory").expect(rt, "no name")
}

pub(super) fn plain_topic<R: Abort + AllocGlobal>(rt: &R) -> PlainTopic {
    let size = LedgerSize::new(3).expect(rt, "no size");
    PlainTopic::new(rt.alloc(), topic_name(rt), size)
}

pub(super) fn fast_topic<R: Abort + AllocGlobal>(rt: &R) -> TopicCore {
    let size = LedgerSize::new(3).expect(rt, "no size");
    TopicCore::new(rt.alloc(), topic_name(rt), size)
}

fn event_in<R: AllocGlobal>(rt: &R, name: &TopicName, line: &str) -> Option<Event> {
    match read_line(rt.alloc(), name, line.as_bytes()) {
        Ok(Line::Event(event)) => Some(event),
        _ => None,
    }
}

/// The event that the line stands for.
pub(super) fn event_of<R: Abort + AllocGlobal>(rt: &R, line: &str) -> Event {
    event_in(rt, &topic_name(rt), line).expect(rt, "no event")
}

fn push_event<R: Abort + AllocGlobal>(rt: &R, events: &mut Vec<Event>, line: &str) {
    events.push(event_of(rt, line)).expect(rt, "no memory");
}

fn push_events<R: Abort + AllocGlobal>(rt: &R, events: &mut Vec<Event>, lines: &str) {
    for line in lines.as_bytes().lines(rt.alloc()) {
        push_event(rt, events, line.expect(rt, "no text").as_str());
    }
}

/// The events that the lines stand for.
pub(super) fn events_of<R: Abort + AllocGlobal>(rt: &R, lines: &str) -> Vec<Event> {
    let mut events = Vec::new(rt.alloc());
    push_events(rt, &mut events, lines);
    events
}

/// Tells the topic of the events, whatever it answers.
pub(super) fn tell<T: Topic>(topic: &mut T, events: &[Event]) {
    for event in events {
        drop(topic.apply(event));
    }
}

/// Two messages, of which none is stored.
const UNSTORED: &str = "producer p -\npublish 1 0 - aGk= 1000\npublish 1 1 - aGk= 1000\n";

/// A message that is sent and not collected.
const SENT: &str = "producer p -
publish 1 0 - aGk= 1000
stored
subscribe s Exclusive 0 push:10 0 60000 0 - Earliest
dispatch s 1000
";

const AGAIN: &str = "producer p -\npublish 1 0 - aGk= 1000\npublish 1 0 - aGk= 1000\nstored\n";

fn are_in_turn(replies: &[Reply]) -> bool {
    matches!(
        replies,
        [
            Reply::ProducerAdded { .. },
            Reply::Published { length: 1, .. },
            Reply::Duplicate { length: 1 },
            Reply::Durable(1),
        ]
    )
}

fn check_replies<R: Abort>(rt: &R, replies: &[Reply]) {
    assert!(rt; are_in_turn(replies));
}

fn check_run<R: Abort + AllocGlobal, T: Topic>(rt: &R, topic: &mut T, events: &[Event]) {
    let replies = run(rt.alloc(), topic, events).ok().expect(rt, "no memory");
    check_replies(rt, replies.as_slice());
}

fn check_in_turn<R: Abort + AllocGlobal, T: Topic + Drop>(rt: &R, mut topic: T) {
    check_run(rt, &mut topic, events_of(rt, AGAIN).as_slice());
}

#[test]
fn each_event_of_a_run_is_answered(rt: HostRuntime) {
    check_in_turn(&rt, plain_topic(&rt));
    check_in_turn(&rt, fast_topic(&rt));
}

fn durable_in(reply: &Reply) -> Option<u64> {
    match reply {
        Reply::Durable(count) => Some(*count),
        _ => None,
    }
}

/// So many messages are stored.
fn store_to<T: Topic>(topic: &mut T, length: u64) -> Reply {
    let event = Event::StoredTo { length, ordinal: 0 };
    let reply = topic.apply(&event);
    drop(event);
    reply
}

fn check_durable<R: Abort, T: Topic>(rt: &R, topic: &mut T, length: u64, want: u64) {
    let reply = store_to(topic, length);
    assert!(rt; durable_in(&reply) == Some(want));
    drop(reply);
}

fn check_stores<R: Abort + AllocGlobal, T: Topic + Drop>(rt: &R, mut topic: T) {
    tell(&mut topic, events_of(rt, UNSTORED).as_slice());
    check_durable(rt, &mut topic, 1, 1);
    check_durable(rt, &mut topic, 0, 1);
    check_durable(rt, &mut topic, 7, 2);
}

#[test]
fn so_many_messages_are_stored_and_no_fewer(rt: HostRuntime) {
    check_stores(&rt, plain_topic(&rt));
    check_stores(&rt, fast_topic(&rt));
}

const FIRST: Position = Position {
    ledger: 0,
    entry: 0,
};

/// Whether the only copy is that of the first message.
fn are_of_first(copies: &[Delivery]) -> bool {
    match copies {
        [copy] => copy.message.position() == FIRST,
        _ => false,
    }
}

fn check_first<R: Abort>(rt: &R, copies: &[Delivery]) {
    assert!(rt; are_of_first(copies));
}

/// The consumer was sent the first message and has not collected it.
fn check_sent<R: Abort, T: Topic>(rt: &R, topic: &T) {
    let copies = topic.out_copy(1).ok().expect(rt, "no memory");
    check_first(rt, copies.as_slice());
}

fn check_empty<R: Abort>(rt: &R, copies: &[Delivery]) {
    assert!(rt; copies.is_empty());
}

fn check_nothing<R: Abort, T: Topic>(rt: &R, topic: &T, consumer: u64) {
    let copies = topic.out_copy(consumer).ok().expect(rt, "no memory");
    check_empty(rt, copies.as_slice());
}

fn collect<T: Topic>(topic: &mut T) {
    let _ = topic.apply(&Event::Collect { consumer: 1 });
}

fn check_copies<R: Abort + AllocGlobal, T: Topic + Drop>(rt: &R, mut topic: T) {
    tell(&mut topic, events_of(rt, SENT).as_slice());
    check_sent(rt, &topic);
    check_nothing(rt, &topic, 2);
    collect(&mut topic);
    check_nothing(rt, &topic, 1);
}

#[test]
fn out_copies_are_what_was_not_collected(rt: HostRuntime) {
    check_copies(&rt, plain_topic(&rt));
    check_copies(&rt, fast_topic(&rt));
}
