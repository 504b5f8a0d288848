// How much of a topic an offer of Key_Shared looks at, where many messages are pending.
ghost use Rattle.std.specs.Prelude.{◌<◌};

use super::counted::{CountedView, check_offered, send_first};
use super::message::{message_at, position_at};
use super::topic::Topic;
use dispatch_core::{Dispatcher, Offer};
use dispatch_keyed::Keyed;
use position_core::{Kind, Message};
use std::process::Abort;

/// So many messages are visible at first, and one is not.
const COUNT: u64 = 10_000;

fn push_key<R: Abort + AllocGlobal>(rt: &R, log: &mut Vec<Message>, index: u64, number: u64) {
    let key = format!(in rt.alloc(); "key-{number}").expect(rt, "no memory");
    let message = message_at(rt, position_at(index), Some(key.as_str()));
    log.push(message).expect(rt, "no memory");
}

/// Messages with so many keys in turn. Of "key-0" up to "key-9999" none other has the hash of "key-1",
/// which is 5,536; so it is the second member's.
fn push_keys<R: Abort + AllocGlobal>(rt: &R, log: &mut Vec<Message>, keys: u64)
    requires { 0 < keys }
{
    for index in 0..COUNT + 1 {
        push_key(rt, log, index, (index + 1) % keys);
    }
}

fn log_of<R: Abort + AllocGlobal>(rt: &R, keys: u64) -> Vec<Message>
    requires { 0 < keys }
{
    let mut log = Vec::new(rt.alloc());
    push_keys(rt, &mut log, keys);
    log
}

/// A member comes that may hold all messages.
fn join<R: Abort + AllocGlobal>(rt: &R, topic: &mut Topic, dispatcher: &mut Keyed, consumer: u64) {
    topic.join(rt, consumer, 100_000);
    let done = dispatcher.on_join(&topic.view(), consumer);
    done.expect(rt, "no memory");
}

fn look<R: Abort>(rt: &R, topic: &Topic, dispatcher: &mut Keyed) {
    dispatcher.look(&topic.view()).expect(rt, "no memory");
}

/// What is visible was looked at, and the first so many messages were sent to the one member.
fn sent<R: Abort + AllocGlobal>(rt: &R, keys: u64, count: u64) -> (Topic, Keyed)
    requires { 0 < keys }
{
    let mut topic = Topic::of(rt, Kind::KeyShared, log_of(rt, keys));
    topic.show(COUNT as usize);
    let mut dispatcher = Keyed::begin(rt.alloc(), &topic.view()).expect(rt, "no memory");
    join(rt, &mut topic, &mut dispatcher, 1);
    look(rt, &topic, &mut dispatcher);
    send_first(rt, &mut topic, &mut dispatcher, count);
    (topic, dispatcher)
}

/// Once the dispatcher has looked, it offers this, with few calls of the view, and passes over no
/// message.
fn expect_little<R: Abort>(rt: &R, topic: &Topic, dispatcher: &mut Keyed, expected: Offer) {
    look(rt, topic, dispatcher);
    let view = CountedView::new(topic.view());
    check_offered(rt, &view, dispatcher.offer(&view), expected, 100);
}

fn offer_past_pending<R: Abort + AllocGlobal>(rt: &R) {
    let (topic, mut dispatcher) = sent(rt, 1, COUNT - 1);
    let last = Offer {
        index: COUNT - 1,
        consumer: 1,
    };
    expect_little(rt, &topic, &mut dispatcher, last);
    drop(dispatcher);
    drop(topic);
}

#[test]
fn an_offer_goes_over_nothing_that_is_pending(rt: HostRuntime) {
    offer_past_pending(&rt);
}

fn drain<R: Abort + AllocGlobal>(rt: &R, topic: &mut Topic, dispatcher: &mut Keyed) {
    join(rt, topic, dispatcher, 2);
    topic.acknowledge(rt, 0);
    dispatcher.on_gone(&topic.view(), 0);
    topic.show(COUNT as usize + 1);
}

fn offer_past_draining<R: Abort + AllocGlobal>(rt: &R) {
    let (mut topic, mut dispatcher) = sent(rt, COUNT, COUNT);
    drain(rt, &mut topic, &mut dispatcher);
    let next = Offer {
        index: COUNT,
        consumer: 2,
    };
    expect_little(rt, &topic, &mut dispatcher, next);
    drop(dispatcher);
    drop(topic);
}

/// All messages are pending at the first member when a second one joins, so each of its hashes
/// drains but that of the first message, which is acknowledged. Then another one of its key comes.
#[test]
fn an_offer_goes_over_no_hash_that_drains(rt: HostRuntime) {
    offer_past_draining(&rt);
}
