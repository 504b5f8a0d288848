// How much of a topic an offer looks at, where many messages are pending.
use super::topic::Topic;
use super::{in_order, shared};
use crate::list_view::ListView;
use dispatch_core::{Dispatcher, Offer, Seen, View};
use dispatch_shared::Shared;
use dispatch_single::Single;
use position_core::{Kind, LogIndex};
use std::cell::Cell;
use std::process::Abort;

/// So many messages, of which all but the last are pending.
const COUNT: u64 = 1_000;

/// A view over lists that counts what it is asked, and the messages that it goes over.
#[derive(Drop)]
pub(super) struct CountedView<'a> {
    list: ListView<'a>,
    calls: Cell<u64>,
    passed: Cell<u64>,
}

impl<'a> CountedView<'a> {
    pub(super) fn new(list: ListView<'a>) -> Self {
        CountedView {
            list,
            calls: Cell::new(0),
            passed: Cell::new(0),
        }
    }

    fn count(&self, passed: u64) {
        self.calls.set(self.calls.get().saturating_add(1));
        self.passed.set(self.passed.get().saturating_add(passed));
    }
}

impl View for CountedView<'_> {
    ghost use Rattle.topic_tests.specs.Listed.{listed};

    ghost state = { λ v. listed v.list.log.now v.list.durable v.list.members.now };

    ghost subscription = { λ v. v.list.subscription.now };

    fn visible(&self) -> u64 {
        self.count(0);
        self.list.visible()
    }

    fn length(&self) -> u64 {
        self.count(0);
        self.list.length()
    }

    fn key(&self, index: LogIndex) -> Option<&str> {
        self.count(0);
        self.list.key(index)
    }

    fn next_waiting(&self, from: LogIndex) -> Option<LogIndex> {
        let next = self.list.next_waiting(from);
        let passed = next.unwrap_or(self.list.visible()).saturating_sub(from);
        self.count(passed);
        next
    }

    fn holder(&self, index: LogIndex) -> Option<u64> {
        self.count(0);
        self.list.holder(index)
    }

    fn member(&self, place: u64) -> Option<Seen> {
        self.count(0);
        self.list.member(place)
    }
}

/// So many messages are sent to the first member, and the dispatcher is told of each.
pub(super) fn send_first<R: Abort, D: Dispatcher>(
    rt: &R,
    topic: &mut Topic,
    dispatcher: &mut D,
    count: u64,
) {
    for index in 0..count {
        topic.hold(rt, index, 1);
        let done = dispatcher.on_sent(&topic.view(), index, 1);
        done.expect(rt, "no memory");
    }
}

fn tell_of_first<R: Abort, D: Dispatcher>(rt: &R, dispatcher: &mut D, topic: &Topic) {
    let done = dispatcher.on_join(&topic.view(), 1);
    done.expect(rt, "no memory");
}

/// All messages but the last are sent to the one member.
fn sent<R: Abort + AllocGlobal, D: Dispatcher>(rt: &R, kind: Kind, dispatcher: &mut D) -> Topic {
    let mut topic = Topic::long(rt, kind, COUNT);
    tell_of_first(rt, dispatcher, &topic);
    send_first(rt, &mut topic, dispatcher, COUNT - 1);
    topic
}

fn check_counts<R: Abort>(rt: &R, calls: u64, most: u64, passed: u64) {
    assert!(rt; calls <= most);
    assert_eq!(rt; passed, 0);
}

/// This was offered by so many calls at most, which passed over no message.
pub(super) fn check_offered<R: Abort>(
    rt: &R,
    view: &CountedView<'_>,
    offer: Option<Offer>,
    expected: Offer,
    most: u64,
) {
    assert_eq!(rt; offer, Some(expected));
    check_counts(rt, view.calls.get(), most, view.passed.get());
}

/// The last message was offered to the one member, by few calls.
fn check_last<R: Abort>(rt: &R, view: &CountedView<'_>, offer: Option<Offer>) {
    let last = Offer {
        index: COUNT - 1,
        consumer: 1,
    };
    check_offered(rt, view, offer, last, 10);
}

fn check_in_order<R: Abort>(rt: &R, topic: &Topic, dispatcher: &Single) {
    let view = CountedView::new(topic.view());
    check_last(rt, &view, dispatcher.offer(&view));
}

fn offer_in_order<R: Abort + AllocGlobal>(rt: &R) {
    let mut dispatcher = in_order::begin(rt, Kind::Failover);
    let topic = sent(rt, Kind::Failover, &mut dispatcher);
    check_in_order(rt, &topic, &dispatcher);
    drop(topic);
    drop(dispatcher);
}

#[test]
fn an_offer_in_order_goes_over_nothing_that_is_pending(rt: HostRuntime) {
    offer_in_order(&rt);
}

fn check_in_turn<R: Abort>(rt: &R, topic: &Topic, dispatcher: &Shared) {
    let view = CountedView::new(topic.view());
    check_last(rt, &view, dispatcher.offer(&view));
}

fn offer_in_turn<R: Abort + AllocGlobal>(rt: &R) {
    let mut dispatcher = shared::begin(rt);
    let topic = sent(rt, Kind::Shared, &mut dispatcher);
    check_in_turn(rt, &topic, &dispatcher);
    drop(topic);
    drop(dispatcher);
}

#[test]
fn an_offer_in_turn_goes_over_nothing_that_is_pending(rt: HostRuntime) {
    offer_in_turn(&rt);
}
