// A topic is deleted by whoever sits there, and made again.
use super::broker::Broker;
use super::chime::bell;
use super::letters::{BEFORE, DEATH, T, letters, play};
use super::world::{Scene, answer_to, asked, come, open, settle, sit, topic_name, with_rows};
use delivery_machine::{Fault, Reply};
use position_core::Position;
use session_links::Request;
use std::process::Abort;
use std::rt::Clock;
use std::sync::Wait;
use std::test::*;

const OTHER: &str = "persistent://public/default/u";

fn expect_reply<R: Abort>(rt: &R, got: &Reply, want: &Reply) {
    match (got, want) {
        (Reply::Done, Reply::Done) => {}
        (Reply::Refused(got), Reply::Refused(want)) => assert_eq!(rt; *got, *want),
        _ => panic!(rt; "another reply"),
    }
}

fn check_delete<D: Broker, R: Abort + AllocGlobal + Wait>(
    rt: &R,
    topics: &D,
    seat: &D::Seat,
    want: Reply,
) {
    let got = topics
        .call(rt, seat, Request::DeleteTopic)
        .ok()
        .expect(rt, "no answer");
    expect_reply(rt, &got, &want);
    drop(got);
    drop(want);
}

fn busy() -> Reply {
    Reply::Refused(Fault::SubscriptionBusy)
}

fn expect_fault<R: Abort>(rt: &R, got: Option<Fault>, want: Option<Fault>) {
    assert_eq!(rt; got, want);
}

/// Whether the topic is known.
fn check_known<D: Broker, R: Abort + AllocGlobal + Wait>(
    rt: &R,
    topics: &D,
    name: &str,
    want: Option<Fault>,
) {
    match come(rt, topics, &topic_name(rt, name), false, bell(rt)) {
        Ok(seat) => {
            topics.detach(rt, seat);
            expect_fault(rt, None, want);
        }
        Err(fault) => expect_fault(rt, Some(fault), want),
    }
}

fn store_one<D: Broker, R: Abort + AllocGlobal + Wait + Clock>(rt: &R, topics: &D, name: &str) {
    let seat = sit(rt, topics, name);
    play(
        rt,
        topics,
        &seat,
        &["producer p -", "publish 1 0 - aGk= 1000", "drop 1"],
    );
    topics.detach(rt, seat);
    settle(rt, topics);
}

fn expect_position<R: Abort>(rt: &R, reply: &Reply) {
    let first = Position {
        ledger: 1,
        entry: 0,
    };
    match reply {
        Reply::Published { position, length } => {
            assert_eq!(rt; *position, first);
            assert_eq!(rt; *length, 3);
        }
        _ => panic!(rt; "it was not published"),
    }
}

/// The first message of a topic that had two before it was deleted.
fn check_new<D: Broker, R: Abort + AllocGlobal + Wait>(rt: &R, topics: &D) {
    let seat = sit(rt, topics, T);
    play(rt, topics, &seat, &["producer p -"]);
    let published = asked(rt, topics, &seat, "publish 1 0 - aGk= 1000");
    expect_position(rt, &published);
    drop(published);
    topics.detach(rt, seat);
}

#[derive(Clone, Copy)]
struct Deleted;

impl Scene for Deleted {
    fn play<D: Broker, R: Abort + AllocGlobal + Wait + Clock>(&self, rt: &R, keeper: D::Rows) {
        let topics: D = open(rt, keeper, 3);
        store_one(rt, &topics, OTHER);
        store_one(rt, &topics, T);
        let seat = sit(rt, &topics, T);
        let onlooker = sit(rt, &topics, T);
        play(rt, &topics, &seat, &["producer q -"]);
        check_delete(rt, &topics, &onlooker, busy());
        play(rt, &topics, &seat, &["publish 2 0 - aGk= 1000", "drop 2"]);
        check_delete(rt, &topics, &seat, Reply::Done);
        expect_fault(
            rt,
            topics.refusal(rt, &onlooker),
            Some(Fault::NoSuchSubscription),
        );
        let late = answer_to(rt, &topics, &onlooker, "progress");
        expect_fault(rt, late.err(), Some(Fault::NoSuchSubscription));
        check_known(rt, &topics, T, Some(Fault::NoSuchSubscription));
        settle(rt, &topics);
        check_known(rt, &topics, T, Some(Fault::NoSuchSubscription));
        check_known(rt, &topics, OTHER, None);
        check_new(rt, &topics);
        topics.detach(rt, seat);
        topics.detach(rt, onlooker);
    }
}

#[test]
fn a_topic_that_is_made_again_goes_on_with_its_numbers(rt: HostRuntime) {
    with_rows(&rt, &Deleted);
}

#[derive(Clone, Copy)]
struct InUse;

impl Scene for InUse {
    fn play<D: Broker, R: Abort + AllocGlobal + Wait + Clock>(&self, rt: &R, keeper: D::Rows) {
        let topics: D = open(rt, keeper, 2);
        let seat = sit(rt, &topics, T);
        play(rt, &topics, &seat, &BEFORE);
        settle(rt, &topics);
        play(rt, &topics, &seat, &["drop 1"]);
        check_delete(rt, &topics, &seat, busy());
        play(rt, &topics, &seat, &DEATH);
        play(rt, &topics, &seat, &["leave 1"]);
        check_delete(rt, &topics, &seat, busy());
        settle(rt, &topics);
        check_delete(rt, &topics, &seat, Reply::Done);
        topics.detach(rt, seat);
    }
}

#[test]
fn a_topic_is_not_deleted_while_it_is_used_or_letters_wait(rt: HostRuntime) {
    with_rows(&rt, &InUse);
}

/// The death of the first message of a topic that was made again.
const DEATH_AGAIN: [&str; 6] = [
    "dispatch s 1000",
    "nack 1 CAEQAA== 1000",
    "tick s 1100",
    "dispatch s 1100",
    "nack 1 CAEQAA== 1100",
    "tick s 1200",
];

/// A message dies, its letter is moved, and its topic is deleted; so another one, once the topic was made again.
struct DiesAgain;

fn die_of<D: Broker, R: Abort + AllocGlobal + Wait + Clock>(rt: &R, topics: &D, death: &[&str]) {
    let seat = sit(rt, topics, T);
    play(rt, topics, &seat, &BEFORE);
    settle(rt, topics);
    play(rt, topics, &seat, death);
    play(rt, topics, &seat, &["leave 1", "drop 1"]);
    settle(rt, topics);
    check_delete(rt, topics, &seat, Reply::Done);
    topics.detach(rt, seat);
}

impl Scene for DiesAgain {
    fn play<D: Broker, R: Abort + AllocGlobal + Wait + Clock>(&self, rt: &R, keeper: D::Rows) {
        let topics: D = open(rt, keeper, 4);
        die_of(rt, &topics, &DEATH);
        die_of(rt, &topics, &DEATH_AGAIN);
        assert_eq!(rt; letters(rt, &topics), 2);
        drop(topics);
    }
}

#[test]
fn letters_of_a_topic_that_was_made_again_are_moved(rt: HostRuntime) {
    with_rows(&rt, &DiesAgain);
}

/// The id of a message of the deleted topic, beside one of the topic that was made again.
struct OldId;

impl Scene for OldId {
    fn play<D: Broker, R: Abort + AllocGlobal + Wait + Clock>(&self, rt: &R, keeper: D::Rows) {
        let topics: D = open(rt, keeper, 4);
        store_one(rt, &topics, T);
        let seat = sit(rt, &topics, T);
        check_delete(rt, &topics, &seat, Reply::Done);
        topics.detach(rt, seat);
        let seat = sit(rt, &topics, T);
        play(rt, &topics, &seat, &BEFORE);
        settle(rt, &topics);
        play(rt, &topics, &seat, &["dispatch s 1000"]);
        let old = asked(rt, &topics, &seat, "ack 1 CAAQAA==");
        expect_reply(rt, &old, &Reply::Refused(Fault::NoSuchMessage));
        drop(old);
        play(rt, &topics, &seat, &["ack 1 CAEQAA=="]);
        topics.detach(rt, seat);
        drop(topics);
    }
}

#[test]
fn an_id_of_a_deleted_topic_means_nothing(rt: HostRuntime) {
    with_rows(&rt, &OldId);
}
