// A topic whose messages go has no last line: its journal begins anew.
use super::broker::Broker;
use super::letters::{T, play};
use super::world::{Scene, asked, open_keeping, settle, sit, with_rows};
use delivery_machine::{KeptMessages, Reply, Retention};
use std::process::Abort;
use std::rt::Clock;
use std::sync::Wait;
use std::test::*;

/// A topic of one producer and one consumer.
const BEGUN: [&str; 2] = [
    "producer p -",
    "subscribe s Shared 0 push:1000 0 0 0 - Earliest",
];

pub(super) fn last<R: Abort>(rt: &R, count: u32) -> Retention {
    Retention::Messages(KeptMessages::new(count).expect(rt, "no number"))
}

pub(super) fn expect_number<R: Abort>(rt: &R, got: u64, want: u64) {
    assert_eq!(rt; got, want);
}

fn expect_published<R: Abort>(rt: &R, reply: &Reply) {
    assert!(rt; matches!(reply, Reply::Published { .. }));
}

/// So many messages of the moment, from the sequence number on.
pub(super) fn publish<D: Broker, R: Abort + AllocGlobal + Wait>(
    rt: &R,
    topics: &D,
    seat: &D::Seat,
    first: u64,
    count: u64,
    moment: u64,
) {
    for number in first..first.saturating_add(count) {
        let line = format!(in rt.alloc(); "publish 1 {number} - aGk= {moment}");
        let line = line.expect(rt, "no memory");
        let reply = asked(rt, topics, seat, line.as_str());
        expect_published(rt, &reply);
        drop(reply);
    }
}

fn gone_in(reply: &Reply) -> u64 {
    match reply {
        Reply::Stats { gone, .. } => *gone,
        _ => u64::MAX,
    }
}

/// So many messages are gone.
pub(super) fn check_gone<D: Broker, R: Abort + AllocGlobal + Wait>(
    rt: &R,
    topics: &D,
    seat: &D::Seat,
    want: u64,
) {
    let reply = asked(rt, topics, seat, "stats s");
    expect_number(rt, gone_in(&reply), want);
    drop(reply);
}

/// More messages come than a journal has lines: it begins anew once many are gone.
#[derive(Clone, Copy)]
struct Endless;

fn come_and_go<D: Broker, R: Abort + AllocGlobal + Wait + Clock>(
    rt: &R,
    topics: &D,
    seat: &D::Seat,
    first: u64,
) {
    publish(rt, topics, seat, first, 200, 1000);
    settle(rt, topics);
    play(rt, topics, seat, &["skip s 200"]);
    settle(rt, topics);
}

impl Scene for Endless {
    fn play<D: Broker, R: Abort + AllocGlobal + Wait + Clock>(&self, rt: &R, keeper: D::Rows) {
        let topics: D = open_keeping(rt, keeper, last(rt, 0));
        let seat = sit(rt, &topics, T);
        play(rt, &topics, &seat, &BEGUN);
        for turn in 0..11 {
            come_and_go(rt, &topics, &seat, turn * 200);
        }
        check_gone(rt, &topics, &seat, 2_176);
        topics.detach(rt, seat);
    }
}

#[test]
fn a_topic_that_trims_goes_on_beyond_a_journal(rt: HostRuntime) {
    with_rows(&rt, &Endless);
}
