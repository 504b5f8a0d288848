// A death, and its move while others publish.
use super::broker::Broker;
use super::world::{Scene, asked, open, settle, sit, with_rows};
use delivery_machine::Reply;
use std::process::Abort;
use std::rt::Clock;
use std::sync::Wait;
use std::test::*;

pub(super) const T: &str = "persistent://public/default/t";

pub(super) const GRAVE: &str = "persistent://public/default/t-s-DLQ";

const OTHER: &str = "persistent://public/default/u";

/// A message that has died once it is stored.
pub(super) const BEFORE: [&str; 3] = [
    "producer p -",
    "subscribe s Shared 0 push:10 0 100 1 - Earliest",
    "publish 1 0 - aGk= 1000",
];

pub(super) const DEATH: [&str; 6] = [
    "dispatch s 1000",
    "nack 1 CAAQAA== 1000",
    "tick s 1100",
    "dispatch s 1100",
    "nack 1 CAAQAA== 1100",
    "tick s 1200",
];

fn check_answered<R: Abort>(rt: &R, reply: &Reply, line: &str) {
    assert!(rt; !matches!(reply, Reply::Refused(_)), "{}", line);
}

pub(super) fn play<D: Broker, R: Abort + AllocGlobal + Wait>(
    rt: &R,
    topics: &D,
    seat: &D::Seat,
    lines: &[&str],
) {
    for line in lines {
        let reply = asked(rt, topics, seat, line);
        check_answered(rt, &reply, line);
        drop(reply);
    }
}

/// A subscription whose member is sent what waits, up to three messages.
const READING: [&str; 4] = [
    "subscribe g Shared 0 push:10 0 0 0 - Earliest",
    "dispatch g 2000",
    "dispatch g 2000",
    "dispatch g 2000",
];

fn copies_in(reply: &Reply) -> usize {
    match reply {
        Reply::Copies(copies) => copies.as_slice().len(),
        _ => 0,
    }
}

/// How many letters the dead-letter topic has, of which none is sent twice.
pub(super) fn letters<D: Broker, R: Abort + AllocGlobal + Wait>(rt: &R, topics: &D) -> usize {
    let seat = sit(rt, topics, GRAVE);
    for line in READING {
        drop(asked(rt, topics, &seat, line));
    }
    let reply = asked(rt, topics, &seat, "collect 1");
    let count = copies_in(&reply);
    drop(reply);
    topics.detach(rt, seat);
    count
}

fn expect_one<R: Abort>(rt: &R, letters: usize) {
    assert_eq!(rt; letters, 1);
}

/// A message dies once it is stored, and its consumer goes.
pub(super) fn die<D: Broker, R: Abort + AllocGlobal + Wait + Clock>(rt: &R, topics: &D) {
    let seat = sit(rt, topics, T);
    play(rt, topics, &seat, &BEFORE);
    settle(rt, topics);
    play(rt, topics, &seat, &DEATH);
    topics.detach(rt, seat);
}

/// No letter is left, and the dead-letter topic has it.
pub(super) fn check_letters<D: Broker, R: Abort + AllocGlobal + Wait>(rt: &R, topics: &D) {
    let seat = sit(rt, topics, T);
    let left = asked(rt, topics, &seat, "deadnext s");
    assert!(rt; matches!(left, Reply::NoDead));
    drop(left);
    topics.detach(rt, seat);
    expect_one(rt, letters(rt, topics));
}

/// A broker at which others publish all the time, so that some topic always waits to be stored.
struct UnderLoad;

fn publish<D: Broker, R: Abort + AllocGlobal + Wait>(
    rt: &R,
    topics: &D,
    seat: &D::Seat,
    number: u32,
) {
    let line = format!(in rt.alloc(); "publish 1 {number} - aGk= 2000").expect(rt, "no memory");
    drop(asked(rt, topics, seat, line.as_str()));
}

/// So many tasks of the thread and steps of its courier, before each of which another topic has one message more.
fn do_under_load<D: Broker, R: Abort + AllocGlobal + Wait + Clock>(rt: &R, topics: &D, tasks: u32) {
    let seat = sit(rt, topics, OTHER);
    drop(asked(rt, topics, &seat, "producer q -"));
    let mut errands = D::tasks(rt);
    for number in 0..tasks {
        publish(rt, topics, &seat, number);
        topics.keep_once(rt, &mut errands);
    }
    drop(errands);
    topics.detach(rt, seat);
}

impl Scene for UnderLoad {
    fn play<D: Broker, R: Abort + AllocGlobal + Wait + Clock>(&self, rt: &R, keeper: D::Rows) {
        let topics: D = open(rt, keeper, 8);
        die(rt, &topics);
        do_under_load(rt, &topics, 20);
        check_letters(rt, &topics);
        drop(topics);
    }
}

#[test]
fn a_letter_is_moved_while_others_publish(rt: HostRuntime) {
    with_rows(&rt, &UnderLoad);
}
