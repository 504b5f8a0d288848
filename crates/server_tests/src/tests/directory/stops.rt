// A broker that is stopped after each single step of its couriers, and started again from what is stored.
use super::broker::Broker;
use super::letters::{GRAVE, T, play};
use super::world::{Scene, asked, open, settle, sit, with_rows};
use delivery_machine::{Delivery, Reply};
use position_core::Entry;
use std::process::Abort;
use std::rt::Clock;
use std::sync::Wait;
use std::sync::atomic::{AtomicU64, Ordering};
use std::test::*;

/// A letter as it stands in its dead-letter topic: its courier, its ordinal, its payload.
type Moved = (&'static str, i64, &'static [u8]);

/// What is published and dies, and what is moved then.
#[derive(Clone, Copy)]
struct Deaths {
    publishes: &'static [&'static str],
    /// For each subscription what its consumer asks for.
    consumers: &'static [&'static [&'static str]],
    subscriptions: &'static [&'static str],
    grave: &'static str,
    moved: &'static [Moved],
}

const ONE: Deaths = Deaths {
    publishes: &["producer p -", "publish 1 0 - aGk= 1000"],
    consumers: &[&[
        "subscribe s Shared 0 push:10 0 100 1 - Earliest",
        "dispatch s 1000",
        "nack 1 CAAQAA== 1000",
        "tick s 1100",
        "dispatch s 1100",
        "nack 1 CAAQAA== 1100",
        "tick s 1200",
    ]],
    subscriptions: &["s"],
    grave: GRAVE,
    moved: &[("dlq/public/default/t/s", 0, b"hi")],
};

/// Two letters of each of two subscriptions, all for one topic.
const FOUR: Deaths = Deaths {
    publishes: &[
        "producer p -",
        "publish 1 0 - aGk= 1000",
        "publish 1 1 - aG8= 1000",
    ],
    consumers: &[
        &[
            "subscribe s Shared 0 push:10 0 100 1 persistent://public/default/g Earliest",
            "dispatch s 1000",
            "dispatch s 1000",
            "nack 1 CAAQAA== 1000",
            "nack 1 CAAQAQ== 1000",
            "tick s 1100",
            "tick s 1100",
            "dispatch s 1100",
            "dispatch s 1100",
            "nack 1 CAAQAQ== 1100",
            "tick s 1200",
            "nack 1 CAAQAA== 1200",
            "tick s 1300",
        ],
        &[
            "subscribe u Shared 0 push:10 0 100 1 persistent://public/default/g Earliest",
            "dispatch u 1000",
            "dispatch u 1000",
            "nack 2 CAAQAA== 1000",
            "nack 2 CAAQAQ== 1000",
            "tick u 1100",
            "tick u 1100",
            "dispatch u 1100",
            "dispatch u 1100",
            "nack 2 CAAQAA== 1100",
            "nack 2 CAAQAQ== 1100",
            "tick u 1200",
            "tick u 1200",
        ],
    ],
    subscriptions: &["s", "u"],
    grave: "persistent://public/default/g",
    moved: &[
        ("dlq/public/default/t/s", 0, b"ho"),
        ("dlq/public/default/t/s", 1, b"hi"),
        ("dlq/public/default/t/u", 2, b"hi"),
        ("dlq/public/default/t/u", 3, b"ho"),
    ],
};

fn play_at<D: Broker, R: Abort + AllocGlobal + Wait>(rt: &R, topics: &D, lines: &[&str]) {
    let seat = sit(rt, topics, T);
    play(rt, topics, &seat, lines);
    topics.detach(rt, seat);
}

fn number_in(reply: &Reply) -> u64 {
    match reply {
        Reply::Stats { dead, .. } => *dead,
        Reply::Progress { length, durable: _ } => *length,
        _ => 0,
    }
}

/// The number that the topic answers to the line.
pub(super) fn number<D: Broker, R: Abort + AllocGlobal + Wait>(
    rt: &R,
    topics: &D,
    name: &str,
    line: &str,
) -> u64 {
    let seat = sit(rt, topics, name);
    let reply = asked(rt, topics, &seat, line);
    let number = number_in(&reply);
    drop(reply);
    topics.detach(rt, seat);
    number
}

fn is_moved(entry: &Entry, moved: &Moved) -> bool {
    let (courier, ordinal, payload) = *moved;
    entry.producer.as_str() == courier
        && entry.sequence == ordinal
        && entry.body.content().payload.as_slice() == payload
}

impl Deaths {
    /// All die once they are stored.
    fn die<D: Broker, R: Abort + AllocGlobal + Wait + Clock>(&self, rt: &R, topics: &D) {
        play_at(rt, topics, self.publishes);
        settle(rt, topics);
        for lines in self.consumers {
            play_at(rt, topics, lines);
        }
    }

    /// How many letters lie in their topic.
    fn left<D: Broker, R: Abort + AllocGlobal + Wait>(&self, rt: &R, topics: &D) -> u64 {
        let mut left: u64 = 0;
        for subscription in self.subscriptions {
            let line = format!(in rt.alloc(); "stats {subscription}").expect(rt, "no memory");
            left = left.saturating_add(number(rt, topics, T, line.as_str()));
        }
        left
    }

    /// Whether a letter lies still of which there is a copy.
    fn is_between<D: Broker, R: Abort + AllocGlobal + Wait>(&self, rt: &R, topics: &D) -> bool {
        let copies = number(rt, topics, self.grave, "progress");
        copies.saturating_add(self.left(rt, topics)) > self.moved.len() as u64
    }

    /// Those of the courier stand among the copies in the order of dying, and none else of it.
    fn are_in_order(&self, copies: &[Delivery], courier: &str) -> bool {
        let mut left = self.moved.iter().filter(|moved| moved.0 == courier);
        for copy in copies {
            let entry = copy.message.entry();
            if entry.producer.as_str() == courier {
                match left.next() {
                    Some(moved) if is_moved(entry, moved) => {}
                    _ => return false,
                }
            }
        }
        left.next().is_none()
    }

    fn are_moved(&self, copies: &[Delivery]) -> bool {
        copies.len() == self.moved.len()
            && self
                .moved
                .iter()
                .all(|moved| self.are_in_order(copies, moved.0))
    }

    /// The dead-letter topic has each letter once, those of one subscription in the order of dying, and nothing else.
    fn check_copies<D: Broker, R: Abort + AllocGlobal + Wait>(&self, rt: &R, topics: &D) {
        let seat = sit(rt, topics, self.grave);
        play(
            rt,
            topics,
            &seat,
            &["subscribe g Shared 0 push:10 0 0 0 - Earliest"],
        );
        for _ in 0..self.moved.len() + 1 {
            drop(asked(rt, topics, &seat, "dispatch g 2000"));
        }
        let reply = asked(rt, topics, &seat, "collect 1");
        assert!(rt; matches!(&reply, Reply::Copies(copies) if self.are_moved(copies.as_slice())));
        drop(reply);
        topics.detach(rt, seat);
    }

    /// Once all couriers have gone as far as they can, no letter is left, and each is where it belongs; or nothing has died.
    fn check<D: Broker, R: Abort + AllocGlobal + Wait + Clock>(
        &self,
        rt: &R,
        topics: &D,
        has_died: bool,
    ) {
        settle(rt, topics);
        assert!(rt; self.left(rt, topics) == 0);
        if has_died {
            self.check_copies(rt, topics);
        } else {
            assert!(rt; number(rt, topics, self.grave, "progress") == 0);
        }
    }
}

/// A broker that is stopped, so many times in a row, after so many of its thread's tasks and its couriers' steps.
#[derive(Drop)]
struct Stops<'a> {
    deaths: Deaths,
    steps: u32,
    times: u32,
    /// A worker stores what waits before each stop.
    helps: bool,
    /// How often a stop came between a copy and the end of its letter.
    between: &'a AtomicU64,
}

pub(super) fn do_steps<D: Broker, R: Abort + AllocGlobal + Wait + Clock>(
    rt: &R,
    topics: &D,
    steps: u32,
) {
    let mut errands = D::tasks(rt);
    for _ in 0..steps {
        topics.keep_once(rt, &mut errands);
    }
    drop(errands);
}

/// The broker that is started again from what is stored.
pub(super) fn again<D: Broker, R: Abort + AllocGlobal>(rt: &R, topics: D) -> D {
    let (keeper, _) = topics.stop(rt);
    open(rt, keeper, 8)
}

impl<'a> Stops<'a> {
    /// The broker that is started again after a stop. The topic is open in it.
    fn stopped<D: Broker, R: Abort + AllocGlobal + Wait + Clock>(&self, rt: &R, topics: D) -> D {
        do_steps(rt, &topics, self.steps);
        if self.helps {
            topics.help(rt, 1);
        }
        let topics = again(rt, topics);
        if self.deaths.is_between(rt, &topics) {
            self.between.fetch_add(1, Ordering::SeqCst);
        }
        topics
    }
}

impl<'a> Scene for Stops<'a> {
    fn play<D: Broker, R: Abort + AllocGlobal + Wait + Clock>(&self, rt: &R, keeper: D::Rows) {
        let mut topics: D = open(rt, keeper, 8);
        self.deaths.die(rt, &topics);
        for _ in 0..self.times {
            topics = self.stopped(rt, topics);
        }
        let has_died = self.steps > 0 || self.helps;
        self.deaths.check(rt, &topics, has_died);
        drop(topics);
    }
}

/// The broker is stopped after so many steps, with and without a store before the stop.
fn stop_after<R: Abort + AllocGlobal + Wait + Clock>(
    rt: &R,
    deaths: Deaths,
    steps: u32,
    times: u32,
    between: &AtomicU64,
) {
    for helps in [false, true] {
        let stops = Stops {
            deaths,
            steps,
            times,
            helps,
            between,
        };
        with_rows(rt, &stops);
    }
}

/// The broker is stopped after each of so many steps: so often a stop came between a copy and the end of its letter.
fn stop_each<R: Abort + AllocGlobal + Wait + Clock>(
    rt: &R,
    deaths: Deaths,
    most: u32,
    times: u32,
) -> u64 {
    let between = AtomicU64::new(0);
    for steps in 0..most {
        stop_after(rt, deaths, steps, times, &between);
    }
    between.load(Ordering::SeqCst)
}

#[test]
fn a_letter_is_moved_once_whatever_step_is_the_last(rt: HostRuntime) {
    let between = stop_each(&rt, ONE, 16, 1);
    assert!(rt; between > 3, "{between}");
}

#[test]
fn a_letter_is_moved_once_however_often_the_broker_stops(rt: HostRuntime) {
    let between = stop_each(&rt, ONE, 16, 3);
    assert!(rt; between > 3, "{between}");
}

#[test]
fn four_letters_on_the_way_at_once_are_moved_once(rt: HostRuntime) {
    let between = stop_each(&rt, FOUR, 32, 2);
    assert!(rt; between > 10, "{between}");
}
