// Letters that move into a topic that trims: a copy that has gone again comes no second time.
use super::broker::Broker;
use super::letters::{GRAVE, T, die, play};
use super::stops::{do_steps, number};
use super::trimming::{check_gone, expect_number, last, publish};
use super::world::{Scene, open_keeping, settle, sit, with_rows};
use std::process::Abort;
use std::rt::Clock;
use std::sync::Wait;
use std::sync::atomic::{AtomicU64, Ordering};
use std::test::*;

/// How many others are published at the dead-letter topic.
const OTHERS: u64 = 130;

/// A broker that keeps none and is stopped while its courier is under way, after so many steps. The topic of its letter is not
/// opened before the copy of it is gone.
#[derive(Drop)]
struct Gone<'a> {
    steps: u32,
    /// How often the copy had gone, and its letter had not ended.
    between: &'a AtomicU64,
}

/// A broker by the same rule that is started again.
fn again<D: Broker, R: Abort + AllocGlobal>(rt: &R, topics: D) -> D {
    let (keeper, _) = topics.stop(rt);
    open_keeping(rt, keeper, last(rt, 0))
}

/// The dead-letter topic gets others, and a subscription that has done with all that is there, so that the first go.
fn trim_grave<D: Broker, R: Abort + AllocGlobal + Wait + Clock>(rt: &R, topics: &D) {
    let seat = sit(rt, topics, GRAVE);
    play(rt, topics, &seat, &["producer w -"]);
    publish(rt, topics, &seat, 0, OTHERS, 2000);
    settle(rt, topics);
    play(
        rt,
        topics,
        &seat,
        &["subscribe s Shared 0 push:10 0 0 0 - Latest"],
    );
    settle(rt, topics);
    check_gone(rt, topics, &seat, 128);
    topics.detach(rt, seat);
}

fn copies<D: Broker, R: Abort + AllocGlobal + Wait>(rt: &R, topics: &D) -> u64 {
    number(rt, topics, GRAVE, "progress")
}

fn letters<D: Broker, R: Abort + AllocGlobal + Wait>(rt: &R, topics: &D) -> u64 {
    number(rt, topics, T, "stats s")
}

impl<'a> Scene for Gone<'a> {
    fn play<D: Broker, R: Abort + AllocGlobal + Wait + Clock>(&self, rt: &R, keeper: D::Rows) {
        let topics: D = open_keeping(rt, keeper, last(rt, 0));
        die(rt, &topics);
        do_steps(rt, &topics, self.steps);
        let topics = again(rt, topics);
        let copied = copies(rt, &topics);
        trim_grave(rt, &topics);
        let left = letters(rt, &topics);
        self.between.fetch_add(copied.min(left), Ordering::SeqCst);
        settle(rt, &topics);
        expect_number(rt, letters(rt, &topics), 0);
        expect_number(
            rt,
            copies(rt, &topics),
            OTHERS.saturating_add(copied.max(left)),
        );
        drop(topics);
    }
}

#[test]
fn a_copy_that_is_gone_comes_no_second_time(rt: HostRuntime) {
    let between = AtomicU64::new(0);
    for steps in 1..16 {
        with_rows(
            &rt,
            &Gone {
                steps,
                between: &between,
            },
        );
    }
    let between = between.load(Ordering::SeqCst);
    assert!(rt; between > 0, "{between}");
}
