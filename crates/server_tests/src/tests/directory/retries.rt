// Letters whose topic refuses them: they are tried again by time, and by nothing else.
use super::broker::Broker;
use super::letters::{GRAVE, T, check_letters, die, play};
use super::world::{Scene, asked, open, sit, with_rows};
use delivery_machine::Reply;
use session_links::Request;
use std::process::Abort;
use std::rt::Clock;
use std::sync::Wait;
use std::test::*;
use std::thread;
use std::time::Duration;

/// By this name the courier is a producer at the dead-letter topic.
const COURIER: &str = "producer dlq/public/default/t/s -";

/// The thread's tasks and its courier's steps until there are none: how many there were.
fn do_all<D: Broker, R: Wait + Clock>(rt: &R, topics: &D, errands: &mut D::Tasks) -> u32 {
    for count in 0..100 {
        if !topics.keep_once(rt, errands) {
            return count;
        }
    }
    100
}

/// So many messages are published at the source, each of which is stored: how many tasks and steps there were.
fn store_often<D: Broker, R: Abort + AllocGlobal + Wait + Clock>(
    rt: &R,
    topics: &D,
    errands: &mut D::Tasks,
    times: u32,
) -> u32 {
    let seat = sit(rt, topics, T);
    play(rt, topics, &seat, &["producer q -"]);
    let mut tasks: u32 = 0;
    for number in 0..times {
        let line = format!(in rt.alloc(); "publish 2 {number} - aGk= 2000").expect(rt, "no memory");
        drop(asked(rt, topics, &seat, line.as_str()));
        tasks = tasks.saturating_add(do_all(rt, topics, errands));
    }
    topics.detach(rt, seat);
    tasks
}

/// Whether no letter is left at the source.
fn has_moved<D: Broker, R: Abort + AllocGlobal + Wait>(rt: &R, topics: &D) -> bool {
    let seat = sit(rt, topics, T);
    let left = asked(rt, topics, &seat, "deadnext s");
    let is_none = matches!(left, Reply::NoDead);
    drop(left);
    topics.detach(rt, seat);
    is_none
}

/// A second at most, in which nobody asks for anything that changes a topic: whether the letter is moved in it.
fn moves_in_time<D: Broker, R: Abort + AllocGlobal + Wait + Clock>(
    rt: &R,
    topics: &D,
    errands: &mut D::Tasks,
) -> bool {
    for _ in 0..50 {
        do_all(rt, topics, errands);
        if has_moved(rt, topics) {
            return true;
        }
        thread::sleep(rt, Duration::from_millis(20));
    }
    false
}

/// The letter stays while it is refused, and is not tried at each store.
fn check_stays<D: Broker, R: Abort + AllocGlobal + Wait + Clock>(
    rt: &R,
    topics: &D,
    errands: &mut D::Tasks,
) {
    do_all(rt, topics, errands);
    let tasks = store_often(rt, topics, errands, 20);
    assert!(rt; tasks < 40, "{tasks} tasks for 20 stores");
    assert!(rt; !has_moved(rt, topics));
}

/// It moves once it is not refused any more, and the courier leaves no producer behind.
fn check_moves<D: Broker, R: Abort + AllocGlobal + Wait + Clock>(
    rt: &R,
    topics: &D,
    errands: &mut D::Tasks,
) {
    assert!(rt; moves_in_time(rt, topics, errands), "the letter lies");
    check_letters(rt, topics);
    let seat = sit(rt, topics, GRAVE);
    play(rt, topics, &seat, &[COURIER]);
    topics.detach(rt, seat);
}

/// The dead-letter topic has no free seat.
struct Full;

impl Scene for Full {
    fn play<D: Broker, R: Abort + AllocGlobal + Wait + Clock>(&self, rt: &R, keeper: D::Rows) {
        let topics: D = open(rt, keeper, 2);
        let (one, other) = (sit(rt, &topics, GRAVE), sit(rt, &topics, GRAVE));
        die(rt, &topics);
        let mut errands = D::tasks(rt);
        check_stays(rt, &topics, &mut errands);
        topics.detach(rt, one);
        topics.detach(rt, other);
        check_moves(rt, &topics, &mut errands);
        drop(errands);
        drop(topics);
    }
}

#[test]
fn a_letter_for_a_full_topic_is_tried_again(rt: HostRuntime) {
    with_rows(&rt, &Full);
}

/// Somebody else is at the dead-letter topic by the courier's name.
struct Taken;

fn give_up<D: Broker, R: Abort + AllocGlobal + Wait>(rt: &R, topics: &D, seat: D::Seat) {
    play(rt, topics, &seat, &["drop 1"]);
    topics.detach(rt, seat);
}

impl Scene for Taken {
    fn play<D: Broker, R: Abort + AllocGlobal + Wait + Clock>(&self, rt: &R, keeper: D::Rows) {
        let topics: D = open(rt, keeper, 8);
        let seat = sit(rt, &topics, GRAVE);
        play(rt, &topics, &seat, &[COURIER]);
        die(rt, &topics);
        let mut errands = D::tasks(rt);
        check_stays(rt, &topics, &mut errands);
        give_up(rt, &topics, seat);
        check_moves(rt, &topics, &mut errands);
        drop(errands);
        drop(topics);
    }
}

#[test]
fn a_letter_whose_courier_is_refused_is_tried_again(rt: HostRuntime) {
    with_rows(&rt, &Taken);
}

/// The dead-letter topic is deleted after so many tasks of the thread and steps of its courier.
#[derive(Clone, Copy)]
struct Deletion {
    steps: u32,
}

impl Scene for Deletion {
    fn play<D: Broker, R: Abort + AllocGlobal + Wait + Clock>(&self, rt: &R, keeper: D::Rows) {
        let topics: D = open(rt, keeper, 4);
        die(rt, &topics);
        let mut errands = D::tasks(rt);
        for _ in 0..self.steps {
            topics.keep_once(rt, &mut errands);
        }
        let seat = sit(rt, &topics, GRAVE);
        drop(topics.call(rt, &seat, Request::DeleteTopic));
        topics.detach(rt, seat);
        let moves = moves_in_time(rt, &topics, &mut errands);
        assert!(rt; moves, "the letter lies, after {} steps", self.steps);
        drop(errands);
        drop(topics);
    }
}

#[test]
fn a_letter_goes_on_whose_topic_is_deleted_meanwhile(rt: HostRuntime) {
    for steps in 0..16 {
        with_rows(&rt, &Deletion { steps });
    }
}
