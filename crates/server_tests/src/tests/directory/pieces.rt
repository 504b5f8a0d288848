// A topic of many messages is opened piece by piece: who wants it waits, and all others are served.
use super::broker::Broker;
use super::chime::{Chime, bell};
use super::letters::play;
use super::stops::again;
use super::world::{Scene, asked, open, settle, sit, topic_name, with_rows};
use broker_parts::{Coming, Outcome, Waiter};
use delivery_machine::{Fault, Reply};
use std::process::Abort;
use std::rt::Clock;
use std::sync::{Arc, Wait};
use std::test::*;

const T: &str = "persistent://public/default/t";

const U: &str = "persistent://public/default/u";

/// More messages than are read at a time.
const LENGTH: u64 = 400;

fn publish<D: Broker, R: Abort + AllocGlobal + Wait + Clock>(
    rt: &R,
    topics: &D,
    seat: &D::Seat,
    number: u64,
) {
    let line = format!(in rt.alloc(); "publish 1 {number} - aGk= 1000");
    let line = line.expect(rt, "no memory");
    drop(asked(rt, topics, seat, line.as_str()));
}

/// A broker that was started again, with so many messages in the rows of a topic that is not open.
fn with_many<D: Broker, R: Abort + AllocGlobal + Wait + Clock>(rt: &R, keeper: D::Rows) -> D {
    let topics: D = open(rt, keeper, 8);
    let seat = sit(rt, &topics, T);
    play(rt, &topics, &seat, &["producer p -"]);
    for number in 0..LENGTH {
        publish(rt, &topics, &seat, number);
    }
    settle(rt, &topics);
    topics.detach(rt, seat);
    again(rt, topics)
}

/// Comes to the topic, which is not open.
fn wait_for<D: Broker, R: Abort + AllocGlobal + Wait>(
    rt: &R,
    topics: &D,
    chime: &Arc<Chime>,
) -> Waiter<Chime> {
    let chime = Arc::try_clone(chime).expect(rt, "no memory");
    match topics.attach(rt, &topic_name(rt, T), false, chime) {
        Ok(Coming::Waits(waiter)) => waiter,
        Ok(Coming::Seated(_)) => panic!(rt; "a seat, and nothing was read"),
        Err(_) => panic!(rt; "refused"),
    }
}

fn expect_outcome<R: Abort>(rt: &R, got: Option<Outcome>, want: Option<Outcome>) {
    assert_eq!(rt; got, want);
}

fn expect_rung<R: Abort>(rt: &R, chime: &Chime, want: bool) {
    assert_eq!(rt; chime.is_rung(), want);
}

fn check_waiter<R: Abort + Wait>(
    rt: &R,
    waiter: &Waiter<Chime>,
    chime: &Chime,
    want: Option<Outcome>,
) {
    expect_outcome(rt, waiter.outcome(rt), want);
    expect_rung(rt, chime, want.is_some());
}

fn expect_progress<R: Abort>(rt: &R, reply: &Reply, want: u64) {
    match reply {
        Reply::Progress { durable, length } => {
            assert_eq!(rt; (*durable, *length), (want, want));
        }
        _ => panic!(rt; "no progress"),
    }
}

/// So many messages are there, and all are stored.
fn check_length<D: Broker, R: Abort + AllocGlobal + Wait>(
    rt: &R,
    topics: &D,
    seat: &D::Seat,
    want: u64,
) {
    let reply = asked(rt, topics, seat, "progress");
    expect_progress(rt, &reply, want);
    drop(reply);
}

/// One task of the storing thread.
fn do_one<D: Broker, R: Abort + Wait + Clock>(rt: &R, topics: &D, tasks: &mut D::Tasks) {
    let did = topics.keep_once(rt, tasks);
    assert!(rt; did);
}

/// Between two pieces of the one topic another is made, and a message of it is stored.
fn publish_between<D: Broker, R: Abort + AllocGlobal + Wait + Clock>(
    rt: &R,
    topics: &D,
    tasks: &mut D::Tasks,
) {
    do_one(rt, topics, tasks);
    let seat = sit(rt, topics, U);
    play(
        rt,
        topics,
        &seat,
        &["producer q -", "publish 1 0 - aGk= 1000"],
    );
    do_one(rt, topics, tasks);
    check_length(rt, topics, &seat, 1);
    topics.detach(rt, seat);
}

#[derive(Clone, Copy)]
struct Long;

impl Scene for Long {
    fn play<D: Broker, R: Abort + AllocGlobal + Wait + Clock>(&self, rt: &R, keeper: D::Rows) {
        let topics: D = with_many(rt, keeper);
        let (first, second, third) = (bell(rt), bell(rt), bell(rt));
        let one = wait_for(rt, &topics, &first);
        let other = wait_for(rt, &topics, &second);
        let gone = wait_for(rt, &topics, &third);
        let mut tasks = D::tasks(rt);
        publish_between(rt, &topics, &mut tasks);
        check_waiter(rt, &one, &first, None);
        gone.leave(rt);
        do_one(rt, &topics, &mut tasks);
        drop(tasks);
        check_waiter(rt, &one, &first, Some(Outcome::Open));
        check_waiter(rt, &other, &second, Some(Outcome::Open));
        expect_rung(rt, &third, false);
        one.leave(rt);
        other.leave(rt);
        let seat = sit(rt, &topics, T);
        check_length(rt, &topics, &seat, LENGTH);
        topics.detach(rt, seat);
    }
}

#[test]
fn who_wants_a_topic_of_many_messages_waits_and_others_are_served(rt: HostRuntime) {
    with_rows(&rt, &Long);
}

#[derive(Clone, Copy)]
struct Closing;

impl Scene for Closing {
    fn play<D: Broker, R: Abort + AllocGlobal + Wait + Clock>(&self, rt: &R, keeper: D::Rows) {
        let topics: D = with_many(rt, keeper);
        let chime = bell(rt);
        let waiter = wait_for(rt, &topics, &chime);
        check_waiter(rt, &waiter, &chime, None);
        topics.close(rt);
        check_waiter(
            rt,
            &waiter,
            &chime,
            Some(Outcome::Refused(Fault::StoreFailed)),
        );
        waiter.leave(rt);
    }
}

#[test]
fn who_waits_is_refused_where_the_store_fails(rt: HostRuntime) {
    with_rows(&rt, &Closing);
}
