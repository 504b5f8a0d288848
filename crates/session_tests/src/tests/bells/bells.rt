// Who is rung.
use crate::tests::{expect_count, this_subscription};
use delivery_machine::{ConsumerNumber, Position, Reply};
use session_bells::{Asked, Bell, Bells, Rest};
use std::process::Abort;
use std::sync::atomic::{AtomicU64, Ordering};
use std::sync::{Arc, Wait};

/// A bell that counts how often it was rung.
#[derive(Drop)]
pub(super) struct Counter {
    rings: AtomicU64,
}

impl Counter {
    pub(super) fn rings(&self) -> u64 {
        self.rings.load(Ordering::SeqCst)
    }
}

impl Bell for Counter {
    fn ring<R: Wait>(&self, _rt: &R) {
        self.rings.fetch_add(1, Ordering::SeqCst);
    }
}

fn new_bell<R: Abort + AllocGlobal>(rt: &R) -> Arc<Counter> {
    let counter = Counter {
        rings: AtomicU64::new(0),
    };
    Arc::new(rt.alloc(), counter).expect(rt, "no memory")
}

fn enter<R: Abort>(rt: &R, bells: &mut Bells<Counter>, seat: u64, bell: Arc<Counter>) {
    assert!(rt; bells.enter(seat, bell).is_ok());
}

/// One with this bell sits at the seat.
pub(super) fn sit<R: Abort + AllocGlobal>(
    rt: &R,
    bells: &mut Bells<Counter>,
    seat: u64,
) -> Arc<Counter> {
    let bell = new_bell(rt);
    enter(
        rt,
        bells,
        seat,
        Arc::try_clone(&bell).expect(rt, "no memory"),
    );
    bell
}

fn prepare<R: Abort>(rt: &R, bells: &mut Bells<Counter>, asked: &Asked) {
    assert!(rt; bells.prepare(asked).is_ok());
}

/// The one at the seat joins as the consumer, and finds nothing to send.
fn join<R: Abort + AllocGlobal + Wait>(
    rt: &R,
    bells: &mut Bells<Counter>,
    seat: u64,
    consumer: ConsumerNumber,
) {
    let asked = Asked::Joins(this_subscription(rt));
    prepare(rt, bells, &asked);
    let reply = Reply::Subscribed { consumer };
    bells.answered(rt, seat, &asked, &reply);
    drop(reply);
    drop(asked);
    answer_idle(rt, bells, seat);
}

/// The one at the seat found nothing to send.
fn answer_idle<R: Wait>(rt: &R, bells: &mut Bells<Counter>, seat: u64) {
    bells.answered(rt, seat, &Asked::Dispatches, &Reply::Idle);
}

/// Bells, and those of the seats 1 and 2.
#[derive(Drop)]
struct Two {
    bells: Bells<Counter>,
    one: Arc<Counter>,
    two: Arc<Counter>,
}

fn two_seated<R: Abort + AllocGlobal>(rt: &R) -> Two {
    let mut bells = Bells::new(rt.alloc(), 0);
    let one = sit(rt, &mut bells, 1);
    let two = sit(rt, &mut bells, 2);
    Two { bells, one, two }
}

/// The two sit there as the consumers 1 and 2.
fn two_joined<R: Abort + AllocGlobal + Wait>(rt: &R) -> Two {
    let mut two = two_seated(rt);
    join(rt, &mut two.bells, 1, 1);
    join(rt, &mut two.bells, 2, 2);
    two
}

/// Whether the one at the seat may rest.
fn check_rest<R: Abort + Wait>(
    rt: &R,
    bells: &mut Bells<Counter>,
    seat: u64,
    more: Rest,
    want: bool,
) {
    assert!(rt; bells.rest(rt, seat, more) == want);
}

fn check_rings<R: Abort>(rt: &R, bell: &Counter, want: u64) {
    expect_count(rt, bell.rings(), want);
}

const FOR_MESSAGES: Rest = Rest {
    durable: None,
    messages: true,
};

const FOR_ROOM: Rest = Rest {
    durable: None,
    messages: false,
};

fn for_store(length: u64) -> Rest {
    Rest {
        durable: Some(length),
        messages: false,
    }
}

fn ring_all<R: Abort + Wait>(rt: &R, two: &mut Two) {
    check_rest(rt, &mut two.bells, 1, for_store(3), true);
    check_rest(rt, &mut two.bells, 2, for_store(4), true);
    two.bells.stored(rt, 3);
    check_rings(rt, &two.one, 1);
    check_rings(rt, &two.two, 0);
    check_rest(rt, &mut two.bells, 1, for_store(3), false);
    two.bells.stored(rt, 4);
    check_rings(rt, &two.one, 1);
    check_rings(rt, &two.two, 1);
}

#[test]
fn a_store_rings_whoever_waits_for_it(rt: HostRuntime) {
    let mut two = two_seated(&rt);
    ring_all(&rt, &mut two);
    drop(two);
}

/// The one at the seat sent a message to the consumer.
fn answer_sent<R: Wait>(rt: &R, bells: &mut Bells<Counter>, seat: u64, consumer: ConsumerNumber) {
    let sent = Reply::Sent {
        consumer,
        position: Position {
            ledger: 0,
            entry: 0,
        },
        count: 0,
    };
    bells.answered(rt, seat, &Asked::Dispatches, &sent);
    drop(sent);
}

fn ring_one<R: Abort + Wait>(rt: &R, two: &mut Two) {
    check_rest(rt, &mut two.bells, 1, FOR_MESSAGES, true);
    check_rest(rt, &mut two.bells, 2, FOR_MESSAGES, true);
    two.bells.stored(rt, 1);
    expect_count(rt, two.one.rings().saturating_add(two.two.rings()), 1);
    answer_sent(rt, &mut two.bells, 1, 2);
    check_rings(rt, &two.two, 1);
    check_rest(rt, &mut two.bells, 1, FOR_MESSAGES, false);
    answer_idle(rt, &mut two.bells, 1);
    check_rest(rt, &mut two.bells, 1, FOR_MESSAGES, true);
}

#[test]
fn a_store_rings_one_consumer(rt: HostRuntime) {
    let mut two = two_joined(&rt);
    ring_one(&rt, &mut two);
    drop(two);
}

fn ring_for_room<R: Abort + Wait>(rt: &R, two: &mut Two) {
    check_rest(rt, &mut two.bells, 1, FOR_MESSAGES, true);
    check_rest(rt, &mut two.bells, 2, FOR_MESSAGES, true);
    two.bells.stored(rt, 1);
    check_rings(rt, &two.one, 1);
    check_rest(rt, &mut two.bells, 1, FOR_ROOM, true);
    check_rings(rt, &two.two, 1);
}

#[test]
fn a_consumer_without_room_has_an_heir(rt: HostRuntime) {
    let mut two = two_joined(&rt);
    ring_for_room(&rt, &mut two);
    drop(two);
}

fn ring_heir<R: Abort + Wait>(rt: &R, two: &mut Two) {
    check_rest(rt, &mut two.bells, 2, FOR_MESSAGES, true);
    two.bells.answered(rt, 1, &Asked::Leaves(1), &Reply::Done);
    two.bells.exit(rt, 1);
    check_rings(rt, &two.one, 0);
    check_rings(rt, &two.two, 1);
}

#[test]
fn one_who_goes_has_an_heir(rt: HostRuntime) {
    let mut two = two_joined(&rt);
    ring_heir(&rt, &mut two);
    drop(two);
}
