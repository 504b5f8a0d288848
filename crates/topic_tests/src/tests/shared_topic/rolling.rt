// Threads at one cell, of which some begin the journal anew between the others' calls.
use super::asks::{Ask, event_of, name, size};
use delivery_machine::{Reply, Topic};
use std::alloc::AllocError;
use std::process::Abort;
use std::sync::{Mutex, Wait};
use std::test::Fail;
use std::thread;
use std::thread::Threads;
use topic_core::TopicCore;
use topic_shared::{Cell, LineLimit, SeatCount};

static NAMES: [&str; 4] = ["a", "b", "c", "d"];

const MESSAGES: u8 = 40;

/// The number that a producer got; 0 where there is none.
fn producer_in(reply: &Reply) -> u64 {
    match reply {
        Reply::ProducerAdded { producer, .. } => *producer,
        _ => 0,
    }
}

/// How many messages the topic has.
fn length_in(reply: &Reply) -> u64 {
    match reply {
        Reply::Progress { length, .. } => *length,
        _ => 0,
    }
}

fn asked<R: Wait + Abort + AllocGlobal, T: Topic + Drop>(
    rt: &R,
    cell: &Mutex<Cell<T>>,
    who: &str,
    ask: Ask,
) -> Reply {
    let event = event_of(rt, who, ask);
    let receipt = cell.lock(rt).call(1, event);
    receipt.expect(rt, "answered").reply
}

fn connect<R: Wait + Abort + AllocGlobal, T: Topic + Drop>(
    rt: &R,
    cell: &Mutex<Cell<T>>,
    who: &str,
) -> u64 {
    let reply = asked(rt, cell, who, Ask::Connect);
    let producer = producer_in(&reply);
    drop(reply);
    producer
}

fn publish<R: Wait + Abort + AllocGlobal, T: Topic + Drop>(
    rt: &R,
    cell: &Mutex<Cell<T>>,
    who: &str,
    producer: u64,
    sequence: i64,
) {
    drop(asked(rt, cell, who, Ask::Publish { producer, sequence }));
}

/// Publishes, and begins the journal anew now and then.
fn publish_all<R: Wait + Abort + AllocGlobal, T: Topic + Drop>(
    rt: &R,
    cell: &Mutex<Cell<T>>,
    who: &str,
    producer: u64,
) {
    for sequence in 0..MESSAGES {
        let sequence = i64::from(sequence);
        publish(rt, cell, who, producer, sequence);
        if sequence % 4 == 0 {
            cell.lock(rt).roll();
        }
    }
}

// What one of several threads does with what they share.
trait Job {
    fn go<R: Wait + Abort + AllocGlobal>(&self, rt: &R, which: usize) -> u64;
}

impl Job for Mutex<Cell<TopicCore>> {
    fn go<R: Wait + Abort + AllocGlobal>(&self, rt: &R, which: usize) -> u64 {
        let who = NAMES[which % 4];
        let producer = connect(rt, self, who);
        publish_all(rt, self, who, producer);
        producer
    }
}

fn by_four<X: Job + Sync, R: Threads + Wait + Abort + AllocGlobal + Sync>(
    rt: &R,
    shared: &X,
) -> Result<Vec<u64>, AllocError> {
    thread::map_indices(rt, rt.alloc(), 4, &|i| shared.go(rt, i))
}

fn new_cell<R: Abort + AllocGlobal>(rt: &R) -> Mutex<Cell<TopicCore>> {
    let limit = LineLimit::new(64).expect(rt, "a limit");
    let seats = SeatCount::new(4).expect(rt, "seats");
    let topic = TopicCore::new(rt.alloc(), name(rt), size(rt));
    let cell = Cell::new(rt.alloc(), topic, limit, seats);
    Mutex::new(cell.expect(rt, "no memory"))
}

fn check_producers<R: Abort>(rt: &R, producers: &[u64]) {
    for producer in producers {
        assert!(rt; *producer > 0);
    }
}

fn check_length<R: Wait + Abort + AllocGlobal, T: Topic + Drop>(
    rt: &R,
    cell: &Mutex<Cell<T>>,
    want: u64,
) {
    let reply = asked(rt, cell, "a", Ask::Progress);
    assert_eq!(rt; length_in(&reply), want);
    drop(reply);
}

fn check_cell<R: Threads + Wait + Abort + AllocGlobal + Sync>(
    rt: &R,
    cell: &Mutex<Cell<TopicCore>>,
) -> Result<(), AllocError> {
    let producers = by_four(rt, cell)?;
    check_producers(rt, &producers);
    check_length(rt, cell, 160);
    Ok(())
}

#[test]
fn rolls_leave_room_for_all(rt: HostRuntime) -> Result<(), Fail> {
    check_cell(&rt, &new_cell(&rt))?;
    Ok(())
}
