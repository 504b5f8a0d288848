// A journal of eight lines, which is full after five: one is the topic's own, and two are kept for ends.
use super::asks::{Ask, event_of, name, size};
use delivery_machine::{Opened, Reply, Saved, Topic};
use position_core::Fault;
use std::process::Abort;
use topic_core::TopicCore;
use topic_shared::{Cell, Journal, LineLimit, SeatCount};

#[derive(Clone, Copy, PartialEq, Eq)]
enum Came {
    Added(u64),
    Joined(u64),
    Published(u64),
    Done,
    Full,
    Other,
}

fn what_came(reply: &Reply) -> Came {
    match reply {
        Reply::ProducerAdded { producer, .. } => Came::Added(*producer),
        Reply::Subscribed { consumer } => Came::Joined(*consumer),
        Reply::Published { length, .. } => Came::Published(*length),
        Reply::Done => Came::Done,
        _ => Came::Other,
    }
}

fn asked<R: Abort + AllocGlobal, T: Topic + Drop>(rt: &R, cell: &mut Cell<T>, ask: Ask) -> Came {
    match cell.call(1, event_of(rt, "p", ask)) {
        Ok(receipt) => what_came(&receipt.reply),
        Err(Fault::JournalFull) => Came::Full,
        Err(_) => Came::Other,
    }
}

fn check_asked<R: Abort + AllocGlobal, T: Topic + Drop>(
    rt: &R,
    cell: &mut Cell<T>,
    ask: Ask,
    want: Came,
) {
    assert!(rt; asked(rt, cell, ask) == want);
}

fn check_full<R: Abort, T: Topic>(rt: &R, cell: &Cell<T>, want: bool) {
    assert!(rt; cell.is_full() == want);
}

fn check_lines<R: Abort, T: Topic>(rt: &R, cell: &Cell<T>, want: u64) {
    assert_eq!(rt; cell.lines(), want);
}

fn check_settled<R: Abort, T: Topic>(rt: &R, cell: &Cell<T>, want: bool) {
    assert!(rt; cell.is_settled() == want);
}

fn check_storing<R: Abort, T: Topic>(rt: &R, cell: &Cell<T>, want: bool) {
    assert!(rt; cell.needs_storing() == want);
}

fn new_cell<R: Abort + AllocGlobal>(rt: &R, limit: u32) -> Cell<TopicCore> {
    let limit = LineLimit::new(limit).expect(rt, "no limit");
    let seats = SeatCount::new(1).expect(rt, "no seats");
    let topic = TopicCore::new(rt.alloc(), name(rt), size(rt));
    Cell::new(rt.alloc(), topic, limit, seats).expect(rt, "no memory")
}

fn publishing(sequence: i64) -> Ask {
    Ask::Publish {
        producer: 1,
        sequence,
    }
}

/// A producer and a consumer come, and three messages.
fn push_three<R: Abort + AllocGlobal, T: Topic + Drop>(rt: &R, cell: &mut Cell<T>) {
    check_asked(rt, cell, Ask::Connect, Came::Added(1));
    check_asked(rt, cell, Ask::Join, Came::Joined(1));
    check_asked(rt, cell, publishing(0), Came::Published(1));
    check_full(rt, cell, false);
    check_asked(rt, cell, publishing(1), Came::Published(2));
    check_asked(rt, cell, publishing(2), Came::Published(3));
}

/// A cell with a producer, a consumer and three messages.
fn with_three<R: Abort + AllocGlobal>(rt: &R) -> Cell<TopicCore> {
    let mut cell = new_cell(rt, 8);
    push_three(rt, &mut cell);
    cell
}

/// Who was there goes.
fn go_both<R: Abort + AllocGlobal, T: Topic + Drop>(rt: &R, cell: &mut Cell<T>) {
    check_asked(rt, cell, Ask::Disconnect { producer: 1 }, Came::Done);
    check_asked(rt, cell, Ask::Leave { consumer: 1 }, Came::Done);
}

fn check_journal<R: Abort>(rt: &R, journal: &Journal, want: usize) {
    assert_eq!(rt; journal.len(), want);
}

fn fill<R: Abort + AllocGlobal, T: Topic + Drop>(rt: &R, mut cell: Cell<T>) {
    check_asked(rt, &mut cell, publishing(3), Came::Full);
    check_full(rt, &cell, true);
    go_both(rt, &mut cell);
    check_asked(rt, &mut cell, Ask::Progress, Came::Full);
    check_lines(rt, &cell, 7);
    check_journal(rt, &cell.into_journal(), 7);
}

#[test]
fn ends_have_their_lines(rt: HostRuntime) {
    fill(&rt, with_three(&rt));
}

fn roll<R: Abort + AllocGlobal, T: Topic + Drop>(rt: &R, mut cell: Cell<T>) {
    check_storing(rt, &cell, true);
    cell.view_taken();
    check_storing(rt, &cell, false);
    cell.roll();
    check_lines(rt, &cell, 0);
    check_settled(rt, &cell, true);
    check_asked(rt, &mut cell, publishing(3), Came::Published(4));
    check_settled(rt, &cell, false);
    check_storing(rt, &cell, true);
    check_lines(rt, &cell, 1);
}

#[test]
fn a_roll_makes_room(rt: HostRuntime) {
    roll(&rt, with_three(&rt));
}

fn check_enter<R: Abort, T: Topic>(rt: &R, cell: &mut Cell<T>, want: Result<u64, Fault>) {
    assert_eq!(rt; cell.enter(), want);
}

fn take_seat<R: Abort, T: Topic + Drop>(rt: &R, mut cell: Cell<T>) {
    check_settled(rt, &cell, true);
    check_enter(rt, &mut cell, Ok(1));
    check_enter(rt, &mut cell, Err(Fault::NoRoom));
    cell.exit(2);
    check_enter(rt, &mut cell, Err(Fault::NoRoom));
    cell.exit(1);
    check_enter(rt, &mut cell, Ok(1));
}

#[test]
fn a_seat_is_taken_once(rt: HostRuntime) {
    take_seat(&rt, new_cell(&rt, 8));
}

fn messages_viewed<R: Abort, T: Opened + Drop>(rt: &R, cell: &Cell<T>) -> usize {
    let snapshot = cell.view().expect(rt, "no memory");
    let count = snapshot.log().count();
    drop(snapshot);
    count
}

fn check_viewed<R: Abort, T: Opened + Drop>(rt: &R, cell: &Cell<T>, want: usize) {
    assert_eq!(rt; messages_viewed(rt, cell), want);
}

fn is_three(reply: &Reply) -> bool {
    matches!(reply, Reply::Durable(3))
}

/// There is room for one more line, and what a snapshot has is stored.
fn store_viewed<R: Abort, T: Opened + Drop>(rt: &R, cell: &mut Cell<T>) {
    assert!(rt; cell.ready().is_ok());
    check_viewed(rt, cell, 3);
    let reply = cell.stored();
    assert!(rt; is_three(&reply));
    drop(reply);
}

fn check_unready<R: Abort, T: Opened + Drop>(rt: &R, cell: &mut Cell<T>) {
    assert_eq!(rt; cell.ready(), Err(Fault::JournalFull));
}

fn store<R: Abort + AllocGlobal, T: Opened + Drop>(rt: &R, mut cell: Cell<T>) {
    go_both(rt, &mut cell);
    store_viewed(rt, &mut cell);
    check_lines(rt, &cell, 8);
    check_settled(rt, &cell, true);
    check_storing(rt, &cell, false);
    check_unready(rt, &mut cell);
}

#[test]
fn the_last_line_is_for_what_is_stored(rt: HostRuntime) {
    store(&rt, with_three(&rt));
}
