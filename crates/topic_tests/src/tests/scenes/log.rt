// Each call of a log at ample memory, over several segments and ledgers.
use super::message::message_at;
use entry_log::EntryLog;
use position_core::{LedgerSize, Position};
use std::process::Abort;

fn at(ledger: u64, entry: u64) -> Position {
    Position { ledger, entry }
}

fn append<R: Abort + AllocGlobal>(rt: &R, log: &mut EntryLog) {
    if log.is_full() {
        panic!(rt; "full");
    }
    let message = message_at(rt, log.next_position(), None);
    log.append(rt.alloc(), message).expect(rt, "no memory");
}

/// A log of so many messages, with ledgers of so many.
fn log_of<R: Abort + AllocGlobal>(rt: &R, count: usize, size: u32) -> EntryLog {
    let size = LedgerSize::new(size).expect(rt, "no ledger size");
    let mut log = EntryLog::new(rt.alloc(), size);
    for _ in 0..count {
        append(rt, &mut log);
    }
    log
}

fn position_of(log: &EntryLog, index: usize) -> Option<Position> {
    log.get(index).map(|message| message.position())
}

fn check_at<R: Abort>(rt: &R, log: &EntryLog, index: usize, want: Option<Position>) {
    assert!(rt; position_of(log, index) == want);
}

fn check_index<R: Abort>(rt: &R, log: &EntryLog, position: Position, want: Option<usize>) {
    assert!(rt; log.index_of(position) == want);
}

fn check_next<R: Abort>(rt: &R, log: &EntryLog, want: Position) {
    assert!(rt; log.next_position() == want);
}

fn check_len<R: Abort>(rt: &R, log: &EntryLog, want: usize) {
    assert!(rt; log.len() == want);
}

/// Whether the last message is taken back.
fn check_pop<R: Abort>(rt: &R, log: &mut EntryLog, want: bool) {
    assert!(rt; log.pop() == want);
}

/// The message of the index, in ledgers of a thousand.
fn check_message<R: Abort>(rt: &R, log: &EntryLog, index: usize) {
    let position = at(index as u64 / 1000, index as u64 % 1000);
    check_at(rt, log, index, Some(position));
    check_index(rt, log, position, Some(index));
}

fn check_messages<R: Abort>(rt: &R, log: &EntryLog) {
    for index in [
        0, 1, 31, 32, 999, 1000, 1023, 1024, 2047, 2048, 4095, 4096, 4863, 4864, 4991, 4992, 4999,
    ] {
        check_message(rt, log, index);
    }
}

fn check_beyond<R: Abort>(rt: &R, log: &EntryLog) {
    check_at(rt, log, 5000, None);
    check_index(rt, log, at(0, 1000), None);
    check_index(rt, log, at(5, 0), None);
    check_index(rt, log, at(7, 3), None);
    check_next(rt, log, at(5, 0));
}

#[test]
fn messages_stand_at_their_indexes(rt: HostRuntime) {
    let log = log_of(&rt, 5000, 1000);
    check_len(&rt, &log, 5000);
    assert!(rt; !log.is_full());
    check_messages(&rt, &log);
    check_beyond(&rt, &log);
    drop(log);
}

#[test]
fn an_empty_log_has_nothing(rt: HostRuntime) {
    let mut log = log_of(&rt, 0, 1);
    check_at(&rt, &log, 0, None);
    check_index(&rt, &log, at(0, 0), None);
    check_pop(&rt, &mut log, false);
    check_next(&rt, &log, at(0, 0));
    drop(log);
}

/// The log has so many messages, and none at the next position.
fn check_end<R: Abort>(rt: &R, log: &EntryLog, count: usize, next: Position) {
    check_len(rt, log, count);
    check_index(rt, log, next, None);
    check_next(rt, log, next);
}

fn take_back<R: Abort + AllocGlobal>(rt: &R, log: &mut EntryLog, count: usize) {
    let next = log.next_position();
    append(rt, log);
    check_index(rt, log, next, Some(count));
    check_pop(rt, log, true);
    check_end(rt, log, count, next);
    check_pop(rt, log, false);
    check_len(rt, log, count);
    append(rt, log);
    check_at(rt, log, count, Some(next));
}

/// At the seams of runs, of segments and of ledgers too, the log goes on as if the message had never come.
#[test]
fn the_last_message_is_taken_back(rt: HostRuntime) {
    for count in [
        0, 1, 31, 32, 33, 511, 512, 992, 1023, 1024, 1025, 1056, 2048,
    ] {
        let mut log = log_of(&rt, count, 512);
        take_back(&rt, &mut log, count);
        drop(log);
    }
}

fn roll<R: Abort + AllocGlobal>(rt: &R, log: &mut EntryLog) {
    log.roll();
    check_next(rt, log, at(1, 0));
    check_pop(rt, log, false);
    append(rt, log);
    check_next(rt, log, at(1, 1));
    check_pop(rt, log, true);
    check_next(rt, log, at(1, 0));
    check_len(rt, log, 3);
}

#[test]
fn a_roll_begins_the_next_ledger(rt: HostRuntime) {
    let mut log = log_of(&rt, 3, 50);
    roll(&rt, &mut log);
    drop(log);
}

/// Ledgers that were left before they were full: three messages in the first, two in the second.
fn check_left<R: Abort>(rt: &R, log: &EntryLog) {
    check_index(rt, log, at(0, 2), Some(2));
    check_index(rt, log, at(0, 3), None);
    check_index(rt, log, at(1, 1), Some(4));
    check_index(rt, log, at(2, 0), Some(5));
    check_index(rt, log, at(2, 1), None);
    check_index(rt, log, at(u64::MAX, u64::MAX), None);
}

#[test]
fn an_index_is_found_past_a_ledger_that_was_left(rt: HostRuntime) {
    let mut log = log_of(&rt, 3, 50);
    log.roll();
    append(&rt, &mut log);
    go_on(&rt, &mut log);
    check_left(&rt, &log);
    drop(log);
}

/// One more message in this ledger, and one in the next.
fn go_on<R: Abort + AllocGlobal>(rt: &R, log: &mut EntryLog) {
    append(rt, log);
    log.roll();
    append(rt, log);
}

fn check_copy<R: Abort + AllocGlobal>(rt: &R, copy: &mut EntryLog) {
    check_len(rt, copy, 3000);
    check_next(rt, copy, at(3, 0));
    check_at(rt, copy, 2999, Some(at(2, 999)));
    for _ in 0..100 {
        append(rt, copy);
    }
}

#[test]
fn a_copy_stays_as_it_is(rt: HostRuntime) {
    let mut log = log_of(&rt, 3000, 1000);
    let mut copy = log.copy().expect(&rt, "no memory");
    go_on(&rt, &mut log);
    check_copy(&rt, &mut copy);
    check_len(&rt, &log, 3002);
    check_at(&rt, &log, 3001, Some(at(4, 0)));
    check_at(&rt, &copy, 3001, Some(at(3, 1)));
    drop(copy);
    drop(log);
}
