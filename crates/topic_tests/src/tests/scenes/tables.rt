// That sets and counts are made where there is memory.
use super::message::{message_at, position_at};
use plain_lists::{CountTable, PositionSet, positions_up_to};
use position_core::{Message, Position};
use std::process::Abort;

const OTHER: Position = Position {
    ledger: 1,
    entry: 0,
};

fn check_has<R: Abort>(rt: &R, positions: &PositionSet, position: Position, want: bool) {
    assert!(rt; positions.contains(position) == want);
}

fn add_other<R: Abort>(rt: &R, positions: &mut PositionSet) {
    check_has(rt, positions, position_at(0), true);
    check_has(rt, positions, OTHER, false);
    positions.add(&[OTHER]).expect(rt, "no memory");
    check_has(rt, positions, position_at(0), true);
    check_has(rt, positions, OTHER, true);
}

fn check_before<R: Abort + AllocGlobal>(rt: &R, log: &[Message]) {
    let before = positions_up_to(rt.alloc(), log, OTHER).expect(rt, "no memory");
    assert!(rt; before.as_slice() == [position_at(0)].as_slice());
}

#[test]
fn a_set_has_the_whole_log(rt: HostRuntime) {
    let log = vec![in rt.alloc(); message_at(&rt, position_at(0), None)];
    let log = log.expect(&rt, "no memory");
    let mut positions = PositionSet::all_of(rt.alloc(), &log).expect(&rt, "no memory");
    add_other(&rt, &mut positions);
    check_before(&rt, &log);
    drop(positions);
    drop(log);
}

fn count_again<R: Abort + AllocGlobal>(rt: &R, counts: &mut CountTable, positions: &[Position]) {
    let done = counts.count_again(rt.alloc(), positions);
    done.expect(rt, "no memory");
}

fn check_count<R: Abort>(rt: &R, counts: &CountTable, position: Position, want: u32) {
    assert!(rt; counts.get(position) == want);
}

#[test]
fn counts_rise_one_by_one(rt: HostRuntime) {
    let first = position_at(0);
    let mut counts = CountTable::new(rt.alloc());
    count_again(&rt, &mut counts, &[first]);
    count_again(&rt, &mut counts, &[first, OTHER]);
    check_count(&rt, &counts, first, 2);
    check_count(&rt, &counts, OTHER, 1);
    counts.leave_out(&[first]);
    check_count(&rt, &counts, first, 0);
}
