// A topic is deleted: what is left of it stands, the rows of others stay, and it goes on from that.
use super::disks::on_disks;
use super::keepers::in_memory;
use super::keeps::{Keeps, Scene};
use super::plays::{
    T, U, adopted, check_left, check_stands, fill_and_trim, play, play_rounds, publish_more,
    resumed, round, trimmed,
};
use position_core::Fault;
use std::process::Abort;

/// A topic whose name begins as that of `T` does.
const LONGER: &str = "persistent://public/default/t2";

/// A message that is acknowledged, one that died, and one that comes again.
const MORE: &str = "dispatch s 1000
dispatch s 1000
ack 1 CAAQRw==
nack 1 CAAQRg== 1000
tick s 1100
dispatch s 1100
nack 1 CAAQRg== 1100
tick s 1200
dispatch s 1200
nack 1 CAAQSA== 1200
tick s 1300
";

/// The dead letter is moved.
const MOVED: &str = "deaddone s 0\n";

/// How many messages the topic has had.
const HAD: u64 = 74;

/// A topic with rows in every table.
fn filled<K: Keeps, R: Abort + AllocGlobal>(rt: &R, keeper: &mut K, name: &str) -> K::Topic {
    let mut topic = trimmed(rt, keeper, name);
    publish_more::<K, R>(rt, &mut topic, 4);
    play_rounds(rt, keeper, &mut topic, &["", MORE]);
    topic
}

/// The topic is opened, asked these lines, and deleted. Then only what is left of it stands.
fn delete<K: Keeps, R: Abort + AllocGlobal>(rt: &R, keeper: &mut K, lines: &str) {
    let (_, mut topic) = resumed(rt, keeper, T);
    play::<K, R>(rt, &mut topic, lines);
    assert!(rt; keeper.delete(rt, &topic) == Ok(()));
    check_left(rt, keeper, T, HAD);
}

/// How many topics the last store wrote whole.
fn check_cleared<K: Keeps, R: Abort>(rt: &R, keeper: &K, wanted: u64) {
    assert_eq!(rt; keeper.written().cleared, wanted);
}

/// The topic goes on from what is left of it, and so does the other, by what changed.
fn begin_again<K: Keeps, R: Abort + AllocGlobal>(rt: &R, keeper: &mut K, other: &mut K::Topic) {
    let (_, mut again) = resumed(rt, keeper, T);
    fill_and_trim(rt, keeper, &mut again);
    round(rt, keeper, &mut again);
    check_cleared(rt, keeper, 0);
    check_stands(rt, keeper, &again);
    round(rt, keeper, other);
    check_cleared(rt, keeper, 0);
    check_stands(rt, keeper, other);
}

/// Deleted twice, while two others stand.
#[derive(Drop)]
struct Twice;

impl Scene for Twice {
    fn play<K: Keeps, R: Abort + AllocGlobal>(&self, rt: &R, mut keeper: K) {
        drop(filled(rt, &mut keeper, T));
        let mut other = filled(rt, &mut keeper, U);
        let longer = filled(rt, &mut keeper, LONGER);
        delete(rt, &mut keeper, MOVED);
        check_stands(rt, &mut keeper, &other);
        delete(rt, &mut keeper, "");
        check_stands(rt, &mut keeper, &longer);
        begin_again(rt, &mut keeper, &mut other);
    }
}

#[test]
fn others_stay_in_memory(rt: HostRuntime) {
    in_memory(&rt, &Twice);
}

#[test]
fn others_stay_on_disks(rt: HostRuntime) {
    on_disks(&rt, &Twice);
}

/// Deleted while it is still open elsewhere: nothing is stored of that any more.
#[derive(Drop)]
struct StillOpen;

impl Scene for StillOpen {
    fn play<K: Keeps, R: Abort + AllocGlobal>(&self, rt: &R, mut keeper: K) {
        let mut topic = filled(rt, &mut keeper, T);
        let (_, mut again) = resumed(rt, &mut keeper, T);
        play::<K, R>(rt, &mut again, MOVED);
        assert!(rt; keeper.delete(rt, &again) == Ok(()));
        check_cleared(rt, &keeper, 0);
        assert!(rt; keeper.round(&mut topic) == Err(Fault::StoreFailed));
        assert!(rt; !keeper.has_failed());
        check_left(rt, &mut keeper, T, HAD);
    }
}

#[test]
fn one_that_is_open_is_stored_no_more(rt: HostRuntime) {
    in_memory(&rt, &StillOpen);
}

/// Deleted, and adopted.
#[derive(Drop)]
struct Adopted;

impl Scene for Adopted {
    fn play<K: Keeps, R: Abort + AllocGlobal>(&self, rt: &R, mut keeper: K) {
        drop(filled(rt, &mut keeper, T));
        let other = filled(rt, &mut keeper, U);
        let mut keeper = adopted(rt, keeper);
        delete(rt, &mut keeper, MOVED);
        let mut keeper = adopted(rt, keeper);
        check_left(rt, &mut keeper, T, HAD);
        check_stands(rt, &mut keeper, &other);
    }
}

#[test]
fn what_is_left_stands_when_opened_again(rt: HostRuntime) {
    in_memory(&rt, &Adopted);
}
