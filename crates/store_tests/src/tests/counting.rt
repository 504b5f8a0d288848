// Topics are named, and counted without their messages being read.
use super::answers::topic_name;
use super::failing::with_limit;
use super::keepers::in_memory;
use super::keeps::{Keeps, Scene};
use super::plays::{FOUR, T, U, adopted, play, play_rounds, publish_more, resumed, round, trimmed};
use position_core::{Kind, TopicName};
use row_store::{SubscriptionCount, TopicCount};
use std::process::Abort;

/// Four messages more, each published a millisecond after the one before it, and a subscription that has done with none.
const LATER: &str = "publish 1 70 - - 1001
publish 1 71 - - 1002
publish 1 72 - - 1003
publish 1 73 - - 1004
subscribe t Exclusive 0 push:10 0 100 1 - Earliest
";

/// Of these four `s` acknowledges the first, the second dies in it, and the third is pending.
const WORK: &str = "dispatch s 2000
dispatch s 2000
ack 1 CAAQRg==
nack 1 CAAQRw== 2000
tick s 2100
dispatch s 2100
nack 1 CAAQRw== 2100
tick s 2200
dispatch s 2200
";

/// It has done with none.
const NONE_DONE: &str = "subscribe s Shared 0 push:10 0 100 1 - Earliest\n";

/// A topic is stored whose first 64 messages are gone.
fn fill<K: Keeps, R: Abort + AllocGlobal>(rt: &R, keeper: &mut K) {
    let mut topic = trimmed(rt, keeper, T);
    play_rounds(rt, keeper, &mut topic, &["", LATER, WORK]);
}

/// Another one is stored, and deleted.
fn fill_and_delete<K: Keeps, R: Abort + AllocGlobal>(rt: &R, keeper: &mut K) {
    let mut topic = trimmed(rt, keeper, U);
    round(rt, keeper, &mut topic);
    let (_, again) = resumed(rt, keeper, U);
    assert!(rt; keeper.delete(rt, &again) == Ok(()));
}

fn check_names<R: Abort + AllocGlobal>(rt: &R, found: &[TopicName], wanted: &[&str]) {
    assert_eq!(rt; found.len(), wanted.len());
    for (name, text) in found.iter().zip(wanted.iter()) {
        let is_it = name.is(&topic_name(rt, text));
        assert!(rt; is_it);
    }
}

/// What is kept of the topic.
fn counted<K: Keeps, R: Abort>(rt: &R, keeper: &mut K, name: &str) -> TopicCount {
    let found = keeper.count(name).expect(rt, "not counted");
    found.expect(rt, "nothing is in it")
}

/// How many messages are gone and kept, and when the first of these was published.
fn check_messages<R: Abort>(rt: &R, found: &TopicCount, wanted: (u64, u64, Option<u64>)) {
    assert_eq!(rt; (found.gone, found.kept, found.oldest), wanted);
    assert!(rt; found.retention.is_none());
}

/// How many messages it has acknowledged, how many are dead in it, and when the first was published that it has not acknowledged.
fn check_done<R: Abort>(rt: &R, found: &SubscriptionCount, wanted: (u64, u64, Option<u64>)) {
    assert_eq!(rt; (found.acknowledged, found.dead, found.oldest), wanted);
}

fn check_is<R: Abort>(rt: &R, found: &SubscriptionCount, name: &str, kind: Kind) {
    assert!(rt; found.name.as_str() == name && found.kind == kind);
}

/// Both subscriptions of the topic that was filled.
fn check_subscriptions<R: Abort>(rt: &R, found: &[SubscriptionCount]) {
    match found {
        [s, t] => {
            check_is(rt, s, "s", Kind::Shared);
            check_done(rt, s, (7, 1, Some(1002)));
            check_is(rt, t, "t", Kind::Exclusive);
            check_done(rt, t, (0, 0, Some(1000)));
        }
        _ => panic!(rt; "other subscriptions"),
    }
}

/// One topic is filled and another deleted, and neither is in memory.
#[derive(Drop)]
struct Two;

impl Scene for Two {
    fn play<K: Keeps, R: Abort + AllocGlobal>(&self, rt: &R, mut keeper: K) {
        fill(rt, &mut keeper);
        fill_and_delete(rt, &mut keeper);
        let mut keeper = adopted(rt, keeper);
        let names = keeper.topics().expect(rt, "no names");
        check_names(rt, &names, &[T, U]);
        let found = counted(rt, &mut keeper, T);
        check_messages(rt, &found, (64, 10, Some(1000)));
        check_subscriptions(rt, &found.subscriptions);
        assert!(rt; matches!(&keeper.count(U), Ok(None)));
    }
}

#[test]
fn one_that_is_filled_and_one_that_was_deleted(rt: HostRuntime) {
    in_memory(&rt, &Two);
}

/// A topic of many messages, each of whose statements may visit three rows.
#[derive(Drop)]
struct Long;

impl Scene for Long {
    fn play<K: Keeps, R: Abort + AllocGlobal>(&self, rt: &R, keeper: K) {
        let mut keeper = with_limit(rt, keeper);
        let mut topic = K::fresh(rt, T);
        play::<K, R>(rt, &mut topic, FOUR);
        publish_more::<K, R>(rt, &mut topic, 300);
        play::<K, R>(rt, &mut topic, NONE_DONE);
        round(rt, &mut keeper, &mut topic);
        let found = counted(rt, &mut keeper, T);
        check_messages(rt, &found, (0, 304, Some(1000)));
    }
}

#[test]
fn many_messages_are_counted_in_few_steps(rt: HostRuntime) {
    in_memory(&rt, &Long);
}
