// Rows that are no snapshot's: each breaks one rule, is refused and stays, and once mended is loaded again.
use super::breaks::{CONTENTS, COUNTS, LETTERS, PLACES, RUNS, SUBSCRIPTIONS, TOPICS};
use super::front_breaks::{AUTHORS, FRONTS, RULES};
use super::keepers::in_memory;
use super::keeps::{Keeps, Scene};
use super::plays::{FOUR, T, play_rounds, resumed, round, trimmed};
use position_core::Fault;
use std::process::Abort;

/// Two deaths, of which the first was moved, and two runs of what is acknowledged; beside them a
/// subscription with one run, and one message that was redelivered.
const PLAYED: &str = "subscribe s Shared 0 push:10 0 100 1 - Earliest
dispatch s 1000
dispatch s 1000
nack 1 CAAQAA== 1000
tick s 1100
dispatch s 1100
nack 1 CAAQAA== 1100
tick s 1200
nack 1 CAAQAQ== 1200
tick s 1300
dispatch s 1300
nack 1 CAAQAQ== 1300
tick s 1400
subscribe e Exclusive 0 push:10 0 60000 0 - Earliest
dispatch e 1000
dispatch e 1000
ack 2 CAAQAQ==
";

const STORED: &str = "deaddone s 0
dispatch s 1400
dispatch s 1400
ack 1 CAAQAw==
nack 2 CAAQAA== 1400
tick e 61400
";

/// The keeper over its database after the statement.
pub(super) fn after<K: Keeps, R: Abort + AllocGlobal>(rt: &R, keeper: K, sql: &str) -> K {
    let mut database = keeper.into_database();
    assert!(rt; K::execute(&mut database, sql), "{sql}");
    K::adopt(rt, database).expect(rt, "not adopted")
}

/// The topic is played, with rounds, and this is its snapshot then.
pub(super) fn filled<K: Keeps, R: Abort + AllocGlobal>(rt: &R, keeper: &mut K) -> K::Snapshot {
    let mut topic = K::fresh(rt, T);
    play_rounds(rt, keeper, &mut topic, &[FOUR, PLAYED, STORED]);
    K::snapshot_of(rt, &topic)
}

/// The keeper after a statement that breaks a rule, and one that mends it.
fn check_break<K: Keeps, R: Abort + AllocGlobal>(
    rt: &R,
    keeper: K,
    snapshot: &K::Snapshot,
    wrong: &str,
    right: &str,
) -> K {
    let mut broken = after(rt, keeper, wrong);
    assert!(rt;
        matches!(&broken.show(rt, T), Err(Fault::StoreFailed)),
        "{wrong}"
    );
    let mut mended = after(rt, broken, right);
    assert!(rt; mended.stands(snapshot), "{right}");
    mended
}

/// The same after each pair of statements.
fn check_breaks<K: Keeps, R: Abort + AllocGlobal>(
    rt: &R,
    mut keeper: K,
    snapshot: &K::Snapshot,
    breaks: &[(&str, &str)],
) {
    for (wrong, right) in breaks {
        keeper = check_break(rt, keeper, snapshot, wrong, right);
    }
}

#[derive(Drop)]
struct Broken {
    breaks: &'static [(&'static str, &'static str)],
}

impl Scene for Broken {
    fn play<K: Keeps, R: Abort + AllocGlobal>(&self, rt: &R, mut keeper: K) {
        let snapshot = filled(rt, &mut keeper);
        check_breaks(rt, keeper, &snapshot, self.breaks);
    }
}

/// The topic's first messages are gone.
#[derive(Drop)]
struct BrokenFront {
    breaks: &'static [(&'static str, &'static str)],
}

impl Scene for BrokenFront {
    fn play<K: Keeps, R: Abort + AllocGlobal>(&self, rt: &R, mut keeper: K) {
        let mut topic = trimmed(rt, &mut keeper, T);
        round(rt, &mut keeper, &mut topic);
        let snapshot = K::snapshot_of(rt, &topic);
        check_breaks(rt, keeper, &snapshot, self.breaks);
    }
}

/// With 's' and 'e' these are 64.
const MOST: &str =
    "INSERT INTO sub SELECT a.topic, 'x' || a.idx || b.idx || c.idx, 0 FROM entry a, entry b, entry c WHERE a.idx + b.idx + c.idx > 0 AND a.idx + b.idx + c.idx < 9";

#[derive(Drop)]
struct Most;

impl Scene for Most {
    fn play<K: Keeps, R: Abort + AllocGlobal>(&self, rt: &R, mut keeper: K) {
        drop(filled(rt, &mut keeper));
        let mut full = after(rt, keeper, MOST);
        assert!(rt; full.show(rt, T).is_ok());
    }
}

/// No message is left of a topic of which some are gone, and no row beside them tells of one: a topic may be so.
const NONE_LEFT: &str = "UPDATE entry SET topic = 'x'; UPDATE ack SET topic = 'x'";

#[derive(Drop)]
struct NoneLeft;

impl Scene for NoneLeft {
    fn play<K: Keeps, R: Abort + AllocGlobal>(&self, rt: &R, mut keeper: K) {
        let mut topic = trimmed(rt, &mut keeper, T);
        round(rt, &mut keeper, &mut topic);
        drop(topic);
        let mut emptied = after(rt, keeper, NONE_LEFT);
        let (left, again) = resumed(rt, &mut emptied, T);
        drop(again);
        assert_eq!(rt; K::had(&left), 64);
    }
}

#[test]
fn none_left(rt: HostRuntime) {
    in_memory(&rt, &NoneLeft);
}

#[test]
fn as_many_subscriptions_as_a_topic_may_have(rt: HostRuntime) {
    in_memory(&rt, &Most);
}

#[test]
fn subscriptions(rt: HostRuntime) {
    in_memory(
        &rt,
        &Broken {
            breaks: &SUBSCRIPTIONS,
        },
    );
}

#[test]
fn topics(rt: HostRuntime) {
    in_memory(&rt, &Broken { breaks: &TOPICS });
}

#[test]
fn places(rt: HostRuntime) {
    in_memory(&rt, &Broken { breaks: &PLACES });
}

#[test]
fn contents(rt: HostRuntime) {
    in_memory(&rt, &Broken { breaks: &CONTENTS });
}

#[test]
fn runs(rt: HostRuntime) {
    in_memory(&rt, &Broken { breaks: &RUNS });
}

#[test]
fn letters(rt: HostRuntime) {
    in_memory(&rt, &Broken { breaks: &LETTERS });
}

#[test]
fn counts(rt: HostRuntime) {
    in_memory(&rt, &Broken { breaks: &COUNTS });
}

#[test]
fn rules(rt: HostRuntime) {
    in_memory(&rt, &Broken { breaks: &RULES });
}

#[test]
fn fronts(rt: HostRuntime) {
    in_memory(&rt, &BrokenFront { breaks: &FRONTS });
}

#[test]
fn authors(rt: HostRuntime) {
    in_memory(&rt, &BrokenFront { breaks: &AUTHORS });
}
