// A round for want of memory: it is made, or the topic and its rows are as they were. Run with each allocation
// refused in turn (bench/memory), it shows what each refusal leaves; only what comes before the round ends the run.
use super::keepers::in_memory;
use super::keeps::{Keeps, Scene};
use super::plays::{T, adopted, play};
use position_core::Fault;
use std::process::Abort;

const FIRST: &str = "producer p -
publish 1 0 - aGk= 1000
publish 1 1 k - 1001
subscribe s Shared 0 push:10 0 100 1 - Earliest
";

const LATER: &str = "publish 1 2 - aGk= 1002
dispatch s 1000
ack 1 CAAQAA==
";

/// A load may be what memory is refused for, so it is made twice.
fn shows<K: Keeps>(keeper: &mut K, snapshot: &K::Snapshot) -> bool {
    keeper.stands(snapshot) || keeper.stands(snapshot)
}

/// The keeper with its database adopted again, where a store failed.
fn settled<K: Keeps, R: Abort + AllocGlobal>(rt: &R, keeper: K) -> K {
    if keeper.has_failed() {
        adopted(rt, keeper)
    } else {
        keeper
    }
}

/// What the topic had when it was stored last, and what it has.
#[derive(Drop)]
struct Before<K: Keeps> {
    rows: K::Snapshot,
    topic: K::Snapshot,
}

/// Whether the rows are as the outcome says: where the store failed, they are the old ones or the new.
fn is_right<K: Keeps>(keeper: &mut K, outcome: Result<u64, Fault>, before: &Before<K>) -> bool {
    match outcome {
        Ok(count) => count == 3 && shows(keeper, &before.topic),
        Err(Fault::NoMemory) => shows(keeper, &before.rows),
        Err(Fault::StoreFailed) => shows(keeper, &before.rows) || shows(keeper, &before.topic),
        Err(_) => false,
    }
}

/// The topic begins, and is stored.
fn begin<K: Keeps, R: Abort + AllocGlobal>(rt: &R, keeper: &mut K, topic: &mut K::Topic) {
    play::<K, R>(rt, topic, FIRST);
    assert!(rt; keeper.round(topic).is_ok(), "no memory");
}

/// The topic changes: what it had, and what it has.
fn change<K: Keeps, R: Abort + AllocGlobal>(rt: &R, topic: &mut K::Topic) -> Before<K> {
    let rows = K::snapshot_of(rt, topic);
    play::<K, R>(rt, topic, LATER);
    Before {
        rows,
        topic: K::snapshot_of(rt, topic),
    }
}

/// A round, which leaves the topic.
fn attempt<K: Keeps, R: Abort>(
    rt: &R,
    keeper: &mut K,
    topic: &mut K::Topic,
    had: &K::Snapshot,
) -> Result<u64, Fault> {
    let outcome = keeper.round(topic);
    assert!(rt; K::is_same(&K::snapshot_of(rt, topic), had));
    outcome
}

/// Once memory is there again the round is made.
fn check_again<K: Keeps, R: Abort>(
    rt: &R,
    keeper: &mut K,
    topic: &mut K::Topic,
    had: &K::Snapshot,
) {
    assert_eq!(rt; keeper.round(topic), Ok(3));
    assert!(rt; keeper.stands(had));
}

#[derive(Drop)]
struct Wanting;

impl Scene for Wanting {
    fn play<K: Keeps, R: Abort + AllocGlobal>(&self, rt: &R, mut keeper: K) {
        let mut topic = K::fresh(rt, T);
        begin(rt, &mut keeper, &mut topic);
        let before = change::<K, R>(rt, &mut topic);
        let outcome = attempt(rt, &mut keeper, &mut topic, &before.topic);
        assert_eq!(rt; keeper.has_failed(), outcome == Err(Fault::StoreFailed));
        let mut keeper = settled(rt, keeper);
        assert!(rt; is_right(&mut keeper, outcome, &before), "{outcome:?}");
        if outcome.is_err() {
            check_again(rt, &mut keeper, &mut topic, &before.topic);
        }
    }
}

#[test]
fn a_round_for_want_of_memory(rt: HostRuntime) {
    in_memory(&rt, &Wanting);
}
