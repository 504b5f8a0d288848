// A store that fails: the keeper refuses all until its database is adopted again.
use super::keepers::in_memory;
use super::keeps::{Keeps, Scene};
use super::plays::{FOUR, T, adopted, check_stands, play, round, view};
use position_core::Fault;
use std::process::Abort;

const NO_TABLES: &str =
    "DROP TABLE meta; DROP TABLE topic; DROP TABLE entry; DROP TABLE sub; DROP TABLE ack; DROP TABLE dead; DROP TABLE redelivery; DROP TABLE author; DROP TABLE retention";

/// A keeper over the database without tables, whose statements may visit three rows each.
pub(super) fn with_limit<K: Keeps, R: Abort + AllocGlobal>(rt: &R, keeper: K) -> K {
    let mut database = keeper.into_database();
    assert!(rt; K::execute(&mut database, NO_TABLES));
    K::limit(&mut database, 3);
    K::create(rt, database).expect(rt, "no tables")
}

/// Whether a store of the topic as it is, so many times over, is refused.
fn is_store_refused<K: Keeps, R: Abort + AllocGlobal>(
    rt: &R,
    keeper: &mut K,
    cell: &mut K::Topic,
    times: u64,
) -> bool {
    let mut parts = Vec::new(rt.alloc());
    for _ in 0..times {
        view(rt, keeper, cell, &mut parts);
    }
    matches!(&keeper.store(parts), Err(Fault::StoreFailed))
}

/// Whether the topic as it is cannot be stored.
fn is_refused<K: Keeps, R: Abort + AllocGlobal>(
    rt: &R,
    keeper: &mut K,
    cell: &mut K::Topic,
) -> bool {
    is_store_refused(rt, keeper, cell, 1)
        && keeper.round(cell) == Err(Fault::StoreFailed)
        && matches!(&keeper.show(rt, T), Err(Fault::StoreFailed))
}

fn fail<K: Keeps, R: Abort + AllocGlobal>(rt: &R, keeper: &mut K, other: &mut K::Topic) {
    play::<K, R>(rt, other, "producer q -\npublish 1 0 - - 2000\n");
    keeper.forget(rt, T);
    assert!(rt; keeper.round(other) == Err(Fault::StoreFailed));
    assert!(rt; keeper.has_failed());
}

/// Until it is adopted.
fn check_before<K: Keeps, R: Abort + AllocGlobal>(
    rt: &R,
    keeper: &mut K,
    one: &mut K::Topic,
    other: &mut K::Topic,
) {
    play::<K, R>(rt, one, FOUR);
    round(rt, keeper, one);
    assert!(rt; !keeper.has_failed());
    fail(rt, keeper, other);
    assert!(rt; is_refused(rt, keeper, one));
}

fn check_after<K: Keeps, R: Abort + AllocGlobal>(
    rt: &R,
    keeper: &mut K,
    one: &mut K::Topic,
    other: &mut K::Topic,
) {
    assert!(rt; !keeper.has_failed());
    check_stands(rt, keeper, one);
    keeper.forget(rt, T);
    round(rt, keeper, other);
    check_stands(rt, keeper, other);
    keeper.forget(rt, T);
    assert!(rt; keeper.round(one) == Err(Fault::StoreFailed));
    assert!(rt; !keeper.has_failed());
    check_stands(rt, keeper, other);
}

/// Another topic of the same name replaces all rows, for which each has to be visited. It does not go on from what stands
/// there, so that has to be forgotten first; no store of it was confirmed. One of the first was, so that one is stored no more.
#[derive(Drop)]
struct Limited;

impl Scene for Limited {
    fn play<K: Keeps, R: Abort + AllocGlobal>(&self, rt: &R, keeper: K) {
        let mut keeper = with_limit(rt, keeper);
        let mut one = K::fresh(rt, T);
        let mut other = K::fresh(rt, T);
        check_before(rt, &mut keeper, &mut one, &mut other);
        let mut keeper = adopted(rt, keeper);
        check_after(rt, &mut keeper, &mut one, &mut other);
    }
}

#[test]
fn after_a_failure_all_is_refused_until_it_is_adopted(rt: HostRuntime) {
    in_memory(&rt, &Limited);
}

fn check_twice<K: Keeps, R: Abort + AllocGlobal>(rt: &R, keeper: &mut K, cell: &mut K::Topic) {
    let stored = K::snapshot_of(rt, cell);
    play::<K, R>(rt, cell, "publish 1 4 - - 1004\n");
    assert!(rt; is_store_refused(rt, keeper, cell, 2));
    assert!(rt; !keeper.has_failed());
    assert!(rt; keeper.stands(&stored));
}

/// A topic that comes twice in a store is refused, and nothing else.
#[derive(Drop)]
struct Twice;

impl Scene for Twice {
    fn play<K: Keeps, R: Abort + AllocGlobal>(&self, rt: &R, mut keeper: K) {
        let mut cell = K::fresh(rt, T);
        play::<K, R>(rt, &mut cell, FOUR);
        round(rt, &mut keeper, &mut cell);
        check_twice(rt, &mut keeper, &mut cell);
        round(rt, &mut keeper, &mut cell);
        check_stands(rt, &mut keeper, &cell);
    }
}

#[test]
fn a_topic_twice(rt: HostRuntime) {
    in_memory(&rt, &Twice);
}

fn store_four<K: Keeps, R: Abort + AllocGlobal>(rt: &R, keeper: &mut K) {
    let mut cell = K::fresh(rt, T);
    play::<K, R>(rt, &mut cell, FOUR);
    round(rt, keeper, &mut cell);
}

/// Whether the keeper's database is no longer taken after the statements.
fn is_no_longer_taken<K: Keeps, R: Abort + AllocGlobal>(rt: &R, keeper: K, wrong: &str) -> bool {
    let mut database = keeper.into_database();
    assert!(rt; K::execute(&mut database, wrong));
    matches!(&K::start(rt, database), Err(Fault::StoreFailed))
}

/// A database of another version, or without a table, is not taken, and stays as it is.
#[derive(Drop)]
struct Others {
    wrong: &'static str,
}

impl Scene for Others {
    fn play<K: Keeps, R: Abort + AllocGlobal>(&self, rt: &R, mut keeper: K) {
        store_four(rt, &mut keeper);
        assert!(rt; is_no_longer_taken(rt, keeper, self.wrong));
    }
}

#[test]
fn other_databases(rt: HostRuntime) {
    for wrong in [
        "UPDATE meta SET version = 4",
        "UPDATE meta SET version = 2",
        "UPDATE meta SET version = 1",
        "UPDATE meta SET version = 0",
        "DROP TABLE redelivery",
        "DROP TABLE author",
        "DROP TABLE retention",
        "DROP TABLE retention; UPDATE meta SET version = 2",
        "DROP TABLE author; UPDATE meta SET version = 2",
        "DROP TABLE author; DROP TABLE retention",
        "DROP TABLE author; DROP TABLE retention; UPDATE meta SET version = 1",
        "DROP TABLE redelivery; UPDATE meta SET version = 1",
        "DROP TABLE redelivery; DROP TABLE author; DROP TABLE retention; UPDATE meta SET version = 2",
        "DROP TABLE redelivery; DROP TABLE author; DROP TABLE retention; UPDATE meta SET version = 0",
        "UPDATE meta SET id = 2",
        "INSERT INTO meta VALUES (2, 1)",
        "DELETE FROM meta",
        "DROP TABLE ack",
        "DROP TABLE meta",
        "CREATE TABLE more (id INTEGER NOT NULL PRIMARY KEY) STRICT",
        "CREATE INDEX more ON sub (kind)",
        "DROP TABLE dead; CREATE TABLE dead (topic TEXT NOT NULL, sub TEXT NOT NULL, ordinal INTEGER NOT NULL, idx INTEGER NOT NULL, target TEXT NOT NULL) STRICT",
    ] {
        in_memory(&rt, &Others { wrong });
    }
}

/// What makes a database one of an earlier version, and takes the mark of the last from it.
const EARLIER: [(&str, &str); 2] = [
    (
        "DROP TABLE retention; DROP TABLE author; UPDATE meta SET version = 2",
        "UPDATE meta SET version = 2",
    ),
    (
        "DROP TABLE retention; DROP TABLE author; DROP TABLE redelivery; UPDATE meta SET version = 1",
        "UPDATE meta SET version = 1",
    ),
];

/// A database of an earlier version is taken with its topics, and is one of the last version then.
#[derive(Drop)]
struct Earlier {
    back: &'static str,
    mark: &'static str,
}

impl Scene for Earlier {
    fn play<K: Keeps, R: Abort + AllocGlobal>(&self, rt: &R, mut keeper: K) {
        let mut cell = K::fresh(rt, T);
        play::<K, R>(rt, &mut cell, FOUR);
        round(rt, &mut keeper, &mut cell);
        let mut database = keeper.into_database();
        assert!(rt; K::execute(&mut database, self.back));
        let mut again = K::adopt(rt, database).expect(rt, "not adopted");
        check_stands(rt, &mut again, &cell);
        assert!(rt; is_no_longer_taken(rt, again, self.mark));
    }
}

#[test]
fn earlier_versions(rt: HostRuntime) {
    for (back, mark) in EARLIER {
        in_memory(&rt, &Earlier { back, mark });
    }
}
