// How many rows a round writes.
use super::keepers::in_memory;
use super::keeps::{Keeps, Scene};
use super::plays::{FOUR, T, check_stands, play, round};
use row_store::Written;
use std::process::Abort;

/// Rows that were inserted, updated and deleted, and topics that were cleared.
pub(super) type Counts = (u64, u64, u64, u64);

/// What is asked between two rounds, and what the second writes.
const STEPS: [(&str, Counts); 11] = [
    (FOUR, (5, 0, 0, 1)),
    ("", (0, 0, 0, 0)),
    ("publish 1 4 - aGk= 1004\n", (1, 0, 0, 0)),
    (
        "subscribe s Shared 0 push:10 0 100 1 - Earliest\n",
        (1, 0, 0, 0),
    ),
    ("dispatch s 1000\nack 1 CAAQAA==\n", (1, 0, 0, 0)),
    (
        "publish 1 5 - - 1005\ndispatch s 1000\nack 1 CAAQAQ==\n",
        (1, 1, 0, 0),
    ),
    (
        "dispatch s 1000\nnack 1 CAAQAg== 1000\ntick s 1100\ndispatch s 1100\nnack 1 CAAQAg== 1100\ntick s 1200\n",
        (1, 1, 0, 0),
    ),
    ("deaddone s 0\n", (0, 1, 1, 0)),
    (
        "dispatch s 1200\nnack 1 CAAQAw== 1200\ntick s 1300\n",
        (1, 0, 0, 0),
    ),
    ("dispatch s 1300\nack 1 CAAQAw==\n", (0, 1, 1, 0)),
    ("leave 1\ndropsub s\n", (0, 0, 2, 0)),
];

/// What is sent back at once changes as many counts as it has messages, and nothing else.
const REWOUND: [(&str, Counts); 5] = [
    (FOUR, (5, 0, 0, 1)),
    (
        "subscribe e Exclusive 0 push:10 100 0 0 - Earliest\n",
        (1, 0, 0, 0),
    ),
    (
        "dispatch e 1000\ndispatch e 1000\ndispatch e 1000\ntick e 1100\n",
        (3, 0, 0, 0),
    ),
    (
        "dispatch e 1100\ndispatch e 1100\ntick e 1200\n",
        (0, 2, 0, 0),
    ),
    ("seek e latest\n", (1, 0, 3, 0)),
];

/// Runs of what is acknowledged: of those of a subscription one grows and one stays, and another comes; those of a
/// subscription that goes go, and of one that comes come. Then some go, and the first stays.
const RUNS: [(&str, Counts); 5] = [
    (FOUR, (5, 0, 0, 1)),
    (
        "publish 1 4 - - 1004\npublish 1 5 - - 1005\npublish 1 6 - - 1006\npublish 1 7 - - 1007\n",
        (4, 0, 0, 0),
    ),
    (
        "subscribe a Shared 0 push:10 0 100 1 - Earliest
subscribe b Exclusive 0 push:10 0 100 1 - Earliest
subscribe d Shared 0 push:10 0 100 1 - Earliest
dispatch a 1000
dispatch a 1000
dispatch a 1000
dispatch a 1000
dispatch a 1000
dispatch b 1000
dispatch b 1000
dispatch b 1000
dispatch d 1000
ack 1 CAAQAA==
ack 1 CAAQAQ==
ack 1 CAAQBA==
ack 2 CAAQAQ==
ack 2 CAAQAg==
ack 3 CAAQAA==
",
        (7, 0, 0, 0),
    ),
    (
        "dispatch a 1000
dispatch a 1000
dispatch a 1000
ack 1 CAAQAg==
ack 1 CAAQBg==
ack 1 CAAQBw==
leave 2
dropsub b
subscribe c Failover 0 push:10 0 100 1 - Earliest
dispatch c 1000
ack 4 CAAQAA==
",
        (1, 3, 0, 0),
    ),
    ("seek a CAAQAw==\n", (0, 0, 2, 0)),
];

fn counts(written: Written) -> Counts {
    (
        written.inserted,
        written.updated,
        written.deleted,
        written.cleared,
    )
}

/// What the last store wrote.
pub(super) fn check_written<K: Keeps, R: Abort>(rt: &R, keeper: &K, wanted: Counts) {
    assert_eq!(rt; counts(keeper.written()), wanted);
}

fn check_step<K: Keeps, R: Abort + AllocGlobal>(
    rt: &R,
    keeper: &mut K,
    cell: &mut K::Topic,
    part: &str,
    wanted: Counts,
) {
    play::<K, R>(rt, cell, part);
    round(rt, keeper, cell);
    assert!(rt; counts(keeper.written()) == wanted, "{part}");
    check_stands(rt, keeper, cell);
}

#[derive(Drop)]
struct Counted {
    steps: &'static [(&'static str, Counts)],
}

impl Scene for Counted {
    fn play<K: Keeps, R: Abort + AllocGlobal>(&self, rt: &R, mut keeper: K) {
        let mut cell = K::fresh(rt, T);
        for (part, wanted) in self.steps {
            check_step(rt, &mut keeper, &mut cell, part, *wanted);
        }
    }
}

#[test]
fn rows_of_rounds(rt: HostRuntime) {
    in_memory(&rt, &Counted { steps: &STEPS });
}

#[test]
fn rows_of_runs(rt: HostRuntime) {
    in_memory(&rt, &Counted { steps: &RUNS });
}

#[test]
fn rows_of_what_is_sent_back(rt: HostRuntime) {
    in_memory(&rt, &Counted { steps: &REWOUND });
}
