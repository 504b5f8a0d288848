// The shares of consumers that join and leave, worked out by hand.
use hash_ranges::SplitTable;
use std::process::Abort;

#[derive(Clone, Copy)]
enum Step {
    Joins(u64),
    Leaves(u64),
}

/// Steps of one table after another, and who owns the first quarter of the hashes then, the second, and the second half.
const STEPS: &[(Step, Option<(u64, u64, u64)>)] = &[
    (Step::Leaves(1), None),
    (Step::Joins(1), Some((1, 1, 1))),
    (Step::Joins(2), Some((2, 2, 1))),
    (Step::Leaves(3), Some((2, 2, 1))),
    (Step::Joins(3), Some((3, 2, 1))),
    (Step::Leaves(1), Some((3, 2, 2))),
    (Step::Leaves(3), Some((2, 2, 2))),
    (Step::Leaves(2), None),
    // a share in the middle goes to the one after it
    (Step::Joins(1), Some((1, 1, 1))),
    (Step::Joins(2), Some((2, 2, 1))),
    (Step::Joins(3), Some((3, 2, 1))),
    (Step::Leaves(2), Some((3, 1, 1))),
    (Step::Leaves(3), Some((1, 1, 1))),
    (Step::Leaves(1), None),
    // the last one to the one before it
    (Step::Joins(1), Some((1, 1, 1))),
    (Step::Joins(2), Some((2, 2, 1))),
    (Step::Joins(3), Some((3, 2, 1))),
    (Step::Leaves(1), Some((3, 2, 2))),
    (Step::Leaves(2), Some((3, 3, 3))),
];

fn make<R: Abort>(rt: &R, table: &mut SplitTable, step: Step) {
    match step {
        Step::Joins(consumer) => table.join(consumer).expect(rt, "no memory"),
        Step::Leaves(consumer) => table.leave(consumer),
    }
}

/// The owners of the hashes at the ends of quarters.
fn owners(table: &SplitTable) -> [Option<u64>; 6] {
    [
        table.owner(0),
        table.owner(16_383),
        table.owner(16_384),
        table.owner(32_767),
        table.owner(32_768),
        table.owner(65_535),
    ]
}

fn quarters(shares: Option<(u64, u64, u64)>) -> [Option<u64>; 6] {
    match shares {
        Some((first, second, half)) => [
            Some(first),
            Some(first),
            Some(second),
            Some(second),
            Some(half),
            Some(half),
        ],
        None => [None; 6],
    }
}

#[test]
fn shares_are_halved_and_joined(rt: HostRuntime) {
    let mut table = SplitTable::new(rt.alloc());
    for (step, shares) in STEPS {
        make(&rt, &mut table, *step);
        assert!(rt; owners(&table) == quarters(*shares));
    }
    drop(table);
}
