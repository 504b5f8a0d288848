// Topics whose first messages are gone: what a round writes of them, and how they are loaded and go on.
use super::answers::Answer;
use super::broken::{after, filled};
use super::keepers::in_memory;
use super::keeps::{Keeps, Scene};
use super::plays::{
    DONE, T, TRIM, adopted, check_stands, play, publish_more, resumed, round, set_rule, trimmed,
};
use super::writing::{Counts, check_written};
use delivery_machine::Retention;
use std::process::Abort;

/// What is done between two rounds.
#[derive(Clone, Copy)]
enum Act {
    /// So many messages come.
    Publishes(u64),
    Asks(&'static str),
    /// The topic has a rule of its own, by which it keeps all.
    KeepsAll,
    /// It has none any more.
    HasNoRule,
}

/// What is done between two rounds, and what the second writes. A trim writes the row of what is gone, those of producers and
/// those of runs; the rows of messages that stay are left as they are.
const STEPS: [(Act, Counts); 13] = [
    (Act::Asks("producer p -\nproducer q -\n"), (1, 0, 0, 1)),
    (Act::Publishes(69), (69, 0, 0, 0)),
    (Act::Asks(DONE), (2, 0, 0, 0)),
    (Act::Asks(TRIM), (2, 1, 64, 0)),
    (Act::Asks(""), (0, 0, 0, 0)),
    (Act::Asks(TRIM), (0, 0, 0, 0)),
    (Act::Publishes(70), (70, 0, 0, 0)),
    (Act::Asks("seek s latest\ntrim 12 1000 64\n"), (0, 1, 0, 0)),
    (
        Act::Asks("trim 11 1000 64\npublish 2 0 - - 1000\n"),
        (1, 3, 64, 0),
    ),
    (Act::KeepsAll, (0, 1, 0, 0)),
    (Act::HasNoRule, (0, 1, 0, 0)),
    (Act::Publishes(130), (130, 0, 0, 0)),
    (
        Act::Asks("seek s latest\ntrim 0 1000 128\n"),
        (1, 3, 128, 0),
    ),
];

impl Act {
    fn run<K: Keeps, R: Abort + AllocGlobal>(&self, rt: &R, topic: &mut K::Topic) {
        match self {
            Act::Publishes(count) => publish_more::<K, R>(rt, topic, *count),
            Act::Asks(lines) => play::<K, R>(rt, topic, lines),
            Act::KeepsAll => set_rule::<K, R>(rt, topic, Some(Retention::All)),
            Act::HasNoRule => set_rule::<K, R>(rt, topic, None),
        }
    }
}

#[derive(Drop)]
struct Counted;

impl Scene for Counted {
    fn play<K: Keeps, R: Abort + AllocGlobal>(&self, rt: &R, mut keeper: K) {
        let mut topic = K::fresh(rt, T);
        for (act, wanted) in &STEPS {
            act.run::<K, R>(rt, &mut topic);
            round(rt, &mut keeper, &mut topic);
            check_written(rt, &keeper, *wanted);
            check_stands(rt, &mut keeper, &topic);
        }
    }
}

#[test]
fn rows_of_what_goes(rt: HostRuntime) {
    in_memory(&rt, &Counted);
}

/// What is loaded by pieces is what is stored.
fn check_shown<K: Keeps, R: Abort + AllocGlobal>(rt: &R, keeper: &mut K, topic: &K::Topic) {
    let shown = keeper.show(rt, T).expect(rt, "not loaded");
    assert!(rt; K::is_same(&shown.expect(rt, "no rows"), &K::snapshot_of(rt, topic)));
}

/// More messages stay than are read at a time, or fewer, though there were more.
#[derive(Drop)]
struct Long {
    goes: &'static str,
    at_once: bool,
}

impl Scene for Long {
    fn play<K: Keeps, R: Abort + AllocGlobal>(&self, rt: &R, mut keeper: K) {
        let mut topic = trimmed(rt, &mut keeper, T);
        publish_more::<K, R>(rt, &mut topic, 300);
        round(rt, &mut keeper, &mut topic);
        play::<K, R>(rt, &mut topic, self.goes);
        round(rt, &mut keeper, &mut topic);
        let mut keeper = adopted(rt, keeper);
        check_shown(rt, &mut keeper, &topic);
        assert!(rt; keeper.stands(&K::snapshot_of(rt, &topic)) == self.at_once);
        let (_, mut topic) = resumed(rt, &mut keeper, T);
        play::<K, R>(rt, &mut topic, "producer p -\n");
        publish_more::<K, R>(rt, &mut topic, 1);
        round(rt, &mut keeper, &mut topic);
        check_written(rt, &keeper, (1, 1, 0, 0));
        check_shown(rt, &mut keeper, &topic);
    }
}

#[test]
fn many_messages_after_those_that_are_gone(rt: HostRuntime) {
    in_memory(
        &rt,
        &Long {
            goes: "",
            at_once: false,
        },
    );
}

#[test]
fn few_messages_after_many_that_are_gone(rt: HostRuntime) {
    in_memory(
        &rt,
        &Long {
            goes: "seek s latest\ntrim 0 1000 128\n",
            at_once: true,
        },
    );
}

/// All messages go that stand in rows: others are durable by word alone. The topic is written whole.
#[derive(Drop)]
struct Passed;

impl Scene for Passed {
    fn play<K: Keeps, R: Abort + AllocGlobal>(&self, rt: &R, mut keeper: K) {
        let mut topic = K::fresh(rt, T);
        play::<K, R>(rt, &mut topic, "producer p -\n");
        publish_more::<K, R>(rt, &mut topic, 60);
        round(rt, &mut keeper, &mut topic);
        publish_more::<K, R>(rt, &mut topic, 60);
        play::<K, R>(rt, &mut topic, "stored\n");
        play::<K, R>(rt, &mut topic, DONE);
        play::<K, R>(rt, &mut topic, TRIM);
        round(rt, &mut keeper, &mut topic);
        check_written(rt, &keeper, (61, 0, 0, 1));
        check_stands(rt, &mut keeper, &topic);
    }
}

#[test]
fn a_trim_beyond_what_is_stored(rt: HostRuntime) {
    in_memory(&rt, &Passed);
}

/// The places of all messages are five more, and the first five messages are gone.
const MOVED: &str =
    "UPDATE entry SET idx = idx + 5; UPDATE ack SET first = first + 5, last = last + 5; UPDATE dead SET idx = idx + 5; UPDATE redelivery SET idx = idx + 5; INSERT INTO retention VALUES ('persistent://public/default/t', 5, 3, 86400000); INSERT INTO author VALUES ('persistent://public/default/t', 1, 'q', 7); INSERT INTO author VALUES ('persistent://public/default/t', 4, 'p', 9)";

/// A number of a producer whose messages are gone is used, and the next one is not.
const NUMBERS: &str = "publish 1 7 - - 2000";

/// Rows may begin at any place, and a topic goes on from there.
#[derive(Drop)]
struct Anywhere;

fn check_numbers<K: Keeps, R: Abort + AllocGlobal>(rt: &R, topic: &mut K::Topic) {
    play::<K, R>(rt, topic, "producer q -\nproducer p -\n");
    assert!(rt; matches!(K::ask(rt, topic, NUMBERS), Answer::Duplicate { length: 9 }));
    play::<K, R>(rt, topic, "publish 1 8 - - 2000\npublish 2 10 - - 2000\n");
    assert!(rt;
        matches!(
            K::ask(rt, topic, "progress"),
            Answer::Progress {
                durable: 9,
                length: 11
            }
        )
    );
}

impl Scene for Anywhere {
    fn play<K: Keeps, R: Abort + AllocGlobal>(&self, rt: &R, mut keeper: K) {
        let before = filled(rt, &mut keeper);
        let mut keeper = after(rt, keeper, MOVED);
        let (snapshot, mut topic) = resumed(rt, &mut keeper, T);
        assert!(rt; K::had(&snapshot) == K::had(&before).saturating_add(5));
        check_numbers::<K, R>(rt, &mut topic);
        round(rt, &mut keeper, &mut topic);
        check_written(rt, &keeper, (2, 1, 0, 0));
        check_stands(rt, &mut keeper, &topic);
    }
}

#[test]
fn rows_that_begin_anywhere(rt: HostRuntime) {
    in_memory(&rt, &Anywhere);
}
