// Topics that are played by lines, with rounds between.
use super::answers::Answer;
use super::keeps::Keeps;
use delivery_machine::{Event, Retention};
use position_core::Fault;
use std::process::Abort;

/// A topic.
pub(super) const T: &str = "persistent://public/default/t";

/// Another.
pub(super) const U: &str = "persistent://public/default/u";

/// Four messages.
pub(super) const FOUR: &str = "producer p -
publish 1 0 k aGk= 1000
publish 1 1 - aGk= 1001
publish 1 2 k - 1002
publish 1 3 - aGk= 1003
";

fn play_line<K: Keeps, R: Abort + AllocGlobal>(rt: &R, topic: &mut K::Topic, line: &str) {
    let answer = K::ask(rt, topic, line);
    assert!(rt;
        !matches!(answer, Answer::Refused(Fault::NoMemory)),
        "no memory"
    );
    assert!(rt; !answer.is_refused(), "{line}");
}

/// The topic is asked each line, and refuses none.
pub(super) fn play<K: Keeps, R: Abort + AllocGlobal>(rt: &R, topic: &mut K::Topic, lines: &str) {
    for line in lines.lines() {
        play_line::<K, R>(rt, topic, line);
    }
}

/// So many messages come to the topic from its first producer, who published all that it had.
pub(super) fn publish_more<K: Keeps, R: Abort + AllocGlobal>(
    rt: &R,
    topic: &mut K::Topic,
    count: u64,
) {
    let had = K::had(&K::snapshot_of(rt, topic));
    for number in had..had.saturating_add(count) {
        let line = format!(in rt.alloc(); "publish 1 {number} - aGk= 1000");
        play_line::<K, R>(rt, topic, line.expect(rt, "no memory").as_str());
    }
}

/// The topic has a rule of its own from now on, or none.
pub(super) fn set_rule<K: Keeps, R: Abort>(
    rt: &R,
    topic: &mut K::Topic,
    retention: Option<Retention>,
) {
    assert!(rt; !K::call(rt, topic, Event::SetRetention { retention }).is_refused());
}

/// A subscription that has done with all messages.
pub(super) const DONE: &str = "subscribe s Shared 0 push:10 0 100 1 - Latest\n";

/// The first 64 messages go.
pub(super) const TRIM: &str = "trim 0 1000 64\n";

/// A topic that had 70 messages, of which the first 64 are gone. It was stored before.
pub(super) fn trimmed<K: Keeps, R: Abort + AllocGlobal>(
    rt: &R,
    keeper: &mut K,
    name: &str,
) -> K::Topic {
    let mut topic = K::fresh(rt, name);
    fill_and_trim(rt, keeper, &mut topic);
    topic
}

/// 70 messages come to the topic, and are stored; then the first 64 go.
pub(super) fn fill_and_trim<K: Keeps, R: Abort + AllocGlobal>(
    rt: &R,
    keeper: &mut K,
    topic: &mut K::Topic,
) {
    play::<K, R>(rt, topic, "producer p -\n");
    publish_more::<K, R>(rt, topic, 70);
    round(rt, keeper, topic);
    play::<K, R>(rt, topic, DONE);
    play::<K, R>(rt, topic, TRIM);
}

/// What stands of the topic is the topic as it is.
pub(super) fn check_stands<K: Keeps, R: Abort>(rt: &R, keeper: &mut K, topic: &K::Topic) {
    assert!(rt; keeper.stands(&K::snapshot_of(rt, topic)));
}

/// Only what is left of the topic stands of it, which had so many messages.
pub(super) fn check_left<K: Keeps, R: Abort + AllocGlobal>(
    rt: &R,
    keeper: &mut K,
    name: &str,
    had: u64,
) {
    let found = keeper.show(rt, name).expect(rt, "not loaded");
    let left = found.expect(rt, "nothing is left");
    assert!(rt; K::is_bare(&left));
    assert_eq!(rt; K::had(&left), had);
}

/// A round, after which all messages of the topic are durable.
pub(super) fn round<K: Keeps, R: Abort>(rt: &R, keeper: &mut K, topic: &mut K::Topic) {
    let had = K::had(&K::snapshot_of(rt, topic));
    assert!(rt; keeper.round(topic) == Ok(had));
}

/// The topic is played part by part, with a round after each.
pub(super) fn play_rounds<K: Keeps, R: Abort + AllocGlobal>(
    rt: &R,
    keeper: &mut K,
    topic: &mut K::Topic,
    parts: &[&str],
) {
    for part in parts {
        play::<K, R>(rt, topic, part);
        round(rt, keeper, topic);
    }
}

/// The topic as it is, beside what is to be stored.
pub(super) fn view<K: Keeps, R: Abort>(
    rt: &R,
    keeper: &mut K,
    topic: &mut K::Topic,
    parts: &mut Vec<K::Part>,
) {
    let part = keeper.view(rt, topic);
    parts.push(part).expect(rt, "no memory");
}

/// The part is stored: the proof of it.
pub(super) fn stored<K: Keeps, R: Abort + AllocGlobal>(
    rt: &R,
    keeper: &mut K,
    part: K::Part,
) -> K::Kept {
    let mut parts = Vec::new(rt.alloc());
    parts.push(part).expect(rt, "no memory");
    let mut kept = keeper.store(parts).expect(rt, "not stored");
    assert!(rt; kept.len() == 1);
    kept.pop().expect(rt, "no proof")
}

/// The topic goes on from its rows.
pub(super) fn resumed<K: Keeps, R: Abort + AllocGlobal>(
    rt: &R,
    keeper: &mut K,
    name: &str,
) -> (K::Snapshot, K::Topic) {
    let found = keeper.resume(rt, name).expect(rt, "not loaded");
    found.expect(rt, "no rows")
}

/// The database is adopted again.
pub(super) fn adopted<K: Keeps, R: Abort + AllocGlobal>(rt: &R, keeper: K) -> K {
    let keeper = K::adopt(rt, keeper.into_database());
    keeper.expect(rt, "not adopted, or no memory")
}
