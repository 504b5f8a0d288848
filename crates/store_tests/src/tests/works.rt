// What is done while a disk stops.
use super::keeps::Keeps;
use super::plays::{T, U, play, publish_more, round, trimmed, view};
use std::process::Abort;

const FIRST: &str = "producer p -
publish 1 0 - aGk= 1000
publish 1 1 k - 1001
subscribe s Shared 0 push:10 0 100 1 - Earliest
subscribe t Exclusive 0 push:10 0 100 1 - Latest
";

const LATER: &str = "producer p -
publish 1 2 - aGk= 1002
publish 1 3 - aGk= 1003
subscribe s Shared 0 push:10 0 100 1 - Earliest
dispatch s 1000
ack 1 CAAQAA==
dropsub t
seek s latest
subscribe u Shared 0 push:10 0 100 5 - Earliest
dispatch u 1000
nack 2 CAAQAA== 1000
tick u 1100
";

/// The versions before the last.
#[derive(Clone, Copy)]
pub(super) enum Earlier {
    One,
    Two,
}

#[derive(Clone, Copy)]
pub(super) enum Work {
    /// The tables are made.
    Create,
    /// One topic is stored.
    Round,
    /// Two topics are stored at once.
    Store,
    /// One topic is deleted.
    Delete,
    /// A topic is stored whose first messages may go.
    Fill,
    /// They go, others come, and the topic is stored.
    Trim,
    /// The database is made one of an earlier version.
    Downgrade(Earlier),
    /// One of an earlier version is made one of the last.
    Upgrade(Earlier),
}

fn first<K: Keeps, R: Abort + AllocGlobal>(rt: &R, name: &str) -> K::Topic {
    let mut topic = K::fresh(rt, name);
    play::<K, R>(rt, &mut topic, FIRST);
    topic
}

fn later<K: Keeps, R: Abort + AllocGlobal>(rt: &R, mut topic: K::Topic) -> K::Topic {
    play::<K, R>(rt, &mut topic, LATER);
    topic
}

/// The topic goes on from its rows, or begins. None where they cannot be read.
fn played<K: Keeps, R: Abort + AllocGlobal>(
    rt: &R,
    keeper: &mut K,
    name: &str,
) -> Option<K::Topic> {
    match keeper.resume(rt, name) {
        Ok(Some((_, topic))) => Some(later::<K, R>(rt, topic)),
        Ok(None) => Some(first::<K, R>(rt, name)),
        Err(_) => None,
    }
}

fn is_one_stored<K: Keeps, R: Abort + AllocGlobal>(rt: &R, keeper: &mut K) -> bool {
    match played(rt, keeper, T) {
        Some(mut topic) => keeper.round(&mut topic).is_ok(),
        None => false,
    }
}

fn view_played<K: Keeps, R: Abort + AllocGlobal>(
    rt: &R,
    keeper: &mut K,
    name: &str,
    parts: &mut Vec<K::Part>,
) {
    if let Some(mut topic) = played(rt, keeper, name) {
        view(rt, keeper, &mut topic, parts);
    }
}

fn are_both_stored<K: Keeps, R: Abort + AllocGlobal>(rt: &R, keeper: &mut K) -> bool {
    let mut parts = Vec::new(rt.alloc());
    view_played(rt, keeper, T, &mut parts);
    view_played(rt, keeper, U, &mut parts);
    parts.len() == 2 && keeper.store(parts).is_ok()
}

fn is_filled<K: Keeps, R: Abort + AllocGlobal>(rt: &R, keeper: &mut K) -> bool {
    let mut topic = trimmed(rt, keeper, T);
    round(rt, keeper, &mut topic);
    play::<K, R>(rt, &mut topic, "producer q -\npublish 2 0 - aGk= 1000\n");
    publish_more::<K, R>(rt, &mut topic, 70);
    round(rt, keeper, &mut topic);
    play::<K, R>(rt, &mut topic, "seek s latest\n");
    keeper.round(&mut topic).is_ok()
}

const TRIMMED: &str = "trim 0 1000 64
subscribe t Shared 0 push:10 0 100 1 - Earliest
producer r -
publish 1 0 - aGk= 1000
";

fn is_trimmed<K: Keeps, R: Abort + AllocGlobal>(rt: &R, keeper: &mut K) -> bool {
    match keeper.resume(rt, T) {
        Ok(Some((_, mut topic))) => {
            play::<K, R>(rt, &mut topic, TRIMMED);
            keeper.round(&mut topic).is_ok()
        }
        _ => false,
    }
}

fn is_deleted<K: Keeps, R: Abort + AllocGlobal>(rt: &R, keeper: &mut K) -> bool {
    match keeper.resume(rt, T) {
        Ok(Some((_, topic))) => keeper.delete(rt, &topic).is_ok(),
        _ => false,
    }
}

/// Whether the work was done.
pub(super) fn is_done<K: Keeps, R: Abort + AllocGlobal>(
    rt: &R,
    keeper: &mut K,
    work: Work,
) -> bool {
    match work {
        Work::Create | Work::Downgrade(_) | Work::Upgrade(_) => true,
        Work::Round => is_one_stored(rt, keeper),
        Work::Store => are_both_stored(rt, keeper),
        Work::Delete => is_deleted(rt, keeper),
        Work::Fill => is_filled(rt, keeper),
        Work::Trim => is_trimmed(rt, keeper),
    }
}

/// What is done with the database afterwards.
pub(super) fn statements(work: Work) -> &'static str {
    match work {
        Work::Downgrade(Earlier::One) =>
            "DROP TABLE retention; DROP TABLE author; DROP TABLE redelivery; UPDATE meta SET version = 1",
        Work::Downgrade(Earlier::Two) =>
            "DROP TABLE retention; DROP TABLE author; UPDATE meta SET version = 2",
        Work::Create
        | Work::Round
        | Work::Store
        | Work::Delete
        | Work::Fill
        | Work::Trim
        | Work::Upgrade(_) => "",
    }
}
