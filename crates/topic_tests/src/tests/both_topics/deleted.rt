// What is left of a topic that is deleted, and the topic that goes on from that under its name.
use super::calls::{events_of, tell, topic_name};
use delivery_machine::{Author, Opened, Snapshot};
use plain_topic::PlainTopic;
use position_core::{LedgerSize, Position};
use std::process::Abort;
use topic_core::TopicCore;
use topic_lives::{emptied, is_bare};

/// Two who move dead letters to the topic, and one who does not.
const FIRST: &str = "producer dlq/a -
producer p -
producer dlq/b -
publish 1 5 - aGk= 1000
publish 2 7 - aGk= 1000
publish 3 2 - aGk= 1000
publish 1 9 - aGk= 1000
publish 2 8 - aGk= 1000
stored
subscribe s Exclusive 0 push:10 0 60000 0 - Earliest
";

/// The number 9 came before the deletion from the one, and 8 from the other, who is forgotten.
const NEXT: &str = "producer dlq/a -
producer p -
publish 1 9 - aGk= 1000
publish 1 12 - aGk= 1000
publish 2 8 - aGk= 1000
stored
";

/// The first position of the ledger after that of the first messages.
const AFTER: Position = Position {
    ledger: 1,
    entry: 0,
};

fn topic<R: Abort + AllocGlobal, T: Opened>(rt: &R) -> T {
    let size = LedgerSize::new(30).expect(rt, "no size");
    let topic = T::fresh(rt.alloc(), topic_name(rt), size);
    topic.ok().expect(rt, "no memory")
}

fn again<R: Abort + AllocGlobal, T: Opened>(rt: &R, left: &Snapshot) -> T {
    T::restart(rt.alloc(), left).ok().expect(rt, "no memory")
}

fn view<R: Abort, T: Opened>(rt: &R, topic: &T) -> Snapshot {
    topic.view().ok().expect(rt, "no memory")
}

fn left<R: Abort + AllocGlobal>(rt: &R, kept: &Snapshot) -> Snapshot {
    assert!(rt; kept.gone() <= 100 && kept.log().count() <= 100);
    emptied(rt.alloc(), kept).expect(rt, "no memory")
}

/// The author has the name, the greatest of its numbers, and the place of its last message.
fn is(author: &Author, name: &str, sequence: i64, index: u64) -> bool {
    author.name.as_str() == name && author.sequence == sequence && author.index == index
}

/// Those who move dead letters are left, in the order of their last messages, and nobody else.
fn check_authors<R: Abort>(rt: &R, authors: &[Author], sequence: i64, index: u64) {
    let [b, a] = authors else {
        panic!(rt; "not two authors");
    };
    assert!(rt; is(b, "dlq/b", 2, 2));
    assert!(rt; is(a, "dlq/a", sequence, index));
}

fn check_left<R: Abort>(rt: &R, kept: &Snapshot, left: &Snapshot) {
    assert!(rt; left.name().is(kept.name()) && left.ledger_size() == kept.ledger_size());
    assert!(rt; left.ledger() == kept.ledger() && left.next_ordinal() == kept.next_ordinal());
    assert!(rt; left.retention().is_none() && is_bare(left) && !is_bare(kept));
}

/// What is left has so many messages that are gone, and this number of the one author as the last.
fn check_emptied<R: Abort + AllocGlobal, T: Opened>(
    rt: &R,
    topic: &T,
    gone: u64,
    sequence: i64,
    index: u64,
) -> Snapshot {
    let kept = view(rt, topic);
    let left = left(rt, &kept);
    check_left(rt, &kept, &left);
    drop(kept);
    assert!(rt; left.gone() == gone);
    check_authors(rt, left.authors(), sequence, index);
    left
}

/// The two messages that were none before stand in the next ledger.
fn check_next<R: Abort, T: Opened>(rt: &R, topic: &T) {
    let kept = view(rt, topic);
    let first = kept.log().get(0).map(|message| message.position());
    assert!(rt; kept.gone() == 5 && kept.log().count() == 2);
    assert!(rt; first == Some(AFTER));
    drop(kept);
}

fn check<R: Abort + AllocGlobal, T: Opened + Drop>(rt: &R) {
    let mut topic = topic::<R, T>(rt);
    tell(&mut topic, events_of(rt, FIRST).as_slice());
    let left = check_emptied(rt, &topic, 5, 9, 3);
    drop(topic);
    let mut topic = again::<R, T>(rt, &left);
    drop(left);
    tell(&mut topic, events_of(rt, NEXT).as_slice());
    check_next(rt, &topic);
    drop(check_emptied(rt, &topic, 7, 12, 5));
    drop(topic);
}

#[test]
fn numbers_go_on_over_a_deletion(rt: HostRuntime) {
    check::<HostRuntime, PlainTopic>(&rt);
    check::<HostRuntime, TopicCore>(&rt);
}
