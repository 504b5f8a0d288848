// A topic whose journal is full leaves, and is loaded again.
use super::broker::Broker;
use super::chime::{Chime, bell};
use super::letters::play;
use super::world::{Scene, answer_to, asked, come, open_with, settle, sit, topic_name, with_rows};
use crate::tests::base::short_terms;
use delivery_machine::{Fault, Reply};
use position_core::Position;
use std::process::Abort;
use std::rt::Clock;
use std::sync::{Arc, Wait};
use std::test::*;

const T: &str = "persistent://public/default/t";

/// What a journal of eight lines takes, two of which are kept for the ends, and one for a store.
const TAKEN: [&str; 5] = [
    "producer p -",
    "subscribe s Exclusive 0 push:10 0 0 0 - Earliest",
    "publish 1 0 - aGk= 1000",
    "publish 1 1 - aGk= 1000",
    "publish 1 2 - aGk= 1000",
];

fn expect_full<R: Abort>(rt: &R, answer: Result<Reply, Fault>) {
    assert_eq!(rt; answer.err(), Some(Fault::JournalFull));
}

fn check_full<D: Broker, R: Abort + AllocGlobal + Wait>(
    rt: &R,
    topics: &D,
    seat: &D::Seat,
    line: &str,
) {
    expect_full(rt, answer_to(rt, topics, seat, line));
}

fn check_rung<R: Abort>(rt: &R, chime: &Chime) {
    assert!(rt; chime.is_rung());
}

fn expect_fault<R: Abort>(rt: &R, got: Option<Fault>, want: Option<Fault>) {
    assert_eq!(rt; got, want);
}

fn check_entry<D: Broker, R: Abort + AllocGlobal + Wait>(rt: &R, topics: &D, create: bool) {
    let refused = come(rt, topics, &topic_name(rt, T), create, bell(rt));
    expect_fault(rt, refused.err(), Some(Fault::JournalFull));
}

/// Nothing but the ends is answered any more.
fn fill<D: Broker, R: Abort + AllocGlobal + Wait>(rt: &R, topics: &D, seat: &D::Seat) {
    play(rt, topics, seat, &TAKEN);
    check_full(rt, topics, seat, "publish 1 3 - aGk= 1000");
    check_entry(rt, topics, true);
    check_full(rt, topics, seat, "progress");
    play(rt, topics, seat, &["drop 1", "leave 1"]);
    check_full(rt, topics, seat, "progress");
}

fn expect_position<R: Abort>(rt: &R, reply: &Reply, want: Position) {
    match reply {
        Reply::Published {
            position,
            length: _,
        } => assert_eq!(rt; *position, want),
        _ => panic!(rt; "it was not published"),
    }
}

fn expect_progress<R: Abort>(rt: &R, reply: &Reply) {
    assert!(rt;
        matches!(
            reply,
            Reply::Progress {
                durable: 3,
                length: 3
            }
        )
    );
}

/// Three messages are there, and the next one is the first of another ledger.
fn check_loaded<D: Broker, R: Abort + AllocGlobal + Wait>(rt: &R, topics: &D) {
    let seat = sit(rt, topics, T);
    let progress = asked(rt, topics, &seat, "progress");
    expect_progress(rt, &progress);
    drop(progress);
    play(rt, topics, &seat, &["producer q -"]);
    let published = asked(rt, topics, &seat, "publish 1 0 - aGk= 1000");
    let first = Position {
        ledger: 1,
        entry: 0,
    };
    expect_position(rt, &published, first);
    drop(published);
    play(rt, topics, &seat, &["drop 1"]);
    topics.detach(rt, seat);
}

#[derive(Clone, Copy)]
struct Full;

impl Scene for Full {
    fn play<D: Broker, R: Abort + AllocGlobal + Wait + Clock>(&self, rt: &R, keeper: D::Rows) {
        let topics: D = open_with(rt, keeper, short_terms(rt));
        let seat = sit(rt, &topics, T);
        let onlooker = bell(rt);
        let chime = Arc::try_clone(&onlooker).ok().expect(rt, "too many owners");
        let other = come(rt, &topics, &topic_name(rt, T), true, onlooker);
        let other = other.ok().expect(rt, "no seat");
        fill(rt, &topics, &seat);
        check_rung(rt, &chime);
        expect_fault(rt, topics.refusal(rt, &other), Some(Fault::JournalFull));
        topics.detach(rt, seat);
        settle(rt, &topics);
        check_entry(rt, &topics, false);
        topics.detach(rt, other);
        settle(rt, &topics);
        check_loaded(rt, &topics);
    }
}

#[test]
fn a_topic_with_a_full_journal_leaves_and_is_loaded_again(rt: HostRuntime) {
    with_rows(&rt, &Full);
}
