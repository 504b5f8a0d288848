// A topic that nobody uses leaves, once it is stored.
use super::broker::Broker;
use super::chime::bell;
use super::letters::play;
use super::world::{Scene, come, open, settle, sit, topic_name, with_rows};
use delivery_machine::Fault;
use std::process::Abort;
use std::rt::Clock;
use std::sync::Wait;
use std::test::*;

/// How many topics may be open.
const MOST: u32 = 256;

fn numbered<R: Abort + AllocGlobal>(rt: &R, number: u32) -> String {
    let name = format!(in rt.alloc(); "persistent://public/default/t{number}");
    name.expect(rt, "no memory")
}

/// A message, by a producer that goes.
const MESSAGE: [&str; 3] = ["producer p -", "publish 1 0 - aGk= 1000", "drop 1"];

/// The topic has a message, and nobody sits there.
fn visit<D: Broker, R: Abort + AllocGlobal + Wait>(rt: &R, topics: &D, number: u32) {
    let seat = sit(rt, topics, numbered(rt, number).as_str());
    play(rt, topics, &seat, &MESSAGE);
    topics.detach(rt, seat);
}

fn visit_all<D: Broker, R: Abort + AllocGlobal + Wait>(rt: &R, topics: &D) {
    for number in 0..MOST {
        visit(rt, topics, number);
    }
}

fn refused<D: Broker, R: Abort + AllocGlobal + Wait>(
    rt: &R,
    topics: &D,
    number: u32,
) -> Option<Fault> {
    let name = topic_name(rt, numbered(rt, number).as_str());
    match come(rt, topics, &name, true, bell(rt)) {
        Ok(seat) => {
            topics.detach(rt, seat);
            None
        }
        Err(fault) => Some(fault),
    }
}

fn expect_refused<R: Abort>(rt: &R, got: Option<Fault>, want: Option<Fault>) {
    assert_eq!(rt; got, want);
}

#[derive(Clone, Copy)]
struct Unstored;

impl Scene for Unstored {
    fn play<D: Broker, R: Abort + AllocGlobal + Wait + Clock>(&self, rt: &R, keeper: D::Rows) {
        let topics: D = open(rt, keeper, 1);
        visit_all(rt, &topics);
        expect_refused(rt, refused(rt, &topics, MOST), Some(Fault::TooMany));
        settle(rt, &topics);
        expect_refused(rt, refused(rt, &topics, MOST), None);
    }
}

#[test]
fn a_topic_stays_until_it_is_stored(rt: HostRuntime) {
    with_rows(&rt, &Unstored);
}
