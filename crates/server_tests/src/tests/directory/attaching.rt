// Who may not attach.
use super::broker::Broker;
use super::chime::bell;
use super::letters::{BEFORE, play};
use super::world::{Scene, come, open, sit, topic_name, with_rows};
use delivery_machine::Fault;
use std::process::Abort;
use std::rt::Clock;
use std::sync::Wait;
use std::test::*;

fn refusal<D: Broker, R: Abort + AllocGlobal + Wait>(
    rt: &R,
    topics: &D,
    name: &str,
    create: bool,
) -> Option<Fault> {
    come(rt, topics, &topic_name(rt, name), create, bell(rt)).err()
}

fn expect_fault<R: Abort>(rt: &R, got: Option<Fault>, want: Option<Fault>) {
    assert_eq!(rt; got, want);
}

fn check_refusal<D: Broker, R: Abort + AllocGlobal + Wait>(
    rt: &R,
    topics: &D,
    create: bool,
    want: Option<Fault>,
) {
    let got = refusal(rt, topics, "persistent://public/default/t", create);
    expect_fault(rt, got, want);
}

#[derive(Clone, Copy)]
struct Refusals;

impl Scene for Refusals {
    fn play<D: Broker, R: Abort + AllocGlobal + Wait + Clock>(&self, rt: &R, keeper: D::Rows) {
        let topics: D = open(rt, keeper, 1);
        check_refusal(rt, &topics, false, Some(Fault::NoSuchSubscription));
        let seat = sit(rt, &topics, "persistent://public/default/t");
        check_refusal(rt, &topics, false, Some(Fault::NoRoom));
        play(rt, &topics, &seat, &BEFORE);
        topics.detach(rt, seat);
        check_refusal(rt, &topics, false, None);
        topics.close(rt);
        check_refusal(rt, &topics, true, Some(Fault::StoreFailed));
    }
}

#[test]
fn each_attach_that_cannot_be_is_refused(rt: HostRuntime) {
    with_rows(&rt, &Refusals);
}
