// The members of the subscription "s".
ghost use Rattle.std.specs.Prelude.{◌≡◌, codes};

use super::subscription::name;
use plain_lists::{Member, Terms};
use position_core::{Credit, Flow, Level, Millis, RedeliverLimit, TopicName, WindowSize};
use std::process::Abort;
use value_texts::read_topic_name;

/// How a consumer takes messages.
#[derive(Clone, Copy)]
pub(super) enum Takes {
    /// It is pushed to, so many at a time.
    Pushed(u32),
    /// It pulls.
    Pulls,
}

fn flow<R: Abort>(rt: &R, takes: Takes) -> Flow {
    match takes {
        Takes::Pushed(size) => Flow::Window(WindowSize::new(size).expect(rt, "no window")),
        Takes::Pulls => Flow::Credit(Credit::new(0).expect(rt, "no credit")),
    }
}

pub(super) fn dead_topic<R: Abort + AllocGlobal>(rt: &R) -> TopicName {
    let name = read_topic_name(rt.alloc(), "persistent://public/default/t-s-DLQ");
    name.expect(rt, "no memory").expect(rt, "no topic")
}

pub(super) fn new_member<R: Abort + AllocGlobal>(
    rt: &R,
    number: u64,
    level: u32,
    takes: Takes,
) -> Member
    ensures { (result.number ≡ number) × (result.subscription ≡ codes "s") }
{
    let terms = Terms {
        level: Level::new(level).expect(rt, "no level"),
        flow: flow(rt, takes),
        ack_timeout: Millis::new(0).expect(rt, "no timeout"),
        nack_delay: Millis::new(60_000).expect(rt, "no delay"),
        max_redeliver: RedeliverLimit::new(0).expect(rt, "no limit"),
    };
    Member::new(rt.alloc(), number, name(rt), terms, dead_topic(rt))
}
