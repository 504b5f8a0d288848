// A topic with what of it is stored, which is asked by lines.
ghost use Rattle.std.specs.Prelude.{◌≡◌, []};

use super::answers::{Answer, event_in, topic_name};
use delivery_machine::{Event, Opened, Snapshot};
use marks::Naming;
use plain_topic::PlainTopic;
use position_core::{LedgerSize, TopicName};
use std::process::Abort;
use stored_cell::{Kept, Loaded, StoredCell};
use topic_shared::{Cell, LineLimit, SeatCount};

#[derive(Drop)]
pub(super) struct Lone<J: Naming> {
    name: TopicName,
    pub(super) cell: StoredCell<PlainTopic, J>,
}

/// A cell with one seat.
fn one_cell<R: Abort + AllocGlobal>(rt: &R, topic: PlainTopic) -> Cell<PlainTopic>
    requires { (topic.producers ≡ []) × (topic.members ≡ []) }
    ensures state { result.state ≡ topic }
    ensures viewed { result.viewed ≡ topic }
{
    let limit = LineLimit::new(100_000).expect(rt, "no limit");
    let seats = SeatCount::new(1).expect(rt, "no seats");
    Cell::new(rt.alloc(), topic, limit, seats).expect(rt, "no memory")
}

fn fresh_cell<J: Naming, R: Abort + AllocGlobal>(
    rt: &R,
    name: TopicName,
) -> StoredCell<PlainTopic, J> {
    let size = LedgerSize::new(50_000).expect(rt, "no size");
    let topic = PlainTopic::new(rt.alloc(), name, size);
    StoredCell::fresh(one_cell(rt, topic))
}

/// The topic that goes on from what was loaded.
fn resumed_cell<J: Naming, R: Abort + AllocGlobal>(
    rt: &R,
    snapshot: &Snapshot,
    kept: Kept<J>,
) -> StoredCell<PlainTopic, J>
    requires { kept.kept ≡ snapshot.now }
{
    match PlainTopic::restart(rt.alloc(), snapshot) {
        Ok(topic) => StoredCell::restarted(one_cell(rt, topic), snapshot, kept),
        Err(_) => panic!(rt; "no memory"),
    }
}

impl<J: Naming> Lone<J> {
    /// With nothing in it.
    pub(super) fn fresh<R: Abort + AllocGlobal>(rt: &R, text: &str) -> Self {
        Lone {
            name: topic_name(rt, text),
            cell: fresh_cell(rt, topic_name(rt, text)),
        }
    }

    /// What was loaded, and the topic that goes on from it.
    pub(super) fn resumed<R: Abort + AllocGlobal>(rt: &R, loaded: Loaded<J>) -> (Snapshot, Self)
        requires { loaded.kept.kept ≡ loaded.snapshot }
    {
        let Loaded { snapshot, kept } = loaded;
        let name = snapshot.name().clone().expect(rt, "no memory");
        let cell = resumed_cell(rt, &snapshot, kept);
        (snapshot, Lone { name, cell })
    }

    pub(super) fn call<R: Abort>(&mut self, rt: &R, event: Event) -> Answer {
        let receipt = self.cell.call(1, event).expect(rt, "no memory");
        Answer::of(&receipt.reply)
    }

    pub(super) fn ask<R: Abort + AllocGlobal>(&mut self, rt: &R, line: &str) -> Answer {
        let event = event_in(rt, &self.name, line);
        self.call(rt, event)
    }
}
