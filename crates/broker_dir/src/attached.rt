// A seat at a topic, and the calls of whoever sits there.
ghost use Rattle.std.specs.Prelude.{◌≡◌};
ghost use Rattle.broker_dir.specs.Answering.{IsAsked};

use crate::topic::Shared;
use broker_parts::{Board, Visitor, Wants};
use delivery_machine::{Event, Fault, Opened, Reply, TopicName};
use marks::Naming;
use session_bells::{Asked, Bell, Rest};
use std::sync::{Arc, Wait};

/// A seat at an open topic, until it is detached.
pub struct Attached<T: Opened + Drop, J: Naming, B: Bell + Drop> {
    pub(crate) topic: Arc<Shared<T, J, B>>,
    pub(crate) seat: u64,
}

impl<T: Opened + Drop, J: Naming, B: Bell + Drop> Drop for Attached<T, J, B> {
    fn drop(self) {
        let Attached { topic: _, seat: _ } = self;
    }
}

impl<T: Opened + Drop, J: Naming, B: Bell + Drop> Attached<T, J, B> {
    pub fn topic(&self) -> &TopicName {
        &self.topic.name
    }

    /// The topic, at which the seat is free again.
    pub(crate) fn into_topic(self) -> Arc<Shared<T, J, B>>
        ensures { result ≡ self.topic }
    {
        let Attached { topic, seat: _ } = self;
        topic
    }

    /// It says who it is, to those who look.
    pub(crate) fn introduce<R: Wait>(&self, rt: &R, visitor: Visitor) {
        let mut inside = self.topic.inside.lock(rt);
        inside.hearers.visitors.enter(self.seat, visitor);
    }

    /// It has nothing to do until what it waits for has come, when its bell rings. False where it has come already.
    pub(crate) fn rest<R: Wait>(&self, rt: &R, rest: Rest) -> bool {
        let mut inside = self.topic.inside.lock(rt);
        inside.hearers.bells.rest(rt, self.seat, rest)
    }

    /// The topic's answer to one event, where its messages may have so many bytes together.
    pub(crate) fn ask<R: Wait>(
        &self,
        rt: &R,
        board: &Board<Arc<Shared<T, J, B>>>,
        most: Option<u64>,
        event: Event,
    ) -> Result<Reply, Fault>
        ensures asks { IsAsked T J B T.Topic T.Saved J.Naming event result }
    {
        let asked = match Asked::of(&event) {
            Ok(asked) => asked,
            Err(fault) => {
                drop(event);
                return Err(fault);
            }
        };
        let mut inside = self.topic.inside.lock(rt);
        let answer = inside.answer_within(rt, most, self.seat, &asked, event);
        let store = inside.wants_storing();
        drop(inside);
        drop(asked);
        self.topic.signs.note_answer(&answer);
        let wants = Wants {
            store,
            thread: false,
        };
        board.grant(rt, &self.topic, wants);
        answer
    }
}
