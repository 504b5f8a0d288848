// An open topic behind its lock, as whoever stores and whoever moves its letters sees it.
ghost use Rattle.std.specs.Prelude.{◌≡◌, Result};
ghost use Rattle.position_core.specs.declared.fault.Fault.{Fault};
ghost use Rattle.position_core.specs.declared.topic_name.TopicName.{TopicName};
ghost use Rattle.delivery_machine.specs.declared.event.Event.{Event};
ghost use Rattle.delivery_machine.specs.declared.reply.Reply.{Reply};

use crate::board::Board;
use delivery_machine::{Event, Fault, Reply, TopicName};
use std::sync::{Arc, Wait};

/// What an open topic asks of those who store, once its lock is free again.
#[derive(Clone, Copy, Debug, PartialEq, Eq)]
pub struct Wants {
    /// It is to be stored.
    pub store: bool,
    /// The thread that stores is to come to it: to send couriers, or to see it out.
    pub thread: bool,
}

/// An open topic behind a lock of its own: each call is one hold of it, and takes no other.
pub trait Guarded {
    /// The name that it is open under.
    ghost named: { Self → TopicName };

    /// What may be answered to an event.
    ghost answers: { Self → Event → Result Reply Fault → Type 0 };

    fn name(&self) -> &TopicName
        ensures { result.now ≡ named self.now };

    /// Whether it may not be used any more.
    fn is_over(&self) -> bool;

    /// It has too many owners for one more, so that it is no place on the board: its next call puts it there.
    fn fall_behind<R: Wait>(&self, rt: &R);

    /// The thread that stores is not under way to it: it has come, or was not told.
    fn call_off<R: Wait>(&self, rt: &R);

    /// One event of one who sits there for it alone, who waits until so much is stored, where a length is given.
    fn visit<R: Wait>(
        &self,
        rt: &R,
        event: Event,
        awaited: Option<u64>,
    ) -> (Result<Reply, Fault>, Wants)
        ensures { answers self.now event result.0 };

    /// Whether the subscription is there still whose grave has the number.
    fn has_grave<R: Wait>(&self, rt: &R, grave: u64) -> bool;

    /// The courier of that grave has ended: another one may be sent there.
    fn release<R: Wait>(&self, rt: &R, grave: u64) -> Wants;
}

impl<X: Guarded + Drop> Board<Arc<X>> {
    /// The topic is put here to be stored, and the thread is told to come to it, as it wants.
    pub fn grant<R: Wait>(&self, rt: &R, topic: &Arc<X>, wants: Wants) {
        if wants.store {
            self.tell(rt, topic);
        }
        if wants.thread {
            self.call_to(rt, topic);
        }
    }

    fn tell<R: Wait>(&self, rt: &R, topic: &Arc<X>) {
        match Arc::try_clone(topic) {
            Ok(topic) => self.add(rt, topic),
            Err(_) => topic.fall_behind(rt),
        }
    }

    fn call_to<R: Wait>(&self, rt: &R, topic: &Arc<X>) {
        match Arc::try_clone(topic) {
            Ok(topic) => self.send(rt, topic),
            Err(_) => topic.call_off(rt),
        }
    }

    /// There was no memory to store the topic: the thread is to, after a pause. Whoever says so has the right to store.
    pub fn put_off<R: Wait>(&self, rt: &R, topic: &Arc<X>) {
        match Arc::try_clone(topic) {
            Ok(topic) => self.add_late(rt, topic),
            Err(_) => topic.fall_behind(rt),
        }
    }
}
