// A topic that nobody else has.
ghost use Rattle.std.specs.Prelude.{◌≡◌, ◌+◌, Err, IfErr, IfOk, Ok};
ghost use Rattle.delivery_machine.specs.Places.{snapshot_in};
ghost use Rattle.delivery_machine.specs.Run.{Answers};
ghost use Rattle.delivery_machine.specs.Snapshot.{snapshot_of};
ghost use Rattle.session_links.specs.Looking.{Shows};

use crate::hold::Hold;
use crate::looking::Look;
use crate::request::PeekLength;
use delivery_machine::{Event, Fault, Opened, Reply, SubscriptionName};
use std::alloc::Global;

/// A topic that nobody else has.
#[derive(Drop)]
pub struct Alone<T: Drop> {
    pub topic: T,
}

impl<T: Opened + Drop> Alone<T> {
    pub fn apply(&mut self, event: &Event) -> Reply
        ensures { Answers (T.state self.old.topic) event.now result (T.state self.new.topic) }
    {
        self.topic.apply(event)
    }

    /// How many messages are stored of all that the topic has had.
    fn stored(&mut self) -> u64
        ensures stored { result ≡ (T.state self.old.topic).gone + (T.state self.old.topic).durable }
        ensures stays { T.state self.new.topic ≡ T.state self.old.topic }
    {
        match self.topic.apply(&Event::Progress) {
            Reply::Progress { durable, length: _ } => durable,
            _ => unreachable!(),
        }
    }

    fn look(&mut self) -> Result<Look, Fault>
        ensures kept { IfOk result (λ look. snapshot_in look.snapshot ≡ snapshot_of (T.state self.old.topic)) }
        ensures stored { IfOk result (λ look. look.stored ≡ (T.state self.old.topic).gone + (T.state self.old.topic).durable) }
        ensures err { IfErr result (λ fault. fault ≡ Fault.NoMemory) }
        ensures stays { T.state self.new.topic ≡ T.state self.old.topic }
    {
        let stored = self.stored();
        match self.topic.view() {
            Ok(snapshot) => Ok(Look { snapshot, stored }),
            Err(fault) => Err(fault),
        }
    }

    /// The next messages of the subscription, so many at most.
    pub(crate) fn peek(
        &mut self,
        alloc: Global,
        name: &SubscriptionName,
        count: PeekLength,
    ) -> Result<Reply, Fault>
        ensures shows { Shows (T.state self.old.topic) name.now count result }
        ensures stays { T.state self.new.topic ≡ T.state self.old.topic }
    {
        match self.look() {
            Ok(look) => {
                let shown = look.next_of(alloc, name, count);
                drop(look);
                shown
            }
            Err(fault) => Err(fault),
        }
    }
}

impl<T: Opened + Drop> Hold for Alone<T> {
    ghost use Rattle.std.proofs.Common.{inr};
    ghost use Rattle.session_links.specs.Lists.{Handed};

    ghost state = { λ a. T.state a.topic };

    ghost answers = { Handed };

    fn hand(&mut self, event: Event) -> Result<Reply, Fault> {
        let reply = self.topic.apply(&event);
        drop(event);
        Ok(reply)
    }

    fn spare(&mut self) {}

    ghost hears = { λ s event reply t answers. inr answers };

    ghost refuses = { λ s event fault t never. absurd never };
}
