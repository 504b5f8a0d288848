// A topic that goes on from what is stored of it.
ghost use Rattle.std.specs.Prelude.{◌≡◌, IfOk, IfErr, OnErr};
ghost use Rattle.std.specs.Bool.{OnTrue, OnFalse};
ghost use Rattle.position_core.specs.declared.fault.Fault.TheVariants.{NoMemory};
ghost use Rattle.delivery_machine.specs.Run.{Answers};
ghost use Rattle.delivery_machine.specs.Snapshot.{restarted};
ghost use Rattle.delivery_machine.specs.declared.event.Event.TheVariants.{Stored};
ghost use Rattle.topic_restart.specs.Standing.{Standing, opening, stored_by};

use crate::ledger::ledger_after;
use delivery_machine::{Event, Opened, Reply, Snapshot};
use position_core::Fault;
use std::alloc::Global;
use std::marker::Model;

/// A topic with the snapshot that is stored of it.
#[derive(Drop)]
pub struct Restartable<T: Opened> {
    topic: T,
    stored: Snapshot,
}

impl<T: Opened> Model for Restartable<T> {
    ghost use Rattle.std.specs.Coded.{codes};
    ghost use Rattle.delivery_machine.specs.Codes.{coded_positions, coded_pending, coded_counts};
    ghost use Rattle.delivery_machine.specs.Places.{snapshot_in};
    ghost use Rattle.topic_restart.specs.Standing.{Standing};

    ghost Value = { Standing };

    ghost coded = { Prim.hlevel (codes, coded_positions, coded_pending, coded_counts) };

    ghost view = { λ r. record { state = T.Topic.state r.topic; stored = snapshot_in r.stored } };
}

/// Whether the event has everything stored.
fn is_stored(event: &Event) -> bool
    ensures yes { OnTrue result (event.now ≡ Stored) }
    ensures no { OnFalse result ((s : Standing) → stored_by event.now s ≡ s.stored) }
{
    match event {
        Event::Stored => true,
        Event::AddProducer { .. }
        | Event::DropProducer { .. }
        | Event::Publish { .. }
        | Event::StoredTo { .. }
        | Event::Progress
        | Event::Subscribe { .. }
        | Event::Leave { .. }
        | Event::Permit { .. }
        | Event::Ack { .. }
        | Event::AckUpTo { .. }
        | Event::Nack { .. }
        | Event::Tick { .. }
        | Event::Seek { .. }
        | Event::SeekTime { .. }
        | Event::Skip { .. }
        | Event::DropSubscription { .. }
        | Event::Stats { .. }
        | Event::Trim { .. }
        | Event::SetRetention { .. }
        | Event::Dispatch { .. }
        | Event::Collect { .. }
        | Event::DeadNext { .. }
        | Event::DeadDone { .. } => false,
    }
}

impl<T: Opened + Drop> Restartable<T> {
    /// What is stored of the topic at first is its snapshot.
    pub fn new(topic: T) -> Result<Self, Fault>
        ensures ok { IfOk result (λ r. r ≡ opening (T.Topic.state topic)) }
        ensures err { IfErr result (λ fault. fault ≡ NoMemory) }
    {
        match topic.view() {
            Ok(stored) => Ok(Restartable { topic, stored }),
            Err(fault) => Err(fault),
        }
    }

    /// Keeps the snapshot of this moment, and answers the event.
    fn store(&mut self, event: &Event) -> Result<Reply, Fault>
        requires { event.now ≡ Stored }
        ensures ok { IfOk result (λ reply. Answers self.old.state event.now reply self.new.state × (self.new.stored ≡ stored_by event.now self.old)) }
        ensures err { IfErr result (λ fault. fault ≡ NoMemory) }
        ensures same { OnErr result (self.new ≡ self.old) }
    {
        match self.topic.view() {
            Ok(stored) => {
                self.stored = stored;
                Ok(self.topic.apply(event))
            }
            Err(fault) => Err(fault),
        }
    }

    /// Answers the event. F1 only where there is no room for the snapshot that `Stored` keeps.
    pub fn apply(&mut self, event: &Event) -> Result<Reply, Fault>
        ensures ok { IfOk result (λ reply. Answers self.old.state event.now reply self.new.state × (self.new.stored ≡ stored_by event.now self.old)) }
        ensures err { IfErr result (λ fault. (fault ≡ NoMemory) × (event.now ≡ Stored)) }
        ensures same { OnErr result (self.new ≡ self.old) }
    {
        if is_stored(event) {
            return self.store(event);
        }
        Ok(self.topic.apply(event))
    }

    /// Goes on from what is stored, and answers the ledger that messages go into then.
    pub fn restart(&mut self, alloc: Global) -> Result<u64, Fault>
        ensures ok { IfOk result (λ ledger. (self.new.state ≡ restarted self.old.stored) × (self.new.stored ≡ self.old.stored) × (ledger ≡ self.new.state.ledger)) }
        ensures err { IfErr result (λ fault. fault ≡ NoMemory) }
        ensures same { OnErr result (self.new ≡ self.old) }
    {
        match T::restart(alloc, &self.stored) {
            Ok(topic) => {
                self.topic = topic;
                Ok(ledger_after(&self.stored))
            }
            Err(fault) => Err(fault),
        }
    }
}
