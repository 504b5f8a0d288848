// The fast topic, as what owns a topic sees it.
ghost use Rattle.std.specs.Prelude.{◌≡◌};
ghost use Rattle.delivery_machine.specs.State.{fresh};

use crate::answering::answer;
use crate::restoring::restored;
use crate::saving::snapshot;
use crate::watching::consumer_counts;
use delivery_machine::{
    ConsumerCounts, Deliveries, Event, Opened, Reply, Retention, Saved, Snapshot, Topic, Watched,
};
use log_events::stored;
use member_events::out_copy;
use position_core::{ConsumerNumber, Fault, LedgerSize, TopicName};
use std::alloc::Global;
use std::marker::Model;
use topic_served::Served;

/// A topic over a log in segments and subscriptions by places in it. An event takes the logarithm of what the
/// topic holds, and as much again for each message or member that it changes.
pub struct TopicCore {
    served: Served,
}

impl Drop for TopicCore {
    fn drop(self) {
        let TopicCore { served: _ } = self;
    }
}

impl Model for TopicCore {
    ghost use Rattle.std.specs.Coded.{codes};
    ghost use Rattle.delivery_machine.specs.Codes.{coded_positions, coded_pending, coded_counts};
    ghost use Rattle.delivery_machine.specs.State.{State};
    ghost use Rattle.topic_served.specs.Served.{IsSettled, state_in};

    ghost Value = { State };

    ghost coded = { Prim.hlevel (codes, coded_positions, coded_pending, coded_counts) };

    ghost view = { λ t. state_in t.served };

    ghost invariant = { λ t. IsSettled t.served };
}

impl TopicCore {
    /// A topic with nothing in it.
    pub fn new(alloc: Global, name: TopicName, ledger_size: LedgerSize) -> Self
        ensures { result ≡ fresh name ledger_size }
    {
        TopicCore {
            served: Served::new(alloc, name, ledger_size),
        }
    }
}

impl Topic for TopicCore {
    ghost state = { λ topic. topic };

    fn apply(&mut self, event: &Event) -> Reply {
        answer(&mut self.served, event)
    }

    fn out_copy(&self, consumer: ConsumerNumber) -> Result<Deliveries, Fault> {
        out_copy(&self.served, consumer)
    }

    fn retention(&self) -> Option<Retention> {
        self.served.parts.log.retention()
    }
}

impl Saved for TopicCore {
    ghost use Rattle.std.specs.Prelude.{◌≡◌, true};

    ghost saved = { λ topic. topic };

    ghost Same = { λ one other. one ≡ other };

    ghost has_room = { λ _. true };

    fn ready(&mut self) -> Result<(), Fault> {
        Ok(())
    }

    fn view(&self) -> Result<Snapshot, Fault> {
        match snapshot(&self.served) {
            Ok(snapshot) => Ok(snapshot),
            Err(_) => Err(Fault::NoMemory),
        }
    }

    fn stored(&mut self) -> Reply {
        stored(&mut self.served)
    }
}

impl Opened for TopicCore {
    ghost use Rattle.std.proofs.Common.{refl};

    ghost saves_state = { λ topic. refl };

    fn fresh(alloc: Global, name: TopicName, ledger_size: LedgerSize) -> Result<Self, Fault> {
        Ok(TopicCore::new(alloc, name, ledger_size))
    }

    fn restart(alloc: Global, snapshot: &Snapshot) -> Result<Self, Fault> {
        match restored(alloc, snapshot) {
            Ok(served) => Ok(TopicCore { served }),
            Err(fault) => Err(fault),
        }
    }
}

impl Watched for TopicCore {
    fn consumer_counts(&self, consumer: ConsumerNumber) -> Option<ConsumerCounts> {
        consumer_counts(&self.served, consumer)
    }
}
