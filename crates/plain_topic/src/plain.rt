// The plain topic: the lists of a state that a run comes to.
ghost use Rattle.std.specs.Prelude.{◌≡◌, IfOk, IfErr};
ghost use Rattle.position_core.specs.declared.fault.Fault.TheVariants.{NoMemory};
ghost use Rattle.delivery_machine.specs.State.{fresh};

use crate::lists::Lists;
use delivery_machine::{Deliveries, Event, Opened, Reply, Retention, Saved, Snapshot, Topic};
use position_core::{ConsumerNumber, Fault, LedgerSize, TopicName};
use std::alloc::Global;
use std::marker::Model;

/// A topic over lists. It is slow on purpose: each event looks through whole lists, as the machine's
/// rules say it.
pub struct PlainTopic {
    pub(crate) lists: Lists,
}

impl Drop for PlainTopic {
    fn drop(self) {
        let PlainTopic { lists: _ } = self;
    }
}

impl Model for PlainTopic {
    ghost use Rattle.std.specs.Coded.{codes};
    ghost use Rattle.delivery_machine.specs.Codes.{coded_positions, coded_pending, coded_counts};
    ghost use Rattle.delivery_machine.specs.State.{State};
    ghost use Rattle.delivery_machine.specs.Laws.{IsReached};
    ghost use Rattle.plain_topic.specs.StateOf.{state_of};

    ghost Value = { State };

    ghost coded = { Prim.hlevel (codes, coded_positions, coded_pending, coded_counts) };

    ghost view = { λ t. state_of t.lists };

    ghost invariant = { λ t. IsReached (state_of t.lists) };
}

impl PlainTopic {
    /// A topic with nothing in it.
    pub fn new(alloc: Global, name: TopicName, ledger_size: LedgerSize) -> Self
        ensures { result ≡ fresh name ledger_size }
    {
        PlainTopic {
            lists: Lists::new(alloc, name, ledger_size),
        }
    }
}

impl Topic for PlainTopic {
    ghost state = { λ topic. topic };

    fn apply(&mut self, event: &Event) -> Reply {
        self.lists.apply(event)
    }

    fn out_copy(&self, consumer: ConsumerNumber) -> Result<Deliveries, Fault> {
        self.lists.out_of(consumer)
    }

    fn retention(&self) -> Option<Retention> {
        self.lists.retention
    }
}

impl Saved for PlainTopic {
    ghost use Rattle.std.specs.Prelude.{◌≡◌, true};

    ghost saved = { λ topic. topic };

    ghost Same = { λ one other. one ≡ other };

    ghost has_room = { λ _. true };

    fn ready(&mut self) -> Result<(), Fault> {
        Ok(())
    }

    fn view(&self) -> Result<Snapshot, Fault> {
        match self.lists.snapshot() {
            Ok(snapshot) => Ok(snapshot),
            Err(_) => Err(Fault::NoMemory),
        }
    }

    fn stored(&mut self) -> Reply {
        self.lists.stored()
    }
}

impl Opened for PlainTopic {
    ghost use Rattle.std.proofs.Common.{refl};

    ghost saves_state = { λ topic. refl };

    fn fresh(alloc: Global, name: TopicName, ledger_size: LedgerSize) -> Result<Self, Fault> {
        Ok(PlainTopic::new(alloc, name, ledger_size))
    }

    fn restart(alloc: Global, snapshot: &Snapshot) -> Result<Self, Fault> {
        match Lists::restarted(alloc, snapshot) {
            Ok(lists) => Ok(PlainTopic { lists }),
            Err(_) => Err(Fault::NoMemory),
        }
    }
}
