// The parts of a topic, and its dispatchers.
use crate::dispatch::Dispatch;
use position_core::{LedgerSize, TopicName};
use std::alloc::Global;
use topic_parts::Parts;

/// The dispatchers stand in the order of their subscriptions.
#[derive(Drop)]
pub struct Served {
    pub parts: Parts,
    pub dispatchers: Vec<Dispatch>,
}

impl Served {
    ghost use Rattle.std.specs.Prelude.{◌≡◌};
    ghost use Rattle.delivery_machine.specs.State.{fresh};
    ghost use Rattle.topic_served.specs.Served.{IsSettled, state_in};

    /// With nothing in it.
    pub fn new(alloc: Global, name: TopicName, ledger_size: LedgerSize) -> Self
        ensures state { state_in result ≡ fresh name ledger_size }
        ensures settled { IsSettled result }
    {
        Served {
            parts: Parts::new(alloc, name, ledger_size),
            dispatchers: Vec::new(alloc),
        }
    }
}
