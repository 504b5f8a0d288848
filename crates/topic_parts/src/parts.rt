// A topic's fields.
use position_core::{LedgerSize, Ordinal, TopicName};
use std::alloc::Global;
use topic_log::TopicLog;
use topic_members::Members;
use topic_subscriptions::Subscription;

/// What a topic keeps: its log and who may write to it, its members in the order of their numbers, and its
/// subscriptions in the order of their names.
#[derive(Drop)]
pub struct Parts {
    pub alloc: Global,
    pub name: TopicName,
    pub next_ordinal: Ordinal,
    pub log: TopicLog,
    pub members: Members,
    pub subscriptions: Vec<Subscription>,
}

impl Parts {
    ghost use Rattle.std.specs.Prelude.{◌≡◌, []};
    ghost use Rattle.delivery_machine.specs.State.{fresh};
    ghost use Rattle.dedup_core.specs.Sequences.{AgreesWith};
    ghost use Rattle.topic_parts.specs.Parts.{AreTied, state_of};

    /// With nothing in it.
    pub fn new(alloc: Global, name: TopicName, ledger_size: LedgerSize) -> Self
        ensures state { state_of result ≡ fresh name ledger_size }
        ensures tied { AreTied result }
        ensures agrees { AgreesWith [] result.log.numbers }
    {
        Parts {
            alloc,
            name,
            next_ordinal: 0,
            log: TopicLog::new(alloc, ledger_size),
            members: Members::new(alloc),
            subscriptions: Vec::new(alloc),
        }
    }
}
