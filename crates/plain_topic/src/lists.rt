// A topic's fields, as lists.
ghost use Rattle.std.specs.Prelude.{◌≤◌, ◌+◌, ◌^◌, vec_len};

use delivery_machine::{Author, Retention};
use plain_lists::{Member, Producer, Subscription};
use position_core::{ConsumerNumber, LedgerSize, Message, Ordinal, ProducerNumber, TopicName};
use std::alloc::Global;

/// What a topic keeps, each part as the machine's list or set of it.
#[derive(Drop)]
pub(crate) struct Lists {
    pub(crate) alloc: Global,
    pub(crate) name: TopicName,
    pub(crate) ledger_size: LedgerSize,
    pub(crate) ledger: u64,
    pub(crate) next_ordinal: Ordinal,
    pub(crate) next_producer: ProducerNumber,
    pub(crate) next_consumer: ConsumerNumber,
    pub(crate) gone: u64,
    pub(crate) authors: Vec<Author>,
    pub(crate) retention: Option<Retention>,
    pub(crate) log: Vec<Message>,
    pub(crate) durable: usize,
    pub(crate) producers: Vec<Producer>,
    pub(crate) members: Vec<Member>,
    pub(crate) subscriptions: Vec<Subscription>,
    ghost visible_in_log: { durable ≤ vec_len log },
    ghost log_fits: { vec_len log ≤ 1048576 },
    ghost gone_fits: { gone ≤ 2 ^ 62 },
    ghost ledger_fits: { ledger ≤ 2 ^ 62 + 1 },
    ghost ordinal_fits: { next_ordinal ≤ 2 ^ 62 },
}

impl Lists {
    ghost use Rattle.std.specs.Prelude.{◌≡◌, ◌+◌, ◌≤◌, ◌^◌};
    ghost use Rattle.delivery_machine.specs.State.{fresh};
    ghost use Rattle.delivery_machine.specs.Producing.{had};
    ghost use Rattle.delivery_machine.specs.Words.{visible};
    ghost use Rattle.plain_topic.specs.StateOf.{state_of};

    /// With nothing in it.
    pub(crate) fn new(alloc: Global, name: TopicName, ledger_size: LedgerSize) -> Self
        ensures { state_of result ≡ fresh name ledger_size }
    {
        Lists {
            alloc,
            name,
            ledger_size,
            ledger: 0,
            next_ordinal: 0,
            next_producer: 1,
            next_consumer: 1,
            gone: 0,
            authors: Vec::new(alloc),
            retention: None,
            log: Vec::new(alloc),
            durable: 0,
            producers: Vec::new(alloc),
            members: Vec::new(alloc),
            subscriptions: Vec::new(alloc),
        }
    }

    /// How many messages the topic has had.
    pub(crate) fn had(&self) -> u64
        ensures value { result ≡ had (state_of self.now) }
        ensures within { result ≤ 2 ^ 62 + 1048576 }
    {
        self.gone + self.log.len() as u64
    }

    /// The messages that may be sent.
    pub(crate) fn visible(&self) -> &[Message]
        ensures { result.now ≡ visible (state_of self.now) }
    {
        &self.log[..self.durable]
    }
}
