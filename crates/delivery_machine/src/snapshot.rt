// Snapshots: what a store keeps of a topic.
ghost use Rattle.std.specs.Prelude.{◌≡◌};
ghost use Rattle.log_pieces.specs.Pieces.{joined};
ghost use Rattle.delivery_machine.specs.Places.{MayRestart};

use crate::author::Author;
use crate::kept_subscription::KeptSubscription;
use crate::retention::Retention;
use log_pieces::Pieces;
use position_core::{LedgerSize, Ordinal, TopicName};
use std::alloc::AllocError;
use std::marker::Model;

/// What is kept of a topic, from which a topic may go on. The messages are shared with the topic, and a
/// clone shares them too: it takes a step for each segment of the log, each range of what is acknowledged,
/// each count and each dead letter.
pub struct Snapshot {
    name: TopicName,
    ledger_size: LedgerSize,
    ledger: u64,
    next_ordinal: Ordinal,
    gone: u64,
    authors: Vec<Author>,
    retention: Option<Retention>,
    log: Pieces,
    subscriptions: Vec<KeptSubscription>,
}

impl Drop for Snapshot {
    fn drop(self) {
        let Snapshot {
            name: _,
            ledger_size: _,
            ledger: _,
            next_ordinal: _,
            gone: _,
            authors: _,
            retention: _,
            log: _,
            subscriptions: _,
        } = self;
    }
}

impl Model for Snapshot {
    ghost use Rattle.log_pieces.specs.Pieces.{joined};
    ghost use Rattle.std.specs.Coded.{codes};
    ghost use Rattle.delivery_machine.specs.Codes.{coded_places, coded_counts};
    ghost use Rattle.delivery_machine.specs.Places.{KeptTopic, MayRestart};

    ghost Value = { KeptTopic };

    ghost coded = { Prim.hlevel (codes, coded_places, coded_counts) };

    ghost view = { λ k. record {
      name = k.name;
      ledger_size = k.ledger_size;
      ledger = k.ledger;
      next_ordinal = k.next_ordinal;
      gone = k.gone;
      authors = k.authors.items;
      retention = k.retention;
      log = joined k.log;
      subscriptions = k.subscriptions.items;
    } };

    ghost invariant = { λ k. MayRestart (record {
      name = k.name;
      ledger_size = k.ledger_size;
      ledger = k.ledger;
      next_ordinal = k.next_ordinal;
      gone = k.gone;
      authors = k.authors.items;
      retention = k.retention;
      log = joined k.log;
      subscriptions = k.subscriptions.items;
    }) };
}

impl Snapshot {
    /// Of its parts, where a topic may go on from them.
    pub fn of(
        name: TopicName,
        ledger_size: LedgerSize,
        ledger: u64,
        next_ordinal: Ordinal,
        gone: u64,
        authors: Vec<Author>,
        retention: Option<Retention>,
        log: Pieces,
        subscriptions: Vec<KeptSubscription>,
    ) -> Self
        requires { MayRestart (record { name = name; ledger_size = ledger_size; ledger = ledger; next_ordinal = next_ordinal; gone = gone; authors = authors.items; retention = retention; log = joined log; subscriptions = subscriptions.items }) }
        ensures { result ≡ record { name = name; ledger_size = ledger_size; ledger = ledger; next_ordinal = next_ordinal; gone = gone; authors = authors.items; retention = retention; log = joined log; subscriptions = subscriptions.items } }
    {
        Snapshot {
            name,
            ledger_size,
            ledger,
            next_ordinal,
            gone,
            authors,
            retention,
            log,
            subscriptions,
        }
    }

    pub fn name(&self) -> &TopicName
        ensures { result.now ≡ self.now.name }
    {
        &self.name
    }

    pub fn ledger_size(&self) -> LedgerSize
        ensures { result ≡ self.now.ledger_size }
    {
        self.ledger_size
    }

    /// The ledger that was open: a topic that goes on begins the next one.
    pub fn ledger(&self) -> u64
        ensures { result ≡ self.now.ledger }
    {
        self.ledger
    }

    pub fn next_ordinal(&self) -> Ordinal
        ensures { result ≡ self.now.next_ordinal }
    {
        self.next_ordinal
    }

    /// How many messages stood before the log, and were taken out of it.
    pub fn gone(&self) -> u64
        ensures { result ≡ self.now.gone }
    {
        self.gone
    }

    /// Who wrote them, in the order of their last messages.
    pub fn authors(&self) -> &[Author]
        ensures { result.now ≡ self.now.authors }
    {
        &self.authors
    }

    /// The topic's own rule of what is kept, where it has one.
    pub fn retention(&self) -> Option<Retention>
        ensures { result ≡ self.now.retention }
    {
        self.retention
    }

    pub fn log(&self) -> &Pieces
        ensures value { joined result.now ≡ self.now.log }
        ensures restarts { MayRestart self.now }
    {
        &self.log
    }

    /// In the order of their names.
    pub fn subscriptions(&self) -> &[KeptSubscription]
        ensures { result.now ≡ self.now.subscriptions }
    {
        &self.subscriptions
    }
}

impl Clone for Snapshot {
    ghost is_clone = { λ snapshot copy. copy ≡ snapshot };

    fn clone(&self) -> Result<Self, AllocError> {
        let name = self.name.clone()?;
        let authors = self.authors.clone()?;
        let log = self.log.clone()?;
        let subscriptions = self.subscriptions.clone()?;
        Ok(Snapshot {
            name,
            ledger_size: self.ledger_size,
            ledger: self.ledger,
            next_ordinal: self.next_ordinal,
            gone: self.gone,
            authors,
            retention: self.retention,
            log,
            subscriptions,
        })
    }
}
