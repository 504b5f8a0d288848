// The log of a topic, and who may write to it.
ghost use Rattle.std.specs.Prelude.{◌≡◌, ◌+◌, ◌≤◌, ◌^◌, [], IfOk, length, map, nat_le, slice_get, take};
ghost use Rattle.std.specs.List.{position_or_len};
ghost use Rattle.std.specs.Option.{option_copied};
ghost use Rattle.std.specs.List.Sorted.{IsStrictlySortedBy};
ghost use Rattle.position_core.specs.Position.{position_cmp};
ghost use Rattle.log_pieces.specs.Pieces.{index_of, joined};
ghost use Rattle.delivery_machine.specs.State.{State};
ghost use Rattle.delivery_machine.specs.Words.{next_position};
ghost use Rattle.delivery_machine.specs.Producing.{had};
ghost use Rattle.delivery_machine.specs.Run.{Answers};
ghost use Rattle.delivery_machine.specs.declared.event.Event.TheVariants.{Progress};
ghost use Rattle.entry_log.specs.Log.{next_in};
ghost use Rattle.dedup_core.specs.Sequences.{AgreesWith};
ghost use Rattle.topic_log.specs.Written.{blank, written_in};

use crate::authors::copy_of;
use crate::producer::Producer;
use dedup_core::Sequences;
use delivery_machine::{Author, Reply, Retention};
use entry_log::EntryLog;
use log_pieces::Pieces;
use position_core::{LedgerSize, Message, Moment, Position, ProducerNumber};
use std::alloc::{AllocError, Global};
use std::marker::Model;

/// The messages of a topic with the last sequence number of each name, and the connected producers. A
/// message is appended first and noted then, so the numbers agree with the messages only where a clause says
/// so. Messages count from the first of the log, but for replies, which have those that are gone before it too.
pub struct TopicLog {
    pub(crate) alloc: Global,
    pub(crate) gone: u64,
    pub(crate) authors: Vec<Author>,
    pub(crate) retention: Option<Retention>,
    pub(crate) entries: EntryLog,
    pub(crate) sequences: Sequences,
    pub(crate) durable: usize,
    pub(crate) producers: Vec<Producer>,
    pub(crate) next_producer: ProducerNumber,
    /// There were messages under the names that the topic makes of the numbers below, but for the gaps:
    /// those of connected producers without a message, as far as the last search saw them.
    pub(crate) first_auto: u64,
    pub(crate) gaps: Vec<u64>,
}

impl Drop for TopicLog {
    fn drop(self) {
        let TopicLog {
            alloc: _,
            gone: _,
            authors: _,
            retention: _,
            entries: _,
            sequences: _,
            durable: _,
            producers: _,
            next_producer: _,
            first_auto: _,
            gaps: _,
        } = self;
    }
}

impl Model for TopicLog {
    ghost use Rattle.std.specs.Coded.{codes};
    ghost use Rattle.dedup_core.specs.Sequences.{coded_numbers};
    ghost use Rattle.topic_log.specs.Written.{Written, IsKept};

    ghost Value = { Written };

    ghost coded = { Prim.hlevel (codes, coded_numbers) };

    ghost view = { λ t. record {
      gone = t.gone;
      authors = t.authors.items;
      retention = t.retention;
      log = t.entries;
      numbers = t.sequences;
      durable = t.durable;
      producers = t.producers.items;
      next_producer = t.next_producer;
    } };

    ghost invariant = { λ t. IsKept t.gone t.authors.items t.entries.log t.durable t.first_auto t.gaps.items };
}

impl TopicLog {
    /// Without messages and producers.
    pub fn new(alloc: Global, ledger_size: LedgerSize) -> Self
        ensures value { result ≡ blank ledger_size }
        ensures agrees { AgreesWith [] result.numbers }
    {
        TopicLog {
            alloc,
            gone: 0,
            authors: Vec::new(alloc),
            retention: None,
            entries: EntryLog::new(alloc, ledger_size),
            sequences: Sequences::new(alloc),
            durable: 0,
            producers: Vec::new(alloc),
            next_producer: 1,
            first_auto: 0,
            gaps: Vec::new(alloc),
        }
    }

    /// How many messages stood before those of the log, and are gone.
    pub fn gone(&self) -> u64
        ensures value { result ≡ self.now.gone }
        ensures bounded { result ≤ 2 ^ 62 }
    {
        self.gone
    }

    /// What is remembered of the messages that are gone.
    pub fn authors(&self) -> Result<Vec<Author>, AllocError>
        ensures { IfOk result (λ authors. authors.items ≡ self.now.authors) }
    {
        copy_of(self.alloc, &self.authors)
    }

    /// The topic's own rule of what is kept, where it has one.
    pub fn retention(&self) -> Option<Retention>
        ensures { result ≡ self.now.retention }
    {
        self.retention
    }

    /// From now on the topic has this rule of its own, or none.
    pub fn set_retention(&mut self, retention: Option<Retention>)
        ensures { self.new ≡ record self.old { retention = retention } }
    {
        self.retention = retention;
    }

    /// How many messages the log has. Their positions rise.
    pub fn len(&self) -> usize
        ensures value { result ≡ length self.now.log.log }
        ensures short { result ≤ 1048576 }
        ensures rising { IsStrictlySortedBy position_cmp (map (λ e. e.position) self.now.log.log) }
    {
        self.entries.len()
    }

    /// The message at an index.
    pub fn get(&self, index: usize) -> Option<&Message>
        ensures { option_copied result ≡ slice_get self.now.log.log index }
    {
        self.entries.get(index)
    }

    /// The index of the message at the position. Takes the logarithm of the log's length.
    pub fn index_of(&self, at: Position) -> Option<usize>
        ensures { result ≡ index_of at self.now.log.log }
    {
        self.entries.index_of(at)
    }

    /// How many of the stored messages stand before the first of them that is not earlier than the time.
    /// Takes the logarithm of the log's length, and goes through 1,024 messages at most.
    pub fn count_earlier(&self, time: Moment) -> usize
        ensures value { result ≡ position_or_len (λ e. nat_le time e.time) (take self.now.durable self.now.log.log) }
        ensures within { result ≤ length self.now.log.log }
    {
        self.durable.min(self.entries.count_earlier(time))
    }

    /// How many of the first messages are stored.
    pub fn durable(&self) -> usize
        ensures value { result ≡ self.now.durable }
        ensures within { result ≤ length self.now.log.log }
    {
        self.durable
    }

    /// The messages, most of which the copy shares. Takes a step for each full segment.
    pub fn pieces(&self) -> Result<Pieces, AllocError>
        ensures { IfOk result (λ pieces. joined pieces ≡ self.now.log.log) }
    {
        self.entries.pieces()
    }

    /// The ledger that messages go into.
    pub fn ledger(&self) -> u64
        ensures { result ≡ self.now.log.ledger }
    {
        self.entries.ledger()
    }

    /// How many messages a ledger has at most.
    pub fn ledger_size(&self) -> LedgerSize
        ensures { result ≡ self.now.log.ledger_size }
    {
        self.entries.ledger_size()
    }

    /// The position of the next message.
    pub fn next_position(&self) -> Position
        ensures value { result ≡ next_in self.now.log }
        ensures machine { (s : State) → result ≡ next_position (written_in self.now s) }
    {
        self.entries.next_position()
    }

    /// How many messages the topic has had, those among them that are gone.
    pub fn had(&self) -> u64
        ensures value { result ≡ self.now.gone + length self.now.log.log }
        ensures machine { (s : State) → result ≡ had (written_in self.now s) }
    {
        self.gone + self.entries.len() as u64
    }

    /// How many of all messages are stored.
    pub fn progress(&self) -> Reply
        ensures { (s : State) → Answers (written_in self.now s) Progress result (written_in self.now s) }
    {
        let length = self.entries.len();
        Reply::Progress {
            durable: self.gone + self.durable as u64,
            length: self.gone + length as u64,
        }
    }
}
