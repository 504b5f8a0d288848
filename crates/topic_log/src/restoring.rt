// The log of a topic that begins again from a snapshot.
ghost use Rattle.std.specs.Prelude.{◌≡◌, ◌+◌, ◌<◌, ◌≤◌, ◌^◌, ℕ, [], List, None, IfOk, OnOk, All, length, map};
ghost use Rattle.std.specs.List.{IsDistinct};
ghost use Rattle.std.specs.List.Sorted.{IsStrictlySortedBy};
ghost use Rattle.std.specs.Str.{bytes_eq};
ghost use Rattle.position_core.specs.Position.{position_cmp};
ghost use Rattle.delivery_machine.specs.State.{Author};
ghost use Rattle.delivery_machine.specs.Trimming.{with_authors};
ghost use Rattle.delivery_machine.specs.WellFormed.{AreAuthors};
ghost use Rattle.log_pieces.specs.Pieces.{joined};
ghost use Rattle.dedup_core.specs.Sequences.{AgreesWith};
ghost use Rattle.topic_log.specs.Written.{all_of};

use crate::topic_log::TopicLog;
use dedup_core::Sequences;
use delivery_machine::{Author, Retention};
use entry_log::EntryLog;
use log_pieces::Pieces;
use position_core::LedgerSize;
use std::alloc::{AllocError, Global};

/// The numbers that are remembered of messages that are gone.
fn numbers_of(alloc: Global, authors: &[Author]) -> Result<Sequences, AllocError>
    requires { IsDistinct bytes_eq (map (λ a. a.name) authors.now) }
    ensures { IfOk result (AgreesWith authors.now) }
{
    let mut sequences = Sequences::new(alloc);
    'each: for i in 0..authors.len() {
        let author = &authors[i];
        sequences.offer(&author.name, author.sequence, author.index)?;
    }
    Ok(sequences)
}

/// With those of the messages of the log, which so many were before.
fn add_messages(sequences: &mut Sequences, gone: u64, pieces: &Pieces) -> Result<(), AllocError>
    requires { gone + length (joined pieces.now) < 2 ^ 64 }
    ensures { OnOk result ((authors : List Author) → AreAuthors gone authors → AgreesWith authors sequences.old
        → AgreesWith (with_authors gone (joined pieces.now) authors) sequences.new) }
{
    for index in 0..pieces.count() {
        let Some(message) = pieces.get(index) else {
            unreachable!();
        };
        let entry = message.entry();
        sequences.offer(&entry.producer, entry.sequence, gone + index as u64)?;
    }
    Ok(())
}

impl TopicLog {
    /// The messages of a snapshot, all stored, and a ledger after theirs, into which further messages go; so many
    /// messages are gone before them, of which the authors are remembered; nobody is connected.
    pub fn restored(
        alloc: Global,
        gone: u64,
        authors: Vec<Author>,
        retention: Option<Retention>,
        pieces: Pieces,
        ledger: u64,
        ledger_size: LedgerSize,
    ) -> Result<Self, AllocError>
        requires room { gone ≤ 2 ^ 62 }
        requires remembered { AreAuthors gone authors.items }
        requires rising { IsStrictlySortedBy position_cmp (map (λ e. e.position) (joined pieces)) }
        requires before { All (λ e. e.position.ledger < ledger) (joined pieces) }
        requires bounded { ledger ≤ 2 ^ 62 + 1 }
        requires short { length (joined pieces) ≤ 1048576 }
        ensures gone { IfOk result (λ t. t.gone ≡ gone) }
        ensures authors { IfOk result (λ t. t.authors ≡ authors.items) }
        ensures retention { IfOk result (λ t. t.retention ≡ retention) }
        ensures log { IfOk result (λ t. t.log ≡ record { log = joined pieces; ledger = ledger; ledger_size = ledger_size; undo = None }) }
        ensures stored { IfOk result (λ t. t.durable ≡ length (joined pieces)) }
        ensures producers { IfOk result (λ t. (t.producers ≡ []) × (t.next_producer ≡ 1)) }
        ensures agrees { IfOk result (λ t. AgreesWith (all_of t) t.numbers) }
    {
        let mut sequences = numbers_of(alloc, &authors)?;
        add_messages(&mut sequences, gone, &pieces)?;
        let durable = pieces.count();
        Ok(TopicLog {
            alloc,
            gone,
            authors,
            retention,
            entries: EntryLog::restored(pieces, ledger, ledger_size),
            sequences,
            durable,
            producers: Vec::new(alloc),
            next_producer: 1,
            first_auto: 0,
            gaps: Vec::new(alloc),
        })
    }
}
