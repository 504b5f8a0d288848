// A topic's snapshot, from its rows.
ghost use Rattle.std.specs.Prelude.{◌≡◌, ◌+◌, ◌<◌, ◌≤◌, ◌^◌, ◌∷◌, [], ℕ, List, length, IfNone, IfOk, IfSome, IsTrue};
ghost use Rattle.sqlite.specs.Order.{Row};
ghost use Rattle.position_core.specs.declared.message.Entry.{Entry};
ghost use Rattle.position_core.specs.TopicName.{topic_text};
ghost use Rattle.log_pieces.specs.Pieces.{joined};
ghost use Rattle.delivery_machine.specs.Places.{KeptPlaces, KeptTopic, MayRestart};
ghost use Rattle.delivery_machine.specs.State.{Author};
ghost use Rattle.delivery_machine.specs.WellFormed.{AreAuthors, IsWellFormedLog};
ghost use Rattle.row_forms.specs.Forms.{AreAckRows, AreRowsOf, author_rows, count_rows, dead_rows, entry_rows, sub_rows};
ghost use Rattle.row_forms.specs.Parts.{IsRising};
ghost use Rattle.row_reading.specs.declared.topic_row.Head.{Head};
ghost use Rattle.row_reading.specs.Places.{seen};
ghost use Rattle.row_reading.specs.Reading.{AreSubsOf, IsFrontIn, IsHeadIn, IsReadBack, MayBeTold, RememberFromZero, ShowAuthors, ShowSubs, put, rows_with, span_read};

use crate::author_rows::authors_in;
use crate::dead_rows::Deaths;
use crate::kept_subs::{Left, subs_in};
use crate::log_reader::LogReader;
use crate::places::Kept;
use crate::retention_rows::Front;
use crate::topic_row::Head;
use delivery_machine::{Author, KeptSubscription, Snapshot};
use log_pieces::Pieces;
use position_core::{Ordinal, TopicName};
use row_tables::SideRows;
use std::alloc::{AllocError, Global};

/// The subscriptions that the rows show, where this is the log.
fn subs_with(
    alloc: Global,
    name: &TopicName,
    sides: &SideRows,
    kept: Kept<'_>,
    next_ordinal: Ordinal,
) -> Result<Option<Vec<KeptSubscription>>, AllocError>
    requires rising { IsRising (seen kept).log }
    requires short { length (seen kept).log ≤ 1048576 }
    requires last { next_ordinal ≤ 2 ^ 62 }
    ensures rows { IfOk result (λ found. IfSome found (λ subs. (topic : List ℕ) → put topic sides.now.subs.items ≡ sub_rows topic subs.items)) }
    ensures acks { IfOk result (λ found. IfSome found (λ subs. (topic : List ℕ) → AreAckRows topic kept.entry.gone subs.items (put topic sides.now.acks.items))) }
    ensures deads { IfOk result (λ found. IfSome found (λ subs. (topic : List ℕ) → put topic sides.now.deads.items ≡ dead_rows topic (seen kept.entry) subs.items)) }
    ensures counts { IfOk result (λ found. IfSome found (λ subs. (topic : List ℕ) → put topic sides.now.counts.items ≡ count_rows topic (seen kept.entry) subs.items)) }
    ensures sound { IfOk result (λ found. IfSome found (λ subs. AreSubsOf name.now (seen kept.entry).log next_ordinal subs.items)) }
    ensures few { IfOk result (λ found. IfSome found (λ subs. length subs.items ≤ 64)) }
    ensures all_read { IfOk result (λ found. IfNone found ((topic : List ℕ) (all : List KeptPlaces) → length all ≤ 64 → ShowSubs name.now (seen kept.entry) next_ordinal topic all sides.now.subs.items sides.now.acks.items sides.now.deads.items sides.now.counts.items → ⊥)) }
{
    let others = Left {
        acks: &sides.acks,
        deads: &sides.deads,
        counts: &sides.counts,
    };
    let deaths = Deaths {
        topic: name,
        kept,
        next_ordinal,
    };
    subs_in(alloc, &sides.subs, others, deaths)
}

/// The producers of messages that are gone, and the subscriptions.
#[derive(Drop)]
struct Parts {
    authors: Vec<Author>,
    subs: Vec<KeptSubscription>,
}

/// Both as the rows show them, where this is the log.
fn parts_with(
    alloc: Global,
    name: &TopicName,
    sides: &SideRows,
    kept: Kept<'_>,
    next_ordinal: Ordinal,
) -> Result<Option<Parts>, AllocError>
    requires rising { IsRising (seen kept).log }
    requires short { length (seen kept).log ≤ 1048576 }
    requires last { next_ordinal ≤ 2 ^ 62 }
    ensures authors { IfOk result (λ found. IfSome found (λ p. (topic : List ℕ) → put topic sides.now.authors.items ≡ author_rows topic p.authors.items)) }
    ensures remembered { IfOk result (λ found. IfSome found (λ p. AreAuthors kept.entry.gone p.authors.items)) }
    ensures from_zero { IfOk result (λ found. IfSome found (λ p. RememberFromZero p.authors.items)) }
    ensures rows { IfOk result (λ found. IfSome found (λ p. (topic : List ℕ) → put topic sides.now.subs.items ≡ sub_rows topic p.subs.items)) }
    ensures acks { IfOk result (λ found. IfSome found (λ p. (topic : List ℕ) → AreAckRows topic kept.entry.gone p.subs.items (put topic sides.now.acks.items))) }
    ensures deads { IfOk result (λ found. IfSome found (λ p. (topic : List ℕ) → put topic sides.now.deads.items ≡ dead_rows topic (seen kept.entry) p.subs.items)) }
    ensures counts { IfOk result (λ found. IfSome found (λ p. (topic : List ℕ) → put topic sides.now.counts.items ≡ count_rows topic (seen kept.entry) p.subs.items)) }
    ensures sound { IfOk result (λ found. IfSome found (λ p. AreSubsOf name.now (seen kept.entry).log next_ordinal p.subs.items)) }
    ensures few { IfOk result (λ found. IfSome found (λ p. length p.subs.items ≤ 64)) }
    ensures all_read { IfOk result (λ found. IfNone found ((topic : List ℕ) (authors : List Author) (all : List KeptPlaces) → ShowAuthors kept.entry.gone topic authors sides.now.authors.items
        → length all ≤ 64 → ShowSubs name.now (seen kept.entry) next_ordinal topic all sides.now.subs.items sides.now.acks.items sides.now.deads.items sides.now.counts.items → ⊥)) }
{
    let Some(authors) = authors_in(alloc, &sides.authors, kept.gone)? else {
        return Ok(None);
    };
    match subs_with(alloc, name, sides, kept, next_ordinal) {
        Ok(Some(subs)) => Ok(Some(Parts { authors, subs })),
        Ok(None) => {
            drop(authors);
            Ok(None)
        }
        Err(e) => {
            drop(authors);
            Err(e)
        }
    }
}

/// The snapshot of a topic of these parts.
fn snapshot_of(
    name: &TopicName,
    head: Head,
    front: Front,
    log: Pieces,
    parts: Parts,
) -> Result<Snapshot, AllocError>
    requires { MayRestart (record { name = name.now; ledger_size = head.ledger_size; ledger = head.ledger; next_ordinal = head.next_ordinal; gone = front.gone; authors = parts.authors.items; retention = front.retention; log = joined log; subscriptions = parts.subs.items }) }
    ensures { IfOk result (λ kept. kept ≡ record { name = name.now; ledger_size = head.ledger_size; ledger = head.ledger; next_ordinal = head.next_ordinal; gone = front.gone; authors = parts.authors.items; retention = front.retention; log = joined log; subscriptions = parts.subs.items }) }
{
    let Parts { authors, subs } = parts;
    match name.clone() {
        Ok(name) => Ok(Snapshot::of(
            name,
            head.ledger_size,
            head.ledger,
            head.next_ordinal,
            front.gone,
            authors,
            front.retention,
            log,
            subs,
        )),
        Err(e) => {
            drop(authors);
            drop(log);
            drop(subs);
            Err(e)
        }
    }
}

impl LogReader {
    /// The snapshot of the topic whose messages were read, and which has these rows beside them. None where they are not
    /// those of a snapshot that a topic may go on from: then a row is missing or too many, or a value is not one that the topic
    /// can have. Where they are, it is found: this is proved of snapshots whose values are within the limits of their types.
    pub fn snapshot(
        self,
        alloc: Global,
        name: &TopicName,
        sides: &SideRows,
    ) -> Result<Option<Snapshot>, AllocError>
        requires head { IsHeadIn sides.now.topics.items self.head }
        requires front { IsFrontIn sides.now.retentions.items self.front }
        ensures name { IfOk result (λ found. IfSome found (λ kept. kept.name ≡ name.now)) }
        ensures rows { IfOk result (λ found. IfSome found (λ kept. AreRowsOf kept (rows_with (topic_text name.now) (span_read self) sides.now))) }
        ensures may { IfOk result (λ found. IfSome found MayRestart) }
        ensures told { IfOk result (λ found. IfSome found MayBeTold) }
        ensures whole { IfOk result (λ found. IfNone found ((kept : KeptTopic) → IsReadBack kept → kept.name ≡ name.now → AreRowsOf kept (rows_with (topic_text name.now) (span_read self) sides.now) → ⊥)) }
    {
        let LogReader { head, front, log } = self;
        let kept = Kept {
            gone: front.gone,
            log: &log,
        };
        match parts_with(alloc, name, sides, kept, head.next_ordinal) {
            Ok(Some(parts)) => Ok(Some(snapshot_of(name, head, front, log, parts)?)),
            Ok(None) => {
                drop(log);
                Ok(None)
            }
            Err(e) => {
                drop(log);
                Err(e)
            }
        }
    }
}
