// A topic's messages, read from their rows piece by piece.
ghost use Rattle.std.specs.Prelude.{◌≡◌, ◌+◌, ◌<◌, ◌≤◌, ◌-◌, ◌^◌, ◌++◌, ◌∷◌, [], ℕ, List, length, slice_get, IfNone, IfOk, IfSome, IsTrue};
ghost use Rattle.std.specs.Option.{option_copied};
ghost use Rattle.sqlite.specs.Order.{Row};
ghost use Rattle.position_core.specs.declared.message.Entry.{Entry};
ghost use Rattle.log_pieces.specs.Pieces.{joined};
ghost use Rattle.row_forms.specs.Forms.{entry_rows};
ghost use Rattle.row_reading.specs.declared.retention_rows.Front.{Front};
ghost use Rattle.row_reading.specs.declared.topic_row.Head.{Head};
ghost use Rattle.row_reading.specs.Reading.{GoOn, IsEntryAt, IsFrontIn, IsHead, IsHeadIn, IsLedgerSize, IsNext, IsReadableLog, IsReadableMessage, last_position, put};

use crate::entry_rows::next_in;
use crate::retention_rows::{Front, front_in};
use crate::topic_row::{Head, head_of};
use log_pieces::Pieces;
use position_core::Message;
use row_tables::SideRows;
use sqlite::Row;
use std::alloc::{AllocError, Global};
use std::marker::Model;

/// How many messages a log has at most.
const MOST: usize = 1_048_576;

/// A topic of which the first messages were read. Contracts see what its own row says, how many messages are gone and the topic's
/// rule, and those messages.
#[derive(Drop)]
pub struct LogReader {
    pub(crate) head: Head,
    pub(crate) front: Front,
    pub(crate) log: Pieces,
}

impl Model for LogReader {
    ghost use Rattle.log_pieces.specs.Pieces.{joined};
    ghost use Rattle.row_reading.specs.Reading.{ReadSoFar, IsSoFar};

    ghost Value = { ReadSoFar };

    ghost view = { λ r. record { head = r.head; front = r.front; log = joined r.log } };

    ghost invariant = { λ r. IsSoFar r.head r.front (joined r.log) };
}

/// What the topic's own row says, if there is one row.
fn head_in(rows: &[Row]) -> Option<Head>
    ensures shown { IfSome result (IsHeadIn rows.now) }
    ensures all_read { IfNone result ((row : Row) (head : Head) → rows.now ≡ row ∷ [] → IsHead row head → IsLedgerSize head.ledger_size → ⊥) }
{
    match rows {
        [row] => head_of(row),
        _ => None,
    }
}

fn last_of(log: &Pieces) -> Option<&Message>
    ensures { option_copied result ≡ slice_get (joined log.now) (length (joined log.now) - 1) }
{
    log.get(log.count().saturating_sub(1))
}

impl LogReader {
    /// Begins with the topic's own row, and with that of what is gone and of its rule; none where there is not one of the first, or
    /// more than one of the second, or where they are not such rows.
    pub fn of(alloc: Global, sides: &SideRows) -> Option<LogReader>
        ensures shown { IfSome result (λ reader. IsHeadIn sides.now.topics.items reader.head) }
        ensures front { IfSome result (λ reader. IsFrontIn sides.now.retentions.items reader.front) }
        ensures none_yet { IfSome result (λ reader. reader.log ≡ []) }
        ensures all_read { IfNone result ((row : Row) (head : Head) (front : Front) → sides.now.topics.items ≡ row ∷ [] → IsHead row head → IsLedgerSize head.ledger_size → IsFrontIn sides.now.retentions.items front → ⊥) }
    {
        let head = head_in(&sides.topics)?;
        let front = front_in(&sides.retentions)?;
        Some(LogReader {
            head,
            front,
            log: Pieces::new(alloc),
        })
    }

    /// How many messages are gone: the place of the first that stays.
    pub fn gone(&self) -> u64
        ensures value { result ≡ self.now.front.gone }
        ensures at_most { result ≤ 2 ^ 62 }
    {
        self.front.gone
    }

    /// How many messages were read.
    pub fn count(&self) -> usize
        ensures value { result ≡ length self.now.log }
        ensures within { result ≤ 1048576 }
    {
        self.log.count()
    }

    /// Takes the row, if it is that of the next message.
    fn take_row(&mut self, alloc: Global, row: &Row) -> Result<bool, AllocError>
        ensures head { self.new.head ≡ self.old.head }
        ensures front { self.new.front ≡ self.old.front }
        ensures rows { IfOk result (λ is_next. IsTrue is_next → GoOn self.old.front.gone self.old.log (row.now ∷ []) self.new.log) }
        ensures all_read { IfOk result (λ is_next. (e : Entry) → IsReadableMessage e → IsEntryAt (self.old.front.gone + length self.old.log) row.now e → IsNext self.old.head.ledger_size self.old.head.ledger (last_position self.old.log) e.position → length self.old.log < 1048576 → IsTrue is_next) }
    {
        let count = self.log.count();
        if count >= MOST {
            return Ok(false);
        }
        let place = self.front.gone + count as u64;
        match next_in(alloc, row, place, last_of(&self.log), &self.head)? {
            Some(message) => {
                self.log.push(alloc, message)?;
                Ok(true)
            }
            None => Ok(false),
        }
    }

    /// Takes the rows, and says whether they are those of the next messages. Where they are not, or where there was no memory,
    /// it has taken some of them.
    pub fn take(&mut self, alloc: Global, rows: &[Row]) -> Result<bool, AllocError>
        ensures head { self.new.head ≡ self.old.head }
        ensures front { self.new.front ≡ self.old.front }
        ensures rows { IfOk result (λ whole. IsTrue whole → GoOn self.old.front.gone self.old.log rows.now self.new.log) }
        ensures all_read { IfOk result (λ whole. (topic : List ℕ) (all : List Entry) (rest : List Row) → IsReadableLog self.old.head.ledger_size self.old.head.ledger all → entry_rows topic self.old.front.gone self.old.log ++ (put topic rows.now ++ rest) ≡ entry_rows topic self.old.front.gone all → IsTrue whole) }
    {
        'rows: for row in rows {
            if !self.take_row(alloc, row)? {
                return Ok(false);
            }
        }
        Ok(true)
    }
}
