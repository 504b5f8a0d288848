// The next messages of a topic are read from their rows.
ghost use Rattle.std.specs.Prelude.{◌≡◌, ◌≢◌, ◌+◌, List, length, IfNone, IfOk, IfSome, IsTrue, OnOk};
ghost use Rattle.position_core.specs.declared.message.Entry.{Entry};
ghost use Rattle.sqlite.specs.State.{HasCleanDisk, KeepsCommit, Survives};
ghost use Rattle.sqlite.specs.Held.{state};
ghost use Rattle.row_tables.specs.Ready.{IsReady};
ghost use Rattle.row_tables.specs.Goes.{Goes, Stays};
ghost use Rattle.row_reading.specs.Reading.{IsReadableLog, span_read};
ghost use Rattle.row_store.specs.Begun.{HasLogBelow, HasSpan};
ghost use Rattle.row_store.specs.Found.{HasLog};

use row_reading::LogReader;
use row_tables::entries;
use sqlite::{Alter, Error, Transaction};
use std::alloc::{AllocError, Global};

/// How many messages are read at a time.
const PIECE: u64 = 256;

/// Why a topic was not read.
#[derive(Drop)]
pub enum Stop {
    /// There was no memory.
    NoMemory,
    /// The database answered an error.
    Store(Error),
}

impl From<AllocError> for Stop {
    fn from(_: AllocError) -> Stop {
        Stop::NoMemory
    }
}

impl From<Error> for Stop {
    fn from(error: Error) -> Stop {
        Stop::Store(error)
    }
}

/// What a piece of the messages is.
#[derive(Clone, Copy)]
enum Piece {
    /// All of its places have messages.
    Full,
    /// None can follow.
    Last,
    /// They are not the next messages of a log.
    Bad,
}

/// Reads the next messages of the topic, if they are those of a log.
fn read_piece<S: Alter>(
    alloc: Global,
    tx: &mut Transaction<'_, S>,
    topic: &str,
    reader: &mut LogReader,
) -> Result<Piece, Stop>
    ensures same_reference { tx.new.conn.ghost_name ≡ tx.old.conn.ghost_name }
    ensures survives { Survives (state S.Store tx.old.conn.now) (state S.Store tx.new.conn.now) (λ _. ⊥) }
    ensures done { HasCleanDisk (state S.Store tx.new.conn.now) → OnOk result (Goes Stays (state S.Store tx.old.conn.now) (state S.Store tx.new.conn.now)) }
    ensures kept { HasCleanDisk (state S.Store tx.new.conn.now) → IsTrue (state S.Store tx.old.conn.now).in_transaction → KeepsCommit (state S.Store tx.old.conn.now) (state S.Store tx.new.conn.now) }
    ensures head { reader.new.head ≡ reader.old.head }
    ensures front { reader.new.front ≡ reader.old.front }
    ensures full { IfOk result (λ piece. piece ≡ Piece.Full → length reader.new.log ≡ length reader.old.log + 256) }
    ensures last { IfOk result (λ piece. piece ≡ Piece.Last → length reader.new.log ≢ length reader.old.log + 256) }
    ensures rows { HasCleanDisk (state S.Store tx.new.conn.now) → IfOk result (λ piece. piece ≢ Piece.Bad → IsReady (state S.Store tx.old.conn.now).now → HasSpan topic.now (span_read reader.old) (state S.Store tx.old.conn.now).now.trees → HasLogBelow topic.now reader.old.front.gone (reader.old.front.gone + length reader.old.log + 256) reader.new.log (state S.Store tx.old.conn.now).now.trees) }
    ensures bad { HasCleanDisk (state S.Store tx.new.conn.now) → IfOk result (λ piece. piece ≡ Piece.Bad → IsReady (state S.Store tx.old.conn.now).now → HasSpan topic.now (span_read reader.old) (state S.Store tx.old.conn.now).now.trees → (all : List Entry) → IsReadableLog reader.old.head.ledger_size reader.old.head.ledger all → HasLog topic.now reader.old.front.gone all (state S.Store tx.old.conn.now).now.trees → ⊥) }
{
    let from = reader.gone() + reader.count() as u64;
    let rows = entries::read_within(tx, topic, from, from + PIECE)?;
    if !reader.take(alloc, &rows)? {
        return Ok(Piece::Bad);
    }
    if rows.len() as u64 == PIECE {
        Ok(Piece::Full)
    } else {
        Ok(Piece::Last)
    }
}

/// Reads the next messages of the topic. None where more may follow them; else whether the topic's messages are those of a log.
pub fn read_more<S: Alter>(
    alloc: Global,
    tx: &mut Transaction<'_, S>,
    topic: &str,
    reader: &mut LogReader,
) -> Result<Option<bool>, Stop>
    ensures same_reference { tx.new.conn.ghost_name ≡ tx.old.conn.ghost_name }
    ensures survives { Survives (state S.Store tx.old.conn.now) (state S.Store tx.new.conn.now) (λ _. ⊥) }
    ensures done { HasCleanDisk (state S.Store tx.new.conn.now) → OnOk result (Goes Stays (state S.Store tx.old.conn.now) (state S.Store tx.new.conn.now)) }
    ensures kept { HasCleanDisk (state S.Store tx.new.conn.now) → IsTrue (state S.Store tx.old.conn.now).in_transaction → KeepsCommit (state S.Store tx.old.conn.now) (state S.Store tx.new.conn.now) }
    ensures head { reader.new.head ≡ reader.old.head }
    ensures front { reader.new.front ≡ reader.old.front }
    ensures full { IfOk result (λ end. IfNone end (length reader.new.log ≡ length reader.old.log + 256)) }
    ensures more { HasCleanDisk (state S.Store tx.new.conn.now) → IfOk result (λ end. IfNone end (IsReady (state S.Store tx.old.conn.now).now → HasSpan topic.now (span_read reader.old) (state S.Store tx.old.conn.now).now.trees → HasSpan topic.now (span_read reader.new) (state S.Store tx.old.conn.now).now.trees)) }
    ensures whole { HasCleanDisk (state S.Store tx.new.conn.now) → IfOk result (λ end. IfSome end (λ whole. IsTrue whole → IsReady (state S.Store tx.old.conn.now).now → HasSpan topic.now (span_read reader.old) (state S.Store tx.old.conn.now).now.trees → HasLog topic.now reader.new.front.gone reader.new.log (state S.Store tx.old.conn.now).now.trees)) }
    ensures all_read { HasCleanDisk (state S.Store tx.new.conn.now) → IfOk result (λ end. IfSome end (λ whole. IsReady (state S.Store tx.old.conn.now).now → HasSpan topic.now (span_read reader.old) (state S.Store tx.old.conn.now).now.trees → (all : List Entry) → IsReadableLog reader.old.head.ledger_size reader.old.head.ledger all → HasLog topic.now reader.old.front.gone all (state S.Store tx.old.conn.now).now.trees → IsTrue whole)) }
{
    let from = reader.gone();
    let end = from + reader.count() as u64 + PIECE;
    match read_piece(alloc, tx, topic, reader)? {
        Piece::Full => Ok(None),
        Piece::Last => {
            let others = entries::has_others(tx, topic, from, end)?;
            Ok(Some(!others))
        }
        Piece::Bad => Ok(Some(false)),
    }
}
