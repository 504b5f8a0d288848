// What is read of a topic at a time: the rows beside its messages with the first of these, or the next ones.
ghost use Rattle.std.specs.Prelude.{◌≡◌, ◌+◌, ℕ, List, ◌∷◌, [], false, length, IfNone, IfOk, IfSome, IsTrue, OnOk, string_bytes};
ghost use Rattle.position_core.specs.declared.message.Entry.{Entry};
ghost use Rattle.position_core.specs.TopicName.{same_topic, topic_text};
ghost use Rattle.sqlite.specs.Order.{Row};
ghost use Rattle.sqlite.specs.Tree.{Trees};
ghost use Rattle.sqlite.specs.State.{HasCleanDisk, KeepsCommit, Survives};
ghost use Rattle.sqlite.specs.Held.{state};
ghost use Rattle.row_tables.specs.Ready.{IsReady};
ghost use Rattle.row_tables.specs.Sides.{AreSidesOf, AreSorted};
ghost use Rattle.row_reading.specs.declared.retention_rows.Front.{Front};
ghost use Rattle.row_reading.specs.declared.topic_row.Head.{Head};
ghost use Rattle.row_reading.specs.Reading.{IsFrontIn, IsHead, IsHeadIn, IsLedgerSize, IsReadableLog};
ghost use Rattle.row_store.specs.Begun.{StandsSoFar, read_of};
ghost use Rattle.row_store.specs.Found.{CountsTo, HasLog, IsFound, IsToldOf};

use crate::reading::{Stop, read_more};
use delivery_machine::Snapshot;
use position_core::TopicName;
use row_forms::topic_text;
use row_reading::LogReader;
use row_rounds::read_sides;
use row_tables::{SideRows, entries, topics};
use sqlite::{Alter, Connection, Transaction};
use std::alloc::{AllocError, Global};
use std::marker::Model;

/// A topic of which the rows beside its messages were read, and the first of these.
#[derive(Drop)]
pub struct Reading {
    name: TopicName,
    topic: String,
    sides: SideRows,
    reader: LogReader,
}

impl Model for Reading {
    ghost use Rattle.std.specs.Prelude.{◌≡◌, string_bytes};
    ghost use Rattle.position_core.specs.declared.message.Entry.{Entry};
    ghost use Rattle.position_core.specs.TopicName.{topic_text};
    ghost use Rattle.row_reading.specs.Reading.{IsFrontIn, IsHeadIn};
    ghost use Rattle.row_store.specs.Begun.{ReadTo};

    ghost Value = { ReadTo };

    ghost view = { λ r. record { name = r.name; sides = r.sides; head = r.reader.head; front = r.reader.front; log = r.reader.log } };

    ghost invariant = { λ r. (string_bytes r.topic ≡ topic_text r.name) × IsHeadIn r.sides.topics.items r.reader.head × IsFrontIn r.sides.retentions.items r.reader.front };
}

/// The name, with its text.
fn named(alloc: Global, name: &TopicName) -> Result<(TopicName, String), AllocError>
    ensures { IfOk result (λ named. (named.0 ≡ name.now) × (string_bytes named.1 ≡ topic_text name.now)) }
{
    let topic = topic_text(alloc, name)?;
    match name.clone() {
        Ok(name) => Ok((name, topic)),
        Err(error) => {
            drop(topic);
            Err(error)
        }
    }
}

impl Reading {
    /// Begins with the rows beside the topic's messages. None where they are not those of a topic.
    fn of(alloc: Global, name: &TopicName, sides: SideRows) -> Result<Option<Reading>, AllocError>
        ensures begun { IfOk result (λ begun. IfSome begun (λ r. (r.name ≡ name.now) × (r.sides ≡ sides) × (r.log ≡ []))) }
        ensures all_read { IfOk result (λ begun. IfNone begun ((row : Row) (head : Head) (front : Front) → sides.topics.items ≡ row ∷ [] → IsHead row head → IsLedgerSize head.ledger_size → IsFrontIn sides.retentions.items front → ⊥)) }
    {
        let Some(reader) = LogReader::of(alloc, &sides) else {
            drop(sides);
            return Ok(None);
        };
        match named(alloc, name) {
            Ok((name, topic)) => Ok(Some(Reading {
                name,
                topic,
                sides,
                reader,
            })),
            Err(error) => {
                drop(sides);
                drop(reader);
                Err(error)
            }
        }
    }

    /// Whether it is of the topic of this name.
    pub fn is_of(&self, name: &TopicName) -> bool
        ensures { result ≡ same_topic self.now.name name.now }
    {
        self.name.is(name)
    }

    /// The topic's text.
    pub fn topic(&self) -> &str
        ensures { result.now ≡ topic_text self.now.name }
    {
        self.topic.as_str()
    }
}

/// What was read of a topic.
#[derive(Drop)]
pub enum Found {
    /// It has no rows.
    Nothing,
    /// Its rows are no snapshot's.
    BadRows,
    /// They are those of this snapshot.
    Whole(Snapshot),
    /// More messages may follow.
    More(Reading),
}

/// What is read of the topic once none of its messages is left, where these are its rows beside them. Whether they are those
/// of a log is known.
fn found_of(
    alloc: Global,
    name: &TopicName,
    sides: &SideRows,
    reader: LogReader,
    whole: bool,
) -> Result<Found, Stop>
    requires head { IsHeadIn sides.now.topics.items reader.head }
    requires front { IsFrontIn sides.now.retentions.items reader.front }
    ensures told { IfOk result (IsToldOf name.now) }
    ensures count { IfOk result (λ found. (count : ℕ) → CountsTo count found) }
    ensures found { (db : Trees) → AreSidesOf (topic_text name.now) db sides.now → AreSorted sides.now → (IsTrue whole → HasLog (topic_text name.now) reader.front.gone reader.log db) → ((all : List Entry) → IsReadableLog reader.head.ledger_size reader.head.ledger all → HasLog (topic_text name.now) reader.front.gone all db → IsTrue whole) → IfOk result (IsFound name.now db) }
{
    if !whole {
        drop(reader);
        return Ok(Found::BadRows);
    }
    match reader.snapshot(alloc, name, sides) {
        Ok(Some(snapshot)) => Ok(Found::Whole(snapshot)),
        Ok(None) => Ok(Found::BadRows),
        Err(_) => Err(Stop::NoMemory),
    }
}

/// Reads the next messages of the topic.
fn go_on<S: Alter>(
    alloc: Global,
    tx: &mut Transaction<'_, S>,
    reading: Reading,
) -> Result<Found, Stop>
    ensures same_reference { tx.new.conn.ghost_name ≡ tx.old.conn.ghost_name }
    ensures survives { Survives (state S.Store tx.old.conn.now) (state S.Store tx.new.conn.now) (λ _. ⊥) }
    ensures kept { HasCleanDisk (state S.Store tx.new.conn.now) → IsTrue (state S.Store tx.old.conn.now).in_transaction → KeepsCommit (state S.Store tx.old.conn.now) (state S.Store tx.new.conn.now) }
    ensures told { IfOk result (IsToldOf reading.name) }
    ensures count { IfOk result (CountsTo (length reading.log + 256)) }
    ensures found { HasCleanDisk (state S.Store tx.new.conn.now) → IfOk result (λ found. IsReady (state S.Store tx.old.conn.now).now → StandsSoFar (state S.Store tx.old.conn.now).now.trees reading → IsFound reading.name (state S.Store tx.old.conn.now).now.trees found) }
{
    let Reading {
        name,
        topic,
        sides,
        mut reader,
    } = reading;
    match read_more(alloc, tx, topic.as_str(), &mut reader) {
        Ok(None) => Ok(Found::More(Reading {
            name,
            topic,
            sides,
            reader,
        })),
        Ok(Some(whole)) => {
            let found = found_of(alloc, &name, &sides, reader, whole);
            drop(name);
            drop(topic);
            drop(sides);
            found
        }
        Err(stop) => {
            drop(name);
            drop(topic);
            drop(sides);
            drop(reader);
            Err(stop)
        }
    }
}

/// Reads the rows of the topic beside its messages, and the first of these.
fn begin<S: Alter>(
    alloc: Global,
    tx: &mut Transaction<'_, S>,
    name: &TopicName,
    topic: &str,
) -> Result<Found, Stop>
    requires { topic.now ≡ topic_text name.now }
    ensures same_reference { tx.new.conn.ghost_name ≡ tx.old.conn.ghost_name }
    ensures survives { Survives (state S.Store tx.old.conn.now) (state S.Store tx.new.conn.now) (λ _. ⊥) }
    ensures kept { HasCleanDisk (state S.Store tx.new.conn.now) → IsTrue (state S.Store tx.old.conn.now).in_transaction → KeepsCommit (state S.Store tx.old.conn.now) (state S.Store tx.new.conn.now) }
    ensures shown { HasCleanDisk (state S.Store tx.new.conn.now) → OnOk result (IsTrue (state S.Store tx.old.conn.now).is_open) }
    ensures told { IfOk result (IsToldOf name.now) }
    ensures count { IfOk result (CountsTo 256) }
    ensures found { HasCleanDisk (state S.Store tx.new.conn.now) → IfOk result (λ found. IsReady (state S.Store tx.old.conn.now).now → IsFound name.now (state S.Store tx.old.conn.now).now.trees found) }
{
    let sides = read_sides(tx, topic)?;
    if sides.is_empty() {
        drop(sides);
        if entries::has_others(tx, topic, 0, 0)? {
            return Ok(Found::BadRows);
        }
        return Ok(Found::Nothing);
    }
    match Reading::of(alloc, name, sides)? {
        Some(reading) => go_on(alloc, tx, reading),
        None => Ok(Found::BadRows),
    }
}

/// The same, where the connection is open: one that was shut shows nothing.
fn go_on_open<S: Alter>(
    alloc: Global,
    tx: &mut Transaction<'_, S>,
    topic: &str,
    reading: Reading,
) -> Result<Found, Stop>
    ensures same_reference { tx.new.conn.ghost_name ≡ tx.old.conn.ghost_name }
    ensures survives { Survives (state S.Store tx.old.conn.now) (state S.Store tx.new.conn.now) (λ _. ⊥) }
    ensures kept { HasCleanDisk (state S.Store tx.new.conn.now) → IsTrue (state S.Store tx.old.conn.now).in_transaction → KeepsCommit (state S.Store tx.old.conn.now) (state S.Store tx.new.conn.now) }
    ensures shown { HasCleanDisk (state S.Store tx.new.conn.now) → OnOk result (IsTrue (state S.Store tx.old.conn.now).is_open) }
    ensures told { IfOk result (IsToldOf reading.name) }
    ensures count { IfOk result (CountsTo (length reading.log + 256)) }
    ensures found { HasCleanDisk (state S.Store tx.new.conn.now) → IfOk result (λ found. IsReady (state S.Store tx.old.conn.now).now → StandsSoFar (state S.Store tx.old.conn.now).now.trees reading → IsFound reading.name (state S.Store tx.old.conn.now).now.trees found) }
{
    match topics::read(tx, topic) {
        Ok(rows) => {
            drop(rows);
            go_on(alloc, tx, reading)
        }
        Err(error) => {
            drop(reading);
            Err(Stop::Store(error))
        }
    }
}

/// Goes on with what was read of the topic, or begins.
fn find_in<S: Alter>(
    alloc: Global,
    tx: &mut Transaction<'_, S>,
    name: &TopicName,
    topic: &str,
    reading: Option<Reading>,
) -> Result<Found, Stop>
    requires topic { topic.now ≡ topic_text name.now }
    requires name { IfSome reading (λ r. r.name ≡ name.now) }
    ensures same_reference { tx.new.conn.ghost_name ≡ tx.old.conn.ghost_name }
    ensures survives { Survives (state S.Store tx.old.conn.now) (state S.Store tx.new.conn.now) (λ _. ⊥) }
    ensures kept { HasCleanDisk (state S.Store tx.new.conn.now) → IsTrue (state S.Store tx.old.conn.now).in_transaction → KeepsCommit (state S.Store tx.old.conn.now) (state S.Store tx.new.conn.now) }
    ensures shown { HasCleanDisk (state S.Store tx.new.conn.now) → OnOk result (IsTrue (state S.Store tx.old.conn.now).is_open) }
    ensures told { IfOk result (IsToldOf name.now) }
    ensures count { IfOk result (CountsTo (read_of reading + 256)) }
    ensures found { HasCleanDisk (state S.Store tx.new.conn.now) → IfOk result (λ found. IsReady (state S.Store tx.old.conn.now).now → IfSome reading (StandsSoFar (state S.Store tx.old.conn.now).now.trees) → IsFound name.now (state S.Store tx.old.conn.now).now.trees found) }
{
    match reading {
        Some(reading) => go_on_open(alloc, tx, topic, reading),
        None => begin(alloc, tx, name, topic),
    }
}

/// What is read of the topic, which goes on with what was read of it. No row changes.
pub fn find<S: Alter>(
    alloc: Global,
    conn: &mut Connection<S>,
    name: &TopicName,
    topic: &str,
    reading: Option<Reading>,
) -> Result<Found, Stop>
    requires topic { topic.now ≡ topic_text name.now }
    requires name { IfSome reading (λ r. r.name ≡ name.now) }
    requires autocommit { conn.old.in_transaction ≡ false }
    ensures autocommit { conn.new.in_transaction ≡ false }
    ensures told { IfOk result (IsToldOf name.now) }
    ensures count { IfOk result (CountsTo (read_of reading + 256)) }
    ensures found { HasCleanDisk (state S.Store conn.new) → IfOk result (λ found. IsReady (state S.Store conn.old).now → IfSome reading (StandsSoFar (state S.Store conn.old).now.trees) → IsFound name.now (state S.Store conn.old).now.trees found) }
    ensures shown { HasCleanDisk (state S.Store conn.new) → OnOk result (IsTrue (state S.Store conn.old).is_open) }
    ensures crash { Survives (state S.Store conn.old) (state S.Store conn.new) (λ _. ⊥) }
    ensures kept { HasCleanDisk (state S.Store conn.new) → IsTrue (state S.Store conn.new).is_open → (state S.Store conn.new).now ≡ (state S.Store conn.old).now }
    ensures was_open { HasCleanDisk (state S.Store conn.new) → IsTrue (state S.Store conn.new).is_open → IsTrue (state S.Store conn.old).is_open }
{
    prove!(conn.is_autocommit());
    let mut tx = conn.transaction();
    let found = find_in(alloc, &mut tx, name, topic, reading)?;
    tx.rollback();
    Ok(found)
}
