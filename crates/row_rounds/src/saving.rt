// A round: what changed of several topics is written in one transaction.
ghost use Rattle.std.specs.Prelude.{◌≡◌, false, OnOk, All, IsTrue};
ghost use Rattle.position_core.specs.TopicName.{topic_text};
ghost use Rattle.sqlite.specs.State.{HasCleanDisk, Survives};
ghost use Rattle.sqlite.specs.Held.{state};
ghost use Rattle.row_tables.specs.Ready.{IsReady};
ghost use Rattle.row_tables.specs.Goes.{Goes, Saves, Stays};
ghost use Rattle.row_rounds.specs.Rounds.{Via, Empties, Changes, IsNamed, name_of, AreApart, WritesOne, Rounds};

use crate::{clearing, differences, messages};
use delivery_machine::Snapshot;
use row_forms::Change;
use row_tables::topics;
use sqlite::{Alter, Connection, Error, Transaction};

/// What a round makes of a topic's rows.
#[derive(Drop)]
pub struct Write {
    pub snapshot: Snapshot,
    /// The text of its name.
    pub topic: String,
    pub change: Change,
    /// Whether its rows are first cleared.
    pub whole: bool,
}

/// Writes what changed of a topic.
pub fn write_change<S: Alter>(
    tx: &mut Transaction<'_, S>,
    topic: &str,
    kept: &Snapshot,
    change: &Change,
    scratch: &mut String,
) -> Result<(), Error>
    requires { topic.now ≡ topic_text kept.now.name }
    ensures same_reference { tx.new.conn.ghost_name ≡ tx.old.conn.ghost_name }
    ensures survives { Survives (state S.Store tx.old.conn.now) (state S.Store tx.new.conn.now) (λ _. ⊥) }
    ensures done { HasCleanDisk (state S.Store tx.new.conn.now) → OnOk result (Goes (Changes kept.now change.now) (state S.Store tx.old.conn.now) (state S.Store tx.new.conn.now)) }
{
    messages::write(tx, topic, kept, change, scratch)?;
    differences::write(tx, topic, change)
}

/// The topic's rows go, and those of the change come.
fn write_whole<S: Alter>(
    tx: &mut Transaction<'_, S>,
    write: &Write,
    scratch: &mut String,
) -> Result<(), Error>
    requires { IsNamed write.now }
    ensures same_reference { tx.new.conn.ghost_name ≡ tx.old.conn.ghost_name }
    ensures survives { Survives (state S.Store tx.old.conn.now) (state S.Store tx.new.conn.now) (λ _. ⊥) }
    ensures done { HasCleanDisk (state S.Store tx.new.conn.now) → OnOk result (Goes (Via (Empties (name_of write.now)) (Changes write.now.snapshot write.now.change)) (state S.Store tx.old.conn.now) (state S.Store tx.new.conn.now)) }
{
    let topic = write.topic.as_str();
    clearing::clear(tx, topic)?;
    write_change(tx, topic, &write.snapshot, &write.change, scratch)
}

fn write_one<S: Alter>(
    tx: &mut Transaction<'_, S>,
    write: &Write,
    scratch: &mut String,
) -> Result<(), Error>
    requires { IsNamed write.now }
    ensures same_reference { tx.new.conn.ghost_name ≡ tx.old.conn.ghost_name }
    ensures survives { Survives (state S.Store tx.old.conn.now) (state S.Store tx.new.conn.now) (λ _. ⊥) }
    ensures done { HasCleanDisk (state S.Store tx.new.conn.now) → OnOk result (Goes (WritesOne write.now) (state S.Store tx.old.conn.now) (state S.Store tx.new.conn.now)) }
{
    if write.whole {
        write_whole(tx, write, scratch)
    } else {
        let topic = write.topic.as_str();
        write_change(tx, topic, &write.snapshot, &write.change, scratch)
    }
}

fn write_all<S: Alter>(
    tx: &mut Transaction<'_, S>,
    writes: &[Write],
    scratch: &mut String,
) -> Result<(), Error>
    requires named { All IsNamed writes.now }
    requires apart { AreApart writes.now }
    ensures same_reference { tx.new.conn.ghost_name ≡ tx.old.conn.ghost_name }
    ensures survives { Survives (state S.Store tx.old.conn.now) (state S.Store tx.new.conn.now) (λ _. ⊥) }
    ensures done { HasCleanDisk (state S.Store tx.new.conn.now) → OnOk result (Goes (Rounds writes.now) (state S.Store tx.old.conn.now) (state S.Store tx.new.conn.now)) }
{
    for write in writes {
        write_one(tx, write, scratch)?;
    }
    Ok(())
}

/// Asks for a row. It fails where the connection was shut: over such a one nobody knows what a commit leaves.
fn ask<S: Alter>(tx: &mut Transaction<'_, S>) -> Result<(), Error>
    ensures same_reference { tx.new.conn.ghost_name ≡ tx.old.conn.ghost_name }
    ensures survives { Survives (state S.Store tx.old.conn.now) (state S.Store tx.new.conn.now) (λ _. ⊥) }
    ensures done { HasCleanDisk (state S.Store tx.new.conn.now) → OnOk result (Goes Stays (state S.Store tx.old.conn.now) (state S.Store tx.new.conn.now)) }
    ensures shown { HasCleanDisk (state S.Store tx.new.conn.now) → OnOk result (IsTrue (state S.Store tx.old.conn.now).is_open) }
{
    drop(topics::read(tx, "")?);
    Ok(())
}

/// Writes what changed of each of these topics, where the connection is open.
fn write_open<S: Alter>(
    tx: &mut Transaction<'_, S>,
    writes: &[Write],
    scratch: &mut String,
) -> Result<(), Error>
    requires named { All IsNamed writes.now }
    requires apart { AreApart writes.now }
    ensures same_reference { tx.new.conn.ghost_name ≡ tx.old.conn.ghost_name }
    ensures survives { Survives (state S.Store tx.old.conn.now) (state S.Store tx.new.conn.now) (λ _. ⊥) }
    ensures done { HasCleanDisk (state S.Store tx.new.conn.now) → OnOk result (Goes (Rounds writes.now) (state S.Store tx.old.conn.now) (state S.Store tx.new.conn.now)) }
    ensures shown { HasCleanDisk (state S.Store tx.new.conn.now) → OnOk result (IsTrue (state S.Store tx.old.conn.now).is_open) }
{
    ask(tx)?;
    write_all(tx, writes, scratch)
}

/// Writes what changed of each of these topics, all or nothing; nothing where the connection was shut. The properties of a message are written out
/// in `scratch`, for which `room_for` takes room before; where it has none and cannot grow, nothing is written.
pub fn save<S: Alter>(
    conn: &mut Connection<S>,
    writes: &[Write],
    scratch: &mut String,
) -> Result<(), Error>
    requires named { All IsNamed writes.now }
    requires apart { AreApart writes.now }
    requires autocommit { conn.old.in_transaction ≡ false }
    ensures autocommit { conn.new.in_transaction ≡ false }
    ensures saved { HasCleanDisk (state S.Store conn.new) → OnOk result (Saves (Rounds writes.now) (state S.Store conn.old) (state S.Store conn.new)) }
    ensures durable { HasCleanDisk (state S.Store conn.new) → OnOk result ((db : _) → (state S.Store conn.new).may_leave db → db ≡ (state S.Store conn.new).now.trees) }
    ensures crash { Survives (state S.Store conn.old) (state S.Store conn.new) (λ db. IsTrue (state S.Store conn.old).is_open × (IsReady (state S.Store conn.old).now → Rounds writes.now (state S.Store conn.old).now.trees db)) }
{
    let mut tx = conn.transaction();
    write_open(&mut tx, writes, scratch)?;
    tx.commit()
}
