// The table `author`: one row a producer of messages that are gone.
ghost use Rattle.std.specs.Prelude.{◌≡◌, [], ◌∷◌, FitsSigned, OnOk, IfOk, IsTrue};
ghost use Rattle.std.specs.Int.{w64};
ghost use Rattle.sqlite.specs.State.{HasCleanDisk, KeepsCommit, Survives};
ghost use Rattle.sqlite.specs.Held.{state};
ghost use Rattle.row_forms.specs.Cells.{AUTHOR};
ghost use Rattle.row_forms.specs.Changes.{author_cells};
ghost use Rattle.row_tables.specs.Ready.{IsReady};
ghost use Rattle.row_tables.specs.Goes.{Goes, Stays, Clears, Adds, Takes, Shows};
ghost use Rattle.row_tables.specs.Ordered.{AreSortedBy};

use crate::numbers::{signed, took_one};
use delivery_machine::Author;
use sqlite::{Alter, Error, Row, Transaction, params};

fn sequence_of(author: &Author) -> i64
    ensures value { result ≡ author.now.sequence }
    ensures fits { FitsSigned w64 author.now.sequence }
{
    author.sequence
}

/// Adds the row of a producer.
pub fn add<S: Alter>(tx: &mut Transaction<'_, S>, topic: &str, row: &Author) -> Result<(), Error>
    ensures same_reference { tx.new.conn.ghost_name ≡ tx.old.conn.ghost_name }
    ensures survives { Survives (state S.Store tx.old.conn.now) (state S.Store tx.new.conn.now) (λ _. ⊥) }
    ensures done { HasCleanDisk (state S.Store tx.new.conn.now) → OnOk result (Goes (Adds AUTHOR (author_cells topic.now row.now ∷ [])) (state S.Store tx.old.conn.now) (state S.Store tx.new.conn.now)) }
{
    let index = signed(row.index)?;
    let sequence = sequence_of(row);
    tx.execute(
        "INSERT INTO author (topic, idx, producer, sequence) VALUES (?1, ?2, ?3, ?4)",
        params![topic, index, row.name.as_str(), sequence],
    )?;
    Ok(())
}

/// Deletes the row of a producer. An error where there is none.
pub fn remove<S: Alter>(tx: &mut Transaction<'_, S>, topic: &str, row: &Author) -> Result<(), Error>
    ensures same_reference { tx.new.conn.ghost_name ≡ tx.old.conn.ghost_name }
    ensures survives { Survives (state S.Store tx.old.conn.now) (state S.Store tx.new.conn.now) (λ _. ⊥) }
    ensures done { HasCleanDisk (state S.Store tx.new.conn.now) → OnOk result (Goes (Takes AUTHOR (author_cells topic.now row.now ∷ [])) (state S.Store tx.old.conn.now) (state S.Store tx.new.conn.now)) }
{
    let index = signed(row.index)?;
    let sequence = sequence_of(row);
    let count = tx.execute(
        "DELETE FROM author WHERE topic = ?1 AND idx = ?2 AND producer = ?3 AND sequence = ?4",
        params![topic, index, row.name.as_str(), sequence],
    )?;
    took_one(count)
}

/// Deletes all producers of a topic.
pub fn clear<S: Alter>(tx: &mut Transaction<'_, S>, topic: &str) -> Result<(), Error>
    ensures same_reference { tx.new.conn.ghost_name ≡ tx.old.conn.ghost_name }
    ensures survives { Survives (state S.Store tx.old.conn.now) (state S.Store tx.new.conn.now) (λ _. ⊥) }
    ensures done { HasCleanDisk (state S.Store tx.new.conn.now) → OnOk result (Goes (Clears AUTHOR topic.now) (state S.Store tx.old.conn.now) (state S.Store tx.new.conn.now)) }
{
    tx.execute("DELETE FROM author WHERE topic = ?1", params![topic])?;
    Ok(())
}

/// The producers of a topic, by the places of their last messages.
pub fn read<S: Alter>(tx: &mut Transaction<'_, S>, topic: &str) -> Result<Vec<Row>, Error>
    ensures same_reference { tx.new.conn.ghost_name ≡ tx.old.conn.ghost_name }
    ensures survives { Survives (state S.Store tx.old.conn.now) (state S.Store tx.new.conn.now) (λ _. ⊥) }
    ensures done { HasCleanDisk (state S.Store tx.new.conn.now) → OnOk result (Goes Stays (state S.Store tx.old.conn.now) (state S.Store tx.new.conn.now)) }
    ensures kept { HasCleanDisk (state S.Store tx.new.conn.now) → IsTrue (state S.Store tx.old.conn.now).in_transaction → KeepsCommit (state S.Store tx.old.conn.now) (state S.Store tx.new.conn.now) }
    ensures rows { HasCleanDisk (state S.Store tx.new.conn.now) → IfOk result (λ rows. IsReady (state S.Store tx.old.conn.now).now → Shows AUTHOR topic.now rows.items (state S.Store tx.old.conn.now).now.trees) }
    ensures ordered { HasCleanDisk (state S.Store tx.new.conn.now) → IfOk result (λ rows. IsReady (state S.Store tx.old.conn.now).now → AreSortedBy 1 rows.items) }
{
    tx.query_all(
        "SELECT idx, producer, sequence FROM author WHERE topic = ?1 ORDER BY idx",
        params![topic],
    )
}
