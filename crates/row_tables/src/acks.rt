// The table `ack`: one row a run of acknowledged messages.
ghost use Rattle.std.specs.Prelude.{◌≡◌, [], ◌∷◌, OnOk, IfOk, IsTrue};
ghost use Rattle.sqlite.specs.State.{HasCleanDisk, KeepsCommit, Survives};
ghost use Rattle.sqlite.specs.Held.{state};
ghost use Rattle.row_forms.specs.Cells.{ACK};
ghost use Rattle.row_forms.specs.Changes.{ack_cells};
ghost use Rattle.row_tables.specs.Ready.{IsReady};
ghost use Rattle.row_tables.specs.Goes.{Goes, Stays, Clears, Adds, Takes, Swaps, Shows};
ghost use Rattle.row_tables.specs.Ordered.{AreSortedBy};

use crate::numbers::{placed, took_one};
use row_forms::{AckRow, Place};
use sqlite::{Alter, Error, Row, Transaction, params};

/// Adds the row of a run.
pub fn add<S: Alter>(tx: &mut Transaction<'_, S>, topic: &str, row: &AckRow) -> Result<(), Error>
    ensures same_reference { tx.new.conn.ghost_name ≡ tx.old.conn.ghost_name }
    ensures survives { Survives (state S.Store tx.old.conn.now) (state S.Store tx.new.conn.now) (λ _. ⊥) }
    ensures done { HasCleanDisk (state S.Store tx.new.conn.now) → OnOk result (Goes (Adds ACK (ack_cells topic.now row.now ∷ [])) (state S.Store tx.old.conn.now) (state S.Store tx.new.conn.now)) }
{
    let first = placed(row.first)?;
    let last = placed(row.last)?;
    tx.execute(
        "INSERT INTO ack (topic, sub, first, last) VALUES (?1, ?2, ?3, ?4)",
        params![topic, row.sub.as_str(), first, last],
    )?;
    Ok(())
}

/// Deletes the row of a run. An error where there is none.
pub fn remove<S: Alter>(tx: &mut Transaction<'_, S>, topic: &str, row: &AckRow) -> Result<(), Error>
    ensures same_reference { tx.new.conn.ghost_name ≡ tx.old.conn.ghost_name }
    ensures survives { Survives (state S.Store tx.old.conn.now) (state S.Store tx.new.conn.now) (λ _. ⊥) }
    ensures done { HasCleanDisk (state S.Store tx.new.conn.now) → OnOk result (Goes (Takes ACK (ack_cells topic.now row.now ∷ [])) (state S.Store tx.old.conn.now) (state S.Store tx.new.conn.now)) }
{
    let first = placed(row.first)?;
    let last = placed(row.last)?;
    let count = tx.execute(
        "DELETE FROM ack WHERE topic = ?1 AND sub = ?2 AND first = ?3 AND last = ?4",
        params![topic, row.sub.as_str(), first, last],
    )?;
    took_one(count)
}

/// The run of a row gets another last place. An error where there is no such row.
pub fn set_last<S: Alter>(
    tx: &mut Transaction<'_, S>,
    topic: &str,
    row: &AckRow,
    last: Place,
) -> Result<(), Error>
    ensures same_reference { tx.new.conn.ghost_name ≡ tx.old.conn.ghost_name }
    ensures survives { Survives (state S.Store tx.old.conn.now) (state S.Store tx.new.conn.now) (λ _. ⊥) }
    ensures done { HasCleanDisk (state S.Store tx.new.conn.now) → OnOk result (Goes (Swaps ACK (ack_cells topic.now row.now ∷ []) (ack_cells topic.now (record row.now { last = last }) ∷ [])) (state S.Store tx.old.conn.now) (state S.Store tx.new.conn.now)) }
{
    let first = placed(row.first)?;
    let was = placed(row.last)?;
    let last = placed(last)?;
    let count = tx.execute(
        "UPDATE ack SET last = ?5 WHERE topic = ?1 AND sub = ?2 AND first = ?3 AND last = ?4",
        params![topic, row.sub.as_str(), first, was, last],
    )?;
    took_one(count)
}

/// Deletes all runs of a topic.
pub fn clear<S: Alter>(tx: &mut Transaction<'_, S>, topic: &str) -> Result<(), Error>
    ensures same_reference { tx.new.conn.ghost_name ≡ tx.old.conn.ghost_name }
    ensures survives { Survives (state S.Store tx.old.conn.now) (state S.Store tx.new.conn.now) (λ _. ⊥) }
    ensures done { HasCleanDisk (state S.Store tx.new.conn.now) → OnOk result (Goes (Clears ACK topic.now) (state S.Store tx.old.conn.now) (state S.Store tx.new.conn.now)) }
{
    tx.execute("DELETE FROM ack WHERE topic = ?1", params![topic])?;
    Ok(())
}

/// The runs of a topic, by their subscriptions and first places.
pub fn read<S: Alter>(tx: &mut Transaction<'_, S>, topic: &str) -> Result<Vec<Row>, Error>
    ensures same_reference { tx.new.conn.ghost_name ≡ tx.old.conn.ghost_name }
    ensures survives { Survives (state S.Store tx.old.conn.now) (state S.Store tx.new.conn.now) (λ _. ⊥) }
    ensures done { HasCleanDisk (state S.Store tx.new.conn.now) → OnOk result (Goes Stays (state S.Store tx.old.conn.now) (state S.Store tx.new.conn.now)) }
    ensures kept { HasCleanDisk (state S.Store tx.new.conn.now) → IsTrue (state S.Store tx.old.conn.now).in_transaction → KeepsCommit (state S.Store tx.old.conn.now) (state S.Store tx.new.conn.now) }
    ensures rows { HasCleanDisk (state S.Store tx.new.conn.now) → IfOk result (λ rows. IsReady (state S.Store tx.old.conn.now).now → Shows ACK topic.now rows.items (state S.Store tx.old.conn.now).now.trees) }
    ensures ordered { HasCleanDisk (state S.Store tx.new.conn.now) → IfOk result (λ rows. IsReady (state S.Store tx.old.conn.now).now → AreSortedBy 2 rows.items) }
{
    tx.query_all(
        "SELECT sub, first, last FROM ack WHERE topic = ?1 ORDER BY sub, first",
        params![topic],
    )
}
