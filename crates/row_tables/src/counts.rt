// The table `redelivery`: one row a message of a subscription that was redelivered.
ghost use Rattle.std.specs.Prelude.{◌≡◌, [], ◌∷◌, OnOk, IfOk, IsTrue};
ghost use Rattle.sqlite.specs.State.{HasCleanDisk, KeepsCommit, Survives};
ghost use Rattle.sqlite.specs.Held.{state};
ghost use Rattle.row_forms.specs.Cells.{REDELIVERY};
ghost use Rattle.row_forms.specs.Changes.{count_cells};
ghost use Rattle.row_tables.specs.Ready.{IsReady};
ghost use Rattle.row_tables.specs.Goes.{Goes, Stays, Clears, Adds, Takes, Shows};
ghost use Rattle.row_tables.specs.Ordered.{AreSortedBy};

use crate::numbers::{placed, took_one};
use row_forms::CountRow;
use sqlite::{Alter, Error, Row, Transaction, params};

/// Adds the row of a message that was redelivered.
pub fn add<S: Alter>(tx: &mut Transaction<'_, S>, topic: &str, row: &CountRow) -> Result<(), Error>
    ensures same_reference { tx.new.conn.ghost_name ≡ tx.old.conn.ghost_name }
    ensures survives { Survives (state S.Store tx.old.conn.now) (state S.Store tx.new.conn.now) (λ _. ⊥) }
    ensures done { HasCleanDisk (state S.Store tx.new.conn.now) → OnOk result (Goes (Adds REDELIVERY (count_cells topic.now row.now ∷ [])) (state S.Store tx.old.conn.now) (state S.Store tx.new.conn.now)) }
{
    let place = placed(row.place)?;
    tx.execute(
        "INSERT INTO redelivery (topic, sub, idx, times) VALUES (?1, ?2, ?3, ?4)",
        params![topic, row.sub.as_str(), place, row.times],
    )?;
    Ok(())
}

/// Deletes the row of a message that was redelivered. An error where there is none.
pub fn remove<S: Alter>(
    tx: &mut Transaction<'_, S>,
    topic: &str,
    row: &CountRow,
) -> Result<(), Error>
    ensures same_reference { tx.new.conn.ghost_name ≡ tx.old.conn.ghost_name }
    ensures survives { Survives (state S.Store tx.old.conn.now) (state S.Store tx.new.conn.now) (λ _. ⊥) }
    ensures done { HasCleanDisk (state S.Store tx.new.conn.now) → OnOk result (Goes (Takes REDELIVERY (count_cells topic.now row.now ∷ [])) (state S.Store tx.old.conn.now) (state S.Store tx.new.conn.now)) }
{
    let place = placed(row.place)?;
    let count = tx.execute(
        "DELETE FROM redelivery WHERE topic = ?1 AND sub = ?2 AND idx = ?3 AND times = ?4",
        params![topic, row.sub.as_str(), place, row.times],
    )?;
    took_one(count)
}

/// Deletes all counts of a topic.
pub fn clear<S: Alter>(tx: &mut Transaction<'_, S>, topic: &str) -> Result<(), Error>
    ensures same_reference { tx.new.conn.ghost_name ≡ tx.old.conn.ghost_name }
    ensures survives { Survives (state S.Store tx.old.conn.now) (state S.Store tx.new.conn.now) (λ _. ⊥) }
    ensures done { HasCleanDisk (state S.Store tx.new.conn.now) → OnOk result (Goes (Clears REDELIVERY topic.now) (state S.Store tx.old.conn.now) (state S.Store tx.new.conn.now)) }
{
    tx.execute("DELETE FROM redelivery WHERE topic = ?1", params![topic])?;
    Ok(())
}

/// The counts of a topic, by their subscriptions and places.
pub fn read<S: Alter>(tx: &mut Transaction<'_, S>, topic: &str) -> Result<Vec<Row>, Error>
    ensures same_reference { tx.new.conn.ghost_name ≡ tx.old.conn.ghost_name }
    ensures survives { Survives (state S.Store tx.old.conn.now) (state S.Store tx.new.conn.now) (λ _. ⊥) }
    ensures done { HasCleanDisk (state S.Store tx.new.conn.now) → OnOk result (Goes Stays (state S.Store tx.old.conn.now) (state S.Store tx.new.conn.now)) }
    ensures kept { HasCleanDisk (state S.Store tx.new.conn.now) → IsTrue (state S.Store tx.old.conn.now).in_transaction → KeepsCommit (state S.Store tx.old.conn.now) (state S.Store tx.new.conn.now) }
    ensures rows { HasCleanDisk (state S.Store tx.new.conn.now) → IfOk result (λ rows. IsReady (state S.Store tx.old.conn.now).now → Shows REDELIVERY topic.now rows.items (state S.Store tx.old.conn.now).now.trees) }
    ensures ordered { HasCleanDisk (state S.Store tx.new.conn.now) → IfOk result (λ rows. IsReady (state S.Store tx.old.conn.now).now → AreSortedBy 2 rows.items) }
{
    tx.query_all(
        "SELECT sub, idx, times FROM redelivery WHERE topic = ?1 ORDER BY sub, idx",
        params![topic],
    )
}
