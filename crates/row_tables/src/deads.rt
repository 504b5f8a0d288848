// The table `dead`: one row a dead letter.
ghost use Rattle.std.specs.Prelude.{◌≡◌, [], ◌∷◌, OnOk, IfOk, IsTrue};
ghost use Rattle.sqlite.specs.State.{HasCleanDisk, KeepsCommit, Survives};
ghost use Rattle.sqlite.specs.Held.{state};
ghost use Rattle.row_forms.specs.Cells.{DEAD};
ghost use Rattle.row_forms.specs.Changes.{dead_cells};
ghost use Rattle.row_tables.specs.Ready.{IsReady};
ghost use Rattle.row_tables.specs.Goes.{Goes, Stays, Clears, Adds, Takes, Shows};
ghost use Rattle.row_tables.specs.Ordered.{AreSortedBy};

use crate::numbers::{placed, signed, took_one};
use row_forms::DeadRow;
use sqlite::{Alter, Error, Row, Transaction, params};

/// Adds the row of a dead letter.
pub fn add<S: Alter>(tx: &mut Transaction<'_, S>, topic: &str, row: &DeadRow) -> Result<(), Error>
    ensures same_reference { tx.new.conn.ghost_name ≡ tx.old.conn.ghost_name }
    ensures survives { Survives (state S.Store tx.old.conn.now) (state S.Store tx.new.conn.now) (λ _. ⊥) }
    ensures done { HasCleanDisk (state S.Store tx.new.conn.now) → OnOk result (Goes (Adds DEAD (dead_cells topic.now row.now ∷ [])) (state S.Store tx.old.conn.now) (state S.Store tx.new.conn.now)) }
{
    let ordinal = signed(row.ordinal)?;
    let place = placed(row.place)?;
    tx.execute(
        "INSERT INTO dead (topic, sub, ordinal, idx, target) VALUES (?1, ?2, ?3, ?4, ?5)",
        params![topic, row.sub.as_str(), ordinal, place, row.target.as_str()],
    )?;
    Ok(())
}

/// Deletes the row of a dead letter. An error where there is none.
pub fn remove<S: Alter>(
    tx: &mut Transaction<'_, S>,
    topic: &str,
    row: &DeadRow,
) -> Result<(), Error>
    ensures same_reference { tx.new.conn.ghost_name ≡ tx.old.conn.ghost_name }
    ensures survives { Survives (state S.Store tx.old.conn.now) (state S.Store tx.new.conn.now) (λ _. ⊥) }
    ensures done { HasCleanDisk (state S.Store tx.new.conn.now) → OnOk result (Goes (Takes DEAD (dead_cells topic.now row.now ∷ [])) (state S.Store tx.old.conn.now) (state S.Store tx.new.conn.now)) }
{
    let ordinal = signed(row.ordinal)?;
    let place = placed(row.place)?;
    let count = tx.execute(
        "DELETE FROM dead WHERE topic = ?1 AND sub = ?2 AND ordinal = ?3 AND idx = ?4 AND target = ?5",
        params![topic, row.sub.as_str(), ordinal, place, row.target.as_str()],
    )?;
    took_one(count)
}

/// Deletes all dead letters of a topic.
pub fn clear<S: Alter>(tx: &mut Transaction<'_, S>, topic: &str) -> Result<(), Error>
    ensures same_reference { tx.new.conn.ghost_name ≡ tx.old.conn.ghost_name }
    ensures survives { Survives (state S.Store tx.old.conn.now) (state S.Store tx.new.conn.now) (λ _. ⊥) }
    ensures done { HasCleanDisk (state S.Store tx.new.conn.now) → OnOk result (Goes (Clears DEAD topic.now) (state S.Store tx.old.conn.now) (state S.Store tx.new.conn.now)) }
{
    tx.execute("DELETE FROM dead WHERE topic = ?1", params![topic])?;
    Ok(())
}

/// The dead letters of a topic, by their subscriptions and ordinals.
pub fn read<S: Alter>(tx: &mut Transaction<'_, S>, topic: &str) -> Result<Vec<Row>, Error>
    ensures same_reference { tx.new.conn.ghost_name ≡ tx.old.conn.ghost_name }
    ensures survives { Survives (state S.Store tx.old.conn.now) (state S.Store tx.new.conn.now) (λ _. ⊥) }
    ensures done { HasCleanDisk (state S.Store tx.new.conn.now) → OnOk result (Goes Stays (state S.Store tx.old.conn.now) (state S.Store tx.new.conn.now)) }
    ensures kept { HasCleanDisk (state S.Store tx.new.conn.now) → IsTrue (state S.Store tx.old.conn.now).in_transaction → KeepsCommit (state S.Store tx.old.conn.now) (state S.Store tx.new.conn.now) }
    ensures rows { HasCleanDisk (state S.Store tx.new.conn.now) → IfOk result (λ rows. IsReady (state S.Store tx.old.conn.now).now → Shows DEAD topic.now rows.items (state S.Store tx.old.conn.now).now.trees) }
    ensures ordered { HasCleanDisk (state S.Store tx.new.conn.now) → IfOk result (λ rows. IsReady (state S.Store tx.old.conn.now).now → AreSortedBy 2 rows.items) }
{
    tx.query_all(
        "SELECT sub, ordinal, idx, target FROM dead WHERE topic = ?1 ORDER BY sub, ordinal",
        params![topic],
    )
}
