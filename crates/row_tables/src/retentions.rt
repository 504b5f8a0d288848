// The table `retention`: one row a topic of which messages are gone, or that has a rule of its own of what is kept.
ghost use Rattle.std.specs.Prelude.{◌≡◌, [], ◌∷◌, OnOk, IfOk, IsTrue};
ghost use Rattle.sqlite.specs.State.{HasCleanDisk, KeepsCommit, Survives};
ghost use Rattle.sqlite.specs.Held.{state};
ghost use Rattle.row_forms.specs.Cells.{RETENTION};
ghost use Rattle.row_forms.specs.Changes.{retention_cells};
ghost use Rattle.row_tables.specs.Ready.{IsReady};
ghost use Rattle.row_tables.specs.Goes.{Goes, Stays, Clears, Adds, Takes, Shows};

use crate::numbers::{signed, took_one};
use row_forms::RetentionRow;
use sqlite::{Alter, Error, Row, Transaction, params};

/// Adds the row of a topic.
pub fn add<S: Alter>(
    tx: &mut Transaction<'_, S>,
    topic: &str,
    row: &RetentionRow,
) -> Result<(), Error>
    ensures same_reference { tx.new.conn.ghost_name ≡ tx.old.conn.ghost_name }
    ensures survives { Survives (state S.Store tx.old.conn.now) (state S.Store tx.new.conn.now) (λ _. ⊥) }
    ensures done { HasCleanDisk (state S.Store tx.new.conn.now) → OnOk result (Goes (Adds RETENTION (retention_cells topic.now row.now ∷ [])) (state S.Store tx.old.conn.now) (state S.Store tx.new.conn.now)) }
{
    let gone = signed(row.gone)?;
    let amount = signed(row.amount)?;
    tx.execute(
        "INSERT INTO retention (topic, gone, kind, amount) VALUES (?1, ?2, ?3, ?4)",
        params![topic, gone, row.kind, amount],
    )?;
    Ok(())
}

/// Deletes the row of a topic. An error where there is none.
pub fn remove<S: Alter>(
    tx: &mut Transaction<'_, S>,
    topic: &str,
    row: &RetentionRow,
) -> Result<(), Error>
    ensures same_reference { tx.new.conn.ghost_name ≡ tx.old.conn.ghost_name }
    ensures survives { Survives (state S.Store tx.old.conn.now) (state S.Store tx.new.conn.now) (λ _. ⊥) }
    ensures done { HasCleanDisk (state S.Store tx.new.conn.now) → OnOk result (Goes (Takes RETENTION (retention_cells topic.now row.now ∷ [])) (state S.Store tx.old.conn.now) (state S.Store tx.new.conn.now)) }
{
    let gone = signed(row.gone)?;
    let amount = signed(row.amount)?;
    let count = tx.execute(
        "DELETE FROM retention WHERE topic = ?1 AND gone = ?2 AND kind = ?3 AND amount = ?4",
        params![topic, gone, row.kind, amount],
    )?;
    took_one(count)
}

/// Deletes the row of a topic, if it has one.
pub fn clear<S: Alter>(tx: &mut Transaction<'_, S>, topic: &str) -> Result<(), Error>
    ensures same_reference { tx.new.conn.ghost_name ≡ tx.old.conn.ghost_name }
    ensures survives { Survives (state S.Store tx.old.conn.now) (state S.Store tx.new.conn.now) (λ _. ⊥) }
    ensures done { HasCleanDisk (state S.Store tx.new.conn.now) → OnOk result (Goes (Clears RETENTION topic.now) (state S.Store tx.old.conn.now) (state S.Store tx.new.conn.now)) }
{
    tx.execute("DELETE FROM retention WHERE topic = ?1", params![topic])?;
    Ok(())
}

/// The row of a topic.
pub fn read<S: Alter>(tx: &mut Transaction<'_, S>, topic: &str) -> Result<Vec<Row>, Error>
    ensures same_reference { tx.new.conn.ghost_name ≡ tx.old.conn.ghost_name }
    ensures survives { Survives (state S.Store tx.old.conn.now) (state S.Store tx.new.conn.now) (λ _. ⊥) }
    ensures done { HasCleanDisk (state S.Store tx.new.conn.now) → OnOk result (Goes Stays (state S.Store tx.old.conn.now) (state S.Store tx.new.conn.now)) }
    ensures kept { HasCleanDisk (state S.Store tx.new.conn.now) → IsTrue (state S.Store tx.old.conn.now).in_transaction → KeepsCommit (state S.Store tx.old.conn.now) (state S.Store tx.new.conn.now) }
    ensures rows { HasCleanDisk (state S.Store tx.new.conn.now) → IfOk result (λ rows. IsReady (state S.Store tx.old.conn.now).now → Shows RETENTION topic.now rows.items (state S.Store tx.old.conn.now).now.trees) }
{
    tx.query_all(
        "SELECT gone, kind, amount FROM retention WHERE topic = ?1",
        params![topic],
    )
}
