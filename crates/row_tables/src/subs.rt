// The table `sub`: one row a subscription.
ghost use Rattle.std.specs.Prelude.{◌≡◌, [], ◌∷◌, OnOk, IfOk, IsTrue};
ghost use Rattle.sqlite.specs.State.{HasCleanDisk, KeepsCommit, Survives};
ghost use Rattle.sqlite.specs.Held.{state};
ghost use Rattle.row_forms.specs.Cells.{SUB};
ghost use Rattle.row_forms.specs.Changes.{sub_cells};
ghost use Rattle.row_forms.specs.Forms.{kind_number};
ghost use Rattle.row_tables.specs.Ready.{IsReady};
ghost use Rattle.row_tables.specs.Goes.{Goes, Stays, Clears, Adds, Takes, Shows};
ghost use Rattle.row_tables.specs.Ordered.{AreSortedBy};

use crate::numbers::took_one;
use position_core::Kind;
use row_forms::SubRow;
use sqlite::{Alter, Error, Row, Transaction, params};

fn kind_number(kind: Kind) -> u32
    ensures { result ≡ kind_number kind }
{
    match kind {
        Kind::Exclusive => 0,
        Kind::Failover => 1,
        Kind::Shared => 2,
        Kind::KeyShared => 3,
    }
}

/// Adds the row of a subscription.
pub fn add<S: Alter>(tx: &mut Transaction<'_, S>, topic: &str, row: &SubRow) -> Result<(), Error>
    ensures same_reference { tx.new.conn.ghost_name ≡ tx.old.conn.ghost_name }
    ensures survives { Survives (state S.Store tx.old.conn.now) (state S.Store tx.new.conn.now) (λ _. ⊥) }
    ensures done { HasCleanDisk (state S.Store tx.new.conn.now) → OnOk result (Goes (Adds SUB (sub_cells topic.now row.now ∷ [])) (state S.Store tx.old.conn.now) (state S.Store tx.new.conn.now)) }
{
    let kind = kind_number(row.kind);
    tx.execute(
        "INSERT INTO sub (topic, name, kind) VALUES (?1, ?2, ?3)",
        params![topic, row.name.as_str(), kind],
    )?;
    Ok(())
}

/// Deletes the row of a subscription. An error where there is none.
pub fn remove<S: Alter>(tx: &mut Transaction<'_, S>, topic: &str, row: &SubRow) -> Result<(), Error>
    ensures same_reference { tx.new.conn.ghost_name ≡ tx.old.conn.ghost_name }
    ensures survives { Survives (state S.Store tx.old.conn.now) (state S.Store tx.new.conn.now) (λ _. ⊥) }
    ensures done { HasCleanDisk (state S.Store tx.new.conn.now) → OnOk result (Goes (Takes SUB (sub_cells topic.now row.now ∷ [])) (state S.Store tx.old.conn.now) (state S.Store tx.new.conn.now)) }
{
    let kind = kind_number(row.kind);
    let count = tx.execute(
        "DELETE FROM sub WHERE topic = ?1 AND name = ?2 AND kind = ?3",
        params![topic, row.name.as_str(), kind],
    )?;
    took_one(count)
}

/// Deletes all subscriptions of a topic.
pub fn clear<S: Alter>(tx: &mut Transaction<'_, S>, topic: &str) -> Result<(), Error>
    ensures same_reference { tx.new.conn.ghost_name ≡ tx.old.conn.ghost_name }
    ensures survives { Survives (state S.Store tx.old.conn.now) (state S.Store tx.new.conn.now) (λ _. ⊥) }
    ensures done { HasCleanDisk (state S.Store tx.new.conn.now) → OnOk result (Goes (Clears SUB topic.now) (state S.Store tx.old.conn.now) (state S.Store tx.new.conn.now)) }
{
    tx.execute("DELETE FROM sub WHERE topic = ?1", params![topic])?;
    Ok(())
}

/// The subscriptions of a topic, by their names.
pub fn read<S: Alter>(tx: &mut Transaction<'_, S>, topic: &str) -> Result<Vec<Row>, Error>
    ensures same_reference { tx.new.conn.ghost_name ≡ tx.old.conn.ghost_name }
    ensures survives { Survives (state S.Store tx.old.conn.now) (state S.Store tx.new.conn.now) (λ _. ⊥) }
    ensures done { HasCleanDisk (state S.Store tx.new.conn.now) → OnOk result (Goes Stays (state S.Store tx.old.conn.now) (state S.Store tx.new.conn.now)) }
    ensures kept { HasCleanDisk (state S.Store tx.new.conn.now) → IsTrue (state S.Store tx.old.conn.now).in_transaction → KeepsCommit (state S.Store tx.old.conn.now) (state S.Store tx.new.conn.now) }
    ensures rows { HasCleanDisk (state S.Store tx.new.conn.now) → IfOk result (λ rows. IsReady (state S.Store tx.old.conn.now).now → Shows SUB topic.now rows.items (state S.Store tx.old.conn.now).now.trees) }
    ensures ordered { HasCleanDisk (state S.Store tx.new.conn.now) → IfOk result (λ rows. IsReady (state S.Store tx.old.conn.now).now → AreSortedBy 1 rows.items) }
{
    tx.query_all(
        "SELECT name, kind FROM sub WHERE topic = ?1 ORDER BY name",
        params![topic],
    )
}
