// The table `topic`: one row a topic.
ghost use Rattle.std.specs.Prelude.{◌≡◌, [], ◌∷◌, OnOk, IfOk, IsTrue};
ghost use Rattle.sqlite.specs.State.{HasCleanDisk, KeepsCommit, Survives};
ghost use Rattle.sqlite.specs.Held.{state};
ghost use Rattle.row_forms.specs.Cells.{TOPIC};
ghost use Rattle.row_forms.specs.Forms.{topic_row};
ghost use Rattle.position_core.specs.TopicName.{topic_text};
ghost use Rattle.row_tables.specs.Ready.{IsReady};
ghost use Rattle.row_tables.specs.Goes.{Goes, Stays, Clears, Adds, Shows};

use crate::numbers::signed;
use delivery_machine::Snapshot;
use sqlite::{Alter, Error, Row, Transaction, params};

/// Adds the row of a topic.
pub fn add<S: Alter>(tx: &mut Transaction<'_, S>, topic: &str, kept: &Snapshot) -> Result<(), Error>
    requires { topic.now ≡ topic_text kept.now.name }
    ensures same_reference { tx.new.conn.ghost_name ≡ tx.old.conn.ghost_name }
    ensures survives { Survives (state S.Store tx.old.conn.now) (state S.Store tx.new.conn.now) (λ _. ⊥) }
    ensures done { HasCleanDisk (state S.Store tx.new.conn.now) → OnOk result (Goes (Adds TOPIC (topic_row kept.now ∷ [])) (state S.Store tx.old.conn.now) (state S.Store tx.new.conn.now)) }
{
    let size = kept.ledger_size().get();
    let ledger = signed(kept.ledger())?;
    let ordinal = signed(kept.next_ordinal())?;
    tx.execute(
        "INSERT INTO topic (name, ledger_size, ledger, ordinal) VALUES (?1, ?2, ?3, ?4)",
        params![topic, size, ledger, ordinal],
    )?;
    Ok(())
}

/// Deletes the row of a topic.
pub fn clear<S: Alter>(tx: &mut Transaction<'_, S>, topic: &str) -> Result<(), Error>
    ensures same_reference { tx.new.conn.ghost_name ≡ tx.old.conn.ghost_name }
    ensures survives { Survives (state S.Store tx.old.conn.now) (state S.Store tx.new.conn.now) (λ _. ⊥) }
    ensures done { HasCleanDisk (state S.Store tx.new.conn.now) → OnOk result (Goes (Clears TOPIC topic.now) (state S.Store tx.old.conn.now) (state S.Store tx.new.conn.now)) }
{
    tx.execute("DELETE FROM topic WHERE name = ?1", params![topic])?;
    Ok(())
}

/// The row of a topic.
pub fn read<S: Alter>(tx: &mut Transaction<'_, S>, topic: &str) -> Result<Vec<Row>, Error>
    ensures same_reference { tx.new.conn.ghost_name ≡ tx.old.conn.ghost_name }
    ensures survives { Survives (state S.Store tx.old.conn.now) (state S.Store tx.new.conn.now) (λ _. ⊥) }
    ensures done { HasCleanDisk (state S.Store tx.new.conn.now) → OnOk result (Goes Stays (state S.Store tx.old.conn.now) (state S.Store tx.new.conn.now)) }
    ensures kept { HasCleanDisk (state S.Store tx.new.conn.now) → IsTrue (state S.Store tx.old.conn.now).in_transaction → KeepsCommit (state S.Store tx.old.conn.now) (state S.Store tx.new.conn.now) }
    ensures shown { HasCleanDisk (state S.Store tx.new.conn.now) → OnOk result (IsTrue (state S.Store tx.old.conn.now).is_open) }
    ensures rows { HasCleanDisk (state S.Store tx.new.conn.now) → IfOk result (λ rows. IsReady (state S.Store tx.old.conn.now).now → Shows TOPIC topic.now rows.items (state S.Store tx.old.conn.now).now.trees) }
{
    tx.query_all(
        "SELECT ledger_size, ledger, ordinal FROM topic WHERE name = ?1",
        params![topic],
    )
}
