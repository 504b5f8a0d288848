// The rows of one topic beside its messages are read.
ghost use Rattle.std.specs.Prelude.{◌≡◌, IfOk, IsTrue, OnOk};
ghost use Rattle.sqlite.specs.State.{HasCleanDisk, KeepsCommit, Survives};
ghost use Rattle.sqlite.specs.Held.{state};
ghost use Rattle.row_tables.specs.Ready.{IsReady};
ghost use Rattle.row_tables.specs.Goes.{Goes, Stays};
ghost use Rattle.row_tables.specs.Sides.{AreSidesOf, AreSorted};

use row_tables::{SideRows, acks, authors, counts, deads, retentions, subs, topics};
use sqlite::{Alter, Error, Transaction};

/// The rows of a topic in all tables but that of its messages: the subscriptions by their names, and what belongs to
/// them by their names and then by first places, ordinals or places.
pub fn read_sides<S: Alter>(tx: &mut Transaction<'_, S>, topic: &str) -> Result<SideRows, Error>
    ensures same_reference { tx.new.conn.ghost_name ≡ tx.old.conn.ghost_name }
    ensures survives { Survives (state S.Store tx.old.conn.now) (state S.Store tx.new.conn.now) (λ _. ⊥) }
    ensures done { HasCleanDisk (state S.Store tx.new.conn.now) → OnOk result (Goes Stays (state S.Store tx.old.conn.now) (state S.Store tx.new.conn.now)) }
    ensures kept { HasCleanDisk (state S.Store tx.new.conn.now) → IsTrue (state S.Store tx.old.conn.now).in_transaction → KeepsCommit (state S.Store tx.old.conn.now) (state S.Store tx.new.conn.now) }
    ensures shown { HasCleanDisk (state S.Store tx.new.conn.now) → OnOk result (IsTrue (state S.Store tx.old.conn.now).is_open) }
    ensures rows { HasCleanDisk (state S.Store tx.new.conn.now) → IfOk result (λ sides. IsReady (state S.Store tx.old.conn.now).now → AreSidesOf topic.now (state S.Store tx.old.conn.now).now.trees sides) }
    ensures ordered { HasCleanDisk (state S.Store tx.new.conn.now) → IfOk result (λ sides. IsReady (state S.Store tx.old.conn.now).now → AreSorted sides) }
{
    let topics = topics::read(tx, topic)?;
    let subs = subs::read(tx, topic)?;
    let acks = acks::read(tx, topic)?;
    let deads = deads::read(tx, topic)?;
    let counts = counts::read(tx, topic)?;
    let authors = authors::read(tx, topic)?;
    let retentions = retentions::read(tx, topic)?;
    Ok(SideRows {
        topics,
        subs,
        acks,
        deads,
        counts,
        authors,
        retentions,
    })
}
