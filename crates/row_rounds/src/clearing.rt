// All rows of a topic leave the tables.
ghost use Rattle.std.specs.Prelude.{◌≡◌, OnOk};
ghost use Rattle.sqlite.specs.State.{HasCleanDisk, Survives};
ghost use Rattle.sqlite.specs.Held.{state};
ghost use Rattle.row_forms.specs.Cells.{TOPIC, ENTRY, SUB, ACK, DEAD, REDELIVERY, AUTHOR, RETENTION};
ghost use Rattle.row_tables.specs.Goes.{Goes, Clears};
ghost use Rattle.row_rounds.specs.Rounds.{Via, Empties};

use row_tables::{acks, authors, counts, deads, entries, retentions, subs, topics};
use sqlite::{Alter, Error, Transaction};

fn clear_log<S: Alter>(tx: &mut Transaction<'_, S>, topic: &str) -> Result<(), Error>
    ensures same_reference { tx.new.conn.ghost_name ≡ tx.old.conn.ghost_name }
    ensures survives { Survives (state S.Store tx.old.conn.now) (state S.Store tx.new.conn.now) (λ _. ⊥) }
    ensures done { HasCleanDisk (state S.Store tx.new.conn.now) → OnOk result (Goes (Via (Clears TOPIC topic.now) (Via (Clears ENTRY topic.now) (Via (Clears AUTHOR topic.now) (Clears RETENTION topic.now)))) (state S.Store tx.old.conn.now) (state S.Store tx.new.conn.now)) }
{
    topics::clear(tx, topic)?;
    entries::clear(tx, topic)?;
    authors::clear(tx, topic)?;
    retentions::clear(tx, topic)
}

fn clear_subscriptions<S: Alter>(tx: &mut Transaction<'_, S>, topic: &str) -> Result<(), Error>
    ensures same_reference { tx.new.conn.ghost_name ≡ tx.old.conn.ghost_name }
    ensures survives { Survives (state S.Store tx.old.conn.now) (state S.Store tx.new.conn.now) (λ _. ⊥) }
    ensures done { HasCleanDisk (state S.Store tx.new.conn.now) → OnOk result (Goes (Via (Clears SUB topic.now) (Via (Clears ACK topic.now) (Via (Clears DEAD topic.now) (Clears REDELIVERY topic.now)))) (state S.Store tx.old.conn.now) (state S.Store tx.new.conn.now)) }
{
    subs::clear(tx, topic)?;
    acks::clear(tx, topic)?;
    deads::clear(tx, topic)?;
    counts::clear(tx, topic)
}

/// All rows of the topic go.
pub fn clear<S: Alter>(tx: &mut Transaction<'_, S>, topic: &str) -> Result<(), Error>
    ensures same_reference { tx.new.conn.ghost_name ≡ tx.old.conn.ghost_name }
    ensures survives { Survives (state S.Store tx.old.conn.now) (state S.Store tx.new.conn.now) (λ _. ⊥) }
    ensures done { HasCleanDisk (state S.Store tx.new.conn.now) → OnOk result (Goes (Empties topic.now) (state S.Store tx.old.conn.now) (state S.Store tx.new.conn.now)) }
{
    clear_log(tx, topic)?;
    clear_subscriptions(tx, topic)
}
