// The table `entry`: one row a message.
ghost use Rattle.std.specs.Prelude.{◌≡◌, ℕ, [], ◌∷◌, FitsSigned, OnOk, IfOk, IsTrue, pos};
ghost use Rattle.std.specs.Int.{w64};
ghost use Rattle.sqlite.specs.State.{HasCleanDisk, KeepsCommit, Survives};
ghost use Rattle.sqlite.specs.Held.{state};
ghost use Rattle.sqlite.specs.declared.types.Value.TheVariants.{Int, Text as Words};
ghost use Rattle.row_forms.specs.Cells.{ENTRY};
ghost use Rattle.row_forms.specs.Forms.{entry_row, key_cells};
ghost use Rattle.row_forms.specs.Places.{number_of};
ghost use Rattle.row_forms.specs.Properties.{properties_text};
ghost use Rattle.row_tables.specs.Ready.{IsReady};
ghost use Rattle.row_tables.specs.Goes.{Goes, Stays, Clears, Cuts, Adds};
ghost use Rattle.row_tables.specs.Ordered.{AreSortedBy};
ghost use Rattle.row_tables.specs.Pieces.{ShowsWithin, first_is_below, has_below, has_from, has_others};

use crate::numbers::{placed, signed};
use position_core::{Entry, Key};
use row_forms::Place;
use sqlite::{Alter, Error, Row, Transaction, params};
use sqlite_value::order::compare;
use sqlite_value::value::ValueRef;

/// 1 and the key, or 0 and an empty one.
fn key_parts(key: &Option<Key>) -> (u32, &str)
    ensures { Int (pos result.0) ∷ Words result.1.now ∷ [] ≡ key_cells key.now }
{
    match key {
        Some(key) => (1, key.as_str()),
        None => (0, ""),
    }
}

fn sequence_of(entry: &Entry) -> i64
    ensures value { result ≡ entry.now.sequence }
    ensures fits { FitsSigned w64 entry.now.sequence }
{
    entry.sequence
}

/// Adds the row of the message at this place, whose properties are written so.
pub fn add<S: Alter>(
    tx: &mut Transaction<'_, S>,
    topic: &str,
    place: Place,
    entry: &Entry,
    properties: &str,
) -> Result<(), Error>
    requires { properties.now ≡ properties_text entry.now.body.properties }
    ensures same_reference { tx.new.conn.ghost_name ≡ tx.old.conn.ghost_name }
    ensures survives { Survives (state S.Store tx.old.conn.now) (state S.Store tx.new.conn.now) (λ _. ⊥) }
    ensures done { HasCleanDisk (state S.Store tx.new.conn.now) → OnOk result (Goes (Adds ENTRY (entry_row topic.now (number_of place) entry.now ∷ [])) (state S.Store tx.old.conn.now) (state S.Store tx.new.conn.now)) }
{
    let content = entry.body.content();
    let (has_key, key) = key_parts(&content.key);
    let place = placed(place)?;
    let ledger = signed(entry.position.ledger)?;
    let number = signed(entry.position.entry)?;
    let sequence = sequence_of(entry);
    let time = signed(entry.time.millis())?;
    tx.execute(
        "INSERT INTO entry (topic, idx, ledger, entry, producer, sequence, time, has_key, key, properties, payload) VALUES (?1, ?2, ?3, ?4, ?5, ?6, ?7, ?8, ?9, ?10, ?11)",
        params![
            topic,
            place,
            ledger,
            number,
            entry.producer.as_str(),
            sequence,
            time,
            has_key,
            key,
            properties,
            content.payload.as_slice()
        ],
    )?;
    Ok(())
}

/// Deletes all messages of a topic.
pub fn clear<S: Alter>(tx: &mut Transaction<'_, S>, topic: &str) -> Result<(), Error>
    ensures same_reference { tx.new.conn.ghost_name ≡ tx.old.conn.ghost_name }
    ensures survives { Survives (state S.Store tx.old.conn.now) (state S.Store tx.new.conn.now) (λ _. ⊥) }
    ensures done { HasCleanDisk (state S.Store tx.new.conn.now) → OnOk result (Goes (Clears ENTRY topic.now) (state S.Store tx.old.conn.now) (state S.Store tx.new.conn.now)) }
{
    tx.execute("DELETE FROM entry WHERE topic = ?1", params![topic])?;
    Ok(())
}

/// Deletes the messages of a topic whose places are below this one.
pub fn cut<S: Alter>(tx: &mut Transaction<'_, S>, topic: &str, end: u64) -> Result<(), Error>
    ensures same_reference { tx.new.conn.ghost_name ≡ tx.old.conn.ghost_name }
    ensures survives { Survives (state S.Store tx.old.conn.now) (state S.Store tx.new.conn.now) (λ _. ⊥) }
    ensures done { HasCleanDisk (state S.Store tx.new.conn.now) → OnOk result (Goes (Cuts topic.now end) (state S.Store tx.old.conn.now) (state S.Store tx.new.conn.now)) }
{
    let end = signed(end)?;
    tx.execute(
        "DELETE FROM entry WHERE topic = ?1 AND idx < ?2",
        params![topic, end],
    )?;
    Ok(())
}

/// The messages of a topic from one place on and below another, by their places.
pub fn read_within<S: Alter>(
    tx: &mut Transaction<'_, S>,
    topic: &str,
    from: u64,
    end: u64,
) -> Result<Vec<Row>, Error>
    ensures same_reference { tx.new.conn.ghost_name ≡ tx.old.conn.ghost_name }
    ensures survives { Survives (state S.Store tx.old.conn.now) (state S.Store tx.new.conn.now) (λ _. ⊥) }
    ensures done { HasCleanDisk (state S.Store tx.new.conn.now) → OnOk result (Goes Stays (state S.Store tx.old.conn.now) (state S.Store tx.new.conn.now)) }
    ensures kept { HasCleanDisk (state S.Store tx.new.conn.now) → IsTrue (state S.Store tx.old.conn.now).in_transaction → KeepsCommit (state S.Store tx.old.conn.now) (state S.Store tx.new.conn.now) }
    ensures rows { HasCleanDisk (state S.Store tx.new.conn.now) → IfOk result (λ rows. IsReady (state S.Store tx.old.conn.now).now → ShowsWithin topic.now from end rows.items (state S.Store tx.old.conn.now).now.trees) }
    ensures ordered { HasCleanDisk (state S.Store tx.new.conn.now) → IfOk result (λ rows. IsReady (state S.Store tx.old.conn.now).now → AreSortedBy 1 rows.items) }
{
    let from = signed(from)?;
    let end = signed(end)?;
    tx.query_all(
        "SELECT idx, ledger, entry, producer, sequence, time, has_key, key, properties, payload FROM entry WHERE topic = ?1 AND idx >= ?2 AND idx < ?3 ORDER BY idx",
        params![topic, from, end],
    )
}

/// Whether the first place that is shown is below this number, as NULL is.
fn first_is_below(rows: &[Row], end: i64) -> Result<bool, Error>
    ensures { IfOk result (λ below. (n : ℕ) → end ≡ pos n → below ≡ first_is_below n rows.now) }
{
    match rows {
        [row, ..] => {
            let place = row.get_ref(0)?;
            Ok(compare(place, ValueRef::Int(end)).is_lt())
        }
        [] => Ok(false),
    }
}

/// Whether a message of the topic has a place below this one. Only the first place is read.
fn has_below<S: Alter>(tx: &mut Transaction<'_, S>, topic: &str, end: u64) -> Result<bool, Error>
    ensures same_reference { tx.new.conn.ghost_name ≡ tx.old.conn.ghost_name }
    ensures survives { Survives (state S.Store tx.old.conn.now) (state S.Store tx.new.conn.now) (λ _. ⊥) }
    ensures done { HasCleanDisk (state S.Store tx.new.conn.now) → OnOk result (Goes Stays (state S.Store tx.old.conn.now) (state S.Store tx.new.conn.now)) }
    ensures kept { HasCleanDisk (state S.Store tx.new.conn.now) → IsTrue (state S.Store tx.old.conn.now).in_transaction → KeepsCommit (state S.Store tx.old.conn.now) (state S.Store tx.new.conn.now) }
    ensures found { HasCleanDisk (state S.Store tx.new.conn.now) → IfOk result (λ found. IsReady (state S.Store tx.old.conn.now).now → found ≡ has_below topic.now end (state S.Store tx.old.conn.now).now.trees) }
{
    let end = signed(end)?;
    let first = tx.query_all(
        "SELECT idx FROM entry WHERE topic = ?1 ORDER BY idx LIMIT 1",
        params![topic],
    )?;
    first_is_below(first.as_slice(), end)
}

/// Whether a message of the topic has this place, or one after it. Only one place is read.
fn has_from<S: Alter>(tx: &mut Transaction<'_, S>, topic: &str, end: u64) -> Result<bool, Error>
    ensures same_reference { tx.new.conn.ghost_name ≡ tx.old.conn.ghost_name }
    ensures survives { Survives (state S.Store tx.old.conn.now) (state S.Store tx.new.conn.now) (λ _. ⊥) }
    ensures done { HasCleanDisk (state S.Store tx.new.conn.now) → OnOk result (Goes Stays (state S.Store tx.old.conn.now) (state S.Store tx.new.conn.now)) }
    ensures kept { HasCleanDisk (state S.Store tx.new.conn.now) → IsTrue (state S.Store tx.old.conn.now).in_transaction → KeepsCommit (state S.Store tx.old.conn.now) (state S.Store tx.new.conn.now) }
    ensures found { HasCleanDisk (state S.Store tx.new.conn.now) → IfOk result (λ found. IsReady (state S.Store tx.old.conn.now).now → found ≡ has_from topic.now end (state S.Store tx.old.conn.now).now.trees) }
{
    let end = signed(end)?;
    let others = tx.query_all(
        "SELECT idx FROM entry WHERE topic = ?1 AND idx >= ?2 LIMIT 1",
        params![topic, end],
    )?;
    Ok(!others.is_empty())
}

/// Whether a message of the topic has no place from the one on and below the other. Each half of the answer is one step
/// into the index.
pub fn has_others<S: Alter>(
    tx: &mut Transaction<'_, S>,
    topic: &str,
    from: u64,
    end: u64,
) -> Result<bool, Error>
    ensures same_reference { tx.new.conn.ghost_name ≡ tx.old.conn.ghost_name }
    ensures survives { Survives (state S.Store tx.old.conn.now) (state S.Store tx.new.conn.now) (λ _. ⊥) }
    ensures done { HasCleanDisk (state S.Store tx.new.conn.now) → OnOk result (Goes Stays (state S.Store tx.old.conn.now) (state S.Store tx.new.conn.now)) }
    ensures kept { HasCleanDisk (state S.Store tx.new.conn.now) → IsTrue (state S.Store tx.old.conn.now).in_transaction → KeepsCommit (state S.Store tx.old.conn.now) (state S.Store tx.new.conn.now) }
    ensures found { HasCleanDisk (state S.Store tx.new.conn.now) → IfOk result (λ found. IsReady (state S.Store tx.old.conn.now).now → found ≡ has_others topic.now from end (state S.Store tx.old.conn.now).now.trees) }
{
    if has_below(tx, topic, from)? {
        return Ok(true);
    }
    has_from(tx, topic, end)
}
