// The row of a topic, and those of its messages.
ghost use Rattle.std.specs.Prelude.{◌≡◌, [], ◌∷◌, ◌<◌, ◌≤◌, ◌+◌, drop, length, OnErr, OnOk, string_bytes, string_capacity};
ghost use Rattle.log_pieces.specs.Pieces.{joined};
ghost use Rattle.position_core.specs.TopicName.{topic_text};
ghost use Rattle.sqlite.specs.State.{HasCleanDisk, Survives};
ghost use Rattle.sqlite.specs.Held.{state};
ghost use Rattle.row_forms.specs.Cells.{TOPIC, ENTRY};
ghost use Rattle.row_forms.specs.Forms.{topic_row, entry_row, entry_rows};
ghost use Rattle.row_forms.specs.Properties.{properties_text};
ghost use Rattle.row_tables.specs.Goes.{Goes, Clears, Adds};
ghost use Rattle.row_rounds.specs.Rounds.{Via, MayCut, MayWriteTopic};
ghost use Rattle.row_forms.specs.Places.{number_of};

use delivery_machine::Snapshot;
use json_values::append_properties;
use log_pieces::Pieces;
use position_core::{Entry, Properties};
use row_forms::{Change, Place};
use row_tables::{entries, topics};
use sqlite::{Alter, Error, ErrorCode, Transaction};

/// The topic's row becomes the snapshot's, where it is another.
fn write_topic<S: Alter>(
    tx: &mut Transaction<'_, S>,
    topic: &str,
    kept: &Snapshot,
    is_other: bool,
) -> Result<(), Error>
    requires { topic.now ≡ topic_text kept.now.name }
    ensures same_reference { tx.new.conn.ghost_name ≡ tx.old.conn.ghost_name }
    ensures survives { Survives (state S.Store tx.old.conn.now) (state S.Store tx.new.conn.now) (λ _. ⊥) }
    ensures done { HasCleanDisk (state S.Store tx.new.conn.now) → OnOk result (Goes (MayWriteTopic is_other topic.now (topic_row kept.now)) (state S.Store tx.old.conn.now) (state S.Store tx.new.conn.now)) }
{
    if !is_other {
        return Ok(());
    }
    topics::clear(tx, topic)?;
    topics::add(tx, topic, kept)
}

/// It fails only where there is too little room.
fn render(scratch: &mut String, properties: &Properties) -> Result<(), Error>
    ensures bytes { OnOk result (string_bytes scratch.new ≡ properties_text properties.now) }
    ensures capacity { string_capacity scratch.old ≤ string_capacity scratch.new }
    ensures full { OnErr result (string_capacity scratch.old < length (properties_text properties.now)) }
{
    scratch.clear();
    let Ok(()) = append_properties(scratch, properties) else {
        return Err(Error::SqliteFailure(ErrorCode::OutOfMemory));
    };
    Ok(())
}

fn add_message<S: Alter>(
    tx: &mut Transaction<'_, S>,
    topic: &str,
    place: Place,
    entry: &Entry,
    scratch: &mut String,
) -> Result<(), Error>
    ensures same_reference { tx.new.conn.ghost_name ≡ tx.old.conn.ghost_name }
    ensures survives { Survives (state S.Store tx.old.conn.now) (state S.Store tx.new.conn.now) (λ _. ⊥) }
    ensures done { HasCleanDisk (state S.Store tx.new.conn.now) → OnOk result (Goes (Adds ENTRY (entry_row topic.now (number_of place) entry.now ∷ [])) (state S.Store tx.old.conn.now) (state S.Store tx.new.conn.now)) }
{
    render(scratch, &entry.body.content().properties)?;
    entries::add(tx, topic, place, entry, scratch.as_str())
}

/// Deletes the messages that are gone, where any went.
fn cut_messages<S: Alter>(
    tx: &mut Transaction<'_, S>,
    topic: &str,
    went: u64,
    gone: u64,
) -> Result<(), Error>
    ensures same_reference { tx.new.conn.ghost_name ≡ tx.old.conn.ghost_name }
    ensures survives { Survives (state S.Store tx.old.conn.now) (state S.Store tx.new.conn.now) (λ _. ⊥) }
    ensures done { HasCleanDisk (state S.Store tx.new.conn.now) → OnOk result (Goes (MayCut went topic.now gone) (state S.Store tx.old.conn.now) (state S.Store tx.new.conn.now)) }
{
    if went == 0 {
        return Ok(());
    }
    entries::cut(tx, topic, gone)
}

/// Adds the messages from this index of the log on.
fn add_messages<S: Alter>(
    tx: &mut Transaction<'_, S>,
    topic: &str,
    gone: u64,
    log: &Pieces,
    from: usize,
    scratch: &mut String,
) -> Result<(), Error>
    ensures same_reference { tx.new.conn.ghost_name ≡ tx.old.conn.ghost_name }
    ensures survives { Survives (state S.Store tx.old.conn.now) (state S.Store tx.new.conn.now) (λ _. ⊥) }
    ensures done { HasCleanDisk (state S.Store tx.new.conn.now) → OnOk result (Goes (Adds ENTRY (entry_rows topic.now (gone + from) (drop from (joined log.now)))) (state S.Store tx.old.conn.now) (state S.Store tx.new.conn.now)) }
{
    for index in from..log.count() {
        let Some(message) = log.get(index) else {
            return Err(Error::SqliteFailure(ErrorCode::DatabaseCorrupt));
        };
        let index = index as u64;
        add_message(tx, topic, Place { gone, index }, message.entry(), scratch)?;
    }
    Ok(())
}

/// Writes what changed of the topic's row and of its messages.
pub fn write<S: Alter>(
    tx: &mut Transaction<'_, S>,
    topic: &str,
    kept: &Snapshot,
    change: &Change,
    scratch: &mut String,
) -> Result<(), Error>
    requires { topic.now ≡ topic_text kept.now.name }
    ensures same_reference { tx.new.conn.ghost_name ≡ tx.old.conn.ghost_name }
    ensures survives { Survives (state S.Store tx.old.conn.now) (state S.Store tx.new.conn.now) (λ _. ⊥) }
    ensures done { HasCleanDisk (state S.Store tx.new.conn.now) → OnOk result (Goes (Via (MayWriteTopic change.now.topic topic.now (topic_row kept.now)) (Via (MayCut change.now.went topic.now kept.now.gone) (Adds ENTRY (entry_rows topic.now (kept.now.gone + change.now.from) (drop change.now.from kept.now.log))))) (state S.Store tx.old.conn.now) (state S.Store tx.new.conn.now)) }
{
    write_topic(tx, topic, kept, change.topic)?;
    cut_messages(tx, topic, change.went, kept.gone())?;
    add_messages(tx, topic, kept.gone(), kept.log(), change.from, scratch)
}
