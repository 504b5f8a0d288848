// The rows that go and those that come, in the tables whose rows a round may take out.
ghost use Rattle.std.specs.Prelude.{◌≡◌, ℕ, List, [], ◌∷◌, map, OnOk};
ghost use Rattle.sqlite.specs.Order.{Row};
ghost use Rattle.sqlite.specs.State.{HasCleanDisk, Survives};
ghost use Rattle.sqlite.specs.Held.{state};
ghost use Rattle.row_forms.specs.Cells.{SUB, ACK, DEAD, REDELIVERY, AUTHOR, RETENTION};
ghost use Rattle.row_forms.specs.Changes.{sub_cells, ack_cells, dead_cells, count_cells, author_cells, retention_cells};
ghost use Rattle.row_tables.specs.Goes.{Goes, Adds, Takes, Swaps};
ghost use Rattle.row_rounds.specs.Rounds.{Via};

use crate::runs;
use delivery_machine::Author;
use row_forms::{Change, CountRow, DeadRow, Difference, RetentionRow, SubRow};
use row_tables::{authors, counts, deads, retentions, subs};
use sqlite::{Alter, Error, Transaction};

/// What has a row in one of the tables.
trait Listed: Drop {
    ghost tree: { ℕ };

    ghost cells: { List ℕ → Self → Row };

    fn add<S: Alter>(&self, tx: &mut Transaction<'_, S>, topic: &str) -> Result<(), Error>
        ensures same_reference { tx.new.conn.ghost_name ≡ tx.old.conn.ghost_name }
        ensures survives { Survives (state S.Store tx.old.conn.now) (state S.Store tx.new.conn.now) (λ _. ⊥) }
        ensures done { HasCleanDisk (state S.Store tx.new.conn.now) → OnOk result (Goes (Adds tree (cells topic.now self.now ∷ [])) (state S.Store tx.old.conn.now) (state S.Store tx.new.conn.now)) };

    fn remove<S: Alter>(&self, tx: &mut Transaction<'_, S>, topic: &str) -> Result<(), Error>
        ensures same_reference { tx.new.conn.ghost_name ≡ tx.old.conn.ghost_name }
        ensures survives { Survives (state S.Store tx.old.conn.now) (state S.Store tx.new.conn.now) (λ _. ⊥) }
        ensures done { HasCleanDisk (state S.Store tx.new.conn.now) → OnOk result (Goes (Takes tree (cells topic.now self.now ∷ [])) (state S.Store tx.old.conn.now) (state S.Store tx.new.conn.now)) };
}

impl Listed for SubRow {
    ghost tree = { SUB };

    ghost cells = { sub_cells };

    fn add<S: Alter>(&self, tx: &mut Transaction<'_, S>, topic: &str) -> Result<(), Error> {
        subs::add(tx, topic, self)
    }

    fn remove<S: Alter>(&self, tx: &mut Transaction<'_, S>, topic: &str) -> Result<(), Error> {
        subs::remove(tx, topic, self)
    }
}

impl Listed for DeadRow {
    ghost tree = { DEAD };

    ghost cells = { dead_cells };

    fn add<S: Alter>(&self, tx: &mut Transaction<'_, S>, topic: &str) -> Result<(), Error> {
        deads::add(tx, topic, self)
    }

    fn remove<S: Alter>(&self, tx: &mut Transaction<'_, S>, topic: &str) -> Result<(), Error> {
        deads::remove(tx, topic, self)
    }
}

impl Listed for CountRow {
    ghost tree = { REDELIVERY };

    ghost cells = { count_cells };

    fn add<S: Alter>(&self, tx: &mut Transaction<'_, S>, topic: &str) -> Result<(), Error> {
        counts::add(tx, topic, self)
    }

    fn remove<S: Alter>(&self, tx: &mut Transaction<'_, S>, topic: &str) -> Result<(), Error> {
        counts::remove(tx, topic, self)
    }
}

impl Listed for Author {
    ghost tree = { AUTHOR };

    ghost cells = { author_cells };

    fn add<S: Alter>(&self, tx: &mut Transaction<'_, S>, topic: &str) -> Result<(), Error> {
        authors::add(tx, topic, self)
    }

    fn remove<S: Alter>(&self, tx: &mut Transaction<'_, S>, topic: &str) -> Result<(), Error> {
        authors::remove(tx, topic, self)
    }
}

impl Listed for RetentionRow {
    ghost tree = { RETENTION };

    ghost cells = { retention_cells };

    fn add<S: Alter>(&self, tx: &mut Transaction<'_, S>, topic: &str) -> Result<(), Error> {
        retentions::add(tx, topic, self)
    }

    fn remove<S: Alter>(&self, tx: &mut Transaction<'_, S>, topic: &str) -> Result<(), Error> {
        retentions::remove(tx, topic, self)
    }
}

fn remove_all<S: Alter, R: Listed>(
    tx: &mut Transaction<'_, S>,
    topic: &str,
    rows: &[R],
) -> Result<(), Error>
    ensures same_reference { tx.new.conn.ghost_name ≡ tx.old.conn.ghost_name }
    ensures survives { Survives (state S.Store tx.old.conn.now) (state S.Store tx.new.conn.now) (λ _. ⊥) }
    ensures done { HasCleanDisk (state S.Store tx.new.conn.now) → OnOk result (Goes (Takes R.tree (map (R.cells topic.now) rows.now)) (state S.Store tx.old.conn.now) (state S.Store tx.new.conn.now)) }
{
    for row in rows {
        row.remove(tx, topic)?;
    }
    Ok(())
}

fn add_all<S: Alter, R: Listed>(
    tx: &mut Transaction<'_, S>,
    topic: &str,
    rows: &[R],
) -> Result<(), Error>
    ensures same_reference { tx.new.conn.ghost_name ≡ tx.old.conn.ghost_name }
    ensures survives { Survives (state S.Store tx.old.conn.now) (state S.Store tx.new.conn.now) (λ _. ⊥) }
    ensures done { HasCleanDisk (state S.Store tx.new.conn.now) → OnOk result (Goes (Adds R.tree (map (R.cells topic.now) rows.now)) (state S.Store tx.old.conn.now) (state S.Store tx.new.conn.now)) }
{
    for row in rows {
        row.add(tx, topic)?;
    }
    Ok(())
}

fn write_rows<S: Alter, R: Listed>(
    tx: &mut Transaction<'_, S>,
    topic: &str,
    rows: &Difference<R>,
) -> Result<(), Error>
    ensures same_reference { tx.new.conn.ghost_name ≡ tx.old.conn.ghost_name }
    ensures survives { Survives (state S.Store tx.old.conn.now) (state S.Store tx.new.conn.now) (λ _. ⊥) }
    ensures done { HasCleanDisk (state S.Store tx.new.conn.now) → OnOk result (Goes (Swaps R.tree (map (R.cells topic.now) rows.now.gone.items) (map (R.cells topic.now) rows.now.news.items)) (state S.Store tx.old.conn.now) (state S.Store tx.new.conn.now)) }
{
    remove_all(tx, topic, &rows.gone)?;
    add_all(tx, topic, &rows.news)
}

/// Writes what changed of the topic's subscriptions, of what they acknowledged, of their dead letters and of their
/// counts.
fn write_subscriptions<S: Alter>(
    tx: &mut Transaction<'_, S>,
    topic: &str,
    change: &Change,
) -> Result<(), Error>
    ensures same_reference { tx.new.conn.ghost_name ≡ tx.old.conn.ghost_name }
    ensures survives { Survives (state S.Store tx.old.conn.now) (state S.Store tx.new.conn.now) (λ _. ⊥) }
    ensures done { HasCleanDisk (state S.Store tx.new.conn.now) → OnOk result (Goes (Via (Swaps SUB (map (sub_cells topic.now) change.now.subs.gone.items) (map (sub_cells topic.now) change.now.subs.news.items)) (Via (Swaps ACK (map (ack_cells topic.now) change.now.acks.gone.items) (map (ack_cells topic.now) change.now.acks.news.items)) (Via (Swaps DEAD (map (dead_cells topic.now) change.now.deads.gone.items) (map (dead_cells topic.now) change.now.deads.news.items)) (Swaps REDELIVERY (map (count_cells topic.now) change.now.counts.gone.items) (map (count_cells topic.now) change.now.counts.news.items))))) (state S.Store tx.old.conn.now) (state S.Store tx.new.conn.now)) }
{
    write_rows(tx, topic, &change.subs)?;
    runs::write(tx, topic, &change.acks)?;
    write_rows(tx, topic, &change.deads)?;
    write_rows(tx, topic, &change.counts)
}

/// Writes what changed of the topic's subscriptions and of all that belongs to them, of the producers of messages that are gone,
/// and of its rule of what is kept.
pub fn write<S: Alter>(
    tx: &mut Transaction<'_, S>,
    topic: &str,
    change: &Change,
) -> Result<(), Error>
    ensures same_reference { tx.new.conn.ghost_name ≡ tx.old.conn.ghost_name }
    ensures survives { Survives (state S.Store tx.old.conn.now) (state S.Store tx.new.conn.now) (λ _. ⊥) }
    ensures done { HasCleanDisk (state S.Store tx.new.conn.now) → OnOk result (Goes (Via (Via (Swaps SUB (map (sub_cells topic.now) change.now.subs.gone.items) (map (sub_cells topic.now) change.now.subs.news.items)) (Via (Swaps ACK (map (ack_cells topic.now) change.now.acks.gone.items) (map (ack_cells topic.now) change.now.acks.news.items)) (Via (Swaps DEAD (map (dead_cells topic.now) change.now.deads.gone.items) (map (dead_cells topic.now) change.now.deads.news.items)) (Swaps REDELIVERY (map (count_cells topic.now) change.now.counts.gone.items) (map (count_cells topic.now) change.now.counts.news.items))))) (Via (Swaps AUTHOR (map (author_cells topic.now) change.now.authors.gone.items) (map (author_cells topic.now) change.now.authors.news.items)) (Swaps RETENTION (map (retention_cells topic.now) change.now.retentions.gone.items) (map (retention_cells topic.now) change.now.retentions.news.items)))) (state S.Store tx.old.conn.now) (state S.Store tx.new.conn.now)) }
{
    write_subscriptions(tx, topic, change)?;
    write_rows(tx, topic, &change.authors)?;
    write_rows(tx, topic, &change.retentions)
}
