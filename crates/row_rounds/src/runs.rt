// The rows of runs that go and those that come, side by side: a run that begins where one began keeps that row.
ghost use Rattle.std.specs.Prelude.{◌≡◌, ◌∷◌, ◌++◌, [], map, IfSome, IfNone, OnOk};
ghost use Rattle.sqlite.specs.State.{HasCleanDisk, Survives};
ghost use Rattle.sqlite.specs.Held.{state};
ghost use Rattle.row_forms.specs.Cells.{ACK};
ghost use Rattle.row_forms.specs.Changes.{ack_cells};
ghost use Rattle.row_forms.specs.Places.{number_of};
ghost use Rattle.row_tables.specs.Goes.{Goes, Swaps};
ghost use Rattle.row_rounds.specs.Runs.{old_of, new_of, IsOfOneRun};

use row_forms::{AckRow, Difference, Place};
use row_tables::acks;
use sqlite::{Alter, Error, Transaction};
use std::cmp::Ordering;

/// What comes first of the rows that go and of those that come: one of them alone, or one of each whose run begins at
/// one place.
#[derive(Clone, Copy)]
enum Side<'a> {
    Gone(&'a AckRow),
    New(&'a AckRow),
    Both(&'a AckRow, &'a AckRow),
}

/// A place that is beyond the numbers of 64 bits comes first: no database has it.
fn order_of_places(old: Place, new: Place) -> Ordering
    ensures { result ≡ Ordering.Equal → number_of old ≡ number_of new }
{
    match (
        old.gone.checked_add(old.index),
        new.gone.checked_add(new.index),
    ) {
        (Some(place), Some(another)) => place.cmp(&another),
        (None, _) => Ordering::Less,
        (Some(_), None) => Ordering::Greater,
    }
}

fn order_of(old: &AckRow, new: &AckRow) -> Ordering
    ensures sub { result ≡ Ordering.Equal → old.now.sub ≡ new.now.sub }
    ensures first { result ≡ Ordering.Equal → number_of old.now.first ≡ number_of new.now.first }
{
    match old.sub.order(&new.sub) {
        Ordering::Less => Ordering::Less,
        Ordering::Equal => order_of_places(old.first, new.first),
        Ordering::Greater => Ordering::Greater,
    }
}

/// What is left to see of them.
#[derive(Drop)]
struct Walk<'a> {
    olds: &'a [AckRow],
    news: &'a [AckRow],
}

impl<'a> Walk<'a> {
    /// What comes next. The rows stand in the order of their subscriptions and first places, so none comes before
    /// the one of its key is gone.
    fn next(&mut self) -> Option<Side<'a>>
        ensures olds { IfSome result (λ side. old_of side ++ self.new.olds.now ≡ self.old.olds.now) }
        ensures news { IfSome result (λ side. new_of side ++ self.new.news.now ≡ self.old.news.now) }
        ensures key { IfSome result IsOfOneRun }
        ensures no_olds { IfNone result (self.old.olds.now ≡ []) }
        ensures no_news { IfNone result (self.old.news.now ≡ []) }
    {
        let Some((old, olds)) = self.olds.split_first() else {
            let (new, news) = self.news.split_first()?;
            self.news = news;
            return Some(Side::New(new));
        };
        let Some((new, news)) = self.news.split_first() else {
            self.olds = olds;
            return Some(Side::Gone(old));
        };
        match order_of(old, new) {
            Ordering::Less => {
                self.olds = olds;
                Some(Side::Gone(old))
            }
            Ordering::Equal => {
                self.olds = olds;
                self.news = news;
                Some(Side::Both(old, new))
            }
            Ordering::Greater => {
                self.news = news;
                Some(Side::New(new))
            }
        }
    }
}

fn write_side<S: Alter>(
    tx: &mut Transaction<'_, S>,
    topic: &str,
    side: Side<'_>,
) -> Result<(), Error>
    requires { IsOfOneRun side }
    ensures same_reference { tx.new.conn.ghost_name ≡ tx.old.conn.ghost_name }
    ensures survives { Survives (state S.Store tx.old.conn.now) (state S.Store tx.new.conn.now) (λ _. ⊥) }
    ensures done { HasCleanDisk (state S.Store tx.new.conn.now) → OnOk result (Goes (Swaps ACK (map (ack_cells topic.now) (old_of side.entry)) (map (ack_cells topic.now) (new_of side.entry))) (state S.Store tx.old.conn.now) (state S.Store tx.new.conn.now)) }
{
    match side {
        Side::Gone(old) => acks::remove(tx, topic, old),
        Side::New(new) => acks::add(tx, topic, new),
        Side::Both(old, new) => acks::set_last(tx, topic, old, new.last),
    }
}

/// Writes what changed of the runs of a topic.
pub fn write<S: Alter>(
    tx: &mut Transaction<'_, S>,
    topic: &str,
    rows: &Difference<AckRow>,
) -> Result<(), Error>
    ensures same_reference { tx.new.conn.ghost_name ≡ tx.old.conn.ghost_name }
    ensures survives { Survives (state S.Store tx.old.conn.now) (state S.Store tx.new.conn.now) (λ _. ⊥) }
    ensures done { HasCleanDisk (state S.Store tx.new.conn.now) → OnOk result (Goes (Swaps ACK (map (ack_cells topic.now) rows.now.gone.items) (map (ack_cells topic.now) rows.now.news.items)) (state S.Store tx.old.conn.now) (state S.Store tx.new.conn.now)) }
{
    let mut walk = Walk {
        olds: &rows.gone,
        news: &rows.news,
    };
    'sides: while let Some(side) = walk.next() {
        write_side(tx, topic, side)?;
    }
    Ok(())
}
