// What changes of the row of what is gone, and of the topic's own rule of what is kept.
ghost use Rattle.std.specs.Prelude.{◌≡◌, ℕ, List, Some, IfOk, IsTrue};
ghost use Rattle.row_forms.specs.Changes.{retention_cells};
ghost use Rattle.row_forms.specs.Forms.{retention_row, retention_rows};
ghost use Rattle.row_forms.specs.Parts.{RetentionsDiffer, listed, row_in};

use crate::change::{Difference, RetentionRow};
use delivery_machine::{Retention, Snapshot};
use std::alloc::{AllocError, Global};

/// The row of a rule of its own, where so many messages are gone.
fn row_by(gone: u64, rule: &Retention) -> RetentionRow
    ensures { (topic : List ℕ) → retention_cells topic result ≡ retention_row topic gone (Some rule.now) }
{
    match rule {
        Retention::All => RetentionRow {
            gone,
            kind: 1,
            amount: 0,
        },
        Retention::Messages(count) => RetentionRow {
            gone,
            kind: 2,
            amount: u64::from(count.get()),
        },
        Retention::Age(age) => RetentionRow {
            gone,
            kind: 3,
            amount: age.millis(),
        },
    }
}

fn row_with(gone: u64, rule: &Option<Retention>) -> RetentionRow
    ensures { (topic : List ℕ) → retention_cells topic result ≡ retention_row topic gone rule.now }
{
    match rule {
        Some(rule) => row_by(gone, rule),
        None => RetentionRow {
            gone,
            kind: 0,
            amount: 0,
        },
    }
}

/// The row of a snapshot, if it has one.
pub(crate) fn row_of(kept: &Snapshot) -> Option<RetentionRow>
    ensures { (topic : List ℕ) → row_in topic result ≡ retention_rows topic kept.now.gone kept.now.retention }
{
    let gone = kept.gone();
    let rule = kept.retention();
    if gone == 0 && rule.is_none() {
        return None;
    }
    Some(row_with(gone, &rule))
}

/// Whether both are one row, or none.
fn is_same(old: &Option<RetentionRow>, new: &Option<RetentionRow>) -> bool
    ensures { IsTrue result → old.now ≡ new.now }
{
    match old {
        Some(old) => match new {
            Some(new) => old == new,
            None => false,
        },
        None => new.is_none(),
    }
}

fn listed(alloc: Global, row: &Option<RetentionRow>) -> Result<Vec<RetentionRow>, AllocError>
    ensures { IfOk result (λ rows. rows.items ≡ listed row.now) }
{
    let mut rows = Vec::new(alloc);
    if let Some(row) = row {
        rows.push(*row)?;
    }
    Ok(rows)
}

/// Whether a topic's row goes, and whether one comes.
pub(crate) fn retention_difference(
    alloc: Global,
    old: &Option<RetentionRow>,
    new: &Option<RetentionRow>,
) -> Result<Difference<RetentionRow>, AllocError>
    ensures { IfOk result (RetentionsDiffer old.now new.now) }
{
    if is_same(old, new) {
        return Ok(Difference::none(alloc));
    }
    let gone = listed(alloc, old)?;
    let news = listed(alloc, new)?;
    Ok(Difference { gone, news })
}
