// The rows of messages that were redelivered.
ghost use Rattle.std.specs.Prelude.{◌≡◌, ◌<◌, ◌≤◌, ℕ, List, pos, IfNone, IfOk, IfSome};
ghost use Rattle.std.specs.FinMap as map_of;
ghost use Rattle.sqlite.specs.declared.types.Value.TheVariants.{Int};
ghost use Rattle.sqlite.specs.Order.{Row, column};
ghost use Rattle.position_core.specs.declared.position.Position.{Position};
ghost use Rattle.position_core.specs.Position.{position_cmp};
ghost use Rattle.delivery_machine.specs.Places.{positions_at};
ghost use Rattle.delivery_machine.specs.State.{DeadLetter};
ghost use Rattle.delivery_machine.specs.Ticking.{most_count};
ghost use Rattle.delivery_machine.specs.WellFormed.{AreCountsOf};
ghost use Rattle.row_forms.specs.Parts.{IsRising};
ghost use Rattle.row_reading.specs.Places.{seen};
ghost use Rattle.row_reading.specs.Reading.{AreDeadAt, ArePast, BeginsWithCounts, IsCountAt, MayCount};

use crate::cells::{is_text, whole_at};
use crate::places::{Kept, index_at, position_of};
use ack_ranges::AckSet;
use delivery_machine::{Counted, Counts, Times};
use position_core::SubscriptionName;
use sqlite::Row;
use std::alloc::{AllocError, Global};

/// What counts are read for: the log, and the indexes of the messages that the subscription acknowledged, and of
/// those that died.
#[derive(Clone, Copy)]
pub(crate) struct Done<'a> {
    pub(crate) kept: Kept<'a>,
    pub(crate) acknowledged: &'a AckSet,
    pub(crate) dead: &'a AckSet,
}

/// How often a message may have been redelivered.
fn times_at(row: &Row, at: usize) -> Option<Times>
    ensures shown { IfSome result (λ n. column row.now at ≡ Int (pos n)) }
    ensures redelivered { IfSome result (λ n. 0 < n) }
    ensures most { IfSome result (λ n. n ≤ most_count) }
    ensures all_read { IfNone result ((n : ℕ) → column row.now at ≡ Int (pos n) → 0 < n → n ≤ most_count → ⊥) }
{
    Times::new(u32::try_from(whole_at(row, at)?).ok()?)
}

/// The message that the row shows, and how often it was redelivered: none where the message is acknowledged or dead.
fn counted_in(row: &Row, name: &SubscriptionName, done: Done<'_>) -> Option<Counted>
    requires { IsRising (seen done.kept).log }
    ensures shown { IfSome result (λ c. IsCountAt name.now (seen done.entry.kept) row.now (c.position, c.times)) }
    ensures may { IfSome result (λ c. MayCount (seen done.entry.kept).log done.entry.acknowledged.now done.entry.dead.now (c.position, c.times)) }
    ensures all_read { IfNone result ((counted : Position × ℕ) → MayCount (seen done.entry.kept).log done.entry.acknowledged.now done.entry.dead.now counted → IsCountAt name.now (seen done.entry.kept) row.now counted → ⊥) }
{
    if row.column_count() != 3 || !is_text(row, 0, name.as_str()) {
        return None;
    }
    let index = index_at(row, 1, done.kept.gone)?;
    let position = position_of(done.kept.log, index)?;
    let times = times_at(row, 2)?;
    if done.acknowledged.contains(index) || done.dead.contains(index) {
        return None;
    }
    Some(Counted { position, times })
}

/// The counts of the subscription, whose rows are the first ones, and the rows that follow. None where a message is
/// acknowledged or dead, or does not come after the one before it.
pub(crate) fn counts_in<'a>(
    alloc: Global,
    name: &SubscriptionName,
    rows: &'a [Row],
    done: Done<'_>,
) -> Result<Option<(Counts, &'a [Row])>, AllocError>
    requires { IsRising (seen done.kept).log }
    ensures rows { IfOk result (λ found. IfSome found (λ r. BeginsWithCounts name.now (seen done.entry.kept) r.0 rows.now r.1.now)) }
    ensures counted { IfOk result (λ found. IfSome found (λ r. (dead : List DeadLetter) → AreDeadAt (seen done.entry.kept).log dead done.entry.dead.now
        → AreCountsOf (seen done.entry.kept).log (positions_at (seen done.entry.kept).log done.entry.acknowledged.now) dead r.0)) }
    ensures past { IfOk result (λ found. IfSome found (λ r. ArePast name.now r.1.now)) }
    ensures all_read { IfOk result (λ found. IfNone found ((dead : List DeadLetter) (counts : map_of.FinMap position_cmp ℕ) (rest : List Row) → AreDeadAt (seen done.entry.kept).log dead done.entry.dead.now
        → AreCountsOf (seen done.entry.kept).log (positions_at (seen done.entry.kept).log done.entry.acknowledged.now) dead counts
        → BeginsWithCounts name.now (seen done.entry.kept) counts rows.now rest → ArePast name.now rest → ⊥)) }
{
    let mut counts = Counts::new(alloc);
    let mut rest = rows;
    'counts: while let Some((row, after)) = rest.split_first() {
        if !is_text(row, 0, name.as_str()) {
            return Ok(Some((counts, rest)));
        }
        let Some(counted) = counted_in(row, name, done) else {
            return Ok(None);
        };
        if !counts.is_after_all(counted.position) {
            return Ok(None);
        }
        counts.push(counted)?;
        rest = after;
    }
    Ok(Some((counts, rest)))
}
