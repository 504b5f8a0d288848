// The rows of runs of acknowledged messages.
ghost use Rattle.std.specs.Prelude.{◌≡◌, ◌+◌, ◌<◌, ◌≤◌, ◌^◌, ℕ, List, IfNone, IfOk, IfSome};
ghost use Rattle.std.specs.FinSet as set;
ghost use Rattle.std.specs.Ordering.{nat_cmp};
ghost use Rattle.sqlite.specs.Order.{Row};
ghost use Rattle.delivery_machine.specs.Places.{AreBelow};
ghost use Rattle.row_reading.specs.Reading.{ArePast, BeginsWithRuns, IsRunAt};

use crate::cells::is_text;
use crate::places::index_at;
use ack_ranges::AckSet;
use position_core::SubscriptionName;
use sqlite::Row;
use std::alloc::{AllocError, Global};

/// A run, from the index of its first message to that of its last.
#[derive(Clone, Copy)]
struct Run {
    first: u64,
    last: u64,
}

/// The run of the subscription that the row shows.
fn run_in(row: &Row, name: &SubscriptionName, gone: u64, count: u64) -> Option<Run>
    ensures shown { IfSome result (λ run. IsRunAt name.now gone row.now run.first run.last) }
    ensures within { IfSome result (λ run. run.last < count) }
    ensures all_read { IfNone result ((first last : ℕ) → IsRunAt name.now gone row.now first last → last < count → ⊥) }
{
    if row.column_count() != 3 || !is_text(row, 0, name.as_str()) {
        return None;
    }
    let first = index_at(row, 1, gone)?;
    let last = index_at(row, 2, gone)?;
    if last < count {
        Some(Run { first, last })
    } else {
        None
    }
}

/// The indexes in the runs of the subscription, whose rows are the first ones, and the rows that follow, where `gone`
/// messages are gone. None where a run is not below `count`, or not apart from the one before it.
pub(crate) fn runs_in<'a>(
    alloc: Global,
    name: &SubscriptionName,
    rows: &'a [Row],
    gone: u64,
    count: u64,
) -> Result<Option<(AckSet, &'a [Row])>, AllocError>
    requires { count < 2 ^ 63 }
    ensures runs { IfOk result (λ found. IfSome found (λ r. BeginsWithRuns name.now gone r.0 rows.now r.1.now)) }
    ensures below { IfOk result (λ found. IfSome found (λ r. AreBelow count r.0)) }
    ensures past { IfOk result (λ found. IfSome found (λ r. ArePast name.now r.1.now)) }
    ensures all_read { IfOk result (λ found. IfNone found ((places : set.FinSet nat_cmp) (rest : List Row) → BeginsWithRuns name.now gone places rows.now rest → AreBelow count places → ArePast name.now rest → ⊥)) }
{
    let mut places = AckSet::new(alloc);
    let mut rest = rows;
    'runs: while let Some((row, after)) = rest.split_first() {
        if !is_text(row, 0, name.as_str()) {
            return Ok(Some((places, rest)));
        }
        let Some(run) = run_in(row, name, gone, count) else {
            return Ok(None);
        };
        if !places.push_range(run.first, run.last + 1)? {
            return Ok(None);
        }
        rest = after;
    }
    Ok(Some((places, rest)))
}
