// One set of places less another.
ghost use Rattle.std.specs.Prelude.{◌≡◌, ◌+◌, ◌<◌, ◌≤◌, ℕ, List, Bool, true, false, not, ◌&&◌, ◌||◌, nat_le, nat_lt, IfOk, IfSome, OnOk};
ghost use Rattle.std.specs.FinSet as set;
ghost use Rattle.topic_subscriptions.specs.Less.{AreAdded, EndBefore, IsFirstRange, IsNextOwed};

use ack_ranges::{AckSet, Ranges};
use number_sets::PlaceBits;
use position_core::LogIndex;
use std::alloc::{AllocError, Global};

/// Takes a step for each range of `all` and each owed place.
pub(crate) fn less(alloc: Global, all: &AckSet, owed: &PlaceBits) -> Result<AckSet, AllocError>
    ensures { IfOk result (λ left. left ≡ set.difference all.now owed.now.places) }
{
    let mut left = AckSet::new(alloc);
    let mut ranges = all.ranges();
    'each: while let Some((start, end)) = first_of(&mut ranges) {
        push_less(&mut left, owed, start, end)?;
    }
    Ok(left)
}

fn first_of(ranges: &mut Ranges<'_>) -> Option<(LogIndex, LogIndex)>
    ensures { IsFirstRange result ranges.old ranges.new }
{
    ranges.next()
}

/// Puts a range behind all that are there, without the owed places in it.
fn push_less(
    left: &mut AckSet,
    owed: &PlaceBits,
    start: LogIndex,
    end: LogIndex,
) -> Result<(), AllocError>
    requires some { start < end }
    requires apart { EndBefore left.old start }
    ensures { OnOk result (AreAdded left.old owed.now.places start end left.new) }
{
    let mut from = start;
    'each: loop {
        let next = next_owed(owed, from, end);
        push(left, from, next)?;
        if next == end {
            return Ok(());
        }
        from = next + 1;
    }
}

/// Puts a range behind all that are there, if it is not empty.
fn push(left: &mut AckSet, start: LogIndex, end: LogIndex) -> Result<(), AllocError>
    requires { EndBefore left.old start }
    ensures { OnOk result ((k : ℕ) → set.contains left.new k ≡ (set.contains left.old k || (nat_le start k && nat_lt k end))) }
{
    match left.push_range(start, end) {
        Ok(_) => Ok(()),
        Err(failed) => Err(failed),
    }
}

/// The least owed place from `from` on, or the end where none stands before it.
fn next_owed(owed: &PlaceBits, from: LogIndex, end: LogIndex) -> LogIndex
    requires { from ≤ end }
    ensures { IsNextOwed owed.now.places from end result }
{
    match owed.next_from(from) {
        Some(place) => place.min(end),
        None => end,
    }
}
