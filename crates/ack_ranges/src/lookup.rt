// What is read of the ranges.
ghost use Rattle.std.specs.Prelude.{◌<◌, IsTrue, ◌↔◌, IfSome, IfNone};
ghost use Rattle.std.specs.Ordering.{nat_cmp};
ghost use Rattle.std.specs.BTreeMap as tree;
ghost use Rattle.ack_ranges.specs.Joining.{IsLastUpTo, NoneUpTo};
ghost use Rattle.ack_ranges.specs.Kept.{set_of, AreSmall, IsEndOf};
ghost use Rattle.ack_ranges.specs.Ranges.{RiseAbove, IsNextMissing, MayFollow};

use crate::place::Place;
use std::collections::BTreeMap;

/// The last range that begins at the place or before it.
pub(crate) fn last_up_to(ranges: &BTreeMap<Place, Place>, place: Place) -> Option<(Place, Place)>
    ensures some { IfSome result (λ r. IsLastUpTo (tree.get nat_cmp ranges.now) place r.0 r.1) }
    ensures none { IfNone result (NoneUpTo (tree.get nat_cmp ranges.now) place) }
    ensures ordered { tree.IsOrdered nat_cmp ranges.now }
{
    match ranges.range(..=place).next_back() {
        Some((start, end)) => Some((*start, *end)),
        None => None,
    }
}

pub(crate) fn next_missing(low: Place, ranges: &BTreeMap<Place, Place>, from: Place) -> Place
    requires rise { RiseAbove low ranges.now.entries }
    requires small { AreSmall ranges.now.entries }
    ensures { IsNextMissing (set_of low ranges.now.entries) from result }
{
    if from < low {
        return low;
    }
    match last_up_to(ranges, from) {
        Some((_, end)) => { if from < end { end } else { from } }
        None => from,
    }
}

/// The least number above all that are in the set.
fn end_of(low: Place, ranges: &BTreeMap<Place, Place>) -> Place
    requires rise { RiseAbove low ranges.now.entries }
    requires small { AreSmall ranges.now.entries }
    ensures { IsEndOf (set_of low ranges.now.entries) result }
{
    match ranges.last_key_value() {
        Some((_, end)) => *end,
        None => low,
    }
}

/// Whether a range may come after all that are there.
pub(crate) fn may_follow(
    low: Place,
    ranges: &BTreeMap<Place, Place>,
    start: Place,
    end: Place,
) -> bool
    requires rise { RiseAbove low ranges.now.entries }
    requires small { AreSmall ranges.now.entries }
    ensures { IsTrue result ↔ MayFollow (set_of low ranges.now.entries) start end }
{
    let last = end_of(low, ranges);
    start < end && (last == 0 || last < start)
}
